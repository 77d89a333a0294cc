//! What a part's type says of every lawful log that has the part's entries.
ghost use Rattle.std.specs.Prelude.{◌≡◌, ◌<◌, ◌∷◌, List, length, map};
ghost use Rattle.rmt_block.specs.Blocks.{id_of};
ghost use Rattle.rmt_entries.specs.declared.entry.Entry.{Entry};
ghost use Rattle.rmt_model.specs.Lawful.{IsPrefix, Lawful};
ghost use Rattle.rmt_model.specs.Content.{Blocks, content};
ghost use Rattle.rmt_model.specs.CopiedParts.{IsCopied};
ghost use Rattle.rmt_part.specs.Lineages.{PartValue, IsPart, IsOfLog, IsOfTable, HasEntries, AgreeOn};
ghost use Rattle.rmt_part.specs.CopiedPart.{copied};

/// Law: in each lawful log that has the part's entry and those of its lineage, its rows are the content of its name.
pub fn rows_are_content()
    ensures { (part : PartValue) (log : List Entry) (blocks : Blocks) → IsPart part → Lawful part.schema log
        → HasEntries log part → AgreeOn blocks part → part.body.rows ≡ content part.schema log blocks part.name }
{}

/// Law: a part whose entries stand in a lawful log is, as a cluster sees it, one of that log: its blocks are exactly the log's of
/// its name's range, and its rows are the content that the log gives to its name.
pub fn a_part_is_seen_as_its_log_says()
    ensures { (part : PartValue) (log : List Entry) → IsPart part → Lawful part.schema log → IsOfLog log part
        → IsCopied part.schema log (copied part) }
{}

/// Law: a log in which a part's entries stand at their places has them, and goes on having them as it grows.
pub fn entries_stay()
    ensures has { (part : PartValue) (log : List Entry) → IsPart part → IsOfLog log part → HasEntries log part }
    ensures grown { (part : PartValue) (log : List Entry) (e : Entry) → IsOfLog log part → IsOfLog (e ∷ log) part }
    ensures longer { (part : PartValue) (shorter longer : List Entry) → IsPrefix shorter longer → IsOfLog shorter part
        → IsOfLog longer part }
{}

/// Law: a part of a table that was made within a copy of the table's log has its whole lineage in the copy. So has a part of a
/// longer log in each prefix of it that has the part's own entry.
pub fn made_within_a_copy()
    ensures table { (part : PartValue) (log : List Entry) → IsPart part → IsOfTable log part → part.made.place < length log
        → IsOfLog log part }
    ensures prefix { (part : PartValue) (copy longer : List Entry) → IsPart part → IsPrefix copy longer
        → part.made.place < length copy → IsOfLog longer part → IsOfLog copy part }
{}

/// Law: two parts of one name that were made in one log are of blocks of the same ids; and where the blocks are the same, their
/// data is equal.
pub fn parts_of_one_name_agree()
    ensures ids { (p q : PartValue) (log : List Entry) → IsPart p → IsPart q → Lawful p.schema log → IsOfLog log p → IsOfLog log q
        → p.name ≡ q.name → map (λ b. id_of b.block) p.blocks ≡ map (λ b. id_of b.block) q.blocks }
    ensures data { (p q : PartValue) (log : List Entry) → IsPart p → IsPart q → Lawful p.schema log → IsOfLog log p → IsOfLog log q
        → p.name ≡ q.name → p.schema ≡ q.schema → map (λ b. b.block) p.blocks ≡ map (λ b. b.block) q.blocks → p.body ≡ q.body }
{}
