//! The laws of lawful logs.
ghost use Rattle.std.specs.Prelude.{◌≡◌, ◌≤◌, ◌∷◌, ℕ, Bool, List};
ghost use Rattle.std.specs.declared.option.Option.{Option};
ghost use Rattle.std.specs.declared.option.Option.TheVariants.{None};
ghost use Rattle.rmt_values.specs.Rows.{Shape};
ghost use Rattle.rmt_entries.specs.declared.entry.Entry.{Entry};
ghost use Rattle.rmt_entries.specs.declared.entry.Entry.TheVariants.{Get, DropRange};
ghost use Rattle.rmt_model.specs.Lawful.{Lawful};
ghost use Rattle.rmt_model.specs.Live.{live};
ghost use Rattle.rmt_names.specs.Names.{Name, block_name};
ghost use Rattle.rmt_model.specs.Laws.{LiveApart, BlocksLiveOnce, LaterCovers, CoversNoneButItself, PendingAbove, ContentStays, ReadsPlainRows};
ghost use Rattle.rmt_model.specs.Fair.{AreFair, AllMarked};
ghost use Rattle.rmt_model.specs.Quorum.{Quorum, IsQuorum, quorum_after_block, quorum_after_drop, quorum_after_note};

/// Live names share no number, and each block above the drops lies in exactly one of them.
pub fn blocks_live_once()
    ensures apart { (schema : Shape) (log : List Entry) → Lawful schema log → LiveApart log }
    ensures once { (schema : Shape) (log : List Entry) → Lawful schema log → BlocksLiveOnce log }
{}

/// Of two made names that overlap the later covers the earlier, and no name is made twice.
pub fn later_covers()
    ensures { (schema : Shape) (log : List Entry) → Lawful schema log → LaterCovers log }
{}

/// A made name that covers a live one is that one.
pub fn covers_none_but_itself()
    ensures { (schema : Shape) (log : List Entry) → Lawful schema log → CoversNoneButItself log }
{}

/// A mutation that is pending for a made name has a number above the name's range.
pub fn pending_above()
    ensures { (schema : Shape) (log : List Entry) → Lawful schema log → PendingAbove log }
{}

/// The content of a made name stays as the log grows.
pub fn content_stays()
    ensures { (schema : Shape) (e : Entry) (log : List Entry) → Lawful schema (e ∷ log) → ContentStays schema log e }
{}

/// Names that are fair for every place of a lawful log are exactly the live names.
pub fn fair_live()
    ensures { (schema : Shape) (log : List Entry) (marked : ℕ → Bool) (names : List Name) → Lawful schema log → AreFair log marked names → AllMarked log marked → names ≡ live log }
{}

/// The live parts, read with the mutations that are pending for each, are the plain rows.
pub fn reads_plain_rows()
    ensures { (schema : Shape) (log : List Entry) → Lawful schema log → ReadsPlainRows schema log }
{}

/// The quorum of a table is that of its log, after a block, a drop and a note. Other entries leave it as it is.
pub fn a_quorum_follows_its_log()
    // A block that asks for a quorum is accepted only where no part waits for its own.
    ensures block { (schema : Shape) (log : List Entry) (p : Option ℕ) (n : ℕ) (digest : List ℕ) (source need : ℕ) (q : Quorum) → Lawful schema (Get p n digest source need ∷ log) → (2 ≤ need → q.pending ≡ None) → IsQuorum log q → IsQuorum (Get p n digest source need ∷ log) (quorum_after_block (block_name p n) need q) }
    ensures drop { (schema : Shape) (log : List Entry) (p : Option ℕ) (n : ℕ) (q : Quorum) → Lawful schema (DropRange p n ∷ log) → IsQuorum log q → IsQuorum (DropRange p n ∷ log) (quorum_after_drop p n q) }
    ensures noted { (log : List Entry) (replica : ℕ) (q : Quorum) → IsQuorum log q → IsQuorum log (quorum_after_note replica q) }
{}
