//! What follows of the bytes of entries for all of them.
ghost use Rattle.std.specs.Prelude.{◌≡◌};
ghost use Rattle.rmt_entries.specs.declared.entry.Entry.{Entry as AnyEntry};
ghost use Rattle.rmt_entries.specs.EntryBytes.{entry_bytes, EntryInRange};

/// Law: two entries that have the same bytes are equal.
pub fn one_spelling()
    ensures { (a b : AnyEntry) →
        EntryInRange a → EntryInRange b → entry_bytes a ≡ entry_bytes b → a ≡ b }
{}
