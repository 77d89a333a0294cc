/// Why bytes were not decoded as an entry.
#[derive(Clone, Copy, Debug, PartialEq, Eq)]
pub enum EntryError {
    /// No entry in range has these bytes.
    NotAnEntry,
    /// No memory was left. The bytes may be those of an entry or not: decode them again when there is more.
    Memory,
}
