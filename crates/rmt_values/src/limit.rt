/// What there may be only so many of.
#[derive(Clone, Copy, Debug, PartialEq, Eq)]
pub enum Limit {
    /// Tables of a script: 4.
    Tables,
    /// Columns of a table: 64.
    Columns,
    /// Partitions of a table: 1,024.
    Partitions,
    /// Block numbers of a partition: 65,536.
    Numbers,
    /// Mutations of a table: 1,024.
    Mutations,
    /// Entries of a table's log by clients: 32,768.
    ClientEntries,
    /// Entries of a table's log by background work: 32,768.
    WorkerEntries,
    /// Values in the accepted blocks of a table, rows times columns: 8,388,608.
    Values,
}
