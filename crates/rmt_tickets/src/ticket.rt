ghost use Rattle.std.specs.Prelude.{◌≡◌};
ghost use Rattle.rmt_tickets.specs.Tickets.{ticket, in_range, place_of};

/// The most tables that a queue has tickets for.
pub const TABLES: u8 = 4;

/// The most replicas of a table that a queue has tickets for.
pub const REPLICAS: u8 = 8;

/// The number of pairs of a table and a replica.
pub const PLACES: usize = 32;

/// One table at one replica, whose background work is to be done.
#[derive(Clone, Copy, PartialEq, Eq, Debug)]
pub struct Ticket {
    table: u8,
    replica: u8,
}

impl Ticket {
    /// The ticket of a table and a replica, each counted from 0.
    pub fn new(table: u8, replica: u8) -> Ticket
        ensures { result ≡ ticket table replica }
    {
        Ticket { table, replica }
    }

    /// The table's number.
    pub fn table(self) -> u8
        ensures { result ≡ self.table }
    {
        self.table
    }

    /// The replica's number.
    pub fn replica(self) -> u8
        ensures { result ≡ self.replica }
    {
        self.replica
    }

    // Whether a queue may have it.
    pub(crate) fn is_in_range(self) -> bool
        ensures { result ≡ in_range self }
    {
        self.table < TABLES && self.replica < REPLICAS
    }

    // Where its count is kept.
    pub(crate) fn place(self) -> usize
        ensures { result ≡ place_of self }
    {
        self.table as usize * REPLICAS as usize + self.replica as usize
    }
}
