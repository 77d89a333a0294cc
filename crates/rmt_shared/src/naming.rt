ghost use Rattle.std.specs.Prelude.{ℕ, List, []};
ghost use Rattle.rmt_events.specs.Views.{Block};
ghost use Rattle.rmt_shared.specs.SharedTables.{NamedTable};

use std::marker::{Brand, PhantomData};
use std::sync::ledger::Ledger;

/// Which tables, and which book, the types of one crew speak of. Each crew picks its own.
pub trait Naming {
    /// The schema and the cells of each table, in the order in which they were created.
    ghost tables: { List NamedTable };

    /// How many replicas each of them has.
    ghost replicas: { ℕ };

    /// The blocks that may be inserted into the table at a place.
    ghost offered: { ℕ → Block → Type 0 };

    /// The name of the book of client entries.
    ghost entries_name: { ℕ };

    /// Into how many parts the shares of a book are cut.
    ghost parts: { ℕ };
}

impl Naming for Brand {
    ghost tables = { [] };

    ghost replicas = { 0 };

    ghost offered = { λ k b. ⊥ };

    ghost entries_name = { 0 };

    ghost parts = { 0 };
}

/// The book of the client entries of all tables.
pub struct ClientEntries<N: Naming> {
    of: PhantomData<N>,
}

impl<N: Naming> Ledger for ClientEntries<N> {
    ghost name = { N.entries_name };

    ghost parts = { N.parts };
}
