ghost use Rattle.std.specs.Prelude.{◌≡◌, ◌<◌, length};
ghost use Rattle.std.specs.Arc.{arc_value};
ghost use Rattle.rmt_pass.specs.Passes.{client_at};
ghost use Rattle.rmt_threaded.specs.ThreadedTables.{SameOffers};

use crate::access::Access;
use crate::offers::Offers;
use rmt_outside::Gate;
use rmt_pass::Pass;
use rmt_shared::Naming;
use rmt_values::Schema;
use rmt_workers::Crew;
use std::alloc::Global;
use std::marker::{Model, PhantomData};
use std::sync::{Arc, Wait};

/// What a client knows of a table among workers, and how it comes to their locks. Contracts see the table's place, and what the
/// client knows of all tables.
#[derive(Drop)]
pub struct ThreadedTable<'a, N: Naming, O: Offers, R: Wait, G: Gate> {
    pub(crate) access: Access<'a, N, R, G>,
    pub(crate) table: usize,
    pub(crate) schema: Arc<Schema, Global>,
    pub(crate) pass: Pass<N>,
    of: PhantomData<O>,
}

impl<'a, N: Naming, O: Offers, R: Wait, G: Gate> Model for ThreadedTable<'a, N, O, R, G> {
    ghost use Rattle.rmt_threaded.specs.ThreadedTables.{ThreadedView, IsThreaded};
    ghost use Rattle.std.specs.Arc.{arc_value};
    ghost use Rattle.std.specs.Coded.{codes};
    ghost use Rattle.rmt_values.specs.contracts.checked.Checked as filter;

    ghost Value = { ThreadedView };

    ghost coded = { Prim.hlevel (codes, filter.the_row.coded) };

    ghost view = { λ t. record { table = t.table; pass = t.pass } };

    ghost invariant = { λ t. IsThreaded O.blocks N.tables N.offered (arc_value t.schema) (record { table = t.table; pass = t.pass }) };
}

impl<'a, N: Naming, O: Offers, R: Wait, G: Gate> ThreadedTable<'a, N, O, R, G> {
    /// The table at a place, of this schema, for a client that knows this. `rt` is what it waits with, and `gate` may hold it at the
    /// points of its statements.
    pub fn new(
        rt: &'a R,
        crew: &'a Crew<N>,
        gate: &'a G,
        table: usize,
        schema: Arc<Schema, Global>,
        pass: Pass<N>,
    ) -> ThreadedTable<'a, N, O, R, G>
        requires table { table < length pass.tables }
        requires schema { arc_value schema ≡ (client_at pass table).schema }
        requires offers { SameOffers O.blocks N.tables N.offered }
        ensures { result ≡ record { table = table; pass = pass } }
    {
        // That what is known is of the named table is known here.
        pass.known(table);
        ThreadedTable {
            access: Access { rt, crew, gate },
            table,
            schema,
            pass,
            of: PhantomData,
        }
    }

    /// What its client knows of all tables.
    pub fn into_pass(self) -> Pass<N>
        ensures { result ≡ self.entry.pass }
    {
        let ThreadedTable { pass, .. } = self;
        pass
    }
}
