//! The tables of a script among workers.
ghost use Rattle.std.specs.Prelude.{◌≡◌, ◌<◌, ◌≤◌, length, map, IfOk, IfSome, OnOk, Some};
ghost use Rattle.std.specs.Arc.{arc_value};
ghost use Rattle.rmt_threaded.specs.ThreadedTables.{SameOffers};
ghost use Rattle.rmt_shared.specs.SharedReplicas.{IsNumber};
ghost use Rattle.rmt_play.specs.Seats.{IsKnownAmong, IsLent, IsSized, TurnsPass, schemas_named, seats_in};

use crate::act::act_at;
use crate::engine::Engine;
use crate::turns::run_in;
use rmt_outside::{Gate, Point};
use rmt_pass::Pass;
use rmt_reply::Line;
use rmt_shared::Naming;
use rmt_statements::Act;
use rmt_threaded::{Offers, ThreadedTable};
use rmt_values::{ReplicaId, Schema};
use rmt_workers::Crew;
use std::alloc::{AllocError, Global};
use std::marker::{Model, PhantomData};
use std::sync::{Arc, Wait};

/// The tables of a script among workers, as the one client knows them. Contracts see what it knows; nothing once an act stopped
/// halfway.
#[derive(Drop)]
pub(crate) struct Among<'a, N: Naming, O: Offers, R: Wait, G: Gate> {
    rt: &'a R,
    crew: &'a Crew<N>,
    gate: &'a G,
    /// The schema of each table.
    schemas: Vec<Arc<Schema, Global>>,
    pass: Option<Pass<N>>,
    /// How many replies were written.
    answered: u32,
    of: PhantomData<O>,
}

impl<'a, N: Naming, O: Offers, R: Wait, G: Gate> Model for Among<'a, N, O, R, G> {
    ghost use Rattle.std.specs.declared.option.Option.{Option};
    ghost use Rattle.std.specs.Coded.{codes};
    ghost use Rattle.rmt_values.specs.contracts.checked.Checked as filter;
    ghost use Rattle.rmt_pass.specs.Passes.{PassView};
    ghost use Rattle.std.specs.Prelude.{map};
    ghost use Rattle.std.specs.Arc.{arc_value};
    ghost use Rattle.rmt_play.specs.Seats.{IsAmong};

    ghost Value = { Option PassView };

    ghost coded = { Prim.hlevel (codes, filter.the_row.coded) };

    ghost view = { λ a. a.pass };

    ghost invariant = { λ a. IsAmong O.blocks N.tables N.offered (map arc_value a.schemas.items) };
}

impl<'a, N: Naming, O: Offers, R: Wait, G: Gate> Among<'a, N, O, R, G> {
    /// Tables of these schemas, of which a client knows this, after so many replies.
    pub(crate) fn new(
        rt: &'a R,
        crew: &'a Crew<N>,
        gate: &'a G,
        schemas: Vec<Arc<Schema, Global>>,
        pass: Pass<N>,
        answered: u32,
    ) -> Among<'a, N, O, R, G>
        requires schemas { map arc_value schemas.items ≡ schemas_named N.tables }
        requires same { SameOffers O.blocks N.tables N.offered }
        ensures { result ≡ Some pass }
    {
        Among {
            rt,
            crew,
            gate,
            schemas,
            pass: Some(pass),
            answered,
            of: PhantomData,
        }
    }

    /// Lends the table at a place what the client knows. At an error no memory was left, and nothing is known any more.
    fn lend(&mut self, place: usize) -> Result<ThreadedTable<'a, N, O, R, G>, AllocError>
        requires { place < length (seats_in self.old) }
        ensures { IfOk result (IsLent (length N.tables) N.replicas self.old place) }
    {
        let Some(pass) = self.pass.take() else {
            unreachable!()
        };
        // How many tables are known, and at how many replicas, is said here.
        pass.len();
        let schema = Arc::try_clone(&self.schemas[place])?;
        Ok(ThreadedTable::new(self.rt, self.crew, self.gate, place, schema, pass))
    }

    /// Takes back what was lent to a table.
    fn take_back(&mut self, table: ThreadedTable<'a, N, O, R, G>)
        ensures back { self.new ≡ Some table.entry.pass }
        ensures sized { IsSized (length N.tables) N.replicas table.entry.pass }
    {
        let pass = table.into_pass();
        pass.len();
        self.pass = Some(pass);
    }

    /// How many replies were written, and what the client knows.
    pub(crate) fn into_parts(self) -> (u32, Option<Pass<N>>)
        ensures pass { result.1 ≡ self.entry }
        ensures known { IfSome result.1 (IsKnownAmong N.replicas N.tables) }
    {
        let Among { pass, answered, .. } = self;
        if let Some(known) = &pass {
            // What always holds of what a client knows is known here.
            let _tables = known.len();
        }
        (answered, pass)
    }
}

/// Ends a replica's session in all tables, or begins another one. At an error no memory was left.
fn turn_in<N: Naming, R: Wait>(
    rt: &R,
    crew: &Crew<N>,
    pass: &mut Pass<N>,
    replica: ReplicaId,
    is_up: bool,
) -> Result<(), AllocError>
    requires { IsNumber replica N.replicas }
    ensures { OnOk result (TurnsPass replica is_up pass.old pass.new) }
{
    // At how many replicas the tables are is said here, and once more below.
    pass.len();
    if is_up {
        crew.restart(rt, pass, replica)?;
    } else {
        crew.kill(rt, pass, replica);
    }
    pass.len();
    Ok(())
}

impl<'a, N: Naming, O: Offers, R: Wait, G: Gate> Engine for Among<'a, N, O, R, G> {
    ghost use Rattle.rmt_play.specs.Seats.{seats_seen};

    ghost sights = { seats_seen O.blocks };

    ghost tables = { seats_in };

    fn act(
        &mut self,
        alloc: Global,
        place: usize,
        replica: ReplicaId,
        is_up: bool,
        act: &Act,
    ) -> Result<Line, AllocError> {
        let mut table = self.lend(place)?;
        let done = act_at(alloc, &mut table, replica, is_up, act);
        self.take_back(table);
        done
    }

    fn work(
        &mut self,
        alloc: Global,
        place: usize,
        turns: u32,
        seed: u32,
    ) -> Result<Line, AllocError> {
        let mut table = self.lend(place)?;
        let done = run_in(alloc, &mut table, turns, seed);
        self.take_back(table);
        done
    }

    fn turn(&mut self, _alloc: Global, replica: ReplicaId, is_up: bool) -> Result<(), AllocError> {
        match &mut self.pass {
            Some(pass) if pass.len() > 0 => turn_in(self.rt, self.crew, pass, replica, is_up),
            _ => Ok(()),
        }
    }

    fn answered(&mut self) {
        self.gate.pass(Point::Answered {
            statement: self.answered,
        });
        self.answered = self.answered.saturating_add(1);
    }

    fn clear(&mut self) {
        self.pass = None;
    }
}
