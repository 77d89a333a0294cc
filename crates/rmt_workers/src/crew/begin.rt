//! A crew begins with tables at rest.
ghost use Rattle.std.specs.Prelude.{◌≡◌, ◌<◌, ◌^◌, false, length, map, IfOk};
ghost use Rattle.rmt_model.specs.Words.{Each};
ghost use Rattle.rmt_shared.specs.SharedTables.{name_at, named};
ghost use Rattle.rmt_workers.specs.Closing.{AreAtRest};
ghost use Rattle.rmt_workers.specs.Settled.{EachFrom, MayShare, MayShareAt};

use crate::carried::Carried;
use crate::crew::Crew;
use rmt_pass::Pass;
use rmt_replica::Replica;
use rmt_shared::{Naming, SharedReplica, SharedTables};
use rmt_state::State;
use rmt_table::TableTree;
use std::alloc::{AllocError, Global};
use std::sync::Mutex;
use std::sync::atomic::AtomicBool;
use std::sync::ledger::Blank;

/// Puts each replica of the table at a place under a lock. At an error no memory was left.
fn lock_each<N: Naming>(
    alloc: Global,
    table: usize,
    replicas: Vec<Replica>,
) -> Result<Vec<Mutex<SharedReplica<N>>>, AllocError>
    requires { Each (MayShare (name_at N.tables table) N.replicas (N.offered table)) replicas.items }
{
    let mut locks = Vec::with_capacity(alloc, replicas.len())?;
    'replicas: for replica in replicas {
        locks.push(Mutex::new(SharedReplica::<N>::new(table, replica)))?;
    }
    Ok(locks)
}

/// The tables, apart from their replicas, each of which is under a lock. At an error no memory was left.
fn take_apart<N: Naming>(
    alloc: Global,
    states: Vec<State>,
) -> Result<(Vec<TableTree>, Vec<Vec<Mutex<SharedReplica<N>>>>), AllocError>
    requires { EachFrom (MayShareAt N.tables N.replicas N.offered) 0 states.items }
    ensures { IfOk result (λ made. made.0.items ≡ map (λ s. s.tree) states.items) }
{
    let mut trees = Vec::with_capacity(alloc, states.len())?;
    let mut locks = Vec::with_capacity(alloc, states.len())?;
    'states: for state in states {
        let (tree, replicas) = state.into_parts();
        let table = trees.len();
        trees.push(tree)?;
        locks.push(lock_each::<N>(alloc, table, replicas)?)?;
    }
    Ok((trees, locks))
}

impl<N: Naming> Crew<N> {
    /// The locks round these tables and round each of their replicas, and the client that knows of them what it did.
    ///
    /// At an error no memory was left.
    pub fn new(
        alloc: Global,
        carried: Carried,
        entries: Blank,
    ) -> Result<(Crew<N>, Pass<N>), AllocError>
        requires named { map (λ s. named s.tree) carried.states.items ≡ N.tables }
        requires rest { AreAtRest N.offered carried.up.items carried.known.items carried.states.items }
        requires ups { length carried.up.items ≡ N.replicas }
        requires few { length carried.states.items < 2 ^ 32 }
        requires name { entries.name ≡ N.entries_name }
        requires parts { entries.parts ≡ N.parts }
        requires some { 0 < N.parts }
        ensures pass { IfOk result (λ made. made.1 ≡ record { tables = carried.known.items; up = carried.up.items; gave_up = false }) }
    {
        let Carried { states, known, up } = carried;
        let (trees, replicas) = take_apart::<N>(alloc, states)?;
        let (tables, all) = SharedTables::<N>::open(trees, entries);
        let pass = Pass::<N>::new(known, up, all);
        let crew = Crew {
            tables: Mutex::new(tables),
            replicas,
            stopped: AtomicBool::new(false),
            alloc,
        };
        Ok((crew, pass))
    }
}
