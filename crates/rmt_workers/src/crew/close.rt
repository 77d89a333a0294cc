//! What a crew leaves, once no other thread has it.
ghost use Rattle.std.specs.Prelude.{◌≡◌, ◌<◌, ◌+◌, true, length, map, IfOk, IsTrue, OnOk};
ghost use Rattle.rmt_model.specs.Lawful.{Lawful};
ghost use Rattle.rmt_shared.specs.SharedTables.{named};
ghost use Rattle.rmt_pass.specs.Passes.{client_at};
ghost use Rattle.rmt_workers.specs.Closing.{AreAtRest, HasSeenAll};
ghost use Rattle.rmt_workers.specs.Settled.{AreTakenBack, EachFrom, HasAllKnown, IsHandedBack, IsSettled, IsTakenBack, SeesTo, Settles, SettlesTo};

use crate::carried::Carried;
use crate::crew::{Crew, set_as_known};
use rmt_pass::Pass;
use rmt_readings::readable_parts;
use rmt_replica::Replica;
use rmt_shared::{Naming, SharedReplica, SharedTables};
use rmt_state::State;
use rmt_table::TableTree;
use std::alloc::{AllocError, Global};
use std::sync::{Mutex, Wait};

/// Returns where what was compared is the same. Where it differs it never does: nothing changes any more.
fn insist<R: Wait>(rt: &R, is: bool)
    ensures { is ≡ true }
{
    if is {
        return;
    }
    'tries: for _ in rt.forever() {}
    unreachable!()
}

/// Has the client take over what lies in the table at a place, and sees that just the replicas that are up have a session
/// there. At an error no memory was left.
fn settle<N: Naming, R: Wait>(
    rt: &R,
    alloc: Global,
    pass: &mut Pass<N>,
    tables: &mut SharedTables<N>,
    table: usize,
) -> Result<(), AllocError>
    requires { table < length pass.old.tables }
    ensures { OnOk result (Settles N.tables N.replicas N.offered pass.old table pass.new tables.old tables.new) }
{
    let has_seen = pass.see(alloc, tables, table)?;
    insist(rt, has_seen);
    pass.open_sessions(alloc, tables, table)?;
    // What always holds of the table is known here.
    let _tree = tables.table(table);
    Ok(())
}

/// Does so at each table. At an error no memory was left.
fn settle_all<N: Naming, R: Wait>(
    rt: &R,
    alloc: Global,
    pass: &mut Pass<N>,
    tables: &mut SharedTables<N>,
) -> Result<(), AllocError>
    ensures { OnOk result (SettlesTo N.tables N.replicas N.offered pass.old (length pass.old.tables) pass.new tables.new) }
{
    'tables: for table in 0..pass.len() {
        settle(rt, alloc, pass, tables, table)?;
    }
    Ok(())
}

/// The tables, once the client has taken over what lies in them. At an error no memory was left.
fn settled_trees<N: Naming, R: Wait>(
    rt: &R,
    alloc: Global,
    pass: &mut Pass<N>,
    lock: Mutex<SharedTables<N>>,
) -> Result<Vec<TableTree>, AllocError>
    ensures sees { OnOk result (SeesTo N.offered pass.old (length pass.old.tables) pass.new) }
    ensures named { IfOk result (λ trees. map named trees.items ≡ N.tables) }
    ensures count { IfOk result (λ trees. length trees.items ≡ length pass.new.tables) }
    ensures settled { IfOk result (λ trees. EachFrom (IsSettled N.tables N.replicas N.offered pass.new) 0 trees.items) }
{
    let mut tables = lock.into_inner();
    settle_all(rt, alloc, pass, &mut tables)?;
    insist(rt, tables.len() == pass.len());
    tables.has_named_tables();
    Ok(tables.into_tables())
}

/// Whether a replica of the table at a place that is up has all that the client knows to be there. At an error no memory
/// was left.
fn has_parts<N: Naming>(
    alloc: Global,
    pass: &Pass<N>,
    table: usize,
    tree: &TableTree,
    here: &SharedReplica<N>,
) -> Result<bool, AllocError>
    requires table { table < length pass.now.tables }
    requires of { here.now.table ≡ table }
    requires settled { IsSettled N.tables N.replicas N.offered pass.now table tree.now }
    ensures { IfOk result (λ has. IsTrue has → HasAllKnown (client_at pass.now table) here.now.replica) }
{
    let parts = readable_parts(alloc, pass.known(table), tree, here.replica())?;
    Ok(parts.is_some())
}

/// Whether a replica of the table at a place has all that the client knows to be there. One that is down is up while its
/// parts are compared. At an error no memory was left.
fn has_all_known<N: Naming>(
    alloc: Global,
    pass: &Pass<N>,
    table: usize,
    tree: &TableTree,
    here: &mut SharedReplica<N>,
) -> Result<bool, AllocError>
    requires table { table < length pass.now.tables }
    requires of { here.old.table ≡ table }
    requires settled { IsSettled N.tables N.replicas N.offered pass.now table tree.now }
    ensures replica { OnOk result (here.new.replica ≡ record here.old.replica { done = here.new.replica.done }) }
    ensures table { here.new.table ≡ here.old.table }
    ensures has { IfOk result (λ has. IsTrue has → HasAllKnown (client_at pass.now table) here.new.replica) }
{
    if here.replica().is_up() {
        return has_parts(alloc, pass, table, tree, here);
    }
    here.restart();
    let has = has_parts(alloc, pass, table, tree, here)?;
    here.kill();
    Ok(has)
}

/// Takes the replica of the table at a place out of its lock that comes after so many others, once it is as the client
/// knows it. At an error no memory was left.
fn take_back<N: Naming, R: Wait>(
    rt: &R,
    alloc: Global,
    pass: &Pass<N>,
    table: usize,
    tree: &TableTree,
    before: usize,
    lock: Mutex<SharedReplica<N>>,
) -> Result<Replica, AllocError>
    requires table { table < length pass.now.tables }
    requires settled { IsSettled N.tables N.replicas N.offered pass.now table tree.now }
    ensures { IfOk result (IsTakenBack N.offered pass.now table tree.now (before + 1)) }
{
    let mut here = lock.into_inner();
    insist(rt, here.table() == table);
    insist(rt, usize::from(here.replica().number()) - 1 == before);
    set_as_known(pass, table, &mut here);
    let has_all = has_all_known(alloc, pass, table, tree, &mut here)?;
    insist(rt, has_all);
    // What always holds of the replica is known here.
    let replica = here.replica();
    let _copy = replica.copy();
    Ok(here.into_replica())
}

/// Takes the replicas of the table at a place out of their locks, once they are as the client knows them. At an error no
/// memory was left.
fn take_all_back<N: Naming, R: Wait>(
    rt: &R,
    alloc: Global,
    pass: &Pass<N>,
    table: usize,
    tree: &TableTree,
    locks: Vec<Mutex<SharedReplica<N>>>,
) -> Result<Vec<Replica>, AllocError>
    requires table { table < length pass.now.tables }
    requires settled { IsSettled N.tables N.replicas N.offered pass.now table tree.now }
    ensures { IfOk result (λ replicas. AreTakenBack N.offered pass.now table tree.now replicas.items) }
{
    let mut replicas = Vec::with_capacity(alloc, locks.len())?;
    'locks: for lock in locks {
        let replica = take_back(rt, alloc, pass, table, tree, replicas.len(), lock)?;
        replicas.push(replica)?;
    }
    Ok(replicas)
}

/// How many entries of the log of a table at a place the client knows.
fn count_entries<N: Naming>(pass: &Pass<N>, table: usize) -> usize
    requires { table < length pass.now.tables }
    ensures lawful { Lawful (client_at pass.now table).schema (client_at pass.now table).log }
    ensures count { result ≡ length (client_at pass.now table).log }
{
    pass.known(table).copy().len()
}

/// The table at a place with its replicas, once these are as the client knows them. At an error no memory was left.
fn hand_back<N: Naming, R: Wait>(
    rt: &R,
    alloc: Global,
    pass: &Pass<N>,
    table: usize,
    tree: TableTree,
    locks: Vec<Mutex<SharedReplica<N>>>,
) -> Result<State, AllocError>
    requires table { table < length pass.now.tables }
    requires settled { IsSettled N.tables N.replicas N.offered pass.now table tree }
    ensures tree { IfOk result (λ s. s.tree ≡ tree) }
    ensures back { IfOk result (IsHandedBack N.tables N.replicas N.offered pass.now table) }
{
    let replicas = take_all_back(rt, alloc, pass, table, &tree, locks)?;
    insist(rt, replicas.len() == pass.known(table).replicas());
    // That its log is lawful is known here.
    let _entries = count_entries(pass, table);
    Ok(State::from_parts(tree, replicas))
}

/// The tables with their replicas, once these are as the client knows them. At an error no memory was left.
fn hand_all_back<N: Naming, R: Wait>(
    rt: &R,
    alloc: Global,
    pass: &Pass<N>,
    trees: Vec<TableTree>,
    replicas: Vec<Vec<Mutex<SharedReplica<N>>>>,
) -> Result<Vec<State>, AllocError>
    requires tables { length trees.items ≡ length pass.now.tables }
    requires settled { EachFrom (IsSettled N.tables N.replicas N.offered pass.now) 0 trees.items }
    ensures trees { IfOk result (λ states. map (λ s. s.tree) states.items ≡ trees.items) }
    ensures back { IfOk result (λ states. EachFrom (IsHandedBack N.tables N.replicas N.offered pass.now) 0 states.items) }
{
    let mut states = Vec::with_capacity(alloc, trees.len())?;
    let mut rest = replicas.into_iter();
    'tables: for tree in trees {
        let locks = match rest.next() {
            Some(locks) => locks,
            None => Vec::new(alloc),
        };
        let state = hand_back(rt, alloc, pass, states.len(), tree, locks)?;
        states.push(state)?;
    }
    Ok(states)
}

impl<N: Naming> Crew<N> {
    /// The tables at rest with their replicas, and what the client knows of them, for the next crew. No other thread has this
    /// one any more.
    ///
    /// All that lies under the locks is compared with what the client knows: where it differs this never returns. At an
    /// error no memory was left, and the tables are gone.
    pub fn close<R: Wait>(self, rt: &R, pass: Pass<N>) -> Result<Carried, AllocError>
        ensures named { IfOk result (λ c. map (λ s. named s.tree) c.states.items ≡ N.tables) }
        ensures rest { IfOk result (λ c. AreAtRest N.offered c.up.items c.known.items c.states.items) }
        ensures ups { IfOk result (λ c. c.up.items ≡ pass.up) }
        ensures seen { IfOk result (λ c. HasSeenAll N.offered pass c.known.items) }
    {
        let mut pass = pass;
        let Crew {
            tables,
            replicas,
            alloc,
            ..
        } = self;
        let trees = settled_trees(rt, alloc, &mut pass, tables)?;
        let states = hand_all_back(rt, alloc, &pass, trees, replicas)?;
        let (known, up) = pass.into_known();
        Ok(Carried { states, known, up })
    }
}
