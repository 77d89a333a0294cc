//! How a client comes to the locks of a crew, and what it does there in more than one step.
ghost use Rattle.std.specs.Prelude.{◌≡◌, ◌≢◌, ◌<◌, ◌≤◌, true, [], length, map, IfOk, OnOk, MatchOption};
ghost use Rattle.std.specs.Arc.{arc_value};
ghost use Rattle.std.specs.List.{All};
ghost use Rattle.rmt_events.specs.Clusters.{without_kinds};
ghost use Rattle.rmt_model.specs.Lawful.{mutation_count};
ghost use Rattle.rmt_statement_model.specs.Inserts.{InsertsAll, asked_at};
ghost use Rattle.rmt_statement_model.specs.TableStates.{with_switch};
ghost use Rattle.rmt_acts.specs.Checking.{AreDigests};
ghost use Rattle.rmt_shared.specs.SharedTables.{name_at};
ghost use Rattle.rmt_shared.specs.SharedReplicas.{IsNumber};
ghost use Rattle.rmt_shared.specs.ReplicaSupplies.{IsBlockOfNamed};
ghost use Rattle.rmt_pass.specs.Passes.{KeepsPass, TakesStep, client_at, up_in};
ghost use Rattle.rmt_threaded.specs.ThreadedTables.{AnswersAt, AreMutations, ComesTo};

use rmt_acts::{Insertion, digests_of};
use rmt_block::Block;
use rmt_entries::Entry;
use rmt_history::LogCopy;
use rmt_list::List;
use rmt_live_names::all_mutations;
use rmt_names::PartName;
use rmt_outside::Gate;
use rmt_pass::Pass;
use rmt_query::{Tuple, answer};
use rmt_row::Seen;
use rmt_shared::Naming;
use rmt_values::{CheckedQuery, ReplicaId, Schema};
use rmt_workers::Crew;
use std::alloc::{AllocError, Global};
use std::sync::{Arc, Wait};

/// How many mutations a copy has, whose log is within its limit.
pub(crate) fn count_mutations(copy: &LogCopy) -> u32
    requires few { length copy.now.log ≤ 65536 }
    ensures { result ≡ mutation_count copy.now.log }
{
    all_mutations(copy).len() as u32
}

/// The shared list of a copy's mutations, the oldest first; `None` where it has none. At an error no memory was left.
fn share_mutations(copy: &LogCopy) -> Result<Option<Arc<List<Seen<Entry>>, Global>>, AllocError>
    ensures { IfOk result (λ list. MatchOption list (AreMutations copy.now []) (λ l. AreMutations copy.now (arc_value l))) }
{
    match copy.mutations(copy.len()) {
        Some(list) => {
            let shared = list.clone()?;
            Ok(Some(shared))
        }
        None => Ok(None),
    }
}

/// The mutations of such a list.
fn slice_of(list: &Option<Arc<List<Seen<Entry>>, Global>>) -> &[Seen<Entry>]
    ensures { MatchOption list.now (result.now ≡ []) (λ l. result.now ≡ arc_value l) }
{
    match list {
        Some(list) => list.as_slice(),
        None => &[],
    }
}

/// How a client comes to the locks of a crew: what it waits with, and what may hold it at the points of its statements.
#[derive(Drop)]
pub(crate) struct Access<'a, N: Naming, R: Wait, G: Gate> {
    pub rt: &'a R,
    pub crew: &'a Crew<N>,
    pub gate: &'a G,
}

impl<'a, N: Naming, R: Wait, G: Gate> Access<'a, N, R, G> {
    /// Inserts blocks at a replica that is up, one after the other, until one is refused. At an error no memory was left, and what
    /// went in stays.
    pub(crate) fn insert_all(
        &self,
        alloc: Global,
        pass: &mut Pass<N>,
        table: usize,
        replica: ReplicaId,
        blocks: Vec<Block>,
        need: u32,
    ) -> Result<Insertion, AllocError>
        requires table { table < length pass.old.tables }
        requires here { IsNumber replica N.replicas }
        requires up { up_in pass.old.up replica ≡ true }
        requires quorum { need ≢ 1 }
        requires of { All (IsBlockOfNamed (name_at N.tables table) (N.offered table)) blocks.items }
        ensures inserts { IfOk result (λ i. ComesTo (N.offered table) (client_at pass.old table)
            (λ t u. InsertsAll true (up_in pass.old.up) t (asked_at replica need) (map without_kinds blocks.items) i.pieces i.refused u)
            (client_at pass.new table)) }
        ensures keeps { KeepsPass pass.old table pass.new }
    {
        let mut pieces = Vec::new(alloc);
        'inserts: for block in blocks {
            let shared = Arc::new(alloc, block)?;
            match self
                .crew
                .insert(self.rt, pass, table, replica, shared, need, self.gate)?
            {
                Ok(piece) => pieces.push(piece)?,
                Err(refusal) => {
                    let (pieces, refused) = (List::new(pieces), Some(refusal));
                    return Ok(Insertion { pieces, refused });
                }
            }
        }
        let (pieces, refused) = (List::new(pieces), None);
        Ok(Insertion { pieces, refused })
    }

    /// Lets a replica fetch from now on, or stops its fetches. At an error the client had given up.
    pub(crate) fn switch(
        &self,
        pass: &mut Pass<N>,
        table: usize,
        replica: ReplicaId,
        allowed: bool,
    ) -> Result<(), AllocError>
        requires table { table < length pass.old.tables }
        requires here { IsNumber replica N.replicas }
        ensures ok { OnOk result (TakesStep N.offered pass.old table (λ t u. u ≡ with_switch t replica allowed) pass.new) }
        ensures keeps { KeepsPass pass.old table pass.new }
    {
        if pass.gave_up() {
            return Err(AllocError);
        }
        self.crew
            .set_fetches(self.rt, pass, table, replica, allowed);
        Ok(())
    }

    /// What a query answers at a replica, with the mutations of the log as the client knew it before. At an error no memory was left.
    pub(crate) fn answer(
        &self,
        alloc: Global,
        pass: &mut Pass<N>,
        table: usize,
        replica: ReplicaId,
        query: &CheckedQuery,
        schema: &Schema,
    ) -> Result<Vec<Tuple>, AllocError>
        requires table { table < length pass.old.tables }
        requires schema { schema.now ≡ (client_at pass.old table).schema }
        requires named { schema.now ≡ (name_at N.tables table).schema }
        ensures answers { IfOk result (λ tuples. AnswersAt (N.offered table) (client_at pass.old table) replica query.now tuples.items) }
        ensures rests { OnOk result (TakesStep N.offered pass.old table (λ t u. u ≡ t) pass.new) }
        ensures keeps { KeepsPass pass.old table pass.new }
    {
        let mutations = share_mutations(pass.known(table).copy())?;
        let snapshot = self
            .crew
            .whole_snapshot(self.rt, pass, table, replica, self.gate)?;
        answer(alloc, &snapshot, query, schema, slice_of(&mutations))
    }

    /// The digests of a replica's active parts. At an error no memory was left.
    pub(crate) fn digests(
        &self,
        alloc: Global,
        pass: &mut Pass<N>,
        table: usize,
        replica: ReplicaId,
        schema: &Schema,
    ) -> Result<Vec<(PartName, [u8; 32])>, AllocError>
        requires table { table < length pass.old.tables }
        requires schema { schema.now ≡ (client_at pass.old table).schema }
        requires named { schema.now ≡ (name_at N.tables table).schema }
        ensures digests { IfOk result (λ all. TakesStep N.offered pass.old table (λ t u. AreDigests t replica all.items u) pass.new) }
        ensures keeps { KeepsPass pass.old table pass.new }
    {
        let snapshot = self
            .crew
            .snapshot(self.rt, pass, table, replica, self.gate)?;
        digests_of(alloc, snapshot.parts(), schema)
    }
}
