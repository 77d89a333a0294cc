//! A new table with its replicas.
ghost use Rattle.std.specs.Prelude.{◌≡◌, ◌≤◌, [], length, IfOk};
ghost use Rattle.std.specs.Arc.{arc_value};
ghost use Rattle.rmt_events.specs.Starts.{new_table};
ghost use Rattle.rmt_table.specs.TableTrees.{table_at};
ghost use Rattle.rmt_state.specs.NewStates.{IsNewState, numbers_up, empty_replicas};

use crate::state::State;
use rmt_replica::Replica;
use rmt_table::TableTree;
use rmt_values::{ReplicaId, Schema};
use std::alloc::{AllocError, Global};
use std::sync::Arc;

/// Starts the sessions of the replicas that are up. At an error no memory was left, and the table is gone.
fn open_sessions(alloc: Global, mut tree: TableTree, up: &[bool]) -> Result<TableTree, AllocError>
    requires is_new { table_at tree ≡ new_table tree.schema [] }
    requires all { length tree.sessions ≡ length up.now }
    requires few { length up.now ≤ 8 }
    ensures sessions { IfOk result (λ t. table_at t ≡ new_table tree.schema (numbers_up 1 up.now)) }
    ensures replicas { IfOk result (λ t. length t.sessions ≡ length up.now) }
{
    let mut number: ReplicaId = 0;
    'sessions: for is_up in up {
        number += 1;
        if *is_up {
            tree.open(alloc, number)?;
        }
    }
    Ok(tree)
}

/// Makes replicas that have nothing. At an error no memory was left.
fn new_replicas(
    alloc: Global,
    schema: &Arc<Schema, Global>,
    up: &[bool],
) -> Result<Vec<Replica>, AllocError>
    requires few { length up.now ≤ 8 }
    ensures { IfOk result (λ made. made.items ≡ empty_replicas (arc_value schema.now) 1 up.now) }
{
    let mut replicas = Vec::with_capacity(alloc, up.len())?;
    let mut number: ReplicaId = 0;
    'replicas: for is_up in up {
        number += 1;
        let schema = Arc::try_clone(schema)?;
        replicas.push(Replica::new(alloc, number, schema, *is_up))?;
    }
    Ok(replicas)
}

impl State {
    /// A new table of 1 to 8 replicas that have nothing; those that are up have a session. At an error no memory was left.
    pub fn new(alloc: Global, schema: Arc<Schema, Global>, up: &[bool]) -> Result<State, AllocError>
        requires some { 1 ≤ length up.now }
        requires few { length up.now ≤ 8 }
        ensures { IfOk result (IsNewState (arc_value schema) up.now) }
    {
        let replicas = new_replicas(alloc, &schema, up)?;
        let table = TableTree::new(alloc, schema, up.len() as u8)?;
        let tree = open_sessions(alloc, table, up)?;
        Ok(State { tree, replicas })
    }
}
