ghost use Rattle.std.specs.Prelude.{◌≡◌, ◌≤◌, length};
ghost use Rattle.rmt_values.specs.Schemas.{IsSchema};
ghost use Rattle.rmt_state.specs.States.{IsState};
ghost use Rattle.rmt_state.specs.States.{numbers_given};

mod assign;
mod changes;
mod entries;
mod inserts;
mod new;
mod notes;
mod pull;
mod sessions;
mod staging;
mod workers;

use rmt_replica::Replica;
use rmt_table::TableTree;
use std::marker::Model;

/// A table and its replicas, which are numbered from 1. Contracts see the table with its tree, and the replicas in order.
#[derive(Drop)]
pub struct State {
    tree: TableTree,
    replicas: Vec<Replica>,
}

impl Model for State {
    ghost use Rattle.std.specs.Coded.{codes};
    ghost use Rattle.rmt_values.specs.contracts.checked.Checked as filter;
    ghost use Rattle.rmt_tree.specs.Trees.{tree_code};
    ghost use Rattle.rmt_state.specs.States.{StateView, IsState};

    ghost Value = { StateView };

    ghost coded = { Prim.hlevel (codes, filter.the_row.coded, tree_code) };

    ghost view = { λ s. record { tree = s.tree; replicas = s.replicas.items } };

    ghost invariant = { λ s. IsState (record { tree = s.tree; replicas = s.replicas.items }) };
}

impl State {
    /// The table and its replicas, put together.
    pub fn from_parts(tree: TableTree, replicas: Vec<Replica>) -> State
        requires { IsState (record { tree = tree; replicas = replicas.items }) }
        ensures { result ≡ record { tree = tree; replicas = replicas.items } }
    {
        State { tree, replicas }
    }

    /// The table and its replicas, apart.
    pub fn into_parts(self) -> (TableTree, Vec<Replica>)
        ensures tree { result.0 ≡ self.tree }
        ensures replicas { result.1.items ≡ self.replicas }
        ensures state { IsState self }
    {
        let State { tree, replicas } = self;
        (tree, replicas)
    }

    /// The table.
    pub fn tree(&self) -> &TableTree
        ensures { result.now ≡ self.now.tree }
    {
        &self.tree
    }

    /// The replicas, in the order of their numbers.
    pub fn replicas(&self) -> &[Replica]
        ensures { result.now ≡ self.now.replicas }
    {
        &self.replicas
    }

    /// Tells what always holds of it: its replicas are those of its table, the table's partitions have given no more numbers
    /// than their limits allow, and its schema is one. It does nothing.
    pub fn sound(&self)
        ensures state { IsState self.now }
        ensures numbers { numbers_given self.now.tree.next ≤ 67108864 }
        ensures few { length self.now.tree.log ≤ 65536 }
        ensures schema { IsSchema self.now.tree.schema }
    {
        self.tree.no_limit_is_passed();
        // What the type of a schema keeps is known where its columns are read.
        let _columns = self.tree.schema().columns();
    }
}
