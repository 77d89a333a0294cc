ghost use Rattle.std.specs.Prelude.{◌≡◌, [], true, false, None, Some, cond, is_some, slice_get, IfOk, IfErr, OnOk, OnErr, ◌⊎◌, Ok, Err};
ghost use Rattle.std.specs.Borrow.{MutBor};
ghost use Rattle.std.specs.Fn.{FnOnceReturnsAtMut};
ghost use Rattle.std.specs.declared.alloc.AllocError.{AllocError};
ghost use Rattle.std.specs.Option.{option_map, option_copied};
ghost use Rattle.rmt_paths.specs.Paths.{parent, last_name};
ghost use Rattle.std.specs.FinSet as set;
ghost use Rattle.rmt_tree.specs.Trees.{TreeView, first_from, node_at, children, value_and_version, is_open, children_at, opened, empty_tree, ended, IsLeastFree};
ghost use Rattle.rmt_tree.specs.Shapes.{IsSound};
ghost use Rattle.rmt_tree.specs.Trees.{lent_data};
ghost use Rattle.rmt_tree.specs.declared.op.Op.TheVariants as op;
ghost use Rattle.rmt_tree.specs.Ops.{refusal, after, answer, first_refusal, after_all, answers, IsRefusal, IsCauseOf};

use crate::done::Done;
use crate::multi::{draft_all, draft_one};
use crate::multi_error::MultiError;
use crate::op::Op;
use crate::op_error::OpError;
use crate::ops::{name_nodes, names_node};
use crate::session::Session;
use crate::sessions::{clear, open_at, open_first};
use crate::slot_map::Slots;
use crate::slots::{commit, prepare, untrack_all};
use crate::tracked_session::TrackedSession;
use rmt_paths::Path;
use rmt_values::{Blob, Name};
use std::alloc::{AllocError, Global};
use std::marker::Model;

/// A coordination tree. Contracts see its nodes by their paths, and the numbers of the open sessions.
#[derive(Drop)]
pub struct Tree {
    slots: Slots,
    tracker: Vec<TrackedSession>,
}

impl Model for Tree {
    ghost use Rattle.rmt_tree.specs.Trees.{TreeView, tree_code};
    ghost use Rattle.std.specs.Prelude.{[]};
    ghost use Rattle.std.specs.FinMap as map;
    ghost use Rattle.rmt_tree.specs.Drafts.{tree_of, IsKept};

    ghost Value = { TreeView };

    ghost coded = { tree_code };

    ghost view = { λ t. tree_of [] (map.entries t.slots) t.tracker.items };

    ghost invariant = { λ t. IsKept (map.entries t.slots) t.tracker.items };
}

impl Tree {
    /// Makes a tree of the root alone, without sessions.
    pub fn new(alloc: Global) -> Tree
        ensures { result ≡ empty_tree }
    {
        Tree {
            slots: Slots::new(alloc),
            tracker: Vec::new(alloc),
        }
    }

    /// Does these operations one after the other, or none of them.
    ///
    /// At an error the tree is as it was: `Refused` names the first operation that can't be done after those before it.
    pub fn multi(&mut self, ops: &[Op]) -> Result<Vec<Done>, MultiError>
        ensures all { OnOk result (first_refusal self.old ops.now 0 ≡ None) }
        ensures ok { OnOk result (self.new ≡ after_all self.old ops.now) }
        ensures answers { IfOk result (λ dones. dones.items ≡ answers self.old ops.now) }
        ensures refused { IfErr result (IsRefusal (first_refusal self.old ops.now 0)) }
        ensures err { OnErr result (self.new ≡ self.old) }
    {
        let alloc = *self.tracker.allocator();
        name_nodes(ops);
        match draft_all(alloc, &self.slots, &self.tracker, ops) {
            Ok(outcome) => {
                prepare(alloc, &mut self.slots, &mut self.tracker, &outcome.changes)?;
                commit(&mut self.slots, &mut self.tracker, outcome.changes);
                Ok(outcome.dones)
            }
            Err(error) => Err(error),
        }
    }

    /// Changes a state besides, and then does these operations one after the other; or neither. All memory is taken
    /// before the state is changed, and nothing is refused after it.
    ///
    /// At an error the tree is as it was. `change` wasn't called then, or it answered that no memory was left.
    pub fn multi_after<S, X, F: FnOnce(&mut S) -> Result<X, AllocError>>(
        &mut self,
        ops: &[Op],
        state: &mut S,
        change: F,
    ) -> Result<X, MultiError>
    where
        F: Drop,
        requires { (at : MutBor S) → at.now ≡ state.old → F.pre change at }
        ensures all { OnOk result (first_refusal self.old ops.now 0 ≡ None) }
        ensures ok { OnOk result (self.new ≡ after_all self.old ops.now) }
        ensures changed { IfOk result (λ x. FnOnceReturnsAtMut F.FnOnce change state.old (Ok x) state.new) }
        ensures unchanged { IfErr result (λ e. (state.new ≡ state.old)
            ⊎ ((none : AllocError) × FnOnceReturnsAtMut F.FnOnce change state.old (Err none) state.new)) }
        ensures refused { IfErr result (IsRefusal (first_refusal self.old ops.now 0)) }
        ensures err { OnErr result (self.new ≡ self.old) }
    {
        let alloc = *self.tracker.allocator();
        name_nodes(ops);
        let outcome = draft_all(alloc, &self.slots, &self.tracker, ops)?;
        prepare(alloc, &mut self.slots, &mut self.tracker, &outcome.changes)?;
        match change(state) {
            Ok(made) => {
                commit(&mut self.slots, &mut self.tracker, outcome.changes);
                Ok(made)
            }
            Err(_) => {
                untrack_all(&self.slots, &mut self.tracker, &outcome.changes);
                Err(MultiError::Memory)
            }
        }
    }

    /// Opens a session. Its number is the least that no open session has.
    ///
    /// At an error no memory was left, and the tree is as it was.
    pub fn open_session(&mut self) -> Result<Session, AllocError>
        ensures number { IfOk result (λ session. IsLeastFree self.old session.number) }
        ensures ok { IfOk result (λ session. self.new ≡ opened self.old session.number) }
        ensures err { OnErr result (self.new ≡ self.old) }
    {
        let alloc = *self.tracker.allocator();
        let index = open_first(alloc, &mut self.tracker)?;
        Ok(Session {
            number: index as u64,
        })
    }

    /// Ends a session and removes its ephemeral nodes, if it is open. It takes no memory.
    pub fn end_session(&mut self, session: Session)
        ensures ended { self.new ≡ ended self.old session.number }
        ensures closed { is_open self.old session.number ≡ false → self.new ≡ self.old }
    {
        let index = session.number as usize;
        if !open_at(&self.tracker, index) {
            return;
        }
        let tracked = &mut self.tracker[index];
        clear(&mut self.slots, tracked, session.number);
        tracked.open = false;
    }

    /// Creates a node: `multi` of this one operation.
    pub fn create(
        &mut self,
        path: Path,
        value: Blob,
        sequential: bool,
        owner: Option<u64>,
    ) -> Result<Done, OpError>
        ensures all { OnOk result (refusal self.old (op.Create path value sequential owner)
            ≡ None) }
        ensures ok { OnOk result (self.new
            ≡ after self.old (op.Create path value sequential owner)) }
        ensures answer { IfOk result (λ done. done
            ≡ answer self.old (op.Create path value sequential owner)) }
        ensures refused { IfErr result (IsCauseOf self.old
            (op.Create path value sequential owner)) }
        ensures err { OnErr result (self.new ≡ self.old) }
    {
        let op = Op::Create {
            path,
            value,
            sequential,
            owner,
        };
        self.single(&op)
    }

    /// Sets the data of a node: `multi` of this one operation.
    pub fn set(&mut self, path: Path, value: Blob, version: Option<u64>) -> Result<Done, OpError>
        ensures all { OnOk result (refusal self.old (op.Set path value version) ≡ None) }
        ensures ok { OnOk result (self.new ≡ after self.old (op.Set path value version)) }
        ensures answer { IfOk result (λ done. done ≡ answer self.old (op.Set path value version)) }
        ensures refused { IfErr result (IsCauseOf self.old (op.Set path value version)) }
        ensures err { OnErr result (self.new ≡ self.old) }
    {
        let op = Op::Set {
            path,
            value,
            version,
        };
        self.single(&op)
    }

    /// Deletes a node: `multi` of this one operation.
    pub fn delete(&mut self, path: Path, version: Option<u64>) -> Result<Done, OpError>
        ensures all { OnOk result (refusal self.old (op.Delete path version) ≡ None) }
        ensures ok { OnOk result (self.new ≡ after self.old (op.Delete path version)) }
        ensures answer { IfOk result (λ done. done ≡ answer self.old (op.Delete path version)) }
        ensures refused { IfErr result (IsCauseOf self.old (op.Delete path version)) }
        ensures err { OnErr result (self.new ≡ self.old) }
    {
        let op = Op::Delete { path, version };
        self.single(&op)
    }

    /// Checks a node's version: `multi` of this one operation.
    pub fn check(&mut self, path: Path, version: u64) -> Result<Done, OpError>
        ensures all { OnOk result (refusal self.old (op.Check path version) ≡ None) }
        ensures ok { OnOk result (self.new ≡ after self.old (op.Check path version)) }
        ensures answer { IfOk result (λ done. done ≡ answer self.old (op.Check path version)) }
        ensures refused { IfErr result (IsCauseOf self.old (op.Check path version)) }
        ensures err { OnErr result (self.new ≡ self.old) }
    {
        let op = Op::Check { path, version };
        self.single(&op)
    }

    /// Does one operation.
    fn single(&mut self, op: &Op) -> Result<Done, OpError>
        ensures all { OnOk result (refusal self.old op.now ≡ None) }
        ensures ok { OnOk result (self.new ≡ after self.old op.now) }
        ensures answer { IfOk result (λ done. done ≡ answer self.old op.now) }
        ensures refused { IfErr result (IsCauseOf self.old op.now) }
        ensures err { OnErr result (self.new ≡ self.old) }
    {
        let alloc = *self.tracker.allocator();
        names_node(op);
        let outcome = draft_one(alloc, &self.slots, &self.tracker, op)?;
        prepare(alloc, &mut self.slots, &mut self.tracker, &outcome.changes)?;
        commit(&mut self.slots, &mut self.tracker, outcome.changes);
        Ok(outcome.done)
    }

    /// The names of a node's children, in the order of their bytes; `None` where there is no such node.
    pub fn children(&self, path: &Path) -> Result<Option<Vec<Name>>, AllocError>
        ensures { IfOk result (λ names. option_map (λ ns. ns.items) names
            ≡ children_at self.now path.now) }
    {
        if self.slots.node(path.place()).is_none() {
            return Ok(None);
        }
        let alloc = *self.tracker.allocator();
        let names = self.slots.children(alloc, path.place())?;
        Ok(Some(names))
    }

    /// The name of a node's least child, in the order of bytes. It takes no memory.
    pub fn first_child(&self, path: &Path) -> Option<&[u8]>
        ensures { option_copied result ≡ slice_get (children self.now path.now) 0 }
    {
        self.slots.first_sibling(path.children_start())
    }

    /// The least name from this path's name on, among the children of the path's parent. It takes no memory.
    pub fn child_from(&self, low: &Path) -> Option<&[u8]>
        ensures { option_copied result
            ≡ first_from (last_name low.now) (children self.now (parent low.now)) }
    {
        self.slots.first_sibling(low.place())
    }

    /// What holds of every tree: each node is below one that isn't ephemeral, and the session that owns a node is open.
    pub fn sound(&self)
        ensures { IsSound self.now }
    {
        let _slots = &self.slots;
    }

    /// The data and the version of a node. It takes no memory.
    pub fn get(&self, path: &Path) -> Option<(&Blob, u64)>
        ensures { option_map lent_data result
            ≡ option_map value_and_version (node_at self.now path.now) }
    {
        let node = self.slots.node(path.place())?;
        Some((node.value(), node.version()))
    }

    /// How many sequential nodes were created below a node, which is the number of the next one. It takes no memory.
    pub fn counter(&self, path: &Path) -> Option<u64>
        ensures { result ≡ option_map (λ n. n.counter) (node_at self.now path.now) }
    {
        let node = self.slots.node(path.place())?;
        Some(u64::from(node.counter()))
    }

    /// The open session of this number. It takes no memory.
    pub fn session(&self, number: u64) -> Option<Session>
        ensures { result ≡ cond (is_open self.now number) (Some (record { number = number })) None }
    {
        let tracked = self.tracker.get(number as usize)?;
        if tracked.open {
            Some(Session { number })
        } else {
            None
        }
    }
}
