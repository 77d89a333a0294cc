//! Calls of a tree and what each comes to, as plain data.
use rmt_tree::Cause;

/// An operation of a multi. The four modes in which a node is created are ZooKeeper's.
#[derive(Clone, Copy)]
pub(crate) enum Operation {
    /// A node of this path and data.
    Persistent(&'static str, &'static str),
    /// A node that this session owns.
    Ephemeral(&'static str, &'static str, u64),
    /// A node whose name goes on with the parent's counter.
    PersistentSequential(&'static str, &'static str),
    /// Such a node that this session owns.
    EphemeralSequential(&'static str, &'static str, u64),
    /// The data of a node of this version, or of any.
    Set(&'static str, &'static str, Option<u64>),
    /// A node of this version, or of any, goes.
    Delete(&'static str, Option<u64>),
    /// A node has this version.
    Check(&'static str, u64),
}

/// What an operation comes to.
#[derive(Clone, Copy)]
pub(crate) enum Answer {
    /// There is a node of this path.
    Created(&'static str),
    /// The node has this version.
    Set(u64),
    Deleted,
    Checked,
}

/// A call of a tree.
#[derive(Clone, Copy)]
pub(crate) enum Call {
    /// A session begins.
    Open,
    /// A session ends.
    End(u64),
    /// Operations, all or none; a single one is done by its own call.
    Multi(&'static [Operation]),
}

/// The reply to a call.
#[derive(Clone, Copy)]
pub(crate) enum Reply {
    /// A session began that has this number.
    Session(u64),
    /// Whether there was a session to end.
    Ended(bool),
    /// All operations were done.
    Done(&'static [Answer]),
    /// The operation of this number, from 0, was refused.
    Refused(usize, Cause),
}

/// A node: its path, data, version and counter.
pub(crate) type Node = (&'static str, &'static str, u64, u64);

/// Calls with their replies, and all nodes after each of them: the upper ones first, children in their order. So the first
/// call makes these nodes, and the others leave them.
pub(crate) type Stage = (&'static [(Call, Reply)], &'static [Node]);
