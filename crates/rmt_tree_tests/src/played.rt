//! Calls that are made of a tree.
use crate::steps::{Answer, Call, Node, Operation, Reply, Stage};
use rmt_tree::{Done, MultiError, Op, OpError, Path, Tree};
use rmt_values::{Blob, Name};
use std::alloc::Global;
use std::test::Fail;

/// The first stage on a new tree of which a call comes otherwise.
pub(crate) fn first_to_differ(alloc: Global, stages: &[Stage]) -> Result<Option<usize>, Fail> {
    let mut tree = Tree::new(alloc);
    for (place, stage) in stages.iter().enumerate() {
        if !comes_so(&mut tree, alloc, stage)? {
            return Ok(Some(place));
        }
    }
    Ok(None)
}

/// Does the calls of a stage, and tells whether each comes as told.
fn comes_so(tree: &mut Tree, alloc: Global, stage: &Stage) -> Result<bool, Fail> {
    let (calls, nodes) = *stage;
    for (call, reply) in calls {
        if !answers(tree, alloc, *call, *reply)? || !has_nodes(tree, alloc, nodes)? {
            return Ok(false);
        }
    }
    Ok(true)
}

/// Does a call, and tells whether its reply is this one.
fn answers(tree: &mut Tree, alloc: Global, call: Call, reply: Reply) -> Result<bool, Fail> {
    match call {
        Call::Open => opens(tree, reply),
        Call::End(number) => Ok(ends(tree, number, reply)),
        Call::Multi(operations) => match operations {
            [operation] => does_one(tree, alloc, *operation, reply),
            _ => does(tree, alloc, operations, reply),
        },
    }
}

fn opens(tree: &mut Tree, reply: Reply) -> Result<bool, Fail> {
    let session = tree.open_session()?;
    match reply {
        Reply::Session(number) => Ok(session.number == number),
        _ => Ok(false),
    }
}

fn ends(tree: &mut Tree, number: u64, reply: Reply) -> bool {
    let session = tree.session(number);
    if let Some(session) = session {
        tree.end_session(session);
    }
    match reply {
        Reply::Ended(was_open) => session.is_some() == was_open,
        _ => false,
    }
}

fn does(
    tree: &mut Tree,
    alloc: Global,
    operations: &[Operation],
    reply: Reply,
) -> Result<bool, Fail> {
    let ops = ops_of(alloc, operations)?;
    match tree.multi(&ops) {
        Ok(dones) => are_done(alloc, &dones, reply),
        Err(MultiError::Refused { index, cause }) => match reply {
            Reply::Refused(at, why) => Ok(at == index && why == cause),
            _ => Ok(false),
        },
        Err(MultiError::Memory) => Err("out of memory".into()),
    }
}

/// Does one operation by its own call.
fn does_one(
    tree: &mut Tree,
    alloc: Global,
    operation: Operation,
    reply: Reply,
) -> Result<bool, Fail> {
    let op = op_of(alloc, operation)?;
    match single(tree, op) {
        Ok(done) => match reply {
            Reply::Done([answer]) => is_done(alloc, &done, *answer),
            _ => Ok(false),
        },
        Err(OpError::Refused(cause)) => match reply {
            Reply::Refused(0, why) => Ok(why == cause),
            _ => Ok(false),
        },
        Err(OpError::Memory) => Err("out of memory".into()),
    }
}

fn single(tree: &mut Tree, op: Op) -> Result<Done, OpError> {
    match op {
        Op::Create {
            path,
            value,
            sequential,
            owner,
        } => tree.create(path, value, sequential, owner),
        Op::Set {
            path,
            value,
            version,
        } => tree.set(path, value, version),
        Op::Delete { path, version } => tree.delete(path, version),
        Op::Check { path, version } => tree.check(path, version),
    }
}

/// Whether a reply tells these results.
fn are_done(alloc: Global, dones: &[Done], reply: Reply) -> Result<bool, Fail> {
    let Reply::Done(told) = reply else {
        return Ok(false);
    };
    for (done, answer) in dones.iter().zip(told.iter()) {
        if !is_done(alloc, done, *answer)? {
            return Ok(false);
        }
    }
    Ok(dones.len() == told.len())
}

fn is_done(alloc: Global, done: &Done, answer: Answer) -> Result<bool, Fail> {
    match (done, answer) {
        (Done::Created(path), Answer::Created(text)) => {
            let found = path.text(alloc)?;
            Ok(found.as_slice() == text.as_bytes())
        }
        (Done::Set(version), Answer::Set(told)) => Ok(*version == told),
        (Done::Deleted, Answer::Deleted) => Ok(true),
        (Done::Checked, Answer::Checked) => Ok(true),
        _ => Ok(false),
    }
}

fn ops_of(alloc: Global, operations: &[Operation]) -> Result<Vec<Op>, Fail> {
    let mut ops = Vec::new(alloc);
    for operation in operations {
        ops.push(op_of(alloc, *operation)?)?;
    }
    Ok(ops)
}

fn op_of(alloc: Global, operation: Operation) -> Result<Op, Fail> {
    match operation {
        Operation::Persistent(path, data) => create(alloc, path, data, false, None),
        Operation::Ephemeral(path, data, owner) => create(alloc, path, data, false, Some(owner)),
        Operation::PersistentSequential(path, data) => create(alloc, path, data, true, None),
        Operation::EphemeralSequential(path, data, owner) => create(
            alloc,
            path,
            data,
            true,
            Some(owner),
        ),
        Operation::Set(path, data, version) => set(alloc, path, data, version),
        Operation::Delete(path, version) => delete(alloc, path, version),
        Operation::Check(path, version) => check(alloc, path, version),
    }
}

fn create(
    alloc: Global,
    path: &str,
    data: &str,
    sequential: bool,
    owner: Option<u64>,
) -> Result<Op, Fail> {
    let path = at(alloc, path)?;
    let value = value_of(alloc, data)?;
    Ok(Op::Create {
        path,
        value,
        sequential,
        owner,
    })
}

fn set(alloc: Global, path: &str, data: &str, version: Option<u64>) -> Result<Op, Fail> {
    let path = at(alloc, path)?;
    let value = value_of(alloc, data)?;
    Ok(Op::Set {
        path,
        value,
        version,
    })
}

fn delete(alloc: Global, path: &str, version: Option<u64>) -> Result<Op, Fail> {
    let path = at(alloc, path)?;
    Ok(Op::Delete { path, version })
}

fn check(alloc: Global, path: &str, version: u64) -> Result<Op, Fail> {
    let path = at(alloc, path)?;
    Ok(Op::Check { path, version })
}

/// The path of a text.
fn at(alloc: Global, text: &str) -> Result<Path, Fail> {
    match Path::new(alloc, text) {
        Ok(path) => Ok(path),
        Err(_) => Err("no path".into()),
    }
}

fn value_of(alloc: Global, data: &str) -> Result<Blob, Fail> {
    let bytes = Vec::from_slice(alloc, data.as_bytes())?;
    Ok(Blob::new(bytes))
}

/// Whether a tree has these nodes, their children in this order, and no others.
fn has_nodes(tree: &Tree, alloc: Global, nodes: &[Node]) -> Result<bool, Fail> {
    for node in nodes {
        if !has_node(tree, alloc, node)? || !has_children(tree, alloc, node.0, nodes)? {
            return Ok(false);
        }
    }
    has_top(tree, alloc, nodes)
}

fn has_node(tree: &Tree, alloc: Global, node: &Node) -> Result<bool, Fail> {
    let (path, data, version, counter) = *node;
    let path = at(alloc, path)?;
    let is_found = match tree.get(&path) {
        Some((value, found)) => value.as_bytes() == data.as_bytes() && found == version,
        None => false,
    };
    Ok(is_found && tree.counter(&path) == Some(counter))
}

/// Whether the children of a node are those of its path among these, of which the first is also found alone.
fn has_children(tree: &Tree, alloc: Global, path: &str, nodes: &[Node]) -> Result<bool, Fail> {
    let place = at(alloc, path)?;
    let Some(names) = tree.children(&place)? else {
        return Ok(false);
    };
    Ok(is_first(tree.first_child(&place), names.first()) && are_children(&names, path, nodes))
}

/// Whether the name found alone is the first of the list.
fn is_first(found: Option<&[u8]>, first: Option<&Name>) -> bool {
    match (found, first) {
        (Some(found), Some(first)) => first.is(found),
        (None, None) => true,
        _ => false,
    }
}

/// Whether these are the names below a path among the nodes.
fn are_children(names: &[Name], path: &str, nodes: &[Node]) -> bool {
    let mut count = 0;
    for (below, _, _, _) in nodes {
        if let Some(name) = child_name(path, below) {
            match names.get(count) {
                Some(found) if found.is(name.as_bytes()) => count += 1,
                _ => return false,
            }
        }
    }
    count == names.len()
}

/// The last name of a path that is of a child of this one; the root's path is empty.
fn child_name<'a>(path: &str, below: &'a str) -> Option<&'a str> {
    match below.rsplit_once('/') {
        Some((parent, name)) if parent == path => Some(name),
        _ => None,
    }
}

/// Whether the nodes at the root are those among these, each found from just after the one before.
fn has_top(tree: &Tree, alloc: Global, nodes: &[Node]) -> Result<bool, Fail> {
    let mut low = at(alloc, "/!")?;
    for (path, _, _, _) in nodes {
        if let Some(name) = child_name("", path) {
            if tree.child_from(&low) != Some(name.as_bytes()) {
                return Ok(false);
            }
            low = just_after(alloc, path)?;
        }
    }
    Ok(tree.child_from(&low).is_none())
}

/// A path that comes after this one, and before the others of these tests.
fn just_after(alloc: Global, path: &str) -> Result<Path, Fail> {
    let mut text = String::from_str(alloc, path)?;
    text.push('!')?;
    at(alloc, text.as_str())
}
