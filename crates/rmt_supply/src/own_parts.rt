//! What a replica has itself for an entry.
ghost use Rattle.std.specs.Prelude.{◌≡◌, ◌+◌, ◌<◌, [], map, length, IfOk};
ghost use Rattle.std.specs.Arc.{arc_value};
ghost use Rattle.rmt_model.specs.Words.{Has, Each};
ghost use Rattle.rmt_history.specs.Mutations.{mutations_below, AreTokensBelow};
ghost use Rattle.rmt_partset.specs.ActiveParts.{part_names};
ghost use Rattle.rmt_replica.specs.Replicas.{copy_of};
ghost use Rattle.rmt_replica.specs.Answers.{IsWhy};
ghost use Rattle.rmt_replica.specs.declared.why.Why.TheVariants as whys;
ghost use Rattle.rmt_supply.specs.PartSources.{AreActive};
ghost use Rattle.rmt_supply.specs.TakenParts.{IsTaken, CanBuild};

use crate::staged::staged_block;
use crate::taken::Taken;
use rmt_entries::Entry;
use rmt_list::List;
use rmt_names::PartName;
use rmt_part::Part;
use rmt_replica::{Replica, Why};
use rmt_row::Seen;
use std::alloc::{AllocError, Global};
use std::sync::Arc;

/// Shares the active part of this name. At an error no memory was left.
fn active_part(replica: &Replica, name: &PartName) -> Result<Arc<Part, Global>, AllocError>
    requires { Has (part_names replica.now.parts) name.now }
    ensures active { IfOk result (λ part. Has replica.now.parts (arc_value part)) }
    ensures named { IfOk result (λ part. (arc_value part).name ≡ name.now) }
{
    let _standing = replica.copy();
    let part = Arc::try_clone(replica.covering(name).unwrap())?;
    Ok(part)
}

/// Shares the active parts of these names, which all are active, in their order. At an error no memory was left.
fn active_parts(
    alloc: Global,
    replica: &Replica,
    names: &[PartName],
) -> Result<Vec<Arc<Part, Global>>, AllocError>
    requires active { Each (Has (part_names replica.now.parts)) names.now }
    ensures { IfOk result (λ parts. AreActive replica.now names.now (map arc_value parts.items)) }
{
    let mut parts = Vec::with_capacity(alloc, names.len())?;
    'names: for name in names {
        let part = active_part(replica, name)?;
        parts.push(part)?;
    }
    Ok(parts)
}

/// Shares the mutations of a replica's copy up to a place, where there is one. At an error no memory was left.
fn mutations_to(replica: &Replica, upto: u32) -> Result<Arc<List<Seen<Entry>>, Global>, AllocError>
    requires { mutations_below replica.now.log (upto + 1) ≡ [] → ⊥ }
    ensures { IfOk result (λ list.
        AreTokensBelow (copy_of replica.now) (upto + 1) (mutations_below replica.now.log (upto + 1)) (arc_value list)) }
{
    let end = upto as usize + 1;
    let list = Arc::try_clone(replica.copy().mutations(end).unwrap())?;
    Ok(list)
}

/// Takes what the entry at a place of a replica's copy is done with, which is ready. At an error no memory was left.
fn take_ready(alloc: Global, replica: &Replica, i: usize) -> Result<Taken, AllocError>
    requires place { i < length replica.now.log }
    requires ready { IsWhy replica.now i whys.Ready }
    ensures { IfOk result (IsTaken replica.now i) }
{
    let token = replica.copy().entry(i).unwrap();
    match token.value() {
        Entry::Get { .. } => {
            let get = token.copy()?;
            let block = staged_block(replica, token)?.unwrap();
            Ok(Taken::Block { block, get })
        }
        Entry::Merge { sources, .. } => {
            let merge = token.copy()?;
            let sources = active_parts(alloc, replica, sources.as_slice())?;
            Ok(Taken::Sources { sources, merge })
        }
        Entry::Mutate { old, upto, .. } => {
            let mutate = token.copy()?;
            let mutations = mutations_to(replica, *upto)?;
            let old = active_part(replica, old)?;
            Ok(Taken::Old {
                old,
                mutations,
                mutate,
            })
        }
        Entry::Mutation { .. } | Entry::DropRange { .. } => Ok(Taken::Nothing),
    }
}

/// Takes what the entry at a place of a replica's copy needs out of the replica, by which it can be built with no replica at
/// hand. At an error no memory was left.
pub fn take(alloc: Global, replica: &Replica, i: usize) -> Result<Taken, AllocError>
    requires { i < length replica.now.log }
    ensures ok { IfOk result (IsTaken replica.now i) }
    ensures can_build { IfOk result CanBuild }
{
    let _standing = replica.copy();
    let taken = match replica.why(i) {
        Why::Covered | Why::Dropped => Taken::Nothing,
        Why::Ready => take_ready(alloc, replica, i)?,
        Why::NeedsPart(part) => Taken::Missing(part),
    };
    Ok(taken)
}
