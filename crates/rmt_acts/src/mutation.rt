//! ALTER .. UPDATE and ALTER .. DELETE.
ghost use Rattle.std.specs.Prelude.{◌≡◌, ◌∷◌, [], length, IfOk, OnErr};
ghost use Rattle.rmt_values.specs.Commands.{CommandFits};
ghost use Rattle.rmt_entries.specs.EntryBytes.{CommandInRange};
ghost use Rattle.rmt_model.specs.Lawful.{mutation_count};
ghost use Rattle.rmt_statement_model.specs.Shows.{HoldsNone, KeepsUps};
ghost use Rattle.rmt_events.specs.declared.event.Event.TheVariants as ev;
ghost use Rattle.rmt_acts.specs.StatementEvents.{Makes};
ghost use Rattle.rmt_acts.specs.Changing.{MutatesTo};

use rmt_cluster::Cluster;
use rmt_events::{Event, Reply, StepRefused};
use rmt_reply::Refusal;
use rmt_values::CheckedMutation;
use std::alloc::{AllocError, Global};

/// How many mutations were made.
pub fn mutations_made(cluster: &Cluster) -> u32
    ensures { result ≡ mutation_count cluster.now.table.log }
{
    cluster.state().tree().mutations()
}

/// Makes a mutation, and gives its id; or the refusal, where it would pass a limit. At an error no memory was left, and
/// nothing changed.
pub fn mutate(
    alloc: Global,
    cluster: &mut Cluster,
    command: CheckedMutation,
) -> Result<Result<u32, Refusal>, AllocError>
    requires free { HoldsNone cluster.old }
    requires fits { CommandFits cluster.old.table.schema command }
    requires in_range { CommandInRange command }
    ensures mutates { IfOk result (λ made. MutatesTo cluster.old command made cluster.new) }
    ensures free { IfOk result (λ _. HoldsNone cluster.new) }
    ensures events { IfOk result (λ _.
        Makes cluster.old (ev.CreateMutation command ∷ []) cluster.new) }
    ensures err { OnErr result (cluster.new ≡ cluster.old) }
    ensures keeps { KeepsUps cluster.old result cluster.new }
{
    let id = mutations_made(cluster);
    let reply = cluster.step(alloc, Event::CreateMutation { command })?;
    match reply {
        Reply::Entry(_) => Ok(Ok(id)),
        Reply::Refused(why) => match why {
            StepRefused::LimitReached { limit, value } => {
                Ok(Err(Refusal::LimitReached { limit, value }))
            }
            _ => unreachable!(),
        },
        _ => unreachable!(),
    }
}
