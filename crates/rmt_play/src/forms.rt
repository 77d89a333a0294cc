//! What an act names, and whether it brings its replica up to date.
ghost use Rattle.std.specs.Prelude.{◌≡◌};
ghost use Rattle.rmt_play.specs.ActRefusals.{syncs_first as sync_test};
ghost use Rattle.rmt_play.specs.Checks.{table_named};

use rmt_statements::{Act, Mode};
use rmt_values::Name;

/// Whether an act brings its replica up to date first.
pub(crate) fn syncs_first(act: &Act) -> bool
    ensures { result ≡ sync_test act.now }
{
    match act {
        Act::Select { mode, .. } => match mode {
            Mode::Sync => true,
            Mode::Plain | Mode::Sequential(_) => false,
        },
        Act::Optimize { .. } | Act::WaitMutation { .. } | Act::SyncReplica { .. } => true,
        Act::Insert(_)
        | Act::Explain { .. }
        | Act::Mutate { .. }
        | Act::DropPartition { .. }
        | Act::ShowParts { .. }
        | Act::CheckTable { .. }
        | Act::RestartReplica { .. }
        | Act::StopFetches { .. }
        | Act::StartFetches { .. } => false,
    }
}

/// The table that an act names.
pub(crate) fn table_of(act: &Act) -> &Name
    ensures { result.now ≡ table_named act.now }
{
    match act {
        Act::Insert(insert) => &insert.table,
        Act::Select { table, .. }
        | Act::Explain { table, .. }
        | Act::Mutate { table, .. }
        | Act::DropPartition { table, .. }
        | Act::Optimize { table, .. }
        | Act::ShowParts { table }
        | Act::CheckTable { table }
        | Act::WaitMutation { table, .. }
        | Act::SyncReplica { table }
        | Act::RestartReplica { table }
        | Act::StopFetches { table }
        | Act::StartFetches { table } => table,
    }
}
