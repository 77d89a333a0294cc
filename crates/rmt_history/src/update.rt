//! What one more entry does to what a copy keeps beside its tokens.
ghost use Rattle.std.specs.Prelude.{◌≡◌, ◌<◌, ℕ, cond, OnOk, OnErr};
ghost use Rattle.std.specs.declared.option.Option.{Option};
ghost use Rattle.std.specs.declared.option.Option.TheVariants.{Some};
ghost use Rattle.std.specs.Ordering.{is_eq};
ghost use Rattle.std.specs.BTreeMap.{get};
ghost use Rattle.rmt_entries.specs.Entries.{result_name};
ghost use Rattle.rmt_names.specs.Names.{Name};
ghost use Rattle.rmt_model.specs.Live.{live_after};
ghost use Rattle.rmt_history.specs.Copies.{FollowsLog, maker_after, name_cmp, drop_after, partition_cmp};

use crate::last_drop::LastDrop;
use crate::name_key::NameKey;
use rmt_entries::{Entry, result_of};
use rmt_names::{PartName, PartitionId};
use rmt_nameset::NameSet;
use std::alloc::AllocError;
use std::collections::BTreeMap;

/// Brings the live names up to one more entry, where there is room for one more name.
pub(crate) fn bring_up(names: &mut NameSet, entry: &Entry)
    requires lawful { FollowsLog entry.now names.old.names }
    requires room { 0 < names.old.room }
    ensures { names.new.names ≡ live_after entry.now names.old.names }
{
    if let Some(new) = result_of(entry) {
        names.place(new);
        return;
    }
    if let Entry::DropRange { partition, number } = entry {
        names.drop_up_to(*partition, *number);
    }
}

/// Notes the place of the entry that makes the name, if it makes one.
fn note_maker(
    makers: &mut BTreeMap<NameKey, usize>,
    made: Option<PartName>,
    place: usize,
) -> Result<(), AllocError>
    ensures ok { OnOk result ((a : Name) → get name_cmp makers.new a ≡ maker_after made place (get name_cmp makers.old a) a) }
    ensures err { OnErr result (makers.new.entries ≡ makers.old.entries) }
{
    if let Some(name) = made {
        makers.insert(NameKey::of(&name), place)?;
    }
    Ok(())
}

/// Notes a drop as the last one of its partition.
fn note_drop(
    drops: &mut BTreeMap<PartitionId, LastDrop>,
    partition: PartitionId,
    last: LastDrop,
) -> Result<(), AllocError>
    ensures ok { OnOk result ((p : Option ℕ) → get partition_cmp drops.new p ≡ cond (is_eq (partition_cmp partition p)) (Some last) (get partition_cmp drops.old p)) }
    ensures err { OnErr result (drops.new.entries ≡ drops.old.entries) }
{
    drops.insert(partition, last)?;
    Ok(())
}

/// Notes the entry as the maker of its result, or as the last drop of its partition.
pub(crate) fn note(
    makers: &mut BTreeMap<NameKey, usize>,
    drops: &mut BTreeMap<PartitionId, LastDrop>,
    entry: &Entry,
    place: usize,
) -> Result<(), AllocError>
    ensures makers { OnOk result ((a : Name) → get name_cmp makers.new a ≡ maker_after (result_name entry.now) place (get name_cmp makers.old a) a) }
    ensures drops { OnOk result ((p : Option ℕ) → get partition_cmp drops.new p ≡ drop_after entry.now place (get partition_cmp drops.old p) p) }
    ensures same_makers { OnErr result (makers.new.entries ≡ makers.old.entries) }
    ensures same_drops { OnErr result (drops.new.entries ≡ drops.old.entries) }
{
    if let Entry::DropRange { partition, number } = entry {
        let number = *number;
        note_drop(drops, *partition, LastDrop { place, number })?;
        return Ok(());
    }
    note_maker(makers, result_of(entry), place)?;
    Ok(())
}
