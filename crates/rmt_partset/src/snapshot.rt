ghost use Rattle.std.specs.Prelude.{◌≡◌, ◌<◌, length, slice_get};
ghost use Rattle.std.specs.declared.option.Option.TheVariants.{Some};
ghost use Rattle.std.specs.Arc.{arc_value};
ghost use Rattle.rmt_partset.specs.Snapshots.{AreInOrder};

use crate::named_part::NamedPart;
use rmt_granules::PartData;
use rmt_names::PartName;
use std::alloc::Global;
use std::marker::Model;
use std::sync::Arc;

/// The active parts of a replica at one moment, in order of partition and number. Contracts see the list of them. No two
/// share a block's number.
#[derive(Drop)]
pub struct Snapshot {
    parts: Vec<NamedPart>,
}

impl Model for Snapshot {
    ghost use Rattle.std.specs.Prelude.{List};
    ghost use Rattle.rmt_partset.specs.Snapshots.{NamedData, AreInOrder};

    ghost Value = { List NamedData };

    ghost view = { λ s. s.parts.items };

    ghost invariant = { λ s. AreInOrder s.parts.items };
}

impl Snapshot {
    /// The snapshot of these parts, whose names rise and don't overlap.
    pub fn of(parts: Vec<NamedPart>) -> Snapshot
        requires { AreInOrder parts.items }
        ensures { result ≡ parts.items }
    {
        Snapshot { parts }
    }

    /// How many parts it has.
    pub fn len(&self) -> usize
        ensures { result ≡ length self.now }
    {
        self.parts.len()
    }

    /// The name of a part, counted from 0.
    pub fn name(&self, i: usize) -> &PartName
        requires { i < length self.now }
        ensures { (part : _) → slice_get self.now i ≡ Some part → result.now ≡ part.name }
    {
        self.parts[i].name()
    }

    /// The data of a part, counted from 0.
    pub fn data(&self, i: usize) -> &Arc<PartData, Global>
        requires { i < length self.now }
        ensures { (part : _) → slice_get self.now i ≡ Some part → arc_value result.now ≡ part.rows }
    {
        self.parts[i].data()
    }

    /// All parts.
    pub fn parts(&self) -> &[NamedPart]
        ensures all { result.now ≡ self.now }
        ensures order { AreInOrder self.now }
    {
        &self.parts
    }
}
