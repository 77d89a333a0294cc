ghost use Rattle.std.specs.Prelude.{◌≡◌};
ghost use Rattle.std.specs.Arc.{arc_value};

use rmt_granules::PartData;
use rmt_names::PartName;
use std::alloc::Global;
use std::marker::Model;
use std::sync::Arc;

/// A part's name and its data. Contracts see both, wherever the data lies in memory.
#[derive(Drop)]
pub struct NamedPart {
    name: PartName,
    rows: Arc<PartData, Global>,
}

impl Model for NamedPart {
    ghost use Rattle.std.specs.Arc.{arc_value};
    ghost use Rattle.rmt_partset.specs.Snapshots.{NamedData};
    ghost use Rattle.std.specs.Coded.{codes};

    ghost Value = { NamedData };

    ghost coded = { Prim.hlevel codes };

    ghost view = { λ p. record { name = p.name; rows = arc_value p.rows } };
}

impl NamedPart {
    /// The part of this name that has these rows in its data.
    pub fn new(name: PartName, rows: Arc<PartData, Global>) -> NamedPart
        ensures { result ≡ record { name = name; rows = arc_value rows } }
    {
        NamedPart { name, rows }
    }

    /// Its name.
    pub fn name(&self) -> &PartName
        ensures { result.now ≡ self.now.name }
    {
        &self.name
    }

    /// Its data: the rows in order of key, in granules.
    pub fn data(&self) -> &Arc<PartData, Global>
        ensures { arc_value result.now ≡ self.now.rows }
    {
        &self.rows
    }
}
