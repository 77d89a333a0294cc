ghost use Rattle.std.specs.Prelude.{◌≡◌};
ghost use Rattle.std.specs.Arc.{arc_value};
ghost use Rattle.rmt_part.specs.Lineages.{PartValue, IsPart};

use crate::accepted::Accepted;
use rmt_entries::Entry;
use rmt_granules::PartData;
use rmt_list::List;
use rmt_names::PartName;
use rmt_row::Seen;
use rmt_values::Schema;
use std::alloc::Global;
use std::marker::Model;
use std::sync::Arc;

/// A part of a table: its name, its rows in order of key, the token of the entry that made it, and what it was made from: its
/// blocks, and the mutations up to the last one applied, a list that parts share. Contracts see it as a `PartValue`.
#[derive(Drop)]
pub struct Part {
    schema: Arc<Schema, Global>,
    name: PartName,
    body: Arc<PartData, Global>,
    made: Seen<Entry>,
    blocks: Vec<Accepted>,
    mutations: Arc<List<Seen<Entry>>, Global>,
}

impl Model for Part {
    ghost use Rattle.std.specs.Arc.{arc_value};
    ghost use Rattle.rmt_part.specs.Lineages.{PartValue, IsPart};
    ghost use Rattle.std.specs.Coded.{codes};
    ghost use Rattle.rmt_values.specs.contracts.checked.Checked as filter;

    ghost Value = { PartValue };

    ghost coded = { Prim.hlevel (codes, filter.the_row.coded) };

    ghost view = { λ p. record { schema = arc_value p.schema; name = p.name; body = arc_value p.body; made = p.made; blocks = p.blocks.items; mutations = arc_value p.mutations } };

    ghost invariant = { λ p. IsPart (record { schema = arc_value p.schema; name = p.name; body = arc_value p.body; made = p.made; blocks = p.blocks.items; mutations = arc_value p.mutations }) };
}

impl Part {
    /// Puts a part together, whose data is the content of its name.
    pub fn of(
        schema: Arc<Schema, Global>,
        name: PartName,
        body: Arc<PartData, Global>,
        made: Seen<Entry>,
        blocks: Vec<Accepted>,
        mutations: Arc<List<Seen<Entry>>, Global>,
    ) -> Part
        requires { IsPart (record { schema = arc_value schema; name = name; body = arc_value body; made = made; blocks = blocks.items; mutations = arc_value mutations }) }
        ensures { result ≡ record { schema = arc_value schema; name = name; body = arc_value body; made = made; blocks = blocks.items; mutations = arc_value mutations } }
    {
        Part {
            schema,
            name,
            body,
            made,
            blocks,
            mutations,
        }
    }

    /// The schema that its rows fit.
    pub fn schema(&self) -> &Arc<Schema, Global>
        ensures { arc_value result.now ≡ self.now.schema }
    {
        &self.schema
    }

    /// Its name.
    pub fn name(&self) -> &PartName
        ensures name { result.now ≡ self.now.name }
        ensures part { IsPart self.now }
    {
        &self.name
    }

    /// Its rows in order of key.
    pub fn body(&self) -> &Arc<PartData, Global>
        ensures value { arc_value result.now ≡ self.now.body }
        ensures part { IsPart self.now }
    {
        &self.body
    }

    /// The token of the entry that made it.
    pub fn made(&self) -> &Seen<Entry>
        ensures { result.now ≡ self.now.made }
    {
        &self.made
    }

    /// Its blocks, in order of number.
    pub fn blocks(&self) -> &[Accepted]
        ensures { result.now ≡ self.now.blocks }
    {
        &self.blocks
    }

    /// The tokens of all mutations up to the last one applied, the oldest first.
    pub fn mutations(&self) -> &Arc<List<Seen<Entry>>, Global>
        ensures { arc_value result.now ≡ self.now.mutations }
    {
        &self.mutations
    }
}
