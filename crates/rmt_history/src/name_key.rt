ghost use Rattle.std.specs.Prelude.{◌≡◌};

use rmt_names::PartName;
use std::marker::Model;

/// A name as the key of an index. Contracts see it as the name.
#[derive(Clone, Copy, Debug, PartialEq, Eq, PartialOrd, Ord)]
pub struct NameKey {
    partition: Option<u64>,
    min: u32,
    max: u32,
    level: u32,
    mutation: u32,
}

impl Model for NameKey {
    ghost use Rattle.rmt_names.specs.Names.{Name};

    ghost Value = { Name };

    ghost view = { λ a. record { partition = a.partition; min = a.min; max = a.max; level = a.level; mutation = a.mutation } };

    ghost inverse = { λ n. record { partition = n.partition; min = n.min; max = n.max; level = n.level; mutation = n.mutation } };
}

impl NameKey {
    /// The key of a name.
    pub fn of(name: &PartName) -> NameKey
        ensures { result ≡ name.now }
    {
        NameKey {
            partition: name.partition(),
            min: name.min(),
            max: name.max(),
            level: name.level(),
            mutation: name.mutation(),
        }
    }
}
