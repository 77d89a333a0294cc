//! Parts that the tests name.
ghost use Rattle.std.specs.Prelude.{◌≡◌, IfOk};

use rmt_names::{PartName, PartitionId};
use std::test::Fail;

/// A part, by the fields of its name.
#[derive(Clone, Copy, PartialEq)]
pub(crate) struct Part {
    pub partition: PartitionId,
    pub min: u32,
    pub max: u32,
    pub level: u32,
    pub mutation: u32,
}

impl Part {
    /// The part that has a name.
    pub fn of(name: &PartName) -> Part {
        Part {
            partition: name.partition(),
            min: name.min(),
            max: name.max(),
            level: name.level(),
            mutation: name.mutation(),
        }
    }

    /// Its name.
    pub fn name(&self) -> Result<PartName, Fail> {
        if self.min > self.max {
            return Err("no part has these numbers".into());
        }
        let name = PartName::new(
            self.partition,
            self.min,
            self.max,
            self.level,
            self.mutation,
        );
        Ok(name)
    }
}

/// A part of a table that isn't divided, in one line.
macro_rules! part {
    ($min:literal, $max:literal, $level:literal, $mutation:literal) => {
        Part {
            partition: None,
            min: $min,
            max: $max,
            level: $level,
            mutation: $mutation,
        }
    };
}

// Each is called as its name is written.
pub(crate) const ALL_0_0_0: Part = part!(0, 0, 0, 0);

pub(crate) const ALL_0_1_1: Part = part!(0, 1, 1, 0);

pub(crate) const ALL_1_1_0: Part = part!(1, 1, 0, 0);

pub(crate) const ALL_1_1_0_2: Part = part!(1, 1, 0, 2);

pub(crate) const ALL_2_2_0: Part = part!(2, 2, 0, 0);

pub(crate) const ALL_6_6_0: Part = part!(6, 6, 0, 0);
