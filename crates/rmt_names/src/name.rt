ghost use Rattle.std.specs.Prelude.{◌≡◌, ◌≤◌, ◌++◌, ◌↔◌, IsTrue, IfOk, OnOk, IfSome};
ghost use Rattle.std.specs.String.{string_bytes};
ghost use Rattle.rmt_names.specs.Names.{Name, IsName, Covers, covers as covers_of, data_version as version_of, block_name as block_name_of};
ghost use Rattle.rmt_names.specs.Texts.{field, partition_text as partition_text_of, text_of};

use crate::fields::{read_field, read_last_fields, read_partition};
use rmt_list::Equals;
use std::alloc::{AllocError, Global};
use std::marker::Model;

/// A partition's number; none for the one partition of an unpartitioned table.
pub type PartitionId = Option<u64>;

/// The name of a part: its partition, the lowest and the highest number of its blocks, its level and its mutation,
/// 0 for none. Contracts see it as the record of these.
#[derive(Clone, Copy, Debug, PartialEq, Eq)]
pub struct PartName {
    partition: Option<u64>,
    min: u32,
    max: u32,
    level: u32,
    mutation: u32,
}

impl Model for PartName {
    ghost use Rattle.std.specs.Prelude.{◌≤◌};
    ghost use Rattle.rmt_names.specs.Names.{Name};

    ghost Value = { Name };

    ghost view = { λ a. record { partition = a.partition; min = a.min; max = a.max; level = a.level; mutation = a.mutation } };

    ghost invariant = { λ a. a.min ≤ a.max };

    ghost inverse = { λ n. record { partition = n.partition; min = n.min; max = n.max; level = n.level; mutation = n.mutation } };
}

impl PartName {
    /// Makes a name. A mutation of 0 is none.
    pub fn new(partition: PartitionId, min: u32, max: u32, level: u32, mutation: u32) -> PartName
        requires { min ≤ max }
        ensures { result ≡ record { partition = partition; min = min; max = max; level = level; mutation = mutation } }
    {
        PartName {
            partition,
            min,
            max,
            level,
            mutation,
        }
    }

    /// The partition.
    pub fn partition(&self) -> PartitionId
        ensures { result ≡ self.now.partition }
    {
        self.partition
    }

    /// The lowest number of its blocks.
    pub fn min(&self) -> u32
        ensures { result ≡ self.now.min }
    {
        self.min
    }

    /// The highest number of its blocks, no lower than the lowest.
    pub fn max(&self) -> u32
        ensures value { result ≡ self.now.max }
        ensures ordered { self.now.min ≤ result }
    {
        self.max
    }

    /// How many merges lie below it at the most.
    pub fn level(&self) -> u32
        ensures { result ≡ self.now.level }
    {
        self.level
    }

    /// The number of the last mutation applied, 0 for none.
    pub fn mutation(&self) -> u32
        ensures { result ≡ self.now.mutation }
    {
        self.mutation
    }
}

impl Equals for PartName {
    fn equals(&self, other: &PartName) -> bool {
        *self == *other
    }
}

/// Whether the part `a` stands for all that `b` does: its partition, at least its blocks, merges and mutations.
pub fn covers(a: &PartName, b: &PartName) -> bool
    ensures fact { IsTrue result ↔ Covers a.now b.now }
    ensures test { result ≡ covers_of a.now b.now }
{
    a.partition == b.partition
        && a.min <= b.min
        && a.max >= b.max
        && a.level >= b.level
        && a.mutation >= b.mutation
}

/// The version of the part's data: its mutation, or without one its lowest number.
pub fn data_version(a: &PartName) -> u32
    ensures { result ≡ version_of a.now }
{
    if a.mutation == 0 { a.min } else { a.mutation }
}

/// The name of the part of one block, before it is merged or mutated.
pub fn block_name(partition: PartitionId, number: u32) -> PartName
    ensures { result ≡ block_name_of partition number }
{
    PartName {
        partition,
        min: number,
        max: number,
        level: 0,
        mutation: 0,
    }
}

/// The text of a partition's id: `all`, or its number. At an error no memory was left.
pub fn partition_text(alloc: Global, partition: PartitionId) -> Result<String, AllocError>
    ensures { IfOk result (λ t. string_bytes t ≡ partition_text_of partition) }
{
    match partition {
        None => String::from_str(alloc, "all"),
        Some(number) => number.to_string(alloc),
    }
}

/// The text of a name, its one spelling.
pub fn text(alloc: Global, name: &PartName) -> Result<String, AllocError>
    ensures { IfOk result (λ t. string_bytes t ≡ text_of name.now) }
{
    let mut text = partition_text(alloc, name.partition)?;
    push_field(alloc, &mut text, name.min)?;
    push_field(alloc, &mut text, name.max)?;
    push_field(alloc, &mut text, name.level)?;
    if name.mutation != 0 {
        push_field(alloc, &mut text, name.mutation)?;
    }
    Ok(text)
}

// Writes a number after an underscore.
fn push_field(alloc: Global, text: &mut String, number: u32) -> Result<(), AllocError>
    ensures { OnOk result (string_bytes text.new ≡ string_bytes text.old ++ field number) }
{
    let digits = number.to_string(alloc)?;
    text.push('_')?;
    text.push_str(digits.as_str())?;
    Ok(())
}

/// The name that has this text; none exactly where no name has it: a sign, a leading zero, a field too few or too
/// many, a number out of range, a mutation of 0 and a highest number below the lowest are in no text.
pub fn parse(text: &str) -> Option<PartName>
    ensures read { IfSome result (λ a. text_of a ≡ text.now) }
    // So none is answered only where no name has this text, and each name has a text of its own.
    ensures only { (a : Name) → IsName a → text_of a ≡ text.now → result ≡ Some a }
    ensures name { IfSome result IsName }
{
    let (partition, numbers) = text.split_once('_')?;
    let partition = read_partition(partition)?;
    let (min, behind_min) = read_field(numbers)?;
    let (max, behind_max) = read_field(behind_min)?;
    let (level, mutation) = read_last_fields(behind_max)?;
    if min > max {
        return None;
    }
    Some(PartName {
        partition,
        min,
        max,
        level,
        mutation,
    })
}
