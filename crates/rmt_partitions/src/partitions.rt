ghost use Rattle.std.specs.Prelude.{◌≡◌, ◌+◌, ◌<◌, ◌^◌, nat_lt, [], length, OnOk, IfOk};
ghost use Rattle.rmt_names.specs.Names.{rank};
ghost use Rattle.rmt_model.specs.Words.{Each};
ghost use Rattle.rmt_model.specs.BlockNumbers.{next_number, with_next, next_numbers_after};
ghost use Rattle.rmt_history.specs.Mutations.{AreInOrder, number_among};
ghost use Rattle.rmt_partitions.specs.NumbersInOrder.{first_at, IsPlace};

use rmt_list::List;
use rmt_names::PartitionId;
use std::alloc::{AllocError, Global};
use std::marker::Model;

/// The partitions of a table, each with the block number that it gives next. Contracts see them in order, and how many more
/// there is room for.
#[derive(Drop)]
pub struct Partitions {
    numbers: Vec<(PartitionId, u32)>,
}

impl Model for Partitions {
    ghost use Rattle.std.specs.Prelude.{◌-◌, vec_len, vec_capacity};
    ghost use Rattle.rmt_history.specs.Mutations.{AreInOrder};
    ghost use Rattle.rmt_partitions.specs.NumbersInOrder.{NumbersInOrder};

    ghost Value = { NumbersInOrder };

    ghost view = { λ p. record { numbers = p.numbers.items; room = vec_capacity p.numbers - vec_len p.numbers } };

    ghost invariant = { λ p. AreInOrder p.numbers.items };
}

/// Whether the pair's partition comes before this one.
fn is_earlier(pair: &(PartitionId, u32), partition: PartitionId) -> bool
    ensures { result ≡ nat_lt (rank pair.now.0) (rank partition) }
{
    pair.0 < partition
}

/// The place of a partition among pairs, or else the place at which it belongs.
fn place(pairs: &[(PartitionId, u32)], partition: PartitionId) -> Result<usize, usize>
    requires { AreInOrder pairs.now }
    ensures { IsPlace pairs.now partition result }
{
    let at = pairs.partition_point(|pair| is_earlier(pair, partition));
    if at >= pairs.len() {
        return Err(at);
    }
    if pairs[at].0 != partition {
        return Err(at);
    }
    Ok(at)
}

/// The first of the pairs' numbers that isn't below a limit.
fn first_from(pairs: &[(PartitionId, u32)], limit: u32) -> Option<u32>
    ensures { result ≡ first_at limit pairs.now }
{
    for pair in pairs {
        if pair.1 >= limit {
            return Some(pair.1);
        }
    }
    None
}

/// Adds one to each number.
fn count_up(pairs: &mut [(PartitionId, u32)])
    requires { Each (λ x. x.1 + 1 < 2 ^ 32) pairs.old }
    ensures { pairs.new ≡ next_numbers_after pairs.old }
{
    for pair in pairs.iter_mut() {
        pair.1 += 1;
    }
}

impl Partitions {
    /// No partition.
    pub fn new(alloc: Global) -> Partitions
        ensures { result.numbers ≡ [] }
    {
        Partitions {
            numbers: Vec::new(alloc),
        }
    }

    /// How many partitions there are.
    pub fn len(&self) -> usize
        ensures len { result ≡ length self.now.numbers }
        ensures order { AreInOrder self.now.numbers }
    {
        self.numbers.len()
    }

    /// All of them, in order, each with the number that it gives next.
    pub fn as_slice(&self) -> &[(PartitionId, u32)]
        ensures { result.now ≡ self.now.numbers }
    {
        &self.numbers
    }

    /// The number that a partition gives next; `None` where it doesn't exist.
    pub fn number(&self, partition: PartitionId) -> Option<u32>
        ensures { result ≡ number_among self.now.numbers partition }
    {
        match place(&self.numbers, partition) {
            Ok(at) => Some(self.numbers[at].1),
            Err(_) => None,
        }
    }

    /// The first of the numbers, in order of partition, that isn't below a limit.
    pub fn first_at(&self, limit: u32) -> Option<u32>
        ensures { result ≡ first_at limit self.now.numbers }
    {
        first_from(&self.numbers, limit)
    }

    /// Makes room for one more partition. At an error no memory was left.
    pub fn reserve(&mut self) -> Result<(), AllocError>
        ensures numbers { self.new.numbers ≡ self.old.numbers }
        ensures ok { OnOk result (0 < self.new.room) }
    {
        self.numbers.reserve(1)?;
        Ok(())
    }

    /// Takes the next number of a partition, which exists then. It takes no memory.
    pub fn take(&mut self, partition: PartitionId)
        requires room { 0 < self.old.room }
        requires small { next_number self.old.numbers partition + 1 < 2 ^ 32 }
        ensures { self.new.numbers ≡ with_next self.old.numbers partition (next_number self.old.numbers partition + 1) }
    {
        match place(&self.numbers, partition) {
            Ok(at) => {
                let number = self.numbers[at].1;
                self.numbers[at] = (partition, number + 1);
            }
            Err(at) => self.numbers.insert(at, (partition, 1)).unwrap(),
        }
    }

    /// Takes the next number of each partition. It takes no memory.
    pub fn take_each(&mut self)
        requires small { Each (λ x. x.1 + 1 < 2 ^ 32) self.old.numbers }
        ensures { self.new.numbers ≡ next_numbers_after self.old.numbers }
    {
        count_up(&mut self.numbers);
    }

    /// Returns a list of them. At an error no memory was left.
    pub fn list(&self, alloc: Global) -> Result<List<(PartitionId, u32)>, AllocError>
        ensures { IfOk result (λ list. list ≡ self.now.numbers) }
    {
        let numbers = Vec::from_slice(alloc, &self.numbers)?;
        Ok(List::new(numbers))
    }
}
