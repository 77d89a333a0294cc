ghost use Rattle.std.specs.Prelude.{◌≡◌};
ghost use Rattle.rmt_history.specs.Copies.{takes_after as takes_after_of};

use rmt_names::PartName;

/// A drop of a partition: the place of its entry, and the number up to which it takes parts away.
#[derive(Clone, Copy, Debug, PartialEq, Eq)]
pub(crate) struct LastDrop {
    pub place: usize,
    pub number: u32,
}

/// Whether the drop comes after the place and takes the name away.
pub(crate) fn takes_after(last: Option<LastDrop>, i: usize, name: &PartName) -> bool
    ensures { result ≡ takes_after_of last i name.now }
{
    match last {
        Some(last) => i < last.place && name.max() <= last.number,
        None => false,
    }
}
