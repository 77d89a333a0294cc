ghost use Rattle.std.specs.Prelude.{◌≡◌, ◌<◌, ◌^◌};
ghost use Rattle.rmt_events.specs.Draws.{stepped, drawn};

/// A generator of numbers: its state.
#[derive(Clone, Copy)]
pub(crate) struct Draws {
    pub state: u32,
}

impl Draws {
    /// The next draw: a number below 2^15.
    pub(crate) fn next(&mut self) -> u32
        ensures is { result ≡ drawn (stepped self.old.state) }
        ensures below { result < 2 ^ 15 }
        ensures state { self.new.state ≡ stepped self.old.state }
    {
        let next = u64::from(self.state) * 1_103_515_245 + 12_345;
        self.state = (next % (1 << 31)) as u32;
        self.state >> 16
    }
}
