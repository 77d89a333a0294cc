//! The generator of pseudo-random numbers.
ghost use Rattle.std.specs.Prelude.{◌<◌};

/// A generator. Its state goes from x to x * 1103515245 + 12345 modulo 2^31, and a draw is the state divided by 65536.
#[derive(Drop)]
pub(crate) struct Draws {
    x: u32,
}

impl Draws {
    /// A generator that begins at a seed.
    pub fn new(seed: u32) -> Draws {
        Draws { x: seed }
    }

    /// The rest of the next draw after a division by a count.
    pub fn below(&mut self, count: usize) -> usize
        requires some { 0 < count }
        ensures below { result < count }
    {
        let next = u64::from(self.x) * 1_103_515_245 + 12_345;
        self.x = (next % (1 << 31)) as u32;
        (self.x >> 16) as usize % count
    }
}
