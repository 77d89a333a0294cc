//! The generator of pseudo-random numbers.
ghost use Rattle.std.specs.Prelude.{◌≡◌, ◌<◌, ◌^◌};
ghost use Rattle.rmt_events.specs.Draws.{stepped as stepped_state, drawn as drawn_number};

/// The state after one step.
pub(crate) fn stepped(x: u32) -> u32
    requires { x < 2 ^ 31 }
    ensures is { result ≡ stepped_state x }
    ensures below { result < 2 ^ 31 }
{
    let next = u64::from(x) * 1_103_515_245 + 12_345;
    (next % (1 << 31)) as u32
}

/// The draw that a state gives: a number below 2^15.
pub(crate) fn drawn(x: u32) -> usize
    requires { x < 2 ^ 31 }
    ensures is { result ≡ drawn_number x }
    ensures below { result < 2 ^ 15 }
{
    (x >> 16) as usize
}
