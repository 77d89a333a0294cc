//! What the names of znodes say.
ghost use Rattle.std.specs.Prelude.{◌≡◌, ◌<◌, ◌^◌, ◌++◌, ℕ, List, Some};
ghost use Rattle.rmt_paths.specs.Paths.{digits};

use std::str;

/// The number in the last ten bytes of a name.
pub(crate) fn number_of(name: &[u8]) -> Option<u32>
    ensures { (prefix : List ℕ) (n : ℕ) → n < 2 ^ 32 → name.now ≡ prefix ++ digits 10 n → result ≡ Some n }
{
    let start = name.len().saturating_sub(10);
    match str::from_utf8(&name[start..]) {
        Ok(text) => text.parse().ok(),
        Err(_) => None,
    }
}
