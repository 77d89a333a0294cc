ghost use Rattle.std.specs.Prelude.{◌≡◌, ◌≤◌, ◌↔◌, IsTrue, length, take, drop};

use rmt_names::PartName;

/// Whether the names are those from a place on, as many as they are.
pub(crate) fn stand_at(all: &[PartName], at: usize, names: &[PartName]) -> bool
    requires { at ≤ length all.now }
    ensures { IsTrue result ↔ (take (length names.now) (drop at all.now) ≡ names.now) }
{
    let rest = all.split_at(at).1;
    if rest.len() < names.len() {
        return false;
    }
    are_equal(rest.split_at(names.len()).0, names)
}

/// Whether the names are the same.
fn are_equal(left: &[PartName], right: &[PartName]) -> bool
    ensures { IsTrue result ↔ (left.now ≡ right.now) }
{
    let (mut left, mut right) = (left, right);
    'names: loop {
        match (left, right) {
            ([], []) => return true,
            ([a, rest @ ..], [b, others @ ..]) => {
                if a != b {
                    return false;
                }
                left = rest;
                right = others;
            }
            _ => return false,
        }
    }
}
