//! The names of replicas.
ghost use Rattle.std.specs.Prelude.{◌≡◌, ◌<◌, ◌≤◌, IfSome};
ghost use Rattle.std.specs.Str.{bytes_eq};
ghost use Rattle.rmt_reply.specs.Printed.{replica_text};
ghost use Rattle.rmt_play.specs.Checks.{replica_of};

use rmt_values::Name;

/// Whether this is the name of the replica of a number.
fn is_name_of(name: &Name, number: u8) -> bool
    requires { number ≤ 9 }
    ensures { result ≡ bytes_eq name.now (replica_text number) }
{
    name.is(&[b'r', b'0' + number])
}

/// The number of the replica of this name, among so many.
pub(crate) fn replica_named(name: &Name, count: u8) -> Option<u8>
    requires { count ≤ 8 }
    ensures number { result ≡ replica_of count name.now }
    ensures range { IfSome result (λ n. (0 < n) × (n ≤ count)) }
{
    let mut number = count;
    'numbers: while number > 0 {
        if is_name_of(name, number) {
            return Some(number);
        }
        number -= 1;
    }
    None
}
