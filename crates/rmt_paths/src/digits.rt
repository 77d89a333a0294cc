//! Numbers as the names of sequential nodes end with them.
ghost use Rattle.std.specs.Prelude.{◌≡◌, ◌+◌, ◌%◌};
ghost use Rattle.rmt_paths.specs.Paths.{digits};

/// The last decimal digit.
fn digit(number: u32) -> u8
    ensures { result ≡ 48 + number % 10 }
{
    b'0' + (number % 10) as u8
}

/// A number as ten decimal digits, with leading zeros: the end of a sequential node's name (ZooKeeper programmer's guide,
/// "Sequence Nodes").
pub fn ten_digits(number: u32) -> [u8; 10]
    ensures { result ≡ digits 10 number }
{
    let n1 = number / 10;
    let n2 = n1 / 10;
    let n3 = n2 / 10;
    let n4 = n3 / 10;
    let n5 = n4 / 10;
    let n6 = n5 / 10;
    let n7 = n6 / 10;
    let n8 = n7 / 10;
    let n9 = n8 / 10;
    [
        digit(n9),
        digit(n8),
        digit(n7),
        digit(n6),
        digit(n5),
        digit(n4),
        digit(n3),
        digit(n2),
        digit(n1),
        digit(number),
    ]
}
