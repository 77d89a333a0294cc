//! Where data that is in a script ends.
ghost use Rattle.std.specs.Prelude.{◌≡◌, ◌≤◌, true, length};
ghost use Rattle.rmt_sql_tokens.specs.Tokens.{ends_line as ends_line_of, ends_data as ends_data_of, data_len as data_len_of};

use memchr::memchr_iter;

/// Whether a line ends here, a CR before its end allowed.
fn ends_line(bytes: &[u8]) -> bool
    ensures { result ≡ ends_line_of bytes.now }
{
    match bytes {
        [] | [b'\n', ..] | [b'\r'] | [b'\r', b'\n', ..] => true,
        _ => false,
    }
}

/// Whether a line begins here that is exactly `;`.
fn ends_data(bytes: &[u8]) -> bool
    ensures { result ≡ ends_data_of bytes.now }
{
    match bytes {
        [b';', rest @ ..] => ends_line(rest),
        _ => false,
    }
}

/// How many bytes come before the first line that is exactly `;`.
pub(crate) fn data_len(bytes: &[u8]) -> usize
    ensures len { result ≡ data_len_of true bytes.now }
    ensures bound { result ≤ length bytes.now }
{
    if ends_data(bytes) {
        return 0;
    }
    'lines: for end in memchr_iter(b'\n', bytes) {
        let (_, rest) = bytes.split_at(end + 1);
        if ends_data(rest) {
            return end + 1;
        }
    }
    bytes.len()
}
