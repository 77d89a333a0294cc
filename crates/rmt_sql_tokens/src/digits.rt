//! Decimal digits and their value.
ghost use Rattle.std.specs.Prelude.{◌≡◌, ◌≤◌, ◌^◌, length, MatchOption};
ghost use Rattle.std.specs.List.{prefix_len};
ghost use Rattle.std.specs.Char.{is_ascii_digit as digit_test};
ghost use Rattle.rmt_sql_tokens.specs.Tokens.{value_of};

/// How many bytes at the start are digits.
pub fn digits_len(bytes: &[u8]) -> usize
    ensures len { result ≡ prefix_len digit_test bytes.now }
    ensures bound { result ≤ length bytes.now }
{
    bytes
        .iter()
        .take_while(|byte| byte.is_ascii_digit())
        .count()
}

/// The value of digits, none where it is 2^128 or more.
pub fn decimal_value(digits: &[u8]) -> Option<u128>
    ensures { MatchOption result (2 ^ 128 ≤ value_of digits.now) (λ n. n ≡ value_of digits.now) }
{
    let mut value: u128 = 0;
    'digits: for digit in digits {
        let Some(tens) = value.checked_mul(10) else {
            return None;
        };
        let Some(sum) = tens.checked_add(u128::from(digit.saturating_sub(b'0'))) else {
            return None;
        };
        value = sum;
    }
    Some(value)
}
