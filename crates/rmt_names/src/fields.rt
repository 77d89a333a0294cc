//! The fields of a name's text, each read from the one text that it may have.
ghost use Rattle.std.specs.Prelude.{◌≡◌, ℕ, ◌<◌, ◌^◌, ◌++◌, List, codes, Option, IfSome, IsSomeAnd};
ghost use Rattle.std.specs.Fmt.{decimal};
ghost use Rattle.rmt_names.specs.Texts.{partition_text, partition_of_text as partition_of, mutation_text};

// The number that has this decimal. One below 2^64 has just one, with no sign and no zero at the start.
fn read_number(text: &str) -> Option<u64>
    ensures small { IfSome result (λ n. n < 2 ^ 64) }
    ensures read { IfSome result (λ n. decimal n ≡ text.now) }
    ensures only { (n : ℕ) → n < 2 ^ 64 → decimal n ≡ text.now → result ≡ Some n }
{
    if text == "0" {
        return Some(0);
    }
    if text.starts_with('0') || text.starts_with('+') {
        return None;
    }
    text.parse().ok()
}

// The same for a number below 2^32.
fn read_small_number(text: &str) -> Option<u32>
    ensures read { IfSome result (λ n. decimal n ≡ text.now) }
    ensures only { (n : ℕ) → n < 2 ^ 32 → decimal n ≡ text.now → result ≡ Some n }
{
    u32::try_from(read_number(text)?).ok()
}

/// The partition whose id has this text: `all`, or its number.
pub fn read_partition(text: &str) -> Option<Option<u64>>
    ensures small { IfSome result (λ p. IfSome p (λ n. n < 2 ^ 64)) }
    ensures read { IfSome result (λ p. partition_text p ≡ text.now) }
    ensures only { (p : Option ℕ) → IfSome p (λ n. n < 2 ^ 64) → partition_text p ≡ text.now
        → result ≡ Some p }
{
    if text == "all" {
        return Some(None);
    }
    Some(Some(read_number(text)?))
}

/// The partition whose id has this text, given as bytes: `all`, or its number.
pub fn partition_of_text(text: &[u8]) -> Option<Option<u64>>
    ensures exact { result ≡ partition_of text.now }
    ensures read { IfSome result (λ p. partition_text p ≡ text.now) }
    ensures only { (p : Option ℕ) → IfSome p (λ n. n < 2 ^ 64) → partition_text p ≡ text.now
        → result ≡ Some p }
{
    let Ok(text) = str::from_utf8(text) else {
        return None;
    };
    read_partition(text)
}

/// The number before the first underscore, and what comes after it.
pub fn read_field(text: &str) -> Option<(u32, &str)>
    ensures read { IfSome result (λ r. text.now ≡ decimal r.0 ++ (codes "_" ++ r.1.now)) }
    ensures only { (n : ℕ) (behind : List ℕ) → n < 2 ^ 32
        → text.now ≡ decimal n ++ (codes "_" ++ behind)
        → IsSomeAnd result (λ r. (r.0 ≡ n) × (r.1.now ≡ behind)) }
{
    let (number, behind) = text.split_once('_')?;
    Some((read_small_number(number)?, behind))
}

/// The level and the mutation, which is 0 where none is written.
pub fn read_last_fields(text: &str) -> Option<(u32, u32)>
    ensures read { IfSome result (λ r. decimal r.0 ++ mutation_text r.1 ≡ text.now) }
    ensures only { (level mutation : ℕ) → level < 2 ^ 32 → mutation < 2 ^ 32
        → decimal level ++ mutation_text mutation ≡ text.now
        → result ≡ Some (record { 0 = level; 1 = mutation }) }
{
    let Some((level, mutation)) = text.split_once('_') else {
        return Some((read_small_number(text)?, 0));
    };
    let mutation = read_small_number(mutation)?;
    if mutation == 0 {
        return None;
    }
    Some((read_small_number(level)?, mutation))
}
