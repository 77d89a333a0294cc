ghost use Rattle.std.specs.Prelude.{◌≡◌, ◌≤◌, IfOk, length, MatchOption};
ghost use Rattle.rmt_sql_tokens.specs.Tokens.{escaped as escaped_of, text_step as step_of, text_from};
ghost use Rattle.rmt_sql_tokens.specs.Lexing.{text_bytes, text_spelling};
ghost use Rattle.rmt_sql_tokens.specs.declared.quoted.Within.TheVariants.{Inside};

use rmt_values::Blob;
use std::alloc::{AllocError, Global};

/// What comes before a byte of a text.
#[derive(Clone, Copy, Debug)]
pub enum Within {
    /// Nothing that changes how it is read.
    Inside,
    /// A quote that may end the text.
    Quoted,
    /// A backslash.
    Escaped,
}

/// What a byte is to a text.
#[derive(Clone, Copy, Debug)]
pub enum TextStep {
    /// The text ended before it.
    Ends,
    /// No text has it there.
    Wrong,
    /// It belongs to the text, and may add a byte.
    Goes(Within, Option<u8>),
}

/// The byte that a letter after a backslash stands for.
fn escaped(letter: u8) -> Option<u8>
    ensures { result ≡ escaped_of letter }
{
    match letter {
        b'\'' => Some(b'\''),
        b'\\' => Some(b'\\'),
        b'n' => Some(b'\n'),
        b'r' => Some(b'\r'),
        b't' => Some(b'\t'),
        b'0' => Some(0),
        _ => None,
    }
}

/// What the next byte is to a text.
fn text_step(within: Within, byte: u8) -> TextStep
    ensures { result ≡ step_of within byte }
{
    match within {
        Within::Inside if byte == b'\'' => TextStep::Goes(Within::Quoted, None),
        Within::Inside if byte == b'\\' => TextStep::Goes(Within::Escaped, None),
        Within::Inside => TextStep::Goes(Within::Inside, Some(byte)),
        Within::Quoted if byte == b'\'' => TextStep::Goes(Within::Inside, Some(b'\'')),
        Within::Quoted => TextStep::Ends,
        Within::Escaped => match escaped(byte) {
            Some(byte) => TextStep::Goes(Within::Inside, Some(byte)),
            None => TextStep::Wrong,
        },
    }
}

/// How many bytes, from after the opening quote on, spell a text; none where they spell none.
pub(crate) fn text_len(bytes: &[u8]) -> Option<usize>
    ensures len { result ≡ text_spelling (text_from Inside bytes.now) }
    ensures bound { MatchOption result (Unit {0}) (λ n. n ≤ length bytes.now) }
{
    let mut within = Within::Inside;
    'bytes: for i in 0..bytes.len() {
        match text_step(within, bytes[i]) {
            TextStep::Ends => return Some(i),
            TextStep::Wrong => return None,
            TextStep::Goes(next, _) => within = next,
        }
    }
    match within {
        Within::Quoted => Some(bytes.len()),
        _ => None,
    }
}

/// The bytes of a text, from after its opening quote on; none where they spell none.
pub(crate) fn text_of(alloc: Global, bytes: &[u8]) -> Result<Option<Blob>, AllocError>
    ensures { IfOk result (λ text. text ≡ text_bytes (text_from Inside bytes.now)) }
{
    let mut text = Vec::new(alloc);
    let mut within = Within::Inside;
    'bytes: for byte in bytes {
        match text_step(within, *byte) {
            TextStep::Ends => return Ok(Some(Blob::new(text))),
            TextStep::Wrong => return Ok(None),
            TextStep::Goes(next, None) => within = next,
            TextStep::Goes(next, Some(byte)) => {
                text.push(byte)?;
                within = next;
            }
        }
    }
    match within {
        Within::Quoted => Ok(Some(Blob::new(text))),
        _ => Ok(None),
    }
}
