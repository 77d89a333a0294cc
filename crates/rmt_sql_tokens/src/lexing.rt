ghost use Rattle.std.specs.Prelude.{◌≡◌, ◌<◌, ◌≤◌, length, drop, true, false, ◌+◌, slice_index, [], ◌∷◌};
ghost use Rattle.std.specs.List.{prefix_len};
ghost use Rattle.std.specs.Char.{is_ascii_digit as digit_test};
ghost use Rattle.rmt_sql_tokens.specs.Tokens.{is_white as white_test, is_blank as blank_test, is_within as within_test, begins_word as word_begins, begins_comment as comment_begins, is_word_byte as word_test, is_keyword as keyword_test, after_word as after_word_of, word_token, number_token, sign_of, spots, next_is_byte};
ghost use Rattle.rmt_sql_tokens.specs.Lexing.{token_of, tokens, IsFirstToken, IsNext, BeginsToken};
ghost use Rattle.rmt_sql_tokens.specs.declared.context.Context.TheVariants.{Csv};

use crate::context::Context;
use crate::cursor::Cursor;
use crate::digits::{decimal_value, digits_len};
use crate::lines::data_len;
use crate::quoted::text_len;
use crate::symbol_kind::SymbolKind;
use crate::token::{Lexeme, Token};
use rmt_values::MOST_DIGITS;

/// The longest word.
const LONGEST_WORD: usize = 255;

/// Whether a byte separates tokens.
fn is_white(byte: u8) -> bool
    ensures { result ≡ white_test byte }
{
    matches!(byte, b' ' | b'\t' | b'\r' | b'\n')
}

/// Whether a byte may come on the line after FORMAT CSV.
fn is_blank(byte: u8) -> bool
    ensures { result ≡ blank_test byte }
{
    matches!(byte, b' ' | b'\t' | b'\r')
}

fn begins_word(byte: u8) -> bool
    ensures { result ≡ word_begins byte }
{
    byte.is_ascii_alphabetic() || byte == b'_'
}

fn is_word_byte(byte: u8) -> bool
    ensures { result ≡ word_test byte }
{
    byte.is_ascii_alphanumeric() || byte == b'_'
}

/// Whether a word is this keyword, in any case of its letters.
pub fn is_keyword(word: &[u8], small: &[u8]) -> bool
    ensures { result ≡ keyword_test word.now small.now }
{
    word.eq_ignore_ascii_case(small)
}

/// How many bytes at the start are white.
fn white_len(bytes: &[u8]) -> usize
    ensures len { result ≡ prefix_len white_test bytes.now }
    ensures bound { result ≤ length bytes.now }
{
    bytes.iter().take_while(|byte| is_white(**byte)).count()
}

/// How many bytes at the start are white and end no line.
fn blank_len(bytes: &[u8]) -> usize
    ensures len { result ≡ prefix_len blank_test bytes.now }
    ensures bound { result ≤ length bytes.now }
{
    bytes.iter().take_while(|byte| is_blank(**byte)).count()
}

/// How many bytes there are up to the line's end.
fn line_len(bytes: &[u8]) -> usize
    ensures len { result ≡ prefix_len within_test bytes.now }
    ensures bound { result ≤ length bytes.now }
{
    bytes.iter().take_while(|byte| **byte != b'\n').count()
}

/// How many bytes at the start may be in a word.
fn word_len(bytes: &[u8]) -> usize
    ensures len { result ≡ prefix_len word_test bytes.now }
    ensures bound { result ≤ length bytes.now }
{
    bytes.iter().take_while(|byte| is_word_byte(**byte)).count()
}

/// Whether a comment begins here.
fn begins_comment(bytes: &[u8]) -> bool
    ensures { result ≡ comment_begins bytes.now }
{
    matches!(bytes, [b'-', b'-', ..])
}

/// Whether this byte comes after the first.
fn is_second(bytes: &[u8], byte: u8) -> bool
    ensures { result ≡ next_is_byte byte (drop 1 bytes.now) }
{
    bytes.len() > 1 && bytes[1] == byte
}

/// The token of a symbol at the start, and how many bytes it has.
fn symbol(bytes: &[u8]) -> (Token<'static>, usize)
    requires { 0 < length bytes.now }
    ensures token { token_of result.0 ≡ (sign_of (slice_index bytes.now 0) (drop 1 bytes.now)).token }
    ensures len { result.1 ≡ 1 + (sign_of (slice_index bytes.now 0) (drop 1 bytes.now)).more }
    ensures bound { result.1 ≤ length bytes.now }
{
    match bytes[0] {
        b'(' => (Token::Symbol(SymbolKind::Open), 1),
        b')' => (Token::Symbol(SymbolKind::Close), 1),
        b',' => (Token::Symbol(SymbolKind::Comma), 1),
        b'=' => (Token::Symbol(SymbolKind::Equal), 1),
        b'@' => (Token::Symbol(SymbolKind::At), 1),
        b'+' => (Token::Symbol(SymbolKind::Plus), 1),
        b'-' => (Token::Symbol(SymbolKind::Minus), 1),
        b'*' => (Token::Symbol(SymbolKind::Star), 1),
        b'<' if is_second(bytes, b'>') => (Token::Symbol(SymbolKind::Differs), 2),
        b'<' if is_second(bytes, b'=') => (Token::Symbol(SymbolKind::AtMost), 2),
        b'<' => (Token::Symbol(SymbolKind::Less), 1),
        b'>' if is_second(bytes, b'=') => (Token::Symbol(SymbolKind::AtLeast), 2),
        b'>' => (Token::Symbol(SymbolKind::Greater), 1),
        b'!' if is_second(bytes, b'=') => (Token::Symbol(SymbolKind::Differs), 2),
        b';' => (Token::Semicolon, 1),
        _ => (Token::Bad, 1),
    }
}

/// The token of a run of digits.
fn number(digits: &[u8]) -> Token<'static>
    ensures { token_of result ≡ number_token digits.now }
{
    if digits.len() > MOST_DIGITS {
        return Token::Bad;
    }
    match decimal_value(digits) {
        Some(value) => Token::Number(value),
        None => Token::Bad,
    }
}

/// The token of a run of bytes of a word.
fn word(text: &[u8]) -> Token<'_>
    ensures { token_of result ≡ word_token text.now }
{
    if text.len() > LONGEST_WORD {
        Token::Bad
    } else {
        Token::Word(text)
    }
}

/// What comes after a word.
fn after_word(context: Context, word: &[u8]) -> Context
    ensures { result ≡ after_word_of context word.now }
{
    if is_keyword(word, b"format") {
        return Context::Format;
    }
    if is_keyword(word, b"csv") && matches!(context, Context::Format) {
        return Context::Csv;
    }
    Context::Plain
}

/// How many bytes at the start are white, or a comment; 0 where a token begins.
fn gap_len(context: Context, bytes: &[u8]) -> usize
    ensures same { spots context (drop result bytes.now) ≡ spots context bytes.now }
    ensures none { result ≡ 0 → BeginsToken context bytes.now }
    ensures bound { result ≤ length bytes.now }
{
    match context {
        Context::Csv => blank_len(bytes),
        _ => {
            if begins_comment(bytes) {
                line_len(bytes)
            } else {
                white_len(bytes)
            }
        }
    }
}

/// The place of the first token: white space and comments are passed over.
fn skipped(at: Cursor<'_>) -> Cursor<'_>
    ensures same { tokens result ≡ tokens at.entry }
    ensures begins { BeginsToken result.context result.bytes.now }
{
    let context = at.context;
    let mut rest = at.bytes;
    'gaps: loop {
        let len = gap_len(context, rest);
        if len == 0 {
            return Cursor {
                bytes: rest,
                context,
            };
        }
        let (_, after) = rest.split_at(len);
        rest = after;
    }
}

/// The word at the start of bytes that begin with one.
fn first_word(at: Cursor<'_>) -> Lexeme<'_>
    requires some { 0 < length at.bytes.now }
    requires csv { at.context ≡ Csv → ⊥ }
    requires begins { word_begins (slice_index at.bytes.now 0) ≡ true }
    ensures { IsFirstToken (tokens at.entry) result }
{
    let (text, rest) = at.bytes.split_at(word_len(at.bytes));
    Lexeme {
        token: word(text),
        left: at.bytes.len(),
        rest: Cursor {
            bytes: rest,
            context: after_word(at.context, text),
        },
    }
}

/// The number at the start of bytes that begin with one.
fn first_number(at: Cursor<'_>) -> Lexeme<'_>
    requires some { 0 < length at.bytes.now }
    requires csv { at.context ≡ Csv → ⊥ }
    requires begins { digit_test (slice_index at.bytes.now 0) ≡ true }
    ensures { IsFirstToken (tokens at.entry) result }
{
    let (digits, rest) = at.bytes.split_at(digits_len(at.bytes));
    Lexeme {
        token: number(digits),
        left: at.bytes.len(),
        rest: Cursor {
            bytes: rest,
            context: Context::Plain,
        },
    }
}

/// The text at the start of bytes that begin with a quote.
fn first_text(at: Cursor<'_>) -> Lexeme<'_>
    requires some { 0 < length at.bytes.now }
    requires csv { at.context ≡ Csv → ⊥ }
    requires begins { slice_index at.bytes.now 0 ≡ 39 }
    ensures { IsFirstToken (tokens at.entry) result }
{
    let (_, bytes) = at.bytes.split_at(1);
    match text_len(bytes) {
        Some(len) => {
            let (_, rest) = bytes.split_at(len);
            Lexeme {
                token: Token::Text(bytes),
                left: at.bytes.len(),
                rest: Cursor {
                    bytes: rest,
                    context: Context::Plain,
                },
            }
        }
        None => Lexeme {
            token: Token::Bad,
            left: at.bytes.len(),
            rest: Cursor {
                bytes,
                context: Context::Plain,
            },
        },
    }
}

/// The data at the start of what comes after FORMAT CSV.
fn first_data(at: Cursor<'_>) -> Lexeme<'_>
    requires some { 0 < length at.bytes.now }
    requires csv { at.context ≡ Csv }
    requires begins { BeginsToken at.context at.bytes.now }
    ensures { IsFirstToken (tokens at.entry) result }
{
    let (_, lines) = at.bytes.split_at(1);
    if at.bytes[0] != b'\n' {
        return Lexeme {
            token: Token::Bad,
            left: at.bytes.len(),
            rest: Cursor {
                bytes: lines,
                context: Context::Plain,
            },
        };
    }
    let (data, rest) = lines.split_at(data_len(lines));
    Lexeme {
        token: Token::Data(data),
        left: at.bytes.len(),
        rest: Cursor {
            bytes: rest,
            context: Context::Plain,
        },
    }
}

/// The symbol at the start of bytes that begin with no other token.
fn first_symbol(at: Cursor<'_>) -> Lexeme<'_>
    requires some { 0 < length at.bytes.now }
    requires csv { at.context ≡ Csv → ⊥ }
    requires begins { BeginsToken at.context at.bytes.now }
    requires no_word { word_begins (slice_index at.bytes.now 0) ≡ false }
    requires no_number { digit_test (slice_index at.bytes.now 0) ≡ false }
    requires no_text { slice_index at.bytes.now 0 ≡ 39 → ⊥ }
    ensures { IsFirstToken (tokens at.entry) result }
{
    let (token, len) = symbol(at.bytes);
    let (_, rest) = at.bytes.split_at(len);
    Lexeme {
        token,
        left: at.bytes.len(),
        rest: Cursor {
            bytes: rest,
            context: Context::Plain,
        },
    }
}

/// The token at the start of bytes that begin with one.
fn first_token(at: Cursor<'_>) -> Lexeme<'_>
    requires some { 0 < length at.bytes.now }
    requires begins { BeginsToken at.context at.bytes.now }
    ensures { IsFirstToken (tokens at.entry) result }
{
    if matches!(at.context, Context::Csv) {
        return first_data(at);
    }
    let first = at.bytes[0];
    if begins_word(first) {
        return first_word(at);
    }
    if first.is_ascii_digit() {
        return first_number(at);
    }
    if first == b'\'' {
        return first_text(at);
    }
    first_symbol(at)
}

/// The token where no bytes are left.
fn last_token(at: Cursor<'_>) -> Option<Lexeme<'_>>
    requires { at.bytes.now ≡ [] }
    ensures { IsNext (tokens at.entry) result }
{
    match at.context {
        Context::Csv => Some(Lexeme {
            token: Token::Data(at.bytes),
            left: 0,
            rest: Cursor {
                bytes: at.bytes,
                context: Context::Plain,
            },
        }),
        Context::Over => None,
        _ => Some(Lexeme {
            token: Token::Semicolon,
            left: 0,
            rest: Cursor {
                bytes: at.bytes,
                context: Context::Over,
            },
        }),
    }
}

/// The first token from a place on; the end of the bytes stands for one that ends a statement.
pub fn next_token(at: Cursor<'_>) -> Option<Lexeme<'_>>
    ensures { IsNext (tokens at.entry) result }
{
    let at = skipped(at);
    if at.bytes.is_empty() {
        last_token(at)
    } else {
        Some(first_token(at))
    }
}
