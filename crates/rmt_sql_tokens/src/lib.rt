//! Tokens of scripts, what it is to read a form of tokens exactly, and the readers of single tokens.
#![tactic(auto)]

mod context;
mod cursor;
mod digits;
mod lexing;
mod lines;
mod quoted;
mod read_error;
mod readers;
mod symbol_kind;
mod token;

pub use context::Context;
pub use cursor::Cursor;
pub use digits::{decimal_value, digits_len};
pub use lexing::{is_keyword, next_token};
pub use read_error::ReadError;
pub use readers::{
    column, comparison, data, end, exactly, is_end_next, is_keyword_next, is_number_next,
    is_some_word_next, is_symbol_next, is_text_next, is_word_next, keyword, left, next_keyword,
    next_symbol, number, semicolon, symbol, text, this_number, word,
};
pub use symbol_kind::SymbolKind;
pub use token::{Lexeme, Token};
