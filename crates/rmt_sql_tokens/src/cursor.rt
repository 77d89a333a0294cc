use crate::context::Context;

/// A place of a script: what is left to read, and what comes before its first token.
#[derive(Clone, Copy, Debug)]
pub struct Cursor<'a> {
    pub bytes: &'a [u8],
    pub context: Context,
}
