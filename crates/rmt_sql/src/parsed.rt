use rmt_statements::Statement;

/// What comes next in a script. Places are counted in bytes from the script's start.
#[derive(Drop)]
pub enum Parsed {
    /// A statement, the place of its first token, and the place after it, where reading goes on.
    Statement {
        statement: Statement,
        start: usize,
        end: usize,
    },
    /// The place of the first token that can't follow the tokens of its statement in any form, or the script's length
    /// where the script ends too early; and the place where reading goes on, after the first `;` from there on.
    Syntax {
        offset: usize,
        end: usize,
    },
    /// No statement is left.
    End,
}
