//! Statements are read exactly: what is read is a line of a statement, each line of a statement is read, and a fault
//! is at the first token that can't follow. And each place of a script is read in one way.
ghost use Rattle.std.specs.Prelude.{◌≡◌, ℕ, List};
ghost use Rattle.rmt_sql_tokens.specs.Exact.{IsExact, never};
ghost use Rattle.rmt_sql.specs.declared.parsed.Parsed.{Parsed};
ghost use Rattle.rmt_sql.specs.Script.{ReadsAt};
ghost use Rattle.rmt_sql.specs.Grammar.{statement};

/// Statements are read exactly, those that may come first and those that may come later.
pub fn statements_are_read_exactly(is_first: bool)
    ensures { IsExact (statement is_first) never }
{}

/// What is at a place of a script is one thing: a statement, a fault, or the end of all.
pub fn places_are_read_in_one_way()
    ensures { (script : List ℕ) (at : ℕ) (one other : Parsed)
        → ReadsAt script at one → ReadsAt script at other → one ≡ other }
{}
