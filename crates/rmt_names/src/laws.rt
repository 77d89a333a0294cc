//! What follows of names and texts for all of them.
ghost use Rattle.std.specs.Prelude.{◌≡◌};
ghost use Rattle.rmt_names.specs.Names.{Name, IsName};
ghost use Rattle.rmt_names.specs.Texts.{text_of};

/// Law: two names with one text are one name.
pub fn one_spelling()
    ensures { (a b : Name) → IsName a → IsName b → text_of a ≡ text_of b → a ≡ b }
{}
