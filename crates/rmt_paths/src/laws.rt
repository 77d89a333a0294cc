//! Laws of paths, as functions that do nothing: what they ensure holds of all paths.
ghost use Rattle.std.specs.Prelude.{◌≡◌};
ghost use Rattle.rmt_paths.specs.Paths.{Names, IsPath, path_text};

/// Paths with one text are the same.
pub fn one_spelling()
    ensures { (p q : Names) → IsPath p → IsPath q → path_text p ≡ path_text q → p ≡ q }
{}
