ghost use Rattle.std.specs.Prelude.{◌≡◌, ◌≤◌};

use std::marker::Model;

/// How many parts a background merge takes at most: two or more.
#[derive(Clone, Copy, Debug)]
pub struct Limits {
    most: usize,
}

impl Model for Limits {
    ghost use Rattle.std.specs.Prelude.{◌≤◌};
    ghost use Rattle.rmt_pick.specs.MergeChoices.{MergeLimits};

    ghost Value = { MergeLimits };

    ghost view = { λ l. record { most = l.most } };

    ghost invariant = { λ l. 2 ≤ l.most };

    ghost inverse = { λ v. record { most = v.most } };
}

impl Limits {
    /// The limits of merges that take at most so many parts.
    pub fn new(most: usize) -> Limits
        requires { 2 ≤ most }
        ensures { result ≡ record { most = most } }
    {
        Limits { most }
    }

    /// How many parts a background merge takes at most.
    pub fn most(&self) -> usize
        ensures value { result ≡ self.now.most }
        ensures least { 2 ≤ result }
    {
        self.most
    }
}
