ghost use Rattle.std.specs.Prelude.{◌≡◌, ◌≤◌};

use std::marker::Model;

/// The configurations that are wanted, the first and the last one.
#[derive(Clone, Copy, Debug, PartialEq, Eq)]
pub struct Want {
    pub(crate) first: u64,
    pub(crate) last: u64,
}

impl Model for Want {
    ghost use Rattle.std.specs.Prelude.{◌≤◌};
    ghost use Rattle.trace.specs.Wanted.{Wanted};

    ghost Value = { Wanted };

    ghost view = { λ w. record { first = w.first; last = w.last } };

    ghost inverse = { λ v. record { first = v.first; last = v.last } };

    ghost invariant = { λ w. w.first ≤ w.last };
}

impl Want {
    /// The first of them.
    pub fn first(&self) -> u64
        ensures { result ≡ self.now.first }
    {
        self.first
    }

    /// The last of them, which does not come before the first.
    pub fn last(&self) -> u64
        ensures value { result ≡ self.now.last }
        ensures order { self.now.first ≤ result }
    {
        self.last
    }
}
