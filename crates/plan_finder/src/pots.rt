ghost use Rattle.std.specs.Prelude.{◌≡◌};

use std::marker::Model;

/// A pair of nodes and faults, and a value: in what [`crate::find`] answers, the least cost of the
/// steps that reach the pair.
#[derive(Clone, Copy, Debug, PartialEq, Eq)]
pub struct Pot {
    /// How many nodes.
    pub nodes: u64,
    /// How many faults they tolerate.
    pub faults: u64,
    /// In rounds.
    pub value: u64,
}

/// Pairs with their values.
#[derive(Debug, Drop)]
pub struct Pots {
    pots: Vec<Pot>,
}

impl Model for Pots {
    ghost use Rattle.std.specs.Prelude.{List};
    ghost use Rattle.plan_finder.specs.declared.pots.Pot.{Pot};

    ghost Value = { List Pot };

    ghost view = { λ p. p.pots.items };
}

impl Pots {
    /// These pairs.
    pub(crate) fn new(pots: Vec<Pot>) -> Pots
        ensures { result ≡ pots.items }
    {
        Pots { pots }
    }

    /// The pairs, without memory.
    pub fn as_slice(&self) -> &[Pot]
        ensures { result.now ≡ self.now }
    {
        self.pots.as_slice()
    }
}
