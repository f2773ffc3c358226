//! An attack, and the lines of its script.

ghost use Rattle.std.specs.Prelude.{◌≡◌, IfOk};

use std::marker::Model;
use sync_types::NoMemory;

/// What a faulty node says.
#[derive(Clone, Copy, Debug, PartialEq, Eq)]
pub enum Say {
    /// A state of noise.
    Noise,
    /// The state of that node.
    Copy(u32),
    /// The state that is drawn from the lot of this seed.
    Drawn(u64),
    /// Its own state, with the number and the finite values that much larger.
    Shift(u64),
}

/// A node that starts in the state that is drawn from the lot of a seed.
#[derive(Clone, Copy, Debug, PartialEq, Eq)]
pub struct StartLine {
    pub node: u32,
    pub seed: u64,
}

/// In the rounds `first` to `last` the node `sender` says that to the nodes `from` to `to`; each
/// range with both its ends.
#[derive(Clone, Copy, Debug, PartialEq, Eq)]
pub struct LieLine {
    pub first: u64,
    pub last: u64,
    pub sender: u32,
    pub from: u32,
    pub to: u32,
    pub says: Say,
}

/// What an adversary does with a counter: the faulty nodes, the number of the key of the noise in
/// which the other nodes start, the nodes that start in a state of their own, what the faulty ones
/// say, how many rounds are played, and the first and the last configuration that is shown.
pub struct Attack {
    pub(crate) faulty: Vec<u32>,
    pub(crate) key: u64,
    pub(crate) starts: Vec<StartLine>,
    pub(crate) lies: Vec<LieLine>,
    pub(crate) rounds: u64,
    pub(crate) first: u64,
    pub(crate) last: u64,
}

// Written out, so that code that drops one has a single call.
impl Drop for Attack {
    fn drop(self) {
        let Attack {
            faulty,
            key: _,
            starts,
            lies,
            rounds: _,
            first: _,
            last: _,
        } = self;
        drop(faulty);
        drop(starts);
        drop(lies);
    }
}

impl Model for Attack {
    ghost use Rattle.attack.specs.Attacks.{Attack as AttackSaid};

    ghost Value = { AttackSaid };

    ghost view = { λ a. record {
      faulty = a.faulty.items;
      key = a.key;
      starts = a.starts.items;
      lies = a.lies.items;
      rounds = a.rounds;
      first = a.first;
      last = a.last;
    } };
}

impl Attack {
    /// The same attack. `NoMemory` comes if memory was refused.
    pub fn try_clone(&self) -> Result<Attack, NoMemory>
        ensures { IfOk result (λ attack. attack ≡ self.now) }
    {
        let faulty = self.faulty.clone()?;
        let starts = self.starts.clone()?;
        let lies = self.lies.clone()?;
        Ok(Attack {
            faulty,
            key: self.key,
            starts,
            lies,
            rounds: self.rounds,
            first: self.first,
            last: self.last,
        })
    }
}
