//! What can be swept.

ghost use Rattle.std.specs.Prelude.{◌≡◌, ◌≤◌, length, IfSome};
ghost use Rattle.sweep.specs.Sweeps.{Swept, with_key};
ghost use Rattle.sweep.specs.Tallies.{IsOfEra};

use adversary_script::Script;

/// A runner of a script on any counter, which plays the script with key after key.
pub trait Sweepable: Drop {
    // The counter's bound, how soon it locks, and the script.
    ghost swept: { Self → Swept };

    // The first locked configurations of the script are known.
    ghost knows: { Self → Type 0 };

    /// The counter's bound.
    fn bound(&self) -> u64
        ensures { result ≡ (swept self.now).bound };

    /// The script.
    fn script(&self) -> &Script
        ensures { result.now ≡ (swept self.now).script };

    /// Plays the script with the key of this number, until its first locked configurations are
    /// known. It takes no memory.
    fn play(&mut self, seed: u64)
        ensures swept { swept self.new ≡ with_key (swept self.old) seed }
        ensures knows { knows self.new };

    /// How many steps nodes made since the script began; the start counts as one.
    fn steps(&self) -> u64;

    /// The first locked configuration of era `j`. It is known.
    fn lock_of(&self, j: usize) -> Option<u64>
        requires among { j ≤ length (swept self.now).script.eras }
        requires known { knows self.now }
        ensures lock { result ≡ (swept self.now).locks (swept self.now).script j }
        ensures within { IfSome result (IsOfEra (swept self.now).script j) };
}

/// How many steps so many nodes made up to a configuration; the start counts as one.
pub fn steps_made(at: u64, nodes: u32) -> u64 {
    at.saturating_add(1).saturating_mul(u64::from(nodes))
}
