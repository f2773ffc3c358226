ghost use Rattle.std.specs.Prelude.{◌≡◌, ℕ, ◌<◌, ◌≤◌, length, All};
ghost use Rattle.sync_types.specs.States.{State, zero_state};
ghost use Rattle.counter_core.specs.Meanings.{Meaning, written};
ghost use Rattle.counter_core.specs.Runs.{Settles};
ghost use Rattle.counter_core.specs.Laws.{Sizes, LowsAreWithin, StaysInRange, IgnoresFurther};
ghost use Rattle.counter_core.specs.Working.{IsWorkFor, IsAsRoomy};

use crate::heard::Heard;
use crate::work::Work;
use sync_types::NodeState;

/// A counter of some nodes, of which some may be faulty. Its nodes step by what they hear, and from
/// its bound on all correct ones show one output, which grows by one modulo its modulus.
pub trait Counter: Drop {
    // Which values are counters.
    ghost valid: { Self → Type 0 };

    // The counter's numbers, and its step.
    ghost meaning: { Self → Meaning };

    // The lowest level in which the node at a place takes part.
    ghost lowest: { Self → (v : ℕ) → ℕ };

    // Which states are in range.
    ghost in_range: { Self → State → Type 0 };

    /// How many nodes there are, 1 to 256.
    fn nodes(&self) -> u32
        ensures { result ≡ (meaning self.now).nodes };

    /// How many of them may be faulty, fewer than a third.
    fn faults(&self) -> u32
        ensures { result ≡ (meaning self.now).faults };

    /// By what it counts, 2 to 2^40.
    fn modulus(&self) -> u64
        ensures { result ≡ (meaning self.now).modulus };

    /// From which configuration on it counts, whatever the start.
    fn bound(&self) -> u64
        ensures { result ≡ (meaning self.now).bound };

    /// How many registers of a state it uses, the first ones.
    fn depth(&self) -> usize
        ensures { result ≡ (meaning self.now).depth };

    /// The lowest level in which the node at a place takes part: that of which it is a spare, and 0
    /// if it is none. It is at most the depth.
    fn low(&self, place: u32) -> usize
        requires { place < (meaning self.now).nodes }
        ensures { result ≡ lowest self.now place };

    /// Does nothing but tell that this is a counter, which then has the laws below.
    fn tell(&self)
        ensures { valid self.now };

    /// What a state in range shows at a place, below the modulus.
    fn output(&self, place: u32, state: &NodeState) -> u64
        requires place { place < (meaning self.now).nodes }
        requires range { in_range self.now state.now }
        requires deep { (meaning self.now).depth ≤ length state.now.registers }
        ensures { result ≡ (meaning self.now).shows place state.now };

    /// Makes the step of the node at a place, from what it hears of all nodes. It writes the number
    /// and the registers that the counter uses, zero if the node lacks the field, and leaves
    /// further registers of `out` as they are.
    fn advance(&self, place: u32, heard: &Heard<'_>, work: &mut Work, out: &mut NodeState)
        requires place { place < (meaning self.now).nodes }
        requires heard { length heard.now ≡ (meaning self.now).nodes }
        requires range { All (in_range self.now) heard.now }
        requires deep { All (λ s. (meaning self.now).depth ≤ length s.registers) heard.now }
        requires work { IsWorkFor (meaning self.now).nodes work.old }
        requires out { (meaning self.now).depth ≤ length out.old.registers }
        ensures work { IsAsRoomy work.old work.new }
        ensures out { out.new
            ≡ written (meaning self.now).depth ((meaning self.now).next place heard.now) out.old };

    ghost sizes: { (c : Self) → valid c → Sizes (meaning c) (in_range c) };

    ghost lows_are_within: { (c : Self) → valid c → LowsAreWithin (meaning c) (lowest c) };

    ghost stays_in_range: { (c : Self) → valid c → StaysInRange (meaning c) (in_range c) };

    ghost ignores_further: { (c : Self) → valid c → IgnoresFurther (meaning c) (in_range c) };

    ghost zero_in_range: { (c : Self) → valid c → in_range c (zero_state (meaning c).depth) };

    ghost settles: { (c : Self) → valid c → Settles (meaning c) (in_range c) };
}
