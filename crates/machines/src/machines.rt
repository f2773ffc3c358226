ghost use Rattle.std.specs.Prelude.{◌≡◌, ◌+◌, ◌<◌, ◌≤◌, length, take};
ghost use Rattle.construction.specs.Steps.{state_of};
ghost use Rattle.state_codec.specs.Shapes.{bytes_in};
ghost use Rattle.state_codec.specs.Reading.{read};
ghost use Rattle.state_codec.specs.Writing.{written};
ghost use Rattle.counter_core.specs.Meanings.{written as put};
ghost use Rattle.counter_core.specs.Working.{IsWorkFor, IsAsRoomy};
ghost use Rattle.machines.specs.Machines.{Machine, IsState, IsFront, AreFronts};
ghost use Rattle.machines.specs.Laws.{IsSound};

use counter_core::{Heard, Work};
use state_codec::Packed;
use sync_types::NodeState;

/// A counter whose nodes have states that are read and written as bytes. Its nodes step by what
/// they hear, and from its bound on all correct ones show one number, which grows by one modulo its
/// modulus with each round.
pub trait Machine: Drop {
    // The machine that a value is.
    ghost machine: { Self → Machine };

    /// How many nodes there are, 1 to 256.
    fn nodes(&self) -> u32
        ensures { result ≡ (machine self.now).nodes };

    /// How many of them may be faulty, less than a third.
    fn faults(&self) -> u32
        ensures { result ≡ (machine self.now).faults };

    /// The modulus that it counts by, 2 to 2^40.
    fn modulus(&self) -> u64
        ensures { result ≡ (machine self.now).modulus };

    /// From which configuration on it counts, whatever the start.
    fn bound(&self) -> u64
        ensures { result ≡ (machine self.now).bound };

    /// How many registers a state has, those that a node lacks among them.
    fn depth(&self) -> usize
        ensures { result ≡ (machine self.now).depth };

    /// The register that tells whether a configuration is locked; None if each is.
    fn lock(&self) -> Option<usize>
        ensures { result ≡ (machine self.now).lock };

    /// Tells a caller's proof that the machine is sound. It does nothing when it runs.
    fn facts(&self)
        ensures { IsSound (machine self.now) };

    /// How many bytes a state of node `v` has, at most 128.
    fn bytes_of(&self, v: u32) -> usize
        requires { v < (machine self.now).nodes }
        ensures value { result ≡ bytes_in ((machine self.now).fields v) }
        ensures most { result ≤ 128 };

    /// Writes the bytes of a state of node `v` into `out`, which has just their length.
    fn write_state(&self, v: u32, state: &NodeState, out: &mut [u8])
        requires node { v < (machine self.now).nodes }
        requires state { IsState (machine self.now) v state.now }
        requires length { length out.old ≡ bytes_in ((machine self.now).fields v) }
        ensures { out.new ≡ written ((machine self.now).fields v) state.now };

    /// Reads a state of node `v` from any bytes. Bytes whose number is not that of a state of the
    /// node stand for the zero state.
    fn read_state(&self, v: u32, bytes: &[u8], out: &mut NodeState)
        requires node { v < (machine self.now).nodes }
        requires depth { length out.old.registers ≡ (machine self.now).depth }
        ensures { out.new ≡ read ((machine self.now).fields v) bytes.now };

    /// Reads a state of node `v` from the beginning of bytes; eight bytes more stand after it.
    fn read_front(&self, v: u32, bytes: &[u8], out: &mut NodeState)
        requires node { v < (machine self.now).nodes }
        requires within { bytes_in ((machine self.now).fields v) + 8 ≤ length bytes.now }
        requires depth { length out.old.registers ≡ (machine self.now).depth }
        ensures { out.new ≡ read ((machine self.now).fields v)
            (take (bytes_in ((machine self.now).fields v)) bytes.now) };

    /// What a state of node `v` shows, below the modulus. Registers after the machine's own do not
    /// matter.
    fn output(&self, v: u32, state: &NodeState) -> u64
        requires node { v < (machine self.now).nodes }
        requires state { IsFront (machine self.now) v state.now }
        ensures { result ≡ (machine self.now).shows v state.now };

    /// What node `v` shows in the current configuration, of which no more is read than that takes.
    fn output_in(&self, v: u32, states: &Packed) -> u64
        requires node { v < (machine self.now).nodes }
        requires among { v < length states.now.current }
        requires deep { (machine self.now).depth ≤ states.now.shape.depth }
        ensures { result ≡ (machine self.now).shows v (state_of states.now.current v) };

    /// Makes the step of node `v`, from what it hears of all nodes. It writes the number and the
    /// machine's registers, and leaves further registers of `out` as they are; those of what is
    /// heard do not matter. It takes no memory: `work` has room for all nodes.
    fn advance(&self, v: u32, heard: &Heard<'_>, work: &mut Work, out: &mut NodeState)
        requires node { v < (machine self.now).nodes }
        requires heard { AreFronts (machine self.now) heard.now }
        requires work { IsWorkFor (machine self.now).nodes work.old }
        requires out { (machine self.now).depth ≤ length out.old.registers }
        ensures out { out.new ≡ put (machine self.now).depth
            ((machine self.now).step v heard.now) out.old }
        ensures work { IsAsRoomy work.old work.new };
}
