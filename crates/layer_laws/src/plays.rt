ghost use Rattle.std.specs.Prelude.{◌≡◌, ◌<◌, ◌≤◌, List, None, length, slice_index_or};
ghost use Rattle.sync_types.specs.States.{State};
ghost use Rattle.construction.specs.Steps.{state_of};
ghost use Rattle.layer_laws.specs.Positions.{Position, IsFitting, advanced};

use adversary_script::Script;
use counter_core::Overlay;

/// A script that is played on a counter with a layer above, at one of its configurations.
pub trait Play<O: Overlay>: Drop {
    // Where the play stands.
    ghost position: { Self → Position O.Kept };

    /// Tells a caller's proof that the script and the layer are for the counter. It does nothing
    /// when it runs.
    fn facts(&self)
        ensures { IsFitting (position self.now) };

    /// How many rounds were played.
    fn at(&self) -> u64
        ensures { result ≡ (position self.now).at };

    /// The script.
    fn script(&self) -> &Script
        ensures { result.now ≡ (position self.now).script };

    /// How many nodes there are, at most 256.
    fn nodes(&self) -> u32
        ensures { result ≡ (position self.now).counter.nodes };

    /// From which configuration of an era on the counter counts, whatever the start.
    fn bound(&self) -> u64
        ensures { result ≡ (position self.now).counter.bound };

    /// What node `v` shows.
    fn output(&self, v: u32) -> u64
        requires { v < (position self.now).counter.nodes }
        ensures { result ≡ (position self.now).counter.shows v
            (state_of (position self.now).scene.states v) };

    /// The layer, as it is in this configuration.
    fn overlay(&self) -> &O
        ensures layer { O.layer result.now ≡ (position self.now).layer }
        ensures kept { O.kept result.now ≡ (position self.now).scene.kept };

    /// Of era `j` the first locked configuration so far.
    fn lock_of(&self, j: usize) -> Option<u64>
        requires { j ≤ length (position self.now).script.eras }
        ensures { result ≡ slice_index_or (position self.now).locks j None };

    /// Plays a round: every node steps from what it hears, and its layer with it. It takes no
    /// memory and cannot fail. There is a round left to play.
    fn round(&mut self)
        requires { (position self.old).at < (position self.old).script.rounds }
        ensures { position self.new ≡ advanced (position self.old) };
}
