ghost use Rattle.std.specs.Prelude.{◌≡◌, ◌<◌, ◌≤◌, true, length};
ghost use Rattle.edge_io.specs.Writing.{Writes};
ghost use Rattle.layer_runner.specs.PlayedTexts.{Wording, numbered};

use counter_core::Overlay;
use edge_io::{RisingText, Sink, Writer};
use layer_laws::Play;

/// What a word writes while a script is played with a layer: lines of some configurations, each
/// with a front and a word of each node.
pub trait Lines<O: Overlay>: Drop {
    ghost wording: { Self → Wording O.Kept };

    /// What stands before the number of a configuration, in lines whose front is that number: at
    /// most 12 bytes.
    fn label(&self) -> &'static [u8]
        ensures value { result.now ≡ (wording self.now).label }
        ensures short { length result.now ≤ 12 };

    /// Whether there is a line of the play's configuration.
    fn shows<P: Play<O>>(&self, play: &P) -> bool
        ensures { result ≡ (wording self.now).shows (P.position play.now).counter
            (P.position play.now).script (P.position play.now).at (P.position play.now).scene };

    /// Writes what its line begins with. `number` is that of the configuration, after the label.
    fn put_front<K: Sink, P: Play<O>>(
        &self,
        writer: &mut Writer<'_, K>,
        play: &P,
        number: &RisingText,
    )
        requires shown { (wording self.now).shows (P.position play.now).counter
            (P.position play.now).script (P.position play.now).at (P.position play.now).scene
            ≡ true }
        requires number { number.now
            ≡ numbered (wording self.now).label (P.position play.now).at }
        ensures { Writes K.told ((wording self.now).front (P.position play.now).counter
            (P.position play.now).script (P.position play.now).at (P.position play.now).scene)
            writer.old writer.new };

    /// Writes the word of node `v`, which is correct there.
    fn put_word<K: Sink, P: Play<O>>(&self, writer: &mut Writer<'_, K>, play: &P, v: u32)
        requires { v < (P.position play.now).counter.nodes }
        ensures { Writes K.told ((wording self.now).word (P.position play.now).counter
            (P.position play.now).scene v) writer.old writer.new };
}
