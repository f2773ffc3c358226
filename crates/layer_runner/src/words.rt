ghost use Rattle.std.specs.Prelude.{◌≡◌};
ghost use Rattle.edge_io.specs.Writing.{Writes};
ghost use Rattle.machine_runner.specs.RunTexts.{words_of};
ghost use Rattle.layer_runner.specs.PlayedTexts.{numbered, line_at};

use crate::lines::Lines;
use counter_core::Overlay;
use edge_io::{RisingText, Sink, Writer};
use layer_laws::Play;
use sync_types::FaultSet;

/// Writes the words of all nodes in the line of the play's configuration, a star of each that is
/// one of these faulty ones.
fn put_words<K: Sink, O: Overlay, P: Play<O>, L: Lines<O>>(
    writer: &mut Writer<'_, K>,
    play: &P,
    lines: &L,
    faulty: &FaultSet,
)
    ensures { Writes K.told (words_of (P.position play.now).counter.nodes
        ((L.wording lines.now).word (P.position play.now).counter (P.position play.now).scene)
        faulty.now.ids) writer.old writer.new }
{
    for v in 0..play.nodes() {
        if faulty.contains(v) {
            writer.text(b" *");
        } else {
            lines.put_word(writer, play, v);
        }
    }
}

/// Writes the line of the play's configuration, whose number is this one, if there is a line.
pub fn put_if_shown<K: Sink, O: Overlay, P: Play<O>, L: Lines<O>>(
    writer: &mut Writer<'_, K>,
    play: &P,
    lines: &L,
    number: &RisingText,
)
    requires { number.now ≡ numbered (L.wording lines.now).label (P.position play.now).at }
    ensures { Writes K.told (line_at (L.wording lines.now) (P.position play.now))
        writer.old writer.new }
{
    if lines.shows(play) {
        lines.put_front(writer, play, number);
        put_words(writer, play, lines, play.script().faulty_at(play.at()));
        writer.byte(b'\n');
    }
}
