ghost use Rattle.std.specs.Prelude.{◌≡◌, false};
ghost use Rattle.texts.specs.Growth.{Puts};
ghost use Rattle.edge_io.specs.Writing.{Writes};
ghost use Rattle.layer_laws.specs.Positions.{IsBegun, played_to};
ghost use Rattle.layer_runner.specs.PlayedTexts.{lines_text, text_of};

use crate::lines::Lines;
use crate::locks::put_locks;
use crate::words::put_if_shown;
use counter_core::Overlay;
use edge_io::{RisingText, Sink, WriteFault, Writer};
use layer_laws::Play;
use machine_runner::put_bound;

/// Plays all rounds of a script, and writes the lines that there are. It stops if a write failed.
fn put_lines<K: Sink, O: Overlay, P: Play<O>, L: Lines<O>>(
    writer: &mut Writer<'_, K>,
    play: &mut P,
    lines: &L,
)
    requires { IsBegun (P.position play.old) }
    ensures lines { Writes K.told (lines_text (P.position play.old).counter
        (P.position play.old).script (P.position play.old).layer
        (P.position play.old).scene.kept (L.wording lines.now))
        writer.old writer.new }
    ensures played { writer.new.failed ≡ false → P.position play.new
        ≡ played_to (P.position play.old).scene.kept (P.position play.old)
        (P.position play.old).script.rounds }
{
    play.facts();
    let rounds = play.script().rounds();
    let mut number = RisingText::new(lines.label(), 0);
    for _ in 0..rounds {
        if writer.has_failed() {
            return;
        }
        put_if_shown(writer, play, lines, &number);
        play.round();
        number.rise();
    }
    put_if_shown(writer, play, lines, &number);
}

/// Plays all rounds of a script, and writes the bound, a line of each configuration that has one,
/// and the first locked configuration of each era. It takes no memory.
///
/// The play is at configuration 0. `WriteFault` comes if the sink counted one; a prefix of the text
/// was then taken.
pub fn put_played<K: Sink, O: Overlay, P: Play<O>, L: Lines<O>>(
    sink: &mut K,
    play: &mut P,
    lines: &L,
) -> Result<(), WriteFault>
    requires { IsBegun (P.position play.old) }
    ensures { Puts result (text_of (L.wording lines.now) (P.position play.old))
        (K.told sink.old) (K.told sink.new) }
{
    let mut writer = Writer::new(sink);
    put_bound(&mut writer, play.bound());
    put_lines(&mut writer, play, lines);
    if !writer.has_failed() {
        put_locks(&mut writer, play);
    }
    writer.finish()
}
