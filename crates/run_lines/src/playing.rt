ghost use Rattle.texts.specs.Growth.{Puts};
ghost use Rattle.run_lines.specs.Playing.{IsToPlay, text_of};

use counter_core::Overlay;
use edge_io::{Sink, WriteFault};
use layer_laws::Play;
use layer_runner::Lines;
use round_runner::Runner;

/// Plays all rounds of a script on the counter of a plan, and writes the bound, a line of each
/// configuration that has one, and the first locked configuration of each era. It takes no memory.
///
/// The runner is at configuration 0. `WriteFault` comes if the sink counted one; a prefix of the
/// text was then taken.
pub fn put_played<K: Sink, O: Overlay, L: Lines<O>>(
    sink: &mut K,
    runner: &mut Runner<O>,
    lines: &L,
) -> Result<(), WriteFault>
    requires { IsToPlay O.layer O.kept runner.old }
    ensures { Puts result (text_of O.layer O.kept (L.wording lines.now) runner.old)
        (K.told sink.old) (K.told sink.new) }
{
    runner.facts();
    layer_runner::put_played(sink, runner, lines)
}
