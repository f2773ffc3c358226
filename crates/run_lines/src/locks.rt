ghost use Rattle.std.specs.Prelude.{List};
ghost use Rattle.edge_io.specs.Writing.{Writes};
ghost use Rattle.round_runner.specs.Known.{KnowsLocks};
ghost use Rattle.round_runner.specs.Runners.{IsPlaying, configuration_of};
ghost use Rattle.run_lines.specs.RunTexts.{lock_lines};

use counter_core::Overlay;
use edge_io::{Sink, Writer};
use layer_laws::Play;
use round_runner::Runner;

/// Writes the first locked configuration of each era: for a script of version 1 one line, else one
/// for each era, with the configuration that it begins with.
///
/// The runner plays with any layer, and knows them.
pub fn put_locks<K: Sink, O: Overlay>(writer: &mut Writer<'_, K>, runner: &Runner<O>)
    requires { KnowsLocks runner.now }
    ensures { (began : List O.Kept) → IsPlaying O.layer O.kept began runner.now
        → Writes K.told (lock_lines runner.now.plan runner.now.script
        (configuration_of O.layer began runner.now)) writer.old writer.new }
{
    runner.facts();
    layer_runner::put_locks(writer, runner);
}
