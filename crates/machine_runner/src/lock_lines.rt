ghost use Rattle.edge_io.specs.Writing.{Writes};
ghost use Rattle.machine_runner.specs.RunTexts.{lock_lines};
ghost use Rattle.machine_runner.specs.ShownTexts.{lock_played};
ghost use Rattle.machine_runner.specs.Counting.{Knows};

use crate::{Runner, put_era, put_locked};
use edge_io::{Sink, Writer};
use machines::Machine;

/// Writes the first locked configuration of each era, of a runner that is at the last configuration
/// or counts.
pub(crate) fn put_locks<K: Sink, M: Machine>(writer: &mut Writer<'_, K>, runner: &Runner<'_, M>)
    requires { Knows M.machine runner.now runner.now.script.rounds }
    ensures { Writes K.told (lock_lines runner.now.script
        (lock_played (M.machine runner.now.machine) runner.now.script))
        writer.old writer.new }
{
    runner.facts();
    if runner.script().version() == 1 {
        put_locked(writer, runner.lock_of(0));
        return;
    }
    for era in 0..runner.script().eras() {
        let first = runner.script().era_start(era);
        put_era(writer, first, runner.lock_of(era));
    }
}
