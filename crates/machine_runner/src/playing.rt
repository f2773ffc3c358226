ghost use Rattle.std.specs.Prelude.{◌≡◌};
ghost use Rattle.texts.specs.Growth.{Puts};
ghost use Rattle.edge_io.specs.Writing.{Writes};
ghost use Rattle.machine_runner.specs.ShownTexts.{shown_lines, shown_text};

use crate::leading::play_to;
use crate::lines::ShownLines;
use crate::lock_lines::put_locks;
use crate::words::Shown;
use crate::{Runner, put_bound};
use edge_io::{Sink, WriteFault, Writer};
use machines::Machine;

/// Plays a script, to the last configuration that is shown or until its correct nodes count, and
/// writes the lines. It stops if a write failed.
fn put_lines<K: Sink, M: Machine, L: ShownLines>(
    writer: &mut Writer<'_, K>,
    runner: &mut Runner<'_, M>,
    lines: &L,
)
    requires { runner.old.at ≡ 0 }
    ensures lines { Writes K.told
        (shown_lines (L.front lines.now) (L.word lines.now) (M.machine runner.old.machine)
        runner.old.script) writer.old writer.new }
    ensures played { runner.new ≡ record runner.old { at = runner.new.at } }
{
    let script = runner.script();
    let _rounds = script.rounds();
    let (first, last) = script.shown();
    for t in first..last + 1 {
        if writer.has_failed() {
            return;
        }
        play_to(runner, t);
        Shown::new(runner, t).put_line(writer, lines);
    }
}

/// Plays a script, and writes the machine's bound, the line of each configuration that is shown,
/// and the first locked configuration of each era. It takes no memory, and plays no more rounds
/// than it must: once the last era is locked its correct nodes count to the end.
///
/// The runner is at configuration 0. `WriteFault` comes if the sink counted one; a prefix of the
/// text was then taken.
pub fn put_shown<K: Sink, M: Machine, L: ShownLines>(
    sink: &mut K,
    runner: &mut Runner<'_, M>,
    lines: &L,
) -> Result<(), WriteFault>
    requires { runner.old.at ≡ 0 }
    ensures { Puts result
        (shown_text (L.front lines.now) (L.word lines.now) (M.machine runner.old.machine)
        runner.old.script) (K.told sink.old) (K.told sink.new) }
{
    let mut writer = Writer::new(sink);
    put_bound(&mut writer, runner.machine().bound());
    put_lines(&mut writer, runner, lines);
    if !writer.has_failed() {
        runner.facts();
        let rounds = runner.script().rounds();
        play_to(runner, rounds);
        put_locks(&mut writer, runner);
    }
    writer.finish()
}
