ghost use Rattle.std.specs.Prelude.{◌≡◌, ◌+◌, ◌<◌, ◌≤◌, List, [], None, false, is_some};
ghost use Rattle.std.specs.Prelude.{slice_index_or};
ghost use Rattle.texts.specs.Growth.{Puts};
ghost use Rattle.edge_io.specs.Writing.{Writes};
ghost use Rattle.counter_core.specs.NoLayers.{no_layer};
ghost use Rattle.adversary_script.specs.Eras.{era_of, end_of_era};
ghost use Rattle.round_runner.specs.Known.{CountsOn, KnowsLocks};
ghost use Rattle.round_runner.specs.Runners.{IsPlaying, configuration_of};
ghost use Rattle.run_lines.specs.PlayedTexts.{lines_text, lines_between};
ghost use Rattle.run_lines.specs.Playing.{IsToPlay, HasPlayed, text_of};

use crate::counted::put_counted_lines;
use crate::lines::OutputLines;
use crate::locks::put_locks;
use crate::outputs::Output;
use counter_core::NoOverlay;
use edge_io::{RisingText, Sink, WriteFault, Writer};
use layer_runner::put_if_shown;
use machine_runner::put_bound;
use round_runner::Runner;

/// Writes the lines of the runner's configuration and of those after it before `end`, which are of
/// its era, and in which the correct nodes count on from this number. Lines that are not shown take
/// no time.
fn put_counted<K: Sink, L: OutputLines>(
    writer: &mut Writer<'_, K>,
    runner: &Runner<NoOverlay>,
    lines: &L,
    value: u64,
    end: u64,
)
    requires era { end ≤ end_of_era runner.now.script (era_of runner.now.script runner.now.at) }
    requires counts { (began : List (Unit {0})) → IsPlaying (λ o. no_layer) (λ o. []) began
        runner.now → CountsOn runner.now.plan runner.now.script
        (configuration_of (λ o. no_layer) began runner.now) runner.now.at value }
    ensures { (began : List (Unit {0})) → IsPlaying (λ o. no_layer) (λ o. []) began runner.now
        → Writes K.told (lines_between runner.now.plan runner.now.script no_layer began
        (L.Lines.wording lines.now) runner.now.at end) writer.old writer.new }
{
    let script = runner.script();
    let _rounds = script.rounds();
    let (first, last) = script.shown();
    let from = first.max(runner.at());
    let modulus = runner.modulus();
    let output = (value % modulus + (from - runner.at())) % modulus;
    put_counted_lines(
        writer,
        lines,
        runner.nodes(),
        script.faulty_at(runner.at()),
        RisingText::new(lines.label(), from),
        Output::new(output, modulus),
        (last + 1).min(end).saturating_sub(from),
    );
}

/// Writes the lines of the runner's configuration and of those after it before `end`: of its own
/// alone, or of some of its era, if that is known to be locked.
fn put_known<K: Sink, L: OutputLines>(
    writer: &mut Writer<'_, K>,
    runner: &Runner<NoOverlay>,
    lines: &L,
    end: u64,
)
    requires era { end ≤ end_of_era runner.now.script (era_of runner.now.script runner.now.at) }
    requires own { is_some (slice_index_or runner.now.locks
        (era_of runner.now.script runner.now.at) None) ≡ false → end ≡ runner.now.at + 1 }
    ensures { (began : List (Unit {0})) → IsPlaying (λ o. no_layer) (λ o. []) began runner.now
        → Writes K.told (lines_between runner.now.plan runner.now.script no_layer began
        (L.Lines.wording lines.now) runner.now.at end) writer.old writer.new }
{
    match runner.counted() {
        Some(value) => put_counted(writer, runner, lines, value, end),
        None => put_if_shown(
            writer,
            runner,
            lines,
            &RisingText::new(lines.label(), runner.at()),
        ),
    }
}

/// Before which configuration all lines are known: the end of the era, if it is known to be locked,
/// and else the next one.
fn known_end(runner: &Runner<NoOverlay>) -> u64
    requires { runner.now.at < runner.now.script.rounds }
    ensures later { runner.now.at < result }
    ensures within { result ≤ runner.now.script.rounds }
    ensures era { result ≤ end_of_era runner.now.script (era_of runner.now.script runner.now.at) }
    ensures own { is_some (slice_index_or runner.now.locks
        (era_of runner.now.script runner.now.at) None) ≡ false → result ≡ runner.now.at + 1 }
{
    let rounds = runner.script().rounds();
    if runner.locked_at().is_some() {
        runner.era_end().min(rounds)
    } else {
        runner.at() + 1
    }
}

/// Plays rounds of a script until the first locked configuration of each era is known, and writes
/// the lines that there are. After the first locked configuration of an era its lines are counted,
/// and its rounds are skipped if it is settled. It stops if a write failed.
fn put_lines<K: Sink, L: OutputLines>(
    writer: &mut Writer<'_, K>,
    runner: &mut Runner<NoOverlay>,
    lines: &L,
)
    requires { IsToPlay (λ o. no_layer) (λ o. []) runner.old }
    ensures lines { Writes K.told (lines_text runner.old.plan runner.old.script no_layer []
        (L.Lines.wording lines.now)) writer.old writer.new }
    ensures played { writer.new.failed ≡ false
        → HasPlayed (λ o. no_layer) (λ o. []) runner.old runner.new.at runner.new }
    ensures knows { writer.new.failed ≡ false → KnowsLocks runner.new }
{
    let rounds = runner.script().rounds();
    while !runner.knows_locks() {
        if writer.has_failed() {
            return;
        }
        let end = known_end(runner);
        put_known(writer, runner, lines, end);
        runner.skip_to(end);
    }
    put_known(writer, runner, lines, rounds + 1);
}

/// Writes the bound, the lines that there are, and the first locked configurations.
fn put_all_lines<K: Sink, L: OutputLines>(
    writer: &mut Writer<'_, K>,
    runner: &mut Runner<NoOverlay>,
    lines: &L,
)
    requires { IsToPlay (λ o. no_layer) (λ o. []) runner.old }
    ensures { Writes K.told
        (text_of (λ o. no_layer) (λ o. []) (L.Lines.wording lines.now) runner.old)
        writer.old writer.new }
{
    put_bound(writer, runner.bound());
    put_lines(writer, runner, lines);
    if writer.has_failed() {
        return;
    }
    put_locks(writer, runner);
}

/// Writes what [`put_played`](crate::put_played) writes, of a script that is played without a
/// layer, and plays no more rounds than it must: once the first locked configuration of each era is
/// known, it writes the lines that are left by counting. It takes no memory.
///
/// The runner is at configuration 0. `WriteFault` comes if the sink counted one; a prefix of the
/// text was then taken.
pub fn put_counting<K: Sink, L: OutputLines>(
    sink: &mut K,
    runner: &mut Runner<NoOverlay>,
    lines: &L,
) -> Result<(), WriteFault>
    requires { IsToPlay (λ o. no_layer) (λ o. []) runner.old }
    ensures { Puts result (text_of (λ o. no_layer) (λ o. []) (L.Lines.wording lines.now) runner.old)
        (K.told sink.old) (K.told sink.new) }
{
    let mut writer = Writer::new(sink);
    put_all_lines(&mut writer, runner, lines);
    writer.finish()
}
