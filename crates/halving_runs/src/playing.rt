ghost use Rattle.std.specs.Prelude.{◌≡◌, MatchResult, IfErr};
ghost use Rattle.machine_runner.specs.ShownTexts.{shown_text};
ghost use Rattle.halving_plan.specs.Laws.{machine_in};
ghost use Rattle.machine_runner.specs.Laws.{IsReadFor};
ghost use Rattle.halving_runs.specs.RunTexts.{IsPlayed, FailsToPlay, IsWritten, KeepsSink, run_of};
ghost use Rattle.halving_runs.specs.declared.shown.Shown.TheVariants as shown;

use crate::errors::PlayError;
use crate::layer_playing::play_layer;
use crate::reading::{read_scripted, read_slotted};
use crate::refusals::put_error;
use crate::shown::Shown;
use adversary_script::Script;
use consensus_layer::Agreement;
use edge_io::Sink;
use firing::Firing;
use halving_plan::HalvingMachine;
use machine_runner::{HoldLines, Rows, Runner, ShownLines, put_shown};
use replicated_log::Replica;
use state_codec::StateShape;
use std::alloc::Global;

/// Plays a script that was read for a machine, and writes the lines.
fn play_on<K: Sink, L: ShownLines>(
    alloc: Global,
    machine: &HalvingMachine,
    shape: StateShape,
    script: Script,
    lines: &L,
    sink: &mut K,
) -> Result<(), PlayError>
    requires read { IsReadFor (machine_in machine.now) script }
    requires shape { script.shape ≡ shape }
    ensures does { IsWritten result
        (shown_text (L.front lines.now) (L.word lines.now) (machine_in machine.now) script)
        (K.told sink.old) (K.told sink.new) }
    ensures untouched { IfErr result (KeepsSink sink.old sink.new) }
{
    let mut runner = Runner::new(alloc, machine, shape, script)?;
    put_shown(sink, &mut runner, lines)?;
    Ok(())
}

/// Plays the script of an input, and writes what the nodes show.
fn play_rows<K: Sink>(alloc: Global, input: &[u8], sink: &mut K) -> Result<(), PlayError>
    ensures does { MatchResult result
        (λ _. IsPlayed (run_of shown.Rows input.now) (K.told sink.old) (K.told sink.new))
        (FailsToPlay (run_of shown.Rows input.now) (K.told sink.old) (K.told sink.new)) }
    ensures untouched { IfErr result (KeepsSink sink.old sink.new) }
{
    match read_scripted(alloc, input) {
        Ok((machine, shape, script)) => play_on(alloc, &machine, shape, script, &Rows, sink),
        Err(error) => Err(put_error(sink, error)),
    }
}

/// Plays the script of an input, and writes which nodes hold.
fn play_holds<K: Sink>(alloc: Global, input: &[u8], sink: &mut K) -> Result<(), PlayError>
    ensures does { MatchResult result
        (λ _. IsPlayed (run_of shown.Holds input.now) (K.told sink.old) (K.told sink.new))
        (FailsToPlay (run_of shown.Holds input.now) (K.told sink.old) (K.told sink.new)) }
    ensures untouched { IfErr result (KeepsSink sink.old sink.new) }
{
    match read_slotted(alloc, input) {
        Ok((table, (machine, shape, script))) => {
            play_on(alloc, &machine, shape, script, &HoldLines { table }, sink)
        }
        Err(error) => Err(put_error(sink, error)),
    }
}

/// Reads an input as a halving plan and a script for it, plays the script on the plan's machine, and
/// writes the bound, the lines that `shown` asks for, and the first locked configuration of each
/// era. Between plan and script stands the part that these lines need, if any. Of an input that is
/// refused it writes the line of the refusal.
///
/// `Refused` names the first line that fails, and why; the line of the refusal was written. At
/// `NoMemory` nothing was written. `WriteFault` comes only if the sink counted a fault; a prefix of
/// the text was then taken.
pub fn play<K: Sink>(
    alloc: Global,
    shown: Shown,
    input: &[u8],
    sink: &mut K,
) -> Result<(), PlayError>
    ensures does { MatchResult result
        (λ _. IsPlayed (run_of shown input.now) (K.told sink.old) (K.told sink.new))
        (FailsToPlay (run_of shown input.now) (K.told sink.old) (K.told sink.new)) }
    ensures untouched { IfErr result (KeepsSink sink.old sink.new) }
{
    match shown {
        Shown::Rows => play_rows(alloc, input, sink),
        Shown::Holds => play_holds(alloc, input, sink),
        Shown::Decisions => play_layer::<Agreement, K>(alloc, input, sink),
        Shown::Fires => play_layer::<Firing, K>(alloc, input, sink),
        Shown::Entries => play_layer::<Replica, K>(alloc, input, sink),
    }
}
