//! Reads an input, and writes its sweep.

ghost use Rattle.std.specs.Prelude.{◌≡◌, IfErr, IfOk, IsErrOf};
ghost use Rattle.answers.specs.ScriptedRuns.{IsScriptedRun};
ghost use Rattle.outcomes.specs.Inputs.{scripted_of};
ghost use Rattle.program_words.specs.Conduct.{Answers, FailsAs, and_then};
ghost use Rattle.halving_runs.specs.Readings.{IsReadAs};
ghost use Rattle.halving_runs.specs.RunInputs as halving;
ghost use Rattle.sweep.specs.Conduct.{SweepsInput};
ghost use Rattle.sweep.specs.Inputs.{boosting_read, noise_sweep, halving_read, sweep_of};
ghost use Rattle.sweep.specs.Inputs.{swept_on_plan, swept_on_halving};
ghost use Rattle.sweep.specs.Progress.{Says};

use crate::inputs::is_halving;
use crate::progress::Progress;
use crate::reasons::{SweepError, SweepReason};
use crate::requests::Numbers;
use crate::sweepable::Sweepable;
use crate::sweeping::sweep;
use adversary_script::Script;
use answers::Unanswered;
use counter_core::NoOverlay;
use edge_io::{Sink, Source, read_all};
use halving_plan::HalvingMachine;
use halving_runs::PlayError;
use machine_runner::Runner;
use plan_numbers::Plan;
use program_words::ProgramError;
use round_runner::Runner as BoostingRunner;
use state_codec::StateShape;
use std::alloc::Global;
use texts::LONGEST_INPUT;

/// Writes the sweep of a runner's script, if it says noise.
#[tactic(auto, using(crate::proofs::Said::says_nothing))]
fn sweep_noise<R: Sweepable, K: Sink, E: Sink>(
    alloc: Global,
    runner: &mut R,
    numbers: Numbers,
    sink: &mut K,
    progress: &mut Progress<E>,
) -> Result<(), SweepError>
    ensures sweeps { Answers (noise_sweep numbers (R.swept runner.old)) result
        (K.told sink.old) (K.told sink.new) }
    ensures progress { Says progress.old.name progress.old.is_on numbers.count
        (E.told progress.old.sink) (E.told progress.new.sink) }
{
    if !runner.script().says_noise() {
        return Err(ProgramError::Refused(SweepReason::NoNoise));
    }
    let (first, count) = (numbers.first(), numbers.count());
    sweep(alloc, runner, first, count, sink, progress)
}

/// The runner of the script of an input on its plan.
fn read_boosting(
    alloc: Global,
    input: &[u8],
) -> Result<(Plan, BoostingRunner<NoOverlay>), SweepError>
    ensures read { IfOk result (IsScriptedRun input.now) }
    ensures fails { IfErr result (FailsAs (boosting_read (scripted_of input.now))) }
{
    match answers::read_scripted(alloc, input) {
        Ok(read) => Ok(read),
        Err(Unanswered::Refused(refusal)) => {
            Err(ProgramError::Refused(SweepReason::Boosting(refusal)))
        }
        Err(Unanswered::NoMemory) => Err(ProgramError::NoMemory),
        Err(Unanswered::WriteFault) => Err(ProgramError::WriteFault),
    }
}

/// Writes the sweep of an input that is a plan and a script.
#[tactic(auto, using(crate::proofs::Said::says_nothing))]
fn sweep_on_plan<K: Sink, E: Sink>(
    alloc: Global,
    numbers: Numbers,
    input: &[u8],
    sink: &mut K,
    progress: &mut Progress<E>,
) -> Result<(), SweepError>
    ensures answers { Answers
        (and_then (swept_on_plan (scripted_of input.now)) (noise_sweep numbers)) result
        (K.told sink.old) (K.told sink.new) }
    ensures progress { Says progress.old.name progress.old.is_on numbers.count
        (E.told progress.old.sink) (E.told progress.new.sink) }
{
    let (_, mut runner) = read_boosting(alloc, input)?;
    sweep_noise(alloc, &mut runner, numbers, sink, progress)
}

/// The machine of the halving plan of an input, the shape of its states, and the script.
fn read_halving(
    alloc: Global,
    input: &[u8],
) -> Result<(HalvingMachine, StateShape, Script), SweepError>
    ensures read { IfOk result (IsReadAs input.now) }
    ensures fails { IfErr result (FailsAs (halving_read (halving.scripted_of input.now))) }
{
    match halving_runs::read_scripted(alloc, input) {
        Ok(read) => Ok(read),
        Err(PlayError::Refused(refusal)) => {
            Err(ProgramError::Refused(SweepReason::Halving(refusal)))
        }
        Err(PlayError::NoMemory) => Err(ProgramError::NoMemory),
        Err(PlayError::WriteFault) => Err(ProgramError::WriteFault),
    }
}

/// Writes the sweep of an input that is a halving plan and a script.
#[tactic(auto, using(crate::proofs::Said::says_nothing))]
fn sweep_on_halving<K: Sink, E: Sink>(
    alloc: Global,
    numbers: Numbers,
    input: &[u8],
    sink: &mut K,
    progress: &mut Progress<E>,
) -> Result<(), SweepError>
    ensures answers { Answers
        (and_then (swept_on_halving (halving.scripted_of input.now)) (noise_sweep numbers)) result
        (K.told sink.old) (K.told sink.new) }
    ensures progress { Says progress.old.name progress.old.is_on numbers.count
        (E.told progress.old.sink) (E.told progress.new.sink) }
{
    let (machine, shape, script) = read_halving(alloc, input)?;
    let mut runner = Runner::new(alloc, &machine, shape, script)?;
    sweep_noise(alloc, &mut runner, numbers, sink, progress)
}

/// Writes the sweep of an input.
fn sweep_text<K: Sink, E: Sink>(
    alloc: Global,
    numbers: Numbers,
    input: &[u8],
    sink: &mut K,
    progress: &mut Progress<E>,
) -> Result<(), SweepError>
    ensures answers { Answers (sweep_of numbers input.now) result
        (K.told sink.old) (K.told sink.new) }
    ensures progress { Says progress.old.name progress.old.is_on numbers.count
        (E.told progress.old.sink) (E.told progress.new.sink) }
{
    if is_halving(input) {
        sweep_on_halving(alloc, numbers, input, sink, progress)
    } else {
        sweep_on_plan(alloc, numbers, input, sink, progress)
    }
}

/// Reads a plan or a halving plan, and a script, plays the script with the key of each of these
/// numbers in place of its own, and writes the plan's bound and how soon the eras lock.
///
/// The whole source is read first, at most 2^20 bytes. It is a halving plan exactly if its first line
/// that counts is that of one; then `Halving` comes exactly if `halvinglab run` refuses the input, and
/// else `Boosting` exactly if `counterlab run` does. `NoNoise` comes if the script says no noise;
/// `TooLong` only if the byte after the limit was there. `ReadFault` and `WriteFault` come only if
/// the source, before its end, or the sink counted a fault, and `NoMemory` if memory was refused.
/// Nothing was written then, but at `WriteFault` a prefix of the text. `Usage` never comes.
///
/// How many runs were played is said if `progress` is on, and that decides nothing.
#[tactic(auto, using(crate::proofs::Said::says_nothing))]
pub fn sweep_input<S: Source, K: Sink, E: Sink>(
    alloc: Global,
    numbers: Numbers,
    source: &mut S,
    sink: &mut K,
    progress: &mut Progress<E>,
) -> Result<(), SweepError>
    ensures sweeps { SweepsInput result numbers
        (S.left source.old) (S.left source.new) (S.faults source.old) (S.faults source.new)
        (K.told sink.old) (K.told sink.new) }
    ensures progress { Says progress.old.name progress.old.is_on numbers.count
        (E.told progress.old.sink) (E.told progress.new.sink) }
    // At `ReadFault` the end of the source was not met.
    ensures unmet { IsErrOf result ProgramError.ReadFault → S.met source.new ≡ S.met source.old }
{
    let input = read_all(alloc, source, LONGEST_INPUT)?;
    sweep_text(alloc, numbers, &input, sink, progress)
}
