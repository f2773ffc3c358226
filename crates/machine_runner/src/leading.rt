ghost use Rattle.std.specs.Prelude.{◌≡◌, ◌<◌, ◌≤◌, ◌^◌, ℕ, false};
ghost use Rattle.sync_types.specs.FaultSets.{is_in};
ghost use Rattle.adversary_script.specs.Eras.{faulty_at};
ghost use Rattle.machines.specs.Machines.{AllShow};
ghost use Rattle.machine_runner.specs.Runners.{states_of};
ghost use Rattle.machine_runner.specs.Counting.{is_counting, Knows};

use crate::Runner;
use machines::Machine;

/// Whether the runner is in the last era, and knows a locked configuration of it. From there on to
/// the end the correct nodes count.
fn is_counting<M: Machine>(runner: &Runner<'_, M>) -> bool
    ensures { result ≡ is_counting M.machine runner.now }
{
    let script = runner.script();
    let last = script.eras() - 1;
    if script.era_of(runner.at()) != last {
        return false;
    }
    runner.lock_of(last).is_some()
}

/// Plays on to configuration `end`, or until the runner is in the last era and knows a locked
/// configuration of it. From there on the correct nodes count to the end, and the first locked
/// configuration of each era is known.
pub fn play_to<M: Machine>(runner: &mut Runner<'_, M>, end: u64)
    requires from { runner.old.at ≤ end }
    requires within { end ≤ runner.old.script.rounds }
    ensures same { runner.new ≡ record runner.old { at = runner.new.at } }
    ensures most { runner.new.at ≤ end }
    ensures knows { Knows M.machine runner.new end }
{
    for _ in runner.at()..end {
        if is_counting(runner) {
            return;
        }
        runner.round();
    }
}

/// What the correct nodes show if they show one number, below 2^40. It is 0 if no node is correct.
pub(crate) fn lead_output<M: Machine>(runner: &Runner<'_, M>) -> u64
    ensures shown { (output v : ℕ) → AllShow (M.machine runner.now.machine)
        (faulty_at runner.now.script runner.now.at) (states_of M.machine runner.now) output
        → v < (M.machine runner.now.machine).nodes
        → is_in (faulty_at runner.now.script runner.now.at) v ≡ false → result ≡ output }
    ensures most { result ≤ 2 ^ 40 }
{
    runner.facts();
    for v in 0..runner.nodes() {
        if !runner.is_faulty(v) {
            return runner.output(v);
        }
    }
    0
}
