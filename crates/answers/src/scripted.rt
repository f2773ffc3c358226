ghost use Rattle.std.specs.Prelude.{MatchResult};
ghost use Rattle.outcomes.specs.Inputs.{scripted_of};
ghost use Rattle.answers.specs.Readings.{Refuses};
ghost use Rattle.answers.specs.ScriptedRuns.{IsScriptedRun};

use crate::errors::{Unanswered, unread};
use crate::runners::runner_of;
use adversary_script::read_script;
use counter_core::NoOverlay;
use plan_numbers::Plan;
use plan_reader::read_plan;
use round_runner::Runner;
use state_codec::StateShape;
use std::alloc::Global;
use sync_types::Part;

/// The plan of an input, and the runner that plays the script after it, at configuration 0.
pub fn read_scripted(alloc: Global, input: &[u8]) -> Result<(Plan, Runner<NoOverlay>), Unanswered>
    ensures { MatchResult result
        (IsScriptedRun input.now)
        (λ error. Refuses error (scripted_of input.now)) }
{
    let (plan, bytes, lines) = read_plan(alloc, input)?;
    let shape = StateShape::of(alloc, &plan)?;
    let script = match read_script(alloc, &plan, &shape, &input[bytes..], 1 + lines) {
        Ok(script) => script,
        Err(error) => return Err(unread(Part::Script, error)),
    };
    let runner = runner_of(alloc, &plan, shape, script, NoOverlay)?;
    Ok((plan, runner))
}
