//! Runners for the tests.

ghost use Rattle.std.specs.Prelude.{IfOk};
ghost use Rattle.run_checker.specs.Playing.{IsToRecord};
ghost use Rattle.run_explanations.specs.Playing.{IsToPlay};

use adversary_script::read_script;
use counter_core::NoOverlay;
use plan_numbers::Plan;
use round_runner::Runner;
use state_codec::StateShape;
use std::alloc::Global;
use std::test::Fail;
use tower::build;

/// A runner of a script for a plan, at configuration 0.
pub fn begun(alloc: Global, plan: &Plan, text: &str) -> Result<Runner<NoOverlay>, Fail>
    ensures records { IfOk result IsToRecord }
    ensures plays { IfOk result (λ runner. IsToPlay plan.now runner) }
{
    let shape = StateShape::of(alloc, plan)?;
    let script = read_script(alloc, plan, &shape, text.as_bytes(), 5)?;
    let _rounds = script.rounds();
    let tower = build(alloc, plan)?;
    Ok(Runner::new(alloc, tower, shape, script, NoOverlay)?)
}
