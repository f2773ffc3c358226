ghost use Rattle.std.specs.Prelude.{◌≡◌, IfOk};
ghost use Rattle.plan_laws.specs.PlanMeaning.{plan_meaning};
ghost use Rattle.state_codec.specs.Shapes.{shape_with};
ghost use Rattle.counter_core.specs.Overlays.{LayerFits};
ghost use Rattle.adversary_script.specs.ScriptPart.{IsScriptForPlan};
ghost use Rattle.answers.specs.LayeredRuns.{IsBegun};

use adversary_script::Script;
use counter_core::Overlay;
use plan_numbers::Plan;
use round_runner::Runner;
use state_codec::StateShape;
use std::alloc::Global;
use sync_types::NoMemory;
use tower::build;

/// The runner at configuration 0 of a script that was read for a plan, with a layer that stands
/// over the plan's counter. The shape is that of the plan's states with the layer's registers after
/// those of the plan.
pub fn runner_of<O: Overlay>(
    alloc: Global,
    plan: &Plan,
    shape: StateShape,
    script: Script,
    overlay: O,
) -> Result<Runner<O>, NoMemory>
    requires over { LayerFits (O.layer overlay) (plan_meaning plan.now) }
    requires shape { shape ≡ shape_with plan.now (O.layer overlay).values (O.layer overlay).extra }
    requires script { IsScriptForPlan plan.now shape script }
    ensures { IfOk result (IsBegun O.layer O.kept plan.now script overlay) }
{
    plan.facts();
    let tower = build(alloc, plan)?;
    Runner::new(alloc, tower, shape, script, overlay)
}
