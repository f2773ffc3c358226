//! The line of a node's state.

ghost use Rattle.std.specs.Prelude.{◌≡◌, All};
ghost use Rattle.construction.specs.Steps.{state_of};
ghost use Rattle.edge_io.specs.Writing.{Writes};
ghost use Rattle.halving_plan.specs.GroupStates.{IsDeep};
ghost use Rattle.trace.specs.HalvingNodeTexts.{number_of_node, state_line};

use crate::views::View;
use edge_io::{Sink, Writer};
use halving_plan::{HalvingPlan, output};
use sync_types::NodeState;

/// The number of a node; a spare has none.
fn number_of_node(plan: &HalvingPlan, v: u32, state: &NodeState) -> Option<u64>
    ensures { result ≡ number_of_node plan.now v state.now }
{
    if plan.base_of(v) == 1 {
        None
    } else {
        Some(state.x())
    }
}

/// Writes the line of a node's state.
pub fn put_state<K: Sink>(writer: &mut Writer<'_, K>, plan: &HalvingPlan, view: &View<'_>)
    requires { All (IsDeep plan.now) view.now.config.now }
    ensures { Writes K.told (state_line view.now.heading plan.now
        (state_of view.now.config.now view.now.heading.node)) writer.old writer.new }
{
    let state = &view.config[view.heading.node as usize];
    let number = number_of_node(plan, view.heading.node, state);
    view.heading.put_shown(writer, number, output(plan, state));
}
