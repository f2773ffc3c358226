//! The line of a node's state.

ghost use Rattle.std.specs.Prelude.{◌≡◌};
ghost use Rattle.construction.specs.Steps.{state_of};
ghost use Rattle.edge_io.specs.Writing.{Writes};
ghost use Rattle.plan_numbers.specs.Numbers.{levels_in};
ghost use Rattle.plan_numbers.specs.Stacked.{AreSomeLevels};
ghost use Rattle.trace.specs.NodeTexts.{number_of_node, state_line};

use crate::level_groups::LevelGroup;
use counter_core::shown;
use edge_io::{Sink, Writer};
use plan_numbers::{LevelNums, low_in};
use sync_types::NodeState;

/// The number of a node; a spare has none.
fn number_of_node(levels: &[LevelNums], v: u32, state: &NodeState) -> Option<u64>
    requires { AreSomeLevels levels.now }
    ensures { result ≡ number_of_node (levels_in levels.now) v state.now }
{
    if low_in(levels, v) == 0 {
        Some(state.x())
    } else {
        None
    }
}

/// Writes the line of a node's state, by the group of all nodes.
pub fn put_state<K: Sink>(writer: &mut Writer<'_, K>, all: &LevelGroup<'_>)
    requires { AreSomeLevels all.now.levels.now }
    ensures { Writes K.told (state_line all.now.view.now.heading (levels_in all.now.levels.now)
        (state_of all.now.view.now.config.now all.now.view.now.heading.node))
        writer.old writer.new }
{
    let (view, levels) = (all.view, all.levels);
    let state = &view.config[view.heading.node as usize];
    let number = number_of_node(levels, view.heading.node, state);
    let output = shown(levels.len(), state);
    view.heading.put_shown(writer, number, output);
}
