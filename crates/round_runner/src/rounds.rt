ghost use Rattle.std.specs.Prelude.{◌≡◌, ◌+◌, ◌*◌, ◌≤◌, true, length, map, All, unwrap_or};
ghost use Rattle.std.specs.List.{range_with_len};
ghost use Rattle.construction.specs.Plans.{plan_nodes, plan_depth, plan_faults};
ghost use Rattle.plan_laws.specs.PlanMeaning.{plan_meaning};
ghost use Rattle.state_codec.specs.Shapes.{fields_at};
ghost use Rattle.state_codec.specs.Ranges.{InRange};
ghost use Rattle.adversary_script.specs.Eras.{era_of};
ghost use Rattle.adversary_script.specs.Lookup.{hit_at};
ghost use Rattle.machine_runner.specs.Beginnings.{BeginsAt};
ghost use Rattle.machine_runner.specs.Hearing.{HasRoom};
ghost use Rattle.machine_runner.specs.Rooms.{IsConfiguration};
ghost use Rattle.round_runner.specs.Laying.{IsLaid};
ghost use Rattle.round_runner.specs.Rooms.{IsReady};
ghost use Rattle.layer_laws.specs.PlayedScenes.{state_behind, kept_at};
ghost use Rattle.round_runner.specs.Turns.{IsSet};

use crate::stepping::{RoundBuffers, step_with};
use crate::turns::{NodeStep, Round};
use adversary_script::Script;
use counter_core::Overlay;
use machine_runner::{beginning_in, lay, put_hit};
use majority_votes::Steps;
use state_codec::Packed;
use std::sync::ledger::Ledger;
use sync_types::NodeState;

/// Lays the current states into their places, if a layer hears them.
fn lay_where(hears: bool, round: &Round<'_>, states: &Packed, heard: &mut [NodeState])
    requires config { IsConfiguration round.now.script.now states.now }
    requires room { HasRoom round.now.script.now heard.old }
    ensures room { HasRoom round.now.script.now heard.new }
    ensures laid { hears ≡ true
        → IsLaid round.now.script.now round.now.t states.now.current heard.new }
{
    states.facts();
    if hears {
        lay(states, heard);
    }
}

/// The further era that begins with configuration `t`, if one does.
pub fn beginning_at(script: &Script, t: u64) -> Option<usize>
    ensures { BeginsAt script.now t result }
{
    beginning_in(script, script.era_of(t), t)
}

/// The steps of all nodes in a round, which has begun for the layer: from the current states to the
/// next ones. If an era begins after the round, nodes are put into the states that it gives them.
/// What all receivers share is counted once.
pub fn step_all<O: Overlay, G: Ledger>(
    round: &Round<'_>,
    overlay: &mut O,
    room: &mut RoundBuffers,
    states: &mut Packed,
    steps: &mut Steps<G>,
)
    requires set { IsSet round.now (O.layer overlay.old) states.old room.old }
    ensures states { states.new ≡ record states.old {
      next = map (state_behind (plan_meaning round.now.tower.now) round.now.script.now
          (O.layer overlay.old) round.now.t states.old.current (O.kept overlay.old))
          (range_with_len 0 round.now.script.now.nodes);
    } }
    ensures layer { O.layer overlay.new ≡ O.layer overlay.old }
    ensures kept { O.kept overlay.new ≡ map (kept_at (plan_meaning round.now.tower.now)
        round.now.script.now (O.layer overlay.old) round.now.t states.old.current
        (O.kept overlay.old)) (range_with_len 0 (length (O.kept overlay.old))) }
    ensures room { IsReady round.now.tower.now round.now.script.now room.new }
    ensures cost { steps.new ≤ steps.old + 3 * plan_depth round.now.tower.now
        * plan_nodes round.now.tower.now * (plan_faults round.now.tower.now + 1) }
{
    states.facts();
    let _rounds = round.script.rounds();
    lay_where(overlay.extra() > 0, round, states, &mut room.heard);
    round
        .tower
        .gather(states, round.faulty, &mut room.step.shared, steps);
    for v in 0..states.nodes() {
        let turn = NodeStep {
            round: &*round,
            states: &*states,
            v,
        };
        step_with(&turn, overlay, room, steps);
        put_hit(
            round.script,
            round.t + 1,
            round.begins,
            v,
            &mut room.step.out,
        );
        states.put(v, &room.step.out);
    }
}
