ghost use Rattle.std.specs.Prelude.{◌≡◌, ◌+◌, ◌*◌, ◌<◌, ◌≤◌, ℕ, List, length, slice_set};
ghost use Rattle.std.specs.Prelude.{slice_index};
ghost use Rattle.sync_types.specs.States.{State};
ghost use Rattle.construction.specs.Plans.{plan_depth};
ghost use Rattle.construction.specs.Shown.{shown};
ghost use Rattle.construction.specs.Steps.{state_of};
ghost use Rattle.plan_laws.specs.PlanMeaning.{plan_meaning};
ghost use Rattle.state_codec.specs.Shapes.{fields_at};
ghost use Rattle.state_codec.specs.Ranges.{InRange};
ghost use Rattle.counter_core.specs.Heeding.{DependsOnlyOn};
ghost use Rattle.counter_core.specs.Overlays.{after, layered};
ghost use Rattle.counter_core.specs.Working.{IsWorkFor};
ghost use Rattle.adversary_script.specs.Eras.{faulty_at};
ghost use Rattle.machine_runner.specs.Hearing.{HasRoom};
ghost use Rattle.round_runner.specs.Hearing.{AreLies};
ghost use Rattle.round_runner.specs.Laying.{IsEnough, IsLaid, IsLaidFor, IsSameOrTold};
ghost use Rattle.layer_laws.specs.PlayedScenes.{layer_step, new_state};
ghost use Rattle.round_runner.specs.Turns.{heard_in, IsGathered, IsSet};

use crate::hearers::Hearer;
use crate::told_steps::{StepBuffers, step_told};
use crate::turns::{NodeStep, Round};
use adversary_script::Noise;
use counter_core::{Counter, Heard, Overlay, Work};
use majority_votes::Steps;
use state_codec::Packed;
use std::sync::ledger::Ledger;
use sync_types::NodeState;

/// What rounds need beside two configurations, made once.
pub struct RoundBuffers {
    /// The noise of the script.
    pub noise: Noise,
    /// What a node hears, by place, if a layer hears it.
    pub heard: Vec<NodeState>,
    /// The room that a layer's step needs.
    pub work: Work,
    /// What the counter's steps need.
    pub step: StepBuffers,
}

// Written out, so that code that drops one has a single call.
impl Drop for RoundBuffers {
    fn drop(self) {
        let RoundBuffers {
            noise,
            heard,
            work,
            step,
        } = self;
        drop(noise);
        drop(heard);
        drop(work);
        drop(step);
    }
}

/// The output of depth `depth` of node `v`, whose state has as many registers: the value of its
/// register of that level, or 0 if that is infinite; without levels its number.
pub fn shown_at(states: &Packed, v: u32, depth: usize) -> u64
    requires node { v < length states.now.current }
    requires depth { depth ≤ states.now.shape.depth }
    ensures { result ≡ shown depth (state_of states.now.current v) }
{
    match depth {
        0 => states.x(v),
        depth => states.reg(v, depth - 1).a.unwrap_or(0),
    }
}

/// If the node is faulty, lays its own state into its place among what is heard.
fn lay_itself(turn: &NodeStep<'_>, heard: &mut [NodeState])
    requires room { HasRoom turn.now.round.now.script.now heard.old }
    requires laid { IsLaid turn.now.round.now.script.now turn.now.round.now.t
        turn.now.states.now.current heard.old }
    ensures room { HasRoom turn.now.round.now.script.now heard.new }
    ensures laid { IsLaid turn.now.round.now.script.now turn.now.round.now.t
        turn.now.states.now.current heard.new }
    ensures own { state_of heard.new turn.now.v ≡ state_of turn.now.states.now.current turn.now.v }
{
    turn.states.facts();
    if turn.round.faulty.contains(turn.v) {
        turn.states.old(turn.v, &mut heard[turn.v as usize]);
    }
}

/// Lays what the faulty nodes of a stretch tell into their places among what is heard.
fn lay_lies(round: &Round<'_>, stretch: (usize, usize), lies: &[NodeState], heard: &mut [NodeState])
    requires stretch { stretch.1 ≤ length round.now.faulty.now.ids }
    requires lies { AreLies round.now.tower.now round.now.script.now.shape.depth lies.now }
    requires room { HasRoom round.now.script.now heard.old }
    ensures room { HasRoom round.now.script.now heard.new }
    ensures told { (j : ℕ) → stretch.0 ≤ j → j < stretch.1
        → state_of heard.new (slice_index round.now.faulty.now.ids j) ≡ state_of lies.now j }
    ensures each { (u : ℕ) → IsSameOrTold round.now.faulty.now.ids stretch.0 stretch.1 lies.now
        (state_of heard.old u) u (state_of heard.new u) }
{
    let faulty = round.faulty;
    let _few = faulty.len();
    faulty.facts();
    for j in stretch.0..stretch.1 {
        heard[faulty.at(j) as usize].copy_from(&lies[j]);
    }
}

/// The faulty nodes on whose lies the layer's step depends, as a stretch of their places, if the
/// counter shows this output. If the layer has registers, the node's own state is laid for it.
fn heed<O: Overlay>(
    turn: &NodeStep<'_>,
    output: u64,
    overlay: &O,
    room: &mut RoundBuffers,
) -> (usize, usize)
    requires gathered { IsGathered turn.now.round.now (O.layer overlay.now) turn.now.states.now
        room.old }
    requires output { output ≡ shown (plan_depth turn.now.round.now.tower.now)
        (state_of turn.now.states.now.current turn.now.v) }
    ensures within { result.1
        ≤ length (faulty_at turn.now.round.now.script.now turn.now.round.now.t) }
    ensures room { HasRoom turn.now.round.now.script.now room.new.heard.items }
    ensures same { room.new ≡ record room.old { heard = room.new.heard } }
    ensures laid { 0 < (O.layer overlay.now).extra → IsLaidFor turn.now.round.now turn.now.v
        turn.now.states.now.current room.new.heard.items }
    ensures enough { 0 < (O.layer overlay.now).extra → DependsOnlyOn (after (O.layer overlay.now)
        (O.kept overlay.now) turn.now.v ((plan_meaning turn.now.round.now.tower.now).shows
        turn.now.v (state_of turn.now.states.now.current turn.now.v)))
        (faulty_at turn.now.round.now.script.now turn.now.round.now.t) turn.now.v
        room.new.heard.items result.0 result.1 }
{
    if overlay.extra() == 0 {
        return (0, 0);
    }
    turn.states.facts();
    turn.round.facts();
    lay_itself(turn, &mut room.heard);
    overlay.relevant_liars(turn.v, output, &Heard::of(&room.heard), turn.round.faulty)
}

/// The layer's step, after that of the counter, which stands in `out`; the counter showed this
/// output. If the layer has registers, what is laid for it is enough.
fn step_layer<O: Overlay>(
    turn: &NodeStep<'_>,
    output: u64,
    overlay: &mut O,
    room: &mut RoundBuffers,
)
    requires output { output ≡ shown (plan_depth turn.now.round.now.tower.now)
        (state_of turn.now.states.now.current turn.now.v) }
    requires set { IsSet turn.now.round.now (O.layer overlay.old) turn.now.states.now room.old }
    requires enough { 0 < (O.layer overlay.old).extra → IsEnough turn.now.round.now
        (O.layer overlay.old) (O.kept overlay.old) turn.now.v turn.now.states.now.current
        room.old.heard.items }
    ensures layer { O.layer overlay.new ≡ O.layer overlay.old }
    ensures kept { O.kept overlay.new ≡ slice_set (O.kept overlay.old) turn.now.v
        (layer_step (plan_meaning turn.now.round.now.tower.now) (O.layer overlay.old)
        (O.kept overlay.old) turn.now.v (heard_in turn.now)).kept }
    ensures out { room.new.step.out ≡ layered (O.layer overlay.old)
        (layer_step (plan_meaning turn.now.round.now.tower.now) (O.layer overlay.old)
        (O.kept overlay.old) turn.now.v (heard_in turn.now)).registers room.old.step.out }
    ensures work { IsWorkFor turn.now.round.now.script.now.nodes room.new.work }
    ensures same { room.new ≡ record room.old {
      work = room.new.work;
      step = record room.old.step { out = room.new.step.out };
    } }
{
    turn.states.facts();
    turn.round.facts();
    let heard = Heard::of(&room.heard);
    overlay.advance(turn.v, output, &heard, &mut room.work, &mut room.step.out);
}

/// The step of a node, and after it that of the layer above.
pub fn step_with<O: Overlay, G: Ledger>(
    turn: &NodeStep<'_>,
    overlay: &mut O,
    room: &mut RoundBuffers,
    steps: &mut Steps<G>,
)
    requires { IsGathered turn.now.round.now (O.layer overlay.old) turn.now.states.now room.old }
    ensures out { room.new.step.out ≡ new_state (plan_meaning turn.now.round.now.tower.now)
        (O.layer overlay.old) (O.kept overlay.old) turn.now.v (heard_in turn.now) }
    ensures range { InRange (fields_at turn.now.round.now.script.now.shape turn.now.v)
        room.new.step.out }
    ensures layer { O.layer overlay.new ≡ O.layer overlay.old }
    ensures kept { O.kept overlay.new ≡ slice_set (O.kept overlay.old) turn.now.v
        (layer_step (plan_meaning turn.now.round.now.tower.now) (O.layer overlay.old)
        (O.kept overlay.old) turn.now.v (heard_in turn.now)).kept }
    ensures gathered { IsGathered turn.now.round.now (O.layer overlay.old) turn.now.states.now
        room.new }
    ensures cost { steps.new ≤ steps.old + 3 * plan_depth turn.now.round.now.tower.now
        * length (faulty_at turn.now.round.now.script.now turn.now.round.now.t) }
{
    turn.states.facts();
    turn.round.facts();
    let round = turn.round;
    let output = shown_at(turn.states, turn.v, round.tower.depth());
    let layers = heed(turn, output, overlay, room);
    let hearer = Hearer {
        tower: round.tower,
        faulty: round.faulty,
        states: turn.states,
        v: turn.v,
    };
    step_told(
        &hearer,
        layers,
        round,
        &mut room.noise,
        &mut room.step,
        steps,
    );
    lay_lies(round, layers, &room.step.lies, &mut room.heard);
    step_layer(turn, output, overlay, room);
}
