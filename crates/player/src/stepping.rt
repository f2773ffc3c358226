ghost use Rattle.std.specs.Prelude.{◌≡◌, ◌+◌, ◌*◌, ◌<◌, ◌≤◌, ℕ, true, length, map};
ghost use Rattle.std.specs.List.{range_with_len};
ghost use Rattle.std.specs.Prelude.{slice_index, slice_set};
ghost use Rattle.sync_types.specs.States.{State};
ghost use Rattle.construction.specs.Steps.{state_of};
ghost use Rattle.state_codec.specs.Shapes.{fields_at};
ghost use Rattle.state_codec.specs.Ranges.{InRange};
ghost use Rattle.counter_core.specs.Heeding.{DependsOnlyOn};
ghost use Rattle.counter_core.specs.Meanings.{written};
ghost use Rattle.counter_core.specs.Overlays.{after, layered};
ghost use Rattle.machines.specs.Machines.{IsFront};
ghost use Rattle.adversary_script.specs.Rounds.{heard_at};
ghost use Rattle.layer_laws.specs.PlayedScenes.{layer_step, state_behind, kept_at};
ghost use Rattle.rounds.specs.Laying.{IsSameOrTold};
ghost use Rattle.player.specs.Counters.{machine_counter};
ghost use Rattle.player.specs.ReadOver.{IsReadWithLayer};
ghost use Rattle.counter_core.specs.Working.{IsWorkFor};
ghost use Rattle.machine_runner.specs.Hearing.{HasRoom, AreHonest};
ghost use Rattle.machine_runner.specs.Rooms.{IsConfiguration};
ghost use Rattle.player.specs.Rooms.{IsReady, IsBegun, IsLaid, HasLies, AreOwn, AreTold, sent_of};

use crate::telling::tell;
use adversary_script::Noise;
use counter_core::{Heard, Overlay, Work};
use machine_runner::Round;
use machines::Machine;
use majority_votes::Steps;
use rounds::{Rounds, lay, lay_lies};
use state_codec::Packed;
use std::sync::ledger::Ledger;
use sync_types::NodeState;

/// What rounds need beside two configurations.
#[derive(Drop)]
pub struct Room {
    /// The noise of the script.
    pub noise: Noise,
    /// What a node hears, by place, if a layer hears it.
    pub heard: Vec<NodeState>,
    /// What the faulty nodes tell a node, in the order of their ids.
    pub lies: Vec<NodeState>,
    /// What the layer's steps need.
    pub work: Work,
    /// A node's new state.
    pub out: NodeState,
}

/// A node that steps in a round, from a configuration of the script's nodes.
#[derive(Clone, Copy, Drop)]
pub struct NodeStep<'a> {
    /// The round.
    pub round: &'a Round<'a>,
    /// The configuration.
    pub states: &'a Packed,
    /// The node.
    pub v: u32,
    ghost node: { v < round.now.script.now.nodes },
    ghost shape: { states.now.shape ≡ round.now.script.now.shape },
    ghost size: { length states.now.current ≡ round.now.script.now.nodes },
}

/// The shortest stretch of places that has two others.
fn hull(one: (usize, usize), other: (usize, usize)) -> (usize, usize)
    ensures one { (j : ℕ) → one.0 ≤ j → j < one.1 → (result.0 ≤ j) × (j < result.1) }
    ensures other { (j : ℕ) → other.0 ≤ j → j < other.1 → (result.0 ≤ j) × (j < result.1) }
    ensures within { (n : ℕ) → one.1 ≤ n → other.1 ≤ n → result.1 ≤ n }
{
    if one.0 >= one.1 {
        return other;
    }
    if other.0 >= other.1 {
        return one;
    }
    (one.0.min(other.0), one.1.max(other.1))
}

/// The machine's step of a node, by what is counted for all and what the faulty nodes tell it:
/// those that it heeds, and those of a stretch that a layer heeds.
fn step_machine<M: Rounds, G: Ledger>(
    turn: &NodeStep<'_>,
    machine: &M,
    layers: (usize, usize),
    shared: &mut M::Shared,
    room: &mut Room,
    steps: &mut Steps<G>,
)
    requires nodes { turn.now.round.now.script.now.nodes ≡ (M.machine machine.now).nodes }
    requires depth { (M.machine machine.now).depth ≤ turn.now.round.now.script.now.shape.depth }
    requires fronts { (u : ℕ) → u < (M.machine machine.now).nodes → (s : State)
        → InRange (fields_at turn.now.round.now.script.now.shape u) s
        → IsFront (M.machine machine.now) u s }
    requires layers { layers.1 ≤ length turn.now.round.now.faulty.now.ids }
    requires ready { IsReady turn.now.round.now.script.now room.old }
    requires own { AreOwn turn.now.round.now.script.now turn.now.round.now.faulty.now.ids
        room.old.lies.items }
    requires stands { M.stands machine.now (sent_of turn.now.states.now
        turn.now.round.now.faulty.now.ids) shared.old }
    ensures out { room.new.out ≡ written (M.machine machine.now).depth
        ((M.machine machine.now).step turn.now.v (heard_at turn.now.round.now.script.now
        turn.now.round.now.t turn.now.states.now.current turn.now.v)) room.old.out }
    ensures told { AreTold turn.now.round.now.script.now turn.now.round.now.t
        turn.now.round.now.faulty.now.ids turn.now.v turn.now.states.now.current layers.0 layers.1
        room.new.lies.items }
    ensures noise { room.new.noise ≡ room.old.noise }
    ensures lies { HasLies turn.now.round.now.script.now room.new.lies.items }
    ensures own { AreOwn turn.now.round.now.script.now turn.now.round.now.faulty.now.ids
        room.new.lies.items }
    ensures stands { M.stands machine.now (sent_of turn.now.states.now
        turn.now.round.now.faulty.now.ids) shared.new }
    ensures same { room.new ≡ record room.old {
      noise = room.new.noise;
      lies = room.new.lies;
      out = room.new.out;
    } }
    ensures cost { steps.new ≤ steps.old
        + M.cost machine.now * length turn.now.round.now.faulty.now.ids }
{
    let faulty = turn.round.faulty;
    faulty.facts();
    let liars = faulty.len();
    let heeded = machine.relevant_liars(turn.v, turn.states, faulty, shared);
    tell(turn, hull(heeded, layers), &mut room.noise, &mut room.lies);
    let told = &room.lies[..liars];
    machine.advance_shared(
        turn.v,
        told,
        turn.states,
        faulty,
        shared,
        &mut room.out,
        steps,
    );
}

/// If the node is faulty, lays its own state into its place among what is heard. That of a correct
/// one stands there.
fn lay_itself(turn: &NodeStep<'_>, heard: &mut [NodeState])
    requires room { HasRoom turn.now.round.now.script.now heard.old }
    requires honest { AreHonest turn.now.round.now.script.now turn.now.round.now.t
        turn.now.states.now.current heard.old }
    ensures { heard.new
        ≡ slice_set heard.old turn.now.v (state_of turn.now.states.now.current turn.now.v) }
{
    turn.states.facts();
    if turn.round.faulty.contains(turn.v) {
        turn.states.old(turn.v, &mut heard[turn.v as usize]);
    }
}

/// The liars on whose lies the layer's step of a node hangs, as a stretch of their places. If the
/// layer has registers, the node's own state is laid for it.
fn heed<M: Rounds, O: Overlay>(
    turn: &NodeStep<'_>,
    machine: &M,
    overlay: &O,
    room: &mut Room,
) -> (usize, usize)
    requires read { IsReadWithLayer (M.machine machine.now) (O.layer overlay.now)
        turn.now.round.now.script.now }
    requires begun { IsBegun (O.layer overlay.now) turn.now.round.now.script.now
        turn.now.round.now.t turn.now.round.now.faulty.now.ids turn.now.states.now.current room.old }
    ensures within { result.1 ≤ length turn.now.round.now.faulty.now.ids }
    ensures begun { IsBegun (O.layer overlay.now) turn.now.round.now.script.now
        turn.now.round.now.t turn.now.round.now.faulty.now.ids turn.now.states.now.current room.new }
    ensures own { 0 < (O.layer overlay.now).extra → state_of room.new.heard.items turn.now.v
        ≡ state_of turn.now.states.now.current turn.now.v }
    ensures enough { 0 < (O.layer overlay.now).extra → DependsOnlyOn (after (O.layer overlay.now)
        (O.kept overlay.now) turn.now.v ((M.machine machine.now).shows turn.now.v
        (state_of turn.now.states.now.current turn.now.v))) turn.now.round.now.faulty.now.ids
        turn.now.v room.new.heard.items result.0 result.1 }
    ensures same { room.new ≡ record room.old { heard = room.new.heard } }
{
    if overlay.extra() == 0 {
        return (0, 0);
    }
    machine.facts();
    turn.states.facts();
    lay_itself(turn, &mut room.heard);
    let output = machine.output_in(turn.v, turn.states);
    overlay.relevant_liars(turn.v, output, &Heard::of(&room.heard), turn.round.faulty)
}

/// Lays what the faulty nodes of a stretch tell into their places, if a layer hears it.
fn lay_told(
    turn: &NodeStep<'_>,
    layers: (usize, usize),
    hears: bool,
    lies: &[NodeState],
    heard: &mut [NodeState],
)
    requires within { layers.1 ≤ length turn.now.round.now.faulty.now.ids }
    requires lies { HasLies turn.now.round.now.script.now lies.now }
    requires room { HasRoom turn.now.round.now.script.now heard.old }
    ensures room { HasRoom turn.now.round.now.script.now heard.new }
    ensures each { hears ≡ true → (u : ℕ) → IsSameOrTold turn.now.round.now.faulty.now.ids layers.0
        layers.1 lies.now (state_of heard.old u) u (state_of heard.new u) }
    ensures told { hears ≡ true → (j : ℕ) → layers.0 ≤ j → j < layers.1
        → state_of heard.new (slice_index turn.now.round.now.faulty.now.ids j)
        ≡ state_of lies.now j }
{
    let faulty = turn.round.faulty;
    let _few = faulty.len();
    if hears {
        let depth = turn.states.shape().depth();
        lay_lies(depth, faulty, layers, lies, heard);
    }
}

/// The layer's step of a node, after that of the machine, which stands in `out`. The lies of the
/// stretch on which it hangs are told.
fn step_layer<M: Rounds, O: Overlay>(
    turn: &NodeStep<'_>,
    machine: &M,
    layers: (usize, usize),
    overlay: &mut O,
    room: &mut Room,
)
    requires read { IsReadWithLayer (M.machine machine.now) (O.layer overlay.old)
        turn.now.round.now.script.now }
    requires within { layers.1 ≤ length turn.now.round.now.faulty.now.ids }
    requires begun { IsBegun (O.layer overlay.old) turn.now.round.now.script.now
        turn.now.round.now.t turn.now.round.now.faulty.now.ids turn.now.states.now.current room.old }
    requires told { AreTold turn.now.round.now.script.now turn.now.round.now.t
        turn.now.round.now.faulty.now.ids turn.now.v turn.now.states.now.current layers.0 layers.1
        room.old.lies.items }
    requires own { 0 < (O.layer overlay.old).extra → state_of room.old.heard.items turn.now.v
        ≡ state_of turn.now.states.now.current turn.now.v }
    requires enough { 0 < (O.layer overlay.old).extra → DependsOnlyOn (after (O.layer overlay.old)
        (O.kept overlay.old) turn.now.v ((M.machine machine.now).shows turn.now.v
        (state_of turn.now.states.now.current turn.now.v))) turn.now.round.now.faulty.now.ids
        turn.now.v room.old.heard.items layers.0 layers.1 }
    ensures layer { O.layer overlay.new ≡ O.layer overlay.old }
    ensures kept { O.kept overlay.new ≡ slice_set (O.kept overlay.old) turn.now.v
        (layer_step (machine_counter (M.machine machine.now)) (O.layer overlay.old)
        (O.kept overlay.old) turn.now.v (heard_at turn.now.round.now.script.now
        turn.now.round.now.t turn.now.states.now.current turn.now.v)).kept }
    ensures out { room.new.out ≡ layered (O.layer overlay.old)
        (layer_step (machine_counter (M.machine machine.now)) (O.layer overlay.old)
        (O.kept overlay.old) turn.now.v (heard_at turn.now.round.now.script.now
        turn.now.round.now.t turn.now.states.now.current turn.now.v)).registers room.old.out }
    ensures heard { HasRoom turn.now.round.now.script.now room.new.heard.items }
    ensures laid { 0 < (O.layer overlay.old).extra → IsLaid (O.layer overlay.old)
        turn.now.round.now.script.now turn.now.round.now.t turn.now.states.now.current
        room.new.heard.items }
    ensures work { IsWorkFor turn.now.round.now.script.now.nodes room.new.work }
    ensures same { room.new ≡ record room.old {
      heard = room.new.heard;
      work = room.new.work;
      out = room.new.out;
    } }
{
    machine.facts();
    turn.states.facts();
    turn.round.faulty.facts();
    lay_told(
        turn,
        layers,
        overlay.extra() > 0,
        &room.lies,
        &mut room.heard,
    );
    let output = machine.output_in(turn.v, turn.states);
    let heard = Heard::of(&room.heard);
    overlay.advance(turn.v, output, &heard, &mut room.work, &mut room.out);
}

/// The step of a node with its layer: its new state, or that into which it is put if an era begins,
/// is written into the room.
fn step<M: Rounds, O: Overlay, G: Ledger>(
    turn: &NodeStep<'_>,
    machine: &M,
    overlay: &mut O,
    shared: &mut M::Shared,
    room: &mut Room,
    steps: &mut Steps<G>,
)
    requires read { IsReadWithLayer (M.machine machine.now) (O.layer overlay.old)
        turn.now.round.now.script.now }
    requires begun { IsBegun (O.layer overlay.old) turn.now.round.now.script.now
        turn.now.round.now.t turn.now.round.now.faulty.now.ids turn.now.states.now.current room.old }
    requires stands { M.stands machine.now (sent_of turn.now.states.now
        turn.now.round.now.faulty.now.ids) shared.old }
    ensures state { room.new.out ≡ state_behind (machine_counter (M.machine machine.now))
        turn.now.round.now.script.now (O.layer overlay.old) turn.now.round.now.t
        turn.now.states.now.current (O.kept overlay.old) turn.now.v }
    ensures range { InRange (fields_at turn.now.round.now.script.now.shape turn.now.v)
        room.new.out }
    ensures layer { O.layer overlay.new ≡ O.layer overlay.old }
    ensures kept { O.kept overlay.new ≡ slice_set (O.kept overlay.old) turn.now.v
        (layer_step (machine_counter (M.machine machine.now)) (O.layer overlay.old)
        (O.kept overlay.old) turn.now.v (heard_at turn.now.round.now.script.now
        turn.now.round.now.t turn.now.states.now.current turn.now.v)).kept }
    ensures begun { IsBegun (O.layer overlay.old) turn.now.round.now.script.now
        turn.now.round.now.t turn.now.round.now.faulty.now.ids turn.now.states.now.current room.new }
    ensures stands { M.stands machine.now (sent_of turn.now.states.now
        turn.now.round.now.faulty.now.ids) shared.new }
    ensures cost { steps.new ≤ steps.old
        + M.cost machine.now * length turn.now.round.now.faulty.now.ids }
{
    machine.facts();
    turn.states.facts();
    let layers = heed(turn, machine, overlay, room);
    step_machine(turn, machine, layers, shared, room, steps);
    step_layer(turn, machine, layers, overlay, room);
    turn.round.put_at(turn.v, &mut room.out);
}

/// Lays the current states into their places, if a layer hears them.
fn lay_where(hears: bool, round: &Round<'_>, states: &Packed, heard: &mut [NodeState])
    requires config { IsConfiguration round.now.script.now states.now }
    requires room { HasRoom round.now.script.now heard.old }
    ensures room { HasRoom round.now.script.now heard.new }
    ensures laid { hears ≡ true → heard.new ≡ states.now.current }
{
    let _round = round;
    if hears {
        lay(states, heard);
    }
}

/// The steps of all nodes in a round, which has begun for the layer: from the current states to the
/// next ones. If an era begins after the round, nodes are put into the states that it gives them.
/// What all receivers share is counted once.
pub fn step_all<M: Rounds, O: Overlay, G: Ledger>(
    round: &Round<'_>,
    machine: &M,
    overlay: &mut O,
    shared: &mut M::Shared,
    room: &mut Room,
    states: &mut Packed,
    steps: &mut Steps<G>,
)
    requires read { IsReadWithLayer (M.machine machine.now) (O.layer overlay.old)
        round.now.script.now }
    requires config { IsConfiguration round.now.script.now states.old }
    requires ready { IsReady round.now.script.now room.old }
    requires own { AreOwn round.now.script.now round.now.faulty.now.ids room.old.lies.items }
    requires made { M.made machine.now states.old.shape.depth shared.old }
    ensures states { states.new ≡ record states.old {
      next = map (state_behind (machine_counter (M.machine machine.now)) round.now.script.now
          (O.layer overlay.old) round.now.t states.old.current (O.kept overlay.old))
          (range_with_len 0 round.now.script.now.nodes);
    } }
    ensures layer { O.layer overlay.new ≡ O.layer overlay.old }
    ensures kept { O.kept overlay.new ≡ map (kept_at (machine_counter (M.machine machine.now))
        round.now.script.now (O.layer overlay.old) round.now.t states.old.current
        (O.kept overlay.old)) (range_with_len 0 (length (O.kept overlay.old))) }
    ensures ready { IsReady round.now.script.now room.new }
    ensures own { AreOwn round.now.script.now round.now.faulty.now.ids room.new.lies.items }
    ensures made { M.made machine.now states.old.shape.depth shared.new }
    ensures cost { steps.new ≤ steps.old + M.cost machine.now * (M.machine machine.now).nodes
        * ((M.machine machine.now).faults + 1) }
{
    machine.facts();
    states.facts();
    lay_where(overlay.extra() > 0, round, states, &mut room.heard);
    machine.gather(states, round.faulty, shared, steps);
    for v in 0..states.nodes() {
        let turn = NodeStep {
            round: &*round,
            states: &*states,
            v,
        };
        step(&turn, machine, overlay, shared, room, steps);
        states.put(v, &room.out);
    }
}
