ghost use Rattle.std.specs.Prelude.{◌≡◌, ◌+◌, ◌<◌, length, unwrap_or};
ghost use Rattle.state_codec.specs.Shapes.{fields_at};
ghost use Rattle.state_codec.specs.Ranges.{InRange};
ghost use Rattle.adversary_script.specs.Eras.{era_of, faulty_at};
ghost use Rattle.adversary_script.specs.Lookup.{hit_at};
ghost use Rattle.machine_runner.specs.Beginnings.{BeginsAt, is_prop};
ghost use Rattle.machine_runner.specs.Laws.{IsReadFor};
ghost use Rattle.machine_runner.specs.Played.{starts, state_after, after_round};
ghost use Rattle.machine_runner.specs.Hearing.{AreHonest};
ghost use Rattle.machine_runner.specs.Rooms.{IsReady, IsConfiguration};

use crate::hearing::Receiver;
use adversary_script::{Noise, Script};
use counter_core::{Heard, Work};
use machines::Machine;
use state_codec::Packed;
use sync_types::{FaultSet, NodeState};

/// What rounds need beside two configurations.
#[derive(Drop)]
pub struct RoundBuffers {
    /// The noise of the script.
    pub noise: Noise,
    /// What a node hears, by place.
    pub heard: Vec<NodeState>,
    /// What steps need.
    pub work: Work,
    /// A node's new state.
    pub out: NodeState,
}

/// A round of a script.
#[derive(Clone, Copy, Drop)]
pub struct Round<'a> {
    /// The script.
    pub script: &'a Script,
    /// The nodes that are faulty in it.
    pub faulty: &'a FaultSet,
    /// Its number.
    pub t: u64,
    /// The further era that begins after it, if one does.
    pub begins: Option<usize>,
    ghost liars: { faulty.now
        ≡ record { nodes = script.now.nodes; ids = faulty_at script.now t } },
    ghost left: { t < script.now.rounds },
    ghost behind: { BeginsAt script.now (t + 1) begins } by { is_prop script.now (t + 1) begins },
}

/// A node that steps in a round, from a configuration of the script's nodes.
#[derive(Clone, Copy, Drop)]
struct NodeStep<'a> {
    round: &'a Round<'a>,
    states: &'a Packed,
    v: u32,
    ghost node: { v < round.now.script.now.nodes },
    ghost config: { IsConfiguration round.now.script.now states.now },
}

/// The further era that begins with configuration `t`, which is of that era, if one does.
pub fn beginning_in(script: &Script, era: usize, t: u64) -> Option<usize>
    requires { era ≡ era_of script.now t }
    ensures { BeginsAt script.now t result }
{
    let _rounds = script.rounds();
    if era > 0 && script.era_start(era) == t {
        Some(era)
    } else {
        None
    }
}

/// Puts every node into the state in which it starts. `out` has room for a state.
pub fn start_all(script: &Script, noise: &mut Noise, out: &mut NodeState, states: &mut Packed)
    requires config { IsConfiguration script.now states.old }
    requires noise { noise.old ≡ script.now.key }
    requires out { length out.old.registers ≡ script.now.shape.depth }
    ensures shape { states.new.shape ≡ states.old.shape }
    ensures states { states.new.current ≡ starts script.now }
    ensures size { length states.new.current ≡ script.now.nodes }
    ensures noise { noise.new ≡ script.now.key }
    ensures out { length out.new.registers ≡ script.now.shape.depth }
{
    states.facts();
    for v in 0..script.faulty().nodes() {
        script.start_into(noise, v, out);
        states.put(v, out);
    }
    states.flip();
}

/// Puts node `v` into the state that it is put into at configuration `t`, with which that further
/// era begins, if one does. `out` has its state, and room for another one.
pub fn put_hit(script: &Script, t: u64, begins: Option<usize>, v: u32, out: &mut NodeState)
    requires begins { BeginsAt script.now t begins }
    requires depth { length out.old.registers ≡ script.now.shape.depth }
    ensures state { out.new ≡ unwrap_or (hit_at script.now t v) out.old }
    ensures range { InRange (fields_at script.now.shape v) out.old
        → InRange (fields_at script.now.shape v) out.new }
{
    let _rounds = script.rounds();
    if let Some(era) = begins {
        script.hit_into(era, v, out);
    }
}

impl Round<'_> {
    /// Puts node `v` into the state that it is put into if an era begins after the round.
    pub fn put_at(&self, v: u32, out: &mut NodeState)
        requires { length out.old.registers ≡ self.now.script.now.shape.depth }
        ensures state { out.new
            ≡ unwrap_or (hit_at self.now.script.now (self.now.t + 1) v) out.old }
        ensures range { InRange (fields_at self.now.script.now.shape v) out.old
            → InRange (fields_at self.now.script.now.shape v) out.new }
    {
        let _rounds = self.script.rounds();
        put_hit(self.script, self.t + 1, self.begins, v, out);
    }

    /// The steps of all nodes, from the current states, which are laid, to the next ones. If an era
    /// begins after the round, nodes are put into the states that it gives them.
    pub fn step_all<M: Machine>(&self, machine: &M, room: &mut RoundBuffers, states: &mut Packed)
        requires read { IsReadFor (M.machine machine.now) self.now.script.now }
        requires config { IsConfiguration self.now.script.now states.old }
        requires room { IsReady self.now.script.now room.old }
        requires laid { room.old.heard.items ≡ states.old.current }
        ensures states { states.new ≡ record states.old {
          next = after_round (M.machine machine.now) self.now.script.now self.now.t
              states.old.current;
        } }
        ensures room { IsReady self.now.script.now room.new }
    {
        states.facts();
        for v in 0..states.nodes() {
            let turn = NodeStep {
                round: &*self,
                states: &*states,
                v,
            };
            turn.step(machine, room);
            states.put(v, &room.out);
        }
    }
}

impl NodeStep<'_> {
    /// Its step: its new state is written into the room.
    fn step<M: Machine>(&self, machine: &M, room: &mut RoundBuffers)
        requires read { IsReadFor (M.machine machine.now) self.now.round.now.script.now }
        requires room { IsReady self.now.round.now.script.now room.old }
        requires honest { AreHonest self.now.round.now.script.now self.now.round.now.t
            self.now.states.now.current room.old.heard.items }
        ensures state { room.new.out ≡ state_after (M.machine machine.now)
            self.now.round.now.script.now self.now.round.now.t self.now.states.now.current
            self.now.v }
        ensures range { InRange (fields_at self.now.round.now.script.now.shape self.now.v)
            room.new.out }
        ensures room { IsReady self.now.round.now.script.now room.new }
        ensures honest { AreHonest self.now.round.now.script.now self.now.round.now.t
            self.now.states.now.current room.new.heard.items }
    {
        machine.facts();
        self.states.facts();
        let receiver = Receiver {
            script: self.round.script,
            faulty: self.round.faulty,
            states: self.states,
            t: self.round.t,
            v: self.v,
        };
        receiver.hear(&mut room.noise, &mut room.heard);
        let heard = Heard::of(&room.heard);
        machine.advance(self.v, &heard, &mut room.work, &mut room.out);
        self.round.put_at(self.v, &mut room.out);
    }
}
