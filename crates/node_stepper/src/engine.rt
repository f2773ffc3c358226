use counter_core::{Heard, Work};
use machines::Machine;
use std::alloc::Global;
use std::marker::Model;
use sync_types::{NoMemory, NodeState};

/// A node of a machine: its own state, and of each other node the state that was heard of it last.
#[derive(Drop)]
pub struct NodeEngine<M: Machine> {
    pub(crate) machine: M,
    pub(crate) id: u32,
    // By place; its own stands at its own place.
    states: Vec<NodeState>,
    // By place: who was heard since the last step.
    since: Vec<bool>,
    next: NodeState,
    work: Work,
}

impl<M: Machine> Model for NodeEngine<M> {
    ghost use Rattle.node_stepper.specs.Nodes.{Standing};
    ghost use Rattle.node_stepper.specs.Kept.{IsValidEngine};

    ghost Value = { Standing M };

    ghost view = { λ e. record {
      counter = e.machine;
      id = e.id;
      states = e.states.items;
      since = e.since.items;
    } };

    ghost invariant = { λ e.
        IsValidEngine (M.machine e.machine) e.id e.states.items e.since.items e.next e.work };
}

impl<M: Machine> NodeEngine<M> {
    ghost use Rattle.std.specs.Prelude.{◌≡◌, ◌+◌, ◌<◌, ◌≤◌, length, take, IfOk};
    ghost use Rattle.state_codec.specs.Shapes.{bytes_in};
    ghost use Rattle.machines.specs.Machines.{IsState};
    ghost use Rattle.node_stepper.specs.Nodes.{begun, hearing, stepped, forgetting};
    ghost use Rattle.node_stepper.specs.Nodes.{AllHeard, own};

    /// Node `id` of a machine in a state of its own, which has heard no other node: of each it has
    /// the zero state. It takes all the memory that it ever needs.
    pub fn of_machine(
        alloc: Global,
        machine: M,
        id: u32,
        state: NodeState,
    ) -> Result<NodeEngine<M>, NoMemory>
        requires id { id < (M.machine machine).nodes }
        requires state { IsState (M.machine machine) id state }
        ensures { IfOk result (λ e. e ≡ begun M.machine machine id state) }
    {
        machine.facts();
        let nodes = machine.nodes();
        let depth = machine.depth();
        let mut states = NodeState::zeros(alloc, nodes, depth)?;
        states[id as usize].copy_from(&state);
        let since = vec![in alloc; false; nodes as usize]?;
        let next = NodeState::zero(alloc, depth)?;
        let work = Work::new(alloc, nodes)?;
        Ok(NodeEngine {
            machine,
            id,
            states,
            since,
            next,
            work,
        })
    }

    /// How many nodes there are.
    pub(crate) fn nodes(&self) -> u32
        ensures value { result ≡ (M.machine self.now.counter).nodes }
        ensures id { self.now.id < result }
        ensures states { length self.now.states ≡ result }
        ensures marks { length self.now.since ≡ result }
    {
        self.machine.nodes()
    }

    /// How many bytes a state of a node has, at most 128.
    pub(crate) fn bytes_of(&self, v: u32) -> usize
        requires { v < (M.machine self.now.counter).nodes }
        ensures value { result ≡ bytes_in ((M.machine self.now.counter).fields v) }
        ensures most { result ≤ 128 }
    {
        self.machine.bytes_of(v)
    }

    /// Hears a cell of a node, in place of an earlier one: the state that its bytes stand for,
    /// which is the zero state if they are not exactly as many as a state of that node has. A cell
    /// of its own id is dropped.
    pub fn hear(&mut self, sender: u32, bytes: &[u8])
        requires { sender < (M.machine self.old.counter).nodes }
        ensures { self.new ≡ hearing M.machine self.old sender bytes.now }
    {
        if sender == self.id {
            return;
        }
        let state = &mut self.states[sender as usize];
        self.machine.read_state(sender, bytes, state);
        self.since[sender as usize] = true;
    }

    /// Hears a cell that has exactly as many bytes as a state of its node, by `bytes` that begin
    /// with them. Eight more bytes stand after them.
    pub(crate) fn hear_front(&mut self, sender: u32, bytes: &[u8])
        requires sender { sender < (M.machine self.old.counter).nodes }
        requires within { bytes_in ((M.machine self.old.counter).fields sender) + 8
            ≤ length bytes.now }
        ensures { self.new ≡ hearing M.machine self.old sender
            (take (bytes_in ((M.machine self.old.counter).fields sender)) bytes.now) }
    {
        if self.id == sender {
            return;
        }
        let state = &mut self.states[sender as usize];
        self.machine.read_front(sender, bytes, state);
        self.since[sender as usize] = true;
    }

    /// Steps from what was heard. Every other node was heard since the last step. It takes no
    /// memory.
    pub fn packet(&mut self)
        requires { AllHeard M.machine self.old }
        ensures { self.new ≡ stepped M.machine self.old }
    {
        self.machine.facts();
        let heard = Heard::of(&self.states);
        self.machine
            .advance(self.id, &heard, &mut self.work, &mut self.next);
        self.states[self.id as usize].copy_from(&self.next);
        self.since.fill(false);
    }

    /// Forgets who was heard since the last step.
    pub(crate) fn forget(&mut self)
        ensures { self.new ≡ forgetting M.machine self.old }
    {
        self.since.fill(false);
    }

    /// Its own state.
    pub fn state(&self) -> &NodeState
        ensures value { result.now ≡ own self.now }
        ensures range { IsState (M.machine self.now.counter) self.now.id result.now }
    {
        &self.states[self.id as usize]
    }
}
