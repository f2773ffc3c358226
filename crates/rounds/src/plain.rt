ghost use Rattle.std.specs.Prelude.{◌≡◌};

use crate::laying::{lay, lay_lies};
use crate::rounds::Rounds;
use counter_core::{Heard, Work};
use machines::Machine;
use majority_votes::Steps;
use state_codec::Packed;
use std::alloc::Global;
use std::marker::Model;
use std::sync::ledger::Ledger;
use sync_types::{FaultSet, NoMemory, NodeState};

/// Any machine, each of whose nodes steps by itself from all that it hears.
#[derive(Drop)]
pub struct Plain<'a, M: Machine> {
    machine: &'a M,
}

impl<'a, M: Machine> Model for Plain<'a, M> {
    ghost Value = { M };

    ghost view = { λ p. p.machine.now };
}

impl<'a, M: Machine> Plain<'a, M> {
    /// This machine.
    pub fn of(machine: &'a M) -> Plain<'a, M>
        ensures { result ≡ machine.now }
    {
        Plain { machine }
    }
}

/// What a node hears, by place, and the room that its step needs.
#[derive(Drop)]
pub struct Laid {
    /// The states.
    pub heard: Vec<NodeState>,
    /// The room.
    pub work: Work,
}

impl<'a, M: Machine> Machine for Plain<'a, M> {
    ghost machine = { λ p. M.machine p };

    fn nodes(&self) -> u32 {
        self.machine.nodes()
    }

    fn faults(&self) -> u32 {
        self.machine.faults()
    }

    fn modulus(&self) -> u64 {
        self.machine.modulus()
    }

    fn bound(&self) -> u64 {
        self.machine.bound()
    }

    fn depth(&self) -> usize {
        self.machine.depth()
    }

    fn lock(&self) -> Option<usize> {
        self.machine.lock()
    }

    fn facts(&self) {
        self.machine.facts();
    }

    fn bytes_of(&self, v: u32) -> usize {
        self.machine.bytes_of(v)
    }

    fn write_state(&self, v: u32, state: &NodeState, out: &mut [u8]) {
        self.machine.write_state(v, state, out);
    }

    fn read_state(&self, v: u32, bytes: &[u8], out: &mut NodeState) {
        self.machine.read_state(v, bytes, out);
    }

    fn read_front(&self, v: u32, bytes: &[u8], out: &mut NodeState) {
        self.machine.read_front(v, bytes, out);
    }

    fn output(&self, v: u32, state: &NodeState) -> u64 {
        self.machine.output(v, state)
    }

    fn output_in(&self, v: u32, states: &Packed) -> u64 {
        self.machine.output_in(v, states)
    }

    fn advance(&self, v: u32, heard: &Heard<'_>, work: &mut Work, out: &mut NodeState) {
        self.machine.advance(v, heard, work, out);
    }
}

impl<'a, M: Machine> Rounds for Plain<'a, M> {
    ghost use Rattle.rounds.specs.Plain.{HasRoom, IsLaid};

    type Shared = Laid;

    ghost made = { λ p depth laid. HasRoom (M.machine p).nodes depth laid };

    ghost stands = { λ p sent laid. IsLaid (M.machine p) sent laid };

    ghost cost = { λ p. 0 };

    fn shared(&self, alloc: Global, depth: usize) -> Result<Laid, NoMemory> {
        let nodes = self.machine.nodes();
        Ok(Laid {
            heard: NodeState::zeros(alloc, nodes, depth)?,
            work: Work::new(alloc, nodes)?,
        })
    }

    fn gather<G: Ledger>(
        &self,
        states: &Packed,
        faulty: &FaultSet,
        shared: &mut Laid,
        _steps: &mut Steps<G>,
    ) {
        faulty.facts();
        lay(states, &mut shared.heard);
    }

    fn relevant_liars(
        &self,
        _v: u32,
        _states: &Packed,
        faulty: &FaultSet,
        _shared: &Laid,
    ) -> (usize, usize) {
        (0, faulty.len())
    }

    fn advance_shared<G: Ledger>(
        &self,
        v: u32,
        lies: &[NodeState],
        states: &Packed,
        faulty: &FaultSet,
        shared: &mut Laid,
        out: &mut NodeState,
        _steps: &mut Steps<G>,
    ) {
        let all = (0, faulty.len());
        lay_lies(states.shape().depth(), faulty, all, lies, &mut shared.heard);
        let heard = Heard::of(&shared.heard);
        self.machine.advance(v, &heard, &mut shared.work, out);
    }

    ghost still_made = { λ p sent laid is. is.room };
}
