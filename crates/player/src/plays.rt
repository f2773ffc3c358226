use crate::players::Player;
use adversary_script::Script;
use counter_core::Overlay;
use layer_laws::{AnyCounter, Play};
use machines::Machine;
use rounds::Rounds;

impl<'a, M: Rounds, O: Overlay> Play<O> for Player<'a, M, O> {
    ghost use Rattle.player.specs.Runners.{position_of};

    ghost position = { λ r. position_of M.machine O.layer O.kept r };

    fn facts(&self) {
        self.machine.facts();
    }

    fn at(&self) -> u64 {
        self.at
    }

    fn script(&self) -> &Script {
        &self.script
    }

    fn nodes(&self) -> u32 {
        self.machine.nodes()
    }

    fn bound(&self) -> u64 {
        self.machine.bound()
    }

    fn output(&self, v: u32) -> u64 {
        self.machine.facts();
        self.states.facts();
        self.machine.output_in(v, &self.states)
    }

    fn overlay(&self) -> &O {
        &self.overlay
    }

    fn lock_of(&self, j: usize) -> Option<u64> {
        self.locks[j]
    }

    fn round(&mut self) {
        Player::round(self);
    }
}

// Its machine is a counter of which the laws of layers speak.
impl<'a, M: Rounds, O: Overlay> AnyCounter for Player<'a, M, O> {
    ghost use Rattle.machines.specs.Machines.{IsState};
    ghost use Rattle.player.specs.Counters.{machine_counter};

    ghost counter = { λ r. machine_counter (M.machine r.machine) };

    ghost is_state = { λ r. IsState (M.machine r.machine) };
}
