ghost use Rattle.std.specs.Prelude.{◌≡◌, IfOk};
ghost use Rattle.player.specs.Rooms.{IsReady};

use crate::locks::known_or_locked;
use crate::stepping::{Room, step_all};
use crate::telling::{tell_new_puppets, tell_puppets};
use adversary_script::{Noise, Script};
use counter_core::{Overlay, Work};
use machine_runner::{Round, beginning_in, first_locks, is_locked, note_lock, start_all};
use majority_votes::Steps;
use rounds::Rounds;
use state_codec::{Packed, StateShape};
use std::alloc::Global;
use std::marker::{Brand, Model};
use std::sync::ledger::{Blank, Ledger};
use sync_types::{NoMemory, NodeState};

/// Plays a script round by round on a machine with a layer above.
pub struct Player<'a, M: Rounds, O: Overlay> {
    pub(crate) machine: &'a M,
    pub(crate) script: Script,
    pub(crate) overlay: O,
    pub(crate) shared: M::Shared,
    pub(crate) room: Room,
    pub(crate) states: Packed,
    pub(crate) at: u64,
    // The era of `at`.
    pub(crate) era: usize,
    // Of each era the first configuration so far that is locked.
    pub(crate) locks: Vec<Option<u64>>,
}

// Written out, so that code that drops one has a single call.
impl<'a, M: Rounds, O: Overlay> Drop for Player<'a, M, O> {
    fn drop(self) {
        let Player {
            machine: _,
            script,
            overlay,
            shared,
            room,
            states,
            at: _,
            era: _,
            locks,
        } = self;
        drop(script);
        drop(overlay);
        drop(shared);
        drop(room);
        drop(states);
        drop(locks);
    }
}

impl<'a, M: Rounds, O: Overlay> Model for Player<'a, M, O> {
    ghost use Rattle.player.specs.Kept.{IsValidPlayer};
    ghost use Rattle.player.specs.Runners.{Running};

    ghost Value = { Running M O };

    ghost view = { λ r. record {
      machine = r.machine.now;
      script = r.script;
      overlay = r.overlay;
      at = r.at;
      states = r.states.current;
      locks = r.locks.items;
    } };

    ghost invariant = { λ r. IsValidPlayer (M.machine r.machine.now) (O.layer r.overlay) r.script
        (M.made r.machine.now r.states.shape.depth r.shared) r.room r.states r.locks.items r.at
        r.era };
}

/// What rounds need beside two configurations, whose states have that shape.
fn room_for(alloc: Global, script: &Script, shape: &StateShape) -> Result<Room, NoMemory>
    requires { shape.now ≡ script.now.shape }
    ensures { IfOk result (IsReady script.now) }
{
    let nodes = script.faulty().nodes();
    let depth = shape.depth();
    Ok(Room {
        noise: Noise::with_room(alloc, script)?,
        heard: NodeState::zeros(alloc, nodes, depth)?,
        lies: NodeState::zeros(alloc, nodes, depth)?,
        work: Work::new(alloc, nodes)?,
        out: NodeState::zero(alloc, depth)?,
    })
}

impl<'a, M: Rounds, O: Overlay> Player<'a, M, O> {
    ghost use Rattle.std.specs.Prelude.{◌≡◌, ◌+◌, ◌*◌, ◌<◌, ◌≤◌, List, length, IfOk};
    ghost use Rattle.construction.specs.Steps.{state_of};
    ghost use Rattle.machine_runner.specs.Locks.{is_locked};
    ghost use Rattle.layer_laws.specs.Positions.{begun, advanced, IsPlayed};
    ghost use Rattle.player.specs.Counters.{machine_counter};
    ghost use Rattle.player.specs.Kept.{IsBlankOf};
    ghost use Rattle.player.specs.ReadOver.{IsReadWithLayer};
    ghost use Rattle.player.specs.Runners.{position_of};

    /// A player of a script at configuration 0. It takes all the memory that it ever needs.
    ///
    /// The script was read for the machine with the layer above, with this shape of its states.
    pub fn new(
        alloc: Global,
        machine: &'a M,
        shape: StateShape,
        script: Script,
        overlay: O,
    ) -> Result<Player<'a, M, O>, NoMemory>
        requires read { IsReadWithLayer (M.machine machine.now) (O.layer overlay) script }
        requires shape { script.shape ≡ shape }
        ensures begun { IfOk result (λ player. position_of M.machine O.layer O.kept player
            ≡ begun (machine_counter (M.machine machine.now)) (is_locked (M.machine machine.now))
            script (O.layer overlay) (O.kept overlay)) }
        ensures machine { IfOk result (λ player. player.machine ≡ machine.now) }
        ensures played { IfOk result (λ player. IsPlayed (O.kept overlay)
            (position_of M.machine O.layer O.kept player)) }
    {
        shape.facts();
        machine.facts();
        let _rounds = script.rounds();
        let mut room = room_for(alloc, &script, &shape)?;
        let shared = machine.shared(alloc, shape.depth())?;
        let mut states = Packed::new(alloc, shape, script.faulty().nodes())?;
        start_all(&script, &mut room.noise, &mut room.out, &mut states);
        tell_puppets(&script, 0, &states, &mut room.lies);
        let locked = is_locked(machine, script.faulty(), &states);
        let locks = first_locks(alloc, &script, locked)?;
        Ok(Player {
            machine,
            script,
            overlay,
            shared,
            room,
            states,
            at: 0,
            era: 0,
            locks,
        })
    }

    /// Makes the next configuration: every node steps, the faulty ones too, from what it hears, and
    /// if an era begins, nodes are put into the states that it gives them. It takes no memory and
    /// cannot fail. There is a round left to play.
    pub fn round(&mut self)
        requires { self.old.at < self.old.script.rounds }
        ensures advances { position_of M.machine O.layer O.kept self.new
            ≡ advanced (position_of M.machine O.layer O.kept self.old) }
        ensures machine { self.new.machine ≡ self.old.machine }
        ensures played { (began : List O.Kept)
            → IsPlayed began (position_of M.machine O.layer O.kept self.old)
            → IsPlayed began (position_of M.machine O.layer O.kept self.new) }
    {
        self.round_in::<Brand>(Blank::new(1));
    }

    /// Makes the next configuration, and counts the steps in a ledger of its own.
    fn round_in<G: Ledger>(&mut self, blank: Blank)
        requires blank { IsBlankOf G.name G.parts blank.name blank.parts }
        requires round { self.old.at < self.old.script.rounds }
        ensures advances { position_of M.machine O.layer O.kept self.new
            ≡ advanced (position_of M.machine O.layer O.kept self.old) }
        ensures machine { self.new.machine ≡ self.old.machine }
        ensures played { (began : List O.Kept)
            → IsPlayed began (position_of M.machine O.layer O.kept self.old)
            → IsPlayed began (position_of M.machine O.layer O.kept self.new) }
    {
        let mut steps = Steps::<G>::new(blank);
        self.round_counted(&mut steps);
    }

    /// Makes the next configuration, as [`round`](Player::round) does, and counts its steps.
    pub fn round_counted<G: Ledger>(&mut self, steps: &mut Steps<G>)
        requires { self.old.at < self.old.script.rounds }
        ensures advances { position_of M.machine O.layer O.kept self.new
            ≡ advanced (position_of M.machine O.layer O.kept self.old) }
        ensures machine { self.new.machine ≡ self.old.machine }
        ensures played { (began : List O.Kept)
            → IsPlayed began (position_of M.machine O.layer O.kept self.old)
            → IsPlayed began (position_of M.machine O.layer O.kept self.new) }
        ensures cost { steps.new ≤ steps.old + M.cost self.old.machine
            * (M.machine self.old.machine).nodes * ((M.machine self.old.machine).faults + 1) }
    {
        self.overlay.begin(self.at);
        let era = self.script.era_of(self.at + 1);
        let round = Round {
            script: &self.script,
            faulty: self.script.era_faulty(self.era),
            t: self.at,
            begins: beginning_in(&self.script, era, self.at + 1),
        };
        step_all(
            &round,
            self.machine,
            &mut self.overlay,
            &mut self.shared,
            &mut self.room,
            &mut self.states,
            steps,
        );
        self.states.flip();
        self.at += 1;
        tell_new_puppets(
            &self.script,
            self.era,
            era,
            &self.states,
            &mut self.room.lies,
        );
        self.era = era;
        let faulty = self.script.era_faulty(era);
        let locked = known_or_locked(self.locks[era], self.machine, faulty, &self.states);
        note_lock(era, locked, self.at, &mut self.locks);
    }
}
