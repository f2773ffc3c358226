ghost use Rattle.std.specs.Prelude.{◌≡◌, IfOk};
ghost use Rattle.machine_runner.specs.Rooms.{IsReady};

use crate::era_locks::{first_locks, note_lock};
use crate::hearing::{Receiver, lay};
use crate::locks::is_locked;
use crate::stepping::{Round, RoundBuffers, beginning_in, start_all};
use adversary_script::{Noise, Script};
use counter_core::Work;
use machines::Machine;
use state_codec::{Packed, StateShape};
use std::alloc::Global;
use std::marker::Model;
use sync_types::{FaultSet, NoMemory, NodeState};

/// Plays a script round by round on a machine.
pub struct Runner<'a, M: Machine> {
    pub(crate) machine: &'a M,
    pub(crate) script: Script,
    pub(crate) room: RoundBuffers,
    pub(crate) states: Packed,
    pub(crate) at: u64,
    // The era of `at`.
    pub(crate) era: usize,
    // Of each era the first configuration so far that is locked.
    pub(crate) locks: Vec<Option<u64>>,
}

// Written out, so that code that drops one has a single call.
impl<'a, M: Machine> Drop for Runner<'a, M> {
    fn drop(self) {
        let Runner {
            machine: _,
            script,
            room,
            states,
            at: _,
            era: _,
            locks,
        } = self;
        drop(script);
        drop(room);
        drop(states);
        drop(locks);
    }
}

impl<'a, M: Machine> Model for Runner<'a, M> {
    ghost use Rattle.machine_runner.specs.Runners.{Running};
    ghost use Rattle.machine_runner.specs.Kept.{IsValidRunner};

    ghost Value = { Running M };

    ghost view = { λ r. record {
      machine = r.machine.now;
      script = r.script;
      at = r.at;
    } };

    ghost invariant = { λ r.
        IsValidRunner (M.machine r.machine.now) r.script r.room r.states r.locks.items r.at r.era };
}

/// What rounds need beside two configurations, whose states have that shape.
pub fn room_for(
    alloc: Global,
    script: &Script,
    shape: &StateShape,
) -> Result<RoundBuffers, NoMemory>
    requires { shape.now ≡ script.now.shape }
    ensures { IfOk result (IsReady script.now) }
{
    let nodes = script.faulty().nodes();
    let depth = shape.depth();
    Ok(RoundBuffers {
        noise: Noise::with_room(alloc, script)?,
        heard: NodeState::zeros(alloc, nodes, depth)?,
        work: Work::new(alloc, nodes)?,
        out: NodeState::zero(alloc, depth)?,
    })
}

impl<'a, M: Machine> Runner<'a, M> {
    ghost use Rattle.std.specs.Prelude.{◌≡◌, ◌+◌, ◌-◌, ◌^◌, ◌<◌, ◌≤◌, length, IfOk};
    ghost use Rattle.construction.specs.Steps.{state_of};
    ghost use Rattle.sync_types.specs.FaultSets.{is_in};
    ghost use Rattle.adversary_script.specs.Eras.{faulty_at};
    ghost use Rattle.machines.specs.Laws.{IsSound};
    ghost use Rattle.machine_runner.specs.Laws.{IsReadFor};
    ghost use Rattle.machine_runner.specs.Played.{heard_at};
    ghost use Rattle.machine_runner.specs.Hearing.{HasRoom};
    ghost use Rattle.machine_runner.specs.Runners.{begun, next, states_of, lock_of};

    /// A runner of a script at configuration 0. It takes all the memory that it ever needs.
    ///
    /// The script was read for the machine, with this shape of its states.
    pub fn new(
        alloc: Global,
        machine: &'a M,
        shape: StateShape,
        script: Script,
    ) -> Result<Runner<'a, M>, NoMemory>
        requires read { IsReadFor (M.machine machine.now) script }
        requires shape { script.shape ≡ shape }
        ensures { IfOk result (λ runner. runner ≡ begun machine.now script) }
    {
        shape.facts();
        machine.facts();
        let _rounds = script.rounds();
        let mut room = room_for(alloc, &script, &shape)?;
        let mut states = Packed::new(alloc, shape, script.faulty().nodes())?;
        start_all(&script, &mut room.noise, &mut room.out, &mut states);
        states.facts();
        lay(&states, &mut room.heard);
        let locked = is_locked(machine, script.faulty(), &states);
        let locks = first_locks(alloc, &script, locked)?;
        Ok(Runner {
            machine,
            script,
            room,
            states,
            at: 0,
            era: 0,
            locks,
        })
    }

    /// Makes the next configuration: every node steps, the faulty ones too, from what it hears, and
    /// if an era begins, nodes are put into the states that it gives them. It takes no memory and
    /// cannot fail. There is a round left to play.
    pub fn round(&mut self)
        requires { self.old.at < self.old.script.rounds }
        ensures { self.new ≡ next self.old }
    {
        let era = self.script.era_of(self.at + 1);
        let round = Round {
            script: &self.script,
            faulty: self.script.era_faulty(self.era),
            t: self.at,
            begins: beginning_in(&self.script, era, self.at + 1),
        };
        round.step_all(self.machine, &mut self.room, &mut self.states);
        self.states.flip();
        self.states.facts();
        lay(&self.states, &mut self.room.heard);
        self.at += 1;
        self.era = era;
        let locked = is_locked(self.machine, self.script.era_faulty(era), &self.states);
        note_lock(era, locked, self.at, &mut self.locks);
    }

    /// Tells a caller's proof that the machine is sound, that the script was read for it, and that
    /// no more rounds were played than there are. It does nothing when it runs.
    pub fn facts(&self)
        ensures sound { IsSound (M.machine self.now.machine) }
        ensures read { IsReadFor (M.machine self.now.machine) self.now.script }
        ensures within { self.now.at ≤ self.now.script.rounds }
    {
        self.machine.facts();
    }

    /// How many rounds were played.
    pub fn at(&self) -> u64
        ensures { result ≡ self.now.at }
    {
        self.at
    }

    /// How many rounds are left to play.
    pub fn rounds_left(&self) -> u64
        ensures { result ≡ self.now.script.rounds - self.now.at }
    {
        self.script.rounds() - self.at
    }

    /// How many nodes there are, at most 256.
    pub fn nodes(&self) -> u32
        ensures value { result ≡ (M.machine self.now.machine).nodes }
        ensures most { result ≤ 256 }
    {
        self.machine.facts();
        self.machine.nodes()
    }

    /// The machine.
    pub fn machine(&self) -> &'a M
        ensures { result.now ≡ self.now.machine }
    {
        self.machine
    }

    /// The script.
    pub fn script(&self) -> &Script
        ensures { result.now ≡ self.now.script }
    {
        &self.script
    }

    /// The state of node `v`.
    pub fn state(&self, v: u32) -> &NodeState
        requires { v < (M.machine self.now.machine).nodes }
        ensures { result.now ≡ state_of (states_of M.machine self.now) v }
    {
        &self.room.heard[v as usize]
    }

    /// Lays the states of all nodes into their places.
    pub fn lay_states(&self, config: &mut [NodeState])
        requires { HasRoom self.now.script config.old }
        ensures states { config.new ≡ states_of M.machine self.now }
        ensures room { HasRoom self.now.script config.new }
    {
        self.states.facts();
        lay(&self.states, config);
    }

    /// Lays what node `v` hears in the round that follows into its places. There is a round left to
    /// play. It takes no memory and cannot fail.
    pub fn hear(&mut self, v: u32, heard: &mut [NodeState])
        requires node { v < (M.machine self.old.machine).nodes }
        requires left { self.old.at < self.old.script.rounds }
        requires room { HasRoom self.old.script heard.old }
        ensures heard { heard.new
            ≡ heard_at self.old.script self.old.at (states_of M.machine self.old) v }
        ensures room { HasRoom self.old.script heard.new }
        ensures same { self.new ≡ self.old }
    {
        self.states.facts();
        lay(&self.states, heard);
        let receiver = Receiver {
            script: &self.script,
            faulty: self.script.era_faulty(self.era),
            states: &self.states,
            t: self.at,
            v,
        };
        receiver.hear(&mut self.room.noise, heard);
    }

    /// What node `v` shows, below the machine's modulus.
    pub fn output(&self, v: u32) -> u64
        requires { v < (M.machine self.now.machine).nodes }
        ensures value { result ≡ (M.machine self.now.machine).shows v
            (state_of (states_of M.machine self.now) v) }
        ensures below { result < (M.machine self.now.machine).modulus }
    {
        self.machine.facts();
        self.states.facts();
        self.machine.output(v, &self.room.heard[v as usize])
    }

    /// Who is faulty in the configuration, and in the round that begins with it.
    pub fn faulty(&self) -> &FaultSet
        ensures { result.now ≡ record {
          nodes = (M.machine self.now.machine).nodes;
          ids = faulty_at self.now.script self.now.at;
        } }
    {
        self.script.era_faulty(self.era)
    }

    /// Whether node `v` is faulty in the configuration.
    pub fn is_faulty(&self, v: u32) -> bool
        ensures { result ≡ is_in (faulty_at self.now.script self.now.at) v }
    {
        self.faulty().contains(v)
    }

    /// Of era `j` the first locked configuration so far.
    pub fn lock_of(&self, j: usize) -> Option<u64>
        requires { j ≤ length self.now.script.eras }
        ensures { result ≡ lock_of M.machine self.now j }
    {
        self.locks[j]
    }
}
