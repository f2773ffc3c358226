ghost use Rattle.std.specs.Prelude.{◌≡◌, ◌≤◌, IfOk};
ghost use Rattle.construction.specs.Plans.{plan_depth, plan_nodes};
ghost use Rattle.round_runner.specs.Rooms.{IsReady};

use crate::locks::{is_locked, known_or_locked};
use crate::rounds::step_all;
use crate::stepping::{RoundBuffers, shown_at};
use crate::told_steps::StepBuffers;
use crate::turns::Round;
use adversary_script::{Noise, Script};
use counter_core::{Counter, Overlay};
use machine_runner::{beginning_in, first_locks, note_lock, start_all};
use majority_votes::Steps;
use state_codec::{Packed, StateShape};
use std::alloc::Global;
use std::marker::{Brand, Model};
use std::sync::ledger::{Blank, Ledger};
use sync_types::{FaultSet, NoMemory, NodeState};
use tower::Tower;

/// Plays a script round by round on the counter of a plan, with a layer above.
pub struct Runner<O: Overlay> {
    pub(crate) tower: Tower,
    pub(crate) script: Script,
    pub(crate) overlay: O,
    pub(crate) room: RoundBuffers,
    pub(crate) states: Packed,
    pub(crate) at: u64,
    // The era of `at`.
    pub(crate) era: usize,
    // Of each era the first configuration so far that is locked.
    pub(crate) locks: Vec<Option<u64>>,
}

// Written out, so that code that drops one has a single call.
impl<O: Overlay> Drop for Runner<O> {
    fn drop(self) {
        let Runner {
            tower,
            script,
            overlay,
            room,
            states,
            at: _,
            era: _,
            locks,
        } = self;
        drop(tower);
        drop(script);
        drop(overlay);
        drop(room);
        drop(states);
        drop(locks);
    }
}

impl<O: Overlay> Model for Runner<O> {
    ghost use Rattle.round_runner.specs.Runners.{Running};
    ghost use Rattle.round_runner.specs.Kept.{IsValidRunner};

    ghost Value = { Running O };

    ghost view = { λ r. record {
      plan = r.tower;
      script = r.script;
      overlay = r.overlay;
      at = r.at;
      states = r.states.current;
      locks = r.locks.items;
    } };

    ghost invariant = { λ r. IsValidRunner r.tower r.script
        (O.layer r.overlay) r.room r.states r.locks.items r.at r.era };
}

/// What rounds need beside two configurations, whose states have that shape.
fn room_for(
    alloc: Global,
    tower: &Tower,
    script: &Script,
    shape: &StateShape,
) -> Result<RoundBuffers, NoMemory>
    requires nodes { script.now.nodes ≡ plan_nodes tower.now }
    requires shape { shape.now ≡ script.now.shape }
    requires deep { plan_depth tower.now ≤ script.now.shape.depth }
    ensures { IfOk result (IsReady tower.now script.now) }
{
    let depth = shape.depth();
    Ok(RoundBuffers {
        noise: Noise::with_room(alloc, script)?,
        heard: NodeState::zeros(alloc, script.faulty().nodes(), depth)?,
        work: tower.work(alloc)?,
        step: StepBuffers::new(alloc, tower, depth)?,
    })
}

impl<O: Overlay> Runner<O> {
    ghost use Rattle.std.specs.Prelude.{◌≡◌, ◌≢◌, ◌+◌, ◌-◌, ◌*◌, ◌^◌, ◌<◌, ◌≤◌, List, true, length};
    ghost use Rattle.std.specs.Prelude.{IfOk};
    ghost use Rattle.construction.specs.Plans.{plan_nodes, plan_modulus, plan_bound, plan_depth};
    ghost use Rattle.construction.specs.Plans.{plan_faults};
    ghost use Rattle.construction.specs.Shown.{shown};
    ghost use Rattle.construction.specs.Steps.{state_of};
    ghost use Rattle.sync_types.specs.FaultSets.{is_in};
    ghost use Rattle.state_codec.specs.Shapes.{fields_at, bytes_in};
    ghost use Rattle.state_codec.specs.Texts.{written_text};
    ghost use Rattle.adversary_script.specs.Lies.{lie_of};
    ghost use Rattle.adversary_script.specs.Eras.{faulty_at};
    ghost use Rattle.round_runner.specs.Ledgers.{IsBlankOf};
    ghost use Rattle.round_runner.specs.Runners.{IsPlayableOn, IsPlaying, Advances, begun};

    /// A runner of a script at configuration 0. It takes all the memory that it ever needs.
    ///
    /// The tower, the shape and the script are of one plan: the script was read with this shape,
    /// which has the registers of the layer after those of the plan.
    pub fn new(
        alloc: Global,
        tower: Tower,
        shape: StateShape,
        script: Script,
        overlay: O,
    ) -> Result<Runner<O>, NoMemory>
        requires plan { IsPlayableOn tower (O.layer overlay) script }
        requires shape { script.shape ≡ shape }
        ensures begun { IfOk result (λ runner. runner ≡ begun tower script overlay) }
        ensures played { IfOk result (IsPlaying O.layer O.kept (O.kept overlay)) }
    {
        shape.facts();
        tower.tell();
        let _rounds = script.rounds();
        let mut room = room_for(alloc, &tower, &script, &shape)?;
        let mut states = Packed::new(alloc, shape, script.faulty().nodes())?;
        start_all(&script, &mut room.noise, &mut room.step.out, &mut states);
        let locked = is_locked(&tower, script.faulty(), &states);
        let locks = first_locks(alloc, &script, locked)?;
        Ok(Runner {
            tower,
            script,
            overlay,
            room,
            states,
            at: 0,
            era: 0,
            locks,
        })
    }

    /// Makes the next configuration: every node steps, the faulty ones too, from what it hears, and
    /// if an era begins, nodes are put into the states that it gives them. It takes no memory and
    /// cannot fail. There is a round left to play.
    pub fn round(&mut self)
        requires { self.old.at < self.old.script.rounds }
        ensures advances { Advances O.layer O.kept self.old self.new }
        ensures played { (began : List O.Kept) → IsPlaying O.layer O.kept began self.old
            → IsPlaying O.layer O.kept began self.new }
    {
        self.round_in::<Brand>(Blank::new(1));
    }

    /// Makes the next configuration, and counts the steps in a ledger of its own.
    fn round_in<G: Ledger>(&mut self, blank: Blank)
        requires blank { IsBlankOf G.name G.parts blank.name blank.parts }
        requires round { self.old.at < self.old.script.rounds }
        ensures advances { Advances O.layer O.kept self.old self.new }
        ensures played { (began : List O.Kept) → IsPlaying O.layer O.kept began self.old
            → IsPlaying O.layer O.kept began self.new }
    {
        let mut steps = Steps::<G>::new(blank);
        self.round_counted(&mut steps);
    }

    /// Makes the next configuration, as [`round`](Runner::round) does, and counts its steps: each
    /// is the counting of one pointer, part or register value of a heard state, which is placed in
    /// a tally or compared where it stands. There are at most three a level for each node, as
    /// sender and as receiver of each faulty one. What the layer takes is not counted.
    pub fn round_counted<G: Ledger>(&mut self, steps: &mut Steps<G>)
        requires { self.old.at < self.old.script.rounds }
        ensures advances { Advances O.layer O.kept self.old self.new }
        ensures played { (began : List O.Kept) → IsPlaying O.layer O.kept began self.old
            → IsPlaying O.layer O.kept began self.new }
        ensures cost { steps.new ≤ steps.old + 3 * plan_depth self.old.plan
            * plan_nodes self.old.plan * (plan_faults self.old.plan + 1) }
    {
        self.overlay.begin(self.at);
        let era = self.script.era_of(self.at + 1);
        let round = Round {
            tower: &self.tower,
            script: &self.script,
            faulty: self.script.era_faulty(self.era),
            t: self.at,
            begins: beginning_in(&self.script, era, self.at + 1),
        };
        step_all(
            &round,
            &mut self.overlay,
            &mut self.room,
            &mut self.states,
            steps,
        );
        self.states.flip();
        self.at += 1;
        self.era = era;
        let faulty = self.script.era_faulty(era);
        let locked = known_or_locked(self.locks[era], &self.tower, faulty, &self.states);
        note_lock(era, locked, self.at, &mut self.locks);
    }

    /// How many rounds were played.
    pub fn at(&self) -> u64
        ensures { result ≡ self.now.at }
    {
        self.at
    }

    /// How many rounds are left to play.
    pub fn rounds_left(&self) -> u64
        ensures { result ≡ self.now.script.rounds - self.now.at }
    {
        self.script.rounds() - self.at
    }

    /// How many nodes there are.
    pub fn nodes(&self) -> u32
        ensures { result ≡ plan_nodes self.now.plan }
    {
        self.script.faulty().nodes()
    }

    /// The plan's bound.
    pub fn bound(&self) -> u64
        ensures { result ≡ plan_bound self.now.plan }
    {
        self.tower.bound()
    }

    /// The plan's modulus C, 2 to 2^40.
    pub fn modulus(&self) -> u64
        ensures value { result ≡ plan_modulus self.now.plan }
        ensures least { 2 ≤ result }
        ensures most { result ≤ 2 ^ 40 }
    {
        self.tower.modulus()
    }

    /// What node `v` shows.
    pub fn output(&self, v: u32) -> u64
        requires { v < plan_nodes self.now.plan }
        ensures { result ≡ shown (plan_depth self.now.plan) (state_of self.now.states v) }
    {
        shown_at(&self.states, v, self.tower.depth())
    }

    /// What node `v` shows one level down: what it shows in its block, or 0 if it is a spare of the
    /// top level. The plan has a level.
    pub fn inner_output(&self, v: u32) -> u64
        requires node { v < plan_nodes self.now.plan }
        requires level { 1 ≤ plan_depth self.now.plan }
        ensures { result ≡ shown (plan_depth self.now.plan - 1) (state_of self.now.states v) }
    {
        shown_at(&self.states, v, self.tower.depth() - 1)
    }

    /// Puts the state of node `v` into `out`, which has the depth of the runner's states.
    pub fn state(&self, v: u32, out: &mut NodeState)
        requires node { v < plan_nodes self.now.plan }
        requires depth { length out.old.registers ≡ self.now.script.shape.depth }
        ensures { out.new ≡ state_of self.now.states v }
    {
        self.states.old(v, out);
    }

    /// The shape of the runner's states.
    pub fn shape(&self) -> &StateShape
        ensures { result.now ≡ self.now.script.shape }
    {
        self.states.shape()
    }

    /// Writes the state of node `v` as digits of `0-9a-f` into `out`, which has just their length,
    /// two for each byte of the node's states.
    pub fn state_hex(&mut self, v: u32, out: &mut [u8])
        requires node { v < plan_nodes self.old.plan }
        requires length { length out.old
            ≡ 2 * bytes_in (fields_at self.old.script.shape v) }
        ensures digits { out.new
            ≡ written_text (fields_at self.old.script.shape v) (state_of self.old.states v) }
        ensures same { self.new ≡ self.old }
    {
        self.states.facts();
        let _fits = hex::encode_to_slice(self.states.bytes(v), out);
    }

    /// Writes what node `v` hears in round `at` of node `u`, which is faulty in it, as digits of
    /// `0-9a-f` into `out`, which has just their length, two for each byte of the states of `u`.
    /// There is a round left to play.
    pub fn lie_hex(&mut self, u: u32, v: u32, out: &mut [u8])
        requires round { self.old.at < self.old.script.rounds }
        requires sender { is_in (faulty_at self.old.script self.old.at) u ≡ true }
        requires other { v ≢ u }
        requires receiver { v < plan_nodes self.old.plan }
        requires length { length out.old
            ≡ 2 * bytes_in (fields_at self.old.script.shape u) }
        ensures digits { out.new ≡ written_text (fields_at self.old.script.shape u)
            (lie_of self.old.script self.old.at u v self.old.states) }
        ensures same { self.new ≡ self.old }
    {
        let lie = &mut self.room.step.out;
        let noise = &mut self.room.noise;
        self.script
            .lie_into(noise, self.at, u, v, &self.states, lie);
        self.states.shape().write_hex(u, lie, out);
    }

    /// The layer above the counter.
    pub fn overlay(&self) -> &O
        ensures { result.now ≡ self.now.overlay }
    {
        &self.overlay
    }

    /// The script.
    pub fn script(&self) -> &Script
        ensures { result.now ≡ self.now.script }
    {
        &self.script
    }
}
