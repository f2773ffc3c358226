ghost use Rattle.std.specs.Prelude.{◌≡◌, ◌<◌, ◌≤◌, length};
ghost use Rattle.run_checker.specs.Grammar.{most_eras};

use crate::Verdict;
use crate::id_lists::{all_nodes, empty_sets, most_eras, needs_state, read_ids};
use crate::rounds::play;
use crate::tellings::Tellings;
use counter_core::Counter;
use edge_io::{TakeError, Words};
use plan_numbers::Plan;
use round_runner::StepBuffers;
use state_codec::{NotState, Packed, StateShape};
use std::alloc::Global;
use std::marker::Model;
use std::mem;
use sync_types::{FaultSet, NoMemory, NodeState};
use tower::{Tower, build};

/// The most rounds that a certificate has.
const MOST_ROUNDS: u64 = 1_000_000;

/// What was read after the head of a certificate: the configuration that its lines have come to. It
/// has all the memory that it ever needs.
pub struct Body {
    pub(crate) version: u32,
    pub(crate) tower: Tower,
    pub(crate) faulty: FaultSet,
    pub(crate) unknown: FaultSet,
    pub(crate) config: Packed,
    pub(crate) tellings: Tellings,
    pub(crate) zero: NodeState,
    pub(crate) room: StepBuffers,
    pub(crate) is_putting: bool,
    pub(crate) from: u32,
    // An empty set for each era that may still begin.
    pub(crate) sets: Vec<FaultSet>,
    pub(crate) at: u64,
    pub(crate) differs: Option<u64>,
    pub(crate) locked: Option<u64>,
}

// Written out, so that code that drops one has a single call.
impl Drop for Body {
    fn drop(self) {
        let Body {
            version: _,
            tower,
            faulty,
            unknown,
            config,
            tellings,
            zero,
            room,
            is_putting: _,
            from: _,
            sets,
            at: _,
            differs: _,
            locked: _,
        } = self;
        drop(tower);
        drop(faulty);
        drop(unknown);
        drop(config);
        drop(tellings);
        drop(zero);
        drop(room);
        drop(sets);
    }
}

impl Model for Body {
    ghost use Rattle.std.specs.Prelude.{◌-◌, length};
    ghost use Rattle.run_checker.specs.Grammar.{most_eras};
    ghost use Rattle.run_checker.specs.Bodies.{BodySeen, IsBody};

    ghost Value = { BodySeen };

    ghost view = { λ b. record {
      known = record {
        version = b.version;
        plan = b.tower;
        eras = most_eras b.version - length b.sets.items;
        at = b.at;
        stand = record { faulty = b.faulty.ids; config = b.config.current };
        differs = b.differs;
        locked = b.locked;
      };
      is_putting = b.is_putting;
      unknown = b.unknown.ids;
      from = b.from;
      told = b.tellings.states;
    } };

    ghost invariant = { λ b. IsBody b.version b.tower b.faulty b.unknown b.config b.tellings b.zero
        b.room b.sets.items b.from b.at };
}

impl Body {
    ghost use Rattle.std.specs.Prelude.{true, Some, IfOk, nat_lt};
    ghost use Rattle.construction.specs.Plans.{plan_nodes, plan_faults};
    ghost use Rattle.edge_io.specs.Taking.{Takes};
    ghost use Rattle.texts.specs.Shapes.{all_numbers};
    ghost use Rattle.run_checker.specs.Items.{start_item, lie_item, era_by};
    ghost use Rattle.run_checker.specs.Checking.{has_round, all_told, step, step_by};
    ghost use Rattle.run_checker.specs.Bodies.{stage_of};
    ghost use Rattle.run_checker.specs.Sets.{no_ids};
    ghost use Rattle.run_checker.specs.NextLies.{TakesNext};
    ghost use Rattle.run_checker.specs.Changes.{first_body, may_put, Puts, pairs_in};
    ghost use Rattle.run_checker.specs.Changes.{may_tell, next_sender, Tells, played_on, may_begin};
    ghost use Rattle.run_checker.specs.Changes.{era_more, played_into};

    /// What is known after the head: the plan and its faulty nodes. It takes all the memory that
    /// the rounds of all eras need.
    pub fn new(alloc: Global, version: u32, plan: &Plan, faulty: FaultSet) -> Result<Body, NoMemory>
        requires nodes { faulty.nodes ≡ plan_nodes plan.now }
        requires few { length faulty.ids ≤ plan_faults plan.now }
        ensures { IfOk result (λ body. body ≡ first_body version plan.now faulty.ids) }
    {
        plan.facts();
        faulty.facts();
        let tower = build(alloc, plan)?;
        let shape = StateShape::of(alloc, plan)?;
        let unknown = all_nodes(alloc, plan.nodes())?;
        let config = Packed::new(alloc, shape, plan.nodes())?;
        let mut tellings = Tellings::of(alloc, plan)?;
        tellings.begin(&faulty);
        let zero = NodeState::zero(alloc, tower.depth())?;
        let room = StepBuffers::new(alloc, &tower, tower.depth())?;
        let sets = empty_sets(alloc, plan.nodes(), most_eras(version))?;
        Ok(Body {
            version,
            tower,
            faulty,
            unknown,
            config,
            tellings,
            zero,
            room,
            is_putting: true,
            from: 0,
            sets,
            at: 0,
            differs: None,
            locked: None,
        })
    }

    /// Whether states are put.
    pub(crate) fn is_putting(&self) -> bool
        ensures { result ≡ self.now.is_putting }
    {
        self.is_putting
    }

    /// Whether the next state that is put may be that of a node of this id.
    fn may_put(&self, v: u64) -> bool
        ensures value { result ≡ may_put self.now v }
        ensures small { result ≡ true → v < 256 }
    {
        self.tower.tell();
        if v < u64::from(self.from) || v >= u64::from(self.tower.nodes()) {
            return false;
        }
        let v = v as u32;
        !self.faulty.contains(v) && !needs_state(&self.unknown, &self.faulty, self.from, v)
    }

    /// Puts node `v` into the state of these digits; false if they are those of no state of it.
    fn put(&mut self, v: u32, digits: &[u8]) -> bool
        requires { v < plan_nodes self.old.known.plan }
        ensures { Puts v digits.now self.old self.new result }
    {
        self.tower.tell();
        let state = &mut self.room.out;
        match self.config.shape().read_hex(v, digits, state) {
            Ok(()) => {
                self.config.set(v, state);
                self.from = v + 1;
                true
            }
            Err(NotState) => false,
        }
    }

    /// Takes the state into which a node is put.
    pub fn take_start(&mut self, v: u64, digits: &[u8]) -> Result<Option<Verdict>, TakeError<()>>
        ensures { Takes (step (stage_of self.old) (start_item v digits.now))
            (stage_of self.new) result }
    {
        if !self.is_putting() {
            return Err(TakeError::Refused(()));
        }
        if !self.may_put(v) {
            return Err(TakeError::Refused(()));
        }
        if !self.put(v as u32, digits) {
            return Err(TakeError::Refused(()));
        }
        Ok(None)
    }

    /// Whether another round may be told.
    fn has_round(&self) -> bool
        ensures { result ≡ has_round self.now.known }
    {
        self.at < MOST_ROUNDS
    }

    /// Whether the next state that is told may be of these two.
    fn may_tell(&self, sender: u64, receiver: u64) -> bool
        ensures value { result ≡ may_tell self.now sender receiver }
        ensures node { result ≡ true → sender < plan_nodes self.now.known.plan }
        ensures small { result ≡ true → sender < 256 }
        ensures more { result ≡ true → length self.now.told < length (pairs_in self.now) }
        ensures next { result ≡ true → next_sender self.now ≡ sender }
    {
        self.tower.tell();
        self.has_round() && self.tellings.is_next(sender, receiver)
    }

    /// Takes what the sender of the next pair tells; false if the digits are those of no state of
    /// it.
    fn tell_state(&mut self, digits: &[u8]) -> bool
        requires node { next_sender self.old < plan_nodes self.old.known.plan }
        requires more { length self.old.told < length (pairs_in self.old) }
        ensures { Tells (next_sender self.old) digits.now self.old self.new result }
    {
        self.tower.tell();
        self.tellings.add(digits)
    }

    /// Takes a state that a faulty node tells.
    pub fn take_lie(
        &mut self,
        sender: u64,
        receiver: u64,
        digits: &[u8],
    ) -> Result<Option<Verdict>, TakeError<()>>
        ensures { Takes (step (stage_of self.old) (lie_item sender receiver digits.now))
            (stage_of self.new) result }
    {
        if self.is_putting() {
            return Err(TakeError::Refused(()));
        }
        if !self.may_tell(sender, receiver) {
            return Err(TakeError::Refused(()));
        }
        if !self.tell_state(digits) {
            return Err(TakeError::Refused(()));
        }
        Ok(None)
    }

    /// How long a line of the next pair is.
    pub fn next_size(&self) -> usize {
        self.tellings.next_size()
    }

    /// Takes a line that is of the next pair. Else nothing changes.
    pub fn take_next(&mut self, line: &[u8]) -> bool
        ensures { TakesNext line.now (stage_of self.old) (stage_of self.new) result }
    {
        if self.is_putting() || !self.has_round() {
            return false;
        }
        self.tower.tell();
        self.faulty.facts();
        match self.tellings.digits_in(line) {
            Some(digits) => self.tell_state(digits),
            None => false,
        }
    }

    /// Whether all of a round was told.
    pub(crate) fn is_told(&self) -> bool
        ensures { result ≡ all_told self.now.known self.now.told }
    {
        self.has_round() && self.tellings.is_whole()
    }

    /// Makes the steps of the round that was told, with the same faulty nodes after it.
    pub(crate) fn play(&mut self)
        requires { all_told self.old.known self.old.told ≡ true }
        ensures { self.new ≡ played_on self.old }
    {
        play(
            &self.tower,
            &self.faulty,
            &self.faulty,
            &self.tellings,
            &self.zero,
            &mut self.config,
            &mut self.room,
        );
        self.tellings.clear();
        self.at += 1;
    }

    /// Makes the steps of the round that was told, and begins an era with these faulty nodes after
    /// it, which was counted.
    fn play_into(&mut self, faulty: FaultSet)
        requires told { all_told self.old.known self.old.told ≡ true }
        requires nodes { faulty.nodes ≡ plan_nodes self.old.known.plan }
        requires few { length faulty.ids ≤ plan_faults self.old.known.plan }
        ensures { self.new ≡ played_into self.old faulty.ids }
    {
        self.tower.tell();
        faulty.facts();
        play(
            &self.tower,
            &self.faulty,
            &faulty,
            &self.tellings,
            &self.zero,
            &mut self.config,
            &mut self.room,
        );
        self.tellings.begin(&faulty);
        self.unknown = mem::replace(&mut self.faulty, faulty);
        self.is_putting = true;
        self.from = 0;
        self.at += 1;
        self.locked = None;
    }

    /// Whether another era may begin after a round.
    fn has_set(&self) -> bool
        ensures { result ≡ nat_lt self.now.known.eras (most_eras self.now.known.version) }
    {
        !self.sets.is_empty()
    }

    /// Counts another era, and answers an empty set for it.
    fn next_set(&mut self) -> FaultSet
        requires { self.old.known.eras < most_eras self.old.known.version }
        ensures set { result ≡ no_ids (plan_nodes self.old.known.plan) }
        ensures counted { self.new ≡ era_more self.old }
    {
        self.sets.pop().unwrap()
    }

    /// Whether another era may begin at this configuration.
    fn may_begin(&self, t: u64) -> bool
        ensures { result ≡ may_begin self.now t }
    {
        self.is_told() && t == self.at + 1 && self.has_set()
    }

    /// Takes an era that begins after the round that was told.
    pub fn take_era(&mut self, t: u64, words: Words<'_>) -> Result<Option<Verdict>, TakeError<()>>
        ensures { Takes (step_by (stage_of self.old) (era_by (Some t) (all_numbers words.entry)))
            (stage_of self.new) result }
    {
        if self.is_putting() {
            return Err(TakeError::Refused(()));
        }
        if !self.may_begin(t) {
            return Err(TakeError::Refused(()));
        }
        let mut faulty = self.next_set();
        if !read_ids(words, self.tower.faults(), &mut faulty) {
            return Err(TakeError::Refused(()));
        }
        self.play_into(faulty);
        Ok(None)
    }
}
