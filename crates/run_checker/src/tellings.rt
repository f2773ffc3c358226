ghost use Rattle.std.specs.Prelude.{[], ◌≡◌, ◌<◌, ◌≤◌, ◌+◌, ◌*◌, ◌^◌, ◌++◌};
ghost use Rattle.std.specs.Prelude.{false, length, drop, map, All, IfOk, IfSome, nat_eq, ◌==◌};
ghost use Rattle.std.specs.Prelude.{vec_capacity};
ghost use Rattle.run_checker.specs.Grammar.{pairs_of};
ghost use Rattle.round_runner.specs.Locks.{correct_nodes};
ghost use Rattle.run_checker.specs.Checking.{is_next};
ghost use Rattle.construction.specs.Steps.{state_of};
ghost use Rattle.state_codec.specs.Shapes.{shape_of, shape_nodes};
ghost use Rattle.run_checker.specs.Tellings.{most_pairs, AddsState};
ghost use Rattle.run_checker.specs.NextLies.{IsNextLine};

use crate::digits::Digits;
use crate::pairs::Pair;
use plan_numbers::Plan;
use state_codec::StateShape;
use std::alloc::Global;
use std::marker::Model;
use sync_types::{FaultSet, NoMemory, NodeState};

/// No state of a plan has more bytes than 32, and eight bytes more are read with one.
const ROOM: usize = 40;

/// Adds the pairs of one faulty node with each correct one.
fn add_pairs(sender: u32, faulty: &FaultSet, pairs: &mut Vec<Pair>)
    requires { length pairs.old.items + length (correct_nodes faulty.now.nodes faulty.now.ids)
        ≤ vec_capacity pairs.old }
    ensures pairs { pairs.new.items ≡ pairs.old.items
        ++ map (λ v. (sender, v)) (correct_nodes faulty.now.nodes faulty.now.ids) }
    ensures room { vec_capacity pairs.old ≤ vec_capacity pairs.new }
{
    for v in 0..faulty.nodes() {
        if !faulty.contains(v) {
            pairs.push(Pair::new(sender, v)).unwrap();
        }
    }
}

/// Takes each faulty node with each correct one, by sender and then by receiver, in place of the
/// pairs before.
fn take_pairs(faulty: &FaultSet, pairs: &mut Vec<Pair>)
    requires { length (pairs_of faulty.now.nodes faulty.now.ids) ≤ vec_capacity pairs.old }
    ensures pairs { pairs.new.items ≡ pairs_of faulty.now.nodes faulty.now.ids }
    ensures senders { All (λ pair. pair.0 < faulty.now.nodes) pairs.new.items }
    ensures room { vec_capacity pairs.old ≤ vec_capacity pairs.new }
{
    faulty.facts();
    pairs.clear();
    for i in 0..faulty.len() {
        add_pairs(faulty.at(i), faulty, pairs);
    }
}

/// Room for so many states.
fn rooms(alloc: Global, count: usize) -> Result<Vec<Digits>, NoMemory>
    ensures { IfOk result (λ rooms. length rooms.items ≡ count) }
{
    let mut rooms = Vec::with_capacity(alloc, count)?;
    for _ in 0..count {
        rooms.push(Digits::zeros(0)).map_err(|_| NoMemory)?;
    }
    Ok(rooms)
}

/// Whether pair `k` is that of these two.
fn is_pair_at(pairs: &[Pair], k: usize, sender: u64, receiver: u64) -> bool
    ensures { result ≡ is_next sender receiver (drop k pairs.now) }
{
    match pairs.get(k) {
        Some(pair) => {
            u64::from(pair.sender()) == sender && u64::from(pair.receiver()) == receiver
        }
        None => false,
    }
}

/// Whether there are so many pairs.
fn is_count(pairs: &[Pair], k: usize) -> bool
    ensures { result ≡ nat_eq k (length pairs.now) }
{
    k == pairs.len()
}

/// What the faulty nodes of a round tell, of which so much was read. It is kept as digits: no node
/// heeds most of it. There is room for so many pairs, whatever they are.
pub struct Tellings {
    shape: StateShape,
    pairs: Vec<Pair>,
    digits: Vec<Digits>,
    count: usize,
}

// Written out, so that code that drops one has a single call.
impl Drop for Tellings {
    fn drop(self) {
        let Tellings {
            shape,
            pairs,
            digits,
            count: _,
        } = self;
        drop(shape);
        drop(pairs);
        drop(digits);
    }
}

impl Model for Tellings {
    ghost use Rattle.std.specs.Prelude.{length, take, vec_capacity};
    ghost use Rattle.run_checker.specs.Tellings.{Telling, IsTelling, states_read};

    ghost Value = { Telling };

    ghost view = { λ t. record {
      pairs = t.pairs.items;
      shape = t.shape;
      states = states_read t.shape t.pairs.items (take t.count t.digits.items);
      room = length t.digits.items;
    } };

    ghost invariant = { λ t. IsTelling t.shape t.pairs.items t.digits.items t.count
        (vec_capacity t.pairs) };
}

impl Tellings {
    /// No pair. It takes all the memory that is needed for what the faulty nodes of any era of a
    /// plan tell in one round.
    pub fn of(alloc: Global, plan: &Plan) -> Result<Tellings, NoMemory>
        ensures { IfOk result (λ told. told ≡ record {
          pairs = [];
          shape = shape_of plan.now;
          states = [];
          room = most_pairs plan.now;
        }) }
    {
        plan.facts();
        let shape = StateShape::of(alloc, plan)?;
        let faults = plan.faults() as usize;
        let most = faults * (plan.nodes() as usize - faults);
        let pairs = Vec::with_capacity(alloc, most)?;
        let digits = rooms(alloc, most)?;
        Ok(Tellings {
            shape,
            pairs,
            digits,
            count: 0,
        })
    }

    /// Forgets what was told.
    pub fn clear(&mut self)
        ensures { self.new ≡ record self.old { states = [] } }
    {
        self.count = 0;
    }

    /// Begins a round with these faulty nodes.
    pub fn begin(&mut self, faulty: &FaultSet)
        requires nodes { faulty.now.nodes ≡ shape_nodes self.old.shape }
        requires room { length (pairs_of faulty.now.nodes faulty.now.ids) ≤ self.old.room }
        ensures value { self.new ≡ record self.old {
          pairs = pairs_of faulty.now.nodes faulty.now.ids;
          states = [];
        } }
        ensures senders { All (λ pair. pair.0 < faulty.now.nodes) self.new.pairs }
    {
        self.count = 0;
        take_pairs(faulty, &mut self.pairs);
        for k in 0..self.pairs.len() {
            let bytes = self.shape.bytes_of(self.pairs[k].sender());
            self.digits[k] = Digits::zeros(bytes);
        }
    }

    /// Whether the next pair is that of these two.
    pub fn is_next(&self, sender: u64, receiver: u64) -> bool
        ensures { result ≡ is_next sender receiver (drop (length self.now.states) self.now.pairs) }
    {
        is_pair_at(&self.pairs, self.count, sender, receiver)
    }

    /// How long a line of the next pair is; if none is left, 0.
    pub fn next_size(&self) -> usize {
        if self.count >= self.pairs.len() {
            return 0;
        }
        self.pairs[self.count].front_len() + self.digits[self.count].count()
    }

    /// What stands in a line in the place of the next pair's digits, if it is a line of that.
    pub fn digits_in<'a>(&self, line: &'a [u8]) -> Option<&'a [u8]>
        ensures { IfSome result (λ digits. IsNextLine self.now line.now digits.now) }
    {
        if self.count >= self.pairs.len() {
            return None;
        }
        self.pairs[self.count].digits_in(line)
    }

    /// How much was told.
    pub fn count(&self) -> usize
        ensures value { result ≡ length self.now.states }
        ensures most { result < 2 ^ 64 }
    {
        self.count
    }

    /// Whether nothing was told.
    pub fn is_empty(&self) -> bool
        ensures { result ≡ (length self.now.states == 0) }
    {
        self.count == 0
    }

    /// Whether all was told.
    pub fn is_whole(&self) -> bool
        ensures { result ≡ nat_eq (length self.now.states) (length self.now.pairs) }
    {
        is_count(&self.pairs, self.count)
    }

    /// Takes what the sender of the next pair tells: false if the digits are not those of a state
    /// of it.
    pub fn add(&mut self, digits: &[u8]) -> bool
        requires { length self.old.states < length self.old.pairs }
        ensures { AddsState digits.now self.old self.new result }
    {
        if !self.digits[self.count].take(digits) {
            return false;
        }
        self.count += 1;
        true
    }

    /// Reads what was told for pair `k` into `out`.
    pub fn read(&self, k: usize, out: &mut NodeState)
        requires told { k < length self.now.states }
        requires depth { length out.old.registers ≡ self.now.shape.depth }
        ensures { out.new ≡ state_of self.now.states k }
    {
        let sender = self.pairs[k].sender();
        let mut bytes = [0; ROOM];
        self.digits[k].decode(&mut bytes);
        self.shape.read_front(sender, &bytes, out);
    }
}
