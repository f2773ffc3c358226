ghost use Rattle.std.specs.Prelude.{◌≡◌, ◌+◌, ◌-◌, true, take, ◌<◌, ◌≤◌, [], ◌∷◌, ◌++◌, IfOk};
ghost use Rattle.std.specs.Prelude.{IsTrue, ◌↔◌, length};
ghost use Rattle.counting.specs.Values.{count_of, majority_of, least_above};
ghost use Rattle.counting.specs.Unfinished.{LeastStays};
ghost use Rattle.majority_votes.specs.Outlooks.{IsOutlook};

use crate::counts::{Count, count_less, count_more, places_of};
use crate::steps::Steps;
use std::alloc::{AllocError, Global};
use std::marker::Model;
use std::sync::ledger::Ledger;
use thiserror::Error;

/// Want of memory: what was asked for was not taken.
#[derive(Clone, Copy, Debug, PartialEq, Eq, Error)]
#[error("out of memory")]
pub struct NoMemory;

impl From<AllocError> for NoMemory {
    fn from(_: AllocError) -> Self {
        NoMemory
    }
}

/// What is known of a majority while some values are still to come.
#[derive(Clone, Copy, Debug, PartialEq, Eq)]
pub enum Outlook {
    /// It is this one, whatever comes.
    Is(Option<u64>),
    /// What comes may decide.
    Open,
}

/// A list of values that is counted as it grows. Contracts see the values in order of adding, and
/// the capacity beside them.
#[derive(Debug)]
pub struct Tally {
    capacity: usize,
    values: Vec<Option<u64>>,
    // The distinct numbers among the values in rising order, each with its places.
    counts: Vec<Count>,
    infinities: usize,
}

// Written out, so that code that drops one has a single call.
impl Drop for Tally {
    fn drop(self) {
        let Tally {
            capacity: _,
            values,
            counts,
            infinities: _,
        } = self;
        drop(values);
        drop(counts);
    }
}

impl Model for Tally {
    ghost use Rattle.std.specs.Prelude.{vec_capacity};
    ghost use Rattle.majority_votes.specs.Votes.{Votes};
    ghost use Rattle.majority_votes.specs.Counts.{IsValidTally};

    ghost Value = { Votes };

    ghost view = { λ t. record { values = t.values.items; capacity = t.capacity } };

    ghost invariant = { λ t. IsValidTally t.capacity t.values.items t.counts.items t.infinities
        (vec_capacity t.values) (vec_capacity t.counts) };
}

impl Tally {
    /// An empty tally with room for `capacity` values. It takes all the memory that it will ever
    /// need.
    pub fn new(alloc: Global, capacity: usize) -> Result<Tally, NoMemory>
        ensures { IfOk result (λ t. t ≡ record { values = []; capacity = capacity }) }
    {
        Ok(Tally {
            capacity,
            values: Vec::with_capacity(alloc, capacity)?,
            counts: Vec::with_capacity(alloc, capacity)?,
            infinities: 0,
        })
    }

    /// How many values there is room for.
    pub fn capacity(&self) -> usize
        ensures { result ≡ self.now.capacity }
    {
        self.capacity
    }

    /// How many values were added.
    pub fn len(&self) -> usize
        ensures exact { result ≡ length self.now.values }
        ensures within { result ≤ self.now.capacity }
    {
        self.values.len()
    }

    /// Whether no value was added.
    pub fn is_empty(&self) -> bool
        ensures { IsTrue result ↔ (self.now.values ≡ []) }
    {
        self.values.is_empty()
    }

    /// Forgets all values, and keeps the room.
    pub fn clear(&mut self)
        ensures { self.new ≡ record self.old { values = [] } }
    {
        self.values.clear();
        self.counts.clear();
        self.infinities = 0;
    }

    /// Adds a value at the end; `None` is infinity. There has to be room: fewer values than the
    /// capacity.
    pub fn add(&mut self, value: Option<u64>)
        requires { length self.old.values < self.old.capacity }
        ensures { self.new ≡ record self.old { values = self.old.values ++ value ∷ [] } }
    {
        match value {
            Some(number) => count_more(&mut self.counts, number),
            None => self.infinities += 1,
        }
        self.values.push(value).unwrap();
    }

    /// Adds a value at the end, and counts one step.
    pub fn place<G: Ledger>(&mut self, value: Option<u64>, steps: &mut Steps<G>)
        requires { length self.old.values < self.old.capacity }
        ensures tally { self.new ≡ record self.old { values = self.old.values ++ value ∷ [] } }
        ensures step { steps.new ≡ steps.old + 1 }
    {
        steps.tick();
        self.add(value);
    }

    /// Takes the last value off.
    fn take_last(&mut self)
        requires { 0 < length self.old.values }
        ensures { self.new ≡ record self.old {
          values = take (length self.old.values - 1)
              self.old.values;
        } }
    {
        match self.values.pop() {
            Some(Some(number)) => count_less(&mut self.counts, number),
            Some(None) => self.infinities -= 1,
            None => {}
        }
    }

    /// Keeps the first `len` values, and forgets the others one by one.
    pub fn cut(&mut self, len: usize)
        requires { len ≤ length self.old.values }
        ensures { self.new ≡ record self.old { values = take len self.old.values } }
    {
        for _ in len..self.values.len() {
            self.take_last();
        }
    }

    /// The number that more than half of all places hold, those of infinity counted, or `None` if
    /// there is none.
    pub fn majority(&self) -> Option<u64>
        ensures { result ≡ majority_of self.now.values }
    {
        for count in &self.counts {
            if self.values.len() / 2 < count.places {
                return Some(count.value);
            }
        }
        None
    }

    /// The majority once `more` values have come, if it is the same whatever they are. There is
    /// room for them.
    pub fn majority_with(&self, more: usize) -> Outlook
        requires { length self.now.values + more ≤ self.now.capacity }
        ensures { IsOutlook more self.now.values result }
    {
        let half = (self.values.len() + more) / 2;
        let mut most = 0;
        for count in &self.counts {
            if half < count.places {
                return Outlook::Is(Some(count.value));
            }
            if most < count.places {
                most = count.places;
            }
        }
        if most + more <= half {
            Outlook::Is(None)
        } else {
            Outlook::Open
        }
    }

    /// Whether the least number that more than `f` places hold is sure to stay the same, or to be
    /// absent, once `more` values have come. If the answer is false, nothing is known.
    pub fn is_least_fixed(&self, f: usize, more: usize) -> bool
        ensures { result ≡ true
            → LeastStays f more self.now.values (least_above f self.now.values) }
    {
        if f < more {
            return false;
        }
        for count in &self.counts {
            if count.places > f {
                return true;
            }
            if f - more < count.places {
                return false;
            }
        }
        true
    }

    /// How many places hold the value; `None` is infinity.
    pub fn count_of(&self, value: Option<u64>) -> usize
        ensures { result ≡ count_of self.now.values value }
    {
        match value {
            Some(number) => places_of(&self.counts, number),
            None => self.infinities,
        }
    }

    /// The least number that more than `f` places hold, or `None` if there is none.
    pub fn least_above(&self, f: usize) -> Option<u64>
        ensures { result ≡ least_above f self.now.values }
    {
        for count in &self.counts {
            if f < count.places {
                return Some(count.value);
            }
        }
        None
    }
}
