ghost use Rattle.std.specs.Prelude.{◌≡◌, true, take, ◌+◌, ◌<◌, ◌≤◌, [], ◌∷◌, ◌++◌, IfOk, length};
ghost use Rattle.counting.specs.Values.{count_of, least_above};
ghost use Rattle.counting.specs.Unfinished.{LeastStays};
ghost use Rattle.majority_votes.specs.Outlooks.{IsOutlook};

use majority_votes::{Outlook, Steps, Tally};
use std::alloc::Global;
use std::marker::Model;
use std::sync::ledger::Ledger;
use sync_types::NoMemory;

/// A tally that all receivers of a round share. A value comes into it by a step alone.
#[derive(Drop)]
pub(crate) struct SharedTally {
    tally: Tally,
}

impl Model for SharedTally {
    ghost use Rattle.majority_votes.specs.Votes.{Votes};

    ghost Value = { Votes };

    ghost view = { λ p. p.tally };
}

impl SharedTally {
    /// One without values, with room for so many.
    pub fn new(alloc: Global, capacity: usize) -> Result<SharedTally, NoMemory>
        ensures { IfOk result (λ p. p ≡ record { values = []; capacity = capacity }) }
    {
        let tally = Tally::new(alloc, capacity).map_err(|_| NoMemory)?;
        Ok(SharedTally { tally })
    }

    /// How many values there is room for.
    pub fn capacity(&self) -> usize
        ensures { result ≡ self.now.capacity }
    {
        self.tally.capacity()
    }

    /// How many values it has.
    pub fn len(&self) -> usize
        ensures exact { result ≡ length self.now.values }
        ensures within { result ≤ self.now.capacity }
    {
        self.tally.len()
    }

    /// Forgets all values.
    pub fn clear(&mut self)
        ensures { self.new ≡ record self.old { values = [] } }
    {
        self.tally.clear();
    }

    /// Adds a value at the end, by a step.
    pub fn place<G: Ledger>(&mut self, value: Option<u64>, steps: &mut Steps<G>)
        requires { length self.old.values < self.old.capacity }
        ensures poll { self.new ≡ record self.old { values = self.old.values ++ value ∷ [] } }
        ensures step { steps.new ≡ steps.old + 1 }
    {
        self.tally.place(value, steps);
    }

    /// Keeps the first `len` values.
    pub fn cut(&mut self, len: usize)
        requires { len ≤ length self.old.values }
        ensures { self.new ≡ record self.old { values = take len self.old.values } }
    {
        self.tally.cut(len);
    }

    /// The number that more than half of the places hold once `more` values have come, if it is
    /// known.
    pub fn majority_with(&self, more: usize) -> Outlook
        requires { length self.now.values + more ≤ self.now.capacity }
        ensures { IsOutlook more self.now.values result }
    {
        self.tally.majority_with(more)
    }

    /// Whether the least number that more than `f` places hold is sure to stay once `more` values
    /// have come. If the answer is false, nothing is known.
    pub fn is_least_fixed(&self, f: usize, more: usize) -> bool
        ensures { result ≡ true
            → LeastStays f more self.now.values (least_above f self.now.values) }
    {
        self.tally.is_least_fixed(f, more)
    }

    /// How many places hold the value.
    pub fn count_of(&self, value: Option<u64>) -> usize
        ensures { result ≡ count_of self.now.values value }
    {
        self.tally.count_of(value)
    }

    /// The least number that more than `f` places hold.
    pub fn least_above(&self, f: usize) -> Option<u64>
        ensures { result ≡ least_above f self.now.values }
    {
        self.tally.least_above(f)
    }
}
