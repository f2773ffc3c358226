//! What is counted, while runs are played.

ghost use Rattle.std.specs.Prelude.{◌≡◌, ◌+◌, ◌<◌, ◌^◌, replicate, IfOk};
ghost use Rattle.sweep.specs.Tallies.{nothing, with_run};

use std::alloc::Global;
use std::marker::Model;
use sync_types::NoMemory;

/// How many runs there are of a kind, and the least of the numbers of their keys.
#[derive(Clone, Copy, Debug, PartialEq, Eq)]
pub struct Found {
    /// How many.
    pub runs: u64,
    /// The least number, if there is a run.
    pub seed: Option<u64>,
}

/// No run.
const NOTHING: Found = Found {
    runs: 0,
    seed: None,
};

impl Found {
    /// With one more run, of this number. The numbers rise.
    fn with_run(self, seed: u64) -> Found
        ensures { result ≡ with_run self seed }
    {
        Found {
            runs: self.runs.saturating_add(1),
            seed: self.seed.or(Some(seed)),
        }
    }
}

/// The runs of an era: how many there are of each first locked configuration, and of none.
#[derive(Drop)]
pub struct EraTally {
    first: u64,
    // Of the configurations of the era, by their place.
    locked: Vec<Found>,
    unlocked: Found,
}

impl Model for EraTally {
    ghost use Rattle.std.specs.Prelude.{◌+◌, ◌<◌, ◌^◌, length};
    ghost use Rattle.sweep.specs.Tallies.{EraRuns};

    ghost Value = { EraRuns };

    ghost view = { λ t. record {
      first = t.first;
      locked = t.locked.items;
      unlocked = t.unlocked;
    } };

    ghost invariant = { λ t. t.first + length t.locked.items < 2 ^ 64 };
}

impl EraTally {
    ghost use Rattle.std.specs.Prelude.{ℕ, List, Option, length, ◌++◌, ◌∷◌, []};
    ghost use Rattle.std.specs.Prelude.{slice_index_or};
    ghost use Rattle.sweep.specs.Tallies.{AreRuns, IsWithin, with_lock};

    /// No runs of an era that begins with this configuration and has so many.
    pub fn new(alloc: Global, first: u64, size: usize) -> Result<EraTally, NoMemory>
        requires { first + size < 2 ^ 64 }
        ensures { IfOk result (λ tally. tally ≡ record {
          first = first;
          locked = replicate size nothing;
          unlocked = nothing;
        }) }
    {
        let locked = vec![in alloc; NOTHING; size]?;
        Ok(EraTally {
            first,
            locked,
            unlocked: NOTHING,
        })
    }

    /// Adds a run with this first locked configuration.
    fn add(&mut self, locked: Option<u64>, seed: u64)
        requires { IsWithin self.old locked }
        ensures { self.new ≡ with_lock self.old locked seed }
    {
        match locked {
            Some(t) => {
                let place = (t - self.first) as usize;
                self.locked[place] = self.locked[place].with_run(seed);
            }
            None => self.unlocked = self.unlocked.with_run(seed),
        }
    }

    /// Notes the first locked configuration of the run with the key of this number. The numbers
    /// rise.
    pub fn note(&mut self, locked: Option<u64>, seed: u64)
        requires { IsWithin self.old locked }
        ensures runs { (lock : ℕ → Option ℕ) (first size : ℕ) (seeds : List ℕ)
            → length seeds + 1 < 2 ^ 64 → lock seed ≡ locked
            → AreRuns lock first size seeds self.old
            → AreRuns lock first size (seeds ++ seed ∷ []) self.new }
        ensures first { self.new.first ≡ self.old.first }
        ensures size { length self.new.locked ≡ length self.old.locked }
    {
        self.add(locked, seed);
    }

    /// The first configuration of the era.
    pub fn first(&self) -> u64
        ensures { result ≡ self.now.first }
    {
        self.first
    }

    /// The configuration of the era that is at a place.
    pub fn configuration(&self, place: usize) -> u64
        requires { place < length self.now.locked }
        ensures { result ≡ self.now.first + place }
    {
        self.first + place as u64
    }

    /// How many configurations the era has.
    pub fn size(&self) -> usize
        ensures { result ≡ length self.now.locked }
    {
        self.locked.len()
    }

    /// The runs that first lock with the configuration at a place.
    pub fn locked_at(&self, place: usize) -> Found
        requires { place < length self.now.locked }
        ensures { result ≡ slice_index_or self.now.locked place nothing }
    {
        self.locked[place]
    }

    /// The runs that have none.
    pub fn unlocked(&self) -> Found
        ensures { result ≡ self.now.unlocked }
    {
        self.unlocked
    }
}
