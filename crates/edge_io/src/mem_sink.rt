ghost use Rattle.std.specs.Prelude.{◌≤◌, vec_len, vec_capacity, All};
ghost use Rattle.edge_io.specs.Memory.{MemSinkState};

use crate::cuts::cut;
use crate::{Failed, Sink};
use std::alloc::{AllocError, Global};
use std::marker::Model;
use thiserror::Error;

/// Memory ran out.
#[derive(Clone, Copy, Debug, PartialEq, Eq, Error)]
#[error("out of memory")]
pub struct NoMemory;

/// Room in memory that is filled in pieces of given sizes; given calls fail.
pub struct MemSink {
    taken: Vec<u8>,
    room: usize,
    fails: Vec<u64>,
    cuts: Vec<usize>,
    calls: u64,
    turn: usize,
    faults: u64,
}

// Written out, so that code that drops one has a single call.
impl Drop for MemSink {
    fn drop(self) {
        let MemSink {
            taken,
            room: _,
            fails,
            cuts,
            calls: _,
            turn: _,
            faults: _,
        } = self;
        drop(taken);
        drop(fails);
        drop(cuts);
    }
}

impl Model for MemSink {
    ghost Value = { MemSinkState };

    ghost view = { λ s. record {
      taken = s.taken.items;
      room = s.room;
      fails = s.fails.items;
      cuts = s.cuts.items;
      calls = s.calls;
      turn = s.turn;
      faults = s.faults;
    } };

    ghost invariant = { λ s. (s.turn ≤ vec_len s.taken) × (vec_len s.taken ≤ s.room)
        × (s.room ≤ vec_capacity s.taken) × All (λ size. 1 ≤ size) s.cuts.items };
}

impl MemSink {
    ghost use Rattle.std.specs.Prelude.{◌≡◌, ◌≤◌, [], All, IfOk};

    /// An empty sink that has memory for `room` bytes, and takes no more memory later. The calls
    /// whose numbers are in `fails` fail, counted from 1, the number standing still at 2^64 - 1.
    ///
    /// The sizes in `cuts`, each at least 1, are used round and round: each call that takes bytes
    /// takes no more than the next of them. If the list is empty, nothing is cut.
    pub fn new(
        alloc: Global,
        room: usize,
        fails: Vec<u64>,
        cuts: Vec<usize>,
    ) -> Result<MemSink, NoMemory>
        requires { All (λ size. 1 ≤ size) cuts.items }
        ensures { IfOk result (λ s. s ≡ record {
          taken = [];
          room = room;
          fails = fails.items;
          cuts = cuts.items;
          calls = 0;
          turn = 0;
          faults = 0;
        }) }
    {
        let taken = match Vec::with_capacity(alloc, room) {
            Ok(taken) => taken,
            Err(AllocError) => return Err(NoMemory),
        };
        Ok(MemSink {
            taken,
            room,
            fails,
            cuts,
            calls: 0,
            turn: 0,
            faults: 0,
        })
    }

    /// The bytes that were taken so far.
    pub fn taken(&self) -> &[u8]
        ensures { result.now ≡ self.now.taken }
    {
        &self.taken
    }
}

impl Sink for MemSink {
    ghost use Rattle.std.specs.Prelude.{◌≡◌, ◌<◌, ◌≤◌, ◌-◌, ◌⊎◌, length, take, min, Some, Contains};
    ghost use Rattle.std.specs.Prelude.{OnOk, OnErr, IfOk, MatchResult};
    ghost use Rattle.std.specs.Io.KnownBytes.{WriteAppends};
    ghost use Rattle.texts.specs.Causes.{HasCause};
    ghost use Rattle.texts.specs.Growth.{Follows, UsesUp, IsMissed, arrived};
    ghost use Rattle.edge_io.specs.Memory.{counted, moved, after_write, after_failed_write};
    ghost use Rattle.edge_io.specs.Memory.{memory_told};

    ghost told = { λ s. memory_told s };

    /// Takes as many bytes as the piece, the room that is left and the next cut allow. `Failed`
    /// comes exactly at the listed calls and if no room is left.
    fn write(&mut self, bytes: &[u8]) -> Result<usize, Failed>
        requires { 0 < length bytes.now }
        ensures some { IfOk result (λ n. 0 < n) }
        ensures bound { IfOk result (λ n. n ≤ length bytes.now) }
        ensures bytes { WriteAppends (Some self.old.taken) (Some self.new.taken) result bytes.now }
        ensures cause { HasCause self.old.faults self.new.faults result }
        ensures follows { Follows (memory_told self.old) (memory_told self.new) }
        ensures uses { UsesUp (memory_told self.old) (memory_told self.new) result bytes.now }
        ensures missed { OnErr result (IsMissed (Some self.old.taken)
            (arrived (memory_told self.new)) bytes.now) }

        ensures listed { OnErr result (Contains self.old.fails (counted self.old.calls) ⊎
            (length self.old.taken ≡ self.old.room)) }
        ensures unlisted { OnOk result (Contains self.old.fails (counted self.old.calls) → ⊥) }
        ensures in_room { OnOk result (length self.old.taken < self.old.room) }
        ensures count { IfOk result (λ n. n
            ≡ moved self.old.cuts self.old.turn
            (min (length bytes.now) (self.old.room - length self.old.taken))) }
        ensures state { MatchResult result (λ n. self.new ≡ after_write self.old (take n bytes.now))
            (λ _. self.new ≡ after_failed_write self.old) }
    {
        self.calls = self.calls.saturating_add(1);
        let room = self.room - self.taken.len();
        if room == 0 || self.fails.contains(&self.calls) {
            self.faults = self.faults.saturating_add(1);
            return Err(Failed);
        }
        let count = cut(&self.cuts, self.turn, bytes.len().min(room));
        self.taken.extend_from_slice(&bytes[..count]).unwrap();
        self.turn += 1;
        Ok(count)
    }
}
