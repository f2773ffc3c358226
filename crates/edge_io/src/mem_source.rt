ghost use Rattle.std.specs.Prelude.{◌≤◌, drop, vec_len, All};
ghost use Rattle.edge_io.specs.Memory.{MemSourceState};

use crate::cuts::cut;
use crate::{Failed, Source};
use std::marker::Model;

/// Bytes in memory that are read in pieces of given sizes; given calls fail.
pub struct MemSource {
    bytes: Vec<u8>,
    at: usize,
    fails: Vec<u64>,
    cuts: Vec<usize>,
    calls: u64,
    turn: usize,
    faults: u64,
    met: bool,
}

// Written out, so that code that drops one has a single call.
impl Drop for MemSource {
    fn drop(self) {
        let MemSource {
            bytes,
            at: _,
            fails,
            cuts,
            calls: _,
            turn: _,
            faults: _,
            met: _,
        } = self;
        drop(bytes);
        drop(fails);
        drop(cuts);
    }
}

impl Model for MemSource {
    ghost Value = { MemSourceState };

    ghost view = { λ s. record {
      left = drop s.at s.bytes.items;
      fails = s.fails.items;
      cuts = s.cuts.items;
      calls = s.calls;
      turn = s.turn;
      faults = s.faults;
      met = s.met;
    } };

    ghost invariant = { λ s. (s.turn ≤ s.at) × (s.at ≤ vec_len s.bytes)
        × All (λ size. 1 ≤ size) s.cuts.items };
}

impl MemSource {
    ghost use Rattle.std.specs.Prelude.{◌≡◌, ◌≤◌, false, All};

    /// A source of these bytes. The calls whose numbers are in `fails` fail, counted from 1, the
    /// number standing still at 2^64 - 1.
    ///
    /// The sizes in `cuts`, each at least 1, are used round and round: each call that reads bytes
    /// reads no more than the next of them. If the list is empty, nothing is cut.
    pub fn new(bytes: Vec<u8>, fails: Vec<u64>, cuts: Vec<usize>) -> MemSource
        requires { All (λ size. 1 ≤ size) cuts.items }
        ensures { result ≡ record {
          left = bytes.items;
          fails = fails.items;
          cuts = cuts.items;
          calls = 0;
          turn = 0;
          faults = 0;
          met = false;
        } }
    {
        MemSource {
            bytes,
            at: 0,
            fails,
            cuts,
            calls: 0,
            turn: 0,
            faults: 0,
            met: false,
        }
    }
}

impl Source for MemSource {
    ghost use Rattle.std.specs.Prelude.{◌≡◌, ◌<◌, length, min, Some, Contains, OnOk, OnErr, IfOk};
    ghost use Rattle.std.specs.Prelude.{MatchResult};
    ghost use Rattle.std.specs.Io.{ReadsAtMost};
    ghost use Rattle.std.specs.Io.KnownBytes.{ReadConsumes};
    ghost use Rattle.texts.specs.Causes.{HasCause};
    ghost use Rattle.edge_io.specs.Reading.{MeetsEnd};
    ghost use Rattle.edge_io.specs.Memory.{counted, moved, after_read, after_failed_read};

    ghost left = { λ s. Some s.left };

    ghost faults = { λ s. s.faults };

    ghost met = { λ s. s.met };

    /// Reads as many bytes as the buffer, the bytes that are left and the next cut allow. `Failed`
    /// comes exactly at the listed calls.
    fn read(&mut self, buf: &mut [u8]) -> Result<usize, Failed>
        requires { 0 < length buf.old }
        ensures bound { ReadsAtMost result buf.new }
        ensures bytes { ReadConsumes (Some self.old.left) (Some self.new.left) result buf.new }
        ensures cause { HasCause self.old.faults self.new.faults result }
        ensures met { MeetsEnd result self.old.met self.new.met }

        ensures listed { OnErr result (Contains self.old.fails (counted self.old.calls)) }
        ensures unlisted { OnOk result (Contains self.old.fails (counted self.old.calls) → ⊥) }
        ensures count { IfOk result (λ n. n
            ≡ moved self.old.cuts self.old.turn (min (length buf.old) (length self.old.left))) }
        ensures state { MatchResult result (λ n. self.new ≡ after_read self.old n) (λ _. self.new
            ≡ after_failed_read self.old) }
    {
        self.calls = self.calls.saturating_add(1);
        if self.fails.contains(&self.calls) {
            self.faults = self.faults.saturating_add(1);
            return Err(Failed);
        }
        let most = buf.len().min(self.bytes.len() - self.at);
        if most == 0 {
            self.met = true;
            return Ok(0);
        }
        let count = cut(&self.cuts, self.turn, most);
        buf[..count].copy_from_slice(&self.bytes[self.at..self.at + count]);
        self.at += count;
        self.turn += 1;
        Ok(count)
    }
}
