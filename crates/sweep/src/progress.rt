//! Says how many of many runs were played, while they are.

ghost use Rattle.texts.specs.Growth.{Puts};
ghost use Rattle.std.specs.Prelude.{List, ℕ};
ghost use Rattle.sweep.specs.Progress.{progress_line};

use edge_io::{Piece, Sink, WriteFault, put_all, put_pieces};
use std::marker::Model;

/// How many steps of nodes are made at least between two lines.
const STEPS: u64 = 1 << 24;

/// Blanks over a line. With a name of 13 letters the longest has 64.
const WIPING: &[u8] = b"\r                                                                \r";

/// A line on a sink of its own that says how many of so many runs were played, after the name of
/// the program that plays them. It is rewritten after each 2^24 steps of nodes, by count and not by
/// clock, and wiped when the last run was played.
///
/// If it is off nothing is ever written. A write that fails turns it off, without an error.
#[derive(Drop)]
pub struct Progress<K> {
    name: &'static [u8],
    sink: K,
    is_on: bool,
    is_shown: bool,
    // How many steps were made since the last line.
    steps: u64,
}

impl<K> Model for Progress<K> {
    ghost use Rattle.sweep.specs.Progress.{Saying};

    ghost Value = { Saying K };

    ghost view = { λ p. record {
      name = p.name.now;
      sink = p.sink;
      is_on = p.is_on;
      is_shown = p.is_shown;
    } };
}

/// Writes the line that says that `done` runs of `count` were played.
fn put_line<K: Sink>(sink: &mut K, name: &[u8], done: u64, count: u64) -> Result<(), WriteFault>
    ensures { Puts result (progress_line name.now count done)
        (K.told sink.old) (K.told sink.new) }
{
    put_pieces(
        sink,
        &[
            Piece::Text(b"\r"),
            Piece::Text(name),
            Piece::Text(b": "),
            Piece::Number(done),
            Piece::Text(b" of "),
            Piece::Number(count),
            Piece::Text(b" runs"),
        ],
    )
}

impl<K: Sink> Progress<K> {
    ghost use Rattle.std.specs.Prelude.{◌≡◌, ◌<◌, ℕ, false};
    ghost use Rattle.sweep.specs.Progress.{Saying, SaidSoFar, Says};

    /// Progress of the program of this name, which is said on this sink if it is on.
    pub fn new(name: &'static [u8], sink: K, is_on: bool) -> Progress<K>
        ensures { result ≡ record {
          name = name.now;
          sink = sink;
          is_on = is_on;
          is_shown = false;
        } }
    {
        Progress {
            name,
            sink,
            is_on,
            is_shown: false,
            steps: 0,
        }
    }

    /// Begins: no line stands on the sink.
    pub fn begin(&mut self)
        ensures { self.new ≡ record self.old { is_shown = false } }
    {
        self.is_shown = false;
        self.steps = 0;
    }

    /// Says how far it is, after a run in which nodes made so many steps: `done` runs of `count`
    /// are played. If fewer than 2^24 steps were made since the last line, it stays.
    pub fn say(&mut self, steps: u64, done: u64, count: u64)
        ensures { (start : Saying K) (before : ℕ) → before < done
            → SaidSoFar K.told count before start self.old
            → SaidSoFar K.told count done start self.new }
    {
        self.steps = self.steps.saturating_add(steps);
        if !self.is_on || self.steps < STEPS {
            return;
        }
        self.steps = 0;
        self.is_shown = true;
        match put_line(&mut self.sink, self.name, done, count) {
            Ok(()) => {}
            Err(WriteFault) => self.is_on = false,
        }
    }

    /// Ends: if a line stands, it is wiped.
    pub fn end(&mut self)
        ensures { (start : Saying K) (count : ℕ) → SaidSoFar K.told count count start self.old
            → Says start.name start.is_on count (K.told start.sink) (K.told self.new.sink) }
    {
        if !self.is_on {
            return;
        }
        if !self.is_shown {
            return;
        }
        self.is_shown = false;
        match put_all(&mut self.sink, WIPING) {
            Ok(()) => {}
            Err(WriteFault) => self.is_on = false,
        }
    }
}
