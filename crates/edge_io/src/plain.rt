use crate::{Failed, Sink, Source};
use std::marker::Model;

/// Bytes in memory that are read in pieces as large as the buffer, and of which no read fails.
#[derive(Drop)]
pub struct PlainSource<'a> {
    rest: &'a [u8],
}

impl<'a> Model for PlainSource<'a> {
    ghost use Rattle.std.specs.Prelude.{List, ℕ};

    ghost Value = { List ℕ };

    ghost view = { λ s. s.rest.now };
}

impl<'a> PlainSource<'a> {
    ghost use Rattle.std.specs.Prelude.{◌≡◌};

    /// A source of these bytes.
    pub fn new(bytes: &'a [u8]) -> PlainSource<'a>
        ensures { result ≡ bytes.now }
    {
        PlainSource { rest: bytes }
    }
}

impl<'a> Source for PlainSource<'a> {
    ghost use Rattle.std.specs.Prelude.{◌≡◌, ◌<◌, length, drop, min, true, Some, Ok};
    ghost use Rattle.std.specs.Io.{ReadsAtMost};
    ghost use Rattle.std.specs.Io.KnownBytes.{ReadConsumes};
    ghost use Rattle.texts.specs.Causes.{HasCause};
    ghost use Rattle.edge_io.specs.Reading.{MeetsEnd};

    ghost left = { λ s. Some s };

    ghost faults = { λ s. 0 };

    /// No read fails, before the end or after it, so that it counts as met from the start.
    ghost met = { λ s. true };

    /// Reads as many bytes as there are, and as the buffer has room for.
    fn read(&mut self, buf: &mut [u8]) -> Result<usize, Failed>
        requires { 0 < length buf.old }
        ensures bound { ReadsAtMost result buf.new }
        ensures bytes { ReadConsumes (Some self.old) (Some self.new) result buf.new }
        ensures cause { HasCause 0 0 result }
        ensures met { MeetsEnd result true true }

        ensures count { result ≡ Ok (min (length buf.old) (length self.old)) }
        ensures left { self.new ≡ drop (min (length buf.old) (length self.old)) self.old }
    {
        let count = buf.len().min(self.rest.len());
        buf[..count].copy_from_slice(&self.rest[..count]);
        self.rest = &self.rest[count..];
        Ok(count)
    }
}

/// A sink that takes all bytes, keeps none of them and counts them, up to 2^64 - 1. No write fails.
#[derive(Drop)]
pub struct NullSink {
    count: u64,
}

impl Model for NullSink {
    ghost use Rattle.std.specs.Prelude.{ℕ};

    ghost Value = { ℕ };

    ghost view = { λ s. s.count };
}

impl NullSink {
    ghost use Rattle.std.specs.Prelude.{◌≡◌};

    /// A sink that has taken nothing.
    pub fn new() -> NullSink
        ensures { result ≡ 0 }
    {
        NullSink { count: 0 }
    }

    /// How many bytes it has taken, up to 2^64 - 1.
    pub fn count(&self) -> u64
        ensures { result ≡ self.now }
    {
        self.count
    }
}

impl Sink for NullSink {
    ghost use Rattle.std.specs.Prelude.{◌≡◌, ◌<◌, ◌≤◌, ◌+◌, ◌-◌, ◌^◌, length, min, None, Ok, IfOk};
    ghost use Rattle.std.specs.Prelude.{OnErr};
    ghost use Rattle.std.specs.Io.KnownBytes.{WriteAppends};
    ghost use Rattle.texts.specs.Causes.{HasCause};
    ghost use Rattle.texts.specs.Growth.{Follows, UsesUp, IsMissed, arrived, plainly};

    ghost told = { λ s. plainly None 0 };

    /// Takes the whole piece.
    fn write(&mut self, bytes: &[u8]) -> Result<usize, Failed>
        requires { 0 < length bytes.now }
        ensures some { IfOk result (λ n. 0 < n) }
        ensures bound { IfOk result (λ n. n ≤ length bytes.now) }
        ensures bytes { WriteAppends None None result bytes.now }
        ensures cause { HasCause 0 0 result }
        ensures follows { Follows (plainly None 0) (plainly None 0) }
        ensures uses { UsesUp (plainly None 0) (plainly None 0) result bytes.now }
        ensures missed { OnErr result (IsMissed None (arrived (plainly None 0)) bytes.now) }

        ensures all { result ≡ Ok (length bytes.now) }
        ensures counted { self.new ≡ min (self.old + length bytes.now) (2 ^ 64 - 1) }
    {
        self.count = self.count.saturating_add(bytes.len() as u64);
        Ok(bytes.len())
    }
}
