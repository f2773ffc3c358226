//! Sources and sinks that are watched: how many bytes they had moved when they were called, and
//! whether they were called again after they had failed.

use edge_io::{Failed, Sink, Source};
use std::alloc::{AllocError, Global};

/// What was seen of the calls of a source or a sink.
pub struct Calls {
    /// How many bytes were moved before each call.
    pub before: Vec<usize>,
    moved: usize,
    failed: bool,
    /// Whether there was a call after one that failed.
    pub went_on: bool,
    /// Whether there was memory to note them all.
    pub noted: Result<(), AllocError>,
}

// Written out, so that code that drops one has a single call.
impl Drop for Calls {
    fn drop(self) {
        let Calls {
            before,
            moved: _,
            failed: _,
            went_on: _,
            noted: _,
        } = self;
        drop(before);
    }
}

impl Calls {
    fn new(alloc: Global) -> Calls {
        Calls {
            before: Vec::new(alloc),
            moved: 0,
            failed: false,
            went_on: false,
            noted: Ok(()),
        }
    }

    /// Notes that a call begins.
    fn begin(&mut self) {
        self.went_on = self.went_on || self.failed;
        if self.before.push(self.moved).is_err() {
            self.noted = Err(AllocError);
        }
    }

    /// Notes what a call answered.
    fn end(&mut self, moved: &Result<usize, Failed>) {
        match moved {
            Ok(count) => self.moved = self.moved.saturating_add(*count),
            Err(Failed) => self.failed = true,
        }
    }
}

/// A source or a sink that is watched.
#[derive(Drop)]
pub struct Watched<I> {
    pub inner: I,
    pub calls: Calls,
}

impl<I> Watched<I> {
    /// A source or a sink that was not called yet.
    pub fn new(alloc: Global, inner: I) -> Watched<I> {
        Watched {
            inner,
            calls: Calls::new(alloc),
        }
    }
}

impl<S: Source> Source for Watched<S> {
    ghost left = { λ w. S.left w.inner };

    ghost faults = { λ w. S.faults w.inner };

    ghost met = { λ w. S.met w.inner };

    fn read(&mut self, buf: &mut [u8]) -> Result<usize, Failed> {
        self.calls.begin();
        let read = self.inner.read(buf);
        self.calls.end(&read);
        read
    }
}

impl<K: Sink> Sink for Watched<K> {
    ghost told = { λ w. K.told w.inner };

    fn write(&mut self, bytes: &[u8]) -> Result<usize, Failed> {
        self.calls.begin();
        let written = self.inner.write(bytes);
        self.calls.end(&written);
        written
    }
}
