use crate::{Failed, Sink};
use std::io::Write;

/// A real writer, flushed after each write that took bytes. It tells nothing of its bytes, and
/// counts each failure: a write that fails or takes nothing, and a flush that fails.
#[derive(Drop)]
pub struct StdSink<W> {
    inner: W,
    faults: u64,
}

impl<W: Write> StdSink<W> {
    ghost use Rattle.std.specs.Prelude.{◌≡◌};
    ghost use Rattle.edge_io.specs.Real.{failed_writes, writer_of};

    /// A sink that has counted no fault.
    pub fn new(inner: W) -> StdSink<W>
        ensures faults { failed_writes result ≡ 0 }
        ensures writer { writer_of result ≡ inner }
    {
        StdSink { inner, faults: 0 }
    }
}

impl<W: Write> Sink for StdSink<W> {
    ghost use Rattle.std.specs.Prelude.{◌≡◌, ◌<◌, ◌≤◌, ℕ, length, take, None, OnErr, IfOk};
    ghost use Rattle.std.specs.Io.KnownBytes.{Appends, WriteAppends};
    ghost use Rattle.texts.specs.Causes.{HasCause};
    ghost use Rattle.texts.specs.Growth.{Follows, UsesUp, IsMissed, arrived, plainly};
    ghost use Rattle.edge_io.specs.Memory.{counted};
    ghost use Rattle.edge_io.specs.Real.{failed_writes, writer_of};

    ghost told = { λ s. plainly None (failed_writes s) };

    /// Writes once to the writer and flushes it. A writer that takes nothing has failed, and so has
    /// one whose flush fails.
    fn write(&mut self, bytes: &[u8]) -> Result<usize, Failed>
        requires { 0 < length bytes.now }
        ensures some { IfOk result (λ n. 0 < n) }
        ensures bound { IfOk result (λ n. n ≤ length bytes.now) }
        ensures bytes { WriteAppends None None result bytes.now }
        ensures cause { HasCause (failed_writes self.old) (failed_writes self.new) result }
        ensures follows { Follows (plainly None (failed_writes self.old))
            (plainly None (failed_writes self.new)) }
        ensures uses { UsesUp (plainly None (failed_writes self.old))
            (plainly None (failed_writes self.new)) result bytes.now }
        ensures missed { OnErr result (IsMissed None
            (arrived (plainly None (failed_writes self.new))) bytes.now) }

        // Each failure is counted once.
        ensures counted { OnErr result (failed_writes self.new ≡ counted (failed_writes self.old)) }

        // Of a piece that failed a prefix may have gone to the writer, if the flush failed.
        ensures fewer { OnErr result ((n : ℕ) × (n ≤ length bytes.now)
            × Appends (W.contents (writer_of self.old)) (W.contents (writer_of self.new))
            (take n bytes.now)) }

        // The bytes went to the writer, if that tells them.
        ensures writer { IfOk result (λ n. Appends (W.contents (writer_of self.old))
            (W.contents (writer_of self.new)) (take n bytes.now)) }
    {
        let count = match self.inner.write(bytes) {
            Ok(count) => count,
            Err(_) => 0,
        };
        if count > 0 && self.inner.flush().is_ok() {
            return Ok(count);
        }
        self.faults = self.faults.saturating_add(1);
        Err(Failed)
    }
}
