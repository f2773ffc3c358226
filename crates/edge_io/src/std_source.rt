use crate::{Failed, Source};
use std::io::Read;

/// A real reader. It tells nothing of its bytes, and counts each error, that of an interrupted call
/// too.
#[derive(Drop)]
pub struct StdSource<R> {
    inner: R,
    faults: u64,
    ended: bool,
}

impl<R: Read> StdSource<R> {
    ghost use Rattle.std.specs.Prelude.{◌≡◌, false};
    ghost use Rattle.edge_io.specs.Real.{failed_reads, has_ended, reader_of};

    /// A source that has counted no fault.
    pub fn new(inner: R) -> StdSource<R>
        ensures faults { failed_reads result ≡ 0 }
        ensures open { has_ended result ≡ false }
        ensures reader { reader_of result ≡ inner }
    {
        StdSource {
            inner,
            faults: 0,
            ended: false,
        }
    }
}

impl<R: Read> Source for StdSource<R> {
    ghost use Rattle.std.specs.Prelude.{◌≡◌, ◌<◌, length, true, false, None, Ok, OnOk, OnErr, IfOk};
    ghost use Rattle.std.specs.Prelude.{◌==◌};
    ghost use Rattle.std.specs.Io.{ReadsAtMost};
    ghost use Rattle.std.specs.Io.KnownBytes.{Keeps, ReadConsumes};
    ghost use Rattle.texts.specs.Causes.{HasCause};
    ghost use Rattle.edge_io.specs.Memory.{counted};
    ghost use Rattle.edge_io.specs.Reading.{MeetsEnd};
    ghost use Rattle.edge_io.specs.Real.{failed_reads, has_ended, reader_of};

    ghost left = { λ s. None };

    ghost faults = { λ s. failed_reads s };

    ghost met = { λ s. has_ended s };

    /// Reads once from the reader, and answers 0 for good after its first 0, without asking the
    /// reader again: then the end is met.
    fn read(&mut self, buf: &mut [u8]) -> Result<usize, Failed>
        requires { 0 < length buf.old }
        ensures bound { ReadsAtMost result buf.new }
        ensures bytes { ReadConsumes None None result buf.new }
        ensures cause { HasCause (failed_reads self.old) (failed_reads self.new) result }
        ensures met { MeetsEnd result (has_ended self.old) (has_ended self.new) }

        // Each error is counted once, and is not the end.
        ensures counted { OnErr result (failed_reads self.new ≡ counted (failed_reads self.old)) }
        ensures open { OnErr result (has_ended self.new ≡ false) }
        ensures kept { OnErr result (Keeps (R.remaining (reader_of self.old))
            (R.remaining (reader_of self.new))) }

        // The end is where a read gave nothing, and stays so.
        ensures ends { IfOk result (λ n. has_ended self.new ≡ (n == 0)) }
        ensures ended { has_ended self.old ≡ true → result ≡ Ok 0 }
        ensures unasked { has_ended self.old ≡ true → self.new ≡ self.old }

        // Before it the bytes are those of the reader, if that tells them.
        ensures reader { has_ended self.old ≡ false
            → OnOk result (ReadConsumes (R.remaining (reader_of self.old))
            (R.remaining (reader_of self.new)) result buf.new) }
    {
        if self.ended {
            return Ok(0);
        }
        match self.inner.read(buf) {
            Ok(count) => {
                self.ended = count == 0;
                Ok(count)
            }
            Err(_) => {
                self.faults = self.faults.saturating_add(1);
                Err(Failed)
            }
        }
    }
}
