ghost use Rattle.std.specs.Prelude.{◌<◌, ◌≤◌, List, ℕ, Bool, length, IfOk, OnErr};
ghost use Rattle.std.specs.declared.option.Option.{Option};
ghost use Rattle.std.specs.Io.{ReadsAtMost};
ghost use Rattle.std.specs.Io.KnownBytes.{ReadConsumes, WriteAppends};
ghost use Rattle.texts.specs.Causes.{HasCause};
ghost use Rattle.texts.specs.Growth.{SinkState, Follows, UsesUp, IsMissed, arrived};
ghost use Rattle.edge_io.specs.Reading.{MeetsEnd};

use thiserror::Error;

/// A read or a write that failed. The source or the sink has counted it.
#[derive(Clone, Copy, Debug, PartialEq, Eq, Error)]
#[error("a read or a write failed")]
pub struct Failed;

/// Bytes that are read in pieces, from the beginning to the end.
pub trait Source {
    /// The bytes that are not yet read, if the source tells them.
    ghost left: { Self → Option (List ℕ) };

    /// How many reads have failed, up to 2 ^ 64 - 1.
    ghost faults: { Self → ℕ };

    /// Whether the end was met: a read gave nothing, or no read can fail.
    ghost met: { Self → Bool };

    /// Places bytes at the beginning of the buffer, which is not empty, and answers how many: 0
    /// only at the end of the input.
    ///
    /// `Failed` comes only if one fault was counted, and then nothing was read.
    fn read(&mut self, buf: &mut [u8]) -> Result<usize, Failed>
        requires { 0 < length buf.old }
        ensures bound { ReadsAtMost result buf.new }
        ensures bytes { ReadConsumes (left self.old) (left self.new) result buf.new }
        ensures cause { HasCause (faults self.old) (faults self.new) result }
        ensures met { MeetsEnd result (met self.old) (met self.new) };
}

/// Bytes that are taken in pieces.
pub trait Sink {
    /// The bytes that were taken, if the sink tells them, and how many writes have failed, up to
    /// 2 ^ 64 - 1.
    ghost told: { Self → SinkState };

    /// Takes some bytes from the beginning of a piece that is not empty, and answers how many: at
    /// least 1.
    ///
    /// `Failed` comes only if one fault was counted, and then nothing was taken: of the bytes that
    /// were taken before and this piece, not all came through to the last sink.
    fn write(&mut self, bytes: &[u8]) -> Result<usize, Failed>
        requires { 0 < length bytes.now }
        ensures some { IfOk result (λ n. 0 < n) }
        ensures bound { IfOk result (λ n. n ≤ length bytes.now) }
        ensures bytes { WriteAppends (told self.old).taken (told self.new).taken result bytes.now }
        ensures cause { HasCause (told self.old).faults (told self.new).faults result }
        ensures follows { Follows (told self.old) (told self.new) }
        ensures uses { UsesUp (told self.old) (told self.new) result bytes.now }
        ensures missed { OnErr result (IsMissed (told self.old).taken (arrived (told self.new))
            bytes.now) };
}
