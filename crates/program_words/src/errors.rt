//! Why a program did not do what it was asked for.

ghost use Rattle.std.specs.Prelude.{◌≡◌, ℕ, List};
ghost use Rattle.std.specs.Process.{exit_status};
ghost use Rattle.texts.specs.Growth.{Puts};
ghost use Rattle.program_words.specs.Errors.{error_code, error_line};

use edge_io::{InputFault, Sink, WriteFault, put_all};
use std::alloc::AllocError;
use std::fmt::Debug;
use std::process::ExitCode;
use sync_types::{NoMemory, Status};
use thiserror::Error;

/// The line of an input that is longer.
pub const TOO_LONG: &[u8] = b"the input has more than 1048576 bytes\n";

/// Why a program refuses what it is given. It says what the program writes of its errors on
/// standard error, and the exit code of a refusal.
pub trait Reason: Drop {
    // The line on how the program is used.
    ghost usage_line: { List ℕ };

    // The line of an input that is too long.
    ghost long_line: { List ℕ };

    // The line of a refusal: nothing, if the answer says it.
    ghost reason_line: { Self → List ℕ };

    // The exit code of a refusal.
    ghost reason_code: { Self → ℕ };

    /// The line on how the program is used.
    fn usage() -> &'static [u8]
        ensures { result.now ≡ usage_line };

    /// The line of an input that is too long.
    fn too_long() -> &'static [u8]
        ensures { result.now ≡ long_line };

    /// The exit code of the refusal.
    fn code(&self) -> u8
        ensures { result ≡ reason_code self.now };

    /// Writes the line of the refusal.
    fn put_line<K: Sink>(&self, sink: &mut K) -> Result<(), WriteFault>
        ensures { Puts result (reason_line self.now) (K.told sink.old) (K.told sink.new) };
}

/// Why a program did not do what it was asked for, or not all of it.
#[derive(Clone, Copy, Debug, PartialEq, Eq, Error)]
#[error_bound(R: Debug)]
pub enum ProgramError<R> {
    /// The words ask for nothing.
    #[error("the words ask for nothing")]
    Usage,
    /// What the program was given is refused.
    #[error("refused: {0:?}")]
    Refused(R),
    /// A read failed.
    #[error("a read failed")]
    ReadFault,
    /// A write failed.
    #[error("a write failed")]
    WriteFault,
    /// The input is longer than its limit.
    #[error("the input is too long")]
    TooLong,
    /// Memory was refused.
    #[error("out of memory")]
    NoMemory,
}

impl<R: Reason> ProgramError<R> {
    /// The exit code: that of `counterlab` for the same cause, and of a refusal its own.
    pub fn code(&self) -> u8
        ensures { result ≡ error_code R.reason_code self.now }
    {
        match self {
            ProgramError::Usage => Status::Usage.code(),
            ProgramError::Refused(reason) => reason.code(),
            ProgramError::ReadFault => Status::ReadFault.code(),
            ProgramError::WriteFault => Status::WriteFault.code(),
            ProgramError::TooLong => Status::TooLong.code(),
            ProgramError::NoMemory => Status::NoMemory.code(),
        }
    }

    /// The same as the exit code of a process.
    pub fn exit_code(&self) -> ExitCode
        ensures { exit_status result ≡ error_code R.reason_code self.now }
    {
        ExitCode::from(self.code())
    }
}

/// Writes the line of an error.
pub fn put_error<R: Reason, K: Sink>(
    sink: &mut K,
    error: &ProgramError<R>,
) -> Result<(), WriteFault>
    ensures { Puts result (error_line R.usage_line R.long_line R.reason_line error.now)
        (K.told sink.old) (K.told sink.new) }
{
    match error {
        ProgramError::Usage => put_all(sink, R::usage()),
        ProgramError::Refused(reason) => reason.put_line(sink),
        ProgramError::ReadFault => put_all(sink, b"the input could not be read\n"),
        ProgramError::WriteFault => put_all(sink, b"the answer could not be written\n"),
        ProgramError::TooLong => put_all(sink, R::too_long()),
        ProgramError::NoMemory => put_all(sink, b"out of memory\n"),
    }
}

impl<R> From<InputFault> for ProgramError<R> {
    ghost use Rattle.program_words.specs.Errors.{input_error};

    ghost from_gives = { λ fault e. e ≡ input_error fault };

    fn from(fault: InputFault) -> Self {
        match fault {
            InputFault::ReadFault => ProgramError::ReadFault,
            InputFault::TooLong => ProgramError::TooLong,
            InputFault::NoMemory => ProgramError::NoMemory,
        }
    }
}

impl<R> From<AllocError> for ProgramError<R> {
    ghost use Rattle.program_words.specs.declared.errors.ProgramError.TheVariants as error;

    ghost from_gives = { λ _ e. e ≡ error.NoMemory };

    fn from(_: AllocError) -> Self {
        ProgramError::NoMemory
    }
}

impl<R> From<NoMemory> for ProgramError<R> {
    ghost use Rattle.program_words.specs.declared.errors.ProgramError.TheVariants as error;

    ghost from_gives = { λ _ e. e ≡ error.NoMemory };

    fn from(_: NoMemory) -> Self {
        ProgramError::NoMemory
    }
}

impl<R> From<WriteFault> for ProgramError<R> {
    ghost use Rattle.program_words.specs.declared.errors.ProgramError.TheVariants as error;

    ghost from_gives = { λ _ e. e ≡ error.WriteFault };

    fn from(_: WriteFault) -> Self {
        ProgramError::WriteFault
    }
}
