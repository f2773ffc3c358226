use std::alloc::{AllocError, AllocFailed};
use std::fmt::Debug;
use thiserror::Error;

/// Why a line was not taken: a rule refused it, or memory ran out.
#[derive(Clone, Copy, Debug, PartialEq, Eq, Error)]
#[error_bound(R: Debug)]
pub enum TakeError<R> {
    /// The first rule that the line fails.
    #[error("the line fails the rule {:?}", .0)]
    Refused(R),
    /// Memory was refused.
    #[error("out of memory")]
    NoMemory,
}

impl<R> From<AllocError> for TakeError<R> {
    ghost use Rattle.std.specs.Prelude.{◌≡◌};
    ghost use Rattle.edge_io.specs.declared.taking.TakeError.TheVariants.{NoMemory};

    ghost from_gives = { λ _ e. e ≡ NoMemory };

    fn from(_: AllocError) -> Self {
        TakeError::NoMemory
    }
}

impl<R, T: Drop> From<AllocFailed<T>> for TakeError<R> {
    ghost use Rattle.std.specs.Prelude.{◌≡◌};
    ghost use Rattle.edge_io.specs.declared.taking.TakeError.TheVariants.{NoMemory};

    ghost from_gives = { λ _ e. e ≡ NoMemory };

    fn from(_: AllocFailed<T>) -> Self {
        TakeError::NoMemory
    }
}

/// A line of a part that is refused.
#[derive(Clone, Copy, Debug, PartialEq, Eq)]
pub struct Refused<R> {
    /// Its number, skipped lines counted. If the part lacks its end, it is the line after the last.
    pub line: u64,
    /// The first rule that it fails.
    pub rule: R,
}

/// Why a part was not read: a line was refused, or memory ran out.
#[derive(Clone, Copy, Debug, PartialEq, Eq, Error)]
#[error_bound(R: Debug)]
pub enum PartError<R> {
    /// The first line that is refused.
    #[error("line {} fails the rule {:?}", .0.line, .0.rule)]
    Refused(Refused<R>),
    /// Memory was refused.
    #[error("out of memory")]
    NoMemory,
}

impl<R> From<AllocError> for PartError<R> {
    ghost use Rattle.std.specs.Prelude.{◌≡◌};
    ghost use Rattle.edge_io.specs.declared.taking.PartError.TheVariants.{NoMemory};

    ghost from_gives = { λ _ e. e ≡ NoMemory };

    fn from(_: AllocError) -> Self {
        PartError::NoMemory
    }
}

impl<R, T: Drop> From<AllocFailed<T>> for PartError<R> {
    ghost use Rattle.std.specs.Prelude.{◌≡◌};
    ghost use Rattle.edge_io.specs.declared.taking.PartError.TheVariants.{NoMemory};

    ghost from_gives = { λ _ e. e ≡ NoMemory };

    fn from(_: AllocFailed<T>) -> Self {
        PartError::NoMemory
    }
}
