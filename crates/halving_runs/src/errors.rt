ghost use Rattle.std.specs.Prelude.{◌≡◌};
ghost use Rattle.halving_runs.specs.Readings.{part_error};

use edge_io::{PartError, WriteFault};
use halving_texts::{HalvingError, LinePremise};
use sync_types::{NoMemory, Part, Rule};
use thiserror::Error;

/// The line of an input that is refused, and why. It is the first that fails.
#[derive(Clone, Copy, Debug, PartialEq, Eq)]
pub enum RunRefusal {
    /// A line of the plan.
    Plan {
        /// The line's number, from 1 through the whole input.
        line: u64,
        /// The first premise that the line fails.
        premise: LinePremise,
    },
    /// A line of a part after the plan.
    Part {
        /// The part.
        part: Part,
        /// The line's number, from 1 through the whole input.
        line: u64,
        /// The first rule that the line fails.
        rule: Rule,
    },
}

/// Why a script was not played, or what was played not written.
#[derive(Clone, Copy, Debug, PartialEq, Eq, Error)]
pub enum PlayError {
    /// The input is refused.
    #[error("the input is refused: {0:?}")]
    Refused(RunRefusal),
    /// Memory was refused, before the first byte was written.
    #[error("out of memory")]
    NoMemory,
    /// A write failed.
    #[error("a write failed")]
    WriteFault,
}

impl From<NoMemory> for PlayError {
    ghost use Rattle.halving_runs.specs.declared.errors.PlayError.TheVariants as error;

    ghost from_gives = { λ _ e. e ≡ error.NoMemory };

    fn from(_: NoMemory) -> Self {
        PlayError::NoMemory
    }
}

impl From<WriteFault> for PlayError {
    ghost use Rattle.halving_runs.specs.declared.errors.PlayError.TheVariants as error;

    ghost from_gives = { λ _ e. e ≡ error.WriteFault };

    fn from(_: WriteFault) -> Self {
        PlayError::WriteFault
    }
}

impl From<HalvingError> for PlayError {
    ghost use Rattle.halving_runs.specs.Readings.{plan_error};

    ghost from_gives = { λ error e. e ≡ plan_error error };

    fn from(error: HalvingError) -> Self {
        match error {
            HalvingError::Refused(refused) => PlayError::Refused(RunRefusal::Plan {
                line: refused.line,
                premise: refused.premise,
            }),
            HalvingError::NoMemory => PlayError::NoMemory,
        }
    }
}

/// The error of a part that was not read, by the part's name.
pub(crate) fn unread(part: Part, error: PartError<Rule>) -> PlayError
    ensures { result ≡ part_error part error }
{
    match error {
        PartError::Refused(refused) => PlayError::Refused(RunRefusal::Part {
            part,
            line: refused.line,
            rule: refused.rule,
        }),
        PartError::NoMemory => PlayError::NoMemory,
    }
}
