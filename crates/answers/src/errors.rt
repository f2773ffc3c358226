ghost use Rattle.std.specs.Prelude.{◌≡◌};
ghost use Rattle.answers.specs.Readings.{part_error};

use edge_io::{PartError, WriteFault};
use outcomes::Refusal;
use plan_certificate::TableError;
use plan_reader::PlanError;
use sync_types::{NoMemory, Part, Rule};
use thiserror::Error;

/// Why an input was not answered by its text.
#[derive(Clone, Copy, Debug, PartialEq, Eq, Error)]
pub enum Unanswered {
    /// It is refused.
    #[error("the input is refused: {0:?}")]
    Refused(Refusal),
    /// Memory was refused, before the first byte was written.
    #[error("out of memory")]
    NoMemory,
    /// A write failed.
    #[error("a write failed")]
    WriteFault,
}

impl From<WriteFault> for Unanswered {
    ghost use Rattle.answers.specs.declared.errors.Unanswered.TheVariants as end;

    ghost from_gives = { λ _ e. e ≡ end.WriteFault };

    fn from(_: WriteFault) -> Self {
        Unanswered::WriteFault
    }
}

impl From<NoMemory> for Unanswered {
    ghost use Rattle.answers.specs.declared.errors.Unanswered.TheVariants as end;

    ghost from_gives = { λ _ e. e ≡ end.NoMemory };

    fn from(_: NoMemory) -> Self {
        Unanswered::NoMemory
    }
}

impl From<PlanError> for Unanswered {
    ghost use Rattle.answers.specs.Readings.{plan_error};

    ghost from_gives = { λ error e. e ≡ plan_error error };

    fn from(error: PlanError) -> Self {
        match error {
            PlanError::Refused(refused) => Unanswered::Refused(Refusal::Plan {
                line: refused.line,
                premise: refused.premise,
            }),
            PlanError::NoMemory => Unanswered::NoMemory,
        }
    }
}

impl From<TableError> for Unanswered {
    ghost use Rattle.answers.specs.Readings.{table_error};

    ghost from_gives = { λ error e. e ≡ table_error error };

    fn from(error: TableError) -> Self {
        match error {
            TableError::Refused(refused) => Unanswered::Refused(Refusal::Table {
                line: refused.line,
                cause: refused.cause,
            }),
            TableError::NoMemory => Unanswered::NoMemory,
        }
    }
}

/// The error of a part that was not read, by the part's name.
pub(crate) fn unread(part: Part, error: PartError<Rule>) -> Unanswered
    ensures { result ≡ part_error part error }
{
    match error {
        PartError::Refused(refused) => Unanswered::Refused(Refusal::Part {
            part,
            line: refused.line,
            rule: refused.rule,
        }),
        PartError::NoMemory => Unanswered::NoMemory,
    }
}
