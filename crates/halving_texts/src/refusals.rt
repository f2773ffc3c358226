ghost use Rattle.std.specs.Prelude.{◌≡◌};

use crate::premises::LinePremise;
use edge_io::PartError;
use thiserror::Error;

/// The line of a halving part that is refused, and why.
#[derive(Clone, Copy, Debug, PartialEq, Eq)]
pub struct HalvingRefusal {
    /// The line's number, from 1, skipped lines counted. If the part lacks its end, it is the line
    /// after the last.
    pub line: u64,
    /// The first premise that the line fails.
    pub premise: LinePremise,
}

/// Why a halving part was not read.
#[derive(Clone, Copy, Debug, PartialEq, Eq, Error)]
pub enum HalvingError {
    /// The text states no accepted plan: its first line that fails.
    #[error("line {} of the halving plan fails the premise {}", .0.line, .0.premise.word())]
    Refused(HalvingRefusal),
    /// Memory was refused.
    #[error("out of memory")]
    NoMemory,
}

impl From<PartError<LinePremise>> for HalvingError {
    ghost use Rattle.halving_texts.specs.HalvingRefusals.{halving_error};

    ghost from_gives = { λ at e. e ≡ halving_error at };

    fn from(error: PartError<LinePremise>) -> Self {
        match error {
            PartError::Refused(refused) => HalvingError::Refused(HalvingRefusal {
                line: refused.line,
                premise: refused.rule,
            }),
            PartError::NoMemory => HalvingError::NoMemory,
        }
    }
}
