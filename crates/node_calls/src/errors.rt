ghost use Rattle.std.specs.Prelude.{◌≡◌};
ghost use Rattle.node_calls.specs.declared.errors.CallError.TheVariants.{NoMemory};
ghost use Rattle.node_calls.specs.Errors.{error_of, halving_error_of};

use halving_texts::{HalvingError, HalvingRefusal};
use plan_reader::{PlanError, PlanRefusal};
use sync_types::NoMemory;
use thiserror::Error;

/// Why a call was not answered.
#[derive(Clone, Copy, Debug, PartialEq, Eq, Error)]
pub enum CallError {
    /// The text is no accepted plan: its first line that fails.
    #[error("line {} of the plan fails the premise {:?}", .0.line, .0.premise)]
    Refused(PlanRefusal),
    /// The text begins as a halving plan, and is no accepted one: its first line that fails.
    #[error("line {} of the halving plan fails the premise {}", .0.line, .0.premise.word())]
    HalvingRefused(HalvingRefusal),
    /// The plan has no node of that id.
    #[error("no such node")]
    Node,
    /// The bytes are not just so many as a state of the node has.
    #[error("the state has another length")]
    Length,
    /// The bytes end inside a packet.
    #[error("packet {packet} ends in the cell of node {sender}")]
    Cut {
        /// Its number, from 0.
        packet: u64,
        /// The first node whose cell is not whole.
        sender: u32,
    },
    /// There is a byte of packet 1,000,001.
    #[error("there are too many packets")]
    TooLong,
    /// Memory was refused.
    #[error("out of memory")]
    NoMemory,
}

impl From<PlanError> for CallError {
    ghost from_gives = { λ error e. e ≡ error_of error };

    fn from(error: PlanError) -> Self {
        match error {
            PlanError::Refused(refusal) => CallError::Refused(refusal),
            PlanError::NoMemory => CallError::NoMemory,
        }
    }
}

impl From<HalvingError> for CallError {
    ghost from_gives = { λ error e. e ≡ halving_error_of error };

    fn from(error: HalvingError) -> Self {
        match error {
            HalvingError::Refused(refusal) => CallError::HalvingRefused(refusal),
            HalvingError::NoMemory => CallError::NoMemory,
        }
    }
}

impl From<NoMemory> for CallError {
    ghost from_gives = { λ _ e. e ≡ NoMemory };

    fn from(_: NoMemory) -> Self {
        CallError::NoMemory
    }
}
