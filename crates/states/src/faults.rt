use std::alloc::AllocError;
use sync_types::NoMemory;
use thiserror::Error;

/// What is wrong with a line of a state.
#[derive(Clone, Copy, Debug, PartialEq, Eq, Error)]
pub enum Fault {
    /// It does not begin with `node` and a number, or what stands after these is neither one word
    /// nor begins with `number` or `registers`.
    #[error("not the form of a line of a state")]
    Form,
    /// It names a node that the plan has not.
    #[error("the plan has no such node")]
    Node,
    /// Its one word is not so many hex digits.
    #[error("not {0} hex digits")]
    Hex(usize),
    /// It says other fields than its node has, or a number that is not below its modulus.
    #[error("not the fields of the node")]
    Fields,
}

/// Why a line is not turned.
#[derive(Clone, Copy, Debug, PartialEq, Eq, Error)]
pub enum TurnError {
    /// The line is refused.
    #[error("{0}")]
    Refused(Fault),
    /// Memory was refused.
    #[error("out of memory")]
    NoMemory,
}

impl From<Fault> for TurnError {
    ghost use Rattle.std.specs.Prelude.{◌≡◌};
    ghost use Rattle.states.specs.declared.faults.TurnError.TheVariants as error;

    ghost from_gives = { λ fault e. e ≡ error.Refused fault };

    fn from(fault: Fault) -> Self {
        TurnError::Refused(fault)
    }
}

impl From<AllocError> for TurnError {
    ghost use Rattle.std.specs.Prelude.{◌≡◌};
    ghost use Rattle.states.specs.declared.faults.TurnError.TheVariants as error;

    ghost from_gives = { λ _ e. e ≡ error.NoMemory };

    fn from(_: AllocError) -> Self {
        TurnError::NoMemory
    }
}

impl From<NoMemory> for TurnError {
    ghost use Rattle.std.specs.Prelude.{◌≡◌};
    ghost use Rattle.states.specs.declared.faults.TurnError.TheVariants as error;

    ghost from_gives = { λ _ e. e ≡ error.NoMemory };

    fn from(_: NoMemory) -> Self {
        TurnError::NoMemory
    }
}
