ghost use Rattle.std.specs.Prelude.{◌≡◌};
ghost use Rattle.node_words.specs.NodeAnswers.{ended_by};

use crate::HeaderRefusal;
use node_stepper::NodeFault;
use std::alloc::AllocError;
use std::fmt::Debug;
use sync_types::NoMemory;
use thiserror::Error;

/// Why a node did not answer packets to the end of its input.
#[derive(Clone, Copy, Debug, PartialEq, Eq, Error)]
#[error_bound(P: Debug)]
pub enum NodeError<P> {
    /// A line of the header was refused, and the line that says so was written.
    #[error("the header is refused: {0:?}")]
    Refused(HeaderRefusal<P>),
    /// A read failed, which the source has counted.
    #[error("a read failed")]
    ReadFault,
    /// A write failed, which the sink has counted.
    #[error("a write failed")]
    WriteFault,
    /// The header is longer than 2^20 bytes, or there was a byte of packet 1,000,001.
    #[error("the header or the input is too long")]
    TooLong,
    /// The input ended inside a packet: the first node whose cell is not whole.
    #[error("packet {packet} ends in the cell of node {sender}")]
    Cut { packet: u64, sender: u32 },
    /// Memory was refused.
    #[error("out of memory")]
    NoMemory,
}

impl<P> From<AllocError> for NodeError<P> {
    ghost use Rattle.node_words.specs.declared.errors.NodeError.TheVariants as error;

    ghost from_gives = { λ _ e. e ≡ error.NoMemory };

    fn from(_: AllocError) -> Self {
        NodeError::NoMemory
    }
}

impl<P> From<NoMemory> for NodeError<P> {
    ghost use Rattle.node_words.specs.declared.errors.NodeError.TheVariants as error;

    ghost from_gives = { λ _ e. e ≡ error.NoMemory };

    fn from(_: NoMemory) -> Self {
        NodeError::NoMemory
    }
}

/// How a service ended.
pub(crate) fn ended_by<P>(served: Result<u64, NodeFault>) -> Result<u64, NodeError<P>>
    ensures { result ≡ ended_by served }
{
    match served {
        Ok(count) => Ok(count),
        Err(NodeFault::ReadFault) => Err(NodeError::ReadFault),
        Err(NodeFault::WriteFault) => Err(NodeError::WriteFault),
        Err(NodeFault::Cut { packet, sender }) => Err(NodeError::Cut { packet, sender }),
        Err(NodeFault::TooLong) => Err(NodeError::TooLong),
    }
}
