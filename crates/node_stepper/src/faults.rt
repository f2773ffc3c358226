use thiserror::Error;

/// Why an engine stopped before the end of its input.
#[derive(Clone, Copy, Debug, PartialEq, Eq, Error)]
pub enum NodeFault {
    /// A read failed, which the source has counted.
    #[error("a read failed")]
    ReadFault,
    /// A write failed, which the sink has counted.
    #[error("a write failed")]
    WriteFault,
    /// The input ended inside a packet.
    #[error("packet {packet} ends in the cell of node {sender}")]
    Cut {
        /// Its number, from 0.
        packet: u64,
        /// The first node whose cell is not whole.
        sender: u32,
    },
    /// There was a byte of packet 1,000,001.
    #[error("there are too many packets")]
    TooLong,
}

/// How much of a packet was there.
#[derive(Clone, Copy, Debug, PartialEq, Eq)]
pub enum Amount {
    /// All of it.
    Whole,
    /// The cells of the nodes before this one, and a part.
    Cut(u32),
    /// No byte.
    Nothing,
}
