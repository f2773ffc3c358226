use std::alloc::AllocError;
use thiserror::Error;

/// Want of memory: what was asked for was not taken.
#[derive(Clone, Copy, Debug, PartialEq, Eq, Error)]
#[error("out of memory")]
pub struct NoMemory;

impl From<AllocError> for NoMemory {
    fn from(_: AllocError) -> Self {
        NoMemory
    }
}

/// A premise of a line of a plan, in the order in which they are tested.
#[derive(Clone, Copy, Debug, PartialEq, Eq)]
pub enum Premise {
    /// The line is not of the grammar.
    Form,
    /// A number is above its limit.
    Limit,
    /// A level has fewer than three blocks.
    Blocks,
    /// A modulus is less than two.
    Modulus,
    /// A third of the nodes, or more, may be faulty.
    Quorum,
    /// More faults than the blocks below can share.
    Share,
    /// The modulus below is no multiple of the span.
    Multiple,
}

/// A rule of a line of a part that is no plan.
#[derive(Clone, Copy, Debug, PartialEq, Eq)]
pub enum Rule {
    /// The line is not of the grammar, or stands where it may not.
    Form,
    /// A number is above its limit, or a line of its kind is one too many.
    Limit,
    /// An id is not that of a node, or not that of a faulty one.
    Node,
    /// Ids do not rise.
    Order,
    /// More nodes are faulty than the plan tolerates.
    Faults,
    /// A range ends before it begins, or past what it may reach.
    Range,
    /// A word is no hex of the length that is wanted.
    Hex,
    /// A name is taken, or names nothing.
    Name,
    /// The modulus is no multiple of a slot.
    Slot,
    /// Two lines cover one output.
    Overlap,
}

/// A part of an input that is no plan.
#[derive(Clone, Copy, Debug, PartialEq, Eq)]
pub enum Part {
    Script,
    Node,
    Agree,
    Slots,
    Find,
    Log,
    Fire,
}

/// Why a line of a table text is refused.
#[derive(Clone, Copy, Debug, PartialEq, Eq)]
pub enum Cause {
    /// The first premise that the line fails.
    Premise(Premise),
    /// A number is not the one that the plan has.
    Value,
}
