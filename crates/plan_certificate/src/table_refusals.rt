use sync_types::Cause;
use thiserror::Error;

/// The line of a table text that is refused, and why.
#[derive(Clone, Copy, Debug, PartialEq, Eq)]
pub struct TableRefusal {
    /// The line's number, from 1. If the text lacks its end, it is the line after the last one with
    /// a newline.
    pub line: u64,
    /// The first cause for which the line is refused.
    pub cause: Cause,
}

/// Why a table text was not read.
#[derive(Clone, Copy, Debug, PartialEq, Eq, Error)]
pub enum TableError {
    /// The text is no table text: its first line that fails.
    #[error("line {} of the table fails: {:?}", .0.line, .0.cause)]
    Refused(TableRefusal),
    /// Memory was refused.
    #[error("out of memory")]
    NoMemory,
}
