//! Why a text is not read.

use std::alloc::{AllocError, AllocFailed};
use std::fmt;
use thiserror::Error;

/// Which line should stand at a place.
#[derive(Clone, Copy, Debug)]
pub enum Wanted {
    Bound,
    Row,
    Further,
    Era,
    Nothing,
    Trace,
    Node,
    Tally,
    Plan,
}

impl fmt::Display for Wanted {
    fn fmt<W: fmt::Write>(&self, f: &mut fmt::Formatter<W>) -> Result<(), fmt::Error> {
        f.write_str(match self {
            Wanted::Bound => "`bound` and a number",
            Wanted::Row => {
                "a row: `row`, the number of a configuration, and a number or a star for each node"
            }
            Wanted::Further => {
                "the next row, with as many words, or the first line on what is locked"
            }
            Wanted::Era => "the line of a later era, or nothing",
            Wanted::Nothing => "nothing",
            Wanted::Trace => {
                "the next line of a trace: the next node, or the next level of the same one"
            }
            Wanted::Node => "the line of a trace for the next node",
            Wanted::Tally => {
                "the next line of a sweep: `era`, `locked`, `runs` and `seed`, each with its number"
            }
            Wanted::Plan => {
                "the next plan of a choice, of more nodes and a lesser bound: `nodes`, `bound`, .."
            }
        })
    }
}

/// Why there is no chart.
#[derive(Clone, Copy, Debug, Error)]
pub enum ChartError {
    /// A line, counted from 1, is not what should stand there.
    #[error("line {line} should be {wanted}")]
    Line { line: u64, wanted: Wanted },
    #[error("out of memory")]
    NoMemory,
}

impl From<AllocError> for ChartError {
    fn from(_: AllocError) -> Self {
        ChartError::NoMemory
    }
}

impl<T: Drop> From<AllocFailed<T>> for ChartError {
    fn from(_: AllocFailed<T>) -> Self {
        ChartError::NoMemory
    }
}

/// Why a line is not taken.
#[derive(Clone, Copy, Debug, Error)]
pub enum LineError {
    /// It is not what should stand there.
    #[error("not the line that should stand there")]
    Unwanted,
    /// Memory was refused.
    #[error("out of memory")]
    NoMemory,
}

impl<T: Drop> From<AllocFailed<T>> for LineError {
    fn from(_: AllocFailed<T>) -> Self {
        LineError::NoMemory
    }
}
