//! Reads a trace, with all that is drawn of it.

use crate::hits::mark_trace;
use crate::layouts::lay_out;
use crate::trace_reading::read_trace;
use crate::traces::Trace;
use picture_parts::ChartError;
use std::alloc::Global;

/// Reads a trace, with all that is drawn of it. The error is the first line that is not what should
/// stand there, or want of memory.
pub fn trace_of(alloc: Global, text: &[u8]) -> Result<Trace, ChartError> {
    let mut trace = read_trace(alloc, text)?;
    mark_trace(alloc, &mut trace)?;
    lay_out(&mut trace)?;
    Ok(trace)
}
