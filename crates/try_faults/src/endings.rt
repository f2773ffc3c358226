//! What the workbench does if a call of its source or its sink fails.

use crate::rows::Row;
use crate::watched::Watched;
use edge_io::{MemSink, MemSource};
use std::alloc::{AllocError, Global};
use workbench::counterlab;

/// How many bytes there is room for.
const ROOM: usize = 1 << 16;

/// What fails. Calls are counted from 1.
#[derive(Clone, Copy)]
pub enum Fault {
    Nothing,
    Read(usize),
    Write(usize),
    /// Each write after so many bytes.
    Full(usize),
}

/// What came of a row: the exit code, and the source and the sink after the last call.
pub struct Outcome {
    pub code: u8,
    pub source: Watched<MemSource>,
    pub sink: Watched<MemSink>,
}

// Written out, so that code that drops one has a single call.
impl Drop for Outcome {
    fn drop(self) {
        let Outcome {
            code: _,
            source,
            sink,
        } = self;
        drop(source);
        drop(sink);
    }
}

impl Outcome {
    /// The bytes that were taken.
    pub fn taken(&self) -> &[u8] {
        self.sink.inner.taken()
    }

    /// Whether there was a call after one that failed.
    pub fn went_on(&self) -> bool {
        self.source.calls.went_on || self.sink.calls.went_on
    }
}

/// The source of a row.
fn source_of(
    alloc: Global,
    row: &Row,
    size: usize,
    fault: Fault,
) -> Result<Watched<MemSource>, AllocError> {
    let fails = match fault {
        Fault::Read(read) => vec![in alloc; read as u64; 1]?,
        _ => Vec::new(alloc),
    };
    let cuts = vec![in alloc; size.max(1); 1]?;
    let bytes = Vec::from_slice(alloc, &row.input)?;
    Ok(Watched::new(alloc, MemSource::new(bytes, fails, cuts)))
}

/// An empty sink.
fn sink_of(alloc: Global, size: usize, fault: Fault) -> anyhow::Result<Watched<MemSink>> {
    let room = match fault {
        Fault::Full(room) => room,
        _ => ROOM,
    };
    let fails = match fault {
        Fault::Write(write) => vec![in alloc; write as u64; 1]?,
        _ => Vec::new(alloc),
    };
    let cuts = vec![in alloc; size.max(1); 1]?;
    Ok(Watched::new(alloc, MemSink::new(alloc, room, fails, cuts)?))
}

/// What comes of a row whose bytes are read and written in pieces of at most such a size.
pub fn came_of(alloc: Global, row: &Row, size: usize, fault: Fault) -> anyhow::Result<Outcome> {
    let mut source = source_of(alloc, row, size, fault)?;
    let mut sink = sink_of(alloc, size, fault)?;
    let status = counterlab(alloc, &row.words, &mut source, &mut sink);
    let came = Outcome {
        code: status.code(),
        source,
        sink,
    };
    came.source.calls.noted.and(came.sink.calls.noted)?;
    Ok(came)
}
