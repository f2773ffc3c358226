//! One node by numbers: which cells were taken if a given read fails.

use crate::endings::{Fault, came_of};
use crate::rows::Row;
use crate::sweeps::digits;

/// A node of a one-node counter modulo 5 in the state 4, and one packet: 43 bytes and 3.
const NODE: &[u8] = b"plan 1\nbase 5\nend\nnode 1\nid 0\nstate 80\nend\n\x00\x01\x40";

/// Its cells: 4, and after the packet 0.
const CELLS: &[u8] = b"\x00\x01\x80\x00\x01\x00";

/// Prints what comes of its row if each read gives one byte and that one fails. Whether so many of
/// its cells are taken.
fn try_read(rt: &HostRuntime, row: &Row, read: usize, front: usize) -> anyhow::Result<bool> {
    let came = came_of(rt.alloc(), row, 1, Fault::Read(read))?;
    let code = came.code;
    let taken = digits(rt.alloc(), came.taken())?;
    println!(rt; "node by single bytes, read {read} fails: {code}, taken{taken}")?;
    Ok(code == 6 && came.taken() == CELLS.get(..front).unwrap_or_default())
}

/// Tries reads before the header is whole, after the header, and after the packet. Whether all went
/// as they should.
pub fn try_all(rt: &HostRuntime) -> anyhow::Result<bool> {
    let mut row = Row::new(rt.alloc(), "numbered", "node")?;
    row.input.extend_from_slice(NODE)?;
    row.answer.extend_from_slice(CELLS)?;
    let mut same = true;
    for (read, front) in [(43, 0), (44, 3), (47, 6)] {
        same = try_read(rt, &row, read, front)? && same;
    }
    Ok(same)
}
