//! One node: the cells that it writes, from the packets that it hears.

use crate::bits::number;
use crate::constructions::{Construction, Shape};
use crate::states::{State, ZERO_STATE};
use std::alloc::{AllocError, Global};

/// How many packets a node takes.
pub const MOST_PACKETS: u64 = 1_000_000;

/// Puts the length of a cell and then its bytes.
pub fn put_cell(bytes: &mut Vec<u8>, cell: &[u8]) -> Result<(), AllocError> {
    let length = cell.len() as u64;
    bytes.extend_from_slice(&[(length / 256 % 256) as u8, (length % 256) as u8])?;
    bytes.extend_from_slice(cell)
}

/// Puts the cell of a node in a state.
pub fn put_state(
    bytes: &mut Vec<u8>,
    shape: &Shape,
    node: u64,
    state: &State,
) -> Result<(), AllocError> {
    let fields = shape.fields(node);
    put_cell(bytes, fields.written(state).bytes(fields.bytes()))
}

/// What a node that is in a state hears by the packet at the beginning of some bytes, and the bytes
/// after it; none if it is not whole. A cell stands after its length. Of another node it is the
/// state that its cell has, if it has its length, else the zero state.
fn hear<'a>(
    shape: &Shape,
    node: u64,
    own: &State,
    bytes: &'a [u8],
    heard: &mut [State],
) -> Option<&'a [u8]> {
    let mut left = bytes;
    for (place, state) in heard.iter_mut().enumerate() {
        let sender = place as u64;
        let end = (number(left, 0, 16) as usize).wrapping_add(2);
        let cell = left.get(2..end)?;
        left = left.get(end..)?;
        *state = if sender == node {
            *own
        } else {
            shape.fields(sender).read(cell)
        };
    }
    Some(left)
}

/// The cells that a node of a plan writes which begins in a state of some bytes and answers each
/// packet that is whole, and the exit code.
pub fn cells<C: Construction>(
    alloc: Global,
    plan: &C,
    shape: &Shape,
    node: u64,
    start: &[u8],
    packets: &[u8],
) -> Result<(Vec<u8>, u8), AllocError> {
    let mut heard = vec![in alloc; ZERO_STATE; shape.numbers.nodes as usize]?;
    let mut cells = Vec::new(alloc);
    let mut state = shape.fields(node).read(start);
    let mut left = packets;
    for _ in 0..MOST_PACKETS {
        put_state(&mut cells, shape, node, &state)?;
        if left.is_empty() {
            return Ok((cells, 0));
        }
        match hear(shape, node, &state, left, &mut heard) {
            Some(behind) => left = behind,
            None => return Ok((cells, 9)),
        }
        state = plan.stepped(node, &heard);
    }
    put_state(&mut cells, shape, node, &state)?;
    Ok((cells, if left.is_empty() { 0 } else { 8 }))
}
