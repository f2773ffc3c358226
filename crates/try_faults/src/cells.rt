//! What `node` has written when it has read so much of its input.

use edge_io::{Lines, Words, number};

/// How many bytes a cell has that stands at the beginning of these, with the two of its length.
/// None if it is cut.
fn cell_length(bytes: &[u8]) -> Option<usize> {
    let high = usize::from(*bytes.get(0)?);
    let low = usize::from(*bytes.get(1)?);
    let length = 2 + 256 * high + low;
    if length <= bytes.len() {
        Some(length)
    } else {
        None
    }
}

/// How many bytes stand through the second line `end`, which ends the header. None if it is not
/// there.
fn header_length(input: &[u8]) -> Option<usize> {
    let mut through = 0usize;
    let mut ends = 0u8;
    for (_, line) in Lines::new(input, 1) {
        through = through.saturating_add(line.len()).saturating_add(1);
        if line == b"end".as_slice() {
            if ends == 1 {
                return if through <= input.len() {
                    Some(through)
                } else {
                    None
                };
            }
            ends = 1;
        }
    }
    None
}

/// The number that a word says, or none.
fn number_of(word: Option<&[u8]>) -> Option<u64> {
    number(word?)
}

/// How many nodes there are after a line, if there were so many before it: `level K F C` has K
/// groups of them, and `level K F C spare S` S nodes more.
fn nodes_behind(line: &[u8], nodes: u64) -> u64 {
    let mut words = Words::new(line);
    if words.next() != Some(b"level".as_slice()) {
        return nodes;
    }
    let blocks = number_of(words.next()).unwrap_or(1);
    let spares = number_of(words.nth(3)).unwrap_or(0);
    nodes.saturating_mul(blocks).saturating_add(spares)
}

/// How many nodes the plan of a header has.
fn nodes_of(header: &[u8]) -> u64 {
    let mut nodes = 1;
    for (_, line) in Lines::new(header, 1) {
        nodes = nodes_behind(line, nodes);
    }
    nodes
}

/// How many whole packets, each of a cell of every node, stand at the beginning of these bytes.
fn whole_packets(bytes: &[u8], nodes: u64) -> usize {
    let mut rest = bytes;
    let mut cells = 0u64;
    let mut packets = 0usize;
    for _ in 0..=bytes.len() {
        let Some(length) = cell_length(rest) else {
            break;
        };
        rest = rest.get(length..).unwrap_or_default();
        cells = cells.wrapping_add(1);
        if cells == nodes {
            cells = 0;
            packets = packets.wrapping_add(1);
        }
    }
    packets
}

/// How many bytes of its answer `node` has written when it has read so many bytes of an input: a
/// cell when it has read the header, and one for each whole packet.
pub fn written(input: &[u8], answer: &[u8], read: usize) -> usize {
    let Some(header) = header_length(input) else {
        return 0;
    };
    let Some(packets) = input.get(header..read) else {
        return 0;
    };
    let nodes = nodes_of(input.get(..header).unwrap_or_default());
    let cell = cell_length(answer).unwrap_or(0);
    whole_packets(packets, nodes)
        .saturating_add(1)
        .saturating_mul(cell)
}
