//! Nodes that are drawn, and the packets that they hear.

use crate::calling::Program;
use crate::cases::Case;
use crate::drawn_states::Near;
use crate::draws::Draws;
use reference::constructions::{Construction, Shape};
use reference::layers::Part;
use reference::nodes::{MOST_PACKETS, cells, put_cell};
use reference::texts::Text;
use std::alloc::{AllocError, Global};

/// The lines of a node that hears only itself, and counts modulo 4.
const COUNTING: &[u8] = b"plan 1\nbase 4\nend\nnode 1\nid 0\nstate 00\nend\n";

/// The shape of the nodes of a plan that have no layer.
pub fn shape_of<C: Construction>(alloc: Global, plan: &C) -> Result<Shape, AllocError> {
    Shape::of(alloc, plan, Part::Rows.layer())
}

/// The lines of a node of a plan, which begins in the state of some bytes.
pub fn header<C: Construction>(
    alloc: Global,
    plan: &C,
    node: u64,
    start: &[u8],
) -> Result<Vec<u8>, AllocError> {
    let mut header = String::new(alloc);
    let mut out = Text::behind(&mut header);
    plan.write(&mut out);
    out.line("node", &[1]);
    out.line("id", &[node]);
    out.word("state");
    out.bytes(start);
    out.word("\nend\n");
    out.end()?;
    Ok(header.into_bytes())
}

impl Draws {
    /// The bytes of a cell, mostly of a state near to others, and of any length at times.
    fn cell(&mut self, shape: &Shape, near: &Near, sender: u64) -> Result<Vec<u8>, AllocError> {
        if self.once_in(20) {
            let most = shape.fields(sender).bytes().wrapping_mul(2);
            let count = self.below(most.wrapping_add(2));
            return self.bytes(count);
        }
        self.state_bytes(shape, near, sender)
    }

    /// The bytes of so many packets.
    fn packets(&mut self, shape: &Shape, near: &Near, count: u64) -> Result<Vec<u8>, AllocError> {
        let mut bytes = Vec::new(self.alloc);
        for _ in 0..count {
            for sender in 0..shape.numbers.nodes {
                put_cell(&mut bytes, &self.cell(shape, near, sender)?)?;
            }
        }
        Ok(bytes)
    }

    /// What a node of a plan of a program answers to at most so many packets, the last of which is
    /// cut at times.
    pub fn node<C: Construction>(
        &mut self,
        program: Program,
        plan: &C,
        most: u64,
    ) -> Result<Case, AllocError> {
        let shape = shape_of(self.alloc, plan)?;
        let near = self.near(&shape);
        let node = self.below(shape.numbers.nodes);
        let start = self.state_bytes(&shape, &near, node)?;
        let count = self.between(1, most);
        let mut packets = self.packets(&shape, &near, count)?;
        if self.once_in(8) {
            packets.truncate(self.below(packets.len() as u64) as usize);
        }
        let (wanted, code) = cells(self.alloc, plan, &shape, node, &start, &packets)?;
        let mut input = header(self.alloc, plan, node, &start)?;
        input.extend_from_slice(&packets)?;
        Ok(Case {
            program,
            word: "node",
            input,
            wanted,
            code,
        })
    }
}

/// So many packets of a node that hears only itself. It answers each of them, up to the most that
/// it takes.
pub fn counting(alloc: Global, packets: u64, code: u8) -> Result<Case, AllocError> {
    let mut input = Vec::from_slice(alloc, COUNTING)?;
    for _ in 0..packets {
        put_cell(&mut input, &[0])?;
    }
    let mut wanted = Vec::new(alloc);
    for t in 0..=packets.min(MOST_PACKETS) {
        put_cell(&mut wanted, &[(t % 4 * 64) as u8])?;
    }
    Ok(Case {
        program: Program::Counterlab,
        word: "node",
        input,
        wanted,
        code,
    })
}
