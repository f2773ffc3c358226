//! A node whose reads and writes fail, each in turn.

use edge_io::{MemSink, MemSource};
use halving_plan::HalvingPremise;
use halving_texts::{HalvingNodes, LinePremise};
use node_words::{HeaderRefusal, NodeError, serve_node};
use std::alloc::Global;
use sync_types::Rule;

/// How a call of a node ends.
type Ended = Result<u64, NodeError<LinePremise>>;

/// An input of node 1 of four, how it ends, and the bytes that are written, if nothing fails.
#[derive(Clone, Copy)]
pub struct Row<'a> {
    name: &'a str,
    pub input: &'a [u8],
    ended: Ended,
    answer: &'a [u8],
}

/// How many bytes the header, a packet and a cell have.
const HEADER: usize = 54;

const PACKET: usize = 16;

const CELL: usize = 4;

/// The node in the state of zeros, and a packet of states of zeros.
pub const ONE_PACKET: Row<'static> = Row {
    name: "one packet",
    input: b"halving 1\ngroup 4 1 10\nend\nnode 1\nid 1\nstate 0000\nend\n\
        \x00\x02\x00\x00\x00\x02\x00\x00\x00\x02\x00\x00\x00\x02\x00\x00",
    ended: Ok(1),
    answer: b"\x00\x02\x00\x00\x00\x02\x44\x00",
};

const ROWS: [Row<'static>; 4] = [
    ONE_PACKET,
    Row {
        name: "a packet that is cut",
        input: b"halving 1\ngroup 4 1 10\nend\nnode 1\nid 1\nstate 0000\nend\n\
            \x00\x02\x00\x00\x00\x02\x00\x00\x00\x02\x00",
        ended: Err(NodeError::Cut {
            packet: 0,
            sender: 2,
        }),
        answer: b"\x00\x02\x00\x00",
    },
    Row {
        name: "no such node",
        input: b"halving 1\ngroup 4 1 10\nend\nnode 1\nid 4\n",
        ended: Err(NodeError::Refused(HeaderRefusal::Node {
            line: 5,
            rule: Rule::Node,
        })),
        answer: b"refused node line 5 rule node\n",
    },
    Row {
        name: "no such plan",
        input: b"halving 1\ngroup 3 1 10\n",
        ended: Err(NodeError::Refused(HeaderRefusal::Plan {
            line: 2,
            premise: LinePremise::Plan(HalvingPremise::Quorum),
        })),
        answer: b"refused halving line 2 premise quorum\n",
    },
];

/// The most bytes that a call moves.
const SIZES: [usize; 4] = [1, 2, 7, 64];

/// How many bytes there is room for.
const ROOM: usize = 64;

/// What fails. Calls are counted from 1.
#[derive(Clone, Copy)]
enum Fault {
    Read(usize),
    Write(usize),
    /// Each write after so many bytes.
    Full(usize),
}

impl Row<'_> {
    /// Whether the input is read to its end.
    fn is_ended(&self) -> bool {
        match self.ended {
            Ok(_) | Err(NodeError::Cut { .. }) => true,
            Err(_) => false,
        }
    }

    /// How many bytes are written before so many are read: a cell when the header was read, and one
    /// for each whole packet.
    fn written(&self, read: usize) -> usize {
        match read.checked_sub(HEADER) {
            Some(packets) => CELL.saturating_mul((packets / PACKET).saturating_add(1)),
            None => 0,
        }
    }

    /// How it ends, and how many bytes are written, if something fails and a call moves at most so
    /// many bytes. A call that is not made changes nothing.
    fn wanted(&self, size: usize, fault: Fault) -> (Ended, usize) {
        let length = self.input.len();
        match fault {
            Fault::Read(read) => {
                let before = read.saturating_sub(1).saturating_mul(size);
                let end = if self.is_ended() { size } else { 0 };
                if before < length.saturating_add(end) {
                    return (Err(NodeError::ReadFault), self.written(before.min(length)));
                }
            }
            Fault::Write(write) => {
                let before = write.saturating_sub(1);
                if before < self.answer.len() {
                    return (Err(NodeError::WriteFault), before);
                }
            }
            Fault::Full(room) => {
                if room < self.answer.len() {
                    return (Err(NodeError::WriteFault), room);
                }
            }
        }
        (self.ended, self.answer.len())
    }

    /// Whether it ends so if something fails.
    fn is_right(&self, alloc: Global, size: usize, fault: Fault) -> anyhow::Result<bool> {
        let mut reads = Vec::new(alloc);
        let mut writes = Vec::new(alloc);
        let mut room = ROOM;
        match fault {
            Fault::Read(read) => reads.push(read as u64)?,
            Fault::Write(write) => writes.push(write as u64)?,
            Fault::Full(bytes) => room = bytes,
        }
        let bytes = Vec::from_slice(alloc, self.input)?;
        let mut source = MemSource::new(bytes, reads, vec![in alloc; size.max(1); 1]?);
        let mut sink = MemSink::new(alloc, room, writes, vec![in alloc; size.max(1); 1]?)?;
        let ended = serve_node::<HalvingNodes, _, _>(alloc, &mut source, &mut sink);
        let (wanted, front) = self.wanted(size, fault);
        Ok(ended == wanted && sink.taken() == self.answer.get(..front).unwrap_or_default())
    }
}

/// How many cases were tried, and how many went as they should.
#[derive(Clone, Copy)]
struct Cases {
    tried: u64,
    right: u64,
}

impl Cases {
    /// Tries one.
    fn try_case(
        &mut self,
        alloc: Global,
        row: &Row<'_>,
        size: usize,
        fault: Fault,
    ) -> anyhow::Result<()> {
        self.tried = self.tried.saturating_add(1);
        if row.is_right(alloc, size, fault)? {
            self.right = self.right.saturating_add(1);
        }
        Ok(())
    }

    /// Tries each read, one byte by one, or in pieces of such a size; and two reads more.
    fn try_reads(&mut self, alloc: Global, row: &Row<'_>, size: usize) -> anyhow::Result<()> {
        let reads = row.input.len().checked_div(size).unwrap_or(0);
        for read in 0..=reads.saturating_add(2) {
            self.try_case(alloc, row, size, Fault::Read(read.saturating_add(1)))?;
        }
        Ok(())
    }

    /// Tries each write of a single byte, and a room of each size.
    fn try_writes(&mut self, alloc: Global, row: &Row<'_>) -> anyhow::Result<()> {
        for count in 0..=row.answer.len() {
            self.try_case(alloc, row, 1, Fault::Write(count.saturating_add(1)))?;
            self.try_case(alloc, row, 7, Fault::Full(count))?;
        }
        Ok(())
    }
}

/// Tries each fault of each row, and prints how many of these cases went as they should.
pub fn try_faults(rt: &HostRuntime) -> anyhow::Result<()> {
    for row in &ROWS {
        let mut cases = Cases { tried: 0, right: 0 };
        for size in &SIZES {
            cases.try_reads(rt.alloc(), row, *size)?;
        }
        cases.try_writes(rt.alloc(), row)?;
        let Cases { tried, right } = cases;
        let name = row.name;
        println!(rt; "node, {name}: {right} of {tried} cases with a fault agree")?;
    }
    Ok(())
}
