use edge_io::{MemSink, PlainSource};
use halving_texts::{HalvingNodes, LinePremise};
use node_words::{HeaderRefusal, NodeError, serve_node};
use std::alloc::Global;
use std::test::Fail;
use sync_types::Rule;

/// Node 1 of four in the state of zeros, and a packet of states of zeros.
const PACKET: &[u8] = b"halving 1\ngroup 4 1 10\nend\nnode 1\nid 1\nstate 0000\nend\n\
    \x00\x02\x00\x00\x00\x02\x00\x00\x00\x02\x00\x00\x00\x02\x00\x00";

/// The same with a packet that ends in the cell of node 2.
const CUT: &[u8] = b"halving 1\ngroup 4 1 10\nend\nnode 1\nid 1\nstate 0000\nend\n\
    \x00\x02\x00\x00\x00\x02\x00\x00\x00\x02\x00";

/// An input, how it ends, and the bytes that are written.
type Row<'a> = (&'a [u8], Result<u64, NodeError<LinePremise>>, &'a [u8]);

const ROWS: [Row<'static>; 4] = [
    (PACKET, Ok(1), b"\x00\x02\x00\x00\x00\x02\x44\x00"),
    (
        CUT,
        Err(NodeError::Cut {
            packet: 0,
            sender: 2,
        }),
        b"\x00\x02\x00\x00",
    ),
    (
        b"halving 1\ngroup 4 1 10\nend\nnode 1\nid 4\n",
        Err(NodeError::Refused(HeaderRefusal::Node {
            line: 5,
            rule: Rule::Node,
        })),
        b"refused node line 5 rule node\n",
    ),
    (
        b"halving 2\n",
        Err(NodeError::Refused(HeaderRefusal::Plan {
            line: 1,
            premise: LinePremise::Form,
        })),
        b"refused halving line 1 premise form\n",
    ),
];

/// Whether a node answers as a row says.
fn is_served(alloc: Global, row: &Row<'_>) -> Result<bool, Fail> {
    let mut source = PlainSource::new(row.0);
    let mut sink = MemSink::new(alloc, 64, Vec::new(alloc), Vec::new(alloc))?;
    let ended = serve_node::<HalvingNodes, _, _>(alloc, &mut source, &mut sink);
    Ok(ended == row.1 && sink.taken() == row.2)
}

#[test]
fn packets_are_answered_with_cells(rt: HostRuntime) -> Result<(), Fail> {
    for row in &ROWS {
        let served = is_served(rt.alloc(), row)?;
        assert!(rt; served, "where {} bytes come out", row.2.len());
    }
    Ok(())
}
