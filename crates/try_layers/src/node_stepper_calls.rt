ghost use Rattle.std.specs.Prelude.{◌≡◌, ◌<◌, IfOk};
ghost use Rattle.construction.specs.Plans.{plan_nodes};

use edge_io::{Feed, MemSink, PlainSource};
use node_stepper::NodeFault;
use plan_machine::{NodeEngine, PlanNode};
use plan_numbers::Plan;
use state_codec::StateShape;
use std::alloc::{AllocError, Global};
use std::test::Fail;
use sync_types::{NoMemory, NodeState};
use tower::build;
use try_counters::plans::{four, one, three_and_one};

/// A node in the state of these bytes.
pub fn engine(alloc: Global, plan: &Plan, id: u32, bytes: &[u8]) -> Result<NodeEngine, NoMemory>
    requires { id < plan_nodes plan.now }
    ensures { IfOk result (λ e. e.counter ≡ plan.now) }
{
    let shape = StateShape::of(alloc, plan)?;
    let mut state = NodeState::zero(alloc, shape.depth())?;
    shape.read_state(id, bytes, &mut state);
    let tower = build(alloc, plan)?;
    NodeEngine::new(alloc, tower, shape, id, state)
}

/// What an engine answers to an input.
pub fn served(
    alloc: Global,
    mut engine: NodeEngine,
    input: &[u8],
) -> Result<(Result<u64, NodeFault>, MemSink), Fail> {
    let mut source = PlainSource::new(input);
    let mut sink = MemSink::new(alloc, 4096, vec![in alloc; 0; 0]?, vec![in alloc; 1; 0]?)?;
    let served = engine.serve(&mut Feed::new(&mut source), &mut sink);
    Ok((served, sink))
}

/// An input, what the node of a plan alone answers, and the cells that it writes.
type Alone = (&'static [u8], Result<u64, NodeFault>, &'static [u8]);

const CUT_AT_0: NodeFault = NodeFault::Cut {
    packet: 0,
    sender: 0,
};

const ALONE: [Alone; 3] = [
    (b"\x00\x01\x40", Ok(1), b"\x00\x01\x80\x00\x01\x00"),
    (b"\x00", Err(CUT_AT_0), b"\x00\x01\x80"),
    (b"", Ok(0), b"\x00\x01\x80"),
];

/// Whether a node alone answers so.
fn is_alone(alloc: Global, row: &Alone) -> Result<bool, Fail> {
    let engine = engine(alloc, &one(alloc)?, 0, b"\x80")?;
    let (answer, sink) = served(alloc, engine, row.0)?;
    Ok(answer == row.1 && sink.taken() == row.2)
}

#[test]
fn a_node_alone_drops_its_own_cell(rt: HostRuntime) -> Result<(), Fail> {
    for row in &ALONE {
        assert!(rt; is_alone(rt.alloc(), row)?, "{} bytes", row.0.len());
    }
    Ok(())
}

/// A packet of four nodes whose first cell is as long as a cell can be, and whose second is empty.
fn long_packet(alloc: Global) -> Result<Vec<u8>, AllocError> {
    let mut packet = Vec::from_slice(alloc, b"\xff\xff\xff".as_slice())?;
    for _ in 1..65535 {
        packet.push(0x77)?;
    }
    packet.extend_from_slice(b"\x00\x00\x00\x03\x00\x00\x00\x00\x03\x00\x00\x00")?;
    Ok(packet)
}

#[test]
fn a_cell_of_any_length_is_heard(rt: HostRuntime) -> Result<(), Fail> {
    let packet = long_packet(rt.alloc())?;
    let node = engine(rt.alloc(), &four(rt.alloc(), 10)?, 0, b"\x00\x00\x00")?;
    let (answer, sink) = served(rt.alloc(), node, &packet)?;
    assert!(rt; answer == Ok(1));
    let cells = b"\x00\x03\x00\x00\x00\x00\x03\x00\x11\x00".as_slice();
    assert!(rt; sink.taken() == cells);
    Ok(())
}

const PACKET: &[u8] = b"\x00\x03\x00\x00\x00\x00\x00\x00\x01\x07\x00\x03\x00\x00\x00";

/// In each row how many bytes there are of a packet of four nodes, and the first cell that is not
/// whole.
const CUTS: [(usize, u32); 10] = [
    (1, 0),
    (2, 0),
    (4, 0),
    (5, 1),
    (6, 1),
    (7, 2),
    (8, 2),
    (9, 2),
    (10, 3),
    (14, 3),
];

/// Whether so many bytes of it end in the cell of this sender.
fn is_cut(alloc: Global, bytes: usize, sender: u32) -> Result<bool, Fail> {
    let node = engine(alloc, &four(alloc, 10)?, 1, b"\x00\x07\x80")?;
    let front = PACKET.get(..bytes).unwrap_or_default();
    let (answer, sink) = served(alloc, node, front)?;
    let cut = answer == Err(NodeFault::Cut { packet: 0, sender });
    Ok(cut && sink.taken() == b"\x00\x03\x00\x07\x80".as_slice())
}

#[test]
fn a_packet_is_cut_at_each_byte(rt: HostRuntime) -> Result<(), Fail> {
    for row in &CUTS {
        assert!(rt; is_cut(rt.alloc(), row.0, row.1)?, "at {}", row.0);
    }
    Ok(())
}

/// Of three nodes and a spare one.
const SPARED: &[u8] = b"\x00\x02\x00\x00\x00\x02\x00\x14\x00\x02\x00\x00\x00\x01\x00";

/// Whether a node that hears that packet writes these cells.
fn hears_spare(alloc: Global, id: u32, cells: &[u8]) -> Result<bool, Fail>
    requires { id < 4 }
{
    let node = engine(alloc, &three_and_one(alloc)?, id, b"\x00\x00")?;
    let (answer, sink) = served(alloc, node, SPARED)?;
    Ok(answer == Ok(1) && sink.taken() == cells)
}

/// The spare node and the others have cells of their own lengths.
#[test]
fn a_spare_node_hears_and_is_heard(rt: HostRuntime) -> Result<(), Fail> {
    let cells = b"\x00\x02\x00\x00\x00\x02\x00\x44".as_slice();
    assert!(rt; hears_spare(rt.alloc(), 0, cells)?);
    let of_spare = b"\x00\x01\x00\x00\x01\x10".as_slice();
    assert!(rt; hears_spare(rt.alloc(), 3, of_spare)?);
    Ok(())
}

#[test]
fn a_node_keeps_its_state_until_it_steps(rt: HostRuntime) -> Result<(), Fail> {
    let plan = four(rt.alloc(), 10)?;
    let mut node = engine(rt.alloc(), &plan, 2, b"\x00\x15\x00")?;
    node.hear(0, b"\x00\x27\x00");
    assert!(rt; node.state().x() == 1);
    Ok(())
}

const TEXTS: [(NodeFault, &str); 4] = [
    (NodeFault::ReadFault, "a read failed"),
    (NodeFault::WriteFault, "a write failed"),
    (
        NodeFault::Cut {
            packet: 7,
            sender: 2,
        },
        "packet 7 ends in the cell of node 2",
    ),
    (NodeFault::TooLong, "there are too many packets"),
];

#[test]
fn errors_have_texts(rt: HostRuntime) -> Result<(), Fail> {
    for row in &TEXTS {
        let text = format!(in rt.alloc(); "{}", row.0)?;
        assert!(rt; text.as_str() == row.1, "{text}");
    }
    Ok(())
}
