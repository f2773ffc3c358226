ghost use Rattle.std.specs.Prelude.{◌≡◌, ◌<◌};
ghost use Rattle.construction.specs.Plans.{plan_nodes};

use crate::players::begun;
use counter_core::NoOverlay;
use edge_io::{Feed, MemSink, PlainSource};
use node_stepper::{NodeEngine, NodeFault};
use plan_machine::PlanMachine;
use plan_numbers::Plan;
use plan_reader::read_whole_plan;
use round_runner::Runner;
use state_codec::StateShape;
use std::alloc::Global;
use std::test::Fail;
use sync_types::{NoMemory, NodeState};

/// Node `v` in the state of these bytes.
fn engine(
    alloc: Global,
    plan: &Plan,
    v: u32,
    start: &[u8],
) -> Result<NodeEngine<PlanMachine>, NoMemory>
    requires { v < plan_nodes plan.now }
{
    let shape = StateShape::of(alloc, plan)?;
    let mut state = NodeState::zero(alloc, shape.depth())?;
    shape.read_state(v, start, &mut state);
    let machine = PlanMachine::with_shape(alloc, plan, shape)?;
    NodeEngine::of_machine(alloc, machine, v, state)
}

/// What node `v` hears of node `u` in the runner's round: its own state, the state of a correct
/// node, or a lie.
fn heard(alloc: Global, runner: &mut Runner<NoOverlay>, u: u32, v: u32) -> Result<Vec<u8>, Fail>
    ensures { runner.new ≡ runner.old }
{
    if u >= runner.nodes() || u >= runner.shape().nodes() || v >= runner.nodes() {
        return Err(Fail::new("no such node"));
    }
    let mut digits = vec![in alloc; 0; 2 * runner.shape().bytes_of(u)]?;
    let lies = runner.script().faulty_at(runner.at()).contains(u);
    if lies && u != v && runner.rounds_left() > 0 {
        runner.lie_hex(u, v, &mut digits);
    } else {
        runner.state_hex(u, &mut digits);
    }
    Ok(hex::decode(alloc, digits)?)
}

/// Adds the cell of a state.
fn put_cell(cells: &mut Vec<u8>, state: &[u8]) -> Result<(), Fail> {
    let Ok(length) = u16::try_from(state.len()) else {
        return Err(Fail::new("a long state"));
    };
    cells.extend_from_slice(&length.to_be_bytes())?;
    cells.extend_from_slice(state)?;
    Ok(())
}

/// The packets that node `v` is given in the rounds of a runner, and the cells of its states.
fn column(
    alloc: Global,
    runner: &mut Runner<NoOverlay>,
    v: u32,
) -> Result<(Vec<u8>, Vec<u8>), Fail> {
    let mut packets = Vec::new(alloc);
    let mut cells = Vec::new(alloc);
    put_cell(&mut cells, &heard(alloc, runner, v, v)?)?;
    for _ in 0..runner.rounds_left() {
        for u in 0..runner.nodes() {
            put_cell(&mut packets, &heard(alloc, runner, u, v)?)?;
        }
        if runner.rounds_left() > 0 {
            runner.round();
        }
        put_cell(&mut cells, &heard(alloc, runner, v, v)?)?;
    }
    Ok((packets, cells))
}

/// A plan of four nodes, a script of sixty rounds in which one of them lies, and which one.
const ROWS: [(&str, &str); 3] = [
    (
        "plan 1\nbase 2304\nlevel 4 1 10\nend\n",
        "script 1\nfaulty 3\nstart noise\nlie 0 19 3 to 0 1 noise\nlie 10 39 3 to all hex 0007ff\n\
         lie 0 59 3 to all copy 1\nrounds 60\nshow 0 0\nend\n",
    ),
    (
        "plan 2\nbase 576\nlevel 3 1 10 spare 1\nend\n",
        "script 1\nfaulty 3\nstart noise\nlie 0 29 3 to 0 1 noise\nlie 0 59 3 to all hex 78\n\
         rounds 60\nshow 0 0\nend\n",
    ),
    (
        "plan 2\nbase 576\nlevel 3 1 10 spare 1\nend\n",
        "script 1\nfaulty 0\nstart noise\nlie 0 59 0 to 1 2 noise\nlie 0 59 0 to all shift 3\n\
         rounds 60\nshow 0 0\nend\n",
    ),
];

/// What an engine answers to packets: how many, and the cells of its states.
fn served(
    alloc: Global,
    mut node: NodeEngine<PlanMachine>,
    packets: &[u8],
    room: usize,
) -> Result<(Result<u64, NodeFault>, MemSink), Fail> {
    let mut source = PlainSource::new(packets);
    let mut sink = MemSink::new(alloc, room, Vec::new(alloc), Vec::new(alloc))?;
    let answer = node.serve(&mut Feed::new(&mut source), &mut sink);
    Ok((answer, sink))
}

/// Whether a node that is given the packets of a script's rounds has the states that it has there.
fn plays_alike(alloc: Global, plan: &Plan, v: u32, script: &str) -> Result<bool, Fail> {
    let mut runner = begun(alloc, plan, script)?;
    let start = heard(alloc, &mut runner, v, v)?;
    let (packets, cells) = column(alloc, &mut runner, v)?;
    if v >= plan.nodes() {
        return Ok(false);
    }
    let node = engine(alloc, plan, v, &start)?;
    let (answer, sink) = served(alloc, node, &packets, cells.len())?;
    Ok(answer == Ok(60) && sink.taken() == cells.as_slice())
}

/// The faulty node too: it steps by what it hears, and says something else to the others.
#[test]
fn four_engines_play_the_rounds_of_a_script(rt: HostRuntime) -> Result<(), Fail> {
    for row in &ROWS {
        let plan = read_whole_plan(rt.alloc(), row.0.as_bytes())?;
        assert!(rt; plan.nodes() == 4);
        for v in 0..4 {
            let alike = plays_alike(rt.alloc(), &plan, v, row.1)?;
            assert!(rt; alike, "node {v} by {}", row.1);
        }
    }
    Ok(())
}
