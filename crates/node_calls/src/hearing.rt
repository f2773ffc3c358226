ghost use Rattle.std.specs.Prelude.{◌≡◌, ◌<◌, IfOk};
ghost use Rattle.state_codec.specs.Reading.{read};
ghost use Rattle.node_stepper.specs.Nodes.{begun};
ghost use Rattle.node_calls.specs.Hearing.{Hears};

use crate::CallError;
use edge_io::{Feed, NullSink, PlainSource};
use machines::Machine;
use node_stepper::{NodeEngine, NodeFault};
use std::alloc::Global;
use sync_types::{NoMemory, NodeState};

/// Node `id` of a machine in the state that bytes stand for, which has heard nobody.
pub(crate) fn node_of<M: Machine>(
    alloc: Global,
    machine: M,
    id: u32,
    state: &[u8],
) -> Result<NodeEngine<M>, NoMemory>
    requires { id < (M.machine machine).nodes }
    ensures { IfOk result (λ e. e
        ≡ begun M.machine machine id (read ((M.machine machine).fields id) state.now)) }
{
    machine.facts();
    let mut own = NodeState::zero(alloc, machine.depth())?;
    machine.read_state(id, state, &mut own);
    NodeEngine::of_machine(alloc, machine, id, own)
}

/// Hears packets and steps after each: the answer is how many these were.
pub(crate) fn hear<M: Machine>(engine: &mut NodeEngine<M>, packets: &[u8]) -> Result<u64, CallError>
    ensures { Hears M.machine engine.old engine.new packets.now result }
{
    let mut source = PlainSource::new(packets);
    let mut feed = Feed::new(&mut source);
    let mut sink = NullSink::new();
    match engine.serve(&mut feed, &mut sink) {
        Ok(count) => Ok(count),
        Err(NodeFault::Cut { packet, sender }) => Err(CallError::Cut { packet, sender }),
        Err(NodeFault::TooLong) => Err(CallError::TooLong),
        Err(NodeFault::ReadFault) => unreachable!(),
        Err(NodeFault::WriteFault) => unreachable!(),
    }
}
