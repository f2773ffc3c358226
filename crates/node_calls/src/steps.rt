ghost use Rattle.std.specs.Prelude.{◌≡◌, ◌<◌, MatchResult, Ok, OnErr};
ghost use Rattle.node_calls.specs.Errors.{FailsAs};
ghost use Rattle.node_calls.specs.Answers.{step_in, step_answer};

use crate::CallError;
use crate::calls::counter_with_node;
use crate::hearing::{hear, node_of};
use machines::Machine;
use std::alloc::Global;

/// Steps node `id` of a machine after each packet.
fn step_in<M: Machine>(
    alloc: Global,
    machine: M,
    id: u32,
    state: &mut [u8],
    packets: &[u8],
) -> Result<u64, CallError>
    requires { id < (M.machine machine).nodes }
    ensures exact { MatchResult result
        (λ count. step_in id state.old packets.now (M.machine machine) ≡ Ok (count, state.new))
        (λ error. FailsAs error (step_in id state.old packets.now (M.machine machine))) }
    ensures unchanged { OnErr result (state.new ≡ state.old) }
{
    if state.len() != machine.bytes_of(id) {
        return Err(CallError::Length);
    }
    let mut engine = node_of(alloc, machine, id, state)?;
    match hear(&mut engine, packets) {
        Ok(count) => {
            engine.write_state(state);
            Ok(count)
        }
        Err(error) => Err(error),
    }
}

/// Steps node `id` of a plan after each of the packets, from the state whose bytes are given, and
/// puts the bytes of its new state in their place; answers how many packets these were. A state may
/// have any contents; with no packet it is brought into range.
///
/// `HalvingRefused` and `Refused` come as in [`counter_in`](crate::counter_in), then `Node`, then
/// `Length`, then `Cut` or `TooLong`. After an error the state is as it was.
pub fn step(
    alloc: Global,
    text: &[u8],
    id: u32,
    state: &mut [u8],
    packets: &[u8],
) -> Result<u64, CallError>
    ensures exact { MatchResult result
        (λ count. step_answer text.now id state.old packets.now ≡ Ok (count, state.new))
        (λ error. FailsAs error (step_answer text.now id state.old packets.now)) }
    ensures unchanged { OnErr result (state.new ≡ state.old) }
{
    let machine = counter_with_node(alloc, text, id)?;
    step_in(alloc, machine, id, state, packets)
}
