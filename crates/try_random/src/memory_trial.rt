//! A node to which memory is refused. A tool refuses the allocation of a number that it was given;
//! how many there are before the call says which one of the call it is.

use crate::fault_trials::ONE_PACKET;
use edge_io::{NullSink, PlainSource};
use halving_texts::HalvingNodes;
use node_words::{NodeError, serve_node};
use std::alloc::Global;

/// Takes memory so many times and gives it back, whether it is refused or not.
fn spend(alloc: Global, count: u64) {
    for _ in 0..count {
        match Vec::<u8>::with_capacity(alloc, 1) {
            Ok(_) | Err(_) => {}
        }
    }
}

/// Gives a header and a packet to a node, after so many allocations, and prints its exit code and
/// how many bytes were taken.
pub fn try_node(rt: &HostRuntime, spent: u64) -> anyhow::Result<()> {
    let mut source = PlainSource::new(ONE_PACKET.input);
    let mut sink = NullSink::new();
    spend(rt.alloc(), spent);
    let code = match serve_node::<HalvingNodes, _, _>(rt.alloc(), &mut source, &mut sink) {
        Ok(_) => 0,
        Err(NodeError::NoMemory) => 10,
        Err(_) => 1,
    };
    let count = sink.count();
    println!(rt; "{code} {count}")?;
    Ok(())
}
