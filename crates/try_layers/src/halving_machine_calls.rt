//! The machine of a plan has room for the states of its nodes.

use crate::halving_plan_calls::plan_of;
use halving_plan::HalvingMachine;
use machines::Machine;
use std::test::Fail;

/// Nodes, faults and modulus, and how many bytes bench/tools/halving_counter.py gives a state of the
/// first node, and of the last one.
const BYTES: [(u64, u64, u64, usize, usize); 4] = [
    (1, 0, 1000, 2, 2),
    (4, 1, 1000, 3, 2),
    (13, 4, 1000, 4, 3),
    (256, 85, 1000, 11, 3),
];

#[test]
fn states_have_so_many_bytes(rt: HostRuntime) -> Result<(), Fail> {
    for (nodes, faults, modulus, first, last) in &BYTES {
        let machine = HalvingMachine::new(rt.alloc(), plan_of(&rt, *nodes, *faults, *modulus))?;
        machine.facts();
        assert!(rt; machine.bytes_of(0) == *first, "{nodes} nodes");
        assert!(rt;
            machine.bytes_of(machine.nodes() - 1) == *last,
            "{nodes} nodes"
        );
    }
    Ok(())
}
