use std::test::Fail;
use sync_types::{FaultSet, NoMemory, NodeState};

/// Nodes, and whether they are faulty if 0, 4 and 8 are.
const ROWS: [(u32, bool); 5] = [(0, true), (4, true), (5, false), (8, true), (12, false)];

/// Whether a set of twelve nodes holds 0, 4 and 8.
fn holds_three(set: &FaultSet) -> bool {
    for row in &ROWS {
        if set.contains(row.0) != row.1 {
            return false;
        }
    }
    set.len() == 3 && set.at(1) == 4 && set.marks().len() == 12 && set.nodes() == 12
}

#[test]
fn ids_that_were_pushed_are_faulty(rt: HostRuntime) -> Result<(), Fail> {
    let mut set = FaultSet::new(rt.alloc(), 12)?;
    assert!(rt; set.is_empty());
    set.push(0);
    set.push(4);
    set.push(8);
    assert!(rt; holds_three(&set));
    Ok(())
}

#[test]
fn zero_states_stand_one_for_each_node(rt: HostRuntime) -> Result<(), Fail> {
    let states = NodeState::zeros(rt.alloc(), 3, 2)?;
    assert!(rt; states.len() == 3);
    assert!(rt;
        states
            .iter()
            .all(|state| state.depth() == 2 && state.x() == 0)
    );
    Ok(())
}

#[test]
fn want_of_memory_has_a_text(rt: HostRuntime) -> Result<(), Fail> {
    let text = format!(in rt.alloc(); "{NoMemory}")?;
    assert!(rt; text.as_str() == "out of memory");
    Ok(())
}
