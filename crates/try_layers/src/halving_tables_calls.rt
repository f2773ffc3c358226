use halving_plan::HalvingPlan;
use halving_texts::{TableError, read_table};

/// The table of four nodes.
const FOUR: &str = "table halving 1\n\
     plan nodes 4 faults 1 modulus 1000\n\
     bound 16 levels 1 bits 19 bytes 3\n\
     group 0 nodes 4 faults 1 modulus 1000 share 5 left 3 right 3 kings 1 1 spares 2\n\
     group 0 nodes 1 faults 0 modulus 8\n\
     group 1 nodes 1 faults 0 modulus 3\n\
     node 0 bytes 3 output 3 10\n\
     node 1 bytes 3 output 2 10\n\
     node 2 bytes 2 output 0 10\n\
     node 3 bytes 2 output 0 10\n\
     end\n";

#[test]
fn a_table_is_read_as_its_plan(rt: HostRuntime) {
    let read = read_table(rt.alloc(), FOUR.as_bytes());
    let Ok(plan) = read else {
        assert!(rt; false);
        return;
    };
    assert!(rt; Ok(plan) == HalvingPlan::new(4, 1, 1000));
}

/// Texts, and their first line that differs from each table, or from that of the plan they state.
const DIFFER: [(&str, u64); 5] = [
    ("", 1),
    ("table halving 2\n", 1),
    ("table halving 1\nplan nodes 3 faults 1 modulus 10\n", 2),
    (
        "table halving 1\nplan nodes 1 faults 0 modulus 10\nbound 1 levels 0 bits 4 bytes 1\n",
        3,
    ),
    (
        "table halving 1\nplan nodes 1 faults 0 modulus 10\nbound 0 levels 0 bits 4 bytes 1\n",
        4,
    ),
];

#[test]
fn the_first_line_that_differs_is_named(rt: HostRuntime) {
    for row in &DIFFER {
        let read = read_table(rt.alloc(), row.0.as_bytes());
        assert!(rt; read == Err(TableError::Differs(row.1)), "at {}", row.0);
    }
}
