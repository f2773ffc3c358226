use crate::players::begun;
use counter_core::NoOverlay;
use plan_reader::read_whole_plan;
use round_runner::Runner;
use std::test::Fail;

const PLAN: &str = "plan 1\nbase 2304\nlevel 4 1 10\nend\n";

/// Node 3 says another state to nodes 1 and 2 than to node 0.
const SCRIPT: &str = "script 1
faulty 3
start zero
start node 2 000500
lie 0 9 3 to 1 2 hex 000500
lie 0 9 3 to all hex 000000
rounds 4
show 0 4
end
";

/// What nodes 0 to 2 show. Node 0 hears three zeros and keeps its value; the others hear two zeros
/// and two fives, and their values become infinite, and then that of node 0 too.
const ROWS: [[u64; 3]; 5] = [[0, 0, 5], [1, 0, 0], [0, 0, 0], [1, 1, 1], [2, 2, 2]];

/// Whether nodes 0 to 2 show these numbers.
fn shows(runner: &Runner<NoOverlay>, row: &[u64; 3]) -> bool {
    for v in 0..3 {
        if v >= runner.nodes() || runner.output(v) != row[v as usize] {
            return false;
        }
    }
    true
}

#[test]
fn rows_are_played(rt: HostRuntime) -> Result<(), Fail> {
    let plan = read_whole_plan(rt.alloc(), PLAN.as_bytes())?;
    let mut runner = begun(rt.alloc(), &plan, SCRIPT)?;
    for row in &ROWS {
        assert!(rt; shows(&runner, row));
        if runner.rounds_left() > 0 {
            runner.round();
        }
    }
    assert!(rt; runner.locked_at() == Some(3));
    Ok(())
}
