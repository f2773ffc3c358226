ghost use Rattle.std.specs.Prelude.{◌≤◌, IfOk};
ghost use Rattle.construction.specs.Plans.{plan_depth};

use crate::players::begun;
use plan_numbers::Plan;
use plan_reader::read_whole_plan;
use run_checker::{Explanation, check_explanation, explain};
use run_explanations::first_explanation;
use std::alloc::Global;
use std::test::Fail;

const FOUR: &str = "plan 1\nbase 2304\nlevel 4 1 8\nend\n";

/// Node 3 is a spare.
const SPARE: &str = "plan 2\nbase 576\nlevel 3 1 10 spare 1\nend\n";

const LONG: &str = "script 1\nfaulty 0\nstart zero\nrounds 900\nshow 0 0\nend\n";

/// Five eras, of which the last begins in configuration 898,555.
const ERAS: &str = "script 2
faulty 3
start zero
era 7 faulty
era 300000 faulty 1
era 300004 faulty
era 898555 faulty 3
lie 0 999999 3 to all hex 000700
rounds 1000000
show 0 0
end
";

/// A plan, the faulty nodes and what follows, and what explains.
type Row = (&'static str, &'static str, Option<Explanation>);

const ROWS: [Row; 9] = [
    (
        FOUR,
        "script 1\nfaulty\nstart zero\nrounds 12\nshow 0 0\nend\n",
        Some(Explanation {
            window: 0,
            leader: 0,
            phase: 0,
            king: 0,
        }),
    ),
    // The window ends with the last configuration.
    (
        FOUR,
        "script 1\nfaulty\nstart zero\nrounds 8\nshow 0 0\nend\n",
        Some(Explanation {
            window: 0,
            leader: 0,
            phase: 0,
            king: 0,
        }),
    ),
    (
        FOUR,
        "script 1\nfaulty\nstart zero\nrounds 7\nshow 0 0\nend\n",
        None,
    ),
    // Block 0 is not sound, and the phase from 756 on is that of node 0.
    (
        FOUR,
        LONG,
        Some(Explanation {
            window: 756,
            leader: 1,
            phase: 759,
            king: 1,
        }),
    ),
    // In configurations 18 to 26 all blocks point to block 0 again.
    (
        FOUR,
        "script 2\nfaulty 3\nstart zero\nera 5 faulty\nrounds 26\nshow 0 0\nend\n",
        Some(Explanation {
            window: 18,
            leader: 0,
            phase: 18,
            king: 0,
        }),
    ),
    (
        FOUR,
        "script 2\nfaulty\nstart zero\nera 5 faulty 3\nrounds 25\nshow 0 0\nend\n",
        None,
    ),
    // From 898560 on, which is 390 times 2304, all blocks point to block 0 for a beat; before it to
    // block 1. The rounds between are locked.
    (
        FOUR,
        ERAS,
        Some(Explanation {
            window: 898_560,
            leader: 0,
            phase: 898_560,
            king: 0,
        }),
    ),
    // King 0 is faulty in the last era, as is block 0 then: the next window is that of block 1.
    (
        FOUR,
        "script 2\nfaulty\nstart zero\nera 400000 faulty 3\nera 898555 faulty 0\n\
         rounds 1000000\nshow 0 0\nend\n",
        Some(Explanation {
            window: 899_316,
            leader: 1,
            phase: 899_319,
            king: 1,
        }),
    ),
    (
        SPARE,
        "script 1\nfaulty 3\nstart zero\nrounds 12\nshow 0 0\nend\n",
        Some(Explanation {
            window: 0,
            leader: 0,
            phase: 0,
            king: 0,
        }),
    ),
];

/// The plan of a text, which has a level.
fn plan_of(alloc: Global, text: &str) -> Result<Plan, Fail>
    ensures { IfOk result (λ plan. 1 ≤ plan_depth plan) }
{
    let plan = read_whole_plan(alloc, text.as_bytes())?;
    if plan.depth() == 0 {
        return Err(Fail::new("a level"));
    }
    Ok(plan)
}

/// Whether what explains a row's run is that of the row, and all of it was played.
fn is_explained(alloc: Global, row: &Row) -> Result<bool, Fail> {
    let plan = plan_of(alloc, row.0)?;
    let mut runner = begun(alloc, &plan, row.1)?;
    Ok(explain(&plan, &mut runner) == row.2 && runner.rounds_left() == 0)
}

/// Whether the same is found when no more is played than that takes.
fn is_found(alloc: Global, row: &Row) -> Result<bool, Fail> {
    let plan = plan_of(alloc, row.0)?;
    let mut runner = begun(alloc, &plan, row.1)?;
    Ok(first_explanation(&plan, &mut runner) == row.2 && runner.knows_locks())
}

#[test]
fn first_explanations(rt: HostRuntime) -> Result<(), Fail> {
    for row in &ROWS {
        assert!(rt; is_explained(rt.alloc(), row)?, "at {}", row.1);
        assert!(rt; is_found(rt.alloc(), row)?, "at {}", row.1);
    }
    Ok(())
}

/// A window and its leader, a phase and its king, and whether they explain the run in which node 0
/// is faulty for 900 rounds.
type Tried = (u64, u32, u64, u32, bool);

const TRIED: [Tried; 7] = [
    (756, 1, 759, 1, true),
    (757, 1, 759, 1, true),
    (756, 1, 756, 0, false),
    (756, 0, 759, 1, false),
    (755, 1, 759, 1, false),
    (756, 1, 765, 0, false),
    (u64::MAX, 1, u64::MAX, 4_294_967_295, false),
];

/// Whether the numbers of a row explain that run.
fn holds(alloc: Global, row: &Tried) -> Result<bool, Fail> {
    let plan = plan_of(alloc, FOUR)?;
    let mut runner = begun(alloc, &plan, LONG)?;
    let explanation = Explanation {
        window: row.0,
        leader: row.1,
        phase: row.2,
        king: row.3,
    };
    Ok(check_explanation(&plan, &mut runner, &explanation))
}

#[test]
fn explanations_that_hold(rt: HostRuntime) -> Result<(), Fail> {
    for row in &TRIED {
        let same = holds(rt.alloc(), row)? == row.4;
        assert!(rt; same, "window {}, phase {}", row.0, row.2);
    }
    Ok(())
}
