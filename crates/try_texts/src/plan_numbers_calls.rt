use plan_numbers::{LevelNums, Plan, PremiseError, width};
use std::alloc::Global;
use std::test::Fail;
use sync_types::Premise;

/// A level's line: blocks, faults and modulus.
type Line = (u64, u64, u64);

fn plan_of(alloc: Global, base: u64, lines: &[Line]) -> Result<Plan, PremiseError> {
    let mut plan = Plan::base(alloc, base)?;
    for &(k, f, c) in lines {
        plan.push(k, f, c).map_err(PremiseError::Refused)?;
    }
    Ok(plan)
}

/// In each row how many numbers there are, and the bits that hold each of them.
const WIDTHS: [(u64, u32); 8] = [
    (0, 0),
    (1, 0),
    (2, 1),
    (5, 3),
    (8, 3),
    (9, 4),
    (1 << 40, 40),
    (u64::MAX, 64),
];

#[test]
fn widths_hold_the_numbers_below(rt: HostRuntime) {
    for row in &WIDTHS {
        assert!(rt; width(row.0) == row.1, "below {}", row.0);
    }
}

/// In each row a base, and the bits and bytes of a number below it.
const BASES: [(u64, u32, usize); 3] = [(5, 3, 1), (2, 1, 1), (1 << 40, 40, 5)];

/// Whether a plan is one node that counts by a row's base.
fn is_one_node(plan: &Plan, row: &(u64, u32, usize)) -> bool {
    plan.nodes() == 1
        && plan.faults() == 0
        && plan.depth() == 0
        && plan.base_modulus() == row.0
        && plan.modulus() == row.0
        && plan.bound() == 0
        && plan.bits() == row.1
        && plan.bytes() == row.2
}

#[test]
fn plans_without_levels_have_one_node(rt: HostRuntime) -> Result<(), Fail> {
    for row in &BASES {
        let plan = Plan::base(rt.alloc(), row.0)?;
        assert!(rt; is_one_node(&plan, row), "base {}", row.0);
    }
    Ok(())
}

/// The lines of a plan of base 2304, the bytes of a state, and the numbers of the last level.
type Top = (&'static [Line], usize, LevelNums);

const TOPS: [Top; 3] = [
    (
        &[(4, 1, 10)],
        3,
        LevelNums {
            blocks: 4,
            leaders: 2,
            nodes: 4,
            faults: 1,
            beat: 9,
            span: 2304,
            modulus: 10,
            spares: 0,
            bound: 2304,
            bits: 17,
        },
    ),
    (
        &[(4, 1, 960), (3, 3, 10)],
        4,
        LevelNums {
            blocks: 3,
            leaders: 2,
            nodes: 12,
            faults: 3,
            beat: 15,
            span: 960,
            modulus: 10,
            spares: 0,
            bound: 3264,
            bits: 28,
        },
    ),
    (
        &[(4, 1, 960), (3, 3, 1728), (3, 7, 10)],
        5,
        LevelNums {
            blocks: 3,
            leaders: 2,
            nodes: 36,
            faults: 7,
            beat: 27,
            span: 1728,
            modulus: 10,
            spares: 0,
            bound: 4992,
            bits: 40,
        },
    ),
];

/// Whether the last level of a plan has these numbers.
fn has_top(plan: &Plan, top: &LevelNums) -> bool {
    let depth = plan.depth();
    depth > 0 && plan.level(depth - 1) == top
}

/// Whether a plan has the numbers of a row.
fn has_numbers(plan: &Plan, row: &Top) -> bool {
    has_top(plan, &row.2)
        && plan.depth() == row.0.len()
        && plan.nodes() == row.2.nodes
        && plan.faults() == row.2.faults
        && plan.modulus() == 10
        && plan.bound() == row.2.bound
        && plan.bits() == row.2.bits
        && plan.bytes() == row.1
}

#[test]
fn plans_have_the_numbers_of_their_top_level(rt: HostRuntime) -> Result<(), Fail> {
    for row in &TOPS {
        let plan = plan_of(rt.alloc(), 2304, row.0)?;
        assert!(rt; has_numbers(&plan, row), "{} levels", row.0.len());
    }
    Ok(())
}

/// A base, the lines after it, and the premise that they fail.
type Refused = (u64, &'static [Line], Premise);

const REFUSED: [Refused; 10] = [
    (2304, &[(3, 1, 10)], Premise::Quorum),
    (2303, &[(4, 1, 10)], Premise::Multiple),
    (2304, &[(4, 1, 4608), (4, 4, 10)], Premise::Share),
    (2304, &[(2, 0, 10)], Premise::Blocks),
    (2304, &[(17, 0, 10)], Premise::Limit),
    (2304, &[(4, 1, 1)], Premise::Modulus),
    (1, &[(4, 1, 1)], Premise::Modulus),
    ((1 << 40) + 1, &[(4, 1, 10)], Premise::Limit),
    (1 << 40, &[(16, 0, 10)], Premise::Multiple),
    (2304, &[(16, 85, 1 << 40)], Premise::Quorum),
];

/// Whether a row's premise is the first that its lines fail.
fn is_refused(alloc: Global, row: &Refused) -> bool {
    plan_of(alloc, row.0, row.1).err() == Some(PremiseError::Refused(row.2))
}

#[test]
fn refusals_name_the_first_premise(rt: HostRuntime) {
    for row in &REFUSED {
        assert!(rt;
            is_refused(rt.alloc(), row),
            "{:?} at base {}",
            row.2,
            row.0
        );
    }
}

/// Two levels with a spare node each.
fn with_spares(alloc: Global) -> Result<Plan, PremiseError> {
    let mut plan = Plan::base_of(alloc, 2, 576)?;
    plan.push_with(3, 1, 960, 1).map_err(PremiseError::Refused)?;
    plan.push_with(3, 3, 10, 1).map_err(PremiseError::Refused)?;
    Ok(plan)
}

/// The numbers of the lower one.
const LOWER: LevelNums = LevelNums {
    blocks: 3,
    leaders: 2,
    nodes: 4,
    faults: 1,
    beat: 9,
    span: 576,
    modulus: 960,
    spares: 1,
    bound: 576,
    bits: 21,
};

/// Whether a plan has the numbers of these levels.
fn has_spares(plan: &Plan) -> bool {
    plan.depth() == 2
        && *plan.level(0) == LOWER
        && plan.level(1).block_nodes() == 4
        && plan.version() == 2
        && plan.nodes() == 13
        && plan.faults() == 3
        && plan.bound() == 1536
        && plan.bits() == 26
        && plan.bytes() == 4
}

/// How many levels stand below each node's own.
const LOWS: [usize; 13] = [0, 0, 0, 1, 0, 0, 0, 1, 0, 0, 0, 1, 2];

/// Whether each node of a plan has its level.
fn has_lows(plan: &Plan) -> bool {
    for v in 0..plan.nodes() {
        if LOWS.get(v as usize) != Some(&plan.low(v)) {
            return false;
        }
    }
    true
}

#[test]
fn spare_nodes_stand_behind_the_blocks(rt: HostRuntime) -> Result<(), Fail> {
    let plan = with_spares(rt.alloc())?;
    assert!(rt; has_spares(&plan));
    assert!(rt; has_lows(&plan));
    Ok(())
}

/// How many spares a level of three nodes gets, and the answer.
const SPARES: [(u64, Result<(), Premise>); 5] = [
    (0, Err(Premise::Quorum)),
    (1, Ok(())),
    (253, Ok(())),
    (254, Err(Premise::Limit)),
    (u64::MAX, Err(Premise::Limit)),
];

/// The answer to a level of three nodes and so many spares.
fn pushed(alloc: Global, spares: u64) -> Result<Result<(), Premise>, PremiseError> {
    let mut plan = Plan::base_of(alloc, 2, 576)?;
    Ok(plan.push_with(3, 1, 10, spares))
}

#[test]
fn spare_nodes_count_in_the_premises(rt: HostRuntime) -> Result<(), Fail> {
    for row in &SPARES {
        assert!(rt; pushed(rt.alloc(), row.0)? == row.1, "{} spares", row.0);
    }
    Ok(())
}

const TEXTS: [(PremiseError, &str); 2] = [
    (
        PremiseError::Refused(Premise::Share),
        "the line fails the premise Share",
    ),
    (PremiseError::NoMemory, "out of memory"),
];

#[test]
fn errors_have_texts(rt: HostRuntime) -> Result<(), Fail> {
    for row in &TEXTS {
        let text = format!(in rt.alloc(); "{}", row.0)?;
        assert!(rt; text.as_str() == row.1, "{text}");
    }
    Ok(())
}
