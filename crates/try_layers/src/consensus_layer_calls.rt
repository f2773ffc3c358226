ghost use Rattle.std.specs.Prelude.{◌<◌};
ghost use Rattle.construction.specs.Plans.{plan_nodes};

use consensus_layer::{AgreeError, AgreeRefusal, agree_at, read_agree};
use counter_core::{Heard, Work};
use plan_numbers::Plan;
use std::alloc::Global;
use std::test::Fail;
use sync_types::{NodeState, Reg, Rule};
use try_counters::plans::four;

/// A text, how many bytes and lines its part has, and how many values an input has.
type ReadInputs = (&'static str, usize, u64, u64);

const READ: [ReadInputs; 2] = [
    (
        "agree 1\nvalues 2\ninputs 1 1 1 0\nend\nscript 1\n",
        36,
        4,
        2,
    ),
    (
        "agree 1\n\nvalues 65536\n#\ninputs 65535 0 1 2\nend",
        46,
        6,
        65536,
    ),
];

/// Whether a part is read so. Its slots have six rounds, and nothing is decided yet.
fn is_read(alloc: Global, plan: &Plan, row: &ReadInputs) -> Result<bool, Fail>
    requires { 3 < plan_nodes plan.now }
{
    let read = read_agree(alloc, plan, row.0.as_bytes(), 5)?;
    let part = read.1 == row.1 && read.2 == row.2 && read.0.values() == row.3;
    Ok(part && read.0.slot_length() == 6 && read.0.decision(3) == 0)
}

#[test]
fn inputs_are_read(rt: HostRuntime) -> Result<(), Fail> {
    let plan = four(rt.alloc(), 12)?;
    for row in &READ {
        assert!(rt; is_read(rt.alloc(), &plan, row)?, "at {}", row.0);
    }
    Ok(())
}

/// In each row a text, the line that is refused, and its rule.
const REFUSED: [(&str, u64, Rule); 14] = [
    ("", 5, Rule::Form),
    ("agree 2\n", 5, Rule::Form),
    ("agree 1\ninputs 1 1 1 0\n", 6, Rule::Form),
    ("agree 1\nvalues\n", 6, Rule::Form),
    ("agree 1\nvalues 2 2\n", 6, Rule::Form),
    ("agree 1\nvalues 65537\n", 6, Rule::Limit),
    ("agree 1\nvalues 1\n", 6, Rule::Range),
    ("agree 1\nvalues 2\ninputs 1 1 1\n", 7, Rule::Form),
    ("agree 1\nvalues 2\ninputs 1 1 1 0 0\n", 7, Rule::Form),
    ("agree 1\nvalues 2\ninputs 2 1 1\n", 7, Rule::Form),
    ("agree 1\nvalues 2\ninputs 1 1 1 x\n", 7, Rule::Form),
    ("agree 1\nvalues 2\ninputs 1 1 1 2\n", 7, Rule::Range),
    (
        "agree 1\nvalues 2\ninputs 1 1 1 0\ninputs 1 1 1 0\n",
        8,
        Rule::Form,
    ),
    ("agree 1\nvalues 2\ninputs 1 1 1 0\n", 8, Rule::Form),
];

/// Whether a part that begins in line 5 is refused by this line and this rule.
fn is_refused(alloc: Global, plan: &Plan, text: &str, line: u64, rule: Rule) -> bool {
    let want = AgreeError::Refused(AgreeRefusal { line, rule });
    read_agree(alloc, plan, text.as_bytes(), 5).err() == Some(want)
}

#[test]
fn a_line_is_refused_by_its_first_rule(rt: HostRuntime) -> Result<(), Fail> {
    let plan = four(rt.alloc(), 12)?;
    for row in &REFUSED {
        assert!(rt;
            is_refused(rt.alloc(), &plan, row.0, row.1, row.2),
            "at {}",
            row.0
        );
    }
    Ok(())
}

/// In each row a modulus, a text, the line that is refused, and its rule.
const MODULI: [(u64, &str, u64, Rule); 4] = [
    (6, "agree 1\nvalues 1\n", 6, Rule::Range),
    (10, "agree 1\nvalues 1\n", 5, Rule::Slot),
    (3, "agree 1\nvalues 1\n", 5, Rule::Slot),
    (10, "agree 2\nvalues 1\n", 5, Rule::Form),
];

/// Whether the text of a row is refused so by a plan of its modulus.
fn is_unfit(alloc: Global, row: &(u64, &str, u64, Rule)) -> Result<bool, Fail> {
    let plan = four(alloc, row.0)?;
    Ok(is_refused(alloc, &plan, row.1, row.2, row.3))
}

#[test]
fn the_modulus_is_a_multiple_of_a_slot(rt: HostRuntime) -> Result<(), Fail> {
    for row in &MODULI {
        assert!(rt; is_unfit(rt.alloc(), row)?, "at {}", row.0);
    }
    Ok(())
}

const TEXTS: [(AgreeError, &str); 2] = [
    (
        AgreeError::Refused(AgreeRefusal {
            line: 6,
            rule: Rule::Slot,
        }),
        "line 6 fails the rule Slot",
    ),
    (AgreeError::NoMemory, "out of memory"),
];

#[test]
fn errors_have_texts(rt: HostRuntime) -> Result<(), Fail> {
    for row in &TEXTS {
        let text = format!(in rt.alloc(); "{}", row.0)?;
        assert!(rt; text.as_str() == row.1, "{text}");
    }
    Ok(())
}

const ZERO: Reg = Reg {
    a: Some(0),
    d: false,
};

const MARKED: Reg = Reg {
    a: Some(0),
    d: true,
};

/// A kind, and the register that it gives if all have 0, unmarked.
const INSTRUCTED: [(u64, Reg); 3] = [(0, ZERO), (1, MARKED), (2, MARKED)];

/// Whether node 1 of four has the register of a row, under king 2.
fn is_instructed(alloc: Global, row: &(u64, Reg)) -> Result<bool, Fail> {
    let states = NodeState::zeros(alloc, 4, 1)?;
    let mut work = Work::new(alloc, 4)?;
    let register = agree_at(&Heard::of(&states), 1, 0, row.0 % 3, 2, 4, 1, &mut work);
    Ok(register == row.1)
}

#[test]
fn a_register_is_instructed(rt: HostRuntime) -> Result<(), Fail> {
    for row in &INSTRUCTED {
        assert!(rt; is_instructed(rt.alloc(), row)?, "kind {}", row.0);
    }
    Ok(())
}
