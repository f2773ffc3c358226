use plan_numbers::Plan;
use slot_table::{SlotError, SlotRefusal, read_slots};
use std::alloc::Global;
use std::test::Fail;
use sync_types::Rule;
use try_counters::plans::one;

/// A text, how many bytes and lines its part has, and who holds at the outputs 2 and 4.
type ReadTable = (&'static str, usize, u64, Option<u32>, Option<u32>);

const READ: [ReadTable; 3] = [
    ("slots 1\nslot 0 1 2\nend\nscript 1\n", 23, 3, Some(0), None),
    (
        "slots 1\nslot 0 0 0\n#\nslot 0 4 4\nend",
        35,
        5,
        None,
        Some(0),
    ),
    ("slots 1\n\nend\n", 13, 3, None, None),
];

/// Whether a part is read so.
fn is_read(alloc: Global, plan: &Plan, row: &ReadTable) -> Result<bool, Fail> {
    let read = read_slots(alloc, plan, row.0.as_bytes(), 4)?;
    let holders = read.0.holder(2) == row.3 && read.0.holder(4) == row.4;
    Ok(holders && read.1 == row.1 && read.2 == row.2)
}

#[test]
fn a_table_is_read(rt: HostRuntime) -> Result<(), Fail> {
    let plan = one(rt.alloc())?;
    for row in &READ {
        assert!(rt; is_read(rt.alloc(), &plan, row)?, "at {}", row.0);
    }
    Ok(())
}

/// In each row a text, the line that is refused, and its rule.
const REFUSED: [(&str, u64, Rule); 15] = [
    ("", 4, Rule::Form),
    ("slots 2\n", 4, Rule::Form),
    ("slots 1 \n", 4, Rule::Form),
    ("slots 1\nslot 0 1\n", 5, Rule::Form),
    ("slots 1\nslot 0 1 2 3\n", 5, Rule::Form),
    ("slots 1\nslot 0 1 x\n", 5, Rule::Form),
    ("slots 1\nslot 1 0 0\n", 5, Rule::Node),
    ("slots 1\nslot 1 3 2\n", 5, Rule::Node),
    ("slots 1\nslot 0 3 2\n", 5, Rule::Range),
    ("slots 1\nslot 0 3 5\n", 5, Rule::Range),
    ("slots 1\nslot 0 1 2\nslot 0 2 3\n", 6, Rule::Overlap),
    ("slots 1\nslot 0 1 2\nslot 0 0 1\n", 6, Rule::Overlap),
    ("slots 1\nslot 0 0 4\nslot 0 2 2\n", 6, Rule::Overlap),
    ("slots 1\nslot 0 2 2\nslot 0 0 4\n", 6, Rule::Overlap),
    ("slots 1\nslot 0 1 2\nslot 0 3 3\n", 7, Rule::Form),
];

/// Whether a part that begins in line 4 is refused by this line and this rule.
fn is_refused(alloc: Global, plan: &Plan, text: &str, line: u64, rule: Rule) -> bool {
    let want = SlotError::Refused(SlotRefusal { line, rule });
    read_slots(alloc, plan, text.as_bytes(), 4).err() == Some(want)
}

#[test]
fn a_line_is_refused_by_its_first_rule(rt: HostRuntime) -> Result<(), Fail> {
    let plan = one(rt.alloc())?;
    for row in &REFUSED {
        assert!(rt;
            is_refused(rt.alloc(), &plan, row.0, row.1, row.2),
            "at {}",
            row.0
        );
    }
    Ok(())
}

const TEXTS: [(SlotError, &str); 2] = [
    (
        SlotError::Refused(SlotRefusal {
            line: 6,
            rule: Rule::Overlap,
        }),
        "line 6 fails the rule Overlap",
    ),
    (SlotError::NoMemory, "out of memory"),
];

#[test]
fn errors_have_texts(rt: HostRuntime) -> Result<(), Fail> {
    for row in &TEXTS {
        let text = format!(in rt.alloc(); "{}", row.0)?;
        assert!(rt; text.as_str() == row.1, "{text}");
    }
    Ok(())
}
