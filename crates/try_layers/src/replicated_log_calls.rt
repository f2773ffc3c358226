use plan_numbers::Plan;
use replicated_log::{LogError, LogRefusal, owner_at, read_log};
use std::alloc::Global;
use std::test::Fail;
use sync_types::Rule;
use try_counters::plans::four;

/// A text, how many bytes and lines its part has, and how many values a command has.
type ReadLog = (&'static str, usize, u64, u64);

const READ: [ReadLog; 3] = [
    (
        "log 1\nvalues 16\nkeep 8\ncommands 0 3\ncommands 1 5\ncommands 2 9 10\ncommands 3 1\n\
         end\nscript 1\n",
        82,
        8,
        16,
    ),
    (
        "log 1\n\nvalues 2\n#\nkeep 1\ncommands 0 0\ncommands 1 1\ncommands 2 0\ncommands 3 1\nend",
        80,
        10,
        2,
    ),
    (
        "log 1\nvalues 65536\nkeep 1024\ncommands 0 65535\ncommands 1 0\n\
         commands 2 0 1 2 3 4 5 6 7 8 9 10 11 12 13 14 15\ncommands 3 0\nend\n",
        125,
        8,
        65536,
    ),
];

/// Whether a part is read so. Node 3 owns the slot of the output 21.
fn is_read(alloc: Global, plan: &Plan, row: &ReadLog) -> Result<bool, Fail> {
    let read = read_log(alloc, plan, row.0.as_bytes(), 5)?;
    let part = read.1 == row.1 && read.2 == row.2 && read.0.values() == row.3;
    Ok(part && read.0.owner(21) == 3)
}

#[test]
fn a_log_is_read(rt: HostRuntime) -> Result<(), Fail> {
    let plan = four(rt.alloc(), 56)?;
    for row in &READ {
        assert!(rt; is_read(rt.alloc(), &plan, row)?, "at {}", row.0);
    }
    Ok(())
}

/// In each row a text, the line that is refused, and its rule.
const REFUSED: [(&str, u64, Rule); 22] = [
    ("", 5, Rule::Form),
    ("log 1 \n", 5, Rule::Form),
    ("log 1\r\n", 5, Rule::Form),
    ("log 2\n", 5, Rule::Form),
    ("log 1\nkeep 1\n", 6, Rule::Form),
    ("log 1\nvalues\n", 6, Rule::Form),
    ("log 1\nvalues 65537\n", 6, Rule::Limit),
    ("log 1\nvalues 1\n", 6, Rule::Range),
    ("log 1\nvalues 2 2\n", 6, Rule::Form),
    ("log 1\nvalues 2\nvalues 2\n", 7, Rule::Form),
    ("log 1\nvalues 2\nkeep 1025\n", 7, Rule::Limit),
    ("log 1\nvalues 2\nkeep 0\n", 7, Rule::Range),
    ("log 1\nvalues 2\nkeep 1\nend\n", 8, Rule::Form),
    ("log 1\nvalues 2\nkeep 1\ncommands 0\n", 8, Rule::Form),
    ("log 1\nvalues 2\nkeep 1\ncommands 1 1\n", 8, Rule::Node),
    ("log 1\nvalues 2\nkeep 1\ncommands 1 2\n", 8, Rule::Node),
    ("log 1\nvalues 2\nkeep 1\ncommands 0 1 2\n", 8, Rule::Range),
    ("log 1\nvalues 2\nkeep 1\ncommands 0 1 x\n", 8, Rule::Form),
    (
        "log 1\nvalues 2\nkeep 1\ncommands 1 0 0 0 0 0 0 0 0 0 0 0 0 0 0 0 2 0\n",
        8,
        Rule::Limit,
    ),
    (
        "log 1\nvalues 2\nkeep 1\ncommands 0 0\ncommands 1 0\ncommands 2 0\ncommands 3 0\n\
         commands 4 0\n",
        12,
        Rule::Form,
    ),
    (
        "log 1\nvalues 2\nkeep 1\ncommands 0 0\ncommands 1 0\ncommands 2 0\ncommands 3 0\n",
        12,
        Rule::Form,
    ),
    (
        "log 1\nvalues 2\nkeep 1\ncommands 0 0\ncommands 1 0\ncommands 2 0\nend\n",
        11,
        Rule::Form,
    ),
];

/// Whether a part that begins in line 5 is refused by this line and this rule.
fn is_refused(alloc: Global, plan: &Plan, text: &str, line: u64, rule: Rule) -> bool {
    let want = LogError::Refused(LogRefusal { line, rule });
    read_log(alloc, plan, text.as_bytes(), 5).err() == Some(want)
}

#[test]
fn a_line_is_refused_by_its_first_rule(rt: HostRuntime) -> Result<(), Fail> {
    let plan = four(rt.alloc(), 56)?;
    for row in &REFUSED {
        assert!(rt;
            is_refused(rt.alloc(), &plan, row.0, row.1, row.2),
            "at {}",
            row.0
        );
    }
    Ok(())
}

/// In each row a modulus, a text, the line that is refused, and its rule.
const MODULI: [(u64, &str, u64, Rule); 6] = [
    (28, "log 1\nvalues 1\n", 6, Rule::Range),
    (56, "log 1\nvalues 1\n", 6, Rule::Range),
    (7, "log 1\nvalues 1\n", 5, Rule::Slot),
    (12, "log 1\nvalues 1\n", 5, Rule::Slot),
    (55, "log 1\nvalues 1\n", 5, Rule::Slot),
    (55, "log 2\nvalues 1\n", 5, Rule::Form),
];

/// Whether the text of a row is refused so by a plan of its modulus.
fn is_unfit(alloc: Global, row: &(u64, &str, u64, Rule)) -> Result<bool, Fail> {
    let plan = four(alloc, row.0)?;
    Ok(is_refused(alloc, &plan, row.1, row.2, row.3))
}

#[test]
fn the_modulus_is_a_multiple_of_an_entry_of_each_node(rt: HostRuntime) -> Result<(), Fail> {
    for row in &MODULI {
        assert!(rt; is_unfit(rt.alloc(), row)?, "at {}", row.0);
    }
    Ok(())
}

/// Outputs of four nodes, and who owns the slot there.
const OWNERS: [(u64, u32); 7] = [(0, 0), (6, 0), (7, 1), (27, 3), (28, 0), (55, 3), (56, 0)];

#[test]
fn nodes_own_slots_in_turn(rt: HostRuntime) {
    for row in &OWNERS {
        assert!(rt; owner_at(4, 1, row.0) == row.1, "at {}", row.0);
    }
}

const TEXTS: [(LogError, &str); 2] = [
    (
        LogError::Refused(LogRefusal {
            line: 6,
            rule: Rule::Limit,
        }),
        "line 6 fails the rule Limit",
    ),
    (LogError::NoMemory, "out of memory"),
];

#[test]
fn errors_have_texts(rt: HostRuntime) -> Result<(), Fail> {
    for row in &TEXTS {
        let text = format!(in rt.alloc(); "{}", row.0)?;
        assert!(rt; text.as_str() == row.1, "{text}");
    }
    Ok(())
}
