use plan_numbers::Plan;
use replicated_log::{FireError, FireRefusal, read_fire};
use std::alloc::{AllocError, Global};
use std::test::Fail;
use sync_types::Rule;
use try_counters::plans::four;

/// A text, and how many bytes and lines its part has.
const READ: [(&str, usize, u64); 4] = [
    ("fire 1\nend\n", 11, 2),
    ("fire 1\nend", 10, 2),
    ("fire 1\nrequest 3 5 5\nend\nscript 1\n", 25, 3),
    (
        "# r\n\nfire 1\n#\nrequest 0 0 999999999999999\nend\n\n",
        46,
        6,
    ),
];

/// Whether a part has so many bytes and lines.
fn is_read(alloc: Global, plan: &Plan, row: &(&str, usize, u64)) -> Result<bool, Fail> {
    let read = read_fire(alloc, plan, row.0.as_bytes(), 7)?;
    Ok(read.1 == row.1 && read.2 == row.2)
}

#[test]
fn requests_are_read(rt: HostRuntime) -> Result<(), Fail> {
    let plan = four(rt.alloc(), 12)?;
    for row in &READ {
        assert!(rt; is_read(rt.alloc(), &plan, row)?, "at {}", row.0);
    }
    Ok(())
}

/// In each row a text, the line that is refused, and its rule.
const REFUSED: [(&str, u64, Rule); 15] = [
    ("", 7, Rule::Form),
    ("fire 1\n", 8, Rule::Form),
    ("fire 2\nend\n", 7, Rule::Form),
    ("fire  1\nend\n", 7, Rule::Form),
    ("fire 1\r\nend\r\n", 7, Rule::Form),
    ("request 0 0 0\nfire 1\nend\n", 7, Rule::Form),
    ("fire 1\nfire 1\nend\n", 8, Rule::Form),
    ("fire 1\nrequest 0 1\nend\n", 8, Rule::Form),
    ("fire 1\nrequest 0 1 2 3\nend\n", 8, Rule::Form),
    ("fire 1\nrequest 0 01 2\nend\n", 8, Rule::Form),
    ("fire 1\nrequest 0 0 1000000000000000\nend\n", 8, Rule::Form),
    ("fire 1\nrequest 4 0 0\nend\n", 8, Rule::Node),
    ("fire 1\nrequest 4 1 0\nend\n", 8, Rule::Node),
    ("fire 1\n\n#\nrequest 3 6 5\nend\n", 10, Rule::Range),
    ("fire 1\nrequest 0 0 0\n", 9, Rule::Form),
];

/// Whether a part that begins in line 7 is refused by this line and this rule.
fn is_refused(alloc: Global, plan: &Plan, text: &[u8], line: u64, rule: Rule) -> bool {
    let want = FireError::Refused(FireRefusal { line, rule });
    read_fire(alloc, plan, text, 7).err() == Some(want)
}

#[test]
fn a_line_is_refused_by_its_first_rule(rt: HostRuntime) -> Result<(), Fail> {
    let plan = four(rt.alloc(), 12)?;
    for row in &REFUSED {
        let refused = is_refused(rt.alloc(), &plan, row.0.as_bytes(), row.1, row.2);
        assert!(rt; refused, "at {}", row.0);
    }
    Ok(())
}

/// In each row a modulus, a text, and the rule that its first line fails, if any.
const MODULI: [(u64, &str, Option<Rule>); 6] = [
    (6, "fire 1\nend\n", None),
    (12, "fire 1\nend\n", None),
    (13, "fire 1\nrequest 9 1 0\n", Some(Rule::Slot)),
    (11, "fire 1\nend\n", Some(Rule::Slot)),
    (3, "fire 1\nend\n", Some(Rule::Slot)),
    (11, "fire 2\nend\n", Some(Rule::Form)),
];

/// Whether the text of a row is refused by its first line and its rule, or read.
fn fits(alloc: Global, row: &(u64, &str, Option<Rule>)) -> Result<bool, Fail> {
    let plan = four(alloc, row.0)?;
    let text = row.1.as_bytes();
    Ok(match row.2 {
        Some(rule) => is_refused(alloc, &plan, text, 7, rule),
        None => read_fire(alloc, &plan, text, 7).is_ok(),
    })
}

#[test]
fn the_modulus_is_a_multiple_of_a_slot(rt: HostRuntime) -> Result<(), Fail> {
    for row in &MODULI {
        assert!(rt; fits(rt.alloc(), row)?, "at {}", row.0);
    }
    Ok(())
}

/// A part with 256 requests, which does not end.
fn many_requests(alloc: Global) -> Result<Vec<u8>, AllocError> {
    let mut text = Vec::from_slice(alloc, b"fire 1\n")?;
    for _ in 0..256 {
        text.extend_from_slice(b"request 1 2 3\n")?;
    }
    Ok(text)
}

#[test]
fn a_part_has_256_requests_at_most(rt: HostRuntime) -> Result<(), Fail> {
    let plan = four(rt.alloc(), 12)?;
    let mut text = many_requests(rt.alloc())?;
    assert!(rt; is_refused(rt.alloc(), &plan, &text, 264, Rule::Form));
    text.extend_from_slice(b"request 4 1 0\nend\n")?;
    assert!(rt; is_refused(rt.alloc(), &plan, &text, 264, Rule::Limit));
    Ok(())
}

const TEXTS: [(FireError, &str); 2] = [
    (
        FireError::Refused(FireRefusal {
            line: 6,
            rule: Rule::Node,
        }),
        "line 6 fails the rule Node",
    ),
    (FireError::NoMemory, "out of memory"),
];

#[test]
fn errors_have_texts(rt: HostRuntime) -> Result<(), Fail> {
    for row in &TEXTS {
        let text = format!(in rt.alloc(); "{}", row.0)?;
        assert!(rt; text.as_str() == row.1, "{text}");
    }
    Ok(())
}
