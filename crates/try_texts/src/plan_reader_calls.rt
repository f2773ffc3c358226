use edge_io::{Feed, LineBuf, PlainSource, feed_part};
use plan_numbers::{Plan, PremiseError};
use plan_reader::{PlanError, PlanLines, PlanRefusal, first_unskipped, read_plan, read_whole_plan};
use std::alloc::{AllocError, Global};
use std::test::Fail;
use sync_types::Premise;

const TWO_LEVELS: &str = "plan 1\nbase 2304\nlevel 4 1 960\nlevel 3 3 10\nend\n";

const ONE_SPARE: &str = "plan 2\nbase 576\nlevel 3 1 10 spare 1\nend\n";

/// A text, and the version, the base, the depth, the nodes and the modulus of its plan.
type ReadPlan = (&'static str, u32, u64, usize, u32, u64);

const READ: [ReadPlan; 8] = [
    ("plan 1\nbase 5\nend\n", 1, 5, 0, 1, 5),
    ("plan 1\nbase 5\nend", 1, 5, 0, 1, 5),
    ("plan 2\nbase 5\nend\n", 2, 5, 0, 1, 5),
    (
        "plan 1\nbase 1099511627776\nend\n",
        1,
        1099511627776,
        0,
        1,
        1099511627776,
    ),
    (TWO_LEVELS, 1, 2304, 2, 12, 10),
    (
        "\n# \r\nplan 1\n\nbase 2304\n#end\nlevel 4 1 10\nend\n#end\n\n",
        1,
        2304,
        1,
        4,
        10,
    ),
    (ONE_SPARE, 2, 576, 1, 4, 10),
    (
        "plan 2\nbase 2304\nlevel 4 1 576 spare 0\nlevel 3 1 10 spare 2\nend\n",
        2,
        2304,
        2,
        14,
        10,
    ),
];

/// Whether a plan has the numbers of a row.
fn has_numbers(plan: &Plan, row: &ReadPlan) -> bool {
    plan.version() == row.1
        && plan.base_modulus() == row.2
        && plan.depth() == row.3
        && plan.nodes() == row.4
        && plan.modulus() == row.5
}

#[test]
fn plans_are_read(rt: HostRuntime) -> Result<(), Fail> {
    for row in &READ {
        let plan = read_whole_plan(rt.alloc(), row.0.as_bytes())?;
        assert!(rt; has_numbers(&plan, row), "at {}", row.0);
    }
    Ok(())
}

/// In each row a text, the line that is refused, and the premise that it fails.
const REFUSED: [(&str, u64, Premise); 26] = [
    ("", 1, Premise::Form),
    ("plan 1\nbase 5\n", 3, Premise::Form),
    ("plan 1\nbase 1\n", 2, Premise::Modulus),
    ("plan 1\nbase 010\n", 2, Premise::Form),
    ("plan 1\nbase 1099511627777\n", 2, Premise::Limit),
    ("plan 1\nbase 2304\nlevel 3 1 10\nend\n", 3, Premise::Quorum),
    (
        "plan 1\nbase 2303\nlevel 4 1 10\nend\n",
        3,
        Premise::Multiple,
    ),
    (
        "plan 1\nbase 2304\nlevel 4 1 4608\nlevel 4 4 10\nend\n",
        4,
        Premise::Share,
    ),
    ("plan 1\nbase 2304\nlevel 2 0 10\n", 3, Premise::Blocks),
    ("plan 1\nbase 2304\nlevel 17 0 10\n", 3, Premise::Limit),
    ("plan 1\nbase 2304\nlevel 4 1 1\n", 3, Premise::Modulus),
    ("plan 1\nbase 2304\nlevel 4 1\n", 3, Premise::Form),
    ("plan 1\n\n# a base\nbase 1\n", 4, Premise::Modulus),
    ("plan 1\nbase  5\nend\n", 2, Premise::Form),
    ("plan 1\nbase 5 \nend\n", 2, Premise::Form),
    ("plan 1\nbase\t5\nend\n", 2, Premise::Form),
    ("plan 1\r\nbase 5\r\nend\r\n", 1, Premise::Form),
    ("plan 1\nbase 5\nend\n\n# more\nend\n", 6, Premise::Form),
    ("plan 3\nbase 5\nend\n", 1, Premise::Form),
    (
        "plan 2\nbase 576\nlevel 3 1 10 spare 0\nend\n",
        3,
        Premise::Quorum,
    ),
    ("plan 2\nbase 576\nlevel 3 1 10\nend\n", 3, Premise::Form),
    (
        "plan 2\nbase 576\nlevel 3 1 10 spares 1\nend\n",
        3,
        Premise::Form,
    ),
    (
        "plan 2\nbase 576\nlevel 3 1 10 spare 1 1\nend\n",
        3,
        Premise::Form,
    ),
    (
        "plan 1\nbase 576\nlevel 3 1 10 spare 1\nend\n",
        3,
        Premise::Form,
    ),
    (
        "plan 1\nbase 2304\nlevel 4 1 10 spare 0\nend\n",
        3,
        Premise::Form,
    ),
    (
        "plan 2\nbase 576\nlevel 3 1 10 spare 254\nend\n",
        3,
        Premise::Limit,
    ),
];

/// Whether a text is refused by this line and this premise.
fn is_refused(alloc: Global, text: &[u8], line: u64, premise: Premise) -> bool {
    let want = PlanError::Refused(PlanRefusal { line, premise });
    read_whole_plan(alloc, text).err() == Some(want)
}

#[test]
fn plans_are_refused(rt: HostRuntime) {
    for row in &REFUSED {
        let refused = is_refused(rt.alloc(), row.0.as_bytes(), row.1, row.2);
        assert!(rt; refused, "at {}", row.0);
    }
}

/// In each row a text, how many bytes and lines its plan has, and the base and the depth of that.
type Part = (&'static str, usize, u64, u64, usize);

const PARTS: [Part; 2] = [
    ("plan 1\n# a base\nbase 5\nend\nscript 1\n", 27, 4, 5, 0),
    (TWO_LEVELS, 48, 5, 2304, 2),
];

/// Whether the plan at the beginning of a text is that of a row.
fn is_part(alloc: Global, row: &Part) -> Result<bool, Fail> {
    let (plan, bytes, lines) = read_plan(alloc, row.0.as_bytes())?;
    let holds = bytes == row.1
        && lines == row.2
        && plan.base_modulus() == row.3
        && plan.depth() == row.4;
    Ok(holds)
}

#[test]
fn a_plan_is_a_part_of_a_text(rt: HostRuntime) -> Result<(), Fail> {
    for row in &PARTS {
        assert!(rt; is_part(rt.alloc(), row)?, "at {}", row.0);
    }
    Ok(())
}

#[test]
fn a_plan_is_read_from_a_feed(rt: HostRuntime) -> Result<(), Fail> {
    let mut source = PlainSource::new(b"plan 1\n# a base\nbase 5\nend\nx");
    let mut feed = Feed::new(&mut source);
    let mut line = LineBuf::new(rt.alloc())?;
    let lines = PlanLines::new(rt.alloc());
    let found = feed_part(&mut feed, &mut line, lines, Premise::Form, 1, 27);
    let read = found.map(|part| (part.value.modulus(), part.lines, part.ended));
    assert!(rt; read == Ok((5, 4, false)));
    assert!(rt; feed.byte() == Ok(Some(b'x')));
    Ok(())
}

/// All lines of a plan but its last.
const LINES: [&str; 5] = [
    "plan 2",
    "",
    "base 576",
    "# \r a  spare",
    "level 3 1 10 spare 1",
];

/// A reader of all lines of a plan but its last, if it takes them.
fn all_but_end(alloc: Global) -> Option<PlanLines> {
    let mut lines = PlanLines::new(alloc);
    for line in &LINES {
        if !matches!(lines.take(line.as_bytes()), Ok(None)) {
            return None;
        }
    }
    Some(lines)
}

/// Whether this line after them is not of the grammar.
fn fails_form(alloc: Global, line: &str) -> bool {
    match all_but_end(alloc) {
        Some(mut lines) => {
            lines.take(line.as_bytes()).err() == Some(PremiseError::Refused(Premise::Form))
        }
        None => false,
    }
}

/// Whether `end` after them gives a plan of four nodes.
fn ends(alloc: Global) -> bool {
    match all_but_end(alloc) {
        Some(mut lines) => matches!(lines.take(b"end"), Ok(Some(plan)) if plan.nodes() == 4),
        None => false,
    }
}

const OTHER_ENDS: [&str; 4] = ["end ", "end\r", "\r", "level 3 1 10"];

#[test]
fn lines_are_taken_one_by_one(rt: HostRuntime) {
    for line in &OTHER_ENDS {
        assert!(rt; fails_form(rt.alloc(), line), "at {line}");
    }
    assert!(rt; ends(rt.alloc()));
}

/// A plan, and after it a comment of so many bytes.
fn commented(alloc: Global, bytes: usize) -> Result<Vec<u8>, AllocError> {
    let mut text = Vec::from_slice(alloc, b"plan 1\nbase 5\nend\n")?;
    for _ in 0..bytes {
        text.push(b'#')?;
    }
    Ok(text)
}

#[test]
fn a_line_has_4096_bytes_at_most(rt: HostRuntime) -> Result<(), Fail> {
    let whole = commented(rt.alloc(), 4096)?;
    assert!(rt; read_whole_plan(rt.alloc(), &whole).is_ok());
    let long = commented(rt.alloc(), 4097)?;
    assert!(rt; is_refused(rt.alloc(), &long, 4, Premise::Form));
    assert!(rt; first_unskipped(b"\n# a\nb\n", 7) == Some(9));
    Ok(())
}

const TEXTS: [(PlanError, &str); 2] = [
    (
        PlanError::Refused(PlanRefusal {
            line: 3,
            premise: Premise::Quorum,
        }),
        "line 3 of the plan fails the premise Quorum",
    ),
    (PlanError::NoMemory, "out of memory"),
];

#[test]
fn errors_have_texts(rt: HostRuntime) -> Result<(), Fail> {
    for row in &TEXTS {
        let text = format!(in rt.alloc(); "{}", row.0)?;
        assert!(rt; text.as_str() == row.1, "{text}");
    }
    Ok(())
}
