use edge_io::MemSink;
use plan_finder::{
    FindError, FindRefusal, Found, Pot, check_potentials, find, read_find, write_found,
};
use std::alloc::Global;
use std::test::Fail;
use sync_types::Rule;

/// What is found for an input.
fn found_for(alloc: Global, input: &str) -> Result<Found, Fail> {
    let want = read_find(input.as_bytes())?;
    Ok(find(alloc, want.faults, want.modulus, want.most)?)
}

/// What is written of what is found for an input. A second write would fail.
fn written_for(alloc: Global, input: &str) -> Result<MemSink, Fail> {
    let found = found_for(alloc, input)?;
    let mut sink = MemSink::new(alloc, 4096, vec![in alloc; 2]?, Vec::new(alloc))?;
    write_found(&found, &mut sink)?;
    Ok(sink)
}

/// Inputs, and what is written for each.
const FOUND: [(&str, &str); 3] = [
    (
        "find 1\nwant 1 10 4\nend\n",
        "plan 1\nbase 2304\nlevel 4 1 10\nend\npot 1 0 0\npot 3 0 384\npot 4 0 1536\n\
         pot 4 1 2304\n",
    ),
    (
        "# none of three nodes\nfind 1\n\nwant 1 10 3\nend\n",
        "none\npot 1 0 0\npot 3 0 384\n",
    ),
    (
        "find 1\nwant 0 5 1\nend",
        "plan 1\nbase 5\nend\npot 1 0 0\n",
    ),
];

#[test]
fn the_worked_rows_are_found(rt: HostRuntime) -> Result<(), Fail> {
    for row in &FOUND {
        let sink = written_for(rt.alloc(), row.0)?;
        assert!(rt; sink.taken() == row.1.as_bytes(), "at {}", row.0);
    }
    Ok(())
}

const FRONT: &[u8] = b"plan 1\nbase 384\nlevel 3 0 576\nlevel 3 1 10\nend\npot 1 0 0\n";

const BACK: &[u8] = b"\npot 9 0 768\npot 9 1 960\npot 9 2 12000000000\n";

#[test]
fn levels_are_taken_together(rt: HostRuntime) -> Result<(), Fail> {
    let sink = written_for(rt.alloc(), "find 1\nwant 1 10 9\nend\n")?;
    let text = sink.taken();
    assert!(rt; text.starts_with(FRONT) && text.ends_with(BACK));
    Ok(())
}

/// In each row an input, the line that is refused, and the rule that it fails.
const REFUSED: [(&str, u64, Rule); 10] = [
    ("find 1\nwant 1 1 4\nend\n", 2, Rule::Range),
    ("find 1\nwant 1 10 0\nend\n", 2, Rule::Range),
    ("find 1\nwant 86 1 4\nend\n", 2, Rule::Limit),
    ("find 1\nwant 1 1099511627777 4\nend\n", 2, Rule::Limit),
    ("find 1\nwant 1 10 257\nend\n", 2, Rule::Limit),
    ("find 2\nwant 1 10 4\nend\n", 1, Rule::Form),
    ("find 1\nwant 1 10\nend\n", 2, Rule::Form),
    ("find 1\nwant 1 10 4\nwant 1 10 4\nend\n", 3, Rule::Form),
    ("find 1\nwant 1 10 4\n", 3, Rule::Form),
    ("find 1\nwant 1 10 4\nend\n\nend\n", 5, Rule::Form),
];

/// Whether an input is refused by this line and this rule.
fn is_refused(input: &str, line: u64, rule: Rule) -> bool {
    match read_find(input.as_bytes()) {
        Ok(_) => false,
        Err(error) => error == FindError::Refused(FindRefusal { line, rule }),
    }
}

#[test]
fn a_line_is_refused_by_its_first_rule(rt: HostRuntime) {
    for row in &REFUSED {
        assert!(rt; is_refused(row.0, row.1, row.2), "at {}", row.0);
    }
}

/// Faults, and the least bound of a plan that tolerates them.
const BOUNDS: [(u64, u64); 8] = [
    (0, 0),
    (1, 960),
    (2, 1728),
    (3, 1920),
    (4, 2880),
    (5, 3072),
    (6, 3456),
    (7, 3648),
];

/// Whether a plan of such faults and such a bound is found, with a potential for each pair.
fn is_found(alloc: Global, faults: u64, bound: u64) -> Result<bool, Fail> {
    if faults > 85 {
        return Ok(false);
    }
    let found = find(alloc, faults, 10, 256)?;
    let Some(plan) = &found.plan else {
        return Ok(false);
    };
    let holds = plan.bound() == bound
        && u64::from(plan.faults()) == faults
        && found.pots.as_slice().len() == 1188;
    Ok(holds)
}

#[test]
fn each_plan_has_the_least_bound(rt: HostRuntime) -> Result<(), Fail> {
    for row in &BOUNDS {
        assert!(rt; is_found(rt.alloc(), row.0, row.1)?, "{} faults", row.0);
    }
    Ok(())
}

/// Whether these are potentials of the bound 1920 alone.
fn are_of_1920(pots: &[Pot]) -> bool {
    check_potentials(pots, 3, 27, Some(1920))
        && !check_potentials(pots, 3, 27, Some(1921))
        && !check_potentials(pots, 3, 27, None)
        && !check_potentials(pots.get(1..).unwrap_or_default(), 3, 27, Some(1920))
}

#[test]
fn costs_are_potentials(rt: HostRuntime) -> Result<(), Fail> {
    let found = find(rt.alloc(), 3, 10, 27)?;
    assert!(rt; are_of_1920(found.pots.as_slice()));
    Ok(())
}

fn pot(nodes: u64, faults: u64, value: u64) -> Pot {
    Pot {
        nodes,
        faults,
        value,
    }
}

#[test]
fn potentials_need_not_be_costs(rt: HostRuntime) {
    let zeros = [pot(1, 0, 0), pot(3, 0, 0), pot(4, 0, 0), pot(4, 1, 0)];
    assert!(rt; check_potentials(&zeros, 1, 4, Some(0)));
    let high = [pot(1, 0, 0), pot(3, 0, 385)];
    assert!(rt; !check_potentials(&high, 1, 3, None));
    let far = [pot(1, 0, 0), pot(u64::MAX, u64::MAX, u64::MAX)];
    assert!(rt; check_potentials(&far, 1, 2, None));
}

const TEXTS: [(FindError, &str); 2] = [
    (
        FindError::Refused(FindRefusal {
            line: 2,
            rule: Rule::Range,
        }),
        "line 2 fails the rule Range",
    ),
    (FindError::NoMemory, "out of memory"),
];

#[test]
fn errors_have_texts(rt: HostRuntime) -> Result<(), Fail> {
    for row in &TEXTS {
        let text = format!(in rt.alloc(); "{}", row.0)?;
        assert!(rt; text.as_str() == row.1, "{text}");
    }
    Ok(())
}
