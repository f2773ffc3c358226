use halving_plan::HalvingPremise;
use halving_texts::{HalvingRefusal, LinePremise};
use machines::Machine;
use node_calls::{AnyMachine, CallError, counter_in, output, state_bytes, step};
use plan_reader::PlanRefusal;
use std::alloc::Global;
use std::test::Fail;
use sync_types::Premise;

/// Three nodes and a spare one, one of which may be faulty, that count by ten.
const FOUR: &[u8] = b"plan 2\nbase 576\nlevel 3 1 10 spare 1\nend\n";

/// Four nodes of a halving plan, one of which may be faulty, that count by ten.
const HALVING: &[u8] = b"# four\nhalving 1\ngroup 4 1 10\nend\n";

/// Whether the counter of a text has four nodes and this bound.
fn is_four(counter: Result<AnyMachine, CallError>, bound: u64) -> bool {
    match counter {
        Ok(counter) => counter.nodes() == 4 && counter.faults() == 1 && counter.bound() == bound,
        Err(_) => false,
    }
}

#[test]
fn a_plan_is_read(rt: HostRuntime) {
    assert!(rt; is_four(counter_in(rt.alloc(), FOUR), 576));
    assert!(rt; state_bytes(rt.alloc(), FOUR, 2) == Ok(2));
    assert!(rt; state_bytes(rt.alloc(), FOUR, 3) == Ok(1));
    assert!(rt; is_four(counter_in(rt.alloc(), HALVING), 41));
    assert!(rt; state_bytes(rt.alloc(), HALVING, 0) == Ok(3));
}

#[test]
fn a_node_steps(rt: HostRuntime) {
    let mut state = [0, 0x14];
    assert!(rt; output(rt.alloc(), FOUR, 2, &state) == Ok(5));
    let packet = [0, 2, 0, 0, 0, 2, 0, 0, 0, 0, 0, 1, 0];
    assert!(rt; step(rt.alloc(), FOUR, 2, &mut state, &packet) == Ok(1));
    assert!(rt; state == [0, 0x68]);
}

/// A plan, a node, packets, and why the call is refused.
type Refused = (&'static [u8], u32, &'static [u8], CallError);

const REFUSED: [Refused; 6] = [
    (
        b"plan 1\nbase 1\n",
        0,
        b"",
        CallError::Refused(PlanRefusal {
            line: 2,
            premise: Premise::Modulus,
        }),
    ),
    (
        b"halving 1\ngroup 3 1 10\nend\n",
        0,
        b"",
        CallError::HalvingRefused(HalvingRefusal {
            line: 2,
            premise: LinePremise::Plan(HalvingPremise::Quorum),
        }),
    ),
    (FOUR, 4, b"", CallError::Node),
    (HALVING, 4, b"", CallError::Node),
    (FOUR, 3, b"", CallError::Length),
    (
        FOUR,
        2,
        b"\x00\x02\x00\x00\x00",
        CallError::Cut {
            packet: 0,
            sender: 1,
        },
    ),
];

/// Whether a step is refused so, and the state stays.
fn is_refused(alloc: Global, row: &Refused) -> bool {
    let mut state = [0, 0x14];
    step(alloc, row.0, row.1, &mut state, row.2) == Err(row.3) && state == [0, 0x14]
}

#[test]
fn a_call_is_refused(rt: HostRuntime) {
    for row in &REFUSED {
        assert!(rt; is_refused(rt.alloc(), row), "node {}", row.1);
    }
}

const TEXTS: [(CallError, &str); 7] = [
    (
        CallError::Refused(PlanRefusal {
            line: 3,
            premise: Premise::Multiple,
        }),
        "line 3 of the plan fails the premise Multiple",
    ),
    (
        CallError::HalvingRefused(HalvingRefusal {
            line: 2,
            premise: LinePremise::Plan(HalvingPremise::Single),
        }),
        "line 2 of the halving plan fails the premise single",
    ),
    (CallError::Node, "no such node"),
    (CallError::Length, "the state has another length"),
    (
        CallError::Cut {
            packet: 7,
            sender: 2,
        },
        "packet 7 ends in the cell of node 2",
    ),
    (CallError::TooLong, "there are too many packets"),
    (CallError::NoMemory, "out of memory"),
];

#[test]
fn errors_have_texts(rt: HostRuntime) -> Result<(), Fail> {
    for row in &TEXTS {
        let text = format!(in rt.alloc(); "{}", row.0)?;
        assert!(rt; text.as_str() == row.1, "{text}");
    }
    Ok(())
}
