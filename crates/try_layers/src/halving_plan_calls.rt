//! Plans' numbers, by hand.

use halving_plan::{HalvingPlan, HalvingPremise};
use std::process::Abort;

/// The plan of these numbers, which are accepted.
pub(crate) fn plan_of(rt: &impl Abort, nodes: u64, faults: u64, modulus: u64) -> HalvingPlan {
    match HalvingPlan::new(nodes, faults, modulus) {
        Ok(plan) => plan,
        Err(_) => panic!(rt; "a plan is refused"),
    }
}

/// Nodes, faults and modulus, and the first premise that they fail.
const REFUSED: [(u64, u64, u64, HalvingPremise); 8] = [
    (257, 1, 10, HalvingPremise::Limit),
    (4, 1, (1 << 40) + 1, HalvingPremise::Limit),
    (4, 2, 1, HalvingPremise::Modulus),
    (6, 2, 10, HalvingPremise::Quorum),
    (256, 86, 10, HalvingPremise::Quorum),
    (4, u64::MAX, 10, HalvingPremise::Quorum),
    (0, 0, 10, HalvingPremise::Quorum),
    (2, 0, 10, HalvingPremise::Single),
];

/// Whether a row's numbers are refused as it says.
fn is_refused((nodes, faults, modulus, premise): &(u64, u64, u64, HalvingPremise)) -> bool {
    match HalvingPlan::new(*nodes, *faults, *modulus) {
        Ok(_) => false,
        Err(found) => found == *premise,
    }
}

#[test]
fn plans_are_refused_by_their_first_premise(rt: HostRuntime) {
    for row in &REFUSED {
        assert!(rt; is_refused(row));
    }
}

/// Nodes, faults, bound, and how many registers a state has.
const NUMBERS: [(u64, u64, u64, usize); 9] = [
    (1, 0, 0, 0),
    (4, 1, 16, 2),
    (7, 2, 30, 4),
    (10, 3, 44, 4),
    (13, 4, 50, 6),
    (16, 4, 50, 6),
    (31, 10, 120, 8),
    (118, 39, 414, 14),
    (256, 85, 854, 16),
];

#[test]
fn plans_have_these_bounds(rt: HostRuntime) {
    for (nodes, faults, bound, depth) in &NUMBERS {
        let plan = plan_of(&rt, *nodes, *faults, 10);
        assert!(rt;
            plan.bound() == *bound && plan.depth() == *depth,
            "{faults} faults"
        );
    }
}

/// Whether node 5 of thirteen, which is the left half of the right half of the right half, has its
/// moduli.
fn has_these_moduli(plan: &HalvingPlan) -> bool {
    let moduli = [10, 17, 9, 11, 6, 8];
    for i in 0..6 {
        if plan.modulus_of(5, i) != Some(moduli[i]) {
            return false;
        }
    }
    plan.base_of(5) == 8 && plan.modulus_of(5, 6).is_none()
}

#[test]
fn nodes_have_their_fields(rt: HostRuntime) {
    let plan = plan_of(&rt, 13, 4, 10);
    assert!(rt; has_these_moduli(&plan));
    assert!(rt; plan.base_of(12) == 1 && plan.modulus_of(12, 2).is_none());
}
