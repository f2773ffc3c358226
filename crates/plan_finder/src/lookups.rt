ghost use Rattle.std.specs.Bool.{Decides};
ghost use Rattle.std.specs.List.{All};
ghost use Rattle.plan_finder.specs.Costs.{IsBelow, IsRising};
ghost use Rattle.plan_finder.specs.Potentials.{ArePotentials, IsKnown, StepsAreKnown};
ghost use Rattle.plan_finder.specs.Potentials.{StepsAreKnownBy, StepIsKnown, MayStep, KeepsBound};

use crate::costs::step_cost;
use crate::pots::Pot;

/// Whether a pair is below another.
fn is_below(pot: Pot, other: Pot) -> bool
    ensures { Decides result (IsBelow pot other) }
{
    pot.nodes < other.nodes || (pot.nodes == other.nodes && pot.faults < other.faults)
}

/// Whether the pairs strictly rise.
fn are_rising(pots: &[Pot]) -> bool
    ensures { Decides result (IsRising pots.now) }
{
    let mut rest = pots;
    while let [pot, next, ..] = rest {
        if !is_below(*pot, *next) {
            return false;
        }
        rest = &rest[1..];
    }
    true
}

/// Whether a pair is there with at most that value.
fn is_known(pots: &[Pot], nodes: u64, faults: u64, most_value: u128) -> bool
    ensures { Decides result (IsKnown pots.now nodes faults most_value) }
{
    for pot in pots {
        if pot.nodes == nodes && pot.faults == faults && u128::from(pot.value) <= most_value {
            return true;
        }
    }
    false
}

/// Whether a pair has a step to `g` faults by `k` blocks, the cost left aside.
fn may_step(pot: Pot, most: u64, k: u64, g: u64) -> bool
    ensures { Decides result (MayStep most pot.nodes pot.faults k g) }
{
    if k < 3 || k > 16 || g > 85 {
        return false;
    }
    let nodes = u128::from(k) * u128::from(pot.nodes);
    nodes <= u128::from(most)
        && u128::from(3 * g) < nodes
        && u128::from(g) < (u128::from(pot.faults) + 1) * u128::from(k.div_ceil(2))
}

/// Whether a step from a pair, if it is one, leads to a pair that is there with at most the sum.
fn step_is_known(pots: &[Pot], pot: Pot, most: u64, k: u64, g: u64) -> bool
    ensures { Decides result (StepIsKnown most pots.now pot k g) }
{
    if !may_step(pot, most, k, g) {
        return true;
    }
    match step_cost(k, g) {
        Some(cost) => {
            let sum = u128::from(pot.value) + u128::from(cost);
            is_known(pots, k * pot.nodes, g, sum)
        }
        None => true,
    }
}

/// The same of all steps by `k` blocks.
fn steps_are_known_by(pots: &[Pot], pot: Pot, most: u64, k: u64) -> bool
    ensures { Decides result (StepsAreKnownBy most pots.now pot k) }
{
    for g in 0..86 {
        if !step_is_known(pots, pot, most, k, g) {
            return false;
        }
    }
    true
}

/// The same of all steps.
fn steps_are_known(pots: &[Pot], pot: Pot, most: u64) -> bool
    ensures { Decides result (StepsAreKnown most pots.now pot) }
{
    for k in 3..17 {
        if !steps_are_known_by(pots, pot, most, k) {
            return false;
        }
    }
    true
}

/// The same of all pairs.
fn all_steps_are_known(pots: &[Pot], most: u64) -> bool
    ensures { Decides result (All (StepsAreKnown most pots.now) pots.now) }
{
    for pot in pots {
        if !steps_are_known(pots, *pot, most) {
            return false;
        }
    }
    true
}

/// Whether a pair with `f` faults has at least the value of the bound.
fn keeps_bound(pot: Pot, f: u64, bound: Option<u64>) -> bool
    ensures { Decides result (KeepsBound f bound pot) }
{
    if pot.faults != f {
        return true;
    }
    match bound {
        Some(least) => least <= pot.value,
        None => false,
    }
}

/// The same of all pairs.
fn all_keep_bound(pots: &[Pot], f: u64, bound: Option<u64>) -> bool
    ensures { Decides result (All (KeepsBound f bound) pots.now) }
{
    for pot in pots {
        if !keeps_bound(*pot, f, bound) {
            return false;
        }
    }
    true
}

/// Whether the pairs strictly rise by nodes and faults, one node and no faults are there with value
/// 0, each step from a pair leads to one that is there with at most the value and the cost, and
/// each pair with `f` faults has at least the value `bound`, or there is none if `bound` is None.
///
/// If this is true, each accepted plan of version 1 with `f` faults and at most `most` nodes
/// settles in no less than `bound`, or there is no such plan. It takes no memory.
pub fn check_potentials(pots: &[Pot], f: u64, most: u64, bound: Option<u64>) -> bool
    ensures { Decides result (ArePotentials f most bound pots.now) }
{
    are_rising(pots)
        && is_known(pots, 1, 0, 0)
        && all_steps_are_known(pots, most)
        && all_keep_bound(pots, f, bound)
}
