//! Boosting plans that are given.

use reference::plans::Plan;
use std::alloc::{AllocError, Global};

/// The version of a plan, its base, and its levels, each of blocks, faults, a modulus and spares.
pub type Row = (u64, u64, &'static [(u64, u64, u64, u64)]);

/// A plan of two levels with spare nodes on each.
pub const SPARES: Row = (2, 576, &[(3, 1, 960, 1), (3, 3, 10, 2)]);

/// Plans for runs, and with how many scripts of each version each is tried.
pub const PLANS: [(u64, Row); 16] = [
    (10, (1, 5, &[])),
    (40, (1, 2304, &[(4, 1, 10, 0)])),
    (20, (1, 38654705664, &[(4, 1, 10, 0)])),
    (10, (1, 768, &[(3, 0, 10, 0)])),
    (20, (1, 384, &[(3, 0, 576, 0), (3, 1, 10, 0)])),
    (20, (1, 69984, &[(5, 1, 7, 0)])),
    (20, (1, 25165824, &[(7, 2, 4, 0)])),
    (20, (1, 2304, &[(4, 1, 960, 0), (3, 3, 10, 0)])),
    (
        6,
        (1, 2304, &[(4, 1, 960, 0), (3, 3, 1728, 0), (3, 7, 10, 0)]),
    ),
    (5, (2, 5, &[])),
    (20, (2, 576, &[(3, 1, 10, 1)])),
    (10, (2, 2304, &[(4, 1, 10, 0)])),
    (10, (2, 93312, &[(5, 2, 7, 2)])),
    (20, SPARES),
    (20, (2, 384, &[(3, 0, 576, 2), (3, 1, 10, 0)])),
    (
        6,
        (2, 576, &[(3, 1, 960, 1), (3, 3, 1728, 1), (3, 7, 10, 2)]),
    ),
];

/// Plans that count by a multiple of the lengths of all slots, the ones with fewer nodes first.
pub const WITH_SLOTS: [Row; 5] = [
    (1, 12, &[]),
    (1, 384, &[(3, 0, 24, 0)]),
    (2, 576, &[(3, 1, 84, 1)]),
    (1, 2304, &[(4, 1, 168, 0)]),
    (2, 384, &[(3, 0, 576, 1), (3, 1, 84, 0)]),
];

/// The plan of a row.
pub fn plan_of(alloc: Global, row: Row) -> Result<Plan, AllocError> {
    Plan::of(alloc, row.0, row.1, row.2)
}
