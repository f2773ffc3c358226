//! Plans for the tests.

ghost use Rattle.std.specs.Prelude.{◌≡◌, [], ◌∷◌, IfOk};
ghost use Rattle.plan_numbers.specs.Numbers.{line};

use plan_numbers::{Plan, PremiseError};
use std::alloc::Global;

/// One node that counts by five.
pub fn one(alloc: Global) -> Result<Plan, PremiseError>
    ensures { IfOk result (λ plan. plan ≡ record { version = 1; base = 5; levels = [] }) }
{
    Plan::base(alloc, 5)
}

/// Four nodes, one of which may be faulty.
pub fn four(alloc: Global, modulus: u64) -> Result<Plan, PremiseError>
    ensures { IfOk result (λ plan. plan
        ≡ record { version = 1; base = 2304; levels = line 4 1 modulus 0 ∷ [] }) }
{
    let mut plan = Plan::base(alloc, 2304)?;
    plan.push(4, 1, modulus).map_err(PremiseError::Refused)?;
    Ok(plan)
}

/// Three nodes and a spare one, one of which may be faulty, that count by ten.
pub fn three_and_one(alloc: Global) -> Result<Plan, PremiseError>
    ensures { IfOk result (λ plan. plan
        ≡ record { version = 2; base = 576; levels = line 3 1 10 1 ∷ [] }) }
{
    let mut plan = Plan::base_of(alloc, 2, 576)?;
    plan.push_with(3, 1, 10, 1).map_err(PremiseError::Refused)?;
    Ok(plan)
}
