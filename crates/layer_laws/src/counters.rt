ghost use Rattle.std.specs.Prelude.{ℕ};
ghost use Rattle.sync_types.specs.States.{State};
ghost use Rattle.construction.specs.Runs.{IsState};
ghost use Rattle.counter_core.specs.Meanings.{Meaning};
ghost use Rattle.plan_laws.specs.PlanMeaning.{plan_meaning};

use plan_numbers::Plan;

/// What is a counter, however it is made, as the laws speak of it. It has nothing that runs.
pub trait AnyCounter {
    // Its numbers, what its states show, and its step.
    ghost counter: { Self → Meaning };

    // Which states its nodes have.
    ghost is_state: { Self → (v : ℕ) → State → Type 0 };
}

impl AnyCounter for Plan {
    ghost counter = { plan_meaning };

    ghost is_state = { IsState };
}
