//! The laws of explanations. Each function is empty: its clause is the law.

ghost use Rattle.run_explanations.specs.Laws.{ExplainedErasLock, LongErasAreExplained};
ghost use Rattle.run_explanations.specs.Laws.{FoundIsFirst};

use plan_laws::laws::{bound_is_explained, explained_runs_lock};

/// What is explained is locked when its phase has ended: configuration `phase + 3` is.
pub fn explained_eras_lock()
    ensures { ExplainedErasLock }
{
    explained_runs_lock();
}

/// If the last era goes on to the plan's bound, it has an explanation whose window ends within the
/// bound.
pub fn long_eras_are_explained()
    ensures { LongErasAreExplained }
{
    bound_is_explained();
}

/// The explanation that is found is the first one, and none is found exactly if there is none.
pub fn found_is_first()
    ensures { FoundIsFirst }
{}
