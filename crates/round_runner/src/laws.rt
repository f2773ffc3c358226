//! The laws of what is played of a script. Each function is empty: its clause is the law.

ghost use Rattle.round_runner.specs.Laws.{EachIsOfOneEra, ErasAreRuns, ErasLock, ErasCount};
ghost use Rattle.round_runner.specs.Laws.{ErasStayLocked, LockTestIsExact, BareRunnersArePlayed};

use plan_laws::laws::{every_plan_settles, locked_runs_count, locks_at_bound};

/// Each configuration up to the last is of exactly one era.
pub fn each_is_of_one_era()
    ensures { EachIsOfOneEra }
{}

/// What is played of each era of a script that was read for an accepted plan is a run of the plan
/// with the era's faulty nodes, and each round has what they tell as its table of lies.
pub fn eras_are_runs()
    ensures { ErasAreRuns }
{}

/// If an era goes on to the plan's bound, it has a first locked configuration, at the bound or
/// before.
pub fn eras_lock()
    ensures { ErasLock }
{
    locks_at_bound();
}

/// From the plan's bound on, counted from the first configuration of an era, to the era's end all
/// nodes that are correct in it show one number, which grows by one modulo C each round.
pub fn eras_count()
    ensures { ErasCount }
{
    every_plan_settles();
}

/// From a locked configuration of an era on, before the bound too, each one is locked to the era's
/// end, and they count.
pub fn eras_stay_locked()
    ensures { ErasStayLocked }
{
    locked_runs_count();
}

/// The test for locked passes just the locked configurations.
pub fn lock_test_is_exact()
    ensures { LockTestIsExact }
{}

/// A runner without a layer that plays its script is at the configuration that is played.
pub fn bare_runners_are_played()
    ensures { BareRunnersArePlayed }
{}
