//! The laws. Each function is empty: its clause is the law.

ghost use Rattle.plan_laws.specs.ExplainedRuns.{ExplainedRunsLock, BoundIsExplained};
ghost use Rattle.plan_laws.specs.Stretches.{StepsByStretches};
ghost use Rattle.plan_laws.specs.VersionLaws.{VersionsAgree, NoSpares};
ghost use Rattle.plan_laws.specs.Laws.{EveryPlanSettles, BlocksRun, LocksAtBound, LockedRunsCount};
ghost use Rattle.plan_laws.specs.Laws.{EachHasOneNext};

/// Every accepted plan settles: whatever the start and the lies, with each faulty set that the plan
/// tolerates, all correct nodes show one number from the bound on, which grows by one modulo C each
/// round.
///
/// It holds by induction over the levels. One node is correct and counts from the start. A run cut
/// to a block with few faulty nodes is a run of the levels below, so it counts from their bound on,
/// and then the level above settles within its span.
pub fn every_plan_settles()
    ensures { EveryPlanSettles }
{}

/// A run of a plan with one more level, cut to one of that level's blocks and to the levels below
/// it, is a run of the plan. The faulty ids that stand in the block are shifted down to their
/// places in it.
///
/// It holds because each group of a lower level lies inside one block, so that a node's step below
/// the top depends on what is heard of its block alone.
pub fn blocks_run()
    ensures { BlocksRun }
{}

/// In each run that reaches the bound, with a faulty set that the plan tolerates, the configuration
/// at the bound is locked.
pub fn locks_at_bound()
    ensures { LocksAtBound }
{}

/// From a locked configuration on, before the bound too, each later one is locked, and all correct
/// nodes show one number, which grows by one modulo C each round, whatever lies follow.
pub fn locked_runs_count()
    ensures { LockedRunsCount }
{}

/// What is explained is locked: three rounds after a correct king's phase begins, in a window in
/// which all sound blocks of the top level point to one sound block and its correct nodes go
/// through the beat, the configuration is locked, whatever lies are told.
pub fn explained_runs_lock()
    ensures { ExplainedRunsLock }
{}

/// Each run that reaches the bound has an explanation, whose window lies between the bound of the
/// levels below the top one and the bound.
pub fn bound_is_explained()
    ensures { BoundIsExplained }
{}

/// Each configuration and table of lies has exactly one next configuration, up to the states of
/// faulty nodes, which are free.
pub fn each_has_one_next()
    ensures { EachHasOneNext }
{}

/// The version of a plan matters to its texts alone: the plan has the same numbers, the same step
/// and the same runs in each.
pub fn versions_agree()
    ensures { VersionsAgree }
{}

/// An accepted plan in which no level has spare nodes is accepted in version 1 as well, and has the
/// numbers, the step and the runs that it has there; its nodes are the product of the blocks.
pub fn no_spares()
    ensures { NoSpares }
{}

/// A node's step may be taken with each group named by its first node, a stretch of all that is
/// heard, in place of a block of a block.
pub fn steps_by_stretches()
    ensures { StepsByStretches }
{}
