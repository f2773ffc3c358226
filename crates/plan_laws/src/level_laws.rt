//! The laws of one level. Each function does nothing: its clause is the law.

ghost use Rattle.construction.specs.Plans.{Level};
ghost use Rattle.counter_core.specs.Runs.{Settles};
ghost use Rattle.plan_laws.specs.Level.{LevelSettles, LockedStaysLocked};
ghost use Rattle.plan_laws.specs.Boosted.{boosted, BoostedRange, StandsOn};
ghost use Rattle.plan_laws.specs.BlockLaw.{BlockLaw};
ghost use Rattle.plan_laws.specs.Explained.{ExplainedLocks, SpanIsExplained};

use counter_core::Counter;

/// If each block with few faulty nodes counts for a span, all correct registers, those of spares
/// too, are locked at one value from the end of the span on, and that value goes on to the next one
/// each round. The blocks may begin at any outputs.
///
/// It holds because fewer blocks have many faulty nodes than there are leaders, so that the block
/// of some leader is sound, and so are most blocks. While all sound blocks point to that leader,
/// every correct node makes the same beat of that block's outputs. This beat runs through all its
/// kings, and the first whole phase of a correct one locks the registers. A spare doesn't vote, but
/// it hears the votes, is heard, and may be king.
pub fn level_settles()
    ensures { LevelSettles }
{}

/// What is explained is locked: at the end of a correct king's phase that lies in a window in which
/// all sound blocks point to one sound block, all correct registers are locked at one value.
pub fn explained_locks()
    ensures { ExplainedLocks }
{}

/// If each block with few faulty nodes counts for a span, there is an explanation within it.
pub fn span_is_explained()
    ensures { SpanIsExplained }
{}

/// From any configuration on in which all correct registers are locked at one value, they stay so,
/// and that value goes on to the next one each round, whatever the blocks do.
///
/// It holds because the value is then heard from all nodes but the faulty ones, so that each kind
/// of instruction keeps it, under any king.
pub fn locked_stays_locked()
    ensures { LockedStaysLocked }
{}

/// A run of a boosted counter, cut to one block and to the registers of the counter below, is a run
/// of that counter.
///
/// It holds because a node's step in the counter below looks at its block alone, and at no register
/// of the level. Spares are in no block.
pub fn blocks_run<A: Counter>(below: &A)
    requires { A.valid below.now }
    ensures { (level : Level) → BlockLaw (A.meaning below.now) (A.in_range below.now) level }
{}

/// A level that stands on a counter which settles makes one that settles, whatever the two are.
///
/// It holds because a block with few faulty nodes counts from the bound below on, by the law of
/// blocks, so that the level's registers are locked a span later and stay so.
pub fn boosted_settles<A: Counter>(below: &A)
    requires { A.valid below.now }
    ensures { (level : Level) → StandsOn (A.meaning below.now) level
        → Settles (boosted (A.meaning below.now) level) (BoostedRange (A.in_range below.now)
        (A.meaning below.now).depth level.modulus) }
{}
