//! Laws of pointers, for outputs that count without a bound or modulo a multiple of the span. Each
//! function is empty: its clause is the law.

ghost use Rattle.leader_pointers.specs.Intervals.{IntervalKeepsPointer, NextIntervalHasNextLeader};
ghost use Rattle.leader_pointers.specs.Intervals.{PointerHasPeriod, ModulusIsUnseen};
ghost use Rattle.leader_pointers.specs.Windows.{BlocksMeetAtEachLeader};

/// From a multiple of the interval on, as many outputs as the interval is long have one pointer.
pub fn interval_keeps_pointer()
    ensures { IntervalKeepsPointer }
{}

/// An interval later the pointer is at the next leader, and after the last at the first.
pub fn next_interval_has_next_leader()
    ensures { NextIntervalHasNextLeader }
{}

/// A pointer's period is an interval for each leader: so many outputs later it is the same.
pub fn pointer_has_period()
    ensures { PointerHasPeriod }
{}

/// Pointer and part are the same of an output and of its remainder by a multiple of the span.
pub fn modulus_is_unseen()
    ensures { ModulusIsUnseen }
{}

/// The common window. If all sound blocks count modulo a multiple of the span for a whole span,
/// they all point to any given leader for a whole beat. The first outputs may be any numbers.
///
/// It holds because an interval of a block is `2 * leaders` intervals of the block before it: in so
/// many of its own outputs a block has a whole interval at the leader, and within that the earlier
/// blocks meet in their turn.
pub fn blocks_meet_at_each_leader()
    ensures { BlocksMeetAtEachLeader }
{}
