//! The laws. Each function is empty: its clause is the law.

ghost use Rattle.halving_plan.specs.TreeLaws.{HasQuorum, AreFast, LevelStatesAreRegisters};
ghost use Rattle.halving_plan.specs.TreeLaws.{ZeroIsInRange, NextIsInRange, EachHasOneNext};
ghost use Rattle.halving_plan.specs.TreeLaws.{EveryTreeSettles, LocksAtBound, LockedRunsCount};
ghost use Rattle.halving_plan.specs.TreeLaws.{MachinesAreSound};

/// Every tree of halves has more than three nodes for each fault that it tolerates.
pub fn every_tree_has_quorum()
    ensures { HasQuorum }
{}

/// The tree of f faults that plans have has 3 f + 1 nodes, and as many more as are asked for. Its
/// bound is at most 16 f, and at most ten rounds for each fault and each level.
pub fn trees_are_fast()
    ensures { AreFast }
{}

/// A level state stands in two registers of a state: what is written is read back, what is read is
/// written back, and the state in the half after it stays as it is.
pub fn level_states_are_registers()
    ensures { LevelStatesAreRegisters }
{}

/// The zero state is a state of each node.
pub fn zero_is_in_range()
    ensures { ZeroIsInRange }
{}

/// The step of a node gives a state of it, whatever was heard.
pub fn next_is_in_range()
    ensures { NextIsInRange }
{}

/// Each configuration and table of lies has exactly one next configuration, up to the states of
/// faulty nodes, which are free.
pub fn each_has_one_next()
    ensures { EachHasOneNext }
{}

/// Every tree of halves settles: whatever the start and the lies, with each faulty set that it
/// tolerates, all correct nodes show one number from the bound on, which grows by one modulo C each
/// round.
///
/// It holds by induction over the tree. However the faults fall, one half has no more than it
/// tolerates, so it counts from its bound on, and its kings lock the group's registers.
pub fn every_tree_settles()
    ensures { EveryTreeSettles }
{}

/// In each run that reaches the bound, with a faulty set that the tree tolerates, the configuration
/// at the bound is locked.
pub fn locked_at_the_bound()
    ensures { LocksAtBound }
{}

/// From a locked configuration on, before the bound too, each later one is locked, and all correct
/// nodes show one number, which grows by one modulo C each round, whatever lies follow.
pub fn locked_stays_locked()
    ensures { LockedRunsCount }
{}

/// The machine of each tree of halves, with each modulus, is sound, within the limits of what is
/// read.
pub fn machines_are_sound()
    ensures { MachinesAreSound }
{}
