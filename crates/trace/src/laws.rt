//! The laws of traces, and worked values. The functions are empty: their clauses are what they say.

ghost use Rattle.trace.specs.Laws.{LocksAreTold, HalvingLocksAreTold};
ghost use Rattle.trace.specs.Worked.{TracesAreSpelled};

/// In a trace on a boosting plan with a level, the line of a correct node at the top level says
/// `locked` exactly if the configuration is locked.
pub fn locks_are_told()
    ensures { LocksAreTold }
{}

/// In a trace on a halving plan whose group has halves, the line of a correct node in the whole group
/// says `locked` exactly if the configuration is locked.
pub fn halving_locks_are_told()
    ensures { HalvingLocksAreTold }
{}

/// Traces on a plan of either construction, with two eras, letter by letter.
pub fn traces_are_spelled()
    ensures { TracesAreSpelled }
{}
