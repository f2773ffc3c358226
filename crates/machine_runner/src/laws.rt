//! The laws of what is played of a script that was read for a sound machine. Each function is
//! empty: its clause is the law.

ghost use Rattle.machine_runner.specs.Laws.{EachIsOfOneEra, ErasAreRuns, ErasLock, ErasCount};
ghost use Rattle.machine_runner.specs.Laws.{ErasStayLocked, LockTestIsExact, FirstsAreLocked};
ghost use Rattle.machine_runner.specs.Laws.{ReadersFit};
ghost use Rattle.machine_runner.specs.Plays.{ScriptsArePlayed};

/// A script that the reader of scripts read for the nodes and faults of a machine, and for the
/// shape of its states, is read for the machine.
pub fn readers_fit()
    ensures { ReadersFit }
{}

/// What is played of a script that was read for a machine is the script's: its starts, its faulty
/// nodes, its lies; and each node that no start line hits steps as the machine does.
pub fn scripts_are_played()
    ensures { ScriptsArePlayed }
{}

/// Each configuration up to the last is of exactly one era.
pub fn each_is_of_one_era()
    ensures { EachIsOfOneEra }
{}

/// What is played of each era of a script that was read for a sound machine is a run of the machine
/// with the era's faulty nodes, and each round has what they tell as its table of lies.
pub fn eras_are_runs()
    ensures { ErasAreRuns }
{}

/// If an era goes on to the machine's bound, it has a first locked configuration, at the bound or
/// before.
pub fn eras_lock()
    ensures { ErasLock }
{}

/// From the machine's bound on, counted from the first configuration of an era, to the era's end
/// all nodes that are correct in it show one number, which grows by one modulo C each round.
pub fn eras_count()
    ensures { ErasCount }
{}

/// From a locked configuration of an era on, before the bound too, each one is locked to the era's
/// end, and they count.
pub fn eras_stay_locked()
    ensures { ErasStayLocked }
{}

/// The test for locked passes just the locked configurations.
pub fn lock_test_is_exact()
    ensures { LockTestIsExact }
{}

/// The first configuration of an era that passes the test is the first locked one of it, and if
/// none passes, none is locked.
pub fn firsts_are_locked()
    ensures { FirstsAreLocked }
{}
