//! What the lines of a sweep say. The function does nothing: its clause is the law.

ghost use Rattle.sweep.specs.Laws.{SweepsCountRuns};

/// The numbers of runs of an era's lines add up to the number of keys. A line has the runs whose
/// first locked configuration of that era it names, and the least number of their keys: the first
/// number that is one of these.
pub fn sweeps_count_runs()
    ensures { SweepsCountRuns }
{}
