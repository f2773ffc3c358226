//! Worked values. The function does nothing: its clause is the law.

ghost use Rattle.sweep.specs.Worked.{SweepsAreSpelled};

/// A key and the texts of small sweeps, letter by letter.
pub fn sweeps_are_spelled()
    ensures { SweepsAreSpelled }
{}
