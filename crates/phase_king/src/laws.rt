//! The laws of the phase king. Each function is empty: its clause is the law.

ghost use Rattle.phase_king.specs.Groups.{LockedGoesOn};
ghost use Rattle.phase_king.specs.Laws.{Persistence, Unanimity, Convergence, Slot};

/// Locked registers stay locked, and their common value goes to the next one.
pub fn persistence()
    ensures { Persistence }
{}

/// If all correct registers have one value, the kinds 0 and 1 lock it.
pub fn unanimity()
    ensures { Unanimity }
{}

/// One phase under one common correct king locks all correct registers at one value.
pub fn convergence()
    ensures { Convergence }
{}

/// f + 1 phases without increment end locked at one value, the common one if there was one.
pub fn slot()
    ensures { Slot }
{}

/// In a group that tolerates its liars, and whose correct registers are locked at one value, a
/// register that is locked there too goes on, a liar's too: nothing that is said matters.
pub fn locked_goes_on()
    ensures { LockedGoesOn }
{}
