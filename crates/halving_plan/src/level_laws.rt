//! The laws of one level over two halves. Each function does nothing: its clause is the law.

ghost use Rattle.halving_plan.specs.Level.{OneHalfIsSound, HalvesSettle, LockedStaysLocked};

/// However the faults of the group fall, one half has no more than it tolerates.
pub fn one_half_is_sound()
    ensures { OneHalfIsSound }
{}

/// If a half that tolerates its faults counts, all correct registers, those of spares too, are
/// locked at one value two periods of the left half later, or so many periods of the right one and
/// two rounds. The other half is free.
///
/// What is backed at two correct nodes is one number. So nodes that follow the left half, no more
/// rounds apart than its first share is long, follow one share of it. If the left half counts, all
/// trust it from its 0 on, and obey its kings in its share. If the right half counts, the left
/// half's share is too short for so many of its periods: in one of them nobody follows the left
/// half while a correct king of the right half has its three instructions.
pub fn halves_settle()
    ensures { HalvesSettle }
{}

/// Locked registers stay locked, whatever the halves do.
pub fn locked_stays_locked()
    ensures { LockedStaysLocked }
{}
