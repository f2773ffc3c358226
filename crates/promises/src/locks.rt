//! The laws of the lines of first locked configurations. Each function does nothing: its clause is
//! the law.

ghost use Rattle.counter_core.specs.Overlays.{Layer};
ghost use Rattle.promises.specs.Locks.{PlainErasLock, LayeredErasLock};

use counter_core::Overlay;
use round_runner::laws::eras_lock;

/// Without a layer: the number that the line of an era writes is its first locked configuration,
/// and is at most the plan's bound after its first configuration, if the era reaches that.
pub fn plain_eras_lock()
    ensures { PlainErasLock }
{
    eras_lock();
}

/// With a layer's registers after those of the plan the same holds.
pub fn layered_eras_lock<O: Overlay>()
    ensures { (layer : Layer O.Kept) → LayeredErasLock layer }
{}
