//! What the lines of first locked configurations promise, of the words that play a layer. The
//! function does nothing: its clause is the law.

ghost use Rattle.promises.specs.LockPromises.{LocksAreKept};

use crate::locks::{layered_eras_lock, plain_eras_lock};
use consensus_layer::Agreement;
use firing::Firing;
use replicated_log::Replica;

/// If an input of `slots`, `consensus`, `fire` or `log` is a plan, such a part and a script, the
/// number after `locked` in the line of an era is the era's first locked configuration, and is at
/// most the plan's bound after the era's first configuration, if the era reaches that.
pub fn locks_are_kept()
    ensures { LocksAreKept }
{
    plain_eras_lock();
    layered_eras_lock::<Agreement>();
    layered_eras_lock::<Firing>();
    layered_eras_lock::<Replica>();
}
