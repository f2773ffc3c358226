//! What the answer of `find` promises, whatever the input. The function does nothing: its clause is
//! the law.

ghost use Rattle.promises.specs.FindPromises.{LeastIsFound};

use plan_finder::laws::{finds_least, potentials_bound};

/// If the wants of an input of `find` are read, the plan in the answer is the least accepted one
/// that meets them, `none` exactly if no plan does, and each pair is there with its least cost.
/// These bound from below how soon any accepted plan of version 1 with so many faults settles.
pub fn least_is_found()
    ensures { LeastIsFound }
{
    finds_least();
    potentials_bound();
}
