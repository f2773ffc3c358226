//! Finds an attack on a plan.

ghost use Rattle.std.specs.Prelude.{◌≤◌, IfOk};
ghost use Rattle.attack.specs.Found.{Finds};
ghost use Rattle.attack.specs.PlanTexts.{IsAcceptedPlan};

use crate::drawing::Drawing;
use crate::kinds::Kind;
use crate::plans::AnyPlan;
use crate::requests::Numbers;
use crate::search_laws::{fresh_attacks_are_read, lean_is_as_late, searches_find_best};
use crate::targets::Target;
use machines::Machine;
use std::alloc::Global;
use sync_types::NoMemory;

/// What is said of an attack that was found.
#[derive(Clone, Copy, Debug, PartialEq, Eq)]
pub struct Found {
    /// Its first locked configuration; None if none is locked.
    pub lock: Option<u64>,
    /// The bound of the plan: by then every attack is locked that goes on so long.
    pub bound: u64,
}

/// Tries attacks of these kinds on an accepted plan, at least one: the text of the one that locks
/// latest, without lies that it does not need, and what is said of it. The only error is want of
/// memory.
pub fn find(
    alloc: Global,
    plan: &AnyPlan,
    numbers: Numbers,
    kinds: &[Kind],
) -> Result<(Vec<u8>, Found), NoMemory>
    requires accepted { IsAcceptedPlan plan.now }
    requires some { 1 ≤ numbers.runs }
    ensures { IfOk result (λ found. Finds plan.now numbers kinds.now found.0.items found.1) }
{
    searches_find_best();
    fresh_attacks_are_read();
    lean_is_as_late();
    let machine = plan.machine(alloc)?;
    let shape = plan.shape(alloc)?;
    let target = Target::new(&machine, &shape, plan.first_line());
    target.facts();
    let maker = Drawing::new(alloc, &machine, numbers.seed, numbers.runs, kinds)?;
    match target.search(alloc, &maker, numbers.runs)? {
        Some(best) => {
            let written = target.finish(alloc, best)?;
            let text = written.attack.text(alloc, &machine)?;
            let found = Found {
                lock: written.lock,
                bound: machine.bound(),
            };
            Ok((text, found))
        }
        None => unreachable!(),
    }
}
