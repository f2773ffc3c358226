ghost use Rattle.std.specs.Prelude.{◌≡◌, ℕ, Option, IfOk};
ghost use Rattle.std.specs.Option.{option_map};
ghost use Rattle.attack.specs.Attacks.{Attack as AttackSaid};

use crate::candidates::Attack;
use std::alloc::Global;
use sync_types::NoMemory;

/// Makes the candidates of a search.
pub trait Maker: Drop {
    // The candidate of a number, if that is the best one so far; None if there is none yet.
    ghost made: { Self → (index : ℕ) → (best : Option AttackSaid) → AttackSaid };

    /// Makes the candidate of a number, the first being 0, by the best one so far; None if there is
    /// none yet. `NoMemory` comes if memory was refused.
    fn make(&self, alloc: Global, index: u64, best: Option<&Attack>) -> Result<Attack, NoMemory>
        ensures { IfOk result (λ attack. attack
            ≡ made self.now index (option_map (λ a. a.now) best.entry)) };
}
