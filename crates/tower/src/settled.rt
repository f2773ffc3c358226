ghost use Rattle.std.specs.Prelude.{◌≡◌, true};
ghost use Rattle.tower.specs.Settled.{IsSettled};

use crate::shared::Shared;

impl Shared {
    /// Whether it stands for a configuration in which the registers of every group are locked at
    /// one value, those of its liars too. From such a one on all go on alike, whatever is said.
    pub fn is_settled(&self) -> bool
        ensures { result ≡ true → IsSettled self.now.plan self.now.faulty self.now.states }
    {
        self.is_made && self.all_settled
    }
}
