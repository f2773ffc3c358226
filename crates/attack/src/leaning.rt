//! What becomes of the best attack of a search before it is written.

ghost use Rattle.std.specs.Prelude.{◌≡◌, IfOk};
ghost use Rattle.attack.specs.Lean.{kept, without_lie, showing, kept_by, lean, finished};

use crate::candidates::Attack;
use crate::changes::remove_lie;
use crate::searching::{Best, is_later};
use crate::targets::Target;
use crate::trying::Tried;
use machines::Machine;
use std::alloc::Global;
use sync_types::NoMemory;

/// How many configurations before its lock an attack shows at most.
const MOST_SHOWN: u64 = 1000;

/// An attack, or in its place another one that was tried, unless that locks sooner or was refused.
fn kept(best: Best, attack: Attack, tried: Tried) -> Best
    ensures { result ≡ kept best attack tried }
{
    match tried {
        Tried::Refused => best,
        Tried::Played(lock) => {
            if is_later(best.lock, lock) {
                best
            } else {
                Best { attack, lock }
            }
        }
    }
}

impl Attack {
    /// The same attack without the lie at a place, if there is one.
    fn without_lie(&self, place: u64) -> Result<Attack, NoMemory>
        ensures { IfOk result (λ attack. attack ≡ without_lie place self.now) }
    {
        let mut attack = self.try_clone()?;
        remove_lie(&mut attack.lies, place);
        Ok(attack)
    }
}

impl Best {
    /// The same attack, which shows the configurations to its lock and three more: the last 1000
    /// before the lock, if that comes so late, or before the end, if there is none.
    fn showing(&self) -> Result<Attack, NoMemory>
        ensures { IfOk result (λ attack. attack ≡ showing self.now) }
    {
        let mut attack = self.attack.try_clone()?;
        let lock = self.lock.unwrap_or(attack.rounds);
        attack.first = lock.saturating_sub(MOST_SHOWN);
        attack.last = lock.saturating_add(3).min(attack.rounds);
        Ok(attack)
    }
}

impl<'a, M: Machine> Target<'a, M> {
    /// Tries another attack, which takes the place of the best one unless it locks sooner.
    fn kept_by(&self, alloc: Global, best: Best, attack: Attack) -> Result<Best, NoMemory>
        ensures { IfOk result (λ now. now
            ≡ kept_by (M.machine self.now.machine) self.now.shape self.now.first_line best attack) }
    {
        let text = attack.text(alloc, self.machine())?;
        let tried = self.try_text(alloc, &text)?;
        Ok(kept(best, attack, tried))
    }

    /// Tries to take out each lie, one after the other, the last one first.
    fn lean(&self, alloc: Global, best: Best) -> Result<Best, NoMemory>
        ensures { IfOk result (λ now. now
            ≡ lean (M.machine self.now.machine) self.now.shape self.now.first_line best) }
    {
        let count = best.attack.lies.len() as u64;
        let mut last = best;
        for i in 0..count {
            let attack = last.attack.without_lie(count - 1 - i)?;
            last = self.kept_by(alloc, last, attack)?;
        }
        Ok(last)
    }

    /// The attack that is written in the place of one that was found: it tries to take out each lie
    /// twice, and shows the configurations to its lock. It locks no sooner. The only error is want
    /// of memory.
    pub fn finish(&self, alloc: Global, best: Best) -> Result<Best, NoMemory>
        ensures { IfOk result (λ now. now
            ≡ finished (M.machine self.now.machine) self.now.shape self.now.first_line best) }
    {
        let once = self.lean(alloc, best)?;
        let last = self.lean(alloc, once)?;
        let shown = last.showing()?;
        self.kept_by(alloc, last, shown)
    }
}
