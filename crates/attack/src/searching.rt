//! Searches for a script that locks late.

ghost use Rattle.std.specs.Prelude.{◌≡◌, IfOk};
ghost use Rattle.std.specs.Option.{option_map};
ghost use Rattle.attack.specs.Searches.{is_later, later_one, better, searched};

use crate::candidates::Attack;
use crate::makers::Maker;
use crate::targets::Target;
use crate::trying::Tried;
use machines::Machine;
use std::alloc::Global;
use sync_types::NoMemory;

/// An attack that was played.
#[derive(Drop)]
pub struct Best {
    /// What it says.
    pub attack: Attack,
    /// The first locked configuration of its first era; None if none is locked.
    pub lock: Option<u64>,
}

/// Whether a first locked configuration is later than another. None is later than each.
pub(crate) fn is_later(lock: Option<u64>, than: Option<u64>) -> bool
    ensures { result ≡ is_later lock than }
{
    match (lock, than) {
        (_, None) => false,
        (None, Some(_)) => true,
        (Some(lock), Some(than)) => than < lock,
    }
}

/// The best one of those so far and of one that was played: the one that locks later, and the one
/// that was played last if both lock at the same time, so that a search does not stand still.
fn later_one(best: Option<Best>, attack: Attack, lock: Option<u64>) -> Best
    ensures { result ≡ later_one best attack lock }
{
    match best {
        None => Best { attack, lock },
        Some(best) => {
            if is_later(best.lock, lock) {
                best
            } else {
                Best { attack, lock }
            }
        }
    }
}

/// The best one of those so far and of one that was tried. One that was refused is none.
fn better(best: Option<Best>, attack: Attack, tried: Tried) -> Option<Best>
    ensures { result ≡ better best attack tried }
{
    match tried {
        Tried::Refused => best,
        Tried::Played(lock) => Some(later_one(best, attack, lock)),
    }
}

/// The attack that a maker makes after the best one so far.
fn next_attack<K: Maker>(
    alloc: Global,
    maker: &K,
    index: u64,
    best: &Option<Best>,
) -> Result<Attack, NoMemory>
    ensures { IfOk result (λ attack. attack
        ≡ K.made maker.now index (option_map (λ b. b.attack) best.now)) }
{
    match best {
        Some(best) => maker.make(alloc, index, Some(&best.attack)),
        None => maker.make(alloc, index, None),
    }
}

impl<'a, M: Machine> Target<'a, M> {
    /// Tries `runs` attacks of a maker, one after the other, and answers the one that locks latest.
    /// The maker is given the best one so far. None means that each was refused. The only error is
    /// want of memory.
    pub fn search<K: Maker>(
        &self,
        alloc: Global,
        maker: &K,
        runs: u64,
    ) -> Result<Option<Best>, NoMemory>
        ensures { IfOk result (λ best. best
            ≡ searched (M.machine self.now.machine) self.now.shape self.now.first_line
            (K.made maker.now) runs) }
    {
        let mut best = None;
        for index in 0..runs {
            let attack = next_attack(alloc, maker, index, &best)?;
            let text = attack.text(alloc, self.machine())?;
            let tried = self.try_text(alloc, &text)?;
            best = better(best, attack, tried);
        }
        Ok(best)
    }
}
