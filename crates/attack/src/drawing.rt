ghost use Rattle.std.specs.Prelude.{◌≡◌, min, IfOk};
ghost use Rattle.attack.specs.Draws.{drawn};
ghost use Rattle.attack.specs.Drawings.{drawing_for, turn, kind_at, afresh, made_by};
ghost use Rattle.adversary_script.specs.Scripts.{most_rounds};

use crate::candidates::Attack;
use crate::changes::changed;
use crate::drawn_lines::Scope;
use crate::draws::Lot;
use crate::kinds::{Kind, fresh, or_all};
use crate::makers::Maker;
use machines::Machine;
use std::alloc::Global;
use std::marker::Model;
use sync_types::NoMemory;

/// How many rounds a script plays at most.
const MOST_ROUNDS: u64 = 1_000_000;

/// How many candidates are drawn afresh at most.
const MOST_FRESH: u64 = 1000;

/// The maker that draws its candidates: at first afresh, of some kinds in turn, and then the best
/// one so far with a small change.
pub struct Drawing {
    scope: Scope,
    seed: u64,
    fresh: u64,
    kinds: Vec<Kind>,
}

// Written out, so that code that drops one has a single call.
impl Drop for Drawing {
    fn drop(self) {
        let Drawing {
            scope: _,
            seed: _,
            fresh: _,
            kinds,
        } = self;
        drop(kinds);
    }
}

impl Model for Drawing {
    ghost use Rattle.attack.specs.Drawings.{Drawing as DrawingSaid};

    ghost Value = { DrawingSaid };

    ghost view = { λ d. record {
      nodes = d.scope.nodes;
      faults = d.scope.faults;
      rounds = d.scope.rounds;
      seed = d.seed;
      fresh = d.fresh;
      kinds = d.kinds.items;
    } };
}

/// Which of so many has its turn.
fn turn(index: u64, count: usize) -> usize
    ensures { result ≡ turn index count }
{
    if count == 0 {
        return 0;
    }
    (index % count as u64) as usize
}

/// The kind whose turn it is.
fn kind_at(kinds: &[Kind], index: u64) -> Kind
    ensures { result ≡ kind_at kinds.now index }
{
    kinds
        .get(turn(index, kinds.len()))
        .copied()
        .unwrap_or(Kind::Noise)
}

/// The numbers of a machine by which attacks are drawn.
fn scope_of<M: Machine>(machine: &M) -> Scope
    ensures nodes { result.nodes ≡ (M.machine machine.now).nodes }
    ensures faults { result.faults ≡ (M.machine machine.now).faults }
    ensures rounds { result.rounds ≡ min (M.machine machine.now).bound most_rounds }
{
    machine.facts();
    Scope {
        nodes: machine.nodes(),
        faults: machine.faults(),
        rounds: machine.bound().min(MOST_ROUNDS),
    }
}

impl Drawing {
    /// The maker for a machine and a search of so many candidates. The first sixteenth of them, at
    /// most 1,000, is drawn afresh, of these kinds in turn, or of all if there are none. Each plays
    /// the rounds up to the machine's bound, at most 1,000,000. `NoMemory` comes if memory was
    /// refused.
    pub fn new<M: Machine>(
        alloc: Global,
        machine: &M,
        seed: u64,
        runs: u64,
        kinds: &[Kind],
    ) -> Result<Drawing, NoMemory>
        ensures { IfOk result (λ drawing. drawing
            ≡ drawing_for (M.machine machine.now) seed runs kinds.now) }
    {
        let kinds = or_all(alloc, kinds)?;
        Ok(Drawing {
            scope: scope_of(machine),
            seed,
            fresh: (runs / 16).min(MOST_FRESH),
            kinds,
        })
    }

    /// The lot of a candidate.
    fn lot(&self, index: u64) -> Lot
        ensures { result.seed ≡ drawn self.now.seed index }
    {
        Lot { seed: self.seed }.part(index)
    }

    /// A candidate that is drawn afresh.
    fn afresh(&self, alloc: Global, index: u64) -> Result<Attack, NoMemory>
        ensures { IfOk result (λ attack. attack ≡ afresh self.now index) }
    {
        let kind = kind_at(&self.kinds, index);
        fresh(alloc, kind, self.lot(index), self.scope)
    }
}

impl Maker for Drawing {
    ghost made = { made_by };

    fn make(&self, alloc: Global, index: u64, best: Option<&Attack>) -> Result<Attack, NoMemory> {
        match best {
            None => self.afresh(alloc, index),
            Some(best) => {
                if index < self.fresh {
                    return self.afresh(alloc, index);
                }
                changed(alloc, self.lot(index), self.scope, best)
            }
        }
    }
}
