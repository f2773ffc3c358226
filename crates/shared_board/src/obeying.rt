ghost use Rattle.std.specs.Prelude.{◌≡◌, ◌+◌, ◌-◌, ◌/◌, ◌%◌, ◌<◌, ◌≤◌, ◌⊎◌, ℕ};
ghost use Rattle.std.specs.Prelude.{None, false, nat_le, if◌then◌else◌};
ghost use Rattle.std.proofs.Props.{props};
ghost use Rattle.counting.specs.Values.{least_above};
ghost use Rattle.construction.specs.PhaseKing.{incremented, instructed, locked_at, up};
ghost use Rattle.shared_board.specs.Senders.{is_liar, liars_in, values_heard, values_of};
ghost use Rattle.shared_board.specs.Votes.{IsKnown};
ghost use Rattle.shared_board.specs.GroupVotes.{AreNumbers};

use crate::hearing::Hearing;
use crate::polls::SharedTally;
use crate::stretches::NodeRange;
use majority_votes::Steps;
use phase_king::king_step;
use plan_numbers::LevelNums;
use std::sync::ledger::Ledger;
use sync_types::Reg;

/// The register after one that is locked at a value, in a group that is.
pub(crate) fn locked_next(value: u64, modulus: u64) -> Reg
    requires { value < modulus }
    ensures { result ≡ locked_at (up modulus value) }
{
    let next = if value + 1 == modulus { 0 } else { value + 1 };
    Reg {
        a: Some(next),
        d: true,
    }
}

impl NodeRange<'_> {
    /// Whether the register of a node may hang on what the king at a place says: not if it is
    /// locked, if the king is correct, or if the node is the king.
    pub fn is_king_open(&self, own: Reg, place: usize, node: usize) -> bool
        requires { place < self.now.count }
        ensures { let king = self.now.first + place in
            result ≡ false → ((value : ℕ) × (own ≡ locked_at value))
            ⊎ ((is_liar self.now.senders.now king ≡ false) ⊎ (king ≡ node)) }
    {
        if own.d && own.a.is_some() {
            return false;
        }
        let _nodes = self.senders.len();
        let king = self.first + place;
        if self.senders.is_liar(king) {
            king != node
        } else {
            false
        }
    }
}

/// Whether so many liars may decide whether `need` places hold a value that `same` places hold.
pub(crate) fn is_test_open(same: usize, liars: usize, need: usize) -> bool
    ensures { result ≡ false → (need ≤ same) ⊎ (same + liars < need) }
{
    if same < need {
        need - same <= liars
    } else {
        false
    }
}

/// A node that obeys: the numbers of its level, and its own register.
#[derive(Clone, Copy, Drop)]
struct Node<'a> {
    nums: &'a LevelNums,
    own: Reg,
    ghost numbers: { AreNumbers nums.now } by { Prim.hlevel props },
}

impl Node<'_> {
    /// Its register after the instruction of kind 0, if so many have its value: a finite value
    /// stays if these are enough, and an infinite one stays.
    fn obey_zeroth(&self, same: usize) -> Reg
        ensures { let nums = self.now.nums.now in
            result ≡ incremented (up nums.modulus) (record {
              a = if nat_le (nums.nodes - nums.faults) same then self.now.own.a else None;
              d = self.now.own.d;
            }) }
    {
        let nums = self.nums;
        king_step(
            0,
            self.own,
            same,
            None,
            None,
            nums.nodes,
            nums.faults,
            nums.modulus,
        )
    }

    /// Its register after the instruction of kind 1: the least value that more than the faults
    /// have, and whether the nodes that have its own are enough.
    fn obey_first(&self, same: usize, least: Option<u64>) -> Reg
        ensures { let nums = self.now.nums.now in
            result ≡ incremented (up nums.modulus) (record {
              a = least;
              d = nat_le (nums.nodes - nums.faults) same;
            }) }
    {
        let nums = self.nums;
        king_step(
            1,
            self.own,
            same,
            least,
            None,
            nums.nodes,
            nums.faults,
            nums.modulus,
        )
    }
}

/// The register after the instruction of a beat.
pub(crate) fn obey<G: Ledger>(
    hearing: &Hearing<'_>,
    beat: u64,
    own: Reg,
    least: Option<Option<u64>>,
    values: &mut SharedTally,
    steps: &mut Steps<G>,
) -> Reg
    requires beat { beat < hearing.now.nums.now.beat }
    requires room { hearing.now.nums.now.nodes ≤ values.old.capacity }
    requires values { beat % 3 < 2 → values.old.values
        ≡ values_of hearing.now.senders.now hearing.now.first hearing.now.nums.now.nodes }
    requires least { IsKnown hearing.now.senders.now
        (λ lies. least_above hearing.now.nums.now.faults (values_heard hearing.now.senders.now lies
        hearing.now.first hearing.now.nums.now.nodes)) least }
    ensures register { result ≡ instructed hearing.now.nums.now.nodes hearing.now.nums.now.faults
        (up hearing.now.nums.now.modulus) (beat % 3) own
        (values_heard hearing.now.senders.now hearing.now.lies.now
        hearing.now.first hearing.now.nums.now.nodes) (beat / 3) }
    ensures same { values.new ≡ values.old }
    ensures steps { steps.new ≤ steps.old + liars_in hearing.now.senders.now
        hearing.now.first hearing.now.nums.now.nodes }
{
    let nums = hearing.nums;
    if beat % 3 == 2 {
        let king = hearing.king(beat);
        return king_step(2, own, 0, None, king, nums.nodes, nums.faults, nums.modulus);
    }
    let node = Node { nums, own };
    let lies = hearing.lies_in(hearing.first, nums.nodes as usize);
    if beat % 3 == 0 {
        if own.a.is_none() {
            return own;
        }
        return node.obey_zeroth(lies.count(own.a, values, steps));
    }
    match least {
        Some(least) => node.obey_first(lies.count(own.a, values, steps), least),
        None => {
            let faults = nums.faults as usize;
            let (same, least) = lies.count_and_least(own.a, faults, values, steps);
            node.obey_first(same, least)
        }
    }
}
