ghost use Rattle.std.specs.Prelude.{◌≡◌, ◌+◌, ◌-◌, ◌/◌, ◌<◌, ◌≤◌, length};
ghost use Rattle.std.proofs.Props.{props};
ghost use Rattle.shared_board.specs.Senders.{IsTold, liars_in, lies_in, value_heard};
ghost use Rattle.shared_board.specs.Votes.{IsMost, most_heard};
ghost use Rattle.shared_board.specs.GroupVotes.{AreNumbers, AreLies};

use crate::laying::Lies;
use crate::polls::SharedTally;
use crate::readings::Reading;
use crate::senders::Senders;
use majority_votes::Steps;
use plan_numbers::LevelNums;
use std::sync::ledger::Ledger;
use sync_types::NodeState;

/// What a node of a group hears: the senders, and what the liars among them say to it.
#[derive(Clone, Copy, Drop)]
pub(crate) struct Hearing<'a> {
    pub senders: &'a Senders<'a>,
    /// The numbers of the group's level, and its first node.
    pub nums: &'a LevelNums,
    pub first: usize,
    pub lies: &'a [NodeState],
    ghost numbers: { AreNumbers nums.now } by { Prim.hlevel props },
    ghost within: { first + nums.now.nodes ≤ length senders.now.registers },
    ghost told: { IsTold senders.now lies.now },
    ghost range: { AreLies senders.now.height nums.now.modulus lies.now } by { Prim.hlevel props },
}

impl Hearing<'_> {
    /// What the liars among `count` nodes from `first` on say.
    pub fn lies_in(&self, first: usize, count: usize) -> Lies<'_>
        requires { first + count ≤ length self.now.senders.now.registers }
        ensures height { result.height ≡ self.now.senders.now.height }
        ensures lies { result.lies.now
            ≡ lies_in self.now.senders.now self.now.lies.now first count }
    {
        let _nodes = self.senders.len();
        let from = self.senders.liars_below(first);
        let to = self.senders.liars_below(first + count);
        Lies {
            height: self.senders.height(),
            lies: &self.lies[from..to],
        }
    }

    /// The value heard of the register of the king of a beat.
    pub fn king(&self, beat: u64) -> Option<u64>
        requires { beat < self.now.nums.now.beat }
        ensures { result ≡ value_heard self.now.senders.now self.now.lies.now
            (self.now.first + beat / 3) }
    {
        let _nodes = self.senders.len();
        let king = self.first + (beat / 3) as usize;
        if self.senders.is_liar(king) {
            let lies = self.lies;
            let lie = &lies[self.senders.liars_below(king)];
            lie.reg(self.senders.height()).a
        } else {
            self.senders.register(king).a
        }
    }

    /// The number heard that most of `count` nodes from `first` on have: the known one, or that of
    /// their correct ones, which the poll has, with their liars. It takes at most a step for each
    /// of these.
    pub fn most<R: Reading, G: Ledger>(
        &self,
        reading: &R,
        known: Option<u64>,
        first: usize,
        count: usize,
        poll: &SharedTally,
        steps: &mut Steps<G>,
    ) -> u64
        requires within { first + count ≤ length self.now.senders.now.registers }
        requires stands { IsMost self.now.senders.now (R.reads reading.now)
            first count known poll.now }
        requires room { count ≤ poll.now.capacity }
        ensures most { result ≡ most_heard self.now.senders.now self.now.lies.now
            (R.reads reading.now) first count }
        ensures steps { steps.new ≤ steps.old + liars_in self.now.senders.now first count }
    {
        match known {
            Some(most) => most,
            None => self.lies_in(first, count).most(reading, poll, steps),
        }
    }
}
