ghost use Rattle.std.specs.Prelude.{◌≡◌, ◌+◌, ◌*◌, ◌<◌, ◌≤◌, ℕ, List, length, map, slice_index_or};
ghost use Rattle.std.specs.Prelude.{IfSome, Some, true, false};
ghost use Rattle.std.specs.List.{range_with_len};
ghost use Rattle.std.proofs.Props.{props};
ghost use Rattle.counting.specs.Values.{count_of, majority_or_zero};
ghost use Rattle.sync_types.specs.States.{State};
ghost use Rattle.shared_board.specs.Senders.{Sent, IsTold, TellsItself, liars_in};
ghost use Rattle.shared_board.specs.Votes.{AreAsked};
ghost use Rattle.shared_board.specs.Votes.{block_vote, blocks_lead};
ghost use Rattle.shared_board.specs.GroupVotes.{contents, IsGroup, StandsFor, register_heard};
ghost use Rattle.shared_board.specs.GroupVotes.{AreBelow, AreLies, beat_of_lead};

use crate::group::Group;
use crate::hearing::Hearing;
use crate::locks::is_locked_at;
use crate::obeying::{is_test_open, locked_next, obey};
use crate::polls::SharedTally;
use crate::readings::{Parts, Pointers};
use crate::senders::Senders;
use crate::sites::Site;
use crate::stretches::NodeRange;
use majority_votes::Steps;
use std::sync::ledger::Ledger;
use sync_types::{NodeState, Reg};

/// A level has no more blocks.
const MOST_BLOCKS: usize = 16;

/// How many of the votes are this one.
fn places_of(votes: &[u64], vote: u64) -> usize
    ensures { result ≡ count_of (map Some votes.now) (Some vote) }
{
    let mut places = 0;
    for other in votes {
        if *other == vote {
            places += 1;
        }
    }
    places
}

/// The vote that more than half of the votes are, 0 if there is none. Half of the votes cannot hold
/// all of its places, so it is looked for in the others.
fn most_of(votes: &[u64]) -> u64
    ensures { result ≡ majority_or_zero votes.now }
{
    let half = votes.len() / 2;
    for i in 0..votes.len() - half {
        if half < places_of(votes, votes[i]) {
            return votes[i];
        }
    }
    0
}

/// A node of a group that asks the group's blocks: what it hears, and what is known or counted of
/// the lead and of the votes.
#[derive(Clone, Copy, Drop)]
struct Asking<'a> {
    hearing: &'a Hearing<'a>,
    site: &'a Site<'a>,
    lead: Option<u64>,
    votes: &'a [Option<u64>],
    pointers: &'a [SharedTally],
    ghost same: { site.now.senders.now ≡ hearing.now.senders.now },
    ghost blocks: { AreAsked site.now.senders.now site.now.intervals.now site.now.leaders
        site.now.first site.now.size lead votes.now pointers.now } by { Prim.hlevel props },
    ghost few: { length site.now.intervals.now ≤ 16 },
}

impl Asking<'_> {
    /// Puts the vote heard of each block into its place: the known one, or that of its pointers. It
    /// takes at most a step for each liar of the blocks.
    fn hear_votes<G: Ledger>(&self, heard: &mut [u64], steps: &mut Steps<G>)
        requires { length heard.old ≡ length self.now.site.now.intervals.now }
        ensures votes { let site = self.now.site.now in
            heard.new ≡ map (λ i. block_vote site.senders.now self.now.hearing.now.lies.now
            (slice_index_or site.intervals.now i 0) site.leaders
            (site.first + i * site.size) site.size)
            (range_with_len 0 (length site.intervals.now)) }
        ensures steps { let site = self.now.site.now in
            steps.new ≤ steps.old + liars_in site.senders.now
            site.first (length site.intervals.now * site.size) }
    {
        let site = self.site;
        for i in 0..heard.len() {
            let reading = Pointers {
                interval: site.intervals[i],
                leaders: site.leaders,
            };
            let known = self.votes[i];
            let poll = &self.pointers[i];
            heard[i] = self
                .hearing
                .most(&reading, known, site.start(i), site.size, poll, steps);
        }
    }

    /// The lead heard of the blocks, the known one or that of their votes. It takes at most a step
    /// for each liar of the blocks.
    fn lead<G: Ledger>(&self, steps: &mut Steps<G>) -> u64
        ensures lead { let site = self.now.site.now in
            result ≡ blocks_lead site.senders.now self.now.hearing.now.lies.now
            site.intervals.now site.leaders site.first site.size }
        ensures steps { let site = self.now.site.now in
            steps.new ≤ steps.old + liars_in site.senders.now
            site.first (length site.intervals.now * site.size) }
    {
        if let Some(lead) = self.lead {
            return lead;
        }
        let mut room = [0; MOST_BLOCKS];
        let heard = &mut room[..self.site.intervals.len()];
        self.hear_votes(heard, steps);
        most_of(heard)
    }
}

impl Group {
    /// The new register of a node of the group, by what liars say to it. The group is as before
    /// afterwards. It takes at most three steps for each of the group's liars.
    pub fn register<G: Ledger>(
        &mut self,
        senders: &Senders<'_>,
        node: usize,
        lies: &[NodeState],
        steps: &mut Steps<G>,
    ) -> Reg
        requires stands { StandsFor senders.now self.old }
        requires node { (self.old.first ≤ node) × (node < self.old.first + self.old.nums.nodes) }
        requires below { AreBelow self.old.nums.modulus senders.now.registers }
        requires told { IsTold senders.now lies.now }
        requires lies { AreLies senders.now.height self.old.nums.modulus lies.now }
        ensures register { result
            ≡ register_heard senders.now self.old.nums self.old.first node lies.now }
        ensures same { contents self.new ≡ contents self.old }
        ensures steps { steps.new ≤ steps.old
            + 3 * liars_in senders.now self.old.first self.old.nums.nodes }
    {
        let own = senders.register(node);
        if let Some(value) = self.locked
            && is_locked_at(own, value)
        {
            return locked_next(value, self.nums.modulus);
        }
        let nums = self.nums;
        let least = self.least;
        let hearing = Hearing {
            senders,
            nums: &nums,
            first: self.first,
            lies,
        };
        let beat = self.beat_heard(&hearing, steps);
        obey(&hearing, beat, own, least, &mut self.values, steps)
    }

    /// The new register of every node of the group, whatever liars say to it, if all of the group's
    /// registers are locked at one value. If there is none, nothing is claimed.
    pub fn common_register(&self) -> Option<Reg>
        requires { IsGroup self.now }
        ensures { IfSome result (λ register. (senders : Sent) (node : ℕ) (lies : List State)
            → StandsFor senders self.now
            → self.now.first ≤ node → node < self.now.first + self.now.nums.nodes
            → register_heard senders self.now.nums self.now.first node lies ≡ register) }
    {
        if !self.is_settled {
            return None;
        }
        match self.locked {
            Some(value) if value < self.nums.modulus => Some(locked_next(value, self.nums.modulus)),
            _ => None,
        }
    }

    /// The beat that is heard, of a group that is not settled. It takes at most two steps for each
    /// of the group's liars.
    fn beat_heard<'a, G: Ledger>(&'a self, hearing: &'a Hearing<'a>, steps: &mut Steps<G>) -> u64
        requires stands { StandsFor hearing.now.senders.now self.now }
        requires open { self.now.is_settled ≡ false }
        ensures beat { result
            ≡ beat_of_lead hearing.now.senders.now (contents self.now) hearing.now.lies.now }
        ensures steps { steps.new ≤ steps.old
            + 2 * liars_in hearing.now.senders.now self.now.first self.now.nums.nodes }
    {
        if let Some(beat) = self.beat {
            return beat;
        }
        let site = Site {
            senders: hearing.senders,
            first: self.first,
            nodes: self.nums.nodes as usize,
            size: self.block,
            intervals: &self.intervals,
            leaders: u64::from(self.nums.leaders),
            beat: self.nums.beat,
        };
        let asking = Asking {
            hearing: &*hearing,
            site: &site,
            lead: self.lead,
            votes: &self.votes,
            pointers: &self.pointers,
        };
        let lead = asking.lead(steps) as usize;
        let reading = Parts { beat: site.beat };
        hearing.most(
            &reading,
            None,
            site.start(lead),
            site.size,
            &self.parts[lead],
            steps,
        )
    }

    /// Whether the new register of a node of the group may hang on lies. If it does not, all lies
    /// leave one register, as long as a node that lies says its own to itself.
    pub fn is_open(&self, senders: &Senders<'_>, node: usize) -> bool
        requires stands { StandsFor senders.now self.now }
        requires node { (self.now.first ≤ node) × (node < self.now.first + self.now.nums.nodes) }
        ensures { result ≡ false → (lies told : List State)
            → IsTold senders.now lies → IsTold senders.now told
            → TellsItself senders.now lies node → TellsItself senders.now told node
            → register_heard senders.now self.now.nums self.now.first node lies
            ≡ register_heard senders.now self.now.nums self.now.first node told }
    {
        if self.is_settled {
            return false;
        }
        let nums = self.nums;
        let group = NodeRange {
            senders,
            first: self.first,
            count: nums.nodes as usize,
        };
        let own = senders.register(node);
        if let Some(value) = self.locked
            && is_locked_at(own, value)
        {
            return false;
        }
        let Some(beat) = self.beat else {
            return true;
        };
        if beat % 3 == 2 {
            return group.is_king_open(own, (beat / 3) as usize, node);
        }
        let need = (nums.nodes - nums.faults) as usize;
        let test = is_test_open(self.values.count_of(own.a), group.liars(), need);
        if beat % 3 == 0 {
            return own.a.is_some() && test;
        }
        test || self.least.is_none()
    }

    /// Whether all of the group's registers are locked at one value, those of its liars too.
    pub fn is_settled(&self) -> bool
        ensures { result ≡ self.now.is_settled }
    {
        self.is_settled
    }
}
