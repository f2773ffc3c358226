ghost use Rattle.std.specs.Prelude.{◌≡◌, ◌+◌, ◌*◌, ◌%◌, ◌<◌, ◌≤◌, max, length};
ghost use Rattle.std.specs.Prelude.{IfSome};
ghost use Rattle.counting.specs.Values.{count_of, least_above};
ghost use Rattle.shared_board.specs.Senders.{correct_in, values_of, values_heard};
ghost use Rattle.shared_board.specs.Votes.{IsKnown, IsBeat, IsLead, AreAsked, HasVotesIn};
ghost use Rattle.shared_board.specs.Votes.{HasRoomIn};

use crate::polls::SharedTally;
use crate::readings::{Parts, Pointers};
use crate::sites::Site;
use crate::stretches::NodeRange;
use majority_votes::Steps;
use std::sync::ledger::Ledger;

/// How many of the votes are this one; None is one that is not known.
fn places_of(votes: &[Option<u64>], vote: Option<u64>) -> usize
    ensures { result ≡ count_of votes.now vote }
{
    let mut places = 0;
    for other in votes {
        if vote == *other {
            places += 1;
        }
    }
    places
}

/// The greater of two.
fn greater(one: usize, other: usize) -> usize
    ensures { result ≡ max one other }
{
    if one < other { other } else { one }
}

/// The lead, if the votes that are known decide it.
fn known_lead(votes: &[Option<u64>]) -> Option<u64>
    ensures { IsLead votes.now result }
{
    let half = votes.len() / 2;
    let open = places_of(votes, None);
    let mut most = 0;
    for i in 0..votes.len() {
        if let Some(vote) = votes[i] {
            let places = places_of(votes, votes[i]);
            if half < places {
                return Some(vote);
            }
            most = greater(most, places);
        }
    }
    if most + open <= half { Some(0) } else { None }
}

/// Counts the pointers of the blocks, as far as they decide a vote: a step for each correct node.
/// The answer is the lead, if it is known.
pub(crate) fn gather_lead<G: Ledger>(
    site: &Site<'_>,
    pointers: &mut [SharedTally],
    votes: &mut [Option<u64>],
    steps: &mut Steps<G>,
) -> Option<u64>
    requires { HasVotesIn (length site.now.intervals.now) site.now.size votes.old pointers.old }
    ensures blocks { AreAsked site.now.senders.now site.now.intervals.now site.now.leaders
        site.now.first site.now.size result votes.new pointers.new }
    ensures below { IfSome result (λ lead. lead < site.now.leaders) }
    ensures steps { steps.new ≡ steps.old + length (correct_in site.now.senders.now
        site.now.first (length site.now.intervals.now * site.now.size)) }
{
    for i in 0..site.intervals.len() {
        let reading = Pointers {
            interval: site.intervals[i],
            leaders: site.leaders,
        };
        let block = NodeRange {
            senders: site.senders,
            first: site.start(i),
            count: site.size,
        };
        votes[i] = block.gather_most(&reading, &mut pointers[i], steps);
    }
    known_lead(votes)
}

/// Counts the parts of the lead, or of all leaders if the lead is not known. The answer is the
/// beat, if it is known.
pub(crate) fn gather_beat<G: Ledger>(
    site: &Site<'_>,
    lead: Option<u64>,
    parts: &mut [SharedTally],
    steps: &mut Steps<G>,
) -> Option<u64>
    requires lead { IfSome lead (λ lead. lead < site.now.leaders) }
    requires room { HasRoomIn site.now.leaders site.now.size parts.old }
    ensures beat { IsBeat site.now.senders.now site.now.beat site.now.first site.now.size
        lead result parts.new }
    ensures room { HasRoomIn site.now.leaders site.now.size parts.new }
    ensures steps { steps.new ≤ steps.old + length (correct_in site.now.senders.now
        site.now.first (site.now.leaders * site.now.size)) }
{
    let reading = Parts { beat: site.beat };
    if let Some(lead) = lead {
        let lead = lead as usize;
        let block = NodeRange {
            senders: site.senders,
            first: site.start(lead),
            count: site.size,
        };
        return block.gather_most(&reading, &mut parts[lead], steps);
    }
    for b in 0..parts.len() {
        let block = NodeRange {
            senders: site.senders,
            first: site.start(b),
            count: site.size,
        };
        block.gather_numbers(&reading, &mut parts[b], steps);
    }
    None
}

/// Counts the values of a group, unless the beat is known and counts none. The answer is the least
/// value that more than `faults` nodes have, if it is known.
pub(crate) fn gather_least<G: Ledger>(
    group: &NodeRange<'_>,
    faults: usize,
    beat: Option<u64>,
    values: &mut SharedTally,
    steps: &mut Steps<G>,
) -> Option<Option<u64>>
    requires { group.now.count ≤ values.old.capacity }
    ensures values { IfSome beat (λ beat. beat % 3 < 2)
        → values.new.values ≡ values_of group.now.senders.now group.now.first group.now.count }
    ensures least { IsKnown group.now.senders.now (λ lies. least_above faults
        (values_heard group.now.senders.now lies group.now.first group.now.count)) result }
    ensures capacity { values.new.capacity ≡ values.old.capacity }
    ensures steps { steps.new ≤ steps.old
        + length (correct_in group.now.senders.now group.now.first group.now.count) }
{
    if let Some(beat) = beat
        && beat % 3 == 2
    {
        return None;
    }
    group.gather_values(values, steps);
    if values.is_least_fixed(faults, group.liars()) {
        Some(values.least_above(faults))
    } else {
        None
    }
}
