ghost use Rattle.std.specs.Prelude.{◌≡◌, ◌+◌, ◌<◌, ◌≤◌, ◌↔◌, ℕ, true, false, length, IsTrue};
ghost use Rattle.std.specs.Prelude.{None, slice_index_or};
ghost use Rattle.shared_board.specs.Senders.{is_liar, output_of, correct_in, liars_in, values_of};
ghost use Rattle.shared_board.specs.Senders.{numbers_of};
ghost use Rattle.shared_board.specs.Votes.{known_number, IsMost};

use crate::polls::SharedTally;
use crate::readings::Reading;
use crate::senders::Senders;
use majority_votes::{Outlook, Steps};
use std::sync::ledger::Ledger;

/// So many nodes, from the first on.
#[derive(Clone, Copy, Drop)]
pub(crate) struct NodeRange<'a> {
    pub senders: &'a Senders<'a>,
    pub first: usize,
    pub count: usize,
    ghost within: { first + count ≤ length senders.now.registers },
}

/// What is known of a number that most have, or 0 if there is none.
pub(crate) fn known_number(outlook: Outlook) -> Option<u64>
    ensures { result ≡ known_number outlook }
{
    match outlook {
        Outlook::Is(majority) => Some(majority.unwrap_or(0)),
        Outlook::Open => None,
    }
}

impl NodeRange<'_> {
    /// The place after its last node.
    pub fn end(&self) -> usize
        ensures { result ≡ self.now.first + self.now.count }
    {
        let _nodes = self.senders.len();
        self.first + self.count
    }

    /// How many of its nodes are liars.
    pub fn liars(&self) -> usize
        ensures { result ≡ liars_in self.now.senders.now self.now.first self.now.count }
    {
        self.senders.liars_below(self.end()) - self.senders.liars_below(self.first)
    }

    /// How many of its nodes are correct.
    pub fn correct(&self) -> usize
        ensures { result
            ≡ length (correct_in self.now.senders.now self.now.first self.now.count) }
    {
        self.count - self.liars()
    }

    /// Counts what is read of its correct nodes, by a step for each.
    pub fn gather_numbers<R: Reading, G: Ledger>(
        &self,
        reading: &R,
        poll: &mut SharedTally,
        steps: &mut Steps<G>,
    )
        requires { self.now.count ≤ poll.old.capacity }
        ensures poll { poll.new ≡ record poll.old {
          values = numbers_of self.now.senders.now
              (R.reads reading.now) self.now.first self.now.count;
        } }
        ensures steps { steps.new ≡ steps.old
            + length (correct_in self.now.senders.now self.now.first self.now.count) }
    {
        poll.clear();
        for u in self.first..self.end() {
            if !self.senders.is_liar(u) {
                poll.place(Some(reading.of(self.senders.output(u))), steps);
            }
        }
    }

    /// What its first correct node shows, if there is one.
    fn first_output(&self) -> Option<u64>
        ensures { result ≡ slice_index_or (numbers_of self.now.senders.now (λ output. output)
            self.now.first self.now.count) 0 None }
    {
        for u in self.first..self.end() {
            if !self.senders.is_liar(u) {
                return Some(self.senders.output(u));
            }
        }
        None
    }

    /// Whether all of its correct nodes show this. If they do, each comparison stands for a placing
    /// and takes a step; if not, none does, since all are to be placed then.
    fn all_show<G: Ledger>(&self, output: u64, steps: &mut Steps<G>) -> bool
        ensures show { IsTrue result ↔ ((u : ℕ) → self.now.first ≤ u
            → u < self.now.first + self.now.count → is_liar self.now.senders.now u ≡ false
            → output_of self.now.senders.now u ≡ output) }
        ensures all { result ≡ true → steps.new ≡ steps.old
            + length (correct_in self.now.senders.now self.now.first self.now.count) }
        ensures none { result ≡ false → steps.new ≡ steps.old }
    {
        let mut compared = 0;
        for u in self.first..self.end() {
            if !self.senders.is_liar(u) {
                if self.senders.output(u) != output {
                    return false;
                }
                compared += 1;
            }
        }
        steps.compared(compared);
        true
    }

    /// Counts what is read of its correct nodes, as far as the liars may decide what most have.
    /// Else that is known. Nothing is placed if all correct nodes show one number, and they are
    /// more than the liars. Each correct node takes a step: what is read of it is placed or
    /// compared.
    pub fn gather_most<R: Reading, G: Ledger>(
        &self,
        reading: &R,
        poll: &mut SharedTally,
        steps: &mut Steps<G>,
    ) -> Option<u64>
        requires { self.now.count ≤ poll.old.capacity }
        ensures most { IsMost self.now.senders.now (R.reads reading.now)
            self.now.first self.now.count result poll.new }
        ensures room { poll.new.capacity ≡ poll.old.capacity }
        ensures steps { steps.new ≡ steps.old
            + length (correct_in self.now.senders.now self.now.first self.now.count) }
    {
        if self.count == 1 && !self.senders.is_liar(self.first) {
            steps.compared(1);
            return Some(reading.of(self.senders.output(self.first)));
        }
        if self.liars() < self.count - self.count / 2
            && let Some(output) = self.first_output()
            && self.all_show(output, steps)
        {
            return Some(reading.of(output));
        }
        self.gather_numbers(reading, poll, steps);
        known_number(poll.majority_with(self.liars()))
    }

    /// Counts the values of its correct nodes' registers, by a step for each.
    pub fn gather_values<G: Ledger>(&self, poll: &mut SharedTally, steps: &mut Steps<G>)
        requires { self.now.count ≤ poll.old.capacity }
        ensures poll { poll.new ≡ record poll.old {
          values
              = values_of self.now.senders.now self.now.first self.now.count;
        } }
        ensures steps { steps.new ≡ steps.old
            + length (correct_in self.now.senders.now self.now.first self.now.count) }
    {
        poll.clear();
        for u in self.first..self.end() {
            if !self.senders.is_liar(u) {
                poll.place(self.senders.register(u).a, steps);
            }
        }
    }
}
