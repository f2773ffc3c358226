ghost use Rattle.std.specs.Prelude.{◌≡◌, ◌+◌, ◌/◌, ◌≤◌, ◌<◌, ◌++◌, ◌↔◌, map, length, All};
ghost use Rattle.std.specs.Prelude.{Some, None, unwrap_or, IsTrue};
ghost use Rattle.counting.specs.Values.{count_of, majority_of, least_above};
ghost use Rattle.sync_types.specs.States.{register_at};
ghost use Rattle.construction.specs.Shown.{shown};

use crate::polls::SharedTally;
use crate::readings::Reading;
use counter_core::shown;
use majority_votes::Steps;
use std::sync::ledger::Ledger;
use sync_types::NodeState;

/// What liars say to a level that stands above `height` levels.
#[derive(Clone, Copy, Drop)]
pub(crate) struct Lies<'a> {
    pub height: usize,
    pub lies: &'a [NodeState],
    ghost deep: { All (λ s. height < length s.registers) lies.now },
}

impl Lies<'_> {
    /// Of how many lies a number is read.
    fn count_number<R: Reading>(&self, reading: &R, number: u64) -> usize
        ensures value { result ≡ count_of
            (map (λ s. Some (R.reads reading.now (shown self.now.height s))) self.now.lies.now)
            (Some number) }
        ensures most { result ≤ length self.now.lies.now }
    {
        let mut count = 0;
        for lie in self.lies {
            if reading.of(shown(self.height, lie)) == number {
                count += 1;
            }
        }
        count
    }

    /// Whether more than `half` places hold a number, of those that the poll has and those read of
    /// the lies.
    fn is_above<R: Reading>(
        &self,
        reading: &R,
        number: u64,
        half: usize,
        poll: &SharedTally,
    ) -> bool
        ensures { let told = map (λ s. Some (R.reads reading.now (shown self.now.height s)))
            self.now.lies.now in
            IsTrue result ↔ (half < count_of (poll.now.values ++ told) (Some number)) }
    {
        let Some(lacking) = half.checked_sub(poll.count_of(Some(number))) else {
            return true;
        };
        lacking < self.lies.len() && lacking < self.count_number(reading, number)
    }

    /// The number that more than `half` places hold, of those that the poll has and those read of
    /// the lies; 0 if there is none. None that the poll has holds so many alone. Each lie's number
    /// is compared with these, and takes a step.
    fn most_with<R: Reading, G: Ledger>(
        &self,
        reading: &R,
        half: usize,
        poll: &SharedTally,
        steps: &mut Steps<G>,
    ) -> u64
        requires half { half ≡ (length poll.now.values + length self.now.lies.now) / 2 }
        requires open { least_above half poll.now.values ≡ None }
        ensures most { let told = map (λ s. Some (R.reads reading.now (shown self.now.height s)))
            self.now.lies.now in
            result ≡ unwrap_or (majority_of (poll.now.values ++ told)) 0 }
        ensures steps { steps.new ≡ steps.old + length self.now.lies.now }
    {
        steps.compared(self.lies.len());
        for lie in self.lies {
            let number = reading.of(shown(self.height, lie));
            if half == 0 {
                return number;
            }
            if self.is_above(reading, number, half, poll) {
                return number;
            }
        }
        0
    }

    /// The number that most have, of those that the poll has and those read of the lies; 0 if there
    /// is none. Nothing is placed. Each lie takes a step, unless the poll decides alone.
    pub fn most<R: Reading, G: Ledger>(
        &self,
        reading: &R,
        poll: &SharedTally,
        steps: &mut Steps<G>,
    ) -> u64
        requires { length poll.now.values + length self.now.lies.now ≤ poll.now.capacity }
        ensures most { let told = map (λ s. Some (R.reads reading.now (shown self.now.height s)))
            self.now.lies.now in
            result ≡ unwrap_or (majority_of (poll.now.values ++ told)) 0 }
        ensures steps { steps.new ≤ steps.old + length self.now.lies.now }
    {
        let _room = poll.capacity();
        let half = (poll.len() + self.lies.len()) / 2;
        match poll.least_above(half) {
            Some(most) => most,
            None => self.most_with(reading, half, poll, steps),
        }
    }

    /// How many places hold a value, and the least finite value that more than `faults` places
    /// hold, of the values in the poll and of those of the lies, each of which is placed. The poll
    /// is as before afterwards.
    pub fn count_and_least<G: Ledger>(
        &self,
        value: Option<u64>,
        faults: usize,
        poll: &mut SharedTally,
        steps: &mut Steps<G>,
    ) -> (usize, Option<u64>)
        requires { length poll.old.values + length self.now.lies.now ≤ poll.old.capacity }
        ensures count { result.0 ≡ count_of (poll.old.values
            ++ map (λ s. (register_at self.now.height s).a) self.now.lies.now) value }
        ensures least { result.1 ≡ least_above faults (poll.old.values
            ++ map (λ s. (register_at self.now.height s).a) self.now.lies.now) }
        ensures same { poll.new ≡ poll.old }
        ensures steps { steps.new ≡ steps.old + length self.now.lies.now }
    {
        let held = poll.len();
        for lie in self.lies {
            poll.place(lie.reg(self.height).a, steps);
        }
        let counted = (poll.count_of(value), poll.least_above(faults));
        poll.cut(held);
        counted
    }

    /// How many places hold a value, of the values in the poll and of those of the lies; None is
    /// infinity. Nothing is placed: each lie's value is compared, and takes a step.
    pub fn count<G: Ledger>(
        &self,
        value: Option<u64>,
        poll: &SharedTally,
        steps: &mut Steps<G>,
    ) -> usize
        requires { length poll.now.values + length self.now.lies.now ≤ poll.now.capacity }
        ensures count { result ≡ count_of (poll.now.values
            ++ map (λ s. (register_at self.now.height s).a) self.now.lies.now) value }
        ensures steps { steps.new ≡ steps.old + length self.now.lies.now }
    {
        let _room = poll.capacity();
        let mut count = poll.count_of(value);
        for lie in self.lies {
            steps.compared(1);
            if value == lie.reg(self.height).a {
                count += 1;
            }
        }
        count
    }
}
