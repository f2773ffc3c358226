use crate::growing::grow;
use crate::runners::Runner;
use counter_core::{NoOverlay, Overlay};
use majority_votes::Steps;
use std::marker::Brand;
use std::sync::ledger::{Blank, Ledger};

impl<O: Overlay> Runner<O> {
    ghost use Rattle.std.specs.Prelude.{◌≡◌, ◌<◌};
    ghost use Rattle.adversary_script.specs.Eras.{era_of, end_of_era};

    /// The first configuration after the era of `at`.
    pub fn era_end(&self) -> u64
        ensures value { result ≡ end_of_era self.now.script (era_of self.now.script self.now.at) }
        ensures behind { self.now.at < result }
    {
        let behind = self.era + 1;
        if behind < self.script.eras() {
            self.script.era_start(behind)
        } else {
            self.script.rounds() + 1
        }
    }
}

impl Runner<NoOverlay> {
    ghost use Rattle.std.specs.Prelude.{◌≡◌, ◌+◌, ◌-◌, ◌<◌, ◌≤◌, List, [], None, true, is_some};
    ghost use Rattle.std.specs.Prelude.{slice_index_or};
    ghost use Rattle.counter_core.specs.NoLayers.{no_layer};
    ghost use Rattle.tower.specs.Settled.{IsSettled};
    ghost use Rattle.adversary_script.specs.Eras.{era_of, faulty_at, end_of_era};
    ghost use Rattle.round_runner.specs.Ledgers.{IsBlankOf};
    ghost use Rattle.round_runner.specs.Runners.{IsPlaying};
    ghost use Rattle.round_runner.specs.Skipping.{IsSkipped};

    /// Counts the correct nodes of the configuration, and says whether it is settled.
    fn gather<G: Ledger>(&mut self, blank: Blank) -> bool
        requires { IsBlankOf G.name G.parts blank.name blank.parts }
        ensures same { self.new ≡ self.old }
        ensures settled { result ≡ true → IsSettled self.old.plan
            (faulty_at self.old.script self.old.at) self.old.states }
    {
        self.states.facts();
        let mut steps = Steps::<G>::new(blank);
        let shared = &mut self.room.step.shared;
        let faulty = self.script.era_faulty(self.era);
        self.tower.gather(&self.states, faulty, shared, &mut steps);
        shared.is_settled()
    }

    /// Whether the configuration is settled, and its era is known to be locked. It is counted only
    /// if the one before it was settled.
    fn is_settled(&mut self) -> bool
        ensures same { self.new ≡ self.old }
        ensures settled { result ≡ true → IsSettled self.old.plan
            (faulty_at self.old.script self.old.at) self.old.states }
        ensures known { result ≡ true → is_some (slice_index_or self.old.locks
            (era_of self.old.script self.old.at) None) ≡ true }
    {
        if self.locked_at().is_none() || !self.room.step.shared.is_settled() {
            return false;
        }
        self.gather::<Brand>(Blank::new(1))
    }

    /// Goes on towards configuration `end`, at least one round and not past it. If the
    /// configuration is settled, the rounds of its era cost no more than one: each field grows by
    /// the rounds between.
    pub fn skip(&mut self, end: u64)
        requires from { self.old.at < end }
        requires within { end ≤ self.old.script.rounds }
        ensures skipped { IsSkipped self.old self.new.at self.new }
        ensures from { self.old.at < self.new.at }
        ensures to { self.new.at ≤ end }
        ensures played { (began : List (Unit {0})) → IsPlaying (λ o. no_layer) (λ o. []) began
            self.old → IsPlaying (λ o. no_layer) (λ o. []) began self.new }
    {
        let to = end.min(self.era_end() - 1);
        if self.at() < to && self.is_settled() {
            self.states.facts();
            grow(to - self.at, &mut self.room.step.out, &mut self.states);
            self.states.flip();
            self.at = to;
        } else {
            self.round();
        }
    }

    /// Goes on to configuration `end`. It is then what rounds make of it, but of the rounds of an
    /// era from a settled configuration on it plays two at most.
    pub fn skip_to(&mut self, end: u64)
        requires from { self.old.at ≤ end }
        requires within { end ≤ self.old.script.rounds }
        ensures skipped { IsSkipped self.old end self.new }
        ensures played { (began : List (Unit {0})) → IsPlaying (λ o. no_layer) (λ o. []) began
            self.old → IsPlaying (λ o. no_layer) (λ o. []) began self.new }
    {
        while self.at() < end {
            self.skip(end);
        }
    }
}
