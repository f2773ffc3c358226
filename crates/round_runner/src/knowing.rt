use crate::runners::Runner;
use counter_core::Overlay;
use layer_laws::lowest_correct;

impl<O: Overlay> Runner<O> {
    ghost use Rattle.std.specs.Prelude.{◌≡◌, ◌↔◌, ◌≤◌, ◌<◌, ◌+◌, List, None, true, length, is_some};
    ghost use Rattle.std.specs.Prelude.{IfSome, slice_index_or};
    ghost use Rattle.construction.specs.Plans.{plan_bound, plan_depth, plan_nodes};
    ghost use Rattle.construction.specs.Shown.{shown};
    ghost use Rattle.construction.specs.Steps.{state_of};
    ghost use Rattle.adversary_script.specs.Eras.{era_of, faulty_at, first_of_era, end_of_era};
    ghost use Rattle.layer_laws.specs.Lowest.{lowest_correct};
    ghost use Rattle.round_runner.specs.Known.{CountsOn, KnowsLocks};
    ghost use Rattle.round_runner.specs.Laws.{IsUpTo};
    ghost use Rattle.round_runner.specs.Locks.{first_locked, era_locked, IsFirstLocked};
    ghost use Rattle.round_runner.specs.Runners.{IsPlaying, configuration_of};

    /// The first configuration of era `j` so far that is locked, None exactly if there is none. If
    /// the runner plays its script and has reached the plan's bound in that era, there is one, at
    /// the bound or before. Once all of them [are known](Runner::knows_locks), it is that of the
    /// whole run.
    pub fn locked_in(&self, j: usize) -> Option<u64>
        requires { j ≤ length self.now.script.eras }
        ensures value { result ≡ slice_index_or self.now.locks j None }
        ensures first { (began : List O.Kept) → IsPlaying O.layer O.kept began self.now
            → IsFirstLocked self.now.plan self.now.script
            (configuration_of O.layer began self.now) j self.now.at result }
        ensures by_bound { (began : List O.Kept) → IsPlaying O.layer O.kept began self.now
            → first_of_era self.now.script j + plan_bound self.now.plan
            < end_of_era self.now.script j
            → first_of_era self.now.script j + plan_bound self.now.plan ≤ self.now.at
            → IsUpTo (first_of_era self.now.script j + plan_bound self.now.plan) result }
        ensures last { (began : List O.Kept) → IsPlaying O.layer O.kept began self.now
            → KnowsLocks self.now → IsFirstLocked self.now.plan self.now.script
            (configuration_of O.layer began self.now) j self.now.script.rounds result }
        ensures at_end { (began : List O.Kept) → IsPlaying O.layer O.kept began self.now
            → KnowsLocks self.now → result ≡ first_locked (era_locked self.now.plan self.now.script
            (configuration_of O.layer began self.now) j) self.now.script.rounds }
    {
        self.locks[j]
    }

    /// The first locked configuration so far of the era of `at`, as
    /// [`locked_in`](Runner::locked_in) gives it.
    pub fn locked_at(&self) -> Option<u64>
        ensures value { result ≡ slice_index_or self.now.locks
            (era_of self.now.script self.now.at) None }
        ensures first { (began : List O.Kept) → IsPlaying O.layer O.kept began self.now
            → IsFirstLocked self.now.plan self.now.script (configuration_of O.layer began self.now)
            (era_of self.now.script self.now.at) self.now.at result }
        ensures by_bound { (began : List O.Kept) → IsPlaying O.layer O.kept began self.now
            → first_of_era self.now.script (era_of self.now.script self.now.at) + plan_bound
            self.now.plan ≤ self.now.at
            → IsUpTo (first_of_era self.now.script
            (era_of self.now.script self.now.at) + plan_bound self.now.plan) result }
    {
        self.locked_in(self.era)
    }

    /// Whether the first locked configuration of each era is known as it will be at the end: the
    /// runner is at the last configuration, or in the last era and knows one of that era.
    pub fn knows_locks(&self) -> bool
        ensures { (result ≡ true) ↔ KnowsLocks self.now }
    {
        self.at == self.script.rounds()
            || self.locked_at().is_some() && self.era + 1 == self.script.eras()
    }

    /// What all correct nodes show, if a configuration of the era of `at` so far was locked, and
    /// None exactly if none was. To the end of the era it grows by one modulo C in each round,
    /// whatever is told.
    pub fn counted(&self) -> Option<u64>
        ensures some { is_some result
            ≡ is_some (slice_index_or self.now.locks (era_of self.now.script self.now.at) None) }
        ensures shown { IfSome result (λ value. value ≡ shown (plan_depth self.now.plan)
            (state_of self.now.states (lowest_correct (plan_nodes self.now.plan)
            (faulty_at self.now.script self.now.at)))) }
        ensures counts { IfSome result (λ value. (began : List O.Kept)
            → IsPlaying O.layer O.kept began self.now
            → CountsOn self.now.plan self.now.script (configuration_of O.layer began self.now)
            self.now.at value) }
    {
        let _locked = self.locked_at()?;
        let faulty = self.script.era_faulty(self.era);
        Some(self.output(lowest_correct(self.nodes(), faulty)))
    }
}
