use crate::runners::Runner;
use counter_core::NoOverlay;

impl Runner<NoOverlay> {
    ghost use Rattle.std.specs.Prelude.{◌≡◌, List, [], max};
    ghost use Rattle.counter_core.specs.NoLayers.{no_layer};
    ghost use Rattle.round_runner.specs.Known.{KnowsLocks, known_from};
    ghost use Rattle.round_runner.specs.Runners.{IsPlaying, configuration_of};
    ghost use Rattle.round_runner.specs.Skipping.{IsSkipped};

    /// Goes on until the first locked configuration of each era [is known](Runner::knows_locks),
    /// and no further: to the first locked configuration of the last era, or to the last one if
    /// none of that era is. Before the last era it [skips](Runner::skip_to) what it can.
    pub fn play_until_known(&mut self)
        ensures skipped { IsSkipped self.old self.new.at self.new }
        ensures knows { KnowsLocks self.new }
        ensures stops { (began : List (Unit {0})) → IsPlaying (λ o. no_layer) (λ o. []) began
            self.old → self.new.at ≡ max self.old.at (known_from self.old.plan self.old.script
            (configuration_of (λ o. no_layer) began self.old)) }
        ensures played { (began : List (Unit {0})) → IsPlaying (λ o. no_layer) (λ o. []) began
            self.old → IsPlaying (λ o. no_layer) (λ o. []) began self.new }
    {
        let begin = self.script.era_start(self.script.eras() - 1);
        let end = begin.max(self.at);
        self.skip_to(end);
        while !self.knows_locks() {
            self.round();
        }
    }
}
