use crate::runners::Runner;
use adversary_script::Script;
use counter_core::Overlay;
use layer_laws::Play;

impl<O: Overlay> Play<O> for Runner<O> {
    ghost use Rattle.round_runner.specs.Runners.{position_of};

    ghost position = { position_of O.layer O.kept };

    fn facts(&self) {
        let _at = self.at;
    }

    fn at(&self) -> u64 {
        self.at
    }

    fn script(&self) -> &Script {
        &self.script
    }

    fn nodes(&self) -> u32 {
        Runner::nodes(self)
    }

    fn bound(&self) -> u64 {
        Runner::bound(self)
    }

    fn output(&self, v: u32) -> u64 {
        Runner::output(self, v)
    }

    fn overlay(&self) -> &O {
        &self.overlay
    }

    fn lock_of(&self, j: usize) -> Option<u64> {
        self.locked_in(j)
    }

    fn round(&mut self) {
        Runner::round(self);
    }
}
