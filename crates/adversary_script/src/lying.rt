ghost use Rattle.std.specs.Prelude.{◌≡◌, ◌<◌, length, true};
ghost use Rattle.sync_types.specs.FaultSets.{is_in};
ghost use Rattle.state_codec.specs.Shapes.{fields_at};
ghost use Rattle.state_codec.specs.Ranges.{InRange};
ghost use Rattle.adversary_script.specs.Eras.{faulty_at};
ghost use Rattle.adversary_script.specs.Lies.{start_of, lie_of};

use crate::draws::Draw;
use crate::lies::{CommonStart, What};
use crate::noise::Noise;
use crate::scripts::Script;
use crate::shifting::{Source, zero_into};
use state_codec::Packed;
use sync_types::NodeState;

/// The stream of the noise with which node 0 starts; those of the other nodes stand after it.
const FIRST_START_STREAM: u64 = 65536;

impl Script {
    /// Writes the state in which node `v` starts into `out`, which has the depth of the states for
    /// which the script was read. `noise` is that of this script. It takes no memory.
    #[tactic(auto, unfolding(crate::specs::Lies::start_of))]
    pub fn start_into(&self, noise: &mut Noise, v: u32, out: &mut NodeState)
        requires noise { noise.old ≡ self.now.key }
        requires node { v < self.now.nodes }
        requires depth { length out.old.registers ≡ self.now.shape.depth }
        ensures value { out.new ≡ start_of self.now v }
        ensures range { InRange (fields_at self.now.shape v) out.new }
        ensures noise { noise.new ≡ noise.old }
    {
        match self.start_in(0, v) {
            Some(state) => out.copy_from(state),
            None => match self.parts.common {
                CommonStart::Zero => {
                    self.shape.facts();
                    zero_into(out);
                }
                CommonStart::Noise => {
                    let draw = Draw {
                        shape: &self.shape,
                        v,
                        stream: FIRST_START_STREAM + u64::from(v),
                        turn: 0,
                    };
                    noise.make_state(&draw, out);
                }
            },
        }
    }

    /// Writes what node `u`, faulty in round `t`, tells node `v` in it into `out`. The current
    /// states of `config` are the configuration with which the round begins: a state for each node,
    /// of the shape for which the script was read, and `out` has their depth. `noise` is that of
    /// this script. It takes no memory.
    #[tactic(auto, unfolding(crate::specs::Lies::lie_of))]
    pub fn lie_into(
        &self,
        noise: &mut Noise,
        t: u64,
        u: u32,
        v: u32,
        config: &Packed,
        out: &mut NodeState,
    )
        requires noise { noise.old ≡ self.now.key }
        requires round { t < self.now.rounds }
        requires sender { is_in (faulty_at self.now t) u ≡ true }
        requires shape { config.now.shape ≡ self.now.shape }
        requires size { length config.now.current ≡ self.now.nodes }
        requires depth { length out.old.registers ≡ self.now.shape.depth }
        ensures value { out.new ≡ lie_of self.now t u v config.now.current }
        ensures range { InRange (fields_at self.now.shape u) out.new }
        ensures noise { noise.new ≡ noise.old }
    {
        config.facts();
        let _few = config.nodes();
        match self.lie_for(t, u, v) {
            Some(lie) => match &lie.what {
                What::Noise => {
                    let draw = Draw {
                        shape: &self.shape,
                        v: u,
                        stream: 256 * u64::from(u) + u64::from(v),
                        turn: t,
                    };
                    noise.state_into(&draw, out);
                }
                What::Copy(w) => Source {
                    config,
                    w: *w as u32,
                    v: u,
                }
                .fit_into(out),
                What::State(state) => out.copy_from(state),
                What::Shift(by) => Source { config, w: u, v: u }.shift_into(*by, out),
            },
            None => config.old(u, out),
        }
    }
}
