ghost use Rattle.std.specs.Prelude.{◌≡◌, length};
ghost use Rattle.round_runner.specs.Skipping.{grown};

use adversary_script::shift_into;
use state_codec::Packed;
use sync_types::NodeState;

/// Makes the next states the current ones with each field so much larger. `out` has room for a
/// state.
pub(crate) fn grow(by: u64, out: &mut NodeState, states: &mut Packed)
    requires { length out.old.registers ≡ states.old.shape.depth }
    ensures states { states.new ≡ record states.old {
      next = grown states.old.shape (length states.old.current) by states.old.current;
    } }
    ensures depth { length out.new.registers ≡ length out.old.registers }
{
    states.facts();
    for v in 0..states.nodes() {
        shift_into(states, v, by, v, out);
        states.put(v, out);
    }
}
