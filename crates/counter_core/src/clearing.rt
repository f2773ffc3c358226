ghost use Rattle.std.specs.Prelude.{◌≡◌, ◌≤◌, length};
ghost use Rattle.sync_types.specs.States.{zero_state};
ghost use Rattle.counter_core.specs.Meanings.{written};

use sync_types::{NodeState, Reg};

/// Makes the number and the first `depth` registers of a state zero, and leaves further registers
/// as they are. The state has that many.
pub fn clear(depth: usize, state: &mut NodeState)
    requires { depth ≤ length state.old.registers }
    ensures { state.new ≡ written depth (zero_state depth) state.old }
{
    let zero = Reg {
        a: Some(0),
        d: false,
    };
    state.set_x(0);
    for i in 0..depth {
        state.set_reg(i, zero);
    }
}
