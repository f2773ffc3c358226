ghost use Rattle.std.specs.Prelude.{◌≡◌, ◌≤◌, length};
ghost use Rattle.construction.specs.Shown.{shown};

use sync_types::NodeState;

/// What a state shows over so many levels: its number if there are none, else the value of the top
/// one's register, 0 if that is infinite.
pub fn shown(levels: usize, state: &NodeState) -> u64
    requires { levels ≤ length state.now.registers }
    ensures { result ≡ shown levels state.now }
{
    match levels {
        0 => state.x(),
        levels => state.reg(levels - 1).a.unwrap_or(0),
    }
}
