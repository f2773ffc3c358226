ghost use Rattle.std.specs.Prelude.{◌≡◌, ◌≤◌, take, map, length, All};
ghost use Rattle.construction.specs.Shown.{shown};
ghost use Rattle.counter_core.specs.Working.{IsWorkFor, IsAsRoomy};

use counter_core::{Heard, Work, shown};

/// Puts what the first `nodes` nodes of a group show over so many levels into the workspace, by
/// place.
pub fn set_outputs(levels: usize, nodes: u32, group: &Heard<'_>, work: &mut Work)
    requires nodes { nodes ≤ length group.now }
    requires deep { All (λ s. levels ≤ length s.registers) group.now }
    requires work { IsWorkFor (length group.now) work.old }
    ensures outputs { take nodes work.new.outputs.items
        ≡ map (shown levels) (take nodes group.now) }
    ensures work { IsAsRoomy work.old work.new }
{
    for place in 0..nodes {
        work.set_inner(place, shown(levels, group.state(place)));
    }
}
