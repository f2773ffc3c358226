ghost use Rattle.std.specs.Prelude.{◌≡◌, ◌+◌, ◌*◌, ◌%◌, ◌≤◌, ◌<◌, ◌^◌, length, All, Option};
ghost use Rattle.std.specs.Prelude.{None, slice_index_or};
ghost use Rattle.counting.specs.Values.{count_of};
ghost use Rattle.construction.specs.PhaseKing.{up, instructed};
ghost use Rattle.counter_core.specs.HeardRegisters.{values_heard};
ghost use Rattle.halving_plan.specs.LevelStates.{king_of};
ghost use Rattle.halving_plan.specs.Groups.{sizes_of};
ghost use Rattle.halving_plan.specs.GroupHearing.{values_in};

use crate::Group;
use counter_core::{Heard, HeardRegister};
use majority_votes::Tally;
use phase_king::king_step;
use sync_types::Reg;

/// The value of the node at a place, None if there is none.
fn king(values: &HeardRegister<'_>, place: u64) -> Option<u64>
    ensures { result ≡ slice_index_or (values_heard values.now) place None }
{
    if place < u64::from(values.nodes()) {
        values.at(place as u32).a
    } else {
        None
    }
}

/// The place of the king whose instruction this is, in a group that has halves.
pub(crate) fn king_place(group: &Group, left: bool, instruction: u64) -> u64
    requires { 0 < group.now.faults }
    ensures { result ≡ king_of (sizes_of group.now) left instruction }
{
    let place = instruction / 3;
    if left {
        place
    } else {
        u64::from(group.left().nodes()) + place
    }
}

/// The register of a node of a group, after its instruction under the king at a place. `same` says
/// how many nodes have the value that it had before.
pub(crate) fn obey(
    group: &Group,
    instruction: u64,
    place: u64,
    own: Reg,
    same: usize,
    heard: &Heard<'_>,
    tally: &mut Tally,
) -> Reg
    requires within { group.now.first + group.now.nodes ≤ length heard.now }
    requires deep { All (λ s. group.now.register + 1 ≤ length s.registers) heard.now }
    requires same { same ≡ count_of (values_in group.now heard.now) own.a }
    requires room { group.now.nodes ≤ tally.old.capacity }
    ensures register { result ≡ instructed group.now.nodes group.now.faults (up group.now.modulus)
        (instruction % 3) own (values_in group.now heard.now) place }
    ensures capacity { tally.new.capacity ≡ tally.old.capacity }
{
    group.facts();
    let (nodes, faults, modulus) = (group.nodes(), group.faults(), group.modulus());
    let stretch = heard.stretch(group.first(), nodes);
    let values = HeardRegister::of(&stretch, group.register(), nodes, faults);
    match instruction % 3 {
        0 => king_step(0, own, same, None, None, nodes, faults, modulus),
        1 => {
            let least = values.least(own.a, same, tally);
            king_step(1, own, same, least, None, nodes, faults, modulus)
        }
        _ => {
            let king = king(&values, place);
            king_step(2, own, 0, None, king, nodes, faults, modulus)
        }
    }
}
