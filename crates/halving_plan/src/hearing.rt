ghost use Rattle.std.specs.Prelude.{◌≡◌, ◌≢◌, ℕ, ◌+◌, ◌-◌, ◌*◌, ◌≤◌, ◌<◌, length, All, nat_le};
ghost use Rattle.std.specs.Prelude.{nat_eq, count_by};
ghost use Rattle.counting.specs.Values.{majority_or_zero};
ghost use Rattle.halving_plan.specs.LevelStates.{shown};
ghost use Rattle.halving_plan.specs.GroupStates.{HasGroup, section};
ghost use Rattle.halving_plan.specs.GroupHearing.{shown_by, outputs_in, level_state_heard};

use crate::Group;
use crate::counts::{count_group, one_if};
use crate::kings::{king_place, obey};
use crate::level_states::LevelState;
use counter_core::Heard;
use majority_votes::Tally;
use sync_types::NodeState;

/// What a state shows in a group.
fn output_in(group: &Group, state: &NodeState) -> u64
    requires { HasGroup group.now state.now }
    ensures { result ≡ shown_by group.now state.now }
{
    group.facts();
    if group.faults() == 0 {
        state.x()
    } else {
        state.reg(group.register()).a.unwrap_or(0)
    }
}

/// A number that leads among those that a half's nodes show.
#[derive(Clone, Copy, Debug)]
struct Leader {
    number: u64,
    lead: u64,
}

/// The only number that more than half of a half's nodes may show, and its lead: each node that
/// shows another number takes one away from that. At least so many nodes show it.
fn candidate(half: &Group, heard: &Heard<'_>) -> Leader
    requires within { half.now.first + half.now.nodes ≤ length heard.now }
    requires deep { All (HasGroup half.now) heard.now }
    ensures others { (z : ℕ) → z ≢ result.number
        → 2 * count_by (λ s. nat_eq z (shown_by half.now s))
        (section half.now.first half.now.nodes heard.now) ≤ half.now.nodes }
    ensures own { result.lead ≤ count_by (λ s. nat_eq result.number (shown_by half.now s))
        (section half.now.first half.now.nodes heard.now) }
    ensures most { result.lead ≤ half.now.nodes }
{
    half.facts();
    let first = half.first();
    let mut number = 0;
    let mut lead: u64 = 0;
    for i in 0..half.nodes() {
        let output = output_in(half, heard.state(first + i));
        if output == number {
            lead += 1;
        } else if lead == 0 {
            number = output;
            lead = 1;
        } else {
            lead -= 1;
        }
    }
    Leader { number, lead }
}

/// How many of a half's nodes show a number.
fn count_showing(half: &Group, number: u64, heard: &Heard<'_>) -> usize
    requires within { half.now.first + half.now.nodes ≤ length heard.now }
    requires deep { All (HasGroup half.now) heard.now }
    ensures value { result ≡ count_by (λ s. nat_eq number (shown_by half.now s))
        (section half.now.first half.now.nodes heard.now) }
    ensures most { result ≤ half.now.nodes }
{
    half.facts();
    let first = half.first();
    let mut count = 0;
    for i in 0..half.nodes() {
        let state = heard.state(first + i);
        count += one_if(number == output_in(half, state));
    }
    count
}

/// What more than half of a half's nodes show, 0 if there is none.
fn majority(half: &Group, heard: &Heard<'_>) -> u64
    requires within { half.now.first + half.now.nodes ≤ length heard.now }
    requires deep { All (HasGroup half.now) heard.now }
    ensures { result ≡ majority_or_zero (outputs_in half.now heard.now) }
{
    half.facts();
    let nodes = half.nodes();
    let found = candidate(half, heard);
    if 2 * found.lead > u64::from(nodes) {
        return found.number;
    }
    if 2 * count_showing(half, found.number, heard) > nodes as usize {
        found.number
    } else {
        0
    }
}

/// What a half shows: what more than half of its nodes do, or 0, modulo what it counts by.
pub fn shown(half: &Group, heard: &Heard<'_>) -> u64
    requires within { half.now.first + half.now.nodes ≤ length heard.now }
    requires deep { All (HasGroup half.now) heard.now }
    ensures { result ≡ shown half.now.modulus (outputs_in half.now heard.now) }
{
    half.facts();
    majority(half, heard) % half.modulus()
}

/// Whether a number is backed that so many nodes of a group saw: so many that no correct node finds
/// another number backed.
fn is_backed(group: &Group, saw: usize) -> bool
    ensures { result ≡ nat_le (group.now.nodes - group.now.faults) saw }
{
    group.facts();
    saw >= (group.nodes() - group.faults()) as usize
}

/// The new level state of a node of a group that has halves, by what it hears.
pub(crate) fn new_level_state(
    group: &Group,
    node: u32,
    heard: &Heard<'_>,
    tally: &mut Tally,
) -> LevelState
    requires halves { 0 < group.now.faults }
    requires within { group.now.first + group.now.nodes ≤ length heard.now }
    requires node { node < length heard.now }
    requires deep { All (HasGroup group.now) heard.now }
    requires room { group.now.nodes ≤ tally.old.capacity }
    ensures level_state { result ≡ level_state_heard group.now node heard.now }
    ensures capacity { tally.new.capacity ≡ tally.old.capacity }
{
    group.facts();
    let own = LevelState::read(heard.state(node), group);
    let counts = count_group(group, &own, heard);
    let backed = is_backed(group, counts.saw);
    let left = shown(&group.left(), heard);
    let right = shown(&group.right(), heard);
    let follows = own.follows_left(backed, group);
    let instruction = own.instruction(follows, right, group);
    let place = king_place(group, follows, instruction);
    let register = obey(
        group,
        instruction,
        place,
        own.register,
        counts.same,
        heard,
        tally,
    );
    LevelState {
        register,
        seen: left,
        trusted: own.trusts(left, backed),
    }
}
