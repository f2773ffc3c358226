ghost use Rattle.std.specs.Prelude.{◌≡◌, ◌<◌, ◌≤◌, ℕ, length, slice_index};
ghost use Rattle.construction.specs.Steps.{state_of};
ghost use Rattle.adversary_script.specs.Eras.{faulty_of_era};
ghost use Rattle.machine_runner.specs.Hearing.{heard_from};
ghost use Rattle.machine_runner.specs.Rooms.{IsConfiguration};
ghost use Rattle.player.specs.Rooms.{HasLies, AreOwn, TellsItself};

use crate::stepping::NodeStep;
use adversary_script::{Noise, Script};
use state_codec::Packed;
use sync_types::NodeState;

/// Puts the state of each node that is faulty in an era into its place.
pub fn tell_puppets(script: &Script, era: usize, states: &Packed, lies: &mut [NodeState])
    requires era { era ≤ length script.now.eras }
    requires config { IsConfiguration script.now states.now }
    requires room { HasLies script.now lies.old }
    ensures room { HasLies script.now lies.new }
    ensures own { AreOwn script.now (faulty_of_era script.now era) lies.new }
{
    let faulty = script.era_faulty(era);
    let _few = faulty.len();
    states.facts();
    for j in 0..faulty.len() {
        states.old(faulty.at(j), &mut lies[j]);
    }
}

/// The same if another era was told before.
pub fn tell_new_puppets(
    script: &Script,
    before: usize,
    era: usize,
    states: &Packed,
    lies: &mut [NodeState],
)
    requires era { era ≤ length script.now.eras }
    requires config { IsConfiguration script.now states.now }
    requires room { HasLies script.now lies.old }
    requires own { AreOwn script.now (faulty_of_era script.now before) lies.old }
    ensures room { HasLies script.now lies.new }
    ensures own { AreOwn script.now (faulty_of_era script.now era) lies.new }
{
    if era != before {
        tell_puppets(script, era, states, lies);
    }
}

/// If the node is faulty, puts its own state into its place.
fn tell_itself(turn: &NodeStep<'_>, lies: &mut [NodeState])
    requires room { HasLies turn.now.round.now.script.now lies.old }
    requires own { AreOwn turn.now.round.now.script.now turn.now.round.now.faulty.now.ids lies.old }
    ensures room { HasLies turn.now.round.now.script.now lies.new }
    ensures own { AreOwn turn.now.round.now.script.now turn.now.round.now.faulty.now.ids lies.new }
    ensures itself { TellsItself turn.now.round.now.faulty.now.ids turn.now.v
        turn.now.states.now.current lies.new }
{
    let faulty = turn.round.faulty;
    let _few = faulty.len();
    turn.states.facts();
    if faulty.contains(turn.v) {
        for j in 0..faulty.len() {
            if faulty.at(j) == turn.v {
                turn.states.old(turn.v, &mut lies[j]);
            }
        }
    }
}

/// Puts what the faulty nodes of a stretch tell a node into their places, and if it is faulty, its
/// own state into its place.
pub fn tell(turn: &NodeStep<'_>, stretch: (usize, usize), noise: &mut Noise, lies: &mut [NodeState])
    requires noise { noise.old ≡ turn.now.round.now.script.now.key }
    requires stretch { stretch.1 ≤ length turn.now.round.now.faulty.now.ids }
    requires room { HasLies turn.now.round.now.script.now lies.old }
    requires own { AreOwn turn.now.round.now.script.now turn.now.round.now.faulty.now.ids lies.old }
    ensures noise { noise.new ≡ noise.old }
    ensures room { HasLies turn.now.round.now.script.now lies.new }
    ensures own { AreOwn turn.now.round.now.script.now turn.now.round.now.faulty.now.ids lies.new }
    ensures itself { TellsItself turn.now.round.now.faulty.now.ids turn.now.v
        turn.now.states.now.current lies.new }
    ensures told { (j : ℕ) → stretch.0 ≤ j → j < stretch.1 → state_of lies.new j
        ≡ heard_from turn.now.round.now.script.now turn.now.round.now.t turn.now.v
        turn.now.states.now.current (slice_index turn.now.round.now.faulty.now.ids j) }
{
    let round = turn.round;
    let faulty = round.faulty;
    let _few = faulty.len();
    turn.states.facts();
    tell_itself(turn, lies);
    for j in stretch.0..stretch.1 {
        let u = faulty.at(j);
        if u != turn.v {
            round
                .script
                .lie_into(noise, round.t, u, turn.v, turn.states, &mut lies[j]);
        }
    }
}
