ghost use Rattle.std.specs.Prelude.{◌≡◌, ◌+◌, ◌-◌, ◌*◌, ◌%◌, ◌<◌, ◌≤◌, ◌⊎◌, ℕ, List, None, false};
ghost use Rattle.std.specs.Prelude.{length};
ghost use Rattle.sync_types.specs.States.{State};
ghost use Rattle.construction.specs.PhaseKing.{locked_at};
ghost use Rattle.construction.specs.Steps.{state_of};
ghost use Rattle.counter_core.specs.Heeding.{DependsOnlyOn};
ghost use Rattle.layer_laws.specs.CounterSlots.{agreed, agreed_in_turn, slot_length};
ghost use Rattle.consensus_layer.specs.Heeding.{has_truly, true_count};

use crate::agreeing::slot_length;
use counter_core::HeardRegister;
use sync_types::{FaultSet, Reg};

/// Whether the node at a place is correct and has this value.
fn has_truly(values: &HeardRegister<'_>, value: Option<u64>, faulty: &FaultSet, place: u32) -> bool
    requires { place < length values.now.states }
    ensures { result ≡ has_truly faulty.now.ids values.now value place }
{
    !faulty.contains(place) && value == values.at(place).a
}

/// How many correct nodes have this value; `None` is infinity.
fn count_correct(values: &HeardRegister<'_>, value: Option<u64>, faulty: &FaultSet) -> usize
    ensures { result ≡ true_count faulty.now.ids values.now value }
{
    let mut count = 0;
    for place in 0..values.nodes() {
        if has_truly(values, value, faulty, place) {
            count += 1;
        }
    }
    count
}

/// Whether what liars tell may change a register by the instruction of kind 0 or 1: not if all but
/// the faults have its value and are correct; and by that of kind 0 neither if it is infinite, nor
/// if too few have its value even with all liars.
fn is_count_open(values: &HeardRegister<'_>, kind: u64, own: Option<u64>, faulty: &FaultSet) -> bool
    ensures { let need = length values.now.states - values.now.faults in
        let same = true_count faulty.now.ids values.now own in
        result ≡ false → (need ≤ same) ⊎ ((kind ≡ 0) × ((own ≡ None)
        ⊎ (same + length faulty.now.ids < need))) }
{
    if kind == 0 && own.is_none() {
        return false;
    }
    let need = (values.nodes() - values.faults()) as usize;
    let same = count_correct(values, own, faulty);
    if same >= need {
        return false;
    }
    kind != 0 || need - same <= faulty.len()
}

/// The liar that a node is, as a stretch of the faulty set; an empty one if it is correct.
pub fn liar_at(faulty: &FaultSet, node: u32) -> (usize, usize)
    ensures within { result.1 ≤ length faulty.now.ids }
    ensures enough { (v : ℕ) (config : List State) → node < length config
        → DependsOnlyOn (λ heard. state_of heard node) faulty.now.ids v config result.0 result.1 }
{
    if faulty.contains(node) {
        for j in 0..faulty.len() {
            if faulty.at(j) == node {
                return (j, j + 1);
            }
        }
    }
    (0, 0)
}

/// Whether a node takes the value of its king by the instruction of kind 2, and that is another
/// node: not if its own value is finite and marked.
fn takes_other(own: Reg, king: u32, node: u32) -> bool
    ensures { result ≡ false → ((z : ℕ) × (own ≡ locked_at z)) ⊎ (king ≡ node) }
{
    if own.d && own.a.is_some() {
        return false;
    }
    king != node
}

/// The liars, as a stretch of the faulty set, on whose lies the register depends that
/// [`agree_at`](crate::agree_at) gives a node: what the others tell may be anything.
///
/// Node and king are below the number of nodes, of which there are more than three times as many as
/// may be faulty.
pub fn heeded_at(
    values: &HeardRegister<'_>,
    node: u32,
    kind: u64,
    king: u32,
    faulty: &FaultSet,
) -> (usize, usize)
    requires quorum { 3 * values.now.faults < length values.now.states }
    requires kind { kind ≤ 2 }
    requires node { node < length values.now.states }
    requires king { king < length values.now.states }
    ensures within { result.1 ≤ length faulty.now.ids }
    ensures enough { DependsOnlyOn (agreed (length values.now.states) values.now.faults
        values.now.register node kind king)
        faulty.now.ids node values.now.states result.0 result.1 }
{
    let own = values.at(node);
    if kind == 2 {
        return if takes_other(own, king, node) {
            liar_at(faulty, king)
        } else {
            (0, 0)
        };
    }
    if is_count_open(values, kind, own.a, faulty) {
        (0, faulty.len())
    } else {
        (0, 0)
    }
}

/// The liars on whose lies the round of [`agree`](crate::agree) depends, as [`heeded_at`] has them.
pub fn relevant_liars(
    values: &HeardRegister<'_>,
    node: u32,
    output: u64,
    faulty: &FaultSet,
) -> (usize, usize)
    requires quorum { 3 * values.now.faults < length values.now.states }
    requires node { node < length values.now.states }
    ensures within { result.1 ≤ length faulty.now.ids }
    ensures enough { DependsOnlyOn (agreed_in_turn (length values.now.states) values.now.faults
        values.now.register node (output % slot_length values.now.faults))
        faulty.now.ids node values.now.states result.0 result.1 }
{
    let turn = output % slot_length(values.faults());
    heeded_at(values, node, turn % 3, (turn / 3) as u32, faulty)
}
