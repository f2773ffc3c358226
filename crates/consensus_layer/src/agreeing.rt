ghost use Rattle.std.specs.Prelude.{◌≡◌, ◌*◌, ◌<◌, ◌≤◌, length, All};
ghost use Rattle.counter_core.specs.Working.{IsWorkFor, IsAsRoomy};
ghost use Rattle.layer_laws.specs.CounterSlots.{slot_length, agreed};
ghost use Rattle.consensus_layer.specs.Agreeing.{agree_step};

use counter_core::{Heard, HeardRegister, Work};
use phase_king::agree_step;
use sync_types::Reg;

/// A register of node `node` after the phase king's instruction of a kind, 0 to 2, under a king,
/// without increment, by what the node hears of all nodes' registers. What the kind does not use is
/// not counted.
///
/// Node and king are below the number of nodes, and `work` is for so many.
fn agree_under(values: &HeardRegister<'_>, node: u32, kind: u64, king: u32, work: &mut Work) -> Reg
    requires kind { kind ≤ 2 }
    requires node { node < length values.now.states }
    requires king { king < length values.now.states }
    requires work { IsWorkFor (length values.now.states) work.old }
    ensures register { result ≡ agreed (length values.now.states) values.now.faults
        values.now.register node kind king values.now.states }
    ensures work { IsAsRoomy work.old work.new }
{
    let own = values.at(node);
    let counted = values.count_for(kind, own, king, &mut work.values);
    agree_step(
        kind,
        own,
        counted.same,
        counted.least,
        counted.king,
        values.nodes(),
        values.faults(),
    )
}

/// The register with index `register` of node `node` after the phase king's instruction of a kind,
/// 0 to 2, under a king, without increment, by the states that the node hears of so many nodes, of
/// which so many may be faulty. The register of `node` itself is that of its place in `heard`.
///
/// Node and king are below the number of nodes, each state has that register, and `work` is for so
/// many nodes or more.
pub fn agree_at(
    heard: &Heard<'_>,
    node: u32,
    register: usize,
    kind: u64,
    king: u32,
    nodes: u32,
    faults: u32,
    work: &mut Work,
) -> Reg
    requires kind { kind ≤ 2 }
    requires node { node < nodes }
    requires king { king < nodes }
    requires faults { faults ≤ nodes }
    requires heard { length heard.now ≡ nodes }
    requires deep { All (λ s. register < length s.registers) heard.now }
    requires work { IsWorkFor nodes work.old }
    ensures register { result ≡ agreed nodes faults register node kind king heard.now }
    ensures work { IsAsRoomy work.old work.new }
{
    let values = HeardRegister::of(heard, register, nodes, faults);
    agree_under(&values, node, kind, king, work)
}

/// What a round gives a register of agreement: the new register, and what was decided if its slot
/// ended.
#[derive(Clone, Copy, Debug, Drop)]
pub struct Agreed {
    /// The new register.
    pub register: Reg,
    /// The decision, None if no slot ended.
    pub decided: Option<u64>,
}

/// How many rounds a slot has: three for each of one king more than there may be faults.
pub fn slot_length(faults: u32) -> u64
    ensures { result ≡ slot_length faults }
{
    3 * (u64::from(faults) + 1)
}

/// The round of a node on a register of agreement, from the output that it showed: the round of a
/// slot that the output tells, and in the last one the decision, and the input of the next slot.
///
/// The node is one of the nodes, of which there are more than three times as many as may be faulty,
/// and `work` is for so many.
pub fn agree(
    values: &HeardRegister<'_>,
    node: u32,
    input: u64,
    output: u64,
    work: &mut Work,
) -> Agreed
    requires quorum { 3 * values.now.faults < length values.now.states }
    requires node { node < length values.now.states }
    requires work { IsWorkFor (length values.now.states) work.old }
    ensures step { let s = agree_step (length values.now.states) values.now.faults
        values.now.register node input output values.now.states in
        (result.register ≡ s.register) × (result.decided ≡ s.decided) }
    ensures work { IsAsRoomy work.old work.new }
{
    let length = slot_length(values.faults());
    let turn = output % length;
    let king = (turn / 3) as u32;
    let result = agree_under(values, node, turn % 3, king, work);
    if turn + 1 == length {
        Agreed {
            register: Reg {
                a: Some(input),
                d: false,
            },
            decided: result.a,
        }
    } else {
        Agreed {
            register: result,
            decided: None,
        }
    }
}
