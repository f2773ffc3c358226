ghost use Rattle.std.specs.Prelude.{◌≡◌, ◌<◌, ◌≤◌, [], ◌∷◌, false, length, All, IfOk};
ghost use Rattle.sync_types.specs.FaultSets.{is_in};
ghost use Rattle.construction.specs.Plans.{plan_nodes, plan_depth};
ghost use Rattle.plan_numbers.specs.Numbers.{line};
ghost use Rattle.plan_laws.specs.PlanMeaning.{IsWithin, IsInRange};
ghost use Rattle.tower.specs.Told.{AreTold};

use crate::plans;
use counter_core::{Counter, Heard};
use majority_votes::Steps;
use plan_numbers::{Plan, PremiseError};
use state_codec::{Packed, StateShape};
use std::alloc::Global;
use std::marker::Brand;
use std::sync::ledger::{Blank, Ledger};
use std::test::Fail;
use sync_types::{FaultSet, NoMemory, NodeState, Reg};
use tower::{Tower, build};

/// Four nodes, one of which may be faulty, that count by ten.
fn four(alloc: Global) -> Result<Tower, PremiseError>
    ensures { IfOk result (λ tower. tower
        ≡ record { version = 1; base = 2304; levels = line 4 1 10 0 ∷ [] }) }
{
    build(alloc, &plans::four(alloc, 10)?).map_err(|_| PremiseError::NoMemory)
}

/// Three nodes and a spare one, one of which may be faulty, that count by ten.
fn three_and_one(alloc: Global) -> Result<Tower, PremiseError>
    ensures { IfOk result (λ tower. tower
        ≡ record { version = 2; base = 576; levels = line 3 1 10 1 ∷ [] }) }
{
    build(alloc, &plans::three_and_one(alloc)?).map_err(|_| PremiseError::NoMemory)
}

/// Three blocks of these, and a spare node.
fn thirteen(alloc: Global) -> Result<Tower, PremiseError>
    ensures { IfOk result (λ tower. tower
        ≡ record { version = 2; base = 576; levels = line 3 3 10 1 ∷ (line 3 1 960 1 ∷ []) }) }
{
    let mut plan = Plan::base_of(alloc, 2, 576)?;
    plan.push_with(3, 1, 960, 1).map_err(PremiseError::Refused)?;
    plan.push_with(3, 3, 10, 1).map_err(PremiseError::Refused)?;
    build(alloc, &plan).map_err(|_| PremiseError::NoMemory)
}

/// Three blocks of three nodes, in none of which a node may be faulty. In all one may be.
fn nine(alloc: Global) -> Result<Plan, PremiseError>
    ensures { IfOk result (λ plan. plan
        ≡ record { version = 1; base = 384; levels = line 3 1 10 0 ∷ (line 3 0 576 0 ∷ []) }) }
{
    let mut plan = Plan::base(alloc, 384)?;
    plan.push(3, 0, 576).map_err(PremiseError::Refused)?;
    plan.push(3, 1, 10).map_err(PremiseError::Refused)?;
    Ok(plan)
}

/// The step of a node that hears these states. It is written over a state with the number 5.
fn stepped(
    alloc: Global,
    tower: &Tower,
    place: u32,
    heard: &[NodeState],
) -> Result<NodeState, NoMemory>
    requires place { place < plan_nodes tower.now }
    requires heard { length heard.now ≡ plan_nodes tower.now }
    requires range { All (IsInRange tower.now) heard.now }
    requires deep { All (λ s. plan_depth tower.now ≤ length s.registers) heard.now }
    ensures { IfOk result (λ out. length out.registers ≡ plan_depth tower.now) }
{
    let mut work = tower.work(alloc)?;
    let mut out = NodeState::zero(alloc, tower.depth())?;
    out.set_x(5);
    tower.advance(place, &Heard::of(heard), &mut work, &mut out);
    Ok(out)
}

/// A value that is not marked.
fn plain(a: Option<u64>) -> Reg
    ensures { result ≡ record { a = a; d = false } }
{
    Reg { a, d: false }
}

/// Whether a state has this number and this register.
fn is(state: &NodeState, x: u64, register: Reg) -> bool {
    state.depth() == 1 && state.x() == x && state.reg(0) == register
}

/// Whether a state has this number and these registers.
fn has_both(state: &NodeState, x: u64, first: Reg, second: Reg) -> bool {
    state.depth() == 2 && state.x() == x && state.reg(0) == first && state.reg(1) == second
}

/// Whether a tower has so many nodes, faults and levels, this bound, and counts by ten.
fn has_numbers(tower: &Tower, nodes: u32, faults: u32, depth: usize, bound: u64) -> bool {
    tower.nodes() == nodes
        && tower.faults() == faults
        && tower.depth() == depth
        && tower.bound() == bound
        && tower.modulus() == 10
}

/// A state with one register, whose value is below ten and not marked.
fn state(alloc: Global, x: u64, value: Option<u64>) -> Result<NodeState, NoMemory>
    ensures range { IfOk result (λ s. IsWithin 576 (line 3 1 10 1 ∷ []) s) }
    ensures depth { IfOk result (λ s. length s.registers ≡ 1) }
{
    let mut state = NodeState::zero(alloc, 1)?;
    state.set_x(x % 576);
    let a = match value {
        Some(a) => Some(a % 10),
        None => None,
    };
    state.set_reg(0, plain(a));
    Ok(state)
}

#[test]
fn four_nodes_step_together(rt: HostRuntime) -> Result<(), Fail> {
    let tower = four(rt.alloc())?;
    assert!(rt; has_numbers(&tower, 4, 1, 1, 2304));
    let mut states = NodeState::zeros(rt.alloc(), 4, 1)?;
    states[3].set_reg(0, plain(Some(7)));
    assert!(rt; tower.output(3, &states[3]) == 7);
    let out = stepped(rt.alloc(), &tower, 0, &states)?;
    assert!(rt; is(&out, 1, plain(Some(1))));
    let out = stepped(rt.alloc(), &tower, 3, &states)?;
    assert!(rt; is(&out, 1, plain(None)));
    Ok(())
}

/// The number and the values that a node hears, its place, and its new number, value and mark.
type Row = (u64, [Option<u64>; 4], u32, u64, Option<u64>, bool);

/// The node at place 3 is the spare: it has no number, and hears those of the others.
const ROWS: [Row; 7] = [
    (1, [Some(1), Some(1), Some(1), None], 0, 2, Some(2), true),
    (1, [Some(1), Some(1), Some(1), None], 3, 0, Some(2), false),
    (2, [Some(2), Some(2), Some(2), Some(2)], 3, 0, Some(3), true),
    // a spare that lies: nodes 0 and 1 hear different values of it
    (
        0,
        [Some(0), Some(0), Some(5), Some(0)],
        0,
        1,
        Some(1),
        false,
    ),
    (0, [Some(0), Some(0), Some(5), Some(5)], 1, 1, None, false),
    // a node of a block that lies: it says something else to the spare than to node 0
    (
        0,
        [Some(0), Some(5), Some(0), Some(0)],
        0,
        1,
        Some(1),
        false,
    ),
    (0, [Some(0), Some(5), Some(5), Some(0)], 3, 0, None, false),
];

/// Whether the node of a row has its new state.
fn steps_so(alloc: Global, tower: &Tower, row: &Row) -> Result<bool, NoMemory>
    requires { tower.now ≡ record { version = 2; base = 576; levels = line 3 1 10 1 ∷ [] } }
{
    let states = [
        state(alloc, row.0, row.1[0])?,
        state(alloc, row.0, row.1[1])?,
        state(alloc, row.0, row.1[2])?,
        state(alloc, 0, row.1[3])?,
    ];
    let out = stepped(alloc, tower, row.2 % 4, &states)?;
    let register = Reg { a: row.4, d: row.5 };
    Ok(is(&out, row.3, register))
}

#[test]
fn a_spare_votes_for_nothing_and_is_counted(rt: HostRuntime) -> Result<(), Fail> {
    let tower = three_and_one(rt.alloc())?;
    for row in &ROWS {
        assert!(rt;
            steps_so(rt.alloc(), &tower, row)?,
            "number {}, node {}",
            row.0,
            row.2
        );
    }
    Ok(())
}

/// A place of thirteen nodes, the lowest level in which the node there takes part, and its new
/// number and values.
type Spared = (u32, usize, u64, Option<u64>, Option<u64>);

const SPARED: [Spared; 5] = [
    (0, 0, 1, Some(1), Some(1)),
    (3, 1, 0, None, Some(1)),
    (6, 0, 1, Some(1), Some(1)),
    (7, 1, 0, Some(1), Some(1)),
    (12, 2, 0, Some(0), None),
];

#[test]
fn each_level_has_its_own_spares(rt: HostRuntime) -> Result<(), Fail> {
    let tower = thirteen(rt.alloc())?;
    assert!(rt; has_numbers(&tower, 13, 3, 2, 1536));
    let mut states = NodeState::zeros(rt.alloc(), 13, 2)?;
    // the spares of the first block and of the whole have other values than the rest
    states[3].set_reg(0, plain(Some(7)));
    states[12].set_reg(1, plain(Some(5)));
    for row in &SPARED {
        // a place of the thirteen nodes, which the calls ask for
        let place = row.0 % 13;
        assert!(rt; tower.low(place) == row.1, "node {}", row.0);
        let out = stepped(rt.alloc(), &tower, place, &states)?;
        assert!(rt;
            has_both(&out, row.2, plain(row.3), plain(row.4)),
            "node {}",
            row.0
        );
    }
    Ok(())
}

/// Zero states of all nodes of a plan.
fn zero_states(alloc: Global, plan: &Plan) -> Result<Packed, NoMemory>
    ensures size { IfOk result (λ config. length config.current ≡ plan_nodes plan.now) }
    ensures deep { IfOk result (λ config. config.shape.depth ≡ plan_depth plan.now) }
    ensures range { IfOk result (λ config. All (IsInRange plan.now) config.current) }
{
    plan.facts();
    let shape = StateShape::of(alloc, plan)?;
    let config = Packed::new(alloc, shape, plan.nodes())?;
    Ok(config)
}

/// What a liar says: a state that has this value at the lower level, and else zeros.
fn lie(alloc: Global, value: u64) -> Result<NodeState, NoMemory>
    ensures range { IfOk result (λ s. IsWithin 384 (line 3 1 10 0 ∷ (line 3 0 576 0 ∷ [])) s) }
    ensures depth { IfOk result (λ s. length s.registers ≡ 2) }
{
    let mut state = NodeState::zero(alloc, 2)?;
    state.set_reg(0, plain(Some(value % 576)));
    Ok(state)
}

/// The step of a node that hears zero states, but of node 1 this value at the lower level.
fn heard_step(alloc: Global, tower: &Tower, node: u32, value: u64) -> Result<NodeState, NoMemory>
    requires tower { tower.now
        ≡ record { version = 1; base = 384; levels = line 3 1 10 0 ∷ (line 3 0 576 0 ∷ []) } }
    requires node { node < 9 }
    ensures { IfOk result (λ out. length out.registers ≡ 2) }
{
    let lie = lie(alloc, value)?;
    let mut heard = NodeState::zeros(alloc, 9, 2)?;
    heard[1] = lie;
    stepped(alloc, tower, node, &heard)
}

/// A configuration of a counter, in which one node lies, and another node.
#[derive(Clone, Copy, Drop)]
struct Shown<'a> {
    tower: &'a Tower,
    config: &'a Packed,
    liars: &'a FaultSet,
    node: u32,
    ghost size: { length config.now.current ≡ plan_nodes tower.now },
    ghost deep: { plan_depth tower.now ≤ config.now.shape.depth },
    ghost ids: { All (λ id. id < plan_nodes tower.now) liars.now.ids },
    ghost one: { length liars.now.ids ≡ 1 },
    ghost among: { node < plan_nodes tower.now },
    ghost correct: { is_in liars.now.ids node ≡ false },
}

/// The step of a correct node by what all receivers share of a configuration, and the liars that it
/// heeds.
fn shared_step<G: Ledger>(
    alloc: Global,
    blank: Blank,
    shown: &Shown<'_>,
    lies: &[NodeState; 1],
) -> Result<(NodeState, usize, usize), NoMemory>
    requires name { blank.name ≡ G.name }
    requires parts { blank.parts ≡ G.parts }
    requires some { 0 < blank.parts }
    requires range { All (IsInRange shown.now.tower.now) shown.now.config.now.current }
    requires told { AreTold shown.now.tower.now lies.now }
    ensures { IfOk result (λ r. length r.0.registers ≡ plan_depth shown.now.tower.now) }
{
    let (tower, config, node) = (shown.tower, shown.config, shown.node);
    let mut steps = Steps::<G>::new(blank);
    let mut shared = tower.shared(alloc)?;
    tower.gather(config, shown.liars, &mut shared, &mut steps);
    let (from, to) = tower.relevant_liars(node, &shared);
    let mut out = NodeState::zero(alloc, tower.depth())?;
    out.set_x(5);
    tower.advance_shared(node, config, lies, &mut shared, &mut out, &mut steps);
    Ok((out, from, to))
}

/// In each row: what node 1 says at the lower level, another node with its new register there, and
/// the liars that it heeds.
#[test]
fn both_steps_are_one(rt: HostRuntime) -> Result<(), Fail> {
    let plan = nine(rt.alloc())?;
    let tower = build(rt.alloc(), &plan)?;
    let config = zero_states(rt.alloc(), &plan)?;
    let mut liars = FaultSet::new(rt.alloc(), 9)?;
    liars.push(1);
    for (value, node, first, relevant_liars) in [
        (0, 0, Some(1), (0, 1)),
        (5, 0, None, (0, 1)),
        (5, 3, Some(1), (0, 0)),
    ] {
        let out = heard_step(rt.alloc(), &tower, node, value)?;
        assert!(rt; has_both(&out, 1, plain(first), plain(Some(1))));
        let lies = [lie(rt.alloc(), value)?];
        let shown = Shown {
            tower: &tower,
            config: &config,
            liars: &liars,
            node,
        };
        let (out, from, to) = shared_step::<Brand>(rt.alloc(), Blank::new(1), &shown, &lies)?;
        assert!(rt; has_both(&out, 1, plain(first), plain(Some(1))));
        assert!(rt; (from, to) == relevant_liars);
    }
    Ok(())
}
