ghost use Rattle.std.specs.Prelude.{◌≡◌, ◌+◌, ◌<◌, ◌≤◌, ◌++◌, length, slice_set, All};
ghost use Rattle.construction.specs.Steps.{state_of};
ghost use Rattle.counter_core.specs.Overlays.{LayerFits, HasValues, after};
ghost use Rattle.counter_core.specs.Working.{IsWorkFor, IsAsRoomy};
ghost use Rattle.try_counters.specs.Hearing.{AreHeard};
ghost use Rattle.try_counters.specs.Repeats.{repeat_layer, repeat_layer_keeps};

use counter_core::{
    Counter, Heard, NoOverlay, Overlay, Trivial, Work, block_of, clear, group_of, place_in,
};
use std::test::Fail;
use sync_types::{FaultSet, NodeState, Reg};

/// A layer whose register takes the output that its node showed. The node keeps that too.
#[derive(Drop)]
struct Repeat {
    nodes: u32,
    modulus: u64,
    depth: usize,
    shown: Vec<u64>,
    ghost size: { length shown.items ≡ nodes },
}

impl Overlay for Repeat {
    ghost use Rattle.std.proofs.Common.{refl};
    ghost use Rattle.counter_core.specs.Registers.{registers_hear};

    type Kept = u64;

    ghost layer = { λ r. repeat_layer r.nodes r.modulus r.depth };

    ghost kept = { λ r. r.shown.items };

    fn extra(&self) -> usize {
        1
    }

    fn begin(&mut self, _at: u64) {}

    fn relevant_liars(
        &self,
        _node: u32,
        _output: u64,
        _heard: &Heard<'_>,
        _faulty: &FaultSet,
    ) -> (usize, usize) {
        (0, 0)
    }

    fn advance(
        &mut self,
        node: u32,
        output: u64,
        _heard: &Heard<'_>,
        _work: &mut Work,
        out: &mut NodeState,
    ) {
        self.shown[node as usize] = output;
        out.set_reg(
            self.depth,
            Reg {
                a: Some(output),
                d: false,
            },
        );
    }

    ghost keeps_range = { λ r. repeat_layer_keeps r.nodes r.modulus r.depth };

    ghost deaf = { λ r. registers_hear (repeat_layer r.nodes r.modulus r.depth) 0 refl };
}

/// The step of a node of a counter, with that of a layer above it.
fn step_with<C: Counter, O: Overlay>(
    counter: &C,
    layer: &mut O,
    node: u32,
    heard: &Heard<'_>,
    work: &mut Work,
    out: &mut NodeState,
)
    requires over { LayerFits (O.layer layer.old) (C.meaning counter.now) }
    requires node { node < (C.meaning counter.now).nodes }
    requires heard { AreHeard (C.meaning counter.now) (C.in_range counter.now)
        (O.layer layer.old) heard.now }
    requires work { IsWorkFor (C.meaning counter.now).nodes work.old }
    requires out { length out.old.registers
        ≡ (C.meaning counter.now).depth + (O.layer layer.old).extra }
    ensures out { let s = (C.meaning counter.now).next node heard.now in
        let o = (C.meaning counter.now).shows node (state_of heard.now node) in
        out.new ≡ record {
          x = s.x;
          registers = s.registers
              ++ (after (O.layer layer.old) (O.kept layer.old) node o heard.now).registers;
        } }
    ensures kept { let o = (C.meaning counter.now).shows node (state_of heard.now node) in
        O.kept layer.new ≡ slice_set (O.kept layer.old) node
        (after (O.layer layer.old) (O.kept layer.old) node o heard.now).kept }
    ensures work { IsAsRoomy work.old work.new }
{
    counter.tell();
    let output = counter.output(node, heard.state(node));
    counter.advance(node, heard, work, out);
    layer.advance(node, output, heard, work, out);
}

const ZERO: Reg = Reg {
    a: Some(0),
    d: false,
};

const FOUR: Reg = Reg {
    a: Some(4),
    d: false,
};

const SEVEN: Reg = Reg {
    a: Some(7),
    d: true,
};

#[test]
fn one_node_steps_below_layers(rt: HostRuntime) -> Result<(), Fail> {
    let counter = Trivial::new(5);
    let mut work = Work::new(rt.alloc(), 1)?;
    let mut state = NodeState::zero(rt.alloc(), 1)?;
    let mut out = NodeState::zero(rt.alloc(), 1)?;
    let mut repeat = Repeat {
        nodes: 1,
        modulus: 5,
        depth: 0,
        shown: vec![in rt.alloc(); 0; 1]?,
    };
    state.set_x(4);
    let states = [state];
    let heard = Heard::of(&states);
    let mut bare = NodeState::zero(rt.alloc(), 0)?;
    step_with(&counter, &mut NoOverlay, 0, &heard, &mut work, &mut bare);
    assert!(rt; bare.x() == 0);
    step_with(&counter, &mut repeat, 0, &heard, &mut work, &mut out);
    assert!(rt; out.x() == 0 && out.reg(0) == FOUR);
    Ok(())
}

#[test]
fn clearing_ends_at_the_depth(rt: HostRuntime) -> Result<(), Fail> {
    let mut state = NodeState::zero(rt.alloc(), 2)?;
    state.set_x(3);
    state.set_reg(0, SEVEN);
    state.set_reg(1, SEVEN);
    clear(1, &mut state);
    assert!(rt; state.x() == 0 && state.reg(0) == ZERO && state.reg(1) == SEVEN);
    Ok(())
}

#[test]
fn work_keeps_inner_outputs(rt: HostRuntime) -> Result<(), Fail> {
    let mut work = Work::new(rt.alloc(), 3)?;
    assert!(rt; work.inner(2) == 0);
    work.set_inner(1, 7);
    assert!(rt; work.inner(0) == 0 && work.inner(1) == 7);
    Ok(())
}

/// A node, how many nodes a group has, the group that the node is in, and its place there.
const PLACES: [(u32, u32, u32, u32); 4] = [(0, 4, 0, 0), (3, 4, 0, 3), (4, 4, 1, 0), (11, 4, 2, 3)];

#[test]
fn nodes_stand_in_groups_and_blocks(rt: HostRuntime) {
    for row in &PLACES {
        let (v, nodes) = (row.0, row.1.max(1));
        assert!(rt;
            group_of(v, nodes) == row.2 && place_in(v, nodes) == row.3,
            "node {v}"
        );
    }
    assert!(rt; block_of(5, 2) == 2);
}

#[test]
fn a_block_is_heard_alone(rt: HostRuntime) -> Result<(), Fail> {
    let mut states = NodeState::zeros(rt.alloc(), 4, 0)?;
    states[3].set_x(9);
    let block = Heard::of(&states).block(1, 2);
    assert!(rt; block.len() == 2);
    assert!(rt; block.state(0).x() == 0 && block.state(1).x() == 9);
    Ok(())
}
