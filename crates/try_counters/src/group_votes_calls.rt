ghost use Rattle.std.specs.Prelude.{◌≡◌, ◌<◌, [], ◌∷◌, length, true, false, IfOk, IfSome};
ghost use Rattle.sync_types.specs.States.{register_at};
ghost use Rattle.shared_board.specs.GroupVotes.{AreNumbers, AreBelow, AreLies};

use majority_votes::Steps;
use plan_numbers::LevelNums;
use shared_board::{Group, Senders};
use std::alloc::Global;
use std::marker::Brand;
use std::sync::ledger::{Blank, Ledger};
use std::test::Fail;
use sync_types::{NoMemory, NodeState, Reg};

/// Four nodes, one of which may be faulty, that count by ten.
fn four() -> LevelNums
    ensures numbers { AreNumbers result }
    ensures nodes { result.nodes ≡ 4 }
    ensures modulus { result.modulus ≡ 10 }
    ensures blocks { result.blocks ≡ 4 }
{
    LevelNums {
        blocks: 4,
        leaders: 2,
        nodes: 4,
        faults: 1,
        beat: 9,
        span: 2304,
        modulus: 10,
        spares: 0,
        bound: 2304,
        bits: 17,
    }
}

/// A register of a value, which is taken below ten, and a mark.
fn register(value: (Option<u64>, bool)) -> Reg
    ensures { IfSome result.a (λ a. a < 10) }
{
    Reg {
        a: match value.0 {
            Some(a) => Some(a % 10),
            None => None,
        },
        d: value.1,
    }
}

/// The registers of four nodes.
fn registers(values: [(Option<u64>, bool); 4]) -> [Reg; 4]
    ensures { AreBelow 10 result }
{
    [
        register(values[0]),
        register(values[1]),
        register(values[2]),
        register(values[3]),
    ]
}

/// A state with one register, that of a value below ten.
fn lie(alloc: Global, x: u64, a: Option<u64>) -> Result<NodeState, NoMemory>
    ensures depth { IfOk result (λ s. length s.registers ≡ 1) }
    ensures below { IfOk result (λ s. IfSome (register_at 0 s).a (λ a. a < 10)) }
{
    let mut state = NodeState::zero(alloc, 1)?;
    state.set_x(x);
    state.set_reg(0, register((a, false)));
    Ok(state)
}

const LIARS: [bool; 4] = [true, false, false, false];

const BEFORE: [u32; 5] = [0, 1, 1, 1, 1];

/// Nodes, the first of which lies.
fn with_a_liar<'a>(outputs: &'a [u64], registers: &'a [Reg]) -> Senders<'a>
    requires outputs { length outputs.now ≡ 4 }
    requires registers { length registers.now ≡ 4 }
    ensures { result ≡ record {
      height = 0;
      outputs = outputs.now;
      registers = registers.now;
      liars = true ∷ false ∷ false ∷ false ∷ [];
    } }
{
    Senders::new(0, outputs, registers, &LIARS, &BEFORE)
}

/// The register that all nodes get if one is known, whether a node is open, and its new register:
/// of four nodes that show a number, the first of which lies, by what it says.
fn heard<G: Ledger>(
    alloc: Global,
    blank: Blank,
    x: u64,
    registers: &[Reg; 4],
    lies: &[NodeState; 1],
    node: usize,
) -> Result<(Option<Reg>, bool, Reg), NoMemory>
    requires name { blank.name ≡ G.name }
    requires parts { blank.parts ≡ G.parts }
    requires some { 0 < blank.parts }
    requires node { node < 4 }
    requires below { AreBelow 10 registers.now }
    requires lies { AreLies 0 10 lies.now }
{
    let mut group = Group::new(alloc, &four(), 0)?;
    let mut steps = Steps::<G>::new(blank);
    let outputs = [x; 4];
    let senders = with_a_liar(&outputs, registers);
    group.gather(&senders, &mut steps);
    let open = group.is_open(&senders, node);
    let register = group.register(&senders, node, lies, &mut steps);
    Ok((group.common_register(), open, register))
}

/// The same, if the liar says a number and a value.
fn told_one(
    alloc: Global,
    x: u64,
    values: [Value; 4],
    told: u64,
    value: Option<u64>,
    node: usize,
) -> Result<(Option<Reg>, bool, Reg), NoMemory>
    requires { node < 4 }
{
    let registers = registers(values);
    let lies = [lie(alloc, told, value)?];
    let found = heard::<Brand>(alloc, Blank::new(1), x, &registers, &lies, node)?;
    Ok(found)
}

/// A value and a mark.
type Value = (Option<u64>, bool);

const INFINITE: Value = (None, false);

const SPLIT: [Value; 4] = [
    (Some(4), false),
    (Some(1), false),
    (Some(1), false),
    (Some(2), false),
];

const SAME: [Value; 4] = [
    (Some(4), false),
    (Some(1), false),
    (Some(1), false),
    (Some(1), false),
];

const OTHER: [Value; 4] = [
    (Some(4), false),
    (Some(0), false),
    (Some(1), false),
    (Some(1), false),
];

const LOCKED: [Value; 4] = [INFINITE, (Some(9), true), (Some(9), true), (Some(9), true)];

const PARTLY: [Value; 4] = [
    (Some(4), false),
    (Some(1), true),
    INFINITE,
    (Some(2), false),
];

/// The number that all nodes show, their values and marks, the number and the value that node 0
/// says, a node that hears it, whether its new register may depend on that, and this.
type Row = (u64, [Value; 4], u64, Option<u64>, usize, bool, Value);

const ROWS: [Row; 22] = [
    // from 765 on all point to node 1: kind 0, whether three have the own value
    (765, SPLIT, 0, Some(1), 1, true, (Some(2), false)),
    (765, SPLIT, 0, Some(5), 1, true, INFINITE),
    (765, SPLIT, 0, Some(2), 3, false, INFINITE),
    (765, SAME, 0, Some(5), 1, false, (Some(2), false)),
    (765, PARTLY, 0, None, 2, false, INFINITE),
    // kind 1: whether three have it, and the least value that two have
    (766, SPLIT, 0, Some(1), 1, true, (Some(2), true)),
    (766, SPLIT, 0, Some(2), 1, true, (Some(2), false)),
    (766, OTHER, 0, Some(0), 1, true, (Some(1), false)),
    (766, OTHER, 0, Some(5), 1, true, (Some(2), false)),
    (766, SAME, 0, Some(0), 1, false, (Some(2), true)),
    // kind 2: the value of the king, the liar or, three rounds later, node 1
    (767, SPLIT, 0, Some(5), 1, true, (Some(6), true)),
    (767, SPLIT, 0, None, 3, true, (Some(1), true)),
    (767, PARTLY, 0, Some(5), 1, false, (Some(2), true)),
    (767, SPLIT, 0, Some(4), 0, false, (Some(5), true)),
    (770, SPLIT, 0, Some(5), 3, false, (Some(2), true)),
    // all point to the liar: it says the beat
    (0, SPLIT, 0, Some(5), 1, true, INFINITE),
    (0, SPLIT, 1, Some(1), 1, true, (Some(2), true)),
    (0, SPLIT, 2, Some(5), 1, true, (Some(6), true)),
    // two of the correct nodes point to node 1, and one to the liar: it decides who leads
    (189, SPLIT, 10, Some(1), 1, true, (Some(2), false)),
    (189, SPLIT, 1, Some(1), 1, true, (Some(2), true)),
    // the registers of the correct nodes are locked
    (765, LOCKED, 1, Some(5), 1, false, (Some(0), true)),
    (1, LOCKED, 1, None, 0, true, (Some(0), false)),
];

/// Whether a row's node is open and gets its new register, and no register is common.
fn is_decided(alloc: Global, row: &Row) -> Result<bool, NoMemory> {
    let (common, open, found) = told_one(alloc, row.0, row.1, row.2, row.3, row.4 % 4)?;
    Ok(common.is_none() && open == row.5 && found.a == row.6.0 && found.d == row.6.1)
}

#[test]
fn a_liar_decides_what_is_open(rt: HostRuntime) -> Result<(), Fail> {
    for (i, row) in ROWS.iter().enumerate() {
        assert!(rt; is_decided(rt.alloc(), row)?, "row {i}");
    }
    Ok(())
}

/// If the liar's register is locked too, all is known.
#[test]
fn a_settled_group_has_one_register(rt: HostRuntime) -> Result<(), Fail> {
    let (common, is_open, found) = told_one(rt.alloc(), 7, [(Some(3), true); 4], 5, Some(5), 2)?;
    assert!(rt; common == Some(found) && !is_open);
    assert!(rt; found.a == Some(4) && found.d);
    Ok(())
}
