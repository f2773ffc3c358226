use crate::plans::{four, one, three_and_one};
use plan_numbers::{Plan, PremiseError};
use state_codec::{NotState, Packed, StateShape};
use std::alloc::Global;
use std::test::Fail;
use sync_types::{NodeState, Reg};

const ZERO: Reg = Reg {
    a: Some(0),
    d: false,
};

const INFINITE: Reg = Reg { a: None, d: false };

const SEVEN: Reg = Reg {
    a: Some(7),
    d: false,
};

const MARKED: Reg = Reg {
    a: Some(7),
    d: true,
};

/// Whether a state with one register has this number and this register.
fn is(state: &NodeState, x: u64, register: Reg) -> bool {
    state.depth() == 1 && state.x() == x && state.reg(0) == register
}

/// A node, digits, the number and the register of the state that they say, and the digits that are
/// written of it.
type Digits = (u32, &'static str, u64, Reg, &'static str);

/// Of four nodes.
const DIGITS: [Digits; 5] = [
    (0, "000780", 0, MARKED, "000780"),
    (1, "000a00", 0, INFINITE, "000a00"),
    (2, "000f00", 0, INFINITE, "000a00"),
    (3, "8ff7ff", 2303, MARKED, "8ff780"),
    (0, "900000", 0, ZERO, "000000"),
];

/// Of three nodes and a spare one.
const SPARED_DIGITS: [Digits; 4] = [
    (0, "015e", 5, MARKED, "015e"),
    (3, "70", 0, SEVEN, "70"),
    (3, "7f", 0, MARKED, "78"),
    (3, "b0", 0, INFINITE, "a0"),
];

/// Whether the digits of a row are read and written so.
fn is_coded(alloc: Global, shape: &StateShape, row: &Digits) -> Result<bool, Fail> {
    let v = row.0;
    if v >= shape.nodes() {
        return Ok(false);
    }
    let mut state = NodeState::zero(alloc, shape.depth())?;
    shape.read_hex(v, row.1.as_bytes(), &mut state)?;
    let size = shape.bytes_of(v);
    if size > 3 || !is(&state, row.2, row.3) {
        return Ok(false);
    }
    let mut buffer = [0; 6];
    let digits = &mut buffer[..2 * size];
    shape.write_hex(v, &state, digits);
    Ok(&*digits == row.4.as_bytes())
}

#[test]
fn digits_are_read_and_written(rt: HostRuntime) -> Result<(), Fail> {
    let shape = StateShape::of(rt.alloc(), &four(rt.alloc(), 10)?)?;
    for row in &DIGITS {
        assert!(rt; is_coded(rt.alloc(), &shape, row)?, "at {}", row.1);
    }
    Ok(())
}

#[test]
fn digits_of_a_spare_node_are_fewer(rt: HostRuntime) -> Result<(), Fail> {
    let shape = StateShape::of(rt.alloc(), &three_and_one(rt.alloc())?)?;
    for row in &SPARED_DIGITS {
        assert!(rt; is_coded(rt.alloc(), &shape, row)?, "at {}", row.1);
    }
    Ok(())
}

/// Texts that are no states of the first of four nodes.
const NO_DIGITS: [&str; 6] = ["", "0007", "00078", "00078000", "000A00", "00070g"];

/// Whether a text is no state of a node.
fn is_none(alloc: Global, shape: &StateShape, v: u32, text: &str) -> Result<bool, Fail> {
    if v >= shape.nodes() {
        return Ok(false);
    }
    let mut state = NodeState::zero(alloc, shape.depth())?;
    Ok(shape.read_hex(v, text.as_bytes(), &mut state) == Err(NotState))
}

#[test]
fn other_texts_are_no_states(rt: HostRuntime) -> Result<(), Fail> {
    let shape = StateShape::of(rt.alloc(), &four(rt.alloc(), 10)?)?;
    for text in &NO_DIGITS {
        assert!(rt; is_none(rt.alloc(), &shape, 0, text)?, "at {text}");
    }
    let spared = StateShape::of(rt.alloc(), &three_and_one(rt.alloc())?)?;
    assert!(rt; is_none(rt.alloc(), &spared, 0, "70")?);
    assert!(rt; is_none(rt.alloc(), &spared, 3, "015e")?);
    Ok(())
}

/// A node, bytes, and the number and the register of the state that they are read as.
type Bytes = (u32, &'static [u8], u64, Reg);

/// Of four nodes.
const BYTES: [Bytes; 3] = [
    (0, b"\x8f\xf7\x80", 2303, MARKED),
    (0, b"\x8f\xf7", 0, ZERO),
    (0, b"\x8f\xf7\x80\x00", 0, ZERO),
];

/// Of three nodes and a spare one.
const SPARED_BYTES: [Bytes; 3] = [
    (3, b"\x78", 0, MARKED),
    (3, b"\x01\x5e", 0, ZERO),
    (0, b"\x78", 0, ZERO),
];

/// Whether the bytes of a row are read so.
fn is_read(alloc: Global, shape: &StateShape, row: &Bytes) -> Result<bool, Fail> {
    if row.0 >= shape.nodes() {
        return Ok(false);
    }
    let mut state = NodeState::zero(alloc, shape.depth())?;
    shape.read_state(row.0, row.1, &mut state);
    Ok(is(&state, row.2, row.3))
}

#[test]
fn other_lengths_are_the_zero_state(rt: HostRuntime) -> Result<(), Fail> {
    let shape = StateShape::of(rt.alloc(), &four(rt.alloc(), 10)?)?;
    for row in &BYTES {
        assert!(rt; is_read(rt.alloc(), &shape, row)?, "{} bytes", row.1.len());
    }
    let spared = StateShape::of(rt.alloc(), &three_and_one(rt.alloc())?)?;
    for row in &SPARED_BYTES {
        assert!(rt; is_read(rt.alloc(), &spared, row)?, "{} bytes", row.1.len());
    }
    Ok(())
}

/// A node, bytes of a state with further registers, how many registers it has, its bits, and the
/// last register.
type Further = (u32, &'static [u8], usize, u32, Reg);

const ONE_MORE: [Further; 2] = [
    (0, b"\x00\x00\x78", 2, 21, MARKED),
    (3, b"\x01\xe0", 2, 11, MARKED),
];

const TWO_MORE: [Further; 2] = [
    (0, b"\x00\x00\x01\xc0", 3, 27, SEVEN),
    (3, b"\x00\x07\x80", 3, 17, MARKED),
];

/// Whether the bytes of a row are read so.
fn has_last(alloc: Global, shape: &StateShape, row: &Further) -> Result<bool, Fail> {
    let (v, depth) = (row.0, row.2);
    if v >= shape.nodes() {
        return Ok(false);
    }
    let mut state = NodeState::zero(alloc, shape.depth())?;
    shape.read_state(v, row.1, &mut state);
    let holds = state.depth() == depth
        && depth > 0
        && state.reg(depth - 1) == row.4
        && shape.bits_of(v) == row.3;
    Ok(holds)
}

#[test]
fn further_registers_stand_behind(rt: HostRuntime) -> Result<(), Fail> {
    let plan = three_and_one(rt.alloc())?;
    let one = StateShape::with_register(rt.alloc(), &plan, 16)?;
    for row in &ONE_MORE {
        assert!(rt; has_last(rt.alloc(), &one, row)?, "node {}", row.0);
    }
    let two = StateShape::with_registers(rt.alloc(), &plan, 16, 2)?;
    for row in &TWO_MORE {
        assert!(rt; has_last(rt.alloc(), &two, row)?, "node {}", row.0);
    }
    assert!(rt; two.nodes() == 4 && two.depth() == 3 && two.modulus_of(0, 2) == 16);
    assert!(rt; two.nodes() == 4 && two.bits_of(0) == 27 && two.bytes_of(0) == 4);
    assert!(rt; two.depth() == 3 && two.bits() == 27 && two.bytes() == 4 && two.modulus(2) == 16);
    Ok(())
}

#[test]
fn node_0_has_all_fields(rt: HostRuntime) -> Result<(), Fail> {
    let plan = three_and_one(rt.alloc())?;
    let shape = StateShape::of(rt.alloc(), &plan)?;
    assert!(rt; shape.depth() == 1 && shape.modulus(0) == 10);
    assert!(rt; shape.bits() == 15 && plan.bits() == 15);
    assert!(rt; shape.bytes() == 2 && plan.bytes() == 2);
    Ok(())
}

#[test]
fn one_node_has_a_number_alone(rt: HostRuntime) -> Result<(), Fail> {
    let shape = StateShape::of(rt.alloc(), &one(rt.alloc())?)?;
    let mut state = NodeState::zero(rt.alloc(), shape.depth())?;
    shape.read_state(0, b"\x80", &mut state);
    assert!(rt; state.x() == 4 && state.depth() == 0);
    assert!(rt; shape.base_of(0) == 5 && shape.bits_of(0) == 3 && shape.bytes_of(0) == 1);
    assert!(rt; shape.bits() == 3 && shape.bytes() == 1);
    Ok(())
}

/// Puts the state of these bytes as the next one of a node. Whether the current one stays zero.
fn puts(alloc: Global, packed: &mut Packed, v: u32, bytes: &[u8]) -> Result<bool, Fail> {
    packed.facts();
    if v >= packed.nodes() {
        return Ok(false);
    }
    let mut state = NodeState::zero(alloc, packed.shape().depth())?;
    packed.shape().read_state(v, bytes, &mut state);
    packed.put(v, &state);
    Ok(v < packed.nodes() && packed.x(v) == 0)
}

/// Whether the current state of a node is held as these bytes.
fn has_bytes(packed: &Packed, v: u32, bytes: &[u8]) -> bool {
    v < packed.nodes() && packed.bytes(v) == bytes
}

/// Whether the current state of a node is that of a row.
fn holds(alloc: Global, packed: &Packed, row: &Bytes) -> Result<bool, Fail> {
    let v = row.0;
    if v >= packed.nodes() || packed.shape().depth() != 1 {
        return Ok(false);
    }
    let mut state = NodeState::zero(alloc, packed.shape().depth())?;
    packed.old(v, &mut state);
    let same = has_bytes(packed, v, row.1) && packed.x(v) == row.2 && packed.reg(v, 0) == row.3;
    Ok(same && is(&state, row.2, row.3))
}

const PACKED: [Bytes; 3] = [
    (0, b"\x01\x5e", 5, MARKED),
    (2, b"\x00\x00", 0, ZERO),
    (3, b"\x70", 0, SEVEN),
];

#[test]
fn packed_states_stand_in_their_places(rt: HostRuntime) -> Result<(), Fail> {
    let shape = StateShape::of(rt.alloc(), &three_and_one(rt.alloc())?)?;
    assert!(rt; shape.nodes() == 4);
    let mut packed = Packed::new(rt.alloc(), shape, 4)?;
    assert!(rt; puts(rt.alloc(), &mut packed, 0, b"\x01\x5e")?);
    assert!(rt; puts(rt.alloc(), &mut packed, 3, b"\x70")?);
    packed.flip();
    for row in &PACKED {
        assert!(rt; holds(rt.alloc(), &packed, row)?, "node {}", row.0);
    }
    Ok(())
}

/// Twenty-eight nodes that count by so many, whose states have 39 bits before the last register.
fn with_long_states(alloc: Global, count: u64) -> Result<Plan, PremiseError> {
    let mut plan = Plan::base(alloc, 2304)?;
    plan.push(4, 1, 56_623_104).map_err(PremiseError::Refused)?;
    plan.push(7, 7, count).map_err(PremiseError::Refused)?;
    Ok(plan)
}

/// What they count by, the bits of a state, the bytes of the zero state and of another one, and the
/// last register of that.
type Long = (u64, u32, &'static [u8], &'static [u8], Reg);

const LONG: [Long; 3] = [
    (65_535, 56, &[0; 7], b"\x00\x50\x00\x00\x1e\x00\x0f", MARKED),
    (
        65_536,
        57,
        &[0; 8],
        b"\x00\x50\x00\x00\x1e\x00\x07\x80",
        MARKED,
    ),
    (
        123_000_000_000,
        77,
        &[0; 10],
        b"\x00\x50\x00\x00\x1e\x00\x00\x00\x00\x70",
        SEVEN,
    ),
];

/// Zero states, of which that of node 1 is put as the bytes of a row say.
fn with_one(alloc: Global, row: &Long) -> Result<Packed, Fail> {
    let shape = StateShape::of(alloc, &with_long_states(alloc, row.0)?)?;
    if shape.nodes() != 28 || shape.bits_of(0) != row.1 {
        return Err(Fail::new("another shape"));
    }
    let mut packed = Packed::new(alloc, shape, 28)?;
    if !puts(alloc, &mut packed, 1, row.3)? {
        return Err(Fail::new("another node"));
    }
    packed.flip();
    Ok(packed)
}

/// Whether they stand between zero states.
fn stand(packed: &Packed, row: &Long) -> bool {
    packed.nodes() == 28
        && packed.shape().depth() == 2
        && has_bytes(packed, 0, row.2)
        && has_bytes(packed, 1, row.3)
        && has_bytes(packed, 2, row.2)
        && packed.x(1) == 5
        && packed.reg(1, 0) == MARKED
        && packed.reg(1, 1) == row.4
}

#[test]
fn long_states_stand_in_their_places(rt: HostRuntime) -> Result<(), Fail> {
    for row in &LONG {
        assert!(rt; stand(&with_one(rt.alloc(), row)?, row), "{} bits", row.1);
    }
    Ok(())
}

#[test]
fn errors_have_texts(rt: HostRuntime) -> Result<(), Fail> {
    let text = format!(in rt.alloc(); "{NotState}")?;
    assert!(rt; text.as_str() == "not the hex digits of a state");
    Ok(())
}
