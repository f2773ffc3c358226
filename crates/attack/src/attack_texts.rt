//! The script of an attack.
//!
//! Each of the calls that have `out` puts a text after what stands there. `NoMemory` comes if
//! memory was refused.

ghost use Rattle.std.specs.Prelude.{◌≡◌, ◌<◌, ◌≤◌, ◌++◌, ◌%◌, length, IfOk, OnOk};
ghost use Rattle.std.specs.List.{flat_map};
ghost use Rattle.hex.specs.Hex.{encode_lower};
ghost use Rattle.attack.specs.Draws.{drawn};
ghost use Rattle.attack.specs.AttackTexts.{spaced, key_text, faulty_text, seed_text};
ghost use Rattle.attack.specs.AttackTexts.{drawn_bytes, drawn_digits, node_digits, start_text};
ghost use Rattle.attack.specs.AttackTexts.{say_text, hearers_text, lie_front, lie_text};
ghost use Rattle.attack.specs.AttackTexts.{rounds_text, attack_text};

use crate::candidates::{Attack, LieLine, Say, StartLine};
use crate::draws::Lot;
use itoa::Buffer;
use machines::Machine;
use std::alloc::Global;
use sync_types::{NoMemory, NodeState};

/// How many bytes a state has at most.
const MOST_BYTES: usize = 128;

fn push_text(text: &[u8], out: &mut Vec<u8>) -> Result<(), NoMemory>
    ensures { OnOk result (out.new.items ≡ out.old.items ++ text.now) }
{
    out.extend_from_slice(text)?;
    Ok(())
}

/// Puts a number, with a space before it.
#[tactic(auto, unfolding(crate::specs::AttackTexts::spaced))]
fn push_spaced(value: u64, out: &mut Vec<u8>) -> Result<(), NoMemory>
    ensures { OnOk result (out.new.items ≡ out.old.items ++ spaced value) }
{
    push_text(b" ", out)?;
    let mut buffer = Buffer::new();
    push_text(buffer.format(value).as_bytes(), out)
}

/// Puts the hex digits of at most 128 bytes.
fn push_hex(bytes: &[u8], out: &mut Vec<u8>) -> Result<(), NoMemory>
    requires { length bytes.now ≤ 128 }
    ensures { OnOk result (out.new.items ≡ out.old.items ++ encode_lower bytes.now) }
{
    let mut buffer = [0; 2 * MOST_BYTES];
    let digits = &mut buffer[..2 * bytes.len()];
    let _fits = hex::encode_to_slice(bytes, &mut *digits);
    push_text(digits, out)
}

/// Puts the ids of nodes, each with a space before it.
fn push_ids(ids: &[u32], out: &mut Vec<u8>) -> Result<(), NoMemory>
    ensures { OnOk result (out.new.items ≡ out.old.items ++ flat_map spaced ids.now) }
{
    for id in ids {
        push_spaced(u64::from(*id), out)?;
    }
    Ok(())
}

fn push_key(key: u64, out: &mut Vec<u8>) -> Result<(), NoMemory>
    ensures { OnOk result (out.new.items ≡ out.old.items ++ key_text key) }
{
    push_hex(&key.to_be_bytes(), out)?;
    push_text(b"000000000000000000000000000000000000000000000000", out)
}

fn push_faulty(faulty: &[u32], out: &mut Vec<u8>) -> Result<(), NoMemory>
    ensures { OnOk result (out.new.items ≡ out.old.items ++ faulty_text faulty.now) }
{
    push_text(b"script 1\nfaulty", out)?;
    push_ids(faulty, out)
}

fn push_seed(key: u64, out: &mut Vec<u8>) -> Result<(), NoMemory>
    ensures { OnOk result (out.new.items ≡ out.old.items ++ seed_text key) }
{
    push_text(b"\nseed ", out)?;
    push_key(key, out)?;
    push_text(b"\nstart noise\n", out)
}

/// The low byte of a number of a lot.
fn drawn_byte(lot: Lot, place: usize) -> u8
    ensures { result ≡ drawn lot.seed place % 256 }
{
    (lot.number(place as u64) % 256) as u8
}

/// Draws bytes from a lot.
fn draw_bytes(lot: Lot, out: &mut [u8])
    ensures { out.new ≡ drawn_bytes lot.seed (length out.old) }
{
    for i in 0..out.len() {
        out[i] = drawn_byte(lot, i);
    }
}

/// Puts the digits of the state of node `v` that is read from bytes of a lot.
fn push_drawn<M: Machine>(
    alloc: Global,
    machine: &M,
    v: u32,
    lot: Lot,
    out: &mut Vec<u8>,
) -> Result<(), NoMemory>
    requires { v < (M.machine machine.now).nodes }
    ensures { OnOk result (out.new.items
        ≡ out.old.items ++ drawn_digits ((M.machine machine.now).fields v) lot.seed) }
{
    machine.facts();
    let mut state = NodeState::zero(alloc, machine.depth())?;
    let mut buffer = [0; MOST_BYTES];
    let bytes = &mut buffer[..machine.bytes_of(v)];
    draw_bytes(lot, bytes);
    machine.read_state(v, bytes, &mut state);
    machine.write_state(v, &state, bytes);
    push_hex(bytes, out)
}

/// Puts the digits of a drawn state of the node with an id; none if there is no such node.
fn push_digits<M: Machine>(
    alloc: Global,
    machine: &M,
    id: u32,
    seed: u64,
    out: &mut Vec<u8>,
) -> Result<(), NoMemory>
    ensures { OnOk result (out.new.items
        ≡ out.old.items ++ node_digits (M.machine machine.now) id seed) }
{
    if id < machine.nodes() {
        return push_drawn(alloc, machine, id, Lot { seed }, out);
    }
    Ok(())
}

#[tactic(auto, unfolding(crate::specs::AttackTexts::start_text))]
fn push_start<M: Machine>(
    alloc: Global,
    machine: &M,
    start: StartLine,
    out: &mut Vec<u8>,
) -> Result<(), NoMemory>
    ensures { OnOk result (out.new.items
        ≡ out.old.items ++ start_text (M.machine machine.now) start) }
{
    push_text(b"start node", out)?;
    push_spaced(u64::from(start.node), out)?;
    push_text(b" ", out)?;
    push_digits(alloc, machine, start.node, start.seed, out)?;
    push_text(b"\n", out)
}

/// Puts what a sender says.
fn push_say<M: Machine>(
    alloc: Global,
    machine: &M,
    sender: u32,
    says: Say,
    out: &mut Vec<u8>,
) -> Result<(), NoMemory>
    ensures { OnOk result (out.new.items
        ≡ out.old.items ++ say_text (M.machine machine.now) sender says) }
{
    match says {
        Say::Noise => push_text(b"noise", out),
        Say::Copy(node) => {
            push_text(b"copy", out)?;
            push_spaced(u64::from(node), out)
        }
        Say::Drawn(seed) => {
            push_text(b"hex ", out)?;
            push_digits(alloc, machine, sender, seed, out)
        }
        Say::Shift(by) => {
            push_text(b"shift", out)?;
            push_spaced(by, out)
        }
    }
}

/// Puts who hears a lie.
fn push_hearers(lie: LieLine, out: &mut Vec<u8>) -> Result<(), NoMemory>
    ensures { OnOk result (out.new.items ≡ out.old.items ++ hearers_text lie) }
{
    push_text(b" to", out)?;
    push_spaced(u64::from(lie.from), out)?;
    push_spaced(u64::from(lie.to), out)?;
    push_text(b" ", out)
}

/// Puts the rounds and the sender of a lie, and who hears it.
fn push_lie_front(lie: LieLine, out: &mut Vec<u8>) -> Result<(), NoMemory>
    ensures { OnOk result (out.new.items ≡ out.old.items ++ lie_front lie) }
{
    push_text(b"lie", out)?;
    push_spaced(lie.first, out)?;
    push_spaced(lie.last, out)?;
    push_spaced(u64::from(lie.sender), out)?;
    push_hearers(lie, out)
}

#[tactic(auto, unfolding(crate::specs::AttackTexts::lie_text))]
fn push_lie<M: Machine>(
    alloc: Global,
    machine: &M,
    lie: LieLine,
    out: &mut Vec<u8>,
) -> Result<(), NoMemory>
    ensures { OnOk result (out.new.items
        ≡ out.old.items ++ lie_text (M.machine machine.now) lie) }
{
    push_lie_front(lie, out)?;
    push_say(alloc, machine, lie.sender, lie.says, out)?;
    push_text(b"\n", out)
}

fn push_starts<M: Machine>(
    alloc: Global,
    machine: &M,
    starts: &[StartLine],
    out: &mut Vec<u8>,
) -> Result<(), NoMemory>
    ensures { OnOk result (out.new.items
        ≡ out.old.items ++ flat_map (start_text (M.machine machine.now)) starts.now) }
{
    for start in starts {
        push_start(alloc, machine, *start, out)?;
    }
    Ok(())
}

fn push_lies<M: Machine>(
    alloc: Global,
    machine: &M,
    lies: &[LieLine],
    out: &mut Vec<u8>,
) -> Result<(), NoMemory>
    ensures { OnOk result (out.new.items
        ≡ out.old.items ++ flat_map (lie_text (M.machine machine.now)) lies.now) }
{
    for lie in lies {
        push_lie(alloc, machine, *lie, out)?;
    }
    Ok(())
}

fn push_rounds(rounds: u64, first: u64, last: u64, out: &mut Vec<u8>) -> Result<(), NoMemory>
    ensures { OnOk result (out.new.items ≡ out.old.items ++ rounds_text rounds first last) }
{
    push_text(b"rounds", out)?;
    push_spaced(rounds, out)?;
    push_text(b"\nshow", out)?;
    push_spaced(first, out)?;
    push_spaced(last, out)?;
    push_text(b"\nend\n", out)
}

impl Attack {
    /// The script that says the attack, for a machine: of version 1, with one era, and the start of
    /// all nodes in noise. Whether it is a script for that machine shows when it is read.
    pub fn text<M: Machine>(&self, alloc: Global, machine: &M) -> Result<Vec<u8>, NoMemory>
        ensures { IfOk result (λ text. text.items
            ≡ attack_text (M.machine machine.now) self.now) }
    {
        let mut text = Vec::new(alloc);
        push_faulty(&self.faulty, &mut text)?;
        push_seed(self.key, &mut text)?;
        push_starts(alloc, machine, &self.starts, &mut text)?;
        push_lies(alloc, machine, &self.lies, &mut text)?;
        push_rounds(self.rounds, self.first, self.last, &mut text)?;
        Ok(text)
    }
}
