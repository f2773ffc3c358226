//! What a node makes of what it hears of a group.

ghost use Rattle.std.specs.Prelude.{◌≡◌, ◌-◌, ◌<◌, nat_le};
ghost use Rattle.counting.specs.Values.{count_of, least_above};
ghost use Rattle.edge_io.specs.Writing.{Writes};
ghost use Rattle.halving_plan.specs.Halves.{right_period};
ghost use Rattle.halving_plan.specs.Groups.{sizes_of, right_of};
ghost use Rattle.halving_plan.specs.LevelStates.{shown, saw, backed, follows_left};
ghost use Rattle.halving_plan.specs.LevelStates.{instruction_of, values_of};
ghost use Rattle.halving_plan.specs.GroupHearing.{level_states_in, outputs_in};
ghost use Rattle.trace.specs.Counted.{counted_part};
ghost use Rattle.trace.specs.GroupTexts.{backed_word, half_word, instruction_part};

use crate::group_views::GroupView;
use crate::line_words::{number_piece, turn_word};
use crate::rooms::ValueRoom;
use counter_core::HeardRegister;
use edge_io::{Piece, Sink, Writer};
use halving_plan::{Group, LevelState, count_group, shown};

/// What a node makes of what it hears of a group.
#[derive(Clone, Copy, Debug)]
pub struct HeardOfGroup {
    /// How many nodes saw of the left half what the node itself saw.
    pub saw: usize,
    /// Whether these are so many that it is backed.
    pub backed: bool,
    /// Whether the node follows the left half, and not the right one.
    pub left: bool,
    /// The instruction of that half which it obeys.
    pub instruction: u64,
    /// How many have the node's own value.
    pub same: usize,
    /// The least finite value that more of them have than may be faulty, if there is one.
    pub least: Option<u64>,
}

/// Whether so many nodes of a group that no correct node has another number with as many.
fn is_backed(group: &Group, saw: usize) -> bool
    ensures { result ≡ nat_le (group.now.nodes - group.now.faults) saw }
{
    group.facts();
    saw >= (group.nodes() - group.faults()) as usize
}

/// What the node of a group, which has this level state, makes of what it hears. It takes no
/// memory.
pub fn count_said(seen: &GroupView<'_>, own: &LevelState, room: &mut ValueRoom) -> HeardOfGroup
    ensures saw { result.saw
        ≡ saw own.now.seen (level_states_in seen.now.group seen.now.heard.now) }
    ensures backed { result.backed ≡ backed (sizes_of seen.now.group) own.now
        (level_states_in seen.now.group seen.now.heard.now) }
    ensures left { result.left ≡ follows_left (sizes_of seen.now.group) own.now result.backed }
    ensures instruction { result.instruction
        ≡ instruction_of (sizes_of seen.now.group) result.left own.now.seen
        (shown (right_period (sizes_of seen.now.group))
        (outputs_in (right_of seen.now.group) seen.now.heard.now)) }
    ensures same { result.same ≡ count_of
        (values_of (level_states_in seen.now.group seen.now.heard.now)) own.now.register.a }
    ensures least { result.least ≡ least_above seen.now.group.faults
        (values_of (level_states_in seen.now.group seen.now.heard.now)) }
{
    let (group, heard) = (seen.group, seen.heard);
    group.facts();
    let (nodes, faults) = (group.nodes(), group.faults());
    let value = own.register.a;
    let counts = count_group(&group, own, heard);
    let backed = is_backed(&group, counts.saw);
    let left = own.follows_left(backed, &group);
    let right = shown(&group.right(), heard);
    let stretch = heard.stretch(group.first(), nodes);
    let registers = HeardRegister::of(&stretch, group.register(), nodes, faults);
    let least = registers.least(value, counts.same, &mut room.values);
    HeardOfGroup {
        saw: counts.saw,
        backed,
        left,
        instruction: own.instruction(left, right, &group),
        same: counts.same,
        least,
    }
}

/// The word of what is backed.
fn backed_word(backed: bool) -> &'static str
    ensures { result.now ≡ backed_word backed }
{
    if backed { " backed" } else { " unbacked" }
}

/// The word of a half.
pub fn half_word(left: bool) -> &'static str
    ensures { result.now ≡ half_word left }
{
    if left { " left" } else { " right" }
}

/// Writes which half a node of a group follows, its instruction, and whose phase that is of.
fn put_instruction<K: Sink>(writer: &mut Writer<'_, K>, group: &Group, left: bool, instruction: u64)
    requires { 0 < group.now.faults }
    ensures { Writes K.told (instruction_part group.now left instruction) writer.old writer.new }
{
    let half = if left { group.left() } else { group.right() };
    half.facts();
    writer.pieces(&[
        Piece::Text(b" follows"),
        Piece::Text(half_word(left).as_bytes()),
        Piece::Text(b" instruction "),
        Piece::Number(instruction),
        Piece::Text(turn_word(instruction % 3).as_bytes()),
        Piece::Text(b" king "),
        Piece::Number(u64::from(half.first()) + instruction / 3),
    ]);
}

/// Writes what a node of a group makes of what it hears.
pub fn put_said<K: Sink>(writer: &mut Writer<'_, K>, group: &Group, said: &HeardOfGroup)
    requires { 0 < group.now.faults }
    ensures { Writes K.told (counted_part group.now said.now) writer.old writer.new }
{
    writer.labelled(b" saw ", said.saw as u64);
    writer.text(backed_word(said.backed).as_bytes());
    put_instruction(writer, group, said.left, said.instruction);
    writer.pieces(&[
        Piece::Text(b" same "),
        Piece::Number(said.same as u64),
        Piece::Text(b" least "),
        number_piece(said.least),
    ]);
}
