//! Writes the answers.

ghost use Rattle.std.specs.List.{flat_map};
ghost use Rattle.texts.specs.Growth.{Puts};
ghost use Rattle.edge_io.specs.Writing.{Writes};
ghost use Rattle.plan_numbers.specs.Numbers.{level_of};
ghost use Rattle.choose.specs.FrontText.{numbers_part, base_part, level_part, levels_part};
ghost use Rattle.choose.specs.FrontText.{plan_part};
ghost use Rattle.choose.specs.FrontText.{front_line, front_text, last_plan_text};

use edge_io::{Piece, Sink, WriteFault, Writer, put_all};
use plan_numbers::{LevelNums, Plan};
use plan_reader::write_plan;

/// The numbers of a plan.
fn put_numbers<K: Sink>(writer: &mut Writer<'_, K>, plan: &Plan)
    ensures { Writes K.told (numbers_part plan.now) writer.old writer.new }
{
    writer.pieces(&[
        Piece::Text(b"nodes "),
        Piece::Number(u64::from(plan.nodes())),
        Piece::Text(b" bound "),
        Piece::Number(plan.bound()),
        Piece::Text(b" bytes "),
        Piece::Number(plan.bytes() as u64),
        Piece::Text(b" levels "),
        Piece::Number(plan.depth() as u64),
        Piece::Text(b" "),
    ]);
}

/// The first line of a plan, and that of its base.
fn put_base<K: Sink>(writer: &mut Writer<'_, K>, plan: &Plan)
    ensures { Writes K.told (base_part plan.now) writer.old writer.new }
{
    writer.pieces(&[
        Piece::Text(b"plan 2;base "),
        Piece::Number(plan.base_modulus()),
        Piece::Text(b";"),
    ]);
}

fn put_level<K: Sink>(writer: &mut Writer<'_, K>, nums: &LevelNums)
    ensures { Writes K.told (level_part (level_of nums.now)) writer.old writer.new }
{
    writer.pieces(&[
        Piece::Text(b"level "),
        Piece::Number(u64::from(nums.blocks)),
        Piece::Text(b" "),
        Piece::Number(u64::from(nums.faults)),
        Piece::Text(b" "),
        Piece::Number(nums.modulus),
        Piece::Text(b" spare "),
        Piece::Number(u64::from(nums.spares)),
        Piece::Text(b";"),
    ]);
}

fn put_levels<K: Sink>(writer: &mut Writer<'_, K>, plan: &Plan)
    ensures { Writes K.told (levels_part plan.now) writer.old writer.new }
{
    for i in 0..plan.depth() {
        put_level(writer, plan.level(i));
    }
}

fn put_plan<K: Sink>(writer: &mut Writer<'_, K>, plan: &Plan)
    ensures { Writes K.told (plan_part plan.now) writer.old writer.new }
{
    put_base(writer, plan);
    put_levels(writer, plan);
    writer.text(b"end\n");
}

pub fn put_line<K: Sink>(writer: &mut Writer<'_, K>, plan: &Plan)
    ensures { Writes K.told (front_line plan.now) writer.old writer.new }
{
    put_numbers(writer, plan);
    put_plan(writer, plan);
}

fn put_lines<K: Sink>(writer: &mut Writer<'_, K>, plans: &[Plan])
    ensures { Writes K.told (flat_map front_line plans.now) writer.old writer.new }
{
    for i in 0..plans.len() {
        put_line(writer, &plans[i]);
    }
}

fn put_front<K: Sink>(writer: &mut Writer<'_, K>, plans: &[Plan])
    ensures { Writes K.told (front_text plans.now) writer.old writer.new }
{
    if plans.is_empty() {
        writer.text(b"none\n");
    } else {
        put_lines(writer, plans);
    }
}

/// Writes a line for each plan of a front, with its numbers, or `none` if there is none. It takes
/// no memory, and is one write if the sink takes it whole.
///
/// `WriteFault` comes only if the sink counted a fault; a prefix of the text was then taken.
pub fn write_front<K: Sink>(plans: &[Plan], sink: &mut K) -> Result<(), WriteFault>
    ensures { Puts result (front_text plans.now) (K.told sink.old) (K.told sink.new) }
{
    let mut writer = Writer::new(sink);
    put_front(&mut writer, plans);
    writer.finish()
}

/// Writes the text of the last plan of a front, or `none` if there is none. It takes no memory.
///
/// `WriteFault` comes only if the sink counted a fault; a prefix of the text was then taken.
pub fn write_last_plan<K: Sink>(plans: &[Plan], sink: &mut K) -> Result<(), WriteFault>
    ensures { Puts result (last_plan_text plans.now) (K.told sink.old) (K.told sink.new) }
{
    match plans.last() {
        Some(plan) => write_plan(plan, 2, sink),
        None => put_all(sink, b"none\n"),
    }
}
