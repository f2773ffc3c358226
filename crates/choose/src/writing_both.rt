//! Writes the front of both constructions.

ghost use Rattle.std.specs.Prelude.{◌++◌};
ghost use Rattle.texts.specs.Growth.{Puts};
ghost use Rattle.edge_io.specs.Writing.{Writes};
ghost use Rattle.choose.specs.FrontsOfBothText.{halving_numbers_part, halving_line_part};
ghost use Rattle.choose.specs.FrontsOfBothText.{any_line, any_text};
ghost use Rattle.choose.specs.FrontsOfBothText.{both_front_text, both_plan_text};

use crate::any_plans::AnyPlan;
use crate::writing::put_line;
use edge_io::{Piece, Sink, WriteFault, Writer, put_all};
use halving_plan::{HalvingPlan, levels, state_bytes};
use halving_texts::write_halving;
use plan_reader::write_plan;

/// The numbers of a halving plan.
fn put_halving_numbers<K: Sink>(writer: &mut Writer<'_, K>, plan: &HalvingPlan)
    ensures { Writes K.told (halving_numbers_part plan.now) writer.old writer.new }
{
    writer.pieces(&[
        Piece::Text(b"nodes "),
        Piece::Number(u64::from(plan.nodes())),
        Piece::Text(b" bound "),
        Piece::Number(plan.bound()),
        Piece::Text(b" bytes "),
        Piece::Number(state_bytes(plan)),
        Piece::Text(b" levels "),
        Piece::Number(levels(plan)),
        Piece::Text(b" "),
    ]);
}

/// The text of a halving plan, in one line.
fn put_halving_part<K: Sink>(writer: &mut Writer<'_, K>, plan: &HalvingPlan)
    ensures { Writes K.told (halving_line_part plan.now) writer.old writer.new }
{
    writer.pieces(&[
        Piece::Text(b"halving 1;group "),
        Piece::Number(u64::from(plan.nodes())),
        Piece::Text(b" "),
        Piece::Number(u64::from(plan.faults())),
        Piece::Text(b" "),
        Piece::Number(plan.modulus()),
        Piece::Text(b";end\n"),
    ]);
}

fn put_halving_line<K: Sink>(writer: &mut Writer<'_, K>, plan: &HalvingPlan)
    ensures { Writes K.told (halving_numbers_part plan.now ++ halving_line_part plan.now)
        writer.old writer.new }
{
    put_halving_numbers(writer, plan);
    put_halving_part(writer, plan);
}

/// The line of a plan.
fn put_any_line<K: Sink>(writer: &mut Writer<'_, K>, plan: &AnyPlan)
    ensures { Writes K.told (any_line plan.now) writer.old writer.new }
{
    match plan {
        AnyPlan::Boosting(plan) => put_line(writer, plan),
        AnyPlan::Halving(plan) => put_halving_line(writer, plan),
    }
}

fn put_both_front<K: Sink>(writer: &mut Writer<'_, K>, plan: &Option<AnyPlan>)
    ensures { Writes K.told (both_front_text plan.now) writer.old writer.new }
{
    match plan {
        Some(plan) => put_any_line(writer, plan),
        None => writer.text(b"none\n"),
    }
}

/// Writes the line of the front's plan, or `none` if there is none. It takes no memory, and is one
/// write if the sink takes it whole.
///
/// `WriteFault` comes only if the sink counted a fault; a prefix of the text was then taken.
pub fn write_both_front<K: Sink>(plan: &Option<AnyPlan>, sink: &mut K) -> Result<(), WriteFault>
    ensures { Puts result (both_front_text plan.now) (K.told sink.old) (K.told sink.new) }
{
    let mut writer = Writer::new(sink);
    put_both_front(&mut writer, plan);
    writer.finish()
}

/// Writes the text of the front's plan, or `none` if there is none. It takes no memory.
///
/// `WriteFault` comes only if the sink counted a fault; a prefix of the text was then taken.
pub fn write_both_plan<K: Sink>(plan: &Option<AnyPlan>, sink: &mut K) -> Result<(), WriteFault>
    ensures { Puts result (both_plan_text plan.now) (K.told sink.old) (K.told sink.new) }
{
    match plan {
        Some(AnyPlan::Boosting(plan)) => write_plan(plan, 2, sink),
        Some(AnyPlan::Halving(plan)) => write_halving(plan, sink),
        None => put_all(sink, b"none\n"),
    }
}
