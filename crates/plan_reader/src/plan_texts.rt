ghost use Rattle.texts.specs.Growth.{Puts};
ghost use Rattle.edge_io.specs.Writing.{Writes};
ghost use Rattle.plan_numbers.specs.Numbers.{level_of};
ghost use Rattle.plan_reader.specs.PlanTexts.{level_words, level_text, level_texts, plan_text};

use crate::lines::{put_base, put_spares_end, put_version};
use edge_io::{Piece, Sink, WriteFault, Writer};
use plan_numbers::{LevelNums, Plan};

fn put_level_words<K: Sink>(writer: &mut Writer<'_, K>, nums: &LevelNums)
    ensures { Writes K.told (level_words (level_of nums.now)) writer.old writer.new }
{
    writer.pieces(&[
        Piece::Text(b"level "),
        Piece::Number(u64::from(nums.blocks)),
        Piece::Text(b" "),
        Piece::Number(u64::from(nums.faults)),
        Piece::Text(b" "),
        Piece::Number(nums.modulus),
    ]);
}

fn put_level<K: Sink>(writer: &mut Writer<'_, K>, version: u32, nums: &LevelNums)
    ensures { Writes K.told (level_text version (level_of nums.now)) writer.old writer.new }
{
    put_level_words(writer, nums);
    put_spares_end(writer, version, nums.spares);
}

fn put_levels<K: Sink>(writer: &mut Writer<'_, K>, plan: &Plan, version: u32)
    ensures { Writes K.told (level_texts version plan.now) writer.old writer.new }
{
    for i in 0..plan.depth() {
        put_level(writer, version, plan.level(i));
    }
}

/// Writes the text of a plan in that version.
pub fn put_plan_text<K: Sink>(writer: &mut Writer<'_, K>, plan: &Plan, version: u32)
    ensures { Writes K.told (plan_text version plan.now) writer.old writer.new }
{
    put_version(writer, b"plan ", version);
    put_base(writer, plan);
    put_levels(writer, plan, version);
    writer.text(b"end\n");
}

/// Writes the text of a plan in that version. It takes no memory, and is one write if the sink
/// takes it whole.
///
/// A text of version 1 leaves out how many spares a level has; in the plan's own version or a later
/// one the text is read as the plan. `WriteFault` comes only if the sink counted a fault; a
/// prefix of the text was then taken.
pub fn write_plan<K: Sink>(plan: &Plan, version: u32, sink: &mut K) -> Result<(), WriteFault>
    ensures { Puts result (plan_text version plan.now) (K.told sink.old) (K.told sink.new) }
{
    let mut writer = Writer::new(sink);
    put_plan_text(&mut writer, plan, version);
    writer.finish()
}
