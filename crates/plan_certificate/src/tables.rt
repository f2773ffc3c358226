ghost use Rattle.texts.specs.Growth.{Puts};
ghost use Rattle.edge_io.specs.Writing.{Writes};
ghost use Rattle.plan_certificate.specs.Tables.{level_front, level_line, level_lines, plan_line};
ghost use Rattle.plan_certificate.specs.Tables.{table_text};

use edge_io::{Piece, Sink, WriteFault, Writer};
use plan_numbers::{LevelNums, Plan};
use plan_reader::{put_base, put_spares_end, put_version};

fn put_level_front<K: Sink>(writer: &mut Writer<'_, K>, index: u64, nums: &LevelNums)
    ensures { Writes K.told (level_front index nums.now) writer.old writer.new }
{
    writer.pieces(&[
        Piece::Text(b"level "),
        Piece::Number(index),
        Piece::Text(b" blocks "),
        Piece::Number(u64::from(nums.blocks)),
        Piece::Text(b" leaders "),
        Piece::Number(u64::from(nums.leaders)),
        Piece::Text(b" nodes "),
        Piece::Number(u64::from(nums.nodes)),
        Piece::Text(b" faults "),
        Piece::Number(u64::from(nums.faults)),
        Piece::Text(b" beat "),
        Piece::Number(nums.beat),
        Piece::Text(b" span "),
        Piece::Number(nums.span),
        Piece::Text(b" modulus "),
        Piece::Number(nums.modulus),
        Piece::Text(b" bound "),
        Piece::Number(nums.bound),
        Piece::Text(b" bits "),
        Piece::Number(u64::from(nums.bits)),
    ]);
}

fn put_level<K: Sink>(writer: &mut Writer<'_, K>, version: u32, index: u64, nums: &LevelNums)
    ensures { Writes K.told (level_line version (index, nums.now)) writer.old writer.new }
{
    put_level_front(writer, index, nums);
    put_spares_end(writer, version, nums.spares);
}

fn put_levels<K: Sink>(writer: &mut Writer<'_, K>, plan: &Plan)
    ensures { Writes K.told (level_lines plan.now) writer.old writer.new }
{
    for i in 0..plan.depth() {
        put_level(writer, plan.version(), 1 + i as u64, plan.level(i));
    }
}

fn put_plan<K: Sink>(writer: &mut Writer<'_, K>, plan: &Plan)
    ensures { Writes K.told (plan_line plan.now) writer.old writer.new }
{
    writer.pieces(&[
        Piece::Text(b"plan nodes "),
        Piece::Number(u64::from(plan.nodes())),
        Piece::Text(b" faults "),
        Piece::Number(u64::from(plan.faults())),
        Piece::Text(b" modulus "),
        Piece::Number(plan.modulus()),
        Piece::Text(b" bound "),
        Piece::Number(plan.bound()),
        Piece::Text(b" bits "),
        Piece::Number(u64::from(plan.bits())),
        Piece::Text(b" bytes "),
        Piece::Number(plan.bytes() as u64),
        Piece::Text(b"\n"),
    ]);
}

fn put_table<K: Sink>(writer: &mut Writer<'_, K>, plan: &Plan)
    ensures { Writes K.told (table_text plan.now) writer.old writer.new }
{
    put_version(writer, b"table ", plan.version());
    put_base(writer, plan);
    put_levels(writer, plan);
    put_plan(writer, plan);
    writer.text(b"end\n");
}

/// Writes the table text of a plan, in the plan's own version. It takes no memory, and a text of at
/// most 8192 bytes is one write if the sink takes it whole.
///
/// `WriteFault` comes only if the sink counted a fault; a prefix of the text was then taken.
pub fn write_table<K: Sink>(plan: &Plan, sink: &mut K) -> Result<(), WriteFault>
    ensures { Puts result (table_text plan.now) (K.told sink.old) (K.told sink.new) }
{
    let mut writer = Writer::new(sink);
    put_table(&mut writer, plan);
    writer.finish()
}
