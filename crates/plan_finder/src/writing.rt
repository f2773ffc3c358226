ghost use Rattle.std.specs.List.{flat_map};
ghost use Rattle.texts.specs.Growth.{Puts};
ghost use Rattle.edge_io.specs.Writing.{Writes};
ghost use Rattle.plan_finder.specs.FindText.{plan_or_none, pot_line, find_text};

use crate::finding::Found;
use crate::pots::Pot;
use edge_io::{Piece, Sink, WriteFault, Writer};
use plan_numbers::Plan;
use plan_reader::put_plan_text;

fn put_plan<K: Sink>(writer: &mut Writer<'_, K>, plan: &Option<Plan>)
    ensures { Writes K.told (plan_or_none plan.now) writer.old writer.new }
{
    match plan {
        Some(plan) => put_plan_text(writer, plan, 1),
        None => writer.text(b"none\n"),
    }
}

fn put_pot<K: Sink>(writer: &mut Writer<'_, K>, pot: Pot)
    ensures { Writes K.told (pot_line pot) writer.old writer.new }
{
    writer.pieces(&[
        Piece::Text(b"pot "),
        Piece::Number(pot.nodes),
        Piece::Text(b" "),
        Piece::Number(pot.faults),
        Piece::Text(b" "),
        Piece::Number(pot.value),
        Piece::Text(b"\n"),
    ]);
}

fn put_pots<K: Sink>(writer: &mut Writer<'_, K>, pots: &[Pot])
    ensures { Writes K.told (flat_map pot_line pots.now) writer.old writer.new }
{
    for i in 0..pots.len() {
        put_pot(writer, pots[i]);
    }
}

fn put_found<K: Sink>(writer: &mut Writer<'_, K>, found: &Found)
    ensures { Writes K.told (find_text found.now.plan found.now.pots) writer.old writer.new }
{
    put_plan(writer, &found.plan);
    put_pots(writer, found.pots.as_slice());
}

/// Writes what was found: the text of the plan in version 1, or the line `none`, and a line
/// `pot n f value` for each pair. It takes no memory, and each write is of 8192 bytes or of what is
/// left.
///
/// `WriteFault` comes only if the sink counted a fault; a prefix of the text was then taken.
pub fn write_found<K: Sink>(found: &Found, sink: &mut K) -> Result<(), WriteFault>
    ensures { Puts result (find_text found.now.plan found.now.pots)
        (K.told sink.old) (K.told sink.new) }
{
    let mut writer = Writer::new(sink);
    put_found(&mut writer, found);
    writer.finish()
}
