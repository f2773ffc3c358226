ghost use Rattle.texts.specs.Growth.{Puts};
ghost use Rattle.edge_io.specs.Writing.{Writes};
ghost use Rattle.halving_texts.specs.HalvingTexts.{halving_text};

use edge_io::{Piece, Sink, WriteFault, Writer};
use halving_plan::HalvingPlan;

fn put_halving_text<K: Sink>(writer: &mut Writer<'_, K>, plan: &HalvingPlan)
    ensures { Writes K.told (halving_text plan.now) writer.old writer.new }
{
    writer.pieces(&[
        Piece::Text(b"halving 1\ngroup "),
        Piece::Number(u64::from(plan.nodes())),
        Piece::Text(b" "),
        Piece::Number(u64::from(plan.faults())),
        Piece::Text(b" "),
        Piece::Number(plan.modulus()),
        Piece::Text(b"\nend\n"),
    ]);
}

/// Writes the text of a halving plan. It takes no memory, and is one write if the sink takes it
/// whole.
///
/// `WriteFault` comes only if the sink counted a fault; a prefix of the text was then taken.
pub fn write_halving<K: Sink>(plan: &HalvingPlan, sink: &mut K) -> Result<(), WriteFault>
    ensures { Puts result (halving_text plan.now) (K.told sink.old) (K.told sink.new) }
{
    let mut writer = Writer::new(sink);
    put_halving_text(&mut writer, plan);
    writer.finish()
}
