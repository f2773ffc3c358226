ghost use Rattle.std.specs.Prelude.{◌<◌};
ghost use Rattle.edge_io.specs.Writing.{Writes};
ghost use Rattle.construction.specs.Plans.{plan_nodes};
ghost use Rattle.adversary_script.specs.Eras.{faulty_at};
ghost use Rattle.run_checker.specs.RunLines.{node_word, node_words, row_text, ids_text};
ghost use Rattle.run_checker.specs.RunLines.{faulty_text, era_text};

use counter_core::NoOverlay;
use edge_io::{Piece, Sink, Writer};
use round_runner::Runner;
use sync_types::FaultSet;

/// Writes a node's word in the row of the runner's configuration: what it shows, or a star if it is
/// one of these faulty ones.
fn put_word<K: Sink>(
    writer: &mut Writer<'_, K>,
    runner: &Runner<NoOverlay>,
    faulty: &FaultSet,
    v: u32,
)
    requires { v < plan_nodes runner.now.plan }
    ensures { Writes K.told (node_word runner.now.plan faulty.now.ids runner.now.states v)
        writer.old writer.new }
{
    if faulty.contains(v) {
        writer.text(b" *");
    } else {
        writer.pieces(&[Piece::Text(b" "), Piece::Number(runner.output(v))]);
    }
}

/// Writes the words of all nodes.
fn put_words<K: Sink>(writer: &mut Writer<'_, K>, runner: &Runner<NoOverlay>, faulty: &FaultSet)
    ensures { Writes K.told (node_words runner.now.plan faulty.now.ids runner.now.states)
        writer.old writer.new }
{
    for v in 0..runner.nodes() {
        put_word(writer, runner, faulty, v);
    }
}

/// Writes the row of the runner's configuration.
pub fn put_row<K: Sink>(writer: &mut Writer<'_, K>, runner: &Runner<NoOverlay>)
    ensures { Writes K.told (row_text runner.now.plan
        (faulty_at runner.now.script runner.now.at) runner.now.at runner.now.states)
        writer.old writer.new }
{
    writer.pieces(&[Piece::Text(b"row "), Piece::Number(runner.at())]);
    put_words(writer, runner, runner.script().faulty_at(runner.at()));
    writer.text(b"\n");
}

/// Writes ids, each after a space.
fn put_ids<K: Sink>(writer: &mut Writer<'_, K>, faulty: &FaultSet)
    ensures { Writes K.told (ids_text faulty.now.ids) writer.old writer.new }
{
    for i in 0..faulty.len() {
        let id = u64::from(faulty.at(i));
        writer.pieces(&[Piece::Text(b" "), Piece::Number(id)]);
    }
}

/// Writes the line of the nodes that are faulty at first.
pub fn put_faulty<K: Sink>(writer: &mut Writer<'_, K>, faulty: &FaultSet)
    ensures { Writes K.told (faulty_text faulty.now.ids) writer.old writer.new }
{
    writer.text(b"faulty");
    put_ids(writer, faulty);
    writer.text(b"\n");
}

/// Writes the line of an era that begins at configuration `t`.
pub fn put_era<K: Sink>(writer: &mut Writer<'_, K>, t: u64, faulty: &FaultSet)
    ensures { Writes K.told (era_text t faulty.now.ids) writer.old writer.new }
{
    writer.pieces(&[Piece::Text(b"era "), Piece::Number(t)]);
    put_ids(writer, faulty);
    writer.text(b"\n");
}
