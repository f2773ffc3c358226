ghost use Rattle.std.specs.Prelude.{◌≡◌, ◌≢◌, ◌<◌};
ghost use Rattle.edge_io.specs.Writing.{Writes};
ghost use Rattle.construction.specs.Plans.{plan_nodes};
ghost use Rattle.run_checker.specs.Playing.{HasLiar, IsToRecord};
ghost use Rattle.run_checker.specs.RunLines.{lie_text, lie_if, lies_from, lies_text};

use counter_core::NoOverlay;
use edge_io::{Piece, Sink, Writer};
use round_runner::Runner;

/// Writes what `u` tells `v` in the coming round.
fn put_lie<K: Sink>(writer: &mut Writer<'_, K>, runner: &mut Runner<NoOverlay>, u: u32, v: u32)
    requires liar { HasLiar runner.old u }
    requires other { v ≢ u }
    requires receiver { v < plan_nodes runner.old.plan }
    ensures text { Writes K.told (lie_text runner.old.script runner.old.at runner.old.states u v)
        writer.old writer.new }
    ensures same { runner.new ≡ runner.old }
{
    let mut buffer = [0; 256];
    let digits = 2 * runner.shape().bytes_of(u);
    runner.lie_hex(u, v, &mut buffer[..digits]);
    writer.pieces(&[
        Piece::Text(b"lie "),
        Piece::Number(u64::from(u)),
        Piece::Text(b" "),
        Piece::Number(u64::from(v)),
        Piece::Text(b" "),
        Piece::Text(&buffer[..digits]),
        Piece::Text(b"\n"),
    ]);
}

/// Writes what `u`, which is faulty, tells `v` in the coming round, if that is correct.
fn put_lie_if<K: Sink>(writer: &mut Writer<'_, K>, runner: &mut Runner<NoOverlay>, u: u32, v: u32)
    requires liar { HasLiar runner.old u }
    requires receiver { v < plan_nodes runner.old.plan }
    ensures text { Writes K.told (lie_if runner.old.script runner.old.at runner.old.states u v)
        writer.old writer.new }
    ensures same { runner.new ≡ runner.old }
{
    if runner.script().faulty_at(runner.at()).contains(v) {
        return;
    }
    put_lie(writer, runner, u, v);
}

/// Writes what `u`, which is faulty, tells each correct node in the coming round.
fn put_lies_from<K: Sink>(writer: &mut Writer<'_, K>, runner: &mut Runner<NoOverlay>, u: u32)
    requires { HasLiar runner.old u }
    ensures text { Writes K.told
        (lies_from runner.old.script (plan_nodes runner.old.plan) runner.old.at runner.old.states u)
        writer.old writer.new }
    ensures same { runner.new ≡ runner.old }
{
    for v in 0..runner.nodes() {
        put_lie_if(writer, runner, u, v);
    }
}

/// Writes what the faulty nodes tell in the coming round.
pub fn put_lies<K: Sink>(writer: &mut Writer<'_, K>, runner: &mut Runner<NoOverlay>)
    requires round { runner.old.at < runner.old.script.rounds }
    requires plays { IsToRecord runner.old }
    ensures text { Writes K.told
        (lies_text runner.old.script (plan_nodes runner.old.plan) runner.old.at runner.old.states)
        writer.old writer.new }
    ensures same { runner.new ≡ runner.old }
{
    let count = runner.script().faulty_at(runner.at()).len();
    for i in 0..count {
        let u = runner.script().faulty_at(runner.at()).at(i);
        put_lies_from(writer, runner, u);
    }
}
