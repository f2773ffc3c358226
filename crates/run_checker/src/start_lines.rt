ghost use Rattle.std.specs.Prelude.{◌≡◌, ◌&&◌, ◌||◌, not};
ghost use Rattle.edge_io.specs.Writing.{Writes};
ghost use Rattle.construction.specs.Plans.{Plan, plan_nodes};
ghost use Rattle.run_checker.specs.Recorded.{is_put};
ghost use Rattle.run_checker.specs.Playing.{HasNode, Begins};
ghost use Rattle.run_checker.specs.RunLines.{start_text, first_start, first_starts, start_if};
ghost use Rattle.run_checker.specs.RunLines.{starts_text};
ghost use Rattle.state_codec.specs.Shapes.{shape_nodes};

use adversary_script::Script;
use counter_core::NoOverlay;
use edge_io::{Piece, Sink, Writer};
use round_runner::Runner;

/// No state has more digits.
const MOST_DIGITS: usize = 256;

/// Writes the state of node `v` in the runner's configuration.
fn put_start<K: Sink>(writer: &mut Writer<'_, K>, runner: &mut Runner<NoOverlay>, v: u32)
    requires { HasNode runner.old v }
    ensures text { Writes K.told (start_text runner.old.script runner.old.states v)
        writer.old writer.new }
    ensures same { runner.new ≡ runner.old }
{
    let mut buffer = [0; MOST_DIGITS];
    let digits = 2 * runner.shape().bytes_of(v);
    runner.state_hex(v, &mut buffer[..digits]);
    writer.pieces(&[
        Piece::Text(b"start "),
        Piece::Number(u64::from(v)),
        Piece::Text(b" "),
        Piece::Text(&buffer[..digits]),
        Piece::Text(b"\n"),
    ]);
}

/// Writes the state of node `v`, if it is correct at first.
fn put_first_start<K: Sink>(writer: &mut Writer<'_, K>, runner: &mut Runner<NoOverlay>, v: u32)
    requires { HasNode runner.old v }
    ensures text { Writes K.told (first_start runner.old.script runner.old.states v)
        writer.old writer.new }
    ensures same { runner.new ≡ runner.old }
{
    if runner.script().faulty_at(0).contains(v) {
        return;
    }
    put_start(writer, runner, v);
}

/// Writes the states of the nodes that are correct at first, which are those of the runner's
/// configuration.
pub fn put_first_starts<K: Sink>(writer: &mut Writer<'_, K>, runner: &mut Runner<NoOverlay>)
    requires sized { shape_nodes runner.old.script.shape ≡ plan_nodes runner.old.plan }
    ensures text { Writes K.told
        (first_starts runner.old.script (plan_nodes runner.old.plan) runner.old.states)
        writer.old writer.new }
    ensures same { runner.new ≡ runner.old }
{
    for v in 0..runner.nodes() {
        put_first_start(writer, runner, v);
    }
}

/// Whether a node is put into a state: it is correct, and it was faulty, or an era hits it.
fn put_by(bad: bool, was: bool, hit: bool) -> bool
    ensures { result ≡ (not bad && (was || hit)) }
{
    !bad && (was || hit)
}

/// Whether the state of node `v` is stated when era `j` begins at configuration `t + 1`: it is
/// correct there, and was faulty before, or the era puts it into a state.
fn is_put(script: &Script, t: u64, j: usize, v: u32) -> bool
    requires { Begins script.now t j }
    ensures { (plan : Plan) → result ≡ is_put plan script.now t v }
{
    let bad = script.faulty_at(t + 1).contains(v);
    let was = script.faulty_at(t).contains(v);
    let hit = script.hits(j, v);
    put_by(bad, was, hit)
}

/// Writes the state of node `v`, if it is stated when era `j` begins with the runner's
/// configuration, `t + 1`.
fn put_start_if<K: Sink>(
    writer: &mut Writer<'_, K>,
    runner: &mut Runner<NoOverlay>,
    t: u64,
    j: usize,
    v: u32,
)
    requires begins { Begins runner.old.script t j }
    requires node { HasNode runner.old v }
    ensures text { Writes K.told (start_if runner.old.plan runner.old.script t runner.old.states v)
        writer.old writer.new }
    ensures same { runner.new ≡ runner.old }
{
    if !is_put(runner.script(), t, j, v) {
        return;
    }
    put_start(writer, runner, v);
}

/// Writes the states that are stated when era `j` begins with the runner's configuration, `t + 1`.
pub fn put_starts<K: Sink>(
    writer: &mut Writer<'_, K>,
    runner: &mut Runner<NoOverlay>,
    t: u64,
    j: usize,
)
    requires begins { Begins runner.old.script t j }
    requires sized { shape_nodes runner.old.script.shape ≡ plan_nodes runner.old.plan }
    ensures text { Writes K.told (starts_text runner.old.plan runner.old.script t runner.old.states)
        writer.old writer.new }
    ensures same { runner.new ≡ runner.old }
{
    for v in 0..runner.nodes() {
        put_start_if(writer, runner, t, j, v);
    }
}
