//! Traces the run that a runner plays.

ghost use Rattle.std.specs.Prelude.{◌≡◌, ◌<◌, ◌≤◌, true, nat_lt, All, length};
ghost use Rattle.construction.specs.Plans.{plan_nodes};
ghost use Rattle.texts.specs.Growth.{Puts};
ghost use Rattle.edge_io.specs.Writing.{Writes};
ghost use Rattle.round_runner.specs.Played.{heard_at};
ghost use Rattle.trace.specs.Desks.{HasRoom, IsFitFor};
ghost use Rattle.trace.specs.NodeTexts.{node_text};
ghost use Rattle.trace.specs.TraceTexts.{moment_text, trace_text};
ghost use Rattle.trace.specs.Wants.{IsAt, IsToTrace};

use crate::desks::TraceBuffers;
use crate::headings::Heading;
use crate::level_groups::LevelGroup;
use crate::level_lines::put_levels;
use crate::node_lines::put_state;
use crate::views::View;
use crate::wants::Want;
use counter_core::{Heard, NoOverlay};
use edge_io::{Sink, WriteFault, Writer};
use round_runner::Runner;
use sync_types::NodeState;

/// Lays what node `v` hears into its places, and answers whether a round follows, in which it hears
/// that.
fn hear(runner: &mut Runner<NoOverlay>, v: u32, heard: &mut [NodeState]) -> bool
    requires node { v < plan_nodes runner.old.plan }
    requires room { HasRoom (plan_nodes runner.old.plan) runner.old.script.shape.depth
        heard.old }
    ensures hears { result ≡ nat_lt runner.old.at runner.old.script.rounds }
    ensures heard { result ≡ true
        → heard.new ≡ heard_at runner.old.script runner.old.at runner.old.states v }
    ensures room { HasRoom (plan_nodes runner.old.plan) runner.old.script.shape.depth
        heard.new }
    ensures same { runner.new ≡ runner.old }
{
    if runner.rounds_left() == 0 {
        return false;
    }
    runner.hear(v, heard);
    true
}

/// Writes the lines of node `v` in the runner's configuration, which lies on the desk.
fn put_node_lines<K: Sink>(
    writer: &mut Writer<'_, K>,
    runner: &mut Runner<NoOverlay>,
    v: u32,
    desk: &mut TraceBuffers,
)
    requires node { v < plan_nodes runner.old.plan }
    requires desk { IsFitFor runner.old desk.old }
    requires laid { desk.old.config.items ≡ runner.old.states }
    ensures lines { Writes K.told (node_text runner.old.plan runner.old.script runner.old.at
        runner.old.states v) writer.old writer.new }
    ensures same { runner.new ≡ runner.old }
    ensures desk { IsFitFor runner.old desk.new }
    ensures laid { desk.new.config.items ≡ desk.old.config.items }
{
    let hears = hear(runner, v, &mut desk.heard);
    let at = runner.at();
    let faulty = runner.script().faulty_at(at);
    let view = View {
        heading: Heading {
            at,
            node: v,
            faulty: faulty.contains(v),
        },
        faulty,
        config: &desk.config,
        hears,
    };
    let all = LevelGroup {
        view: &view,
        levels: &desk.levels,
        place: v,
        heard: &Heard::of(&desk.heard),
    };
    put_state(writer, &all);
    put_levels(writer, &all, &mut desk.room);
}

/// Writes the lines of these nodes in the runner's configuration.
fn put_moment<K: Sink>(
    writer: &mut Writer<'_, K>,
    runner: &mut Runner<NoOverlay>,
    nodes: &[u32],
    desk: &mut TraceBuffers,
)
    requires nodes { All (λ v. v < plan_nodes runner.old.plan) nodes.now }
    requires desk { IsFitFor runner.old desk.old }
    ensures lines { Writes K.told (moment_text runner.old.plan runner.old.script nodes.now
        runner.old.at runner.old.states) writer.old writer.new }
    ensures same { runner.new ≡ runner.old }
    ensures desk { IsFitFor runner.old desk.new }
{
    runner.lay_states(&mut desk.config);
    for i in 0..nodes.len() {
        put_node_lines(writer, runner, nodes[i], desk);
    }
}

/// Plays so many rounds.
fn play(runner: &mut Runner<NoOverlay>, rounds: u64)
    requires start { IsToTrace runner.old }
    requires enough { rounds ≤ runner.old.script.rounds }
    ensures { IsAt runner.old rounds runner.new }
{
    for _ in 0..rounds {
        runner.round();
    }
}

/// Writes the lines of these nodes in the wanted configurations.
fn put_moments<K: Sink>(
    writer: &mut Writer<'_, K>,
    runner: &mut Runner<NoOverlay>,
    want: Want,
    nodes: &[u32],
    desk: &mut TraceBuffers,
)
    requires start { IsToTrace runner.old }
    requires within { want.last ≤ runner.old.script.rounds }
    requires nodes { All (λ v. v < plan_nodes runner.old.plan) nodes.now }
    requires desk { IsFitFor runner.old desk.old }
    ensures { Writes K.told (trace_text runner.old.plan runner.old.script nodes.now want.first
        want.last) writer.old writer.new }
{
    let (first, last) = (want.first(), want.last());
    play(runner, first);
    for _ in first..last {
        put_moment(writer, runner, nodes, desk);
        if writer.has_failed() {
            return;
        }
        runner.round();
    }
    put_moment(writer, runner, nodes, desk);
}

/// Plays a script up to the last wanted configuration, and writes the lines of these nodes in the
/// wanted ones. It takes no memory. The runner is at configuration 0, and the desk was made for its
/// plan. `WriteFault` comes if the sink counted one; a prefix of the text was then taken.
pub fn put_trace<K: Sink>(
    sink: &mut K,
    runner: &mut Runner<NoOverlay>,
    want: Want,
    nodes: &[u32],
    desk: &mut TraceBuffers,
) -> Result<(), WriteFault>
    requires start { IsToTrace runner.old }
    requires within { want.last ≤ runner.old.script.rounds }
    requires nodes { All (λ v. v < plan_nodes runner.old.plan) nodes.now }
    requires desk { IsFitFor runner.old desk.old }
    ensures { Puts result (trace_text runner.old.plan runner.old.script nodes.now want.first
        want.last) (K.told sink.old) (K.told sink.new) }
{
    let mut writer = Writer::new(sink);
    put_moments(&mut writer, runner, want, nodes, desk);
    writer.finish()
}
