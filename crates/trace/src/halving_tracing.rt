//! Traces the run that a runner plays on a halving plan.

ghost use Rattle.std.specs.Prelude.{◌≡◌, ◌<◌, ◌≤◌, true, nat_lt, All};
ghost use Rattle.texts.specs.Growth.{Puts};
ghost use Rattle.edge_io.specs.Writing.{Writes};
ghost use Rattle.machine_runner.specs.Played.{heard_at};
ghost use Rattle.machine_runner.specs.Hearing.{HasRoom};
ghost use Rattle.machine_runner.specs.Runners.{states_of};
ghost use Rattle.halving_plan.specs.Laws.{machine_in};
ghost use Rattle.trace.specs.HalvingDesks.{IsDeskFor, runner_at};
ghost use Rattle.trace.specs.HalvingNodeTexts.{node_text};
ghost use Rattle.trace.specs.HalvingTraceTexts.{moment_text, trace_text};

use crate::group_lines::put_groups;
use crate::halving_desks::HalvingBuffers;
use crate::halving_node_lines::put_state;
use crate::headings::Heading;
use crate::sides::Side;
use crate::views::View;
use crate::wants::Want;
use counter_core::Heard;
use edge_io::{Sink, WriteFault, Writer};
use halving_plan::HalvingMachine;
use machine_runner::Runner;
use sync_types::NodeState;

/// Lays what node `v` hears into its places, and answers whether a round follows, in which it hears
/// that.
fn hear(runner: &mut Runner<'_, HalvingMachine>, v: u32, heard: &mut [NodeState]) -> bool
    requires node { v < (machine_in runner.old.machine).nodes }
    requires room { HasRoom runner.old.script heard.old }
    ensures hears { result ≡ nat_lt runner.old.at runner.old.script.rounds }
    ensures heard { result ≡ true
        → heard.new ≡ heard_at runner.old.script runner.old.at (states_of machine_in runner.old) v }
    ensures room { HasRoom runner.old.script heard.new }
    ensures same { runner.new ≡ runner.old }
{
    if runner.rounds_left() == 0 {
        return false;
    }
    runner.hear(v, heard);
    true
}

/// Writes the lines of node `v` in the runner's configuration, which lies on the desk.
fn put_node_lines<K: Sink>(
    writer: &mut Writer<'_, K>,
    runner: &mut Runner<'_, HalvingMachine>,
    v: u32,
    desk: &mut HalvingBuffers,
)
    requires node { v < runner.old.machine.nodes }
    requires desk { IsDeskFor runner.old.script desk.old }
    requires laid { desk.old.config.items ≡ states_of machine_in runner.old }
    ensures lines { Writes K.told (node_text runner.old.machine runner.old.script runner.old.at
        (states_of machine_in runner.old) v) writer.old writer.new }
    ensures same { runner.new ≡ runner.old }
    ensures desk { IsDeskFor runner.old.script desk.new }
    ensures laid { desk.new.config.items ≡ desk.old.config.items }
{
    runner.facts();
    let plan = runner.machine().plan();
    plan.facts();
    let hears = hear(runner, v, &mut desk.heard);
    let faulty = runner.faulty();
    let view = View {
        heading: Heading {
            at: runner.at(),
            node: v,
            faulty: faulty.contains(v),
        },
        faulty,
        config: &desk.config,
        hears,
    };
    put_state(writer, &plan, &view);
    let heard = Heard::of(&desk.heard);
    put_groups(
        writer,
        Side::Whole,
        &plan.whole(),
        &view,
        &heard,
        &mut desk.room,
    );
}

/// Writes the lines of these nodes in the runner's configuration.
fn put_moment<K: Sink>(
    writer: &mut Writer<'_, K>,
    runner: &mut Runner<'_, HalvingMachine>,
    nodes: &[u32],
    desk: &mut HalvingBuffers,
)
    requires nodes { All (λ v. v < runner.old.machine.nodes) nodes.now }
    requires desk { IsDeskFor runner.old.script desk.old }
    ensures lines { Writes K.told (moment_text runner.old.machine runner.old.script nodes.now
        runner.old.at (states_of machine_in runner.old)) writer.old writer.new }
    ensures same { runner.new ≡ runner.old }
    ensures desk { IsDeskFor runner.old.script desk.new }
{
    runner.lay_states(&mut desk.config);
    for i in 0..nodes.len() {
        put_node_lines(writer, runner, nodes[i], desk);
    }
}

/// Plays so many rounds.
fn play(runner: &mut Runner<'_, HalvingMachine>, rounds: u64)
    requires start { runner.old.at ≡ 0 }
    requires enough { rounds ≤ runner.old.script.rounds }
    ensures { runner.new ≡ runner_at runner.old rounds }
{
    for _ in 0..rounds {
        runner.round();
    }
}

/// Writes the lines of these nodes in the wanted configurations.
fn put_moments<K: Sink>(
    writer: &mut Writer<'_, K>,
    runner: &mut Runner<'_, HalvingMachine>,
    want: Want,
    nodes: &[u32],
    desk: &mut HalvingBuffers,
)
    requires start { runner.old.at ≡ 0 }
    requires within { want.last ≤ runner.old.script.rounds }
    requires nodes { All (λ v. v < runner.old.machine.nodes) nodes.now }
    requires desk { IsDeskFor runner.old.script desk.old }
    ensures { Writes K.told (trace_text runner.old.machine runner.old.script nodes.now want.first
        want.last) writer.old writer.new }
{
    let (first, last) = (want.first(), want.last());
    play(runner, first);
    for _ in first..last {
        put_moment(writer, runner, nodes, desk);
        if writer.has_failed() {
            return;
        }
        runner.round();
    }
    put_moment(writer, runner, nodes, desk);
}

/// Plays a script up to the last wanted configuration, and writes the lines of these nodes in the
/// wanted ones. It takes no memory. The runner is at configuration 0, and the desk was made for its
/// run. `WriteFault` comes if the sink counted one; a prefix of the text was then taken.
pub fn put_halving_trace<K: Sink>(
    sink: &mut K,
    runner: &mut Runner<'_, HalvingMachine>,
    want: Want,
    nodes: &[u32],
    desk: &mut HalvingBuffers,
) -> Result<(), WriteFault>
    requires start { runner.old.at ≡ 0 }
    requires within { want.last ≤ runner.old.script.rounds }
    requires nodes { All (λ v. v < runner.old.machine.nodes) nodes.now }
    requires desk { IsDeskFor runner.old.script desk.old }
    ensures { Puts result (trace_text runner.old.machine runner.old.script nodes.now want.first
        want.last) (K.told sink.old) (K.told sink.new) }
{
    let mut writer = Writer::new(sink);
    put_moments(&mut writer, runner, want, nodes, desk);
    writer.finish()
}
