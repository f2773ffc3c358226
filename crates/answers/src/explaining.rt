ghost use Rattle.std.specs.Prelude.{◌≡◌};
ghost use Rattle.texts.specs.Growth.{Puts};
ghost use Rattle.edge_io.specs.Writing.{Writes};
ghost use Rattle.round_runner.specs.Known.{KnowsLocks};
ghost use Rattle.outcomes.specs.ExplainText.{explain_text, explanation_lines, why_lines};
ghost use Rattle.answers.specs.ScriptedRuns.{IsToPlayAlone, HasPlayedAlone};

use counter_core::NoOverlay;
use edge_io::{Piece, Sink, WriteFault, Writer};
use plan_numbers::Plan;
use round_runner::Runner;
use run_explanations::{Explanation, first_explanation};
use run_lines::{put_bound, put_locks};

/// Writes an explanation, or that there is none.
fn put_explanation<K: Sink>(writer: &mut Writer<'_, K>, explanation: Option<Explanation>)
    ensures { Writes K.told (explanation_lines explanation) writer.old writer.new }
{
    let Some(e) = explanation else {
        return writer.text(b"explain none\n");
    };
    writer.pieces(&[
        Piece::Text(b"window "),
        Piece::Number(e.window),
        Piece::Text(b" leader "),
        Piece::Number(u64::from(e.leader)),
        Piece::Text(b"\nphase "),
        Piece::Number(e.phase),
        Piece::Text(b" king "),
        Piece::Number(u64::from(e.king)),
        Piece::Text(b"\n"),
    ]);
}

/// Plays until the first locked configuration of each era is known, and writes why the last era
/// locks.
fn put_why<K: Sink>(writer: &mut Writer<'_, K>, plan: &Plan, runner: &mut Runner<NoOverlay>)
    requires plan { runner.old.plan ≡ plan.now }
    requires start { IsToPlayAlone runner.old }
    ensures lines { Writes K.told (why_lines plan.now runner.old.script) writer.old writer.new }
    ensures played { HasPlayedAlone runner.old runner.new.at runner.new }
    ensures knows { KnowsLocks runner.new }
{
    if plan.depth() == 0 {
        runner.play_until_known();
        return writer.text(b"explain base\n");
    }
    put_explanation(writer, first_explanation(plan, runner));
}

/// Writes the lines of an explained run.
fn put_explained_lines<K: Sink>(
    writer: &mut Writer<'_, K>,
    plan: &Plan,
    runner: &mut Runner<NoOverlay>,
)
    requires plan { runner.old.plan ≡ plan.now }
    requires start { IsToPlayAlone runner.old }
    ensures { Writes K.told (explain_text plan.now runner.old.script) writer.old writer.new }
{
    put_bound(writer, plan.bound());
    put_why(writer, plan, runner);
    put_locks(writer, runner);
}

/// Writes what the word `explain` writes: the bound, why the last era locks, and the first locked
/// configuration of each era. It goes on until these and the explanation are known, skips what it
/// can of earlier eras, and takes no memory. The runner is one of this plan, at configuration 0.
pub fn put_explained<K: Sink>(
    sink: &mut K,
    plan: &Plan,
    runner: &mut Runner<NoOverlay>,
) -> Result<(), WriteFault>
    requires plan { runner.old.plan ≡ plan.now }
    requires start { IsToPlayAlone runner.old }
    ensures { Puts result (explain_text plan.now runner.old.script)
        (K.told sink.old) (K.told sink.new) }
{
    let mut writer = Writer::new(sink);
    put_explained_lines(&mut writer, plan, runner);
    writer.finish()
}
