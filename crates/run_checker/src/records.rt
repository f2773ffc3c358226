ghost use Rattle.std.specs.Prelude.{◌≡◌, ◌<◌, ◌+◌, false, OnOk, OnErr};
ghost use Rattle.texts.specs.Growth.{Puts};
ghost use Rattle.edge_io.specs.Writing.{Writes};
ghost use Rattle.run_checker.specs.Certificates.{certificate_text};
ghost use Rattle.run_checker.specs.Recorded.{certificate_of, era_at};
ghost use Rattle.run_checker.specs.RunLines.{era_lines, turn_text, turns_text, record_text};
ghost use Rattle.run_checker.specs.Playing.{IsToRecord, StillPlays, HasPlayedOne, HasPlayedAll};
ghost use Rattle.adversary_script.specs.Scripts.{most_rounds};

use crate::head_lines::put_head;
use crate::lie_lines::put_lies;
use crate::row_lines::{put_era, put_row};
use crate::start_lines::{put_first_starts, put_starts};
use counter_core::NoOverlay;
use edge_io::{Sink, WriteFault, Writer};
use plan_numbers::Plan;
use round_runner::{Runner, beginning_at};

/// Writes the era that begins with the runner's configuration, `t + 1`, if one does.
fn put_era_lines<K: Sink>(writer: &mut Writer<'_, K>, runner: &mut Runner<NoOverlay>, t: u64)
    requires small { t < most_rounds }
    requires plays { IsToRecord runner.old }
    ensures text { Writes K.told (era_lines runner.old.plan runner.old.script t runner.old.states
        (era_at runner.old.plan runner.old.script (t + 1)))
        writer.old writer.new }
    ensures same { runner.new ≡ runner.old }
{
    match beginning_at(runner.script(), t + 1) {
        None => {}
        Some(j) => {
            put_era(writer, t + 1, runner.script().faulty_at(t + 1));
            put_starts(writer, runner, t, j);
        }
    }
}

/// Writes what is told in the coming round, plays it, and writes the era that begins after it and
/// the row.
fn put_turn<K: Sink>(writer: &mut Writer<'_, K>, runner: &mut Runner<NoOverlay>)
    requires round { runner.old.at < runner.old.script.rounds }
    requires plays { IsToRecord runner.old }
    ensures text { Writes K.told (turn_text runner.old.plan runner.old.script runner.old.at)
        writer.old writer.new }
    ensures played { HasPlayedOne runner.old runner.new }
{
    let t = runner.at();
    put_lies(writer, runner);
    runner.round();
    put_era_lines(writer, runner, t);
    put_row(writer, runner);
}

/// Writes what is told in all rounds, with their eras and rows. After a write that failed no round
/// is played.
fn put_turns<K: Sink>(writer: &mut Writer<'_, K>, runner: &mut Runner<NoOverlay>)
    requires start { runner.old.at ≡ 0 }
    requires plays { IsToRecord runner.old }
    ensures text { Writes K.told (turns_text runner.old.plan runner.old.script)
        writer.old writer.new }
    ensures played { writer.new.failed ≡ false → HasPlayedAll runner.old runner.new }
    ensures stopped { StillPlays runner.old runner.new }
{
    let rounds = runner.script().rounds();
    for _ in 0..rounds {
        if writer.has_failed() {
            return;
        }
        put_turn(writer, runner);
    }
}

/// Writes the lines of the certificate of a script's run.
fn put_record<K: Sink>(writer: &mut Writer<'_, K>, plan: &Plan, runner: &mut Runner<NoOverlay>)
    requires plan { runner.old.plan ≡ plan.now }
    requires start { runner.old.at ≡ 0 }
    requires plays { IsToRecord runner.old }
    ensures text { Writes K.told (record_text plan.now runner.old.script)
        writer.old writer.new }
    ensures played { writer.new.failed ≡ false → HasPlayedAll runner.old runner.new }
    ensures stopped { StillPlays runner.old runner.new }
{
    put_head(writer, plan, runner.script());
    put_first_starts(writer, runner);
    put_row(writer, runner);
    put_turns(writer, runner);
    writer.text(b"end\n");
}

/// Writes the text of the certificate of a script's run. The runner is at configuration 0, and
/// plays all rounds, so that it ends at the script's last configuration; `plan` is its plan. It
/// takes no memory.
///
/// `WriteFault` comes only if the sink counted a fault; a prefix of the text was then taken, and
/// the runner stopped at some configuration of the script.
pub fn write_run<K: Sink>(
    plan: &Plan,
    runner: &mut Runner<NoOverlay>,
    sink: &mut K,
) -> Result<(), WriteFault>
    requires plan { runner.old.plan ≡ plan.now }
    requires start { runner.old.at ≡ 0 }
    requires plays { IsToRecord runner.old }
    ensures text { Puts result (certificate_text (certificate_of plan.now runner.old.script))
        (K.told sink.old) (K.told sink.new) }
    ensures played { OnOk result (HasPlayedAll runner.old runner.new) }
    ensures stopped { OnErr result (StillPlays runner.old runner.new) }
{
    let mut writer = Writer::new(sink);
    put_record(&mut writer, plan, runner);
    writer.finish()
}
