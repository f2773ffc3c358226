ghost use Rattle.std.specs.Prelude.{◌≡◌, ◌≤◌};
ghost use Rattle.layer_runner.specs.SlotTexts.{lead_output, counts_at, may_end_at, ends_at};
ghost use Rattle.adversary_script.specs.Scripts.{most_rounds};

use adversary_script::Script;
use counter_core::Overlay;
use layer_laws::{Play, lowest_correct};

/// What the correct node of the lowest id shows in the play's configuration.
pub fn lead_output<O: Overlay, P: Play<O>>(play: &P) -> u64
    ensures { result ≡ lead_output (P.position play.now).counter (P.position play.now).script
        (P.position play.now).at (P.position play.now).scene.states }
{
    play.facts();
    let faulty = play.script().faulty_at(play.at());
    play.output(lowest_correct(play.nodes(), faulty))
}

/// Whether a slot of so many rounds that begins in configuration `t` counts: later than the bound
/// after the beginning of its era, and to its end in that era and within the rounds.
fn counts(script: &Script, bound: u64, length: u64, t: u64) -> bool
    requires short { length ≤ 1000 }
    requires few { t ≤ most_rounds }
    ensures { result ≡ counts_at bound script.now length t }
{
    let era = script.era_of(t);
    t.saturating_sub(script.era_start(era)) > bound
        && script.era_of(t + length) == era
        && t + length <= script.rounds()
}

/// Whether a slot that counts and began in a configuration that is shown may end in configuration
/// `at`.
fn may_end(script: &Script, bound: u64, length: u64, at: u64) -> bool
    requires short { length ≤ 1000 }
    ensures { result ≡ may_end_at bound script.now length at }
{
    let _rounds = script.rounds();
    let (first, last) = script.shown();
    if at < first + length || last + length < at {
        return false;
    }
    counts(script, bound, length, at - length)
}

/// Whether a slot of `length` rounds ends in the play's configuration of which a line is written:
/// it began in a configuration that is shown, later than the bound after the beginning of its era,
/// and ends in that era. `length` is at least 1 and at most 1000, and divides the counter's
/// modulus.
pub fn slot_ends<O: Overlay, P: Play<O>>(play: &P, length: u64) -> bool
    requires some { 1 ≤ length }
    requires short { length ≤ 1000 }
    ensures { result ≡ ends_at (P.position play.now).counter (P.position play.now).script length
        (P.position play.now).at (P.position play.now).scene.states }
{
    may_end(play.script(), play.bound(), length, play.at()) && lead_output(play) % length == 0
}
