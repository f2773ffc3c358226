ghost use Rattle.std.specs.Prelude.{◌≡◌, ◌↔◌, ◌≤◌, ◌+◌, ◌-◌, true, None, length};
ghost use Rattle.construction.specs.Plans.{plan_depth};
ghost use Rattle.adversary_script.specs.Eras.{faulty_of_era};
ghost use Rattle.run_explanations.specs.Explanations.{IsExplanation, IsFirstOrNone, era_begin};
ghost use Rattle.run_explanations.specs.Explanations.{explanation_of, is_faulty, seen_at};
ghost use Rattle.round_runner.specs.Known.{KnowsLocks};
ghost use Rattle.run_explanations.specs.Checking.{IsWithinWindow, is_of};
ghost use Rattle.run_explanations.specs.Searching.{no_stretch, stretched, stretch_before};
ghost use Rattle.run_explanations.specs.Searching.{found_before};
ghost use Rattle.run_explanations.specs.Playing.{IsToPlay, IsToRead, IsRead, IsEnough, HasPlayed};
ghost use Rattle.run_explanations.specs.Playing.{HasTested, taken};

use crate::explanations::Explanation;
use crate::laws::found_is_first;
use crate::searching::{LeaderStreak, Window, begins_phase, explained_from, next_part, stretched};
use crate::seeing::TopLevelView;
use crate::tops::{TopLevel, top_of};
use adversary_script::Script;
use counter_core::NoOverlay;
use plan_numbers::Plan;
use round_runner::Runner;
use round_runner::laws::bare_runners_are_played;
use sync_types::FaultSet;

/// What a search has come to: the stretch that ends with the last configuration that was taken, and
/// what was found.
#[derive(Clone, Copy, Debug)]
pub(crate) struct Search {
    /// The stretch.
    pub stretch: LeaderStreak,
    /// The first explanation.
    pub found: Option<Explanation>,
}

/// The nodes that are faulty in the last era.
fn last_faulty(script: &Script) -> &FaultSet
    ensures { result.now.ids ≡ faulty_of_era script.now (length script.now.eras) }
{
    script.era_faulty(script.eras() - 1)
}

/// The first configuration of the last era.
fn last_begin(script: &Script) -> u64
    ensures value { result ≡ era_begin script.now }
    ensures within { result ≤ script.now.rounds }
{
    let _rounds = script.rounds();
    script.era_start(script.eras() - 1)
}

/// The stretch that ends with the runner's configuration, after this one, which ends before it.
fn next_stretch(stretch: LeaderStreak, top: TopLevel, runner: &Runner<NoOverlay>) -> LeaderStreak
    requires read { IsRead top.numbers runner.now }
    requires few { stretch.count ≤ runner.now.at }
    ensures { result ≡ stretched top.numbers.beat stretch
        (seen_at runner.now.plan runner.now.script runner.now.at) }
{
    bare_runners_are_played();
    let script = runner.script();
    let _rounds = script.rounds();
    let faulty = last_faulty(script);
    let sight = TopLevelView {
        top,
        faulty,
        runner,
    };
    stretched(top, stretch, sight.see())
}

/// Takes the runner's configuration.
fn take(search: Search, top: TopLevel, runner: &Runner<NoOverlay>) -> Search
    requires read { IsRead top.numbers runner.now }
    requires few { search.stretch.count ≤ runner.now.at }
    ensures { result ≡ taken top.numbers runner.now.plan runner.now.script runner.now.at search }
{
    let stretch = next_stretch(search.stretch, top, runner);
    match search.found {
        Some(found) => {
            return Search {
                stretch,
                found: Some(found),
            };
        }
        None => {}
    }
    let script = runner.script();
    let faulty = last_faulty(script);
    let found = explained_from(top, faulty, script.rounds(), runner.at(), stretch);
    Search { stretch, found }
}

/// A stretch of no configuration.
fn no_stretch() -> LeaderStreak
    ensures { result ≡ no_stretch }
{
    LeaderStreak {
        seen: None,
        count: 0,
    }
}

/// A search that has not begun.
fn begun() -> Search
    ensures { result ≡ record { stretch = no_stretch; found = None } }
{
    Search {
        stretch: no_stretch(),
        found: None,
    }
}

/// Goes on to the end of the window that begins with configuration `window`, and answers the
/// stretch that ends there, of the configurations from that one on.
fn look_over(top: TopLevel, window: u64, runner: &mut Runner<NoOverlay>) -> LeaderStreak
    requires start { IsToRead top.numbers runner.old }
    requires end { window + top.numbers.beat ≤ runner.old.script.rounds + 1 }
    ensures stretch { result ≡ stretch_before top.numbers.beat window
        (seen_at runner.old.plan runner.old.script) (window + top.numbers.beat) }
    ensures played { HasPlayed runner.old (window + top.numbers.beat - 1) runner.new }
{
    runner.skip_to(window);
    let mut stretch = no_stretch();
    for _ in 0..top.numbers.beat - 1 {
        stretch = next_stretch(stretch, top, runner);
        runner.round();
    }
    next_stretch(stretch, top, runner)
}

/// Whether what is left to play would change nothing: an explanation was found, and the first
/// locked configuration of each era is known; or no round is left.
fn is_enough(search: Search, runner: &Runner<NoOverlay>) -> bool
    ensures { (result ≡ true) ↔ IsEnough search runner.now }
{
    runner.at() == runner.script().rounds() || search.found.is_some() && runner.knows_locks()
}

/// Goes on to the last era, plays as many of its rounds as change something, and answers its first
/// explanation.
fn first_found(top: TopLevel, runner: &mut Runner<NoOverlay>) -> Option<Explanation>
    requires { IsToRead top.numbers runner.old }
    ensures found { result ≡ found_before top.numbers.beat (is_faulty runner.old.script)
        runner.old.script.rounds (era_begin runner.old.script)
        (seen_at runner.old.plan runner.old.script) (runner.old.script.rounds + 1) }
    ensures played { HasPlayed runner.old runner.new.at runner.new }
    ensures within { runner.new.at ≤ runner.old.script.rounds }
    ensures knows { KnowsLocks runner.new }
{
    let begin = last_begin(runner.script());
    runner.skip_to(begin);
    let mut search = begun();
    while !is_enough(search, runner) {
        search = take(search, top, runner);
        runner.round();
    }
    take(search, top, runner).found
}

/// Plays as much of a script as it takes to know why its last era locks, and answers the first
/// explanation: that of the first window that has one, and of the first phase in it. None comes
/// exactly if there is none. It [skips](Runner::skip_to) to the last era, and plays that until
/// there is an explanation and the first locked configuration of each era is known. It takes no
/// memory.
///
/// The plan has a level, and the runner is one of this plan, at configuration 0.
pub fn first_explanation(plan: &Plan, runner: &mut Runner<NoOverlay>) -> Option<Explanation>
    requires level { 1 ≤ plan_depth plan.now }
    requires start { IsToPlay plan.now runner.old }
    ensures first { IsFirstOrNone plan.now runner.old.script result }
    ensures value { result ≡ explanation_of plan.now runner.old.script }
    ensures played { HasPlayed runner.old runner.new.at runner.new }
    ensures within { runner.new.at ≤ runner.old.script.rounds }
    ensures knows { KnowsLocks runner.new }
{
    found_is_first();
    plan.facts();
    first_found(top_of(plan), runner)
}

/// Goes on to the end of a script, and answers the first explanation why its last era locks, as
/// [`first_explanation`] does. None comes exactly if there is none. It [skips](Runner::skip_to)
/// what it can. It takes no memory.
///
/// The plan has a level, and the runner is one of this plan, at configuration 0.
pub fn explain(plan: &Plan, runner: &mut Runner<NoOverlay>) -> Option<Explanation>
    requires level { 1 ≤ plan_depth plan.now }
    requires start { IsToPlay plan.now runner.old }
    ensures first { IsFirstOrNone plan.now runner.old.script result }
    ensures value { result ≡ explanation_of plan.now runner.old.script }
    ensures played { HasPlayed runner.old runner.old.script.rounds runner.new }
{
    let found = first_explanation(plan, runner);
    let rounds = runner.script().rounds();
    runner.skip_to(rounds);
    found
}

/// Whether a window and a phase are within the last era, and the phase within the window.
fn fits(top: TopLevel, from: u64, rounds: u64, explanation: Explanation) -> bool
    ensures { (result ≡ true) ↔ IsWithinWindow top.numbers.beat from rounds explanation }
{
    from <= explanation.window
        && explanation.window <= rounds
        && top.numbers.beat - 1 <= rounds - explanation.window
        && explanation.window <= explanation.phase
        && explanation.phase - explanation.window <= top.numbers.beat - 3
}

/// Whether an explanation is that of the window which ends with a stretch.
fn is_of(top: TopLevel, script: &Script, stretch: LeaderStreak, explanation: Explanation) -> bool
    requires { IsWithinWindow top.numbers.beat 0 script.now.rounds explanation }
    ensures { result ≡ is_of top.numbers.beat (is_faulty script.now) script.now.rounds stretch
        explanation }
{
    let Some(seen) = stretch.seen else {
        return false;
    };
    let last = script.rounds();
    let window = Window {
        at: explanation.window,
        leader: seen.leader,
        part: next_part(top, seen.part),
    };
    let x = explanation.phase - explanation.window;
    top.numbers.beat <= stretch.count
        && seen.leader == explanation.leader
        && begins_phase(top, last_faulty(script), last, window, x)
        && (window.part + x) % top.numbers.beat / 3 == u64::from(explanation.king)
}

/// Goes on to the end of a window, and answers whether an explanation holds: exactly if it explains
/// that the last era locks. Its numbers may be any; if its window and phase do not fit into the
/// last era, nothing is played. Up to the window it [skips](Runner::skip_to) what it can. It takes
/// no memory.
///
/// The plan has a level, and the runner is one of this plan, at configuration 0.
pub fn check_explanation(
    plan: &Plan,
    runner: &mut Runner<NoOverlay>,
    explanation: &Explanation,
) -> bool
    requires level { 1 ≤ plan_depth plan.now }
    requires start { IsToPlay plan.now runner.old }
    ensures exact { (result ≡ true) ↔ IsExplanation plan.now runner.old.script explanation.now }
    ensures played { HasTested plan.now explanation.now runner.old runner.new }
{
    plan.facts();
    let script = runner.script();
    let from = last_begin(script);
    let rounds = script.rounds();
    let top = top_of(plan);
    if !fits(top, from, rounds, *explanation) {
        return false;
    }
    let stretch = look_over(top, explanation.window, runner);
    is_of(top, runner.script(), stretch, *explanation)
}
