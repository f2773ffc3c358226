//! What holds of every input, whatever becomes of it. Each function does nothing: its clause is the
//! law.

ghost use Rattle.promises.specs.Completeness.{UndisturbedIsDefined, PlainIsDefined, RoomIsDefined};
ghost use Rattle.promises.specs.Completeness.{CutsAreUnseen};
ghost use Rattle.promises.specs.Laws.{AcceptedStabilise, AcceptedPlansSettle, PromiseIsKept};
ghost use Rattle.promises.specs.DemoLaws.{DemoIsAccepted, DemoIsAnswered, LiarsAreSpread};

use crate::run_laws::{plain_scripts_are_played, texts_are_written};
use plan_laws::laws::{
    each_has_one_next, every_plan_settles, locked_runs_count, locks_at_bound, versions_agree,
};
use round_runner::laws::{
    each_is_of_one_era, eras_are_runs, eras_count, eras_lock, eras_stay_locked,
};
use run_explanations::laws::{explained_eras_lock, found_is_first, long_eras_are_explained};

/// Every accepted plan settles. No run of it can come to an end, each is locked at the bound, and
/// from any locked configuration on it stays so and counts. Its texts of both versions are of one
/// counter.
pub fn accepted_stabilise()
    ensures { AcceptedStabilise }
{
    every_plan_settles();
    each_has_one_next();
    locks_at_bound();
    locked_runs_count();
    versions_agree();
}

/// If the plan part of an input is accepted, the plan does so.
pub fn accepted_plans_settle()
    ensures { AcceptedPlansSettle }
{
    accepted_stabilise();
}

/// If an input is a plan and a script, what is played has the script's starts, faulty sets and
/// lies, and all rows that are shown are played ones. What is written has just its lines. What is
/// played of each era is a run of the plan with few faulty nodes; what is written of it counts from
/// the bound on, and from its first locked configuration on, to the era's end, and is locked from
/// there to it. What is written of why the last one locks is its first explanation, and it is
/// locked from the end of that phase on; of a plan without levels it is a line.
pub fn promise_is_kept()
    ensures { PromiseIsKept }
{
    plain_scripts_are_played();
    texts_are_written();
    each_is_of_one_era();
    eras_are_runs();
    eras_lock();
    eras_count();
    eras_stay_locked();
    explained_eras_lock();
    long_eras_are_explained();
    found_is_first();
}

/// A call of `counterlab` whose source tells its bytes, and in which no fault is counted, has the
/// outcome that is defined for these bytes, or wants memory and writes nothing. Words outside the
/// table want none.
pub fn undisturbed_is_defined()
    ensures { UndisturbedIsDefined }
{}

/// So has every call over a source and a sink that count no faults, like `PlainSource` and
/// `NullSink`.
pub fn plain_is_defined()
    ensures { PlainIsDefined }
{}

/// So has every call over such a source and a `MemSink` of which no call is to fail, and that has
/// room for the text.
pub fn room_is_defined()
    ensures { RoomIsDefined }
{}

/// The outcome depends on the bytes alone, and not on how the reads cut them: two such calls with
/// the same words over the same bytes answer one status and write one text, unless one of them
/// wants memory.
pub fn cuts_are_unseen()
    ensures { CutsAreUnseen }
{}

/// The text that `demo` makes is a plan and a script for every seed, so that the promise holds of
/// what is written; its rows lie after the bound, and three nodes say noise in all rounds, whose
/// key has the seed. Which nodes these are has three choices, by the seed. No refusal is answered
/// to `demo` and a number.
pub fn demo_is_answered()
    ensures accepted { DemoIsAccepted }
    ensures answered { DemoIsAnswered }
    ensures liars { LiarsAreSpread }
{}
