//! Does what the words ask for.

ghost use Rattle.std.specs.Prelude.{map, string_bytes};
ghost use Rattle.choose.specs.Requests.{request_of, HasFitWant, IsRoom};
ghost use Rattle.choose.specs.Conduct.{Answers, DoesAsked, Explains, ExplainsWants};
ghost use Rattle.choose.specs.FrontText.{TextsArePlans};
ghost use Rattle.choose.specs.FrontsOfBothText.{HalvingTextsArePlans};
ghost use Rattle.choose.specs.Shortages.{ModulusDecidesNothing};
ghost use Rattle.choose.specs.Compared.{BoostingIsOutdone};
ghost use Rattle.choose.specs.ChoicesWorked.{ChoicesAreWorked};
ghost use Rattle.choose.specs.Limits.{NodesEndTables};
ghost use Rattle.choose.specs.declared.requests.Request.TheVariants as request;
ghost use Rattle.plan_finder.specs.FindPart.{IsFit};

use crate::fronts::front;
use crate::fronts_of_both::front_of_both;
use crate::laws::{
    boosting_is_outdone, choices_are_worked, halving_texts_are_plans, modulus_decides_nothing,
    nodes_end_tables, texts_are_plans,
};
use crate::most_faults::most_plan;
use crate::reasons::ChooseError;
use crate::requests::{Request, Room, Scope, request_of};
use crate::shortages::{shortage_of, write_shortage};
use crate::writing::{write_front, write_last_plan};
use crate::writing_both::{write_both_front, write_both_plan};
use edge_io::{Sink, put_all};
use plan_finder::Want;
use program_words::{Asked, ProgramError, asked_by};
use std::alloc::Global;

/// How the program is used.
const HELP: &[u8] = b"usage: choose [boosting] FAULTS MODULUS [MOST_NODES] [plan]\n\
\x20      choose within NODES BOUND MODULUS [plan]\n\
    Writes the front of nodes and bound of the plans that tolerate FAULTS\n\
    faults or more (0 to 85), count by MODULUS (2 to 2^40) and have at\n\
    most MOST_NODES nodes (1 to 256; left out 256): a line for each plan,\n\
    with more nodes and a lesser bound than the one before, or none.\n\
    boosting: of the plans of counterlab alone, not of halvinglab.\n\
    plan: the plan of the last line alone, in lines.\n\
    within: a plan that tolerates the most faults of all plans with at most\n\
    NODES nodes (1 to 256) and a bound of at most BOUND rounds.\n";

/// Writes the lines of a front for these wants, or `none`.
fn write_lines<K: Sink>(
    alloc: Global,
    scope: Scope,
    want: &Want,
    sink: &mut K,
) -> Result<(), ChooseError>
    requires { IsFit want.now }
    ensures { Answers (request.Front scope want.now) result (K.told sink.old) (K.told sink.new) }
{
    match scope {
        Scope::Both => {
            let plan = front_of_both(alloc, want.faults, want.modulus, want.most)?;
            Ok(write_both_front(&plan, sink)?)
        }
        Scope::Boosting => {
            let plans = front(alloc, want.faults, want.modulus, want.most)?;
            Ok(write_front(&plans, sink)?)
        }
    }
}

/// Writes the text of the last plan of a front for these wants, or `none`.
fn write_plan_alone<K: Sink>(
    alloc: Global,
    scope: Scope,
    want: &Want,
    sink: &mut K,
) -> Result<(), ChooseError>
    requires { IsFit want.now }
    ensures { Answers (request.LastPlan scope want.now) result (K.told sink.old) (K.told sink.new) }
{
    match scope {
        Scope::Both => {
            let plan = front_of_both(alloc, want.faults, want.modulus, want.most)?;
            Ok(write_both_plan(&plan, sink)?)
        }
        Scope::Boosting => {
            let plans = front(alloc, want.faults, want.modulus, want.most)?;
            Ok(write_last_plan(&plans, sink)?)
        }
    }
}

/// Writes the line of the plan of most faults within this room.
fn write_most<K: Sink>(alloc: Global, room: &Room, sink: &mut K) -> Result<(), ChooseError>
    requires { IsRoom room.now }
    ensures { Answers (request.Most room.now) result (K.told sink.old) (K.told sink.new) }
{
    let plan = most_plan(alloc, room.nodes, room.bound, room.modulus)?;
    Ok(write_both_front(&Some(plan), sink)?)
}

/// Writes the text of that plan.
fn write_most_plan<K: Sink>(alloc: Global, room: &Room, sink: &mut K) -> Result<(), ChooseError>
    requires { IsRoom room.now }
    ensures { Answers (request.MostPlan room.now) result (K.told sink.old) (K.told sink.new) }
{
    let plan = most_plan(alloc, room.nodes, room.bound, room.modulus)?;
    Ok(write_both_plan(&Some(plan), sink)?)
}

/// Writes what is asked for.
fn write_answer<K: Sink>(alloc: Global, request: Request, sink: &mut K) -> Result<(), ChooseError>
    requires { HasFitWant request }
    ensures { Answers request result (K.told sink.old) (K.told sink.new) }
{
    match request {
        Request::Front(scope, want) => write_lines(alloc, scope, &want, sink),
        Request::LastPlan(scope, want) => write_plan_alone(alloc, scope, &want, sink),
        Request::Most(room) => write_most(alloc, &room, sink),
        Request::MostPlan(room) => write_most_plan(alloc, &room, sink),
    }
}

/// Writes the line that says why there is no plan for these wants, and nothing if there is one.
fn write_why<K: Sink>(
    alloc: Global,
    scope: Scope,
    want: &Want,
    sink: &mut K,
) -> Result<(), ChooseError>
    requires { IsFit want.now }
    ensures { ExplainsWants scope want.now result (K.told sink.old) (K.told sink.new) }
{
    let shortage = shortage_of(alloc, scope, want)?;
    Ok(write_shortage(want, shortage, sink)?)
}

/// If the words ask for a front and there is no plan, writes why: how many nodes its faults take,
/// and how many faults its nodes tolerate. Else it writes nothing.
///
/// `NoMemory` comes only if a front is asked for, or its last plan, and nothing was written.
/// `WriteFault` comes only if the sink counted a fault; a prefix of the line was then taken.
/// `Usage` never comes.
pub fn explain_none<K: Sink>(
    alloc: Global,
    words: &[String],
    sink: &mut K,
) -> Result<(), ChooseError>
    ensures explains { Explains (request_of (map string_bytes words.now)) result
        (K.told sink.old) (K.told sink.new) }

    // There is no plan for these wants exactly if there is none, whatever it counts by.
    ensures modulus { ModulusDecidesNothing }

    // Where no boosting plan tolerates the faults, it is for the limit of 256 nodes: a plan that
    // keeps the other limits tolerates them.
    ensures limit { NodesEndTables }
{
    modulus_decides_nothing();
    nodes_end_tables();
    match request_of(words) {
        Some(Request::Front(scope, want)) => write_why(alloc, scope, &want, sink),
        Some(Request::LastPlan(scope, want)) => write_why(alloc, scope, &want, sink),
        _ => Ok(()),
    }
}

/// Writes what the words ask for. `FAULTS MODULUS [MOST_NODES]` asks for a front of nodes and bound
/// of the plans of both constructions: a line for each of its plans, or `none`. With `plan` after
/// these words it is the text of the last of its plans, or `none`. With `boosting` before them it
/// is a front of the plans of the boosting construction alone. `within NODES BOUND MODULUS` asks
/// for a plan of most faults of those of both constructions with at most so many nodes and a bound
/// of at most so many rounds: for its line, or with `plan` after these words for its text. `--help`
/// and `--version`, alone, ask for what they say.
///
/// FAULTS is at most 85, MODULUS from 2 to 2^40, MOST_NODES and NODES from 1 to 256, and MOST_NODES
/// 256 if it is left out. `Usage` comes exactly if the words ask for nothing; nothing was written
/// then. `NoMemory` comes only if a plan is asked for, and nothing was written. `WriteFault` comes
/// only if the sink counted a fault; a prefix of the answer was then taken.
pub fn choose<K: Sink>(alloc: Global, words: &[String], sink: &mut K) -> Result<(), ChooseError>
    // Which bytes were written: of a front, whose plans no accepted plan is better than, its lines
    // or the text of its last plan; or the line or the text of a plan of most faults.
    ensures does { DoesAsked (map string_bytes words.now) result
        (K.told sink.old) (K.told sink.new) }

    // And what is written of a plan is read as that plan.
    ensures read { TextsArePlans }
    ensures halving_read { HalvingTextsArePlans }

    // The halving plan of as many faults and the same modulus has no more nodes than a boosting
    // plan that tolerates a fault, and a lesser bound.
    ensures outdone { BoostingIsOutdone }

    // Worked values: what words ask for, and a line of each construction, letter by letter.
    ensures worked { ChoicesAreWorked }
{
    texts_are_plans();
    halving_texts_are_plans();
    boosting_is_outdone();
    choices_are_worked();
    match asked_by(words, request_of(words)) {
        Asked::Help => Ok(put_all(sink, HELP)?),
        Asked::Version => Ok(put_all(sink, b"choose 2.0\n")?),
        Asked::Request(request) => write_answer(alloc, request, sink),
        Asked::Nothing => Err(ProgramError::Usage),
    }
}
