//! What each command writes of an input: the text of what it is read as.

ghost use Rattle.std.specs.Prelude.{◌≡◌, MatchResult};
ghost use Rattle.outcomes.specs.Inputs.{plan_alone};
ghost use Rattle.outcomes.specs.declared.commands.Batch.TheVariants as batch;
ghost use Rattle.outcomes.specs.Answers.{answer_of};
ghost use Rattle.answers.specs.Ends.{Answers};
ghost use Rattle.answers.specs.LayeredReads.{layer_answer};
ghost use Rattle.answers.specs.Readings.{Refuses};

use crate::errors::{Unanswered, unread};
use crate::explaining::put_explained;
use crate::layered::{ToPlay, read_layered};
use crate::runners::runner_of;
use crate::scripted::read_scripted;
use counter_core::NoOverlay;
use edge_io::{Sink, put_all};
use layer_laws::CounterNumbers;
use layer_parts::LayerPart;
use plan_certificate::{read_table, write_table};
use plan_finder::{find, read_find, write_found};
use plan_numbers::Plan;
use plan_reader::{read_whole_plan, write_plan};
use run_checker::write_run;
use run_lines::{HoldLines, Rows, put_counting, put_played};
use slot_table::SlotTable;
use std::alloc::Global;
use sync_types::Part;

/// The run of a plan and a script.
pub fn run<K: Sink>(alloc: Global, input: &[u8], sink: &mut K) -> Result<(), Unanswered>
    ensures { Answers K.told result (answer_of batch.Run input.now) sink.old sink.new }
{
    let (_, mut runner) = read_scripted(alloc, input)?;
    put_counting(sink, &mut runner, &Rows)?;
    Ok(())
}

/// The certificate of that run.
pub fn record<K: Sink>(alloc: Global, input: &[u8], sink: &mut K) -> Result<(), Unanswered>
    ensures { Answers K.told result (answer_of batch.Record input.now) sink.old sink.new }
{
    let (plan, mut runner) = read_scripted(alloc, input)?;
    write_run(&plan, &mut runner, sink)?;
    Ok(())
}

/// Why its last era locks.
pub fn explain<K: Sink>(alloc: Global, input: &[u8], sink: &mut K) -> Result<(), Unanswered>
    ensures { Answers K.told result (answer_of batch.Explain input.now) sink.old sink.new }
{
    let (plan, mut runner) = read_scripted(alloc, input)?;
    put_explained(sink, &plan, &mut runner)?;
    Ok(())
}

/// The plan of an input of nothing else.
fn read_plan_alone(alloc: Global, input: &[u8]) -> Result<Plan, Unanswered>
    ensures { MatchResult result
        (λ plan. plan_alone input.now ≡ Ok plan)
        (λ error. Refuses error (plan_alone input.now)) }
{
    match read_whole_plan(alloc, input) {
        Ok(plan) => Ok(plan),
        Err(error) => Err(Unanswered::from(error)),
    }
}

/// The table of a plan.
pub fn plan<K: Sink>(alloc: Global, input: &[u8], sink: &mut K) -> Result<(), Unanswered>
    ensures { Answers K.told result (answer_of batch.Plan input.now) sink.old sink.new }
{
    let plan = read_plan_alone(alloc, input)?;
    write_table(&plan, sink)?;
    Ok(())
}

/// The text of a plan in version 2.
pub fn upgrade<K: Sink>(alloc: Global, input: &[u8], sink: &mut K) -> Result<(), Unanswered>
    ensures { Answers K.told result (answer_of batch.Upgrade input.now) sink.old sink.new }
{
    let plan = read_plan_alone(alloc, input)?;
    write_plan(&plan, 2, sink)?;
    Ok(())
}

/// That the text is the table of a plan.
pub fn table<K: Sink>(alloc: Global, input: &[u8], sink: &mut K) -> Result<(), Unanswered>
    ensures { Answers K.told result (answer_of batch.Table input.now) sink.old sink.new }
{
    read_table(alloc, input)?;
    put_all(sink, b"true\n")?;
    Ok(())
}

/// The plan of least bound that meets some wants, and the least costs.
pub fn find_least<K: Sink>(alloc: Global, input: &[u8], sink: &mut K) -> Result<(), Unanswered>
    ensures { Answers K.told result (answer_of batch.Find input.now) sink.old sink.new }
{
    let want = match read_find(input) {
        Ok(want) => want,
        Err(error) => return Err(unread(Part::Find, error)),
    };
    let found = find(alloc, want.faults, want.modulus, want.most)?;
    write_found(&found, sink)?;
    Ok(())
}

/// Who holds by a slot table, while a script is played.
pub fn slots<K: Sink>(alloc: Global, input: &[u8], sink: &mut K) -> Result<(), Unanswered>
    ensures { Answers K.told result (answer_of batch.Slots input.now) sink.old sink.new }
{
    let (table, read) = read_layered::<SlotTable>(alloc, input)?;
    let ToPlay {
        plan,
        shape,
        script,
    } = read;
    let mut runner = runner_of(alloc, &plan, shape, script, NoOverlay)?;
    put_counting(sink, &mut runner, &HoldLines { table })?;
    Ok(())
}

/// What comes of the layer that a part says, while a script is played.
pub fn play_layer<P: LayerPart, K: Sink>(
    alloc: Global,
    input: &[u8],
    sink: &mut K,
) -> Result<(), Unanswered>
    ensures { Answers K.told result (layer_answer P.NAME P.said_in P.registers P.words input.now)
        sink.old sink.new }
{
    let (layer, read) = read_layered::<P>(alloc, input)?;
    let ToPlay {
        plan,
        shape,
        script,
    } = read;
    let lines = P::lines(&CounterNumbers::of(&plan));
    let mut runner = runner_of(alloc, &plan, shape, script, layer)?;
    put_played(sink, &mut runner, &lines)?;
    Ok(())
}
