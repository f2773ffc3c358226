ghost use Rattle.outcomes.specs.Answers.{answer_of};
ghost use Rattle.answers.specs.Ends.{Ends, Answers};

use crate::errors::Unanswered;
use crate::words::{explain, find_least, plan, play_layer, record, run, slots, table, upgrade};
use consensus_layer::Agreement;
use edge_io::{Sink, WriteFault};
use firing::Firing;
use outcomes::{Batch, put_refusal};
use replicated_log::Replica;
use std::alloc::Global;
use sync_types::Status;

/// Writes the text of what a command reads its input as.
fn put_answer<K: Sink>(
    alloc: Global,
    batch: Batch,
    input: &[u8],
    sink: &mut K,
) -> Result<(), Unanswered>
    ensures { Answers K.told result (answer_of batch input.now) sink.old sink.new }
{
    match batch {
        Batch::Run => run(alloc, input, sink),
        Batch::Record => record(alloc, input, sink),
        Batch::Explain => explain(alloc, input, sink),
        Batch::Plan => plan(alloc, input, sink),
        Batch::Upgrade => upgrade(alloc, input, sink),
        Batch::Table => table(alloc, input, sink),
        Batch::Find => find_least(alloc, input, sink),
        Batch::Slots => slots(alloc, input, sink),
        Batch::Consensus => play_layer::<Agreement, K>(alloc, input, sink),
        Batch::Fire => play_layer::<Firing, K>(alloc, input, sink),
        Batch::Log => play_layer::<Replica, K>(alloc, input, sink),
    }
}

/// Answers an input: its text is written, or the line of its refusal.
///
/// `WriteFault` comes if the sink counted one; a prefix of that was then taken. `NoMemory` comes if
/// memory was refused, before the sink is touched. Any other status is that of the answer.
pub fn answer<K: Sink>(alloc: Global, batch: Batch, input: &[u8], sink: &mut K) -> Status
    ensures { Ends K.told result (answer_of batch input.now) sink.old sink.new }
{
    match put_answer(alloc, batch, input, sink) {
        Ok(()) => Status::Ok,
        Err(Unanswered::NoMemory) => Status::NoMemory,
        Err(Unanswered::WriteFault) => Status::WriteFault,
        Err(Unanswered::Refused(refusal)) => match put_refusal(sink, refusal) {
            Ok(()) => refusal.status(),
            Err(WriteFault) => Status::WriteFault,
        },
    }
}
