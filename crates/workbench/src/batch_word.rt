//! The batch commands: all of the input is read, and then it is answered.

ghost use Rattle.std.specs.Prelude.{Some};
ghost use Rattle.outcomes.specs.Conduct.{Does, LeavesUnmet, LeavesUntouched};

use answers::answer;
use edge_io::{InputFault, Sink, Source, read_all};
use outcomes::{Batch, Command};
use std::alloc::Global;
use sync_types::Status;
use texts::LONGEST_INPUT;

/// A batch command.
pub fn batch<S: Source, K: Sink>(
    alloc: Global,
    command: Batch,
    source: &mut S,
    sink: &mut K,
) -> Status
    ensures does { Does (Some (Command.Batch command)) result
        (S.left source.old) (S.left source.new) (S.faults source.old) (S.faults source.new)
        (K.told sink.old) (K.told sink.new) }
    ensures unmet { LeavesUnmet result (S.met source.old) (S.met source.new) }
    ensures untouched { LeavesUntouched (Some (Command.Batch command)) result sink.old sink.new }
{
    let input = match read_all(alloc, source, LONGEST_INPUT) {
        Ok(input) => input,
        Err(InputFault::ReadFault) => return Status::ReadFault,
        Err(InputFault::TooLong) => return Status::TooLong,
        Err(InputFault::NoMemory) => return Status::NoMemory,
    };
    answer(alloc, command, &input, sink)
}
