//! The word `demo`: a plan and a script are made of a number, and answered as `run` answers them.

ghost use Rattle.std.specs.Prelude.{◌≡◌, Some};
ghost use Rattle.outcomes.specs.Conduct.{Does, LeavesUnmet, LeavesUntouched};

use answers::answer;
use edge_io::{Sink, Source};
use outcomes::{Batch, Command, demo_text};
use std::alloc::{AllocError, Global};
use sync_types::Status;

/// The word `demo` with a seed. Nothing is read of the source.
pub fn demo<S: Source, K: Sink>(alloc: Global, seed: u64, source: &mut S, sink: &mut K) -> Status
    ensures does { Does (Some (Command.Demo seed)) result
        (S.left source.old) (S.left source.new) (S.faults source.old) (S.faults source.new)
        (K.told sink.old) (K.told sink.new) }
    ensures kept { source.new ≡ source.old }
    ensures unmet { LeavesUnmet result (S.met source.old) (S.met source.new) }
    ensures untouched { LeavesUntouched (Some (Command.Demo seed)) result sink.old sink.new }
{
    let text = match demo_text(alloc, seed) {
        Ok(text) => text,
        Err(AllocError) => return Status::NoMemory,
    };
    answer(alloc, Batch::Run, text.as_bytes(), sink)
}
