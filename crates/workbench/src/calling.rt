ghost use Rattle.std.specs.Prelude.{◌≡◌, map, string_bytes, None};
ghost use Rattle.outcomes.specs.Commands.{command_of, manner};
ghost use Rattle.outcomes.specs.Conduct.{Does, LeavesUnread, LeavesUnmet, LeavesUntouched};
ghost use Rattle.promises.specs.CheckLaws.{CheckIsExact};
ghost use Rattle.promises.specs.Laws.{AcceptedPlansSettle, PromiseIsKept};
ghost use Rattle.promises.specs.RecordLaws.{RecordsAreChecked};
ghost use Rattle.promises.specs.LayerPromises.{HoldsAreKept, DecisionsAreKept, FiresAreKept};
ghost use Rattle.promises.specs.LayerPromises.{EntriesAreKept};
ghost use Rattle.promises.specs.LockPromises.{LocksAreKept};
ghost use Rattle.promises.specs.FindPromises.{LeastIsFound};
ghost use Rattle.promises.specs.PlanPromises.{TextsAreKept, TextsAreRead};
ghost use Rattle.promises.specs.EveryRun.{EveryRunKeeps};
ghost use Rattle.promises.specs.Printed.{Prints};
ghost use Rattle.promises.specs.NodePromises.{NodePromiseIsKept};

use crate::batch_word::batch;
use crate::check_word::check;
use crate::demo_word::demo;
use crate::node_word::node;
use edge_io::{Sink, Source, WriteFault};
use outcomes::{Command, Refusal, command_of, put_refusal};
use promises::call_promises::node_promise_is_kept;
use promises::certificate_laws::{check_is_exact, records_are_checked};
use promises::every_run::every_run_keeps;
use promises::find_promises::least_is_found;
use promises::laws::{accepted_plans_settle, promise_is_kept};
use promises::layer_promises::{
    decisions_are_kept, entries_are_kept, fires_are_kept, holds_are_kept,
};
use promises::lock_promises::locks_are_kept;
use promises::plan_promises::{texts_are_kept, texts_are_read};
use promises::printed_promises::promises_are_printed;
use std::alloc::Global;
use sync_types::Status;

/// Writes the line of usage.
fn usage<S: Source, K: Sink>(source: &mut S, sink: &mut K) -> Status
    ensures does { Does None result
        (S.left source.old) (S.left source.new) (S.faults source.old) (S.faults source.new)
        (K.told sink.old) (K.told sink.new) }
    ensures kept { source.new ≡ source.old }
    ensures unmet { LeavesUnmet result (S.met source.old) (S.met source.new) }
    ensures untouched { LeavesUntouched None result sink.old sink.new }
{
    match put_refusal(sink, Refusal::Usage) {
        Ok(()) => Status::Usage,
        Err(WriteFault) => Status::WriteFault,
    }
}

/// Does what the words ask for.
fn answer<S: Source, K: Sink>(
    alloc: Global,
    words: &[String],
    source: &mut S,
    sink: &mut K,
) -> Status
    ensures does { Does (command_of (map string_bytes words.now)) result
        (S.left source.old) (S.left source.new) (S.faults source.old) (S.faults source.new)
        (K.told sink.old) (K.told sink.new) }
    ensures unread { LeavesUnread (manner (command_of (map string_bytes words.now)))
        source.old source.new }
    ensures unmet { LeavesUnmet result (S.met source.old) (S.met source.new) }
    ensures untouched { LeavesUntouched (command_of (map string_bytes words.now)) result
        sink.old sink.new }
{
    match command_of(words) {
        None => usage(source, sink),
        Some(Command::Batch(command)) => batch(alloc, command, source, sink),
        Some(Command::Check) => check(alloc, source, sink),
        Some(Command::Node) => node(alloc, source, sink),
        Some(Command::Demo(seed)) => demo(alloc, seed, source, sink),
    }
}

/// All that the program does: reads what the words ask for, and writes the answer.
///
/// The words are the program's arguments. `node` writes while it reads: a cell when its header has
/// been read, which has at most 2^20 bytes, and one after each packet. `check` reads a certificate
/// of at most 2^44 bytes line by line, to its end or a line that is refused, and then writes.
/// `demo` with a number reads nothing: its input is the text that is made of the number. Each other
/// command reads the whole source, at most 2^20 bytes, before it writes. The status says what
/// became of the input:
///
/// - `Ok`: it was accepted, and all was written.
/// - `Usage`: the words are no command; nothing was read, and the line of usage was written.
/// - `PlanRefused`, `PartRefused`, `CertRefused`, `TableRefused`: exactly if it is refused, with
///   the first line that fails; the refusal's line was written.
/// - `CertFalse`: of `check` alone, exactly if it is a run certificate of which a row differs from
///   the run that it states, with the first such row; its line was written.
/// - `Cut`: of `node` alone, exactly if the input ends inside a packet; a cell was written at the
///   start and for each whole packet, and no line.
/// - `ReadFault`: only if the source counted a fault in this call, and just one, before its end
///   was met, and after bytes that do not show what decides, so never of `demo`; nothing was
///   written, but by `node`, once its header was read, its first cell and one for each whole packet
///   that was read.
/// - `WriteFault`: only if the sink counted one, and just one; a prefix of the answer was taken.
/// - `TooLong`: exactly if the byte after the limit was there, and, of `check` and of the header of
///   `node`, no line was refused before it; nothing was written. Of `node` also if there was a byte
///   of packet 1,000,001, and then all cells were written.
/// - `NoMemory`: memory was refused, before the first byte was written; never at `Usage`.
pub fn counterlab<S: Source, K: Sink>(
    alloc: Global,
    words: &[String],
    source: &mut S,
    sink: &mut K,
) -> Status
    // What was read and written, by the status.
    ensures does { Does (command_of (map string_bytes words.now)) result
        (S.left source.old) (S.left source.new) (S.faults source.old) (S.faults source.new)
        (K.told sink.old) (K.told sink.new) }

    // `demo` and words outside the table leave the source as it was, whatever it tells.
    ensures unread { LeavesUnread (manner (command_of (map string_bytes words.now)))
        source.old source.new }

    // No source is asked again after its end: if a read failed, no read of this call before it gave
    // nothing, unless the end was met before the call.
    ensures unmet { LeavesUnmet result (S.met source.old) (S.met source.new) }

    // And if nothing was to be written, the sink is as it was.
    ensures untouched { LeavesUntouched (command_of (map string_bytes words.now)) result
        sink.old sink.new }

    // If it ended well, and the source tells its bytes: what was read from them, that the text of
    // this was written, and that the word's promise is kept of it.
    ensures prints { Prints (command_of (map string_bytes words.now)) result
        (S.left source.old) (K.told sink.old) (K.told sink.new) }

    // Whatever becomes of the input: if its plan part is accepted, the plan settles, no run of it
    // can come to an end, and what is locked stays locked.
    ensures settles { AcceptedPlansSettle }

    // What `plan` and `upgrade` write of a plan is read back, and what `table` calls true is a
    // table.
    ensures texts { TextsAreKept }

    // Each of these values has a text that is read as it: a plan, its table, wants, a slot table,
    // inputs, requests, a log, a header and a script.
    ensures accepts { TextsAreRead }

    // If it is a plan and a script, what is played is a run of the plan, what is written of it
    // counts, and what `explain` writes is why it locks.
    ensures promise { PromiseIsKept }

    // What `check` answers to an input of at most 2^44 bytes is so, and the rows of what it calls
    // true count.
    ensures certificates { CheckIsExact }

    // If it is a plan and a script, what `record` writes is a true certificate, and `check` says
    // so.
    ensures records { RecordsAreChecked }

    // What the lines of `slots`, `consensus`, `fire` and `log` say, if it is a plan, such a part
    // and a script.
    ensures holds { HoldsAreKept }
    ensures decisions { DecisionsAreKept }
    ensures fires { FiresAreKept }
    ensures entries { EntriesAreKept }

    // And what holds of every run with such a layer, whatever its start and its lies.
    ensures every_run { EveryRunKeeps }

    // And what their lines of first locked configurations say.
    ensures locks { LocksAreKept }

    // What `find` answers, if its wants are read: the least plan, and the least costs, which bound
    // how soon any plan settles.
    ensures found { LeastIsFound }

    // N calls of `node`, over a window of rounds that begins in each at a packet of its own: if
    // each is given the cells that the correct ones write, and any bytes as those of few faulty
    // ones, what they write is a run of the plan, and counts. Once they are locked they stay so
    // even if cells are lost. A call that takes the place of another comes to count with them.
    ensures nodes { NodePromiseIsKept }
{
    promises_are_printed();
    accepted_plans_settle();
    texts_are_kept();
    texts_are_read();
    promise_is_kept();
    check_is_exact();
    records_are_checked();
    holds_are_kept();
    decisions_are_kept();
    fires_are_kept();
    entries_are_kept();
    every_run_keeps();
    locks_are_kept();
    least_is_found();
    node_promise_is_kept();
    answer(alloc, words, source, sink)
}
