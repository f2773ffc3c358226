//! Does what the words ask for.

ghost use Rattle.std.specs.Prelude.{◌≡◌, map, string_bytes, IfErr, IsErrOf};
ghost use Rattle.program_words.specs.Conduct.{LeavesUnread};
ghost use Rattle.halving_plan.specs.Laws.{EveryPlanSettles};
ghost use Rattle.halving_texts.specs.HalvingTexts.{HalvingTextIsWhole};
ghost use Rattle.halving_texts.specs.TableLaws.{TablesAreRead, OnlyTablesAreRead};
ghost use Rattle.halving_texts.specs.HeaderTexts.{HalvingHeaderTextIsRead};
ghost use Rattle.halving_texts.specs.NodePromises.{HalvingNodesKeepPromise, HalvingCallsAreProcesses};
ghost use Rattle.halving_texts.specs.NodePromises.{AnyHalvingInputs};
ghost use Rattle.halving_runs.specs.RunPromises.{RunsKeepPromise};
ghost use Rattle.halving_runs.specs.HoldPromises.{SlotsKeepPromise};
ghost use Rattle.halving_runs.specs.LayerPromises.{LayersKeepPromise};
ghost use Rattle.halving_runs.specs.EveryRun.{EveryRunKeeps};
ghost use Rattle.halving_runs.specs.ScriptInputs.{ScriptInputsAreRead};
ghost use Rattle.halvinglab.specs.Conduct.{DoesAsked, KeptAt, asked_of};
ghost use Rattle.halvinglab.specs.Worked.{WorkedValues};

use crate::asking::{write_help, write_version};
use crate::node_word::node;
use crate::reasons::LabError;
use crate::requests::{Request, request_of};
use crate::whole_word::answer_all;
use crate::worked::worked_values;
use edge_io::{Sink, Source};
use halving_plan::laws::every_plan_settles;
use halving_runs::laws::{every_run_keeps, runs_keep_promise, script_inputs_read_back};
use halving_texts::header_laws::header_texts_read_back;
use halving_texts::node_laws::{any_inputs, calls_are_processes, halving_nodes_keep_promise};
use halving_texts::{halving_texts_read_back, tables_read_back};
use program_words::{Asked, ProgramError, asked_by};
use std::alloc::Global;

/// Does what the words ask for. `plan` reads all of the input as a halving plan, which has at most
/// 2^20 bytes, and writes its table. `run` reads all of an input that is a halving plan and a
/// script for it, of at most 2^20 bytes together, plays the script, and writes the bound, a row of
/// each configuration that is shown, and the first locked configuration of each era. `slots` does
/// so with an input that has a slot table between them, and writes which nodes hold in place of
/// what they show. `consensus`, `fire` and `log` do so with an input that has between them inputs
/// to agree on, requests to fire or what a log has, and in place of rows write a line of each slot
/// that counts: what its nodes decide, which of them fire, or the entry that they put. `node` reads
/// a header, which has at most 2^20 bytes, and then packets, and writes the node's cell when the
/// header has been read, and one after each packet before it asks for more. `--help` and
/// `--version`, alone, read nothing, and write what they say.
///
/// `Usage` comes exactly if the words ask for nothing; nothing was read or written then. `Input`
/// names the first line of the input that fails, and why; the line of the refusal was written. At
/// `NoMemory` nothing was written, nor, by words that read all of their input, at `ReadFault` and
/// `TooLong`. Of `node`, at `ReadFault` the cells of the whole packets that were read were written;
/// `TooLong` comes if the header is too long, and nothing was written, or at the first byte of
/// packet 1,000,001, and all cells were. `Cut` comes of `node` alone, exactly if the input ends
/// inside a packet. `WriteFault` comes only if the sink counted a fault; a prefix of the answer was
/// then taken.
pub fn halvinglab<S: Source, K: Sink>(
    alloc: Global,
    words: &[String],
    source: &mut S,
    sink: &mut K,
) -> Result<(), LabError>
    // What was read, and which bytes were written, by how it ended.
    ensures does { DoesAsked (map string_bytes words.now) result
        (S.left source.old) (S.left source.new) (S.faults source.old) (S.faults source.new)
        (K.told sink.old) (K.told sink.new) }

    // The same of a source and a sink that tell nothing, and of the source's end.
    ensures unread { LeavesUnread (asked_of (map string_bytes words.now)) source.old source.new }
    ensures untouched { IfErr result (KeptAt (asked_of (map string_bytes words.now))
        sink.old sink.new) }
    ensures unmet { IsErrOf result ProgramError.ReadFault → S.met source.new ≡ S.met source.old }

    // A plan that is accepted settles by its bound, from any start and under any lies.
    ensures settles { EveryPlanSettles }

    // Its text is read as it is, and so is its table, and no other text is read as a table.
    ensures texts { HalvingTextIsWhole }
    ensures tables { TablesAreRead }
    ensures no_others { OnlyTablesAreRead }

    // Plans with their texts and tables, refusals, and what words ask for, letter by letter.
    ensures worked { WorkedValues }

    // The texts of a plan that is accepted and of a script for it are read as these, and so they
    // are with that of a slot table, of inputs to agree on, of requests to fire or of a log between
    // them. There are no other inputs: what any input is read as, such texts are read as.
    ensures scripts { ScriptInputsAreRead }

    // An input that is read as a plan and a script is an accepted plan, and a script for it. What
    // is played is the script's: its starts, its faulty nodes, its lies. Each era is a run of the
    // plan, and from T rounds into it to its end all correct nodes show one number, which grows by
    // one modulo C. The first locked configuration that is written of it is the first one, which is
    // T rounds into it at most, if it has so many; from each locked one on they stay locked.
    ensures runs { RunsKeepPromise }

    // So it is if a slot table is read with them, which is one for the plan's nodes and outputs. A
    // node's word is 1 exactly if the table gives it the output that it shows: from T rounds into
    // an era to its end that is one correct node at most, the holder of the output that all correct
    // ones show.
    ensures slots { SlotsKeepPromise }

    // So it is with a layer above the plan's counter, if inputs to agree on, requests to fire or
    // what a log has are read with them. What is played is the script's, and each era is a run with
    // the layer. In each slot that begins later than T rounds into an era and ends in it all
    // correct nodes decide one value, which is their common input if they have one; all of them
    // fire or none does, as they requested in the round before the slot if they did the same; or
    // they put one entry into their logs, which its owner commands if it is correct, so that since
    // such a slot they all have put the same. Just these slots have a line, if they begin in a
    // configuration that is shown, and its words say so.
    ensures layers { LayersKeepPromise }

    // Beyond scripts, of every run of an accepted plan, with a layer or without one, whatever its
    // start, its lies and what its nodes keep. From T on at most one correct node holds; each slot
    // that begins later ends with one decision, the common input of the round before it if there is
    // one; with all firing or none, as they requested in the round before it if they did the same;
    // and with one entry in all logs, which its owner commands if it is correct, so that logs grow
    // as one. Inputs and commands may change from round to round.
    ensures every_run { EveryRunKeeps }

    // N calls of `node`, over a window of rounds that begins in each at a packet of its own: if
    // each is given the cells that the correct ones write, and any bytes as those of few faulty
    // ones, what they write is a run of the plan, and counts. Once they are locked they stay so
    // even if cells are lost, whichever N - F correct ones each is given. A call that takes the
    // place of another comes to count with them.
    ensures nodes { HalvingNodesKeepPromise }

    // Each of them writes what a node of the plan writes that begins in the state which its header
    // states, and is given the packets after it.
    ensures processes { HalvingCallsAreProcesses }

    // Each node of each plan has a header, whose text is read as it is; and there are inputs of
    // such calls, whatever states the nodes begin in, and whatever the faulty ones send: of calls
    // that are given all cells, of some to which cells are lost, and of some of which one is
    // started anew, in any state, or goes on from the last cell that was written in its place.
    ensures headers { HalvingHeaderTextIsRead }
    ensures inputs { AnyHalvingInputs }
{
    every_plan_settles();
    halving_texts_read_back();
    tables_read_back();
    worked_values();
    script_inputs_read_back();
    runs_keep_promise();
    every_run_keeps();
    halving_nodes_keep_promise();
    calls_are_processes();
    header_texts_read_back();
    any_inputs();
    match asked_by(words, request_of(words)) {
        Asked::Help => Ok(write_help(sink)?),
        Asked::Version => Ok(write_version(sink)?),
        Asked::Request(Request::Whole(word)) => answer_all(alloc, word, source, sink),
        Asked::Request(Request::Node) => node(alloc, source, sink),
        Asked::Nothing => Err(ProgramError::Usage),
    }
}
