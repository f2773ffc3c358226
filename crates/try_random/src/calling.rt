//! What the programs answer, beside what they should.

use crate::cases::Case;
use edge_io::{MemSink, PlainSource};
use halving_runs::{PlayError, Shown, play};
use halving_texts::HalvingNodes;
use node_words::{NodeError, serve_node};
use std::alloc::Global;
use texts::LONGEST_INPUT;
use workbench::counterlab;

/// Which program is called: by the workbench, or by the calls of halving plans.
#[derive(Clone, Copy)]
pub enum Program {
    Counterlab,
    Halvinglab,
}

/// The exit code of an answer that no case wants.
const UNWANTED: u8 = 255;

/// What a word of halving plans shows.
fn shown_of(word: &str) -> Shown {
    match word {
        "slots" => Shown::Holds,
        "consensus" => Shown::Decisions,
        "fire" => Shown::Fires,
        "log" => Shown::Entries,
        _ => Shown::Rows,
    }
}

/// Serves a node of a halving plan; the answer is the exit code.
fn serve(alloc: Global, input: &[u8], sink: &mut MemSink) -> u8 {
    let mut source = PlainSource::new(input);
    match serve_node::<HalvingNodes, _, _>(alloc, &mut source, sink) {
        Ok(_) => 0,
        Err(NodeError::Cut { .. }) => 9,
        Err(NodeError::TooLong) => 8,
        Err(_) => UNWANTED,
    }
}

/// Plays a script over a halving plan; the answer is the exit code.
fn play_halving(alloc: Global, case: &Case, sink: &mut MemSink) -> u8 {
    if case.input.len() > LONGEST_INPUT {
        return UNWANTED;
    }
    match play(alloc, shown_of(case.word), &case.input, sink) {
        Ok(()) => 0,
        Err(PlayError::Refused(_) | PlayError::NoMemory | PlayError::WriteFault) => UNWANTED,
    }
}

/// Asks the workbench; the answer is the exit code.
fn ask(alloc: Global, case: &Case, sink: &mut MemSink) -> anyhow::Result<u8> {
    let words = [String::from_str(alloc, case.word)?];
    let mut source = PlainSource::new(&case.input);
    Ok(counterlab(alloc, &words, &mut source, sink).code())
}

/// What is answered to a case: the exit code, and whether the bytes are those that are wanted.
/// There is room for one byte more.
fn answer(alloc: Global, case: &Case) -> anyhow::Result<(u8, bool)> {
    let room = case.wanted.len().saturating_add(1);
    let mut sink = MemSink::new(alloc, room, Vec::new(alloc), Vec::new(alloc))?;
    let code = match case.program {
        Program::Counterlab => ask(alloc, case, &mut sink)?,
        Program::Halvinglab if case.word == "node" => serve(alloc, &case.input, &mut sink),
        Program::Halvinglab => play_halving(alloc, case, &mut sink),
    };
    Ok((code, sink.taken() == case.wanted.as_slice()))
}

/// Whether a case is answered as it should be. If it is not, it is printed.
pub fn is_answered(rt: &HostRuntime, case: &Case) -> anyhow::Result<bool> {
    let (code, are_wanted) = answer(rt.alloc(), case)?;
    let same = are_wanted && code == case.code;
    if !same {
        let (word, input, wanted) = (case.word, &case.input, &case.wanted);
        println!(rt; "{word} differs, with code {code}, on {input:?}, which should be {wanted:?}")?;
    }
    Ok(same)
}
