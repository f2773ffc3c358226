//! Inputs that are made, since they are too long to be stored, and a call without words, which is
//! in the name of no file.

use edge_io::{MemSink, PlainSource};
use outcomes::demo_text;
use std::alloc::Global;
use std::str;
use texts::LONGEST_INPUT;
use workbench::counterlab;

/// How many bytes of an answer there is room for.
const ROOM: usize = 1 << 22;

/// What the workbench answers to a word, or to none, and an input: the exit code, and the bytes
/// that were taken.
fn answer(alloc: Global, word: Option<&str>, input: &[u8]) -> anyhow::Result<(u8, MemSink)> {
    let mut words = Vec::new(alloc);
    if let Some(word) = word {
        words.push(String::from_str(alloc, word)?)?;
    }
    let mut sink = MemSink::new(alloc, ROOM, Vec::new(alloc), Vec::new(alloc))?;
    let status = counterlab(alloc, &words, &mut PlainSource::new(input), &mut sink);
    Ok((status.code(), sink))
}

/// Tries a call without words. Whether it is answered by the line of usage.
fn try_no_words(rt: &HostRuntime) -> anyhow::Result<bool> {
    let (code, sink) = answer(rt.alloc(), None, b"")?;
    println!(rt; "no words {code}")?;
    Ok(code == 2 && sink.taken() == b"usage: counterlab COMMAND\n".as_slice())
}

/// Tries a word with an input of one byte more than it may have. Whether it is too long, and
/// nothing is written.
fn try_too_long(rt: &HostRuntime, word: &str) -> anyhow::Result<bool> {
    let input = vec![in rt.alloc(); b'\n'; LONGEST_INPUT + 1]?;
    let (code, sink) = answer(rt.alloc(), Some(word), &input)?;
    println!(rt; "one byte too many {word} {code}")?;
    Ok(code == 8 && sink.taken().is_empty())
}

/// Tries the record of a text of `demo`. Whether it is longer than an input of the other words may
/// be, and `check` calls it true.
fn try_record(rt: &HostRuntime, seed: u64) -> anyhow::Result<bool> {
    let text = demo_text(rt.alloc(), seed)?;
    let (code, record) = answer(rt.alloc(), Some("record"), text.as_bytes())?;
    let length = record.taken().len();
    println!(rt; "demo {seed}, record {code}: {length} bytes")?;
    let (verdict_code, verdict) = answer(rt.alloc(), Some("check"), record.taken())?;
    let line = str::from_utf8(verdict.taken())?;
    print!(rt; "demo {seed}, check {verdict_code}: {line}")?;
    Ok(code == 0 && length > LONGEST_INPUT && verdict_code == 0)
}

/// Tries all of them. Whether all are answered as they should be.
pub fn try_made(rt: &HostRuntime) -> anyhow::Result<bool> {
    let mut same = try_no_words(rt)?;
    for word in ["run", "plan"] {
        same = try_too_long(rt, word)? && same;
    }
    Ok(try_record(rt, 7)? && same)
}
