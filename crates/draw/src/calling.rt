//! Reads an input, and draws it.

ghost use Rattle.std.specs.Prelude.{◌≡◌, IfErr, IfOk, IsErrOf};
ghost use Rattle.texts.specs.Lines.{lines_of};
ghost use Rattle.draw.specs.Conduct.{Draws, DrawsInput, HandsOn, IsEcho, IsErrorFor, SaysWhy};
ghost use Rattle.draw.specs.Conduct.{first_of, is_refusal};

use crate::echoes::echoed;
use crate::reasons::{NoRun, NotDrawn};
use edge_io::{Sink, Source, first_line, read_all};
use program_words::ProgramError;
use run_pictures::{ChartError, DrawError, Form, draw};
use std::alloc::{AllocError, Global};

/// How many bytes are read at most.
const LONGEST_TEXT: usize = 1 << 32;

/// Whether an input is the line that `counterlab` writes in the place of a run.
fn is_refusal(input: &[u8]) -> bool
    ensures { result ≡ is_refusal input.now }
{
    input.starts_with(b"refused ") || input.starts_with(b"usage: ")
}

/// The first line of an input, without its newline.
fn first_of(input: &[u8]) -> &[u8]
    ensures { result.now ≡ first_of (lines_of input.now) }
{
    if input.is_empty() {
        return input;
    }
    let (line, _) = first_line(input);
    line
}

/// Hands on that line.
fn handed_on(alloc: Global, input: &[u8]) -> NotDrawn
    ensures { HandsOn input.now result }
{
    match echoed(alloc, first_of(input)) {
        Ok(said) => ProgramError::Refused(NoRun { said }),
        Err(AllocError) => ProgramError::NoMemory,
    }
}

/// What is said of an error of a picture.
fn said_of(alloc: Global, error: DrawError) -> Result<NoRun, AllocError>
    ensures { IfOk result IsEcho }
{
    let text = format!(in alloc; "{error}")?;
    let said = echoed(alloc, text.as_bytes())?;
    Ok(NoRun { said })
}

/// Why there is no picture, if an input is refused.
fn refused(alloc: Global, error: DrawError) -> NotDrawn
    ensures { SaysWhy result }
{
    match said_of(alloc, error) {
        Ok(reason) => ProgramError::Refused(reason),
        Err(AllocError) => ProgramError::NoMemory,
    }
}

/// Why there is no picture, or not all of it.
fn not_drawn(alloc: Global, error: DrawError) -> NotDrawn
    ensures { IsErrorFor error result }
{
    match error {
        DrawError::Chart(ChartError::Line { .. }) => refused(alloc, error),
        DrawError::Unlike { .. } => refused(alloc, error),
        DrawError::Apart => refused(alloc, error),
        DrawError::Chart(ChartError::NoMemory) => ProgramError::NoMemory,
        DrawError::NoMemory => ProgramError::NoMemory,
        DrawError::Write => ProgramError::WriteFault,
    }
}

/// Draws an input, or hands on the line that stands in the place of a run.
fn draw_text<K: Sink>(alloc: Global, form: Form, input: &[u8], sink: &mut K) -> Result<(), NotDrawn>
    ensures { Draws form input.now result (K.told sink.old) (K.told sink.new) }
{
    if is_refusal(input) {
        return Err(handed_on(alloc, input));
    }
    match draw(alloc, input, form, sink) {
        Ok(()) => Ok(()),
        Err(error) => Err(not_drawn(alloc, error)),
    }
}

/// Reads what `run`, `trace`, `sweep` or `choose` writes, and writes its picture, or its page.
///
/// The whole source is read first, at most 2^32 bytes. `Refused` comes if the input is none of
/// these texts; if it is the line that `counterlab` writes in the place of a run, that line is
/// handed on. `TooLong` comes only if the byte after the limit was there, `ReadFault` and
/// `WriteFault` only if the source, before its end, or the sink counted a fault, and `NoMemory` if
/// memory was refused. Nothing was written then, but at `WriteFault` a prefix of the picture.
/// `Usage` never comes.
pub fn draw_input<S: Source, K: Sink>(
    alloc: Global,
    form: Form,
    source: &mut S,
    sink: &mut K,
) -> Result<(), NotDrawn>
    ensures draws { DrawsInput result form
        (S.left source.old) (S.left source.new) (S.faults source.old) (S.faults source.new)
        (K.told sink.old) (K.told sink.new) }
    // At `ReadFault` the end of the source was not met.
    ensures unmet { IsErrOf result ProgramError.ReadFault → S.met source.new ≡ S.met source.old }
{
    let input = read_all(alloc, source, LONGEST_TEXT)?;
    draw_text(alloc, form, &input, sink)
}
