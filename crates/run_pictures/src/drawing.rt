//! Draws what `run`, `trace`, `sweep` or `choose` writes.

ghost use Rattle.std.specs.Prelude.{◌≡◌, true, IfOk};
ghost use Rattle.run_pictures.specs.Drawn.{Does, DrawsAs, DrawsFigure};

use crate::pages::{Form, put_formed};
use crate::reading::read_chart;
use crate::{is_choice, is_sweep, read_choice, read_sweep};
use edge_io::{MemSink, NoMemory, Sink, WriteFault, Writer};
use picture_parts::{ChartError, Figure};
use std::alloc::Global;
use thiserror::Error;
use trace_pictures::{is_trace, trace_of};

/// Why nothing was drawn, or not all.
#[derive(Clone, Copy, Debug, Error)]
pub enum DrawError {
    /// A line is not what should stand there.
    #[error("{0}")]
    Chart(ChartError),
    /// A line, counted from 1, says what it should, but not in the letters in which it is written.
    #[error("line {line} has a space or a zero that these programs do not write, or no newline")]
    Unlike { line: u64 },
    /// All lines are as they should be, but do not belong together.
    #[error("the lines do not belong to one run, trace, sweep or choice")]
    Apart,
    #[error("out of memory")]
    NoMemory,
    /// A write failed.
    #[error("the picture could not be written")]
    Write,
}

impl From<ChartError> for DrawError {
    ghost use Rattle.run_pictures.specs.declared.drawing.DrawError.TheVariants as error;

    ghost from_gives = { λ chart e. e ≡ error.Chart chart };

    fn from(error: ChartError) -> Self {
        DrawError::Chart(error)
    }
}

impl From<NoMemory> for DrawError {
    ghost use Rattle.run_pictures.specs.declared.drawing.DrawError.TheVariants as error;

    ghost from_gives = { λ _ e. e ≡ error.NoMemory };

    fn from(_: NoMemory) -> Self {
        DrawError::NoMemory
    }
}

/// Whether the text of a figure is this one.
fn is_text_of<F: Figure>(alloc: Global, figure: &F, text: &[u8]) -> Result<bool, NoMemory>
    ensures { IfOk result (λ same. same ≡ true → F.text figure.now ≡ text.now) }
{
    let mut sink = MemSink::new(alloc, text.len(), Vec::new(alloc), Vec::new(alloc))?;
    let mut writer = Writer::new(&mut sink);
    figure.put_text(&mut writer);
    match writer.finish() {
        Ok(()) => Ok(sink.taken() == text),
        Err(WriteFault) => Ok(false),
    }
}

/// The line of the first byte at which what was written is not the text.
fn unlike_line(written: &[u8], text: &[u8]) -> u64 {
    let mut line: u64 = 1;
    for (byte, other) in written.iter().zip(text) {
        if byte != other {
            return line;
        }
        if *byte == b'\n' {
            line = line.saturating_add(1);
        }
    }
    line
}

/// The first line of a text that is written otherwise than the text of a figure.
fn unlike<F: Figure>(alloc: Global, figure: &F, text: &[u8]) -> Result<u64, NoMemory> {
    let mut sink = MemSink::new(alloc, text.len(), Vec::new(alloc), Vec::new(alloc))?;
    let mut writer = Writer::new(&mut sink);
    figure.put_text(&mut writer);
    match writer.finish() {
        Ok(()) => {}
        Err(WriteFault) => {}
    }
    Ok(unlike_line(sink.taken(), text))
}

/// Draws a figure, if its text is this one and all of it stands where it belongs.
fn draw_figure<K: Sink, F: Figure>(
    alloc: Global,
    figure: &F,
    text: &[u8],
    form: Form,
    sink: &mut K,
) -> Result<(), DrawError>
    ensures { Does result (DrawsFigure F.text F.picture F.laid form text.now)
        (K.told sink.old) (K.told sink.new) }
{
    let same = is_text_of(alloc, figure, text)?;
    if !same {
        let line = unlike(alloc, figure, text)?;
        return Err(DrawError::Unlike { line });
    }
    if !figure.is_laid() {
        return Err(DrawError::Apart);
    }
    let mut writer = Writer::new(sink);
    put_formed(&mut writer, form, text, figure);
    match writer.finish() {
        Ok(()) => Ok(()),
        Err(WriteFault) => Err(DrawError::Write),
    }
}

/// Draws a text that `run`, `trace`, `sweep` or `choose` wrote. If it answers Ok, the text is that
/// of a chart, of a trace, of a sweep or of a choice, letter for letter, and the
/// picture of this was written, or the page of it.
///
/// `Chart` comes if a line is not what should stand there, `Unlike` if one is written otherwise
/// than these programs write it, as without the last newline, `Apart` if the lines do not belong
/// together, and `NoMemory` if memory ran out; then nothing was written. `Write` comes if the sink
/// counted a fault; a prefix of the picture was then taken.
pub fn draw<K: Sink>(alloc: Global, text: &[u8], form: Form, sink: &mut K) -> Result<(), DrawError>
    ensures { Does result (DrawsAs form text.now) (K.told sink.old) (K.told sink.new) }
{
    if is_trace(alloc, text)? {
        let trace = trace_of(alloc, text)?;
        draw_figure(alloc, &trace, text, form, sink)
    } else if is_sweep(text) {
        let sweep = read_sweep(alloc, text)?;
        draw_figure(alloc, &sweep, text, form, sink)
    } else if is_choice(text) {
        let choice = read_choice(alloc, text)?;
        draw_figure(alloc, &choice, text, form, sink)
    } else {
        let chart = read_chart(alloc, text)?;
        draw_figure(alloc, &chart, text, form, sink)
    }
}
