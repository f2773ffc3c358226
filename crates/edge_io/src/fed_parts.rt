ghost use Rattle.std.specs.Prelude.{◌≡◌, ◌||◌, ◌≤◌, ◌<◌, ◌+◌, ◌-◌, ◌^◌, IfOk};
ghost use Rattle.texts.specs.Parts.{with_skips};
ghost use Rattle.edge_io.specs.Feeds.{feed_left, IsDry};
ghost use Rattle.edge_io.specs.FedParts.{PartFed, HasPartCause, IsLastLine};
ghost use Rattle.edge_io.specs.declared.fed_parts.FedError.TheVariants as fed;

use crate::{
    Feed, Line, LineBuf, LineFault, LineReader, Refused, Source, TakeError, take_unless_skipped,
};
use std::fmt::Debug;
use thiserror::Error;

/// A part that was read from a feed.
#[derive(Drop)]
pub struct FedPart<V> {
    /// What was read.
    pub value: V,
    /// How many lines it has, skipped ones included.
    pub lines: u64,
    /// Whether the input ended with its last line.
    pub ended: bool,
}

/// Why a part was not read from a feed.
#[derive(Clone, Copy, Debug, PartialEq, Eq, Error)]
#[error_bound(R: Debug)]
pub enum FedError<R> {
    /// A read failed, which the source has counted.
    #[error("a read failed")]
    ReadFault,
    /// The lines so far are longer than their limit.
    #[error("the lines are too long")]
    TooLong,
    /// A line was refused.
    #[error("line {} fails the rule {:?}", .0.line, .0.rule)]
    Refused(Refused<R>),
    /// Memory ran out.
    #[error("out of memory")]
    NoMemory,
}

/// Reads a part from a feed, line by line, and no byte after its last line. The first line has the
/// number `first`, and all lines that were read of the feed may have `limit` bytes.
///
/// `Refused` comes exactly if `read_part` refuses a line of the same text, at a line that is shown
/// within the limit; `TooLong` exactly if the byte after the limit was read first. `ReadFault`
/// comes only if the source counted one fault and its end was not met, and `NoMemory` if the reader
/// ran out of memory. What decides is the last byte that was read, with which a line shows, or the
/// end; at `ReadFault` nothing does.
pub fn feed_part<S: Source, P: LineReader>(
    feed: &mut Feed<'_, S>,
    line: &mut LineBuf,
    mut reader: P,
    form: P::Rule,
    first: u64,
    limit: u64,
) -> Result<FedPart<P::Value>, FedError<P::Rule>>
    requires room { feed.old.line_bytes ≤ limit }
    requires numbers { first + limit < 2 ^ 64 - 1 }
    ensures same_reference { feed.new.source.ghost_name ≡ feed.old.source.ghost_name }
    ensures fed { PartFed (with_skips P.step form) form reader first limit feed.old.line_bytes
        feed.new.line_bytes (feed_left S.left feed.old) (feed_left S.left feed.new) result }
    ensures few { IfOk result (λ x. x.lines ≤ limit) }
    ensures cause { HasPartCause (S.faults feed.old.source.now) (S.faults feed.new.source.now)
        (IsDry S.met feed.old feed.new) result }
    ensures met { IfOk result (λ x. S.met feed.new.source.now
        ≡ (x.ended || S.met feed.old.source.now)) }
{
    let mut number = first;
    let mut lines: u64 = 0;
    loop {
        let how = match feed.line(line, limit) {
            Ok(how) => how,
            Err(LineFault::ReadFault) => return Err(FedError::ReadFault),
            Err(LineFault::TooLong) => return Err(FedError::TooLong),
        };
        match how {
            Line::Whole => {}
            Line::Open => return last_line(reader, form, line.bytes(), number, lines),
            Line::Long => return Err(refused(number, form)),
            Line::End => return Err(refused(number, form)),
        }
        match take_unless_skipped(&mut reader, form, line.bytes()) {
            Ok(None) => {}
            Ok(Some(value)) => {
                return Ok(FedPart {
                    value,
                    lines: lines + 1,
                    ended: false,
                });
            }
            Err(TakeError::Refused(rule)) => return Err(refused(number, rule)),
            Err(TakeError::NoMemory) => return Err(FedError::NoMemory),
        }
        number += 1;
        lines += 1;
    }
}

/// The refusal of a line.
fn refused<R>(line: u64, rule: R) -> FedError<R>
    ensures { result ≡ fed.Refused (record { line = line; rule = rule }) }
{
    FedError::Refused(Refused { line, rule })
}

/// Takes a line with which the input ends.
fn last_line<P: LineReader>(
    mut reader: P,
    form: P::Rule,
    line: &[u8],
    number: u64,
    lines: u64,
) -> Result<FedPart<P::Value>, FedError<P::Rule>>
    requires numbers { number < 2 ^ 64 - 1 }
    requires lines { lines < 2 ^ 64 - 1 }
    ensures last { IsLastLine (with_skips P.step form) form reader number lines line.now result }
    ensures few { IfOk result (λ x. x.lines ≡ lines + 1) }
{
    match take_unless_skipped(&mut reader, form, line) {
        Ok(None) => Err(refused(number + 1, form)),
        Ok(Some(value)) => Ok(FedPart {
            value,
            lines: lines + 1,
            ended: true,
        }),
        Err(TakeError::Refused(rule)) => Err(refused(number, rule)),
        Err(TakeError::NoMemory) => Err(FedError::NoMemory),
    }
}
