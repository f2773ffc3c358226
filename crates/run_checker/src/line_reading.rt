ghost use Rattle.std.specs.Prelude.{◌≡◌, ◌≤◌, ◌<◌, ◌-◌, ◌^◌, true, false};
ghost use Rattle.edge_io.specs.Feeds.{feed_left, IsDry};
ghost use Rattle.edge_io.specs.FedParts.{HasPartCause};
ghost use Rattle.edge_io.specs.EndedReads.{TextRead, EndIs};
ghost use Rattle.edge_io.specs.declared.fed_parts.FedError.TheVariants as fed;
ghost use Rattle.run_checker.specs.Checking.{line_step};
ghost use Rattle.run_checker.specs.NextLies.{IsNextRead};

use crate::Verdict;
use crate::check_lines::CheckLines;
use edge_io::{FedError, Feed, Line, LineBuf, LineFault, LineReader, Refused, Source, TakeError};

const NEWLINE: u8 = b'\n';

/// The refusal of a line.
fn refused(line: u64) -> FedError<()>
    ensures { result ≡ fed.Refused (record { line = line; rule = tt }) }
{
    FedError::Refused(Refused { line, rule: () })
}

/// Takes the next line if it says what is told next and stands whole in the buffer and within the
/// limit. Else nothing changes.
fn take_held<S: Source>(feed: &mut Feed<'_, S>, reader: &mut CheckLines, limit: u64) -> bool
    ensures taken { result ≡ true → IsNextRead limit feed.old.line_bytes feed.new.line_bytes
        (feed_left S.left feed.old) (feed_left S.left feed.new) reader.old reader.new }
    ensures none { result ≡ false → (feed.new ≡ feed.old) × (reader.new ≡ reader.old) }
    ensures source { feed.new.source ≡ feed.old.source }
{
    let most = limit.saturating_sub(feed.line_bytes());
    let size = reader.next_size();
    let held = feed.held();
    if size >= held.len() || size as u64 >= most || held[size] != NEWLINE {
        return false;
    }
    if !reader.take_next(&held[..size]) {
        return false;
    }
    feed.pass_line(size + 1);
    true
}

/// Reads a text whose lines all end with a newline, from a feed of which no line was read, to the
/// end of its input. A line that says what is told next is read where it stands in the buffer.
pub fn read_lines<S: Source>(
    feed: &mut Feed<'_, S>,
    line: &mut LineBuf,
    mut reader: CheckLines,
    limit: u64,
) -> Result<Verdict, FedError<()>>
    requires none { feed.old.line_bytes ≡ 0 }
    requires numbers { limit < 2 ^ 64 - 2 }
    ensures same_reference { feed.new.source.ghost_name ≡ feed.old.source.ghost_name }
    ensures text { TextRead line_step tt reader limit (feed_left S.left feed.old)
        (feed_left S.left feed.new) result }
    ensures cause { HasPartCause (S.faults feed.old.source.now) (S.faults feed.new.source.now)
        (IsDry S.met feed.old feed.new) result }
{
    let mut number: u64 = 1;
    loop {
        if take_held(feed, &mut reader, limit) {
            number += 1;
            continue;
        }
        let how = match feed.line(line, limit) {
            Ok(how) => how,
            Err(LineFault::ReadFault) => return Err(FedError::ReadFault),
            Err(LineFault::TooLong) => return Err(FedError::TooLong),
        };
        match how {
            Line::Whole => {}
            Line::Open => return Err(refused(number)),
            Line::Long => return Err(refused(number)),
            Line::End => return Err(refused(number)),
        }
        match reader.take(line.bytes()) {
            Ok(None) => {}
            Ok(Some(verdict)) => {
                match end_of_text(feed, line, number + 1, limit) {
                    Ok(()) => return Ok(verdict),
                    Err(fault) => return Err(fault),
                }
            }
            Err(TakeError::Refused(())) => return Err(refused(number)),
            Err(TakeError::NoMemory) => return Err(FedError::NoMemory),
        }
        number += 1;
    }
}

/// Sees that nothing stands after the last line.
fn end_of_text<S: Source>(
    feed: &mut Feed<'_, S>,
    line: &mut LineBuf,
    number: u64,
    limit: u64,
) -> Result<(), FedError<()>>
    requires { feed.old.line_bytes ≤ limit }
    ensures same_reference { feed.new.source.ghost_name ≡ feed.old.source.ghost_name }
    ensures end { EndIs tt number limit feed.old.line_bytes (feed_left S.left feed.old)
        (feed_left S.left feed.new) result }
    ensures cause { HasPartCause (S.faults feed.old.source.now) (S.faults feed.new.source.now)
        (IsDry S.met feed.old feed.new) result }
{
    match feed.line(line, limit) {
        Ok(Line::End) => return Ok(()),
        Ok(Line::Whole) => return Err(refused(number)),
        Ok(Line::Open) => return Err(refused(number)),
        Ok(Line::Long) => return Err(refused(number)),
        Err(LineFault::ReadFault) => return Err(FedError::ReadFault),
        Err(LineFault::TooLong) => return Err(FedError::TooLong),
    }
}
