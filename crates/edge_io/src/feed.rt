ghost use Rattle.std.specs.Prelude.{◌≡◌, ◌≤◌, length};

use crate::{Failed, LONGEST_LINE, LineBuf, ReadFault, Source};
use thiserror::Error;

/// How many bytes one read asks for.
const ROOM: usize = 4096;

const NEWLINE: u8 = b'\n';

/// How a line ended.
#[derive(Clone, Copy, Debug, PartialEq, Eq)]
pub enum Line {
    /// At its newline.
    Whole,
    /// At the end of the input, after at least one byte of it.
    Open,
    /// At byte 4097, which is no newline. The rest of the line is unread.
    Long,
    /// Nothing is left.
    End,
}

/// Why no line was read.
#[derive(Clone, Copy, Debug, PartialEq, Eq, Error)]
pub enum LineFault {
    /// A read failed, which the source has counted.
    #[error("a read failed")]
    ReadFault,
    /// The lines so far are longer than their limit.
    #[error("the input is too long")]
    TooLong,
}

/// A source that is read byte by byte and line by line, through a buffer of 4096 bytes.
///
/// The source is asked for more only if the buffer is empty.
#[derive(Drop)]
pub struct Feed<'a, S> {
    source: &'a mut S,
    buffer: [u8; ROOM],
    at: usize,
    end: usize,
    line_bytes: u64,
    ghost within: { at ≤ end },
    ghost room: { end ≤ length buffer },
    ghost size: { length buffer ≡ 4096 },
}

impl<'a, S: Source> Feed<'a, S> {
    ghost use Rattle.std.specs.Prelude.{◌≡◌, ◌<◌, ◌≤◌, ◌+◌, ◌^◌, ℕ, [], true, false, not, ◌||◌};
    ghost use Rattle.std.specs.Prelude.{length, take, drop, Ok, OnErr, IfOk};
    ghost use Rattle.std.specs.Option.{is_none};
    ghost use Rattle.edge_io.specs.declared.feed.Line.TheVariants as how;
    ghost use Rattle.std.specs.Io.KnownBytes.{Consumes, Keeps, IsAtEnd};
    ghost use Rattle.texts.specs.Causes.{HasCause};
    ghost use Rattle.texts.specs.Lines.{is_one_line};
    ghost use Rattle.edge_io.specs.Feeds.{buffered, feed_left, TakesByte, TakesLineByte, LineIs};
    ghost use Rattle.edge_io.specs.Feeds.{HasLineCause, IsDry, meets_end};

    /// A feed of all that the source has left, of which no line was read.
    pub fn new(source: &'a mut S) -> Feed<'a, S>
        ensures same_reference { result.source.ghost_name ≡ source.entry.ghost_name }
        ensures left { Keeps (S.left source.old) (feed_left S.left result) }
        ensures faults { S.faults result.source.now ≡ S.faults source.old }
        ensures met { S.met result.source.now ≡ S.met source.old }
        ensures none { result.line_bytes ≡ 0 }
    {
        Feed {
            source,
            buffer: [0; ROOM],
            at: 0,
            end: 0,
            line_bytes: 0,
        }
    }

    /// The bytes that stand in the buffer and nobody has read.
    pub fn held(&self) -> &[u8]
        ensures { result.now ≡ buffered self.now }
    {
        &self.buffer[self.at..self.end]
    }

    /// How many bytes the lines had that were read, newlines included.
    pub fn line_bytes(&self) -> u64
        ensures { result ≡ self.now.line_bytes }
    {
        self.line_bytes
    }

    /// Reads so many of the held bytes, which are those of no line.
    pub fn pass(&mut self, count: usize)
        requires { count ≤ length (buffered self.old) }
        ensures passed { Consumes (feed_left S.left self.old) (feed_left S.left self.new)
            (take count (buffered self.old)) }
        ensures held { buffered self.new ≡ drop count (buffered self.old) }
        ensures source { self.new.source ≡ self.old.source }
        ensures still { self.new.line_bytes ≡ self.old.line_bytes }
    {
        self.at += count;
    }

    /// Reads so many of the held bytes, and counts them as bytes of lines.
    pub fn pass_line(&mut self, count: usize)
        requires some { count ≤ length (buffered self.old) }
        requires few { self.old.line_bytes + count < 2 ^ 64 }
        ensures passed { Consumes (feed_left S.left self.old) (feed_left S.left self.new)
            (take count (buffered self.old)) }
        ensures held { buffered self.new ≡ drop count (buffered self.old) }
        ensures source { self.new.source ≡ self.old.source }
        ensures counted { self.new.line_bytes ≡ self.old.line_bytes + count }
    {
        self.pass(count);
        self.line_bytes += count as u64;
    }

    /// Makes sure that the buffer has a byte, if one is left.
    fn fill(&mut self) -> Result<bool, ReadFault>
        ensures same_reference { self.new.source.ghost_name ≡ self.old.source.ghost_name }
        ensures left { Keeps (feed_left S.left self.old) (feed_left S.left self.new) }
        ensures end { result ≡ Ok false → IsAtEnd (feed_left S.left self.new) }
        ensures more { result ≡ Ok true → self.new.at < self.new.end }
        ensures cause { HasCause (S.faults self.old.source.now) (S.faults self.new.source.now)
            result }
        ensures met { IfOk result (λ more. S.met self.new.source.now
            ≡ (not more || S.met self.old.source.now)) }
        ensures dry { OnErr result (IsDry S.met self.old self.new) }
        ensures still { self.new.line_bytes ≡ self.old.line_bytes }
    {
        if self.at < self.end {
            return Ok(true);
        }
        let count = match self.source.read(&mut self.buffer) {
            Ok(count) => count,
            Err(Failed) => return Err(ReadFault),
        };
        self.at = 0;
        self.end = count;
        Ok(count > 0)
    }

    /// The next byte, or None at the end.
    ///
    /// `ReadFault` comes only if the source counted one fault. The feed is then as before, and its
    /// buffer is empty: all bytes that the source gave were read, and its end was not met.
    pub fn byte(&mut self) -> Result<Option<u8>, ReadFault>
        ensures same_reference { self.new.source.ghost_name ≡ self.old.source.ghost_name }
        ensures bytes { TakesByte (feed_left S.left self.old) (feed_left S.left self.new) result }
        ensures cause { HasCause (S.faults self.old.source.now) (S.faults self.new.source.now)
            result }
        ensures met { IfOk result (λ byte. S.met self.new.source.now
            ≡ (is_none byte || S.met self.old.source.now)) }
        ensures dry { OnErr result (IsDry S.met self.old self.new) }
        ensures still { self.new.line_bytes ≡ self.old.line_bytes }
    {
        match self.fill() {
            Ok(true) => {}
            Ok(false) => return Ok(None),
            Err(ReadFault) => return Err(ReadFault),
        }
        let byte = self.buffer[self.at];
        self.at += 1;
        Ok(Some(byte))
    }

    /// The next byte of a line, if all lines so far may have `limit` bytes.
    fn line_byte(&mut self, limit: u64) -> Result<Option<u8>, LineFault>
        ensures same_reference { self.new.source.ghost_name ≡ self.old.source.ghost_name }
        ensures bytes { TakesLineByte limit self.old.line_bytes self.new.line_bytes
            (feed_left S.left self.old) (feed_left S.left self.new) result }
        ensures cause { HasLineCause (S.faults self.old.source.now) (S.faults self.new.source.now)
            (IsDry S.met self.old self.new) result }
        ensures met { IfOk result (λ byte. S.met self.new.source.now
            ≡ (is_none byte || S.met self.old.source.now)) }
    {
        let byte = match self.byte() {
            Ok(Some(byte)) => byte,
            Ok(None) => return Ok(None),
            Err(ReadFault) => return Err(LineFault::ReadFault),
        };
        if self.line_bytes >= limit {
            self.line_bytes = self.line_bytes.saturating_add(1);
            return Err(LineFault::TooLong);
        }
        self.line_bytes += 1;
        Ok(Some(byte))
    }

    /// Takes the next line if all of it stands in the buffer and within the limit. Else nothing
    /// changes.
    fn take_held(&mut self, line: &mut LineBuf, limit: u64) -> bool
        requires { line.old ≡ [] }
        ensures taken { result ≡ true → LineIs limit self.old.line_bytes self.new.line_bytes
            (feed_left S.left self.old) (feed_left S.left self.new) line.new (Ok how.Whole) }
        ensures one { is_one_line line.new ≡ true }
        ensures short { length line.new ≤ 4096 }
        ensures none { result ≡ false → (self.new ≡ self.old) × (line.new ≡ []) }
        ensures source { self.new.source ≡ self.old.source }
    {
        let most = limit.saturating_sub(self.line_bytes);
        match line.copy_line(self.held(), most) {
            Some(count) => {
                self.pass_line(count);
                true
            }
            None => false,
        }
    }

    /// Fills `bytes` if all of them stand in the buffer. Else nothing changes.
    pub(crate) fn take_held_bytes(&mut self, bytes: &mut [u8]) -> bool
        ensures taken { result ≡ true
            → Consumes (feed_left S.left self.old) (feed_left S.left self.new) bytes.new }
        ensures size { length bytes.new ≡ length bytes.old }
        ensures none { result ≡ false → (self.new ≡ self.old) × (bytes.new ≡ bytes.old) }
        ensures source { self.new.source ≡ self.old.source }
        ensures still { self.new.line_bytes ≡ self.old.line_bytes }
    {
        let count = bytes.len();
        let held = self.held();
        if held.len() < count {
            return false;
        }
        bytes.copy_from_slice(&held[..count]);
        self.pass(count);
        true
    }

    /// Reads a line, without its newline, if all lines so far may have `limit` bytes, newlines
    /// included.
    ///
    /// `TooLong` comes exactly if the byte after the limit was read; it is tested at each byte
    /// before its newline or its byte 4097 is seen, and comes again at each later byte. `ReadFault`
    /// comes only if the source counted one fault; all bytes that the source gave were then read,
    /// and none after the limit.
    pub fn line(&mut self, line: &mut LineBuf, limit: u64) -> Result<Line, LineFault>
        ensures same_reference { self.new.source.ghost_name ≡ self.old.source.ghost_name }
        ensures line { LineIs limit self.old.line_bytes self.new.line_bytes
            (feed_left S.left self.old) (feed_left S.left self.new) line.new result }
        ensures one { is_one_line line.new ≡ true }
        ensures short { length line.new ≤ 4096 }
        ensures cause { HasLineCause (S.faults self.old.source.now) (S.faults self.new.source.now)
            (IsDry S.met self.old self.new) result }
        ensures met { IfOk result (λ how. S.met self.new.source.now
            ≡ (meets_end how || S.met self.old.source.now)) }
    {
        line.clear();
        if self.take_held(line, limit) {
            return Ok(Line::Whole);
        }
        self.line_by_bytes(line, limit)
    }

    /// Reads a line byte by byte.
    fn line_by_bytes(&mut self, line: &mut LineBuf, limit: u64) -> Result<Line, LineFault>
        requires { line.old ≡ [] }
        ensures same_reference { self.new.source.ghost_name ≡ self.old.source.ghost_name }
        ensures line { LineIs limit self.old.line_bytes self.new.line_bytes
            (feed_left S.left self.old) (feed_left S.left self.new) line.new result }
        ensures one { is_one_line line.new ≡ true }
        ensures short { length line.new ≤ 4096 }
        ensures cause { HasLineCause (S.faults self.old.source.now) (S.faults self.new.source.now)
            (IsDry S.met self.old self.new) result }
        ensures met { IfOk result (λ how. S.met self.new.source.now
            ≡ (meets_end how || S.met self.old.source.now)) }
    {
        for _ in 0..LONGEST_LINE {
            match self.line_byte(limit) {
                Err(fault) => return Err(fault),
                Ok(None) if line.is_empty() => return Ok(Line::End),
                Ok(None) => return Ok(Line::Open),
                Ok(Some(NEWLINE)) => return Ok(Line::Whole),
                Ok(Some(byte)) => line.push(byte),
            }
        }
        match self.line_byte(limit) {
            Err(fault) => Err(fault),
            Ok(None) => Ok(Line::Open),
            Ok(Some(NEWLINE)) => Ok(Line::Whole),
            Ok(Some(_)) => Ok(Line::Long),
        }
    }
}
