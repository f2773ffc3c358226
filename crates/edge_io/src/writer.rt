ghost use Rattle.std.specs.Prelude.{◌≡◌, ◌≤◌, length};

use crate::places::place;
use crate::rising::MOST_RISING;
use crate::{Failed, Piece, RisingText, Sink, WriteFault};
use itoa::Buffer;

/// How many bytes are held back at most.
const ROOM: usize = 8192;

/// The digits of the longest number.
const MOST_DIGITS: usize = 20;

/// What a text is written by: it gathers bytes in a buffer of 8192 bytes of its own, passes them on
/// to the sink that it was lent only when it has no room for what comes next, and at `finish`, and
/// keeps whether a write failed. It takes no memory.
///
/// Its calls answer nothing, so that who writes a text by many of them has no exits of his own:
/// after a write that failed they do nothing. `finish` passes on what is held back, and answers the
/// fault. Bytes that are held back when it is dropped are lost.
#[derive(Drop)]
pub struct Writer<'a, K> {
    sink: &'a mut K,
    end: usize,
    at: usize,
    failed: bool,
    buffer: [u8; ROOM],
    ghost within: { at ≤ end },
    ghost room: { end ≤ length buffer },
    ghost size: { length buffer ≡ 8192 },
}

impl<'a, K: Sink> Writer<'a, K> {
    ghost use Rattle.std.specs.Prelude.{◌≡◌, ◌+◌, [], ◌∷◌, ◌++◌, ◌<◌, ◌≤◌, length, decimal, OnOk};
    ghost use Rattle.std.specs.Prelude.{true, not};
    ghost use Rattle.texts.specs.Growth.{Wrote, Puts};
    ghost use Rattle.edge_io.specs.Gathering.{gathered_told, held};
    ghost use Rattle.edge_io.specs.Pieces.{piece_text, pieces_text};
    ghost use Rattle.edge_io.specs.Rising.{labelled_text};
    ghost use Rattle.edge_io.specs.Writing.{Writes, IsFresh, Finishes};

    /// A writer of texts to this sink.
    pub fn new(sink: &'a mut K) -> Writer<'a, K>
        ensures { IsFresh K.told sink.entry.ghost_name (K.told sink.old) result }
    {
        Writer {
            sink,
            buffer: [0; ROOM],
            at: 0,
            end: 0,
            failed: false,
        }
    }

    /// Whether a write failed.
    pub fn has_failed(&self) -> bool
        ensures { result ≡ self.now.failed }
    {
        self.failed
    }

    /// Writes all of the bytes.
    pub fn text(&mut self, bytes: &[u8])
        ensures { Writes K.told bytes.now self.old self.new }
    {
        let mut at = 0;
        while bytes.len() - at > ROOM {
            let count = self.next_room();
            self.short_text(&bytes[at..at + count]);
            at += count;
        }
        self.short_text(&bytes[at..]);
    }

    /// How many bytes fill the buffer: all of its room, if it is full and has to be passed on
    /// first.
    fn next_room(&self) -> usize
        ensures some { 0 < result }
        ensures most { result ≤ 8192 }
    {
        let left = ROOM - self.end;
        if left > 0 { left } else { ROOM }
    }

    /// Writes one byte.
    pub fn byte(&mut self, byte: u8)
        ensures { Writes K.told (byte ∷ []) self.old self.new }
    {
        if self.make_room(1) {
            self.hold_byte(byte);
        }
    }

    /// Writes the decimal digits of a number.
    pub fn number(&mut self, value: u64)
        ensures { Writes K.told (decimal value) self.old self.new }
    {
        if self.make_room(MOST_DIGITS) {
            self.hold_number(value);
        }
    }

    /// Writes the bytes of a label, and after them the decimal digits of a number.
    pub fn labelled(&mut self, label: &[u8], value: u64)
        ensures { Writes K.told (label.now ++ decimal value) self.old self.new }
    {
        if label.len() > ROOM - MOST_DIGITS {
            self.text(label);
            self.number(value);
        } else if self.make_room(label.len() + MOST_DIGITS) {
            self.hold_all(label);
            self.hold_number(value);
        }
    }

    /// Writes a number that rises, with its label.
    pub fn rising(&mut self, number: &RisingText)
        ensures { Writes K.told (labelled_text number.now) self.old self.new }
    {
        if self.make_room(MOST_RISING) {
            self.hold_rising(number);
        }
    }

    /// Writes the pieces, one after the other.
    pub fn pieces(&mut self, pieces: &[Piece<'_>])
        ensures { Writes K.told (pieces_text pieces.now) self.old self.new }
    {
        for piece in pieces {
            self.piece(piece);
        }
    }

    /// Writes one piece.
    fn piece(&mut self, piece: &Piece<'_>)
        ensures { Writes K.told (piece_text piece.now) self.old self.new }
    {
        match piece {
            Piece::Text(text) => self.text(text),
            Piece::Number(value) => self.number(*value),
        }
    }

    /// Ends the text: passes on all that is held back.
    ///
    /// `WriteFault` comes exactly if a write failed, here or before.
    pub fn finish(&mut self) -> Result<(), WriteFault>
        ensures { Finishes K.told result self.old self.new }
    {
        if !self.failed {
            self.failed = self.flush().is_err();
        }
        if self.failed { Err(WriteFault) } else { Ok(()) }
    }

    /// Writes bytes for which the buffer has room.
    fn short_text(&mut self, bytes: &[u8])
        requires few { length bytes.now ≤ 8192 }
        ensures { Writes K.told bytes.now self.old self.new }
    {
        if self.make_room(bytes.len()) {
            self.hold_all(bytes);
        }
    }

    /// Passes on all that is held back.
    ///
    /// `WriteFault` comes only if the sink behind counted one fault; what it did not take is still
    /// held back.
    fn flush(&mut self) -> Result<(), WriteFault>
        ensures still { self.new.failed ≡ self.old.failed }
        ensures same_reference { self.new.sink.ghost_name ≡ self.old.sink.ghost_name }
        ensures puts { Puts result [] (gathered_told K.told self.old)
            (gathered_told K.told self.new) }
        ensures none_held { OnOk result (held self.new ≡ []) }
        ensures room { OnOk result (self.new.end ≡ 0) }
    {
        while self.at < self.end {
            let buffer: &[u8] = &self.buffer;
            match self.sink.write(&buffer[self.at..self.end]) {
                Ok(count) => self.at += count,
                Err(Failed) => return Err(WriteFault),
            }
        }
        self.at = 0;
        self.end = 0;
        Ok(())
    }

    /// Makes room for so many bytes, and answers whether there is room: no write has failed.
    fn make_room(&mut self, count: usize) -> bool
        requires few { count ≤ 8192 }
        ensures nothing { Writes K.told [] self.old self.new }
        ensures unfailed { self.new.failed ≡ not result }
        ensures room { result ≡ true → self.new.end + count ≤ length self.new.buffer }
    {
        if self.failed {
            return false;
        }
        if count <= ROOM - self.end {
            return true;
        }
        match self.flush() {
            Ok(()) => true,
            Err(WriteFault) => {
                self.failed = true;
                false
            }
        }
    }

    /// Holds a byte.
    fn hold_byte(&mut self, byte: u8)
        requires room { self.old.end + 1 ≤ length self.old.buffer }
        ensures still { self.new.failed ≡ self.old.failed }
        ensures wrote { Wrote (byte ∷ []) (gathered_told K.told self.old)
            (gathered_told K.told self.new) }
    {
        let at = self.end;
        place(&mut self.buffer, at, &[byte]);
        self.end = at + 1;
    }

    /// Holds all of the bytes.
    fn hold_all(&mut self, bytes: &[u8])
        requires room { self.old.end + length bytes.now ≤ length self.old.buffer }
        ensures still { self.new.failed ≡ self.old.failed }
        ensures wrote { Wrote bytes.now (gathered_told K.told self.old)
            (gathered_told K.told self.new) }
        ensures end { self.new.end ≡ self.old.end + length bytes.now }
    {
        let at = self.end;
        place(&mut self.buffer, at, bytes);
        self.end = at + bytes.len();
    }

    /// Holds the digits of a number.
    fn hold_number(&mut self, value: u64)
        requires room { self.old.end + 20 ≤ length self.old.buffer }
        ensures still { self.new.failed ≡ self.old.failed }
        ensures wrote { Wrote (decimal value) (gathered_told K.told self.old)
            (gathered_told K.told self.new) }
    {
        if value < 10 {
            self.hold_byte(b'0' + value as u8);
        } else {
            let mut digits = Buffer::new();
            self.hold_all(digits.format(value).as_bytes());
        }
    }

    /// Holds a number that rises, with its label.
    fn hold_rising(&mut self, number: &RisingText)
        requires room { self.old.end + 32 ≤ length self.old.buffer }
        ensures still { self.new.failed ≡ self.old.failed }
        ensures wrote { Wrote (labelled_text number.now) (gathered_told K.told self.old)
            (gathered_told K.told self.new) }
    {
        self.end = number.place_in(&mut self.buffer, self.end);
    }
}
