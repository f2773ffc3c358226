//! Bytes in and bytes out.
//!
//! A `Source` gives bytes in pieces and a `Sink` takes them in pieces. Each counts its faults, one
//! at a time, so that a caller's clauses can say that it reports a fault exactly if one was
//! counted, and that this fault ended the call. There are real ones (`StdSource`, `StdSink`), ones
//! in memory that fail and cut where they are told to (`MemSource`, `MemSink`), plain ones that
//! never fail (`PlainSource`, `NullSink`). A `Writer` gathers the bytes of a text over a sink, and
//! keeps the first fault.
//!
//! Over these stand the calls that read a whole input, write a text, and read a text line by line,
//! word by word and number by number. What decides an answer decides it at once: a call takes no
//! byte of a feed after the one that does, and the feed at most a buffer of its source. No read
//! fault is answered after the end of a source. Only `read_all`, `LineBuf::new`, `MemSink::new`,
//! `all_numbers` and `all_numbers_after` take memory.
#![tactic(auto)]

mod cuts;
mod fed_parts;
mod feed;
mod feed_bytes;
mod laws;
mod line_buf;
mod lines;
mod mem_sink;
mod mem_source;
mod numbers;
mod parts;
mod pieces;
mod places;
mod plain;
mod put;
mod read;
mod rising;
mod shapes;
mod std_sink;
mod std_source;
mod taking;
mod traits;
mod whole;
mod writer;

pub use fed_parts::{FedError, FedPart, feed_part};
pub use feed::{Feed, Line, LineFault};
pub use feed_bytes::{skip_bytes, take_bytes};
pub use laws::{ill_parted_lines_are_refused, numbers_have_one_word, pending_bytes_decide_nothing};
pub use line_buf::LineBuf;
pub use lines::{Lines, Words, first_line};
pub use mem_sink::{MemSink, NoMemory};
pub use mem_source::MemSource;
pub use numbers::{number, put_number};
pub use parts::{LONGEST_LINE, LineReader, PartRead, is_skipped, read_part, take_unless_skipped};
pub use pieces::{Piece, put_pieces};
pub use plain::{NullSink, PlainSource};
pub use put::{WriteFault, put_all};
pub use read::{InputFault, ReadFault, read_all};
pub use rising::RisingText;
pub use shapes::{all_numbers, all_numbers_after, numbers_after};
pub use std_sink::StdSink;
pub use std_source::StdSource;
pub use taking::{PartError, Refused, TakeError};
pub use traits::{Failed, Sink, Source};
pub use whole::no_fault_is_counted;
pub use writer::Writer;
