use edge_io::{
    Failed, InputFault, LineReader, Lines, MemSink, MemSource, NullSink, PartError, Piece,
    PlainSource, Refused, RisingText, Sink, Source, StdSink, StdSource, TakeError, Words,
    WriteFault, Writer, number, numbers_after, put_all, read_all, read_part,
};
use std::alloc::Global;
use std::io::{self, ErrorKind, Read, Write};
use std::test::Fail;

/// Words, and the numbers that they are.
const NUMBERS: [(&str, Option<u64>); 11] = [
    ("", None),
    ("0", Some(0)),
    ("00", None),
    ("07", None),
    ("7", Some(7)),
    ("1099511627776", Some(1_099_511_627_776)),
    ("999999999999999", Some(999_999_999_999_999)),
    ("1000000000000000", None),
    ("1a", None),
    ("-1", None),
    (" 1", None),
];

#[test]
fn numbers_have_one_to_fifteen_digits_and_no_leading_zero(rt: HostRuntime) {
    for row in &NUMBERS {
        assert!(rt; number(row.0.as_bytes()) == row.1, "at {}", row.0);
    }
}

/// Whether one read into four bytes answers so.
fn reads(source: &mut impl Source, want: &Result<&str, Failed>) -> bool {
    let mut piece = [0u8; 4];
    match (source.read(&mut piece), want) {
        (Ok(count), Ok(bytes)) => &piece[..count] == bytes.as_bytes(),
        (Err(Failed), Err(Failed)) => true,
        _ => false,
    }
}

/// What the reads of eight bytes answer, if the second and the seventh fail, by pieces of one byte
/// and of two.
const CUTS: [Result<&str, Failed>; 9] = [
    Ok("a"),
    Err(Failed),
    Ok("bc"),
    Ok("d"),
    Ok("ef"),
    Ok("g"),
    Err(Failed),
    Ok("h"),
    Ok(""),
];

#[test]
fn cuts_go_round_by_the_reads_that_move_bytes(rt: HostRuntime) -> Result<(), Fail> {
    let alloc = rt.alloc();
    let bytes = Vec::from_slice(alloc, b"abcdefgh".as_slice())?;
    let mut source = MemSource::new(bytes, vec![in alloc; 2, 7]?, vec![in alloc; 1, 2]?);
    for (i, want) in CUTS.iter().enumerate() {
        assert!(rt; reads(&mut source, want), "read {i}");
    }
    Ok(())
}

/// Whether a sink that has room for five bytes, takes one and three in turn, and fails at its third
/// write answers so.
fn takes_five(sink: &mut MemSink) -> bool {
    sink.write(b"abcdef") == Ok(1)
        && sink.write(b"bc") == Ok(2)
        && sink.write(b"def") == Err(Failed)
        && put_all(sink, b"def") == Err(WriteFault)
}

#[test]
fn a_sink_takes_what_it_has_room_for(rt: HostRuntime) -> Result<(), Fail> {
    let alloc = rt.alloc();
    let mut sink = MemSink::new(alloc, 5, vec![in alloc; 3]?, vec![in alloc; 1, 3]?)?;
    assert!(rt; takes_five(&mut sink));
    assert!(rt; sink.taken() == b"abcde".as_slice());
    Ok(())
}

/// Whether four bytes are read whole if so many are the most, or are too long.
fn is_read_up_to(alloc: Global, limit: usize) -> bool {
    match read_all(alloc, &mut PlainSource::new(b"abcd"), limit) {
        Ok(bytes) => limit >= 4 && bytes.as_slice() == b"abcd".as_slice(),
        Err(fault) => limit < 4 && fault == InputFault::TooLong,
    }
}

#[test]
fn an_input_is_read_up_to_the_limit(rt: HostRuntime) -> Result<(), Fail> {
    let alloc = rt.alloc();
    for limit in [0, 3, 4, 5] {
        assert!(rt; is_read_up_to(alloc, limit), "up to {limit}");
    }
    let bytes = Vec::from_slice(alloc, b"abcd".as_slice())?;
    let mut failing = MemSource::new(bytes, vec![in alloc; 3]?, vec![in alloc; 2]?);
    assert!(rt; matches!(read_all(alloc, &mut failing, 9), Err(InputFault::ReadFault)));
    Ok(())
}

/// Is interrupted, gives a byte, ends, and would give another byte.
#[derive(Drop)]
struct Ending {
    reads: u8,
}

impl Read for Ending {
    fn read(&mut self, buf: &mut [u8]) -> io::Result<usize> {
        self.reads = self.reads.saturating_add(1);
        if self.reads == 1 {
            return Err(io::Error::from(ErrorKind::Interrupted));
        }
        if self.reads == 3 || buf.is_empty() {
            return Ok(0);
        }
        buf[0] = b'x';
        Ok(1)
    }
}

const ENDS: [Result<&str, Failed>; 4] = [Err(Failed), Ok("x"), Ok(""), Ok("")];

#[test]
fn a_real_source_ends_for_good(rt: HostRuntime) {
    let mut source = StdSource::new(Ending { reads: 0 });
    for (i, want) in ENDS.iter().enumerate() {
        assert!(rt; reads(&mut source, want), "read {i}");
    }
}

/// Takes so many bytes a call, and is flushed or not.
#[derive(Drop)]
struct Taking {
    most: usize,
    flushes: bool,
}

impl Write for Taking {
    fn write(&mut self, buf: &[u8]) -> io::Result<usize> {
        Ok(self.most.min(buf.len()))
    }

    fn flush(&mut self) -> io::Result<()> {
        if self.flushes {
            Ok(())
        } else {
            Err(io::Error::from(ErrorKind::Other))
        }
    }
}

/// In each row how many bytes are taken at most, whether they are flushed, and the answer to three.
const TAKINGS: [(usize, bool, Result<usize, Failed>); 4] = [
    (2, true, Ok(2)),
    (9, true, Ok(3)),
    (2, false, Err(Failed)),
    (0, true, Err(Failed)),
];

#[test]
fn a_real_sink_fails_where_nothing_is_taken_or_flushed(rt: HostRuntime) {
    for row in &TAKINGS {
        let mut sink = StdSink::new(Taking {
            most: row.0,
            flushes: row.1,
        });
        assert!(rt; sink.write(b"abc") == row.2, "at most {}", row.0);
    }
}

/// Whether these are the lines `a  b`, the empty one and `c`, from number 7 on.
fn are_three(lines: &mut Lines<'_>) -> bool {
    matches!(lines.next(), Some((7, b"a  b")))
        && matches!(lines.next(), Some((8, b"")))
        && matches!(lines.next(), Some((9, b"c")))
        && lines.next().is_none()
}

#[test]
fn lines_are_numbered_and_words_parted(rt: HostRuntime) {
    assert!(rt; are_three(&mut Lines::new(b"a  b\n\nc", 7)));
    assert!(rt; Words::new(b"a  b ").count() == 4);
    assert!(rt; numbers_after::<2>(b"show 3 14", b"show") == Some([3, 14]));
    assert!(rt; numbers_after::<2>(b"show 3", b"show").is_none());
}

/// Counts the writes that it is given.
#[derive(Drop)]
struct Counting {
    writes: u64,
}

impl Sink for Counting {
    ghost use Rattle.std.specs.Prelude.{None};
    ghost use Rattle.texts.specs.Growth.{plainly};

    ghost told = { λ s. plainly None 0 };

    fn write(&mut self, bytes: &[u8]) -> Result<usize, Failed> {
        self.writes = self.writes.saturating_add(1);
        Ok(bytes.len())
    }
}

#[test]
fn a_full_buffer_is_one_write(rt: HostRuntime) {
    let mut sink = Counting { writes: 0 };
    let mut writer = Writer::new(&mut sink);
    for value in 0..3000u64 {
        let row = [
            Piece::Text(b"row "),
            Piece::Number(value),
            Piece::Text(b"\n"),
        ];
        writer.pieces(&row);
    }
    assert!(rt; !writer.has_failed());
    assert!(rt; writer.finish() == Ok(()));
    // 25,890 bytes.
    assert!(rt; sink.writes == 4);
}

/// Numbers, and the text of what follows each after a label.
const RISEN: [(u32, &str); 7] = [
    (0, "row 1"),
    (8, "row 9"),
    (9, "row 10"),
    (19, "row 20"),
    (99, "row 100"),
    (199, "row 200"),
    (999_999, "row 1000000"),
];

/// Whether a number that has risen by one is put whole.
fn puts_risen(sink: &mut MemSink, value: u32) -> bool {
    let mut writer = Writer::new(sink);
    let mut number = RisingText::new(b"row ", u64::from(value));
    number.rise();
    writer.rising(&number);
    writer.finish() == Ok(())
}

#[test]
fn a_number_rises_behind_its_label(rt: HostRuntime) -> Result<(), Fail> {
    let alloc = rt.alloc();
    for row in &RISEN {
        let mut sink = MemSink::new(alloc, 20, Vec::new(alloc), Vec::new(alloc))?;
        assert!(rt; puts_risen(&mut sink, row.0), "at {}", row.0);
        assert!(rt; sink.taken() == row.1.as_bytes(), "at {}", row.0);
    }
    Ok(())
}

/// Whether labels, numbers and bytes are held back until the end, and the write there has no room
/// for all.
fn holds_labels(sink: &mut MemSink) -> bool {
    let mut writer = Writer::new(sink);
    writer.labelled(b"a ", 7);
    writer.rising(&RisingText::new(b" r ", 41));
    writer.byte(b'\n');
    writer.labelled(b" ", 18_446_744_073_709_551_615);
    !writer.has_failed() && writer.finish() == Err(WriteFault)
}

/// Whether nothing is written any more after a write that failed, and the end answers it.
fn stops_at_a_fault(sink: &mut MemSink) -> bool {
    let mut writer = Writer::new(sink);
    writer.text(&[b'x'; 8193]);
    let failed = writer.has_failed();
    writer.number(7);
    writer.byte(b'\n');
    failed && writer.finish() == Err(WriteFault) && writer.has_failed()
}

#[test]
fn a_writer_stops_at_a_fault(rt: HostRuntime) -> Result<(), Fail> {
    let alloc = rt.alloc();
    let mut sink = MemSink::new(alloc, 9000, vec![in alloc; 1]?, Vec::new(alloc))?;
    assert!(rt; stops_at_a_fault(&mut sink));
    assert!(rt; sink.taken() == b"".as_slice());
    Ok(())
}

#[test]
fn a_label_is_written_before_its_number(rt: HostRuntime) -> Result<(), Fail> {
    let alloc = rt.alloc();
    let mut sink = MemSink::new(alloc, 28, Vec::new(alloc), vec![in alloc; 3]?)?;
    assert!(rt; holds_labels(&mut sink));
    assert!(rt; sink.taken() == b"a 7 r 41\n 184467440737095516".as_slice());
    Ok(())
}

#[test]
fn a_sink_that_keeps_nothing_counts(rt: HostRuntime) {
    let mut sink = NullSink::new();
    assert!(rt; put_all(&mut sink, b"abc") == Ok(()));
    assert!(rt; sink.count() == 3);
}

/// A part that is one line `end`.
#[derive(Drop)]
pub(crate) struct OnlyEnd {}

impl LineReader for OnlyEnd {
    ghost use Rattle.std.specs.Str.{bytes_eq};
    ghost use Rattle.std.specs.Prelude.{codes, if◌then◌else◌};
    ghost use Rattle.texts.specs.Parts.{ends, refuses};

    type Value = ();

    type Rule = u8;

    ghost step = { λ s line. if bytes_eq line (codes "end") then ends tt else refuses 1 };

    fn take(&mut self, line: &[u8]) -> Result<Option<()>, TakeError<u8>> {
        if line == b"end".as_slice() {
            return Ok(Some(()));
        }
        Err(TakeError::Refused(1))
    }
}

/// In each row a text, the line that is refused, and its rule.
const REFUSED: [(&str, u64, u8); 9] = [
    ("", 1, 0),
    ("\n#\n", 3, 0),
    ("\nfin", 2, 1),
    ("\nend ", 2, 0),
    (" end", 1, 0),
    ("en  d", 1, 0),
    ("end\r\n", 1, 0),
    ("\r\nend", 1, 0),
    ("#  \r\nfin", 2, 1),
];

/// Whether a part is refused by this line and this rule.
fn is_refused(text: &str, line: u64, rule: u8) -> bool {
    match read_part(OnlyEnd {}, 0, text.as_bytes(), 1) {
        Ok(_) => false,
        Err(error) => error == PartError::Refused(Refused { line, rule }),
    }
}

/// Whether a part of three lines ends after nine bytes.
fn is_skipped() -> bool {
    match read_part(OnlyEnd {}, 0, b"# x\n\nend\nmore", 1) {
        Ok(part) => part.bytes == 9 && part.lines == 3,
        Err(_) => false,
    }
}

#[test]
fn a_part_skips_lines_and_is_refused_by_its_line(rt: HostRuntime) {
    assert!(rt; is_skipped());
    for row in &REFUSED {
        assert!(rt; is_refused(row.0, row.1, row.2), "at {}", row.0);
    }
}
