use crate::edge_io_calls::OnlyEnd;
use edge_io::{
    Failed, FedError, Feed, InputFault, Line, LineBuf, LineFault, MemSource, NoMemory, PlainSource,
    ReadFault, Refused, WriteFault, feed_part, skip_bytes, take_bytes,
};
use std::alloc::{AllocError, Global};
use std::test::Fail;

/// What a feed of three bytes answers whose third read fails.
const BYTES: [Result<Option<u8>, ReadFault>; 6] = [
    Ok(Some(b'a')),
    Ok(Some(b'b')),
    Err(ReadFault),
    Ok(Some(b'c')),
    Ok(None),
    Ok(None),
];

#[test]
fn a_feed_gives_bytes_one_by_one(rt: HostRuntime) -> Result<(), Fail> {
    let alloc = rt.alloc();
    let bytes = Vec::from_slice(alloc, b"abc".as_slice())?;
    let mut source = MemSource::new(bytes, vec![in alloc; 2]?, vec![in alloc; 2]?);
    let mut feed = Feed::new(&mut source);
    for (i, want) in BYTES.iter().enumerate() {
        assert!(rt; feed.byte() == *want, "read {i}");
    }
    Ok(())
}

/// A text with lines of 4096 and 4097 bytes, and one that is not whole.
fn long_lines(alloc: Global) -> Result<Vec<u8>, AllocError> {
    let mut text = Vec::from_slice(alloc, b"ab\n\n".as_slice())?;
    for _ in 0..4096 {
        text.push(b'x')?;
    }
    text.push(b'\n')?;
    for _ in 0..4097 {
        text.push(b'y')?;
    }
    text.extend_from_slice(b"z\nend")?;
    Ok(text)
}

/// How its lines end, and how many bytes of each are kept.
const ENDS: [(Line, usize); 7] = [
    (Line::Whole, 2),
    (Line::Whole, 0),
    (Line::Whole, 4096),
    (Line::Long, 4096),
    (Line::Whole, 1),
    (Line::Open, 3),
    (Line::End, 0),
];

/// Whether the next line of a feed ends so.
fn ends(feed: &mut Feed<'_, PlainSource<'_>>, line: &mut LineBuf, end: &(Line, usize)) -> bool {
    feed.line(line, 9000) == Ok(end.0) && line.bytes().len() == end.1
}

#[test]
fn a_line_ends_in_four_ways(rt: HostRuntime) -> Result<(), Fail> {
    let text = long_lines(rt.alloc())?;
    let mut source = PlainSource::new(&text);
    let mut feed = Feed::new(&mut source);
    let mut line = LineBuf::new(rt.alloc())?;
    for (i, end) in ENDS.iter().enumerate() {
        assert!(rt; ends(&mut feed, &mut line, end), "line {i}");
    }
    Ok(())
}

/// In each row how many bytes of a text may be read, and the answers for its two lines.
type Limit = (u64, Result<Line, LineFault>, Result<Line, LineFault>);

const LIMITS: [Limit; 5] = [
    (0, Err(LineFault::TooLong), Err(LineFault::TooLong)),
    (2, Err(LineFault::TooLong), Err(LineFault::TooLong)),
    (3, Ok(Line::Whole), Err(LineFault::TooLong)),
    (4, Ok(Line::Whole), Err(LineFault::TooLong)),
    (5, Ok(Line::Whole), Ok(Line::Open)),
];

/// Whether a text of two lines is read so.
fn is_limited(line: &mut LineBuf, row: &Limit) -> bool {
    let mut source = PlainSource::new(b"ab\ncd");
    let mut feed = Feed::new(&mut source);
    feed.line(line, row.0) == row.1 && feed.line(line, row.0) == row.2
}

#[test]
fn lines_are_read_up_to_their_limit(rt: HostRuntime) -> Result<(), Fail> {
    let mut line = LineBuf::new(rt.alloc())?;
    for row in &LIMITS {
        assert!(rt; is_limited(&mut line, row), "at {}", row.0);
    }
    Ok(())
}

/// In each row a text, how many bytes may be read, the lines of its part and whether it ends with
/// the text, or what refuses it, and the byte after it.
type FedPart = (
    &'static str,
    u32,
    Result<(u64, bool), FedError<u8>>,
    Option<u8>,
);

const FED: [FedPart; 6] = [
    ("# x\n\nend\nmore", 9, Ok((3, false)), Some(b'm')),
    ("\nend", 4, Ok((2, true)), None),
    ("\nend", 3, Err(FedError::TooLong), None),
    (
        "\nfin\nend",
        8,
        Err(FedError::Refused(Refused { line: 2, rule: 1 })),
        Some(b'e'),
    ),
    (
        "\nend \n",
        9,
        Err(FedError::Refused(Refused { line: 2, rule: 0 })),
        None,
    ),
    (
        "\n#\n",
        9,
        Err(FedError::Refused(Refused { line: 3, rule: 0 })),
        None,
    ),
];

/// Whether a part is read so.
fn is_fed(line: &mut LineBuf, row: &FedPart) -> bool {
    let mut source = PlainSource::new(row.0.as_bytes());
    let mut feed = Feed::new(&mut source);
    let read = feed_part(&mut feed, line, OnlyEnd {}, 0, 1, u64::from(row.1));
    read.map(|part| (part.lines, part.ended)) == row.2 && feed.byte() == Ok(row.3)
}

#[test]
fn a_part_is_read_from_a_feed(rt: HostRuntime) -> Result<(), Fail> {
    let mut line = LineBuf::new(rt.alloc())?;
    for row in &FED {
        assert!(rt; is_fed(&mut line, row), "at {}", row.0);
    }
    Ok(())
}

/// Whether one byte of five is skipped and two are taken, and then three are not there.
fn skips_and_takes(feed: &mut Feed<'_, PlainSource<'_>>) -> bool {
    let mut buf = [0; 2];
    skip_bytes(feed, 1) == Ok(true)
        && take_bytes(feed, &mut buf) == Ok(true)
        && &buf == b"bc"
        && take_bytes(feed, &mut []) == Ok(true)
        && skip_bytes(feed, 3) == Ok(false)
        && take_bytes(feed, &mut buf) == Ok(false)
}

#[test]
fn so_many_bytes_are_skipped_and_taken(rt: HostRuntime) {
    let mut source = PlainSource::new(b"abcde");
    assert!(rt; skips_and_takes(&mut Feed::new(&mut source)));
}

#[test]
fn faults_have_texts(rt: HostRuntime) -> Result<(), Fail> {
    let (memory, failed, read, write) = (NoMemory, Failed, ReadFault, WriteFault);
    let all = format!(in rt.alloc(); "{memory}, {failed}, {read}, {write}")?;
    let want = "out of memory, a read or a write failed, a read failed, a write failed";
    assert!(rt; all.as_str() == want);
    Ok(())
}

const INPUT_TEXTS: [(InputFault, &str); 3] = [
    (InputFault::ReadFault, "a read failed"),
    (InputFault::TooLong, "the input is too long"),
    (InputFault::NoMemory, "out of memory"),
];

#[test]
fn input_faults_have_texts(rt: HostRuntime) -> Result<(), Fail> {
    for row in &INPUT_TEXTS {
        let text = format!(in rt.alloc(); "{}", row.0)?;
        assert!(rt; text.as_str() == row.1, "{text}");
    }
    Ok(())
}

const LINE_TEXTS: [(LineFault, &str); 2] = [
    (LineFault::ReadFault, "a read failed"),
    (LineFault::TooLong, "the input is too long"),
];

#[test]
fn line_faults_have_texts(rt: HostRuntime) -> Result<(), Fail> {
    for row in &LINE_TEXTS {
        let text = format!(in rt.alloc(); "{}", row.0)?;
        assert!(rt; text.as_str() == row.1, "{text}");
    }
    Ok(())
}
