use edge_io::{Feed, LineBuf, PlainSource};
use node_words::{HeaderError, HeaderRefusal, read_header};
use std::alloc::Global;
use std::test::Fail;
use sync_types::{Premise, Rule};

/// In each row a text whose plan is accepted, and the line and the rule that refuse its node.
const REFUSED: [(&str, u64, Rule); 13] = [
    ("plan 1\nbase 5\nend\n", 4, Rule::Form),
    ("plan 1\nbase 5\nend\nnode 2\n", 4, Rule::Form),
    ("plan 1\nbase 5\nend\nnode 1\r\n", 4, Rule::Form),
    ("plan 1\nbase 5\nend\nnode 1\nid 1\n", 5, Rule::Node),
    ("plan 1\nbase 5\nend\nnode 1\nid 00\n", 5, Rule::Form),
    ("plan 1\nbase 5\nend\nnode 1\nid 0\nstate 8\n", 6, Rule::Hex),
    (
        "plan 1\nbase 5\nend\nnode 1\nid 0\nstate 8A\n",
        6,
        Rule::Hex,
    ),
    (
        "plan 1\nbase 5\nend\nnode 1\nid 0\nstate 80\r\n",
        6,
        Rule::Form,
    ),
    (
        "plan 1\nbase 5\nend\nnode 1\nid 0\nstate  80\n",
        6,
        Rule::Form,
    ),
    (
        "plan 1\nbase 5\nend\nnode 1\nid 0\nstate 80\nid 0\n",
        7,
        Rule::Form,
    ),
    (
        "plan 1\nbase 5\nend\nnode 1\nid 0\nstate 80\n",
        7,
        Rule::Form,
    ),
    ("plan 1\nbase 5\nend", 4, Rule::Form),
    ("plan 1\nbase 5\nend\n\nnode 1\nid 1\n", 6, Rule::Node),
];

/// What refuses a header.
fn refusal(alloc: Global, line: &mut LineBuf, text: &str) -> Option<HeaderError<Premise>> {
    let mut source = PlainSource::new(text.as_bytes());
    let mut feed = Feed::new(&mut source);
    read_header(alloc, &mut feed, line).err()
}

/// Whether the node of a header is refused by this line and this rule.
fn is_refused(alloc: Global, read: &mut LineBuf, row: &(&str, u64, Rule)) -> bool {
    let (line, rule) = (row.1, row.2);
    let want = HeaderError::Refused(HeaderRefusal::Node { line, rule });
    refusal(alloc, read, row.0) == Some(want)
}

#[test]
fn headers_are_refused(rt: HostRuntime) -> Result<(), Fail> {
    let mut line = LineBuf::new(rt.alloc())?;
    for row in &REFUSED {
        assert!(rt; is_refused(rt.alloc(), &mut line, row), "at {}", row.0);
    }
    Ok(())
}

#[test]
fn the_plan_of_a_header_is_refused(rt: HostRuntime) -> Result<(), Fail> {
    let mut line = LineBuf::new(rt.alloc())?;
    let want = HeaderError::Refused(HeaderRefusal::Plan {
        line: 2,
        premise: Premise::Modulus,
    });
    assert!(rt; refusal(rt.alloc(), &mut line, "plan 1\nbase 1\n") == Some(want));
    Ok(())
}

/// The header of node 0 of a counter modulo 5 in the state 4, and a byte after it.
const ONE: &[u8] = b"plan 1\nbase 5\nend\nnode 1\nid 0\nstate 80\nend\nx";

/// Whether it is read so, and the byte after it is left.
fn is_of_one(alloc: Global, line: &mut LineBuf) -> bool {
    let mut source = PlainSource::new(ONE);
    let mut feed = Feed::new(&mut source);
    match read_header(alloc, &mut feed, line) {
        Ok(read) => {
            read.plan.modulus() == 5
                && read.header.state.x() == 4
                && !read.ended
                && feed.byte() == Ok(Some(b'x'))
        }
        Err(_) => false,
    }
}

#[test]
fn a_header_is_a_plan_and_a_node(rt: HostRuntime) -> Result<(), Fail> {
    let mut line = LineBuf::new(rt.alloc())?;
    assert!(rt; is_of_one(rt.alloc(), &mut line));
    Ok(())
}

const TEXTS: [(HeaderError<Premise>, &str); 5] = [
    (HeaderError::ReadFault, "a read failed"),
    (HeaderError::TooLong, "the header is too long"),
    (
        HeaderError::Refused(HeaderRefusal::Plan {
            line: 2,
            premise: Premise::Modulus,
        }),
        "the header is refused: Plan { line: 2, premise: Modulus }",
    ),
    (
        HeaderError::Refused(HeaderRefusal::Node {
            line: 5,
            rule: Rule::Node,
        }),
        "the header is refused: Node { line: 5, rule: Node }",
    ),
    (HeaderError::NoMemory, "out of memory"),
];

#[test]
fn errors_have_texts(rt: HostRuntime) -> Result<(), Fail> {
    for row in &TEXTS {
        let text = format!(in rt.alloc(); "{}", row.0)?;
        assert!(rt; text.as_str() == row.1, "{text}");
    }
    Ok(())
}
