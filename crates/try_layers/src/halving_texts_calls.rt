use edge_io::{Feed, LineBuf, MemSink, PlainSource, feed_part};
use halving_plan::{HalvingPlan, HalvingPremise};
use halving_texts::{
    HalvingError, HalvingLines, HalvingRefusal, LinePremise, read_halving, read_whole_halving,
    write_halving,
};
use std::alloc::Global;
use std::test::Fail;

const THIRTEEN: &str = "halving 1\ngroup 13 4 10\nend\n";

/// The refusal of a line.
fn refused(line: u64, premise: LinePremise) -> HalvingError {
    HalvingError::Refused(HalvingRefusal { line, premise })
}

#[test]
fn a_part_is_read_at_the_front(rt: HostRuntime) {
    let Ok((plan, bytes, lines)) = read_halving(b"# ten\nhalving 1\ngroup 13 4 10\nend\nnode 1\n")
    else {
        assert!(rt; false);
        return;
    };
    assert!(rt; Ok(plan) == HalvingPlan::new(13, 4, 10));
    assert!(rt; (bytes, lines) == (34, 4));
}

/// Texts, and the first line that fails with its premise.
const REFUSED: [(&str, u64, LinePremise); 7] = [
    ("", 1, LinePremise::Form),
    ("halving 2\n", 1, LinePremise::Form),
    ("halving 1\ngroup 13 4\nend\n", 2, LinePremise::Form),
    (
        "halving 1\ngroup 257 1 10\nend\n",
        2,
        LinePremise::Plan(HalvingPremise::Limit),
    ),
    (
        "halving 1\ngroup 4 1 1\nend\n",
        2,
        LinePremise::Plan(HalvingPremise::Modulus),
    ),
    (
        "halving 1\n\ngroup 12 4 10\nend\n",
        3,
        LinePremise::Plan(HalvingPremise::Quorum),
    ),
    (
        "halving 1\ngroup 2 0 10\nend\n",
        2,
        LinePremise::Plan(HalvingPremise::Single),
    ),
];

#[test]
fn the_first_line_that_fails_is_named(rt: HostRuntime) {
    for row in &REFUSED {
        let read = read_whole_halving(row.0.as_bytes());
        assert!(rt; read == Err(refused(row.1, row.2)), "at {}", row.0);
    }
}

/// What is written of a plan, in one write.
fn text_of(alloc: Global, plan: &HalvingPlan) -> Result<MemSink, Fail> {
    let mut sink = MemSink::new(alloc, 4096, vec![in alloc; 2]?, Vec::new(alloc))?;
    write_halving(plan, &mut sink)?;
    Ok(sink)
}

#[test]
fn a_text_is_one_write(rt: HostRuntime) -> Result<(), Fail> {
    let plan = read_whole_halving(THIRTEEN.as_bytes())?;
    let sink = text_of(rt.alloc(), &plan)?;
    assert!(rt; sink.taken() == THIRTEEN.as_bytes());
    Ok(())
}

#[test]
fn a_part_is_read_of_a_feed(rt: HostRuntime) -> Result<(), Fail> {
    let mut source = PlainSource::new(THIRTEEN.as_bytes());
    let mut feed = Feed::new(&mut source);
    let mut line = LineBuf::new(rt.alloc())?;
    let part = feed_part(
        &mut feed,
        &mut line,
        HalvingLines::new(),
        LinePremise::Form,
        1,
        4096,
    );
    let Ok(part) = part else {
        assert!(rt; false);
        return Ok(());
    };
    assert!(rt; Ok(part.value) == HalvingPlan::new(13, 4, 10));
    assert!(rt; part.lines == 3);
    Ok(())
}
