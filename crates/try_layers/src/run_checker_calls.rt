ghost use Rattle.std.specs.Prelude.{◌<◌, ◌^◌, ◌-◌};

use crate::players::begun;
use edge_io::{MemSink, PlainSource};
use plan_reader::read_whole_plan;
use run_checker::{CertRefusal, CheckError, Verdict, check_run, write_run};
use std::alloc::Global;
use std::test::Fail;

const ONE: &str = "plan 1\nbase 5\nend\n";

const FOUR: &str = "plan 1\nbase 2304\nlevel 4 1 10\nend\n";

/// Node 3 is a spare.
const SPARE: &str = "plan 2\nbase 576\nlevel 3 1 10 spare 1\nend\n";

/// A plan and a script, the certificate of the run, how many rows that has, and the first locked
/// configuration of the last era.
type Row = (&'static str, &'static str, &'static str, u64, Option<u64>);

const ROWS: [Row; 5] = [
    (
        ONE,
        "script 1\nfaulty\nstart zero\nstart node 0 80\nrounds 2\nshow 0 0\nend\n",
        "run 1\nbase 5\nfaulty\nstart 0 80\nrow 0 4\nrow 1 0\nrow 2 1\nend\n",
        3,
        Some(0),
    ),
    (
        ONE,
        "script 2\nfaulty\nstart zero\nera 2 faulty\nstart node 0 80\nrounds 3\nshow 0 0\nend\n",
        "run 2\nbase 5\nfaulty\nstart 0 00\nrow 0 0\nrow 1 1\nera 2\nstart 0 80\nrow 2 4\n\
         row 3 0\nend\n",
        4,
        Some(2),
    ),
    (
        FOUR,
        "script 1\nfaulty 3\nstart zero\nlie 0 1 3 to all hex 000700\nrounds 2\nshow 0 0\nend\n",
        "run 1\nbase 2304\nlevel 4 1 10\nfaulty 3\nstart 0 000000\nstart 1 000000\n\
         start 2 000000\nrow 0 0 0 0 *\nlie 3 0 000700\nlie 3 1 000700\nlie 3 2 000700\n\
         row 1 1 1 1 *\nlie 3 0 000700\nlie 3 1 000700\nlie 3 2 000700\nrow 2 2 2 2 *\nend\n",
        3,
        Some(2),
    ),
    // Node 3 is put into a state since it was faulty, and node 0 since the era hits it.
    (
        FOUR,
        "script 2\nfaulty 3\nstart zero\nera 2 faulty 1\nstart node 0 000700\n\
         start node 3 000700\nrounds 2\nshow 0 0\nend\n",
        "run 2\nbase 2304\nlevel 4 1 10\nfaulty 3\nstart 0 000000\nstart 1 000000\n\
         start 2 000000\nrow 0 0 0 0 *\nlie 3 0 000000\nlie 3 1 000000\nlie 3 2 000000\n\
         row 1 1 1 1 *\nlie 3 0 001100\nlie 3 1 001100\nlie 3 2 001100\nera 2 1\nstart 0 000700\n\
         start 3 000700\nrow 2 7 * 2 7\nend\n",
        3,
        None,
    ),
    (
        SPARE,
        "script 1\nfaulty 3\nstart zero\nlie 0 0 3 to all hex 70\nrounds 1\nshow 0 0\nend\n",
        "run 3\nbase 576\nlevel 3 1 10 spare 1\nfaulty 3\nstart 0 0000\nstart 1 0000\n\
         start 2 0000\nrow 0 0 0 0 *\nlie 3 0 70\nlie 3 1 70\nlie 3 2 70\nrow 1 1 1 1 *\nend\n",
        2,
        None,
    ),
];

/// What is written of a plan and a script.
fn recorded(alloc: Global, plan_text: &str, text: &str) -> Result<MemSink, Fail> {
    let plan = read_whole_plan(alloc, plan_text.as_bytes())?;
    let mut runner = begun(alloc, &plan, text)?;
    let mut sink = MemSink::new(alloc, 1024, Vec::new(alloc), Vec::new(alloc))?;
    write_run(&plan, &mut runner, &mut sink)?;
    Ok(sink)
}

#[test]
fn runs_are_recorded(rt: HostRuntime) -> Result<(), Fail> {
    for row in &ROWS {
        let sink = recorded(rt.alloc(), row.0, row.1)?;
        assert!(rt; sink.taken() == row.2.as_bytes(), "at {}", row.1);
    }
    Ok(())
}

/// Whether what is recorded of a row is a true certificate.
fn is_true(alloc: Global, row: &Row) -> Result<bool, Fail> {
    let sink = recorded(alloc, row.0, row.1)?;
    let mut source = PlainSource::new(sink.taken());
    let (rows, locked) = (row.3, row.4);
    Ok(check_run(alloc, &mut source, 1 << 44) == Ok(Verdict::True { rows, locked }))
}

#[test]
fn records_are_checked_true(rt: HostRuntime) -> Result<(), Fail> {
    for row in &ROWS {
        assert!(rt; is_true(rt.alloc(), row)?, "at {}", row.1);
    }
    Ok(())
}

/// The answer to a text, of which at most so many bytes are read.
fn answer(alloc: Global, text: &str, limit: u64) -> Result<Verdict, CheckError>
    requires { limit < 2 ^ 64 - 2 }
{
    let mut source = PlainSource::new(text.as_bytes());
    check_run(alloc, &mut source, limit)
}

/// The rows of a spare node that is correct.
const SPARE_ROWS: &str =
    "run 3\nbase 576\nlevel 3 1 10 spare 1\nfaulty\nstart 0 0000\nstart 1 0000\nstart 2 0000\n\
     start 3 70\nrow 0 0 0 0 7\nrow 1 1 1 1 0\nrow 2 2 2 2 2\nrow 3 3 3 3 3\nend\n";

/// An era in which node 3 begins to lie.
const LATER_LIES: &str =
    "run 2\nbase 2304\nlevel 4 1 10\nfaulty\nstart 0 000000\nstart 1 000000\nstart 2 000000\n\
     start 3 000000\nrow 0 0 0 0 0\nera 1 3\nrow 1 1 1 1 *\nlie 3 0 000a00\nlie 3 1 586500\n\
     lie 3 2 0f2180\nrow 2 2 2 2 *\nlie 3 0 000a00\nlie 3 1 000a00\nlie 3 2 6dea00\n\
     row 3 3 3 3 *\nend\n";

#[test]
fn other_certificates_are_checked(rt: HostRuntime) {
    let (rows, locked) = (4, Some(3));
    let spare = answer(rt.alloc(), SPARE_ROWS, 1 << 44);
    assert!(rt; spare == Ok(Verdict::True { rows, locked }));
    let (rows, locked) = (4, Some(2));
    let later = answer(rt.alloc(), LATER_LIES, 1 << 44);
    assert!(rt; later == Ok(Verdict::True { rows, locked }));
}

#[test]
fn a_row_that_differs_is_named(rt: HostRuntime) {
    let text = "run 1\nbase 5\nfaulty\nstart 0 80\nrow 0 4\nrow 1 3\nrow 2 1\nend\n";
    let found = answer(rt.alloc(), text, 1 << 44);
    assert!(rt; found == Ok(Verdict::False { row: 1 }));
}

/// In each row a text, and the line that refuses it.
const REFUSED: [(&str, u64); 11] = [
    ("", 1),
    ("run 4\n", 1),
    (
        "run 1\nbase 5\nfaulty\nstart 0 80\nrow 0 4\nrow 1 0\nrow 3 1\nend\n",
        7,
    ),
    (
        "run 1\nbase 5\nfaulty\nstart 0 80\nrow 0 4\nrow 1 0\nrow 2 1\n",
        8,
    ),
    (
        "run 1\nbase 5\nfaulty\nstart 0 80\nrow 0 4\nrow 1 0\nrow 2 1\nend",
        8,
    ),
    ("run 1\nbase 5\nfaulty\nstart 0 80\nrow 0 4\nend\nend\n", 7),
    ("run 1\nbase 5\nfaulty\nrow 0 4\n", 4),
    (
        "run 1\nbase 5\nfaulty\nstart 0 00\nrow 0 0\nrow 1 1\nera 2\nstart 0 80\nrow 2 4\nend\n",
        7,
    ),
    ("run 2\nbase 576\nlevel 3 1 10 spare 1\nfaulty\n", 3),
    (
        "run 3\nbase 576\nlevel 3 1 10 spare 1\nfaulty\nstart 0 00\n",
        5,
    ),
    (
        "run 1\nbase 2304\nlevel 4 1 10\nfaulty 3\nstart 0 000000\nstart 1 000000\n\
         start 2 000000\nrow 0 0 0 0 *\nlie 3 0 000700\nlie 3 2 000700\nrow 1 1 1 1 *\nend\n",
        10,
    ),
];

/// Whether a text is refused by this line.
fn is_refused(alloc: Global, text: &str, line: u64) -> bool {
    answer(alloc, text, 1 << 44) == Err(CheckError::Refused(CertRefusal { line }))
}

#[test]
fn texts_that_are_none_are_refused(rt: HostRuntime) {
    for row in &REFUSED {
        assert!(rt; is_refused(rt.alloc(), row.0, row.1), "at {}", row.0);
    }
}

#[test]
fn a_text_behind_its_limit_is_too_long(rt: HostRuntime) {
    let text = "run 1\nbase 5\nfaulty\nstart 0 80\nrow 0 4\nend\n";
    let locked = Some(0);
    let whole = answer(rt.alloc(), text, 43);
    assert!(rt; whole == Ok(Verdict::True { rows: 1, locked }));
    let cut = answer(rt.alloc(), text, 42);
    assert!(rt; cut == Err(CheckError::TooLong));
}

const TEXTS: [(CheckError, &str); 4] = [
    (
        CheckError::Refused(CertRefusal { line: 7 }),
        "line 7 of the certificate fails",
    ),
    (CheckError::TooLong, "the certificate is too long"),
    (CheckError::ReadFault, "a read failed"),
    (CheckError::NoMemory, "out of memory"),
];

#[test]
fn errors_have_texts(rt: HostRuntime) -> Result<(), Fail> {
    for row in &TEXTS {
        let text = format!(in rt.alloc(); "{}", row.0)?;
        assert!(rt; text.as_str() == row.1, "{text}");
    }
    Ok(())
}
