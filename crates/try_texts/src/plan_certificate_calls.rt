use edge_io::MemSink;
use plan_certificate::{TableError, TableRefusal, read_table, write_table};
use plan_reader::{read_whole_plan, write_plan};
use std::alloc::Global;
use std::test::Fail;
use sync_types::{Cause, Premise};

const ALONE: &str = "plan 1\nbase 5\nend\n";

const TWO_LEVELS: &str = "plan 1\nbase 2304\nlevel 4 1 960\nlevel 3 3 10\nend\n";

const NO_SPARES: &str = "plan 2\nbase 2304\nlevel 4 1 10 spare 0\nend\n";

const ONE_SPARE: &str = "plan 2\nbase 576\nlevel 3 1 10 spare 1\nend\n";

// a second write would fail
fn one_write(alloc: Global) -> Result<MemSink, Fail> {
    Ok(MemSink::new(alloc, 4096, vec![in alloc; 2]?, Vec::new(alloc))?)
}

/// Plans and their tables.
const TABLES: [(&str, &str); 4] = [
    (
        ALONE,
        "table 1\nbase 5\nplan nodes 1 faults 0 modulus 5 bound 0 bits 3 bytes 1\nend\n",
    ),
    (
        TWO_LEVELS,
        "table 1\nbase 2304\n\
         level 1 blocks 4 leaders 2 nodes 4 faults 1 beat 9 span 2304 modulus 960 bound 2304 \
         bits 23\n\
         level 2 blocks 3 leaders 2 nodes 12 faults 3 beat 15 span 960 modulus 10 bound 3264 \
         bits 28\nplan nodes 12 faults 3 modulus 10 bound 3264 bits 28 bytes 4\nend\n",
    ),
    (
        NO_SPARES,
        "table 2\nbase 2304\n\
         level 1 blocks 4 leaders 2 nodes 4 faults 1 beat 9 span 2304 modulus 10 bound 2304 bits \
         17 spare 0\nplan nodes 4 faults 1 modulus 10 bound 2304 bits 17 bytes 3\nend\n",
    ),
    (
        ONE_SPARE,
        "table 2\nbase 576\n\
         level 1 blocks 3 leaders 2 nodes 4 faults 1 beat 9 span 576 modulus 10 bound 576 bits \
         15 spare 1\nplan nodes 4 faults 1 modulus 10 bound 576 bits 15 bytes 2\nend\n",
    ),
];

/// What is written of a plan's table.
fn table_of(alloc: Global, plan: &str) -> Result<MemSink, Fail> {
    let mut sink = one_write(alloc)?;
    write_table(&read_whole_plan(alloc, plan.as_bytes())?, &mut sink)?;
    Ok(sink)
}

#[test]
fn a_table_is_one_write(rt: HostRuntime) -> Result<(), Fail> {
    for row in &TABLES {
        let sink = table_of(rt.alloc(), row.0)?;
        assert!(rt; sink.taken() == row.1.as_bytes(), "at {}", row.0);
    }
    Ok(())
}

/// In each row a plan, a version, and its text of that version.
const VERSIONS: [(&str, u32, &str); 6] = [
    (ALONE, 1, ALONE),
    (ALONE, 2, "plan 2\nbase 5\nend\n"),
    (TWO_LEVELS, 1, TWO_LEVELS),
    ("plan 1\nbase 2304\nlevel 4 1 10\nend\n", 2, NO_SPARES),
    (NO_SPARES, 2, NO_SPARES),
    (ONE_SPARE, 2, ONE_SPARE),
];

/// What is written of a plan in a version.
fn plan_text(alloc: Global, plan: &str, version: u32) -> Result<MemSink, Fail> {
    let mut sink = one_write(alloc)?;
    write_plan(
        &read_whole_plan(alloc, plan.as_bytes())?,
        version,
        &mut sink,
    )?;
    Ok(sink)
}

#[test]
fn a_plan_is_written_in_either_version(rt: HostRuntime) -> Result<(), Fail> {
    for row in &VERSIONS {
        let sink = plan_text(rt.alloc(), row.0, row.1)?;
        assert!(rt; sink.taken() == row.2.as_bytes(), "at {}", row.0);
    }
    Ok(())
}

const SPARE_TABLE: &str = "table 2\nbase 576\n\
     level 1 blocks 3 leaders 2 nodes 4 faults 1 beat 9 span 576 modulus 10 bound 576 bits 15 \
     spare 1\nplan nodes 4 faults 1 modulus 10 bound 576 bits 15 bytes 2\nend\n";

/// Whether the plan of a table has this version and so many nodes.
fn is_read(alloc: Global, table: &str, version: u32, nodes: u32) -> Result<bool, Fail> {
    let plan = read_table(alloc, table.as_bytes())?;
    Ok(plan.version() == version && plan.nodes() == nodes)
}

const ALONE_TABLE: &str =
    "table 1\nbase 5\nplan nodes 1 faults 0 modulus 5 bound 0 bits 3 bytes 1\nend\n";

#[test]
fn tables_are_read(rt: HostRuntime) -> Result<(), Fail> {
    assert!(rt; is_read(rt.alloc(), ALONE_TABLE, 1, 1)?);
    assert!(rt; is_read(rt.alloc(), SPARE_TABLE, 2, 4)?);
    Ok(())
}

const FORM: Cause = Cause::Premise(Premise::Form);

/// In each row a text, the line that is refused, and why.
const REFUSED: [(&str, u64, Cause); 12] = [
    ("", 1, FORM),
    ("table 1", 1, FORM),
    ("table 3\n", 1, FORM),
    ("table 1\n\nbase 5\n", 2, FORM),
    ("table 1\nbase 1\n", 2, Cause::Premise(Premise::Modulus)),
    ("table 1\nbase 5\nend\n", 3, FORM),
    (
        "table 1\nbase 5\nplan nodes 1 faults 0 modulus 5 bound 0 bits 4 bytes 1\nend\n",
        3,
        Cause::Value,
    ),
    (
        "table 1\nbase 5\nplan nodes 1 faults 0 modulus 5 bound 0 bits 3 bytes 1\nend",
        4,
        FORM,
    ),
    (
        "table 1\nbase 5\nplan nodes 1 faults 0 modulus 5 bound 0 bits 3 bytes 1\nend\n\n",
        5,
        FORM,
    ),
    (
        "table 2\nbase 576\n\
         level 2 blocks 3 leaders 2 nodes 4 faults 1 beat 9 span 576 modulus 10 bound 576 bits \
         15 spare 1\n",
        3,
        Cause::Value,
    ),
    (
        "table 2\nbase 576\n\
         level 1 blocks 3 leaders 2 nodes 4 faults 1 beat 9 span 576 modulus 10 bound 576 bits \
         15\n",
        3,
        FORM,
    ),
    (
        "table 1\nbase 575\n\
         level 1 blocks 4 leaders 2 nodes 4 faults 1 beat 9 span 2304 modulus 10 bound 2304 bits \
         9\n",
        3,
        Cause::Premise(Premise::Multiple),
    ),
];

/// Whether a text is refused by this line and this cause.
fn is_refused(alloc: Global, text: &str, line: u64, cause: Cause) -> bool {
    let want = TableError::Refused(TableRefusal { line, cause });
    read_table(alloc, text.as_bytes()).err() == Some(want)
}

#[test]
fn tables_are_refused(rt: HostRuntime) {
    for row in &REFUSED {
        let refused = is_refused(rt.alloc(), row.0, row.1, row.2);
        assert!(rt; refused, "at {}", row.0);
    }
}

const TEXTS: [(TableError, &str); 3] = [
    (
        TableError::Refused(TableRefusal {
            line: 3,
            cause: Cause::Value,
        }),
        "line 3 of the table fails: Value",
    ),
    (
        TableError::Refused(TableRefusal {
            line: 2,
            cause: Cause::Premise(Premise::Modulus),
        }),
        "line 2 of the table fails: Premise(Modulus)",
    ),
    (TableError::NoMemory, "out of memory"),
];

#[test]
fn errors_have_texts(rt: HostRuntime) -> Result<(), Fail> {
    for row in &TEXTS {
        let text = format!(in rt.alloc(); "{}", row.0)?;
        assert!(rt; text.as_str() == row.1, "{text}");
    }
    Ok(())
}
