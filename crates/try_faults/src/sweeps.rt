//! Every fault of a row: each read fails in turn, then each write, and then room runs out.

use crate::cells::written;
use crate::endings::{Fault, Outcome, came_of};
use crate::rows::Row;
use std::alloc::{AllocError, Global};

/// The exit code if a read failed.
const READ_FAILED: u8 = 6;

/// The exit code if a write failed.
const WRITE_FAILED: u8 = 7;

/// What is to come of a case: the exit code, and how many bytes of the row's answer are taken.
#[derive(Clone, Copy)]
struct Wanted {
    code: u8,
    front: usize,
}

/// What is to come of a row if a read fails after so many bytes of its input: nothing is taken, but
/// for the cells that `node` has written.
fn after_read(row: &Row, before: usize) -> Wanted {
    let front = if row.has_word("node") {
        written(&row.input, &row.answer, before)
    } else {
        0
    };
    Wanted {
        code: READ_FAILED,
        front,
    }
}

/// What is to come of a row if a write fails after so many bytes of its answer.
fn after_write(before: usize) -> Wanted {
    Wanted {
        code: WRITE_FAILED,
        front: before,
    }
}

/// What is to come of a row, by what comes of it in pieces of the same size if nothing fails. A
/// call that is not reached then changes nothing.
fn wanted_of(row: &Row, plain: &Outcome, fault: Fault) -> Wanted {
    let length = row.answer.len();
    let reads = &plain.source.calls.before;
    let writes = &plain.sink.calls.before;
    let failed = match fault {
        Fault::Nothing => None,
        Fault::Read(read) => match reads.get(read.wrapping_sub(1)) {
            Some(before) => Some(after_read(row, *before)),
            None => None,
        },
        Fault::Write(write) => match writes.get(write.wrapping_sub(1)) {
            Some(before) => Some(after_write(*before)),
            None => None,
        },
        Fault::Full(room) if room < length => Some(after_write(room)),
        Fault::Full(_) => None,
    };
    failed.unwrap_or(Wanted {
        code: plain.code,
        front: length,
    })
}

/// Bytes as hex digits, each after a space.
pub fn digits(alloc: Global, bytes: &[u8]) -> Result<String, AllocError> {
    let mut text = String::new(alloc);
    for byte in bytes {
        write!(text, " {byte:02x}")?;
    }
    Ok(text)
}

/// Prints in what case something else came than what should.
fn print_case(rt: &HostRuntime, size: usize, fault: Fault) -> anyhow::Result<()> {
    print!(rt; "\nin pieces of {size}, where ")?;
    match fault {
        Fault::Nothing => println!(rt; "nothing fails:")?,
        Fault::Read(read) => println!(rt; "read {read} fails:")?,
        Fault::Write(write) => println!(rt; "write {write} fails:")?,
        Fault::Full(room) => println!(rt; "there is room for {room} bytes:")?,
    }
    Ok(())
}

/// Prints what came of a case, and what should.
fn print_both(
    rt: &HostRuntime,
    came: &Outcome,
    wanted_code: u8,
    front: &[u8],
) -> anyhow::Result<()> {
    let code = came.code;
    let taken = digits(rt.alloc(), came.taken())?;
    println!(rt; "code {code}, taken{taken}")?;
    let wanted = digits(rt.alloc(), front)?;
    println!(rt; "wanted {wanted_code}, taken{wanted}")?;
    if came.went_on() {
        println!(rt; "there was a call after one that failed")?;
    }
    Ok(())
}

/// How many cases of a row were tried, and how many went otherwise than they should.
#[derive(Clone, Copy)]
struct Cases {
    tried: u64,
    different: u64,
}

impl Cases {
    /// Tries a case, and prints it if something else comes of it than what should.
    fn try_case(
        &mut self,
        rt: &HostRuntime,
        row: &Row,
        size: usize,
        fault: Fault,
        plain: &Outcome,
    ) -> anyhow::Result<()> {
        self.tried = self.tried.saturating_add(1);
        let wanted = wanted_of(row, plain, fault);
        let front = row.answer.get(..wanted.front).unwrap_or_default();
        let came = came_of(rt.alloc(), row, size, fault)?;
        if came.code != wanted.code || came.taken() != front || came.went_on() {
            self.different = self.different.saturating_add(1);
            print_case(rt, size, fault)?;
            print_both(rt, &came, wanted.code, front)?;
        }
        Ok(())
    }

    /// Tries each fault of a row whose bytes are moved in pieces of such a size, by what comes of
    /// it if nothing fails.
    fn try_faults(
        &mut self,
        rt: &HostRuntime,
        row: &Row,
        size: usize,
        plain: &Outcome,
    ) -> anyhow::Result<()> {
        self.try_case(rt, row, size, Fault::Nothing, plain)?;
        for read in 0..=plain.source.calls.before.len() {
            self.try_case(rt, row, size, Fault::Read(read.saturating_add(1)), plain)?;
        }
        for write in 0..=plain.sink.calls.before.len() {
            let fault = Fault::Write(write.saturating_add(1));
            self.try_case(rt, row, size, fault, plain)?;
        }
        let length = row.answer.len();
        for room in [0, 1, length / 2, length.saturating_sub(1), length] {
            self.try_case(rt, row, size, Fault::Full(room), plain)?;
        }
        Ok(())
    }
}

/// Prints the name and the words of a row.
fn print_row(rt: &HostRuntime, row: &Row) -> anyhow::Result<()> {
    let name = row.name.as_str();
    print!(rt; "{name}")?;
    for word in &row.words {
        let word = word.as_str();
        print!(rt; " {word}")?;
    }
    Ok(())
}

/// Tries each fault of a row with pieces of each of these sizes, and prints how many cases these
/// are. Whether all went as they should.
pub fn try_row(rt: &HostRuntime, row: &Row, sizes: &[usize]) -> anyhow::Result<bool> {
    print_row(rt, row)?;
    let mut cases = Cases {
        tried: 0,
        different: 0,
    };
    let mut code = 0;
    for size in sizes {
        let plain = came_of(rt.alloc(), row, *size, Fault::Nothing)?;
        cases.try_faults(rt, row, *size, &plain)?;
        code = plain.code;
    }
    let Cases { tried, different } = cases;
    if different == 0 {
        println!(rt; " {code}: {tried} cases, none different")?;
    } else {
        println!(rt; " {code}: {tried} cases, {different} different")?;
    }
    Ok(different == 0)
}
