//! Want of memory. A tool refuses the allocation of a number that it was given; how many there are
//! before a call says which one of the call it is.

use edge_io::{NullSink, PlainSource, StdSource, read_all};
use std::alloc::Global;
use texts::LONGEST_INPUT;
use workbench::counterlab;

/// Takes memory so many times and gives it back, whether it is refused or not.
fn spend(alloc: Global, count: u64) {
    for _ in 0..count {
        match Vec::<u8>::with_capacity(alloc, 1) {
            Ok(_) | Err(_) => {}
        }
    }
}

/// Gives words and what stands in standard input to the workbench, after so many allocations, and
/// prints the exit code and how many bytes were taken.
pub fn try_words(rt: &HostRuntime, words: &[String], spent: u64) -> anyhow::Result<()> {
    let input = read_all(rt.alloc(), &mut StdSource::new(rt.stdin()), LONGEST_INPUT)?;
    let mut source = PlainSource::new(&input);
    let mut sink = NullSink::new();
    spend(rt.alloc(), spent);
    let status = counterlab(rt.alloc(), words, &mut source, &mut sink);
    let (code, count) = (status.code(), sink.count());
    println!(rt; "{code} {count}")?;
    Ok(())
}
