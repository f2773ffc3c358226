use majority_votes::{NoMemory, Tally};
use std::alloc::Global;
use std::test::Fail;

/// A tally that has room for seven values.
fn tally_of(alloc: Global, values: &[Option<u64>]) -> Result<Tally, NoMemory> {
    let mut tally = Tally::new(alloc, 7)?;
    add_all(&mut tally, values);
    Ok(tally)
}

fn add_all(tally: &mut Tally, values: &[Option<u64>]) {
    for value in values {
        if tally.len() < tally.capacity() {
            tally.add(*value);
        }
    }
}

/// Four values, two of which are equal.
const PAIR: [Option<u64>; 4] = [Some(3), Some(3), Some(5), None];

/// Seven values, four of which are equal.
const FOUR: [Option<u64>; 7] = [Some(9), None, Some(4), Some(9), Some(2), Some(9), Some(9)];

/// Whether a tally answers as one of the four values does.
fn counts_pair(tally: &Tally) -> bool {
    tally.len() == 4
        && tally.majority().is_none()
        && tally.count_of(Some(3)) == 2
        && tally.count_of(None) == 1
        && tally.count_of(Some(4)) == 0
        && tally.least_above(1) == Some(3)
        && tally.least_above(2).is_none()
}

/// Whether a tally answers as one of the seven values does.
fn counts_four(tally: &Tally) -> bool {
    tally.len() == 7
        && tally.majority() == Some(9)
        && tally.count_of(Some(3)) == 0
        && tally.least_above(0) == Some(2)
        && tally.least_above(3) == Some(9)
}

#[test]
fn worked_list(rt: HostRuntime) -> Result<(), Fail> {
    let tally = tally_of(rt.alloc(), &PAIR)?;
    assert!(rt; counts_pair(&tally));
    Ok(())
}

#[test]
fn cleared_and_filled_again(rt: HostRuntime) -> Result<(), Fail> {
    let mut tally = tally_of(rt.alloc(), &PAIR)?;
    tally.clear();
    assert!(rt; tally.is_empty() && tally.capacity() == 7);
    add_all(&mut tally, &FOUR);
    assert!(rt; counts_four(&tally));
    Ok(())
}

#[test]
fn want_of_memory_has_a_text(rt: HostRuntime) -> Result<(), Fail> {
    let text = format!(in rt.alloc(); "{NoMemory}")?;
    assert!(rt; text.as_str() == "out of memory");
    Ok(())
}
