ghost use Rattle.std.specs.Prelude.{◌≡◌, ◌≤◌, slice_index, IfSome};
ghost use Rattle.texts.specs.Lines.{words_of};
ghost use Rattle.plan_reader.specs.PlanPart.{version_of, with_spares, level_quadruple};

use edge_io::{Words, number, numbers_after};

/// The version that the first line of a plan names, 1 or 2.
pub fn plan_version(line: &[u8]) -> Option<u32>
    ensures value { result ≡ version_of line.now }
    ensures range { IfSome result (λ version. (1 ≤ version) × (version ≤ 2)) }
{
    if line == b"plan 1".as_slice() {
        Some(1)
    } else if line == b"plan 2".as_slice() {
        Some(2)
    } else {
        None
    }
}

/// The numbers of a level line of version 2, `level K F C spare S`.
fn with_spares(line: &[u8]) -> Option<[u64; 4]>
    ensures { result ≡ with_spares (words_of line.now) }
{
    let mut words = Words::new(line);
    let level = words.next()?;
    let k = words.next()?;
    let f = words.next()?;
    let c = words.next()?;
    let spare = words.next()?;
    let s = words.next()?;
    if words.next().is_some() || level != b"level".as_slice() || spare != b"spare".as_slice() {
        return None;
    }
    Some([number(k)?, number(f)?, number(c)?, number(s)?])
}

/// The four numbers of a level line: blocks, faults, modulus and spares. In version 1 the line is
/// `level K F C`, and there are no spares.
pub fn level_quadruple(version: u32, line: &[u8]) -> Option<[u64; 4]>
    ensures value { result ≡ level_quadruple version (words_of line.now) }
    ensures fits { version ≡ 1 → IfSome result (λ numbers. slice_index numbers 3 ≡ 0) }
{
    if version == 1 {
        let numbers = numbers_after::<3>(line, b"level")?;
        Some([numbers[0], numbers[1], numbers[2], 0])
    } else {
        with_spares(line)
    }
}
