ghost use Rattle.std.specs.Prelude.{◌≡◌, ◌≤◌, length, slice_index, IfSome};
ghost use Rattle.texts.specs.Lines.{words_of};
ghost use Rattle.plan_certificate.specs.TableLines.{numbers_named, level_stated, plan_stated};
ghost use Rattle.plan_certificate.specs.TableLines.{version_named};

use edge_io::{Words, number};

/// The numbers of a line that is these names, each with a number after it, if so many words are
/// left. None exactly if the line is not of that shape.
fn numbers_named<const N: usize>(mut words: Words<'_>, names: &[u8]) -> Option<[u64; N]>
    requires { length (words_of names.now) ≡ N }
    ensures { result ≡ numbers_named (words_of names.now) words.entry }
{
    let mut numbers = [0; N];
    let mut i = 0;
    for name in Words::new(names) {
        if words.next()? != name {
            return None;
        }
        numbers[i] = number(words.next()?)?;
        i += 1;
    }
    match words.next() {
        Some(_) => None,
        None => Some(numbers),
    }
}

/// The version that the first line of a table names, 1 or 2.
pub fn table_version(line: &[u8]) -> Option<u32>
    ensures value { result ≡ version_named line.now }
    ensures range { IfSome result (λ version. (1 ≤ version) × (version ≤ 2)) }
{
    if line == b"table 1".as_slice() {
        Some(1)
    } else if line == b"table 2".as_slice() {
        Some(2)
    } else {
        None
    }
}

/// The numbers of the line of a level in a table, its spares last; version 1 has none.
pub fn level_stated(version: u32, line: &[u8]) -> Option<[u64; 11]>
    ensures value { result ≡ level_stated version (words_of line.now) }
    ensures fits { version ≡ 1 → IfSome result (λ numbers. slice_index numbers 10 ≡ 0) }
{
    let words = Words::new(line);
    if version == 1 {
        let n = numbers_named::<10>(
            words,
            b"level blocks leaders nodes faults beat span modulus bound bits",
        )?;
        Some([
            n[0], n[1], n[2], n[3], n[4], n[5], n[6], n[7], n[8], n[9], 0,
        ])
    } else {
        numbers_named::<11>(
            words,
            b"level blocks leaders nodes faults beat span modulus bound bits spare",
        )
    }
}

/// The numbers of the line of the whole plan in a table.
pub fn plan_stated(line: &[u8]) -> Option<[u64; 6]>
    ensures { result ≡ plan_stated (words_of line.now) }
{
    let mut words = Words::new(line);
    if words.next()? != b"plan".as_slice() {
        return None;
    }
    numbers_named::<6>(words, b"nodes faults modulus bound bits bytes")
}
