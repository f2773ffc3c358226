ghost use Rattle.std.specs.Prelude.{◌≡◌, ◌≤◌, ◌<◌, ◌+◌, ◌^◌, List, ℕ, length, drop, MatchResult};
ghost use Rattle.std.specs.Prelude.{IfOk, Ok};
ghost use Rattle.texts.specs.Lines.{lines_of, is_well_parted, has_empty_word, words_of};
ghost use Rattle.edge_io.specs.Taking.{Takes, FailsAsDefined};
ghost use Rattle.texts.specs.Parts.{Next, is_skipped, with_skips, part_from};

use crate::{PartError, Refused, TakeError, Words, first_line};

/// The length of the longest line that a part may have, in bytes, without its newline.
pub const LONGEST_LINE: usize = 4096;

/// A part that was read.
#[derive(Drop)]
pub struct PartRead<V> {
    /// What was read.
    pub value: V,
    /// How many bytes the text has through the part's last line, its newline included.
    pub bytes: usize,
    /// How many lines these are, skipped ones included.
    pub lines: u64,
}

/// What reads a part of a text line by line. `step` defines it: what a line does to the reader.
pub trait LineReader: Drop {
    /// What the whole part says.
    type Value;

    /// Why a line is refused.
    type Rule: Copy;

    ghost step: { Self → List ℕ → Next Self Self.Value Self.Rule };

    /// Takes the next line, without its newline, which is not skipped, not longer than
    /// `LONGEST_LINE` and well parted: Some value exactly if the part ends with it, `Refused`
    /// exactly if the line is refused, `NoMemory` if memory ran out.
    fn take(&mut self, line: &[u8]) -> Result<Option<Self::Value>, TakeError<Self::Rule>>
        ensures { Takes (step self.old line.now) self.new result };
}

/// Whether a line counts for nothing: an empty one, or one that begins with `#`.
pub fn is_skipped(line: &[u8]) -> bool
    ensures { result ≡ is_skipped line.now }
{
    line.is_empty() || line[0] == b'#'
}

/// Whether a word of the line is empty.
fn has_empty_word(line: &[u8]) -> bool
    ensures { result ≡ has_empty_word (words_of line.now) }
{
    for word in Words::new(line) {
        if word.is_empty() {
            return true;
        }
    }
    false
}

/// Whether the words of a line are parted by exactly one space, with none before the first or after
/// the last, and no byte is a carriage return.
fn is_well_parted(line: &[u8]) -> bool
    ensures { result ≡ is_well_parted line.now }
{
    !has_empty_word(line) && !line.contains(&b'\r')
}

/// Takes a line of a part, without its newline. A skipped line changes nothing; one that is longer
/// than `LONGEST_LINE`, or not well parted, is refused by `form`; the reader takes any other.
pub fn take_unless_skipped<P: LineReader>(
    reader: &mut P,
    form: P::Rule,
    line: &[u8],
) -> Result<Option<P::Value>, TakeError<P::Rule>>
    ensures { Takes (with_skips P.step form reader.old line.now) reader.new result }
{
    if line.len() > LONGEST_LINE {
        return Err(TakeError::Refused(form));
    }
    if is_skipped(line) {
        return Ok(None);
    }
    if !is_well_parted(line) {
        return Err(TakeError::Refused(form));
    }
    reader.take(line)
}

/// Reads a part from the beginning of a text, whose first line has the number `first`. Empty lines
/// and those that begin with `#` are skipped.
///
/// `Refused` comes exactly if a line is refused, with the number of the first such line: by the
/// reader's rule, or by `form` if it is longer than `LONGEST_LINE`, has an empty word or holds a
/// carriage return. A text that ends before the part does is refused by `form` at the line after
/// its last. `NoMemory` comes if the reader ran out of memory.
pub fn read_part<P: LineReader>(
    mut reader: P,
    form: P::Rule,
    text: &[u8],
    first: u64,
) -> Result<PartRead<P::Value>, PartError<P::Rule>>
    requires { first + length text.now < 2 ^ 64 }
    ensures exact { MatchResult result
        (λ x. part_from (with_skips P.step form) form reader 0 first (lines_of text.now)
        ≡ Ok (record {
          value = x.value;
          taken = x.lines;
          behind = lines_of (drop x.bytes text.now);
        }))
        (λ e. FailsAsDefined e
        (part_from (with_skips P.step form) form reader 0 first (lines_of text.now))) }
    ensures within { IfOk result (λ x. x.bytes ≤ length text.now) }
    ensures lines { IfOk result (λ x. x.lines ≤ x.bytes) }
{
    let mut rest = text;
    let mut number = first;
    let mut lines: u64 = 0;
    while !rest.is_empty() {
        let (line, behind) = first_line(rest);
        match take_unless_skipped(&mut reader, form, line) {
            Err(TakeError::Refused(rule)) => {
                return Err(PartError::Refused(Refused { line: number, rule }));
            }
            Err(TakeError::NoMemory) => return Err(PartError::NoMemory),
            Ok(Some(value)) => {
                return Ok(PartRead {
                    value,
                    bytes: text.len() - behind.len(),
                    lines: lines + 1,
                });
            }
            Ok(None) => {}
        }
        rest = behind;
        number += 1;
        lines += 1;
    }
    Err(PartError::Refused(Refused {
        line: number,
        rule: form,
    }))
}
