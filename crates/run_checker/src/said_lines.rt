ghost use Rattle.std.specs.Prelude.{◌≡◌, ◌∷◌};
ghost use Rattle.std.specs.Option.{option_map};
ghost use Rattle.run_checker.specs.Items.{one_said, run_item, base_item, level_said};
ghost use Rattle.run_checker.specs.Items.{start_said, lie_said, row_said, era_said, end_said};
ghost use Rattle.run_checker.specs.Items.{item_of, said};
ghost use Rattle.run_checker.specs.SaidLines.{item_or_none, only_number, spares_in, only_word};

use edge_io::{LONGEST_LINE, Words, number};

/// What a line of a certificate says, as its first word has it. Lists of numbers are still to be
/// read, and so is whether the word of a state is of digits.
#[derive(Drop)]
pub enum CertificateLine<'a> {
    /// `run V`
    Run(u64),
    /// `base C`
    Base(u64),
    /// `level K F C`, or with ` spare S` after it.
    Level(u64, u64, u64, Option<u64>),
    /// `faulty`, and ids.
    Faulty(Words<'a>),
    /// `start V H`
    Start(u64, &'a [u8]),
    /// `row T`, and a word for each node.
    Row(u64, Words<'a>),
    /// `lie U V H`
    Lie(u64, u64, &'a [u8]),
    /// `era T`, and ids.
    Era(u64, Words<'a>),
    /// `end`
    End,
}

/// The one number that is left, if there is just one word and it is a number.
fn one_number(mut words: Words<'_>) -> Option<u64>
    ensures { result ≡ only_number words.entry }
{
    let value = number(words.next()?)?;
    match words.next() {
        Some(_) => None,
        None => Some(value),
    }
}

fn run_said<'a>(words: Words<'a>) -> Option<CertificateLine<'a>>
    ensures { item_or_none result ≡ one_said run_item words.entry }
{
    let version = one_number(words)?;
    Some(CertificateLine::Run(version))
}

fn base_said<'a>(words: Words<'a>) -> Option<CertificateLine<'a>>
    ensures { item_or_none result ≡ one_said base_item words.entry }
{
    let base = one_number(words)?;
    Some(CertificateLine::Base(base))
}

/// The spares of a level: none if no word is left, and else `spare S`.
fn spares_said(mut words: Words<'_>) -> Option<Option<u64>>
    ensures { result ≡ spares_in words.entry }
{
    match words.next() {
        None => Some(None),
        Some(key) => {
            let spares = one_number(words)?;
            if key == b"spare".as_slice() {
                Some(Some(spares))
            } else {
                None
            }
        }
    }
}

fn level_said<'a>(mut words: Words<'a>) -> Option<CertificateLine<'a>>
    ensures { item_or_none result ≡ level_said words.entry }
{
    let blocks = number(words.next()?)?;
    let faults = number(words.next()?)?;
    let modulus = number(words.next()?)?;
    let spares = spares_said(words)?;
    Some(CertificateLine::Level(blocks, faults, modulus, spares))
}

/// The one word that is left. Whether it is of digits is seen when a state is read from it.
fn one_word<'a>(mut words: Words<'a>) -> Option<&'a [u8]>
    ensures { option_map (λ word. word.now) result ≡ only_word words.entry }
{
    let word = words.next()?;
    match words.next() {
        Some(_) => None,
        None => Some(word),
    }
}

fn start_said<'a>(mut words: Words<'a>) -> Option<CertificateLine<'a>>
    ensures { item_or_none result ≡ start_said words.entry }
{
    let node = number(words.next()?)?;
    let digits = one_word(words)?;
    Some(CertificateLine::Start(node, digits))
}

fn lie_said<'a>(mut words: Words<'a>) -> Option<CertificateLine<'a>>
    ensures { item_or_none result ≡ lie_said words.entry }
{
    let sender = number(words.next()?)?;
    let receiver = number(words.next()?)?;
    let digits = one_word(words)?;
    Some(CertificateLine::Lie(sender, receiver, digits))
}

fn row_said<'a>(mut words: Words<'a>) -> Option<CertificateLine<'a>>
    ensures { item_or_none result ≡ row_said words.entry }
{
    let at = number(words.next()?)?;
    Some(CertificateLine::Row(at, words))
}

fn era_said<'a>(mut words: Words<'a>) -> Option<CertificateLine<'a>>
    ensures { item_or_none result ≡ era_said words.entry }
{
    let at = number(words.next()?)?;
    Some(CertificateLine::Era(at, words))
}

fn end_said<'a>(mut words: Words<'a>) -> Option<CertificateLine<'a>>
    ensures { item_or_none result ≡ end_said words.entry }
{
    match words.next() {
        Some(_) => None,
        None => Some(CertificateLine::End),
    }
}

/// What the words after the first one say.
fn said_behind<'a>(key: &[u8], words: Words<'a>) -> Option<CertificateLine<'a>>
    ensures { item_or_none result ≡ item_of (key.now ∷ words.entry) }
{
    if key == b"lie".as_slice() {
        return lie_said(words);
    }
    if key == b"row".as_slice() {
        return row_said(words);
    }
    if key == b"start".as_slice() {
        return start_said(words);
    }
    if key == b"era".as_slice() {
        return era_said(words);
    }
    if key == b"end".as_slice() {
        return end_said(words);
    }
    if key == b"faulty".as_slice() {
        return Some(CertificateLine::Faulty(words));
    }
    if key == b"level".as_slice() {
        return level_said(words);
    }
    if key == b"base".as_slice() {
        return base_said(words);
    }
    if key == b"run".as_slice() {
        return run_said(words);
    }
    None
}

/// What a line says.
pub fn read_said<'a>(line: &'a [u8]) -> Option<CertificateLine<'a>>
    ensures { item_or_none result ≡ said line.now }
{
    if line.len() > LONGEST_LINE {
        return None;
    }
    let mut words = Words::new(line);
    let key = words.next()?;
    said_behind(key, words)
}
