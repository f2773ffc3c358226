ghost use Rattle.std.specs.Prelude.{◌≡◌, ◌+◌, ◌-◌, ◌<◌, ◌^◌, [], ◌∷◌, length, drop, position, ◌==◌};
ghost use Rattle.std.specs.Prelude.{List, ℕ};
ghost use Rattle.std.specs.Iterator.{YieldsFirstBy, YieldsFirstRef, item_count};
ghost use Rattle.texts.specs.Lines.{lines_of, words_of};
ghost use Rattle.edge_io.specs.Items.{line_item, numbered, words_left};

use std::marker::Model;

const NEWLINE: u8 = b'\n';

const SPACE: u8 = b' ';

/// Where the first newline stands.
pub(crate) fn newline_in(text: &[u8]) -> Option<usize>
    ensures { result ≡ position (λ b. b == 10) text.now }
{
    text.iter().position(|byte| *byte == NEWLINE)
}

/// Where the first space stands.
fn space_in(line: &[u8]) -> Option<usize>
    ensures { result ≡ position (λ b. b == 32) line.now }
{
    line.iter().position(|byte| *byte == SPACE)
}

/// The first line of a text that is not empty, without its newline, and what stands after that. The
/// text's end ends a line too.
pub fn first_line(text: &[u8]) -> (&[u8], &[u8])
    requires { 0 < length text.now }
    ensures line { lines_of text.now ≡ result.0.now ∷ lines_of result.1.now }
    ensures shorter { length result.1.now < length text.now }
    ensures behind { result.1.now ≡ drop (length text.now - length result.1.now) text.now }
{
    match newline_in(text) {
        Some(end) => (&text[..end], &text[end + 1..]),
        None => (text, &[]),
    }
}

/// The first word of a line, and what stands after the space that ends it.
fn first_word(line: &[u8]) -> (&[u8], Option<&[u8]>)
    ensures word { words_of line.now ≡ result.0.now ∷ words_left result.1 }
{
    match space_in(line) {
        Some(end) => (&line[..end], Some(&line[end + 1..])),
        None => (line, None),
    }
}

/// The words of a line: the pieces between single spaces, empty ones too. An empty line has one
/// word, the empty one.
#[derive(Drop)]
pub struct Words<'a> {
    rest: Option<&'a [u8]>,
}

impl<'a> Model for Words<'a> {
    ghost Value = { List (List ℕ) };

    ghost view = { λ w. words_left w.rest };
}

impl<'a> Words<'a> {
    /// The words of this line.
    pub fn new(line: &'a [u8]) -> Words<'a>
        ensures { result ≡ words_of line.now }
    {
        Words { rest: Some(line) }
    }
}

impl<'a> Iterator for Words<'a> {
    type Item = &'a [u8];

    ghost next_gives = { YieldsFirstRef (λ s. s) };

    ghost remaining = { item_count (λ s. s) };

    fn next(&mut self) -> Option<&'a [u8]> {
        let line = self.rest?;
        let (word, rest) = first_word(line);
        self.rest = rest;
        Some(word)
    }
}

/// The lines of a text without their newlines, each with its number. An empty rest after the last
/// newline is no line.
#[derive(Drop)]
pub struct Lines<'a> {
    rest: &'a [u8],
    number: u64,
}

impl<'a> Model for Lines<'a> {
    ghost Value = { List (ℕ × List ℕ) };

    ghost view = { λ l. numbered l.number (lines_of l.rest.now) };

    ghost invariant = { λ l. l.number + length l.rest.now < 2 ^ 64 };
}

impl<'a> Lines<'a> {
    /// The lines of this text, of which the first has the number `first`.
    pub fn new(text: &'a [u8], first: u64) -> Lines<'a>
        requires { first + length text.now < 2 ^ 64 }
        ensures { result ≡ numbered first (lines_of text.now) }
    {
        Lines {
            rest: text,
            number: first,
        }
    }
}

impl<'a> Iterator for Lines<'a> {
    type Item = (u64, &'a [u8]);

    ghost next_gives = { YieldsFirstBy line_item (λ s. s) };

    ghost remaining = { item_count (λ s. s) };

    fn next(&mut self) -> Option<(u64, &'a [u8])> {
        if self.rest.is_empty() {
            return None;
        }
        let number = self.number;
        let (line, rest) = first_line(self.rest);
        self.rest = rest;
        self.number += 1;
        Some((number, line))
    }
}
