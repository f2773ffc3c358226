//! Texts that are written, though memory may be short.

use std::alloc::AllocError;

/// What is written after a text, and whether there was memory for all of it so far. Who makes one
/// asks at its end.
pub struct Text<'a> {
    text: &'a mut String,
    written: Result<(), AllocError>,
}

impl<'a> Text<'a> {
    /// Nothing so far, after a text.
    pub fn behind(text: &'a mut String) -> Text<'a> {
        Text {
            text,
            written: Ok(()),
        }
    }

    /// Whether there was memory for all that was written.
    pub fn end(self) -> Result<(), AllocError> {
        let Text { text: _, written } = self;
        written
    }

    /// Writes a word.
    pub fn word(&mut self, word: &str) {
        if self.written.is_ok() {
            self.written = self.text.push_str(word);
        }
    }

    /// Writes a word, and numbers, each after a space.
    pub fn put(&mut self, word: &str, numbers: &[u64]) {
        self.word(word);
        for number in numbers {
            if self.written.is_ok() {
                self.written = write!(self.text, " {number}");
            }
        }
    }

    /// Writes a line of a word and numbers.
    pub fn line(&mut self, word: &str, numbers: &[u64]) {
        self.put(word, numbers);
        self.word("\n");
    }

    /// Writes bytes as hex digits after a space.
    pub fn bytes(&mut self, bytes: &[u8]) {
        self.word(" ");
        for byte in bytes {
            if self.written.is_ok() {
                self.written = write!(self.text, "{byte:02x}");
            }
        }
    }
}
