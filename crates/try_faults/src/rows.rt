//! The rows: inputs, and what words answer to them.

use std::alloc::{AllocError, Global};
use std::rt::Files;
use std::{fs, io};

/// An input, the words that are given with it, and what they write.
pub struct Row {
    pub name: String,
    pub words: Vec<String>,
    pub input: Vec<u8>,
    pub answer: Vec<u8>,
}

// Written out, so that code that drops one has a single call.
impl Drop for Row {
    fn drop(self) {
        let Row {
            name,
            words,
            input,
            answer,
        } = self;
        drop(name);
        drop(words);
        drop(input);
        drop(answer);
    }
}

impl Row {
    /// A row without bytes, of a name and of words with an underscore between two of them.
    pub fn new(alloc: Global, name: &str, words: &str) -> Result<Row, AllocError> {
        let mut row = Row {
            name: String::new(alloc),
            words: Vec::new(alloc),
            input: Vec::new(alloc),
            answer: Vec::new(alloc),
        };
        row.name.push_str(name)?;
        for word in words.split('_') {
            row.words.push(String::from_str(alloc, word)?)?;
        }
        Ok(row)
    }

    /// Whether its words are this one alone.
    pub fn has_word(&self, wanted: &str) -> bool {
        match self.words.as_slice() {
            [word] => word.as_str() == wanted,
            _ => false,
        }
    }
}

/// The name and the words of a file that is an answer, which is `NAME.WORDS.out`.
pub fn parts_of(file: &str) -> Option<(&str, &str)> {
    file.strip_suffix(".out")?.split_once('.')
}

/// The bytes of a file of a folder.
fn bytes_of<R: Files + AllocGlobal>(
    rt: &R,
    folder: &str,
    name: &str,
    ending: &str,
) -> io::Result<Vec<u8>> {
    let path = format!(in rt.alloc(); "{folder}/{name}{ending}")?;
    fs::read(rt, path.as_str())
}

/// The row of a name and words. Its input is `NAME.txt`, and its answer `NAME.WORDS.out`.
pub fn row_of<R: Files + AllocGlobal>(
    rt: &R,
    folder: &str,
    file: &str,
    parts: (&str, &str),
) -> anyhow::Result<Row> {
    let (name, words) = parts;
    let mut row = Row::new(rt.alloc(), name, words)?;
    row.input = bytes_of(rt, folder, name, ".txt")?;
    row.answer = bytes_of(rt, folder, file, "")?;
    Ok(row)
}

/// The names of a folder's files, in order.
pub fn names_of(rt: &HostRuntime, folder: &str) -> io::Result<Vec<String>> {
    let mut names = Vec::new(rt.alloc());
    for entry in fs::read_dir(rt, folder)? {
        names.push(String::from_str(rt.alloc(), entry?.file_name())?)?;
    }
    names.sort()?;
    Ok(names)
}
