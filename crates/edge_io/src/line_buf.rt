use crate::lines::newline_in;
use crate::{LONGEST_LINE, NoMemory};
use std::alloc::{AllocError, Global};
use std::marker::Model;

/// Room for one line of at most 4096 bytes.
pub struct LineBuf {
    bytes: Vec<u8>,
}

// Written out, so that code that drops one has a single call.
impl Drop for LineBuf {
    fn drop(self) {
        let LineBuf { bytes } = self;
        drop(bytes);
    }
}

impl Model for LineBuf {
    ghost use Rattle.std.specs.Prelude.{List, ℕ, ◌≤◌, vec_capacity};

    ghost Value = { List ℕ };

    ghost view = { λ l. l.bytes.items };

    ghost invariant = { λ l. 4096 ≤ vec_capacity l.bytes };
}

impl LineBuf {
    ghost use Rattle.std.specs.Prelude.{◌≡◌, ◌<◌, ◌≤◌, ◌+◌, [], ◌∷◌, ◌++◌, ◌==◌, length, None};
    ghost use Rattle.std.specs.Prelude.{IfOk, IfSome};
    ghost use Rattle.edge_io.specs.HeldLines.{IsLineOf};

    /// An empty line. It takes all memory that it ever needs; `NoMemory` comes if there is none.
    pub fn new(alloc: Global) -> Result<LineBuf, NoMemory>
        ensures { IfOk result (λ line. line ≡ []) }
    {
        match Vec::with_capacity(alloc, LONGEST_LINE) {
            Ok(bytes) => Ok(LineBuf { bytes }),
            Err(AllocError) => Err(NoMemory),
        }
    }

    /// The line that was read last, without its newline; after a fault, so much of it as was read.
    pub fn bytes(&self) -> &[u8]
        ensures { result.now ≡ self.now }
    {
        &self.bytes
    }

    pub(crate) fn is_empty(&self) -> bool
        ensures { result ≡ (length self.now == 0) }
    {
        self.bytes.is_empty()
    }

    pub(crate) fn clear(&mut self)
        ensures { self.new ≡ [] }
    {
        self.bytes.clear();
    }

    pub(crate) fn push(&mut self, byte: u8)
        requires { length self.old < 4096 }
        ensures { self.new ≡ self.old ++ byte ∷ [] }
    {
        self.bytes.push(byte).unwrap();
    }

    pub(crate) fn extend(&mut self, bytes: &[u8])
        requires { length self.old + length bytes.now ≤ 4096 }
        ensures { self.new ≡ self.old ++ bytes.now }
    {
        self.bytes.extend_from_slice(bytes).unwrap();
    }

    /// Takes the bytes before the first newline, if there is one and with it they are at most
    /// `most`, and answers how many these are. The line is empty before, and else stays so.
    pub(crate) fn copy_line(&mut self, bytes: &[u8], most: u64) -> Option<usize>
        requires empty { self.old ≡ [] }
        requires few { length bytes.now ≤ 4096 }
        ensures copied { IfSome result (IsLineOf bytes.now most self.new) }
        ensures none { result ≡ None → self.new ≡ [] }
    {
        let end = newline_in(bytes)?;
        if end as u64 >= most {
            return None;
        }
        self.extend(&bytes[..end]);
        Some(end + 1)
    }
}
