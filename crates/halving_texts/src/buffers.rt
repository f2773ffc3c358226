use edge_io::{Failed, Sink};
use std::alloc::Global;
use std::marker::Model;

/// A text in memory, which grows. A write fails only if memory is refused.
#[derive(Drop)]
pub struct TextBuffer {
    taken: Vec<u8>,
    faults: u64,
}

impl Model for TextBuffer {
    ghost use Rattle.halving_texts.specs.Buffers.{BufferState};

    ghost Value = { BufferState };

    ghost view = { λ b. record { taken = b.taken.items; faults = b.faults } };
}

impl TextBuffer {
    ghost use Rattle.std.specs.Prelude.{◌≡◌, []};

    /// An empty one.
    pub fn new(alloc: Global) -> TextBuffer
        ensures { result ≡ record { taken = []; faults = 0 } }
    {
        TextBuffer {
            taken: Vec::new(alloc),
            faults: 0,
        }
    }

    /// What was written so far.
    pub fn taken(&self) -> &[u8]
        ensures { result.now ≡ self.now.taken }
    {
        &self.taken
    }
}

impl Sink for TextBuffer {
    ghost use Rattle.halving_texts.specs.Buffers.{buffer_told};

    ghost told = { buffer_told };

    fn write(&mut self, bytes: &[u8]) -> Result<usize, Failed> {
        match self.taken.extend_from_slice(bytes) {
            Ok(()) => Ok(bytes.len()),
            Err(_) => {
                self.faults = self.faults.saturating_add(1);
                Err(Failed)
            }
        }
    }
}
