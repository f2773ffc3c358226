ghost use Rattle.std.specs.Prelude.{◌≡◌, ◌<◌, ◌≤◌, ◌+◌, ◌*◌, length, take};
ghost use Rattle.state_codec.specs.Shapes.{fields_at, bytes_in, shape_nodes};
ghost use Rattle.state_codec.specs.Ranges.{InRange};
ghost use Rattle.state_codec.specs.Reading.{read};
ghost use Rattle.adversary_script.specs.Noise.{words_in};
ghost use Rattle.adversary_script.specs.Scripts.{most_rounds};

use state_codec::StateShape;
use sync_types::NodeState;

/// A state of noise: that of node `v` of a shape, in a turn of a stream. Each turn has the words
/// after those of the turn before.
#[derive(Clone, Copy)]
pub struct Draw<'a> {
    pub shape: &'a StateShape,
    pub v: u32,
    pub stream: u64,
    pub turn: u64,
    ghost node: { v < shape_nodes shape.now },
    ghost few: { turn ≤ most_rounds },
}

impl Draw<'_> {
    /// How many bytes it takes, at most 128.
    pub fn count(&self) -> usize
        ensures value { result ≡ bytes_in (fields_at self.now.shape.now self.now.v) }
        ensures most { result ≤ 128 }
    {
        self.shape.bytes_of(self.v)
    }

    /// The place of its first word.
    pub fn place(&self) -> u64
        ensures { result ≡ self.now.turn * words_in (fields_at self.now.shape.now self.now.v) }
    {
        self.turn * self.count().div_ceil(4) as u64
    }

    /// Reads it from the beginning of bytes into `out`; eight bytes more stand after it.
    pub fn read(&self, bytes: &[u8], out: &mut NodeState)
        requires within { bytes_in (fields_at self.now.shape.now self.now.v) + 8
            ≤ length bytes.now }
        requires depth { length out.old.registers ≡ self.now.shape.now.depth }
        ensures value { out.new ≡ read (fields_at self.now.shape.now self.now.v)
            (take (bytes_in (fields_at self.now.shape.now self.now.v)) bytes.now) }
        ensures range { InRange (fields_at self.now.shape.now self.now.v) out.new }
    {
        self.shape.read_front(self.v, bytes, out);
    }
}
