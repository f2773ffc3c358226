ghost use Rattle.std.specs.Prelude.{◌≡◌, ◌<◌, ◌*◌, length, true, false, OnOk, OnErr};
ghost use Rattle.std.specs.List.{list_all};
ghost use Rattle.state_codec.specs.Shapes.{bytes_in, fields_at, shape_nodes};
ghost use Rattle.state_codec.specs.Ranges.{InRange};
ghost use Rattle.state_codec.specs.Texts.{is_lower_digit, is_state_text, decoded, written_text};
ghost use Rattle.state_codec.specs.Texts.{read_text};

use crate::fields::{MOST_BYTES, ROOM};
use crate::shapes::StateShape;
use sync_types::NodeState;
use thiserror::Error;

/// A text is not two digits of `0-9a-f` for each byte of a state.
#[derive(Clone, Copy, Debug, PartialEq, Eq, Error)]
#[error("not the hex digits of a state")]
pub struct NotState;

/// Whether each is a digit of `0-9a-f`. The crate `hex` would take upper case too.
fn all_lower(text: &[u8]) -> bool
    ensures { result ≡ list_all is_lower_digit text.now }
{
    text.iter()
        .all(|digit| matches!(*digit, b'0'..=b'9' | b'a'..=b'f'))
}

/// Turns digits into bytes.
fn decode_lower(text: &[u8], bytes: &mut [u8])
    requires length { length text.now ≡ 2 * length bytes.old }
    requires digits { list_all is_lower_digit text.now ≡ true }
    ensures length { length bytes.new ≡ length bytes.old }
    ensures value { bytes.new ≡ decoded text.now }
{
    let _fits = hex::decode_to_slice(text, bytes);
}

impl StateShape {
    /// Writes the bytes of a state of node `v` as digits of `0-9a-f` into `out`, which has just
    /// their length, `2 * bytes_of(v)`.
    pub fn write_hex(&self, v: u32, state: &NodeState, out: &mut [u8])
        requires node { v < shape_nodes self.now }
        requires range { InRange (fields_at self.now v) state.now }
        requires length { length out.old ≡ 2 * bytes_in (fields_at self.now v) }
        ensures { out.new ≡ written_text (fields_at self.now v) state.now }
    {
        let fields = self.fields(v);
        let mut buffer = [0; MOST_BYTES];
        let bytes = &mut buffer[..fields.bytes()];
        fields.write_state(state, bytes);
        let _fits = hex::encode_to_slice(&*bytes, out);
    }

    /// Reads a state of node `v` from hex digits into `out`, which has the depth of the shape. The
    /// error comes if the text is not `2 * bytes_of(v)` digits of `0-9a-f`, and leaves the state as
    /// it was.
    pub fn read_hex(&self, v: u32, text: &[u8], out: &mut NodeState) -> Result<(), NotState>
        requires node { v < shape_nodes self.now }
        requires depth { length out.old.registers ≡ self.now.depth }
        ensures accepted { OnOk result (is_state_text (fields_at self.now v) text.now ≡ true) }
        ensures value { OnOk result (out.new ≡ read_text (fields_at self.now v) text.now) }
        ensures range { OnOk result (InRange (fields_at self.now v) out.new) }
        ensures refused { OnErr result (is_state_text (fields_at self.now v) text.now ≡ false) }
        ensures unchanged { OnErr result (out.new ≡ out.old) }
    {
        let fields = self.fields(v);
        let size = fields.bytes();
        if text.len() != 2 * size || !all_lower(text) {
            return Err(NotState);
        }
        let mut buffer = [0; ROOM];
        decode_lower(text, &mut buffer[..size]);
        fields.read_front(&buffer, out);
        Ok(())
    }
}
