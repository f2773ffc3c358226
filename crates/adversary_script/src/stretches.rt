ghost use Rattle.std.specs.Prelude.{◌≡◌, ◌≤◌, ◌+◌, ◌*◌, ◌%◌, length, take, IfSome};
ghost use Rattle.std.specs.Int.{div_ceil};
ghost use Rattle.adversary_script.specs.Noise.{key_in, noise_bytes};

use rand_chacha::ChaCha8Rng;
use rand_core::utils::fill_bytes_via_u32;

/// ChaCha makes four blocks of sixteen words at once.
const WORDS: usize = 64;

/// The bytes of these words.
const BYTES: usize = 256;

/// Eight bytes more are read with a state.
const ROOM: usize = 264;

/// Words of a stream from a place on, as bytes: as many as are made at once.
#[derive(Clone, Copy)]
pub struct KeystreamBlock {
    pub key: [u8; 32],
    pub stream: u64,
    pub first: u64,
    bytes: [u8; ROOM],
    ghost said: { take 256 bytes ≡ noise_bytes key stream first 256 },
}

/// Leads a generator to a place of a stream.
fn set_at(generator: &mut ChaCha8Rng, stream: u64, place: u64)
    ensures { generator.new ≡ record generator.old { stream = stream; word_pos = place } }
{
    if generator.get_stream() != stream {
        generator.set_stream(stream);
    }
    generator.set_word_pos(u128::from(place));
}

impl KeystreamBlock {
    /// The words of a stream from the block of a place on, by a generator of the key.
    pub fn at(generator: &mut ChaCha8Rng, key: [u8; 32], stream: u64, place: u64) -> KeystreamBlock
        requires { generator.old.key ≡ key_in key }
        ensures key { result.key ≡ key }
        ensures stream { result.stream ≡ stream }
        ensures place { result.first + place % 16 ≡ place }
        ensures same { generator.new.key ≡ generator.old.key }
    {
        let first = place - place % 16;
        set_at(generator, stream, first);
        let mut bytes = [0; ROOM];
        fill_bytes_via_u32(generator, &mut bytes[..BYTES]);
        KeystreamBlock {
            key,
            stream,
            first,
            bytes,
        }
    }

    /// So many bytes from a word on, and eight more.
    pub fn front(&self, at: usize, count: usize) -> &[u8]
        requires { 4 * at + count ≤ 256 }
        ensures size { count + 8 ≤ length result.now }
        ensures bytes { take count result.now
            ≡ noise_bytes self.now.key self.now.stream (self.now.first + at) count }
    {
        &self.bytes[4 * at..]
    }

    /// So many bytes from a place of a stream on, and eight more, if all these stand here.
    pub fn find(&self, stream: u64, place: u64, count: usize) -> Option<&[u8]>
        requires { count ≤ 128 }
        ensures size { IfSome result (λ bytes. count + 8 ≤ length bytes.now) }
        ensures bytes { IfSome result
            (λ bytes. take count bytes.now ≡ noise_bytes self.now.key stream place count) }
    {
        if self.stream != stream || place < self.first {
            return None;
        }
        let at = place - self.first;
        if at > (WORDS - count.div_ceil(4)) as u64 {
            return None;
        }
        Some(self.front(at as usize, count))
    }
}
