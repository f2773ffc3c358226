ghost use Rattle.std.specs.Prelude.{◌≡◌, ◌≤◌, ◌+◌, ◌*◌, ◌%◌, length, take, IfOk, IfSome};
ghost use Rattle.state_codec.specs.Shapes.{fields_at, bytes_in};
ghost use Rattle.state_codec.specs.Ranges.{InRange};
ghost use Rattle.adversary_script.specs.Noise.{key_in, words_in, noise_bytes, noise_state};

use crate::draws::Draw;
use crate::scripts::Script;
use crate::stretches::KeystreamBlock;
use rand_chacha::ChaCha8Rng;
use rand_core::SeedableRng;
use std::alloc::Global;
use std::marker::Model;
use sync_types::{FaultSet, NoMemory, NodeState};

/// The first pair of a node that is never faulty, and the place of a stretch that is not made yet.
const NONE: u32 = u32::MAX;

/// The noise of a script. Each word of it is given by the script's key, a stream and a place.
///
/// Words are made in stretches. It keeps the last one of each pair of a faulty node and a receiver
/// that was asked for, if it has room for them.
pub struct Noise {
    generator: ChaCha8Rng,
    // Those of pairs, in the order in which they were first asked for.
    stretches: Vec<KeystreamBlock>,
    // Where the stretch of a pair stands among these.
    places: Vec<u32>,
    // The first pair of each node that is faulty in some era, by id. Its others stand after it.
    firsts: Vec<u32>,
    key: [u8; 32],
}

// Written out, so that code that drops one has a single call.
impl Drop for Noise {
    fn drop(self) {
        let Noise {
            generator,
            stretches,
            places,
            firsts,
            key: _,
        } = self;
        drop(generator);
        drop(stretches);
        drop(places);
        drop(firsts);
    }
}

impl Model for Noise {
    ghost use Rattle.std.specs.Prelude.{ℕ, List, All, ◌≡◌};
    ghost use Rattle.adversary_script.specs.Noise.{key_in};

    ghost Value = { List ℕ };

    ghost view = { λ n. n.key };

    ghost invariant = { λ n. (n.generator.key ≡ key_in n.key)
        × All (λ s. s.key ≡ n.key) n.stretches.items };
}

/// A generator of a key, at the first word of stream 0.
#[tactic(auto, unfolding(crate::specs::Noise::key_in))]
fn generator_of(key: [u8; 32]) -> ChaCha8Rng
    ensures { result.key ≡ key_in key }
{
    ChaCha8Rng::from_seed(key)
}

/// Gives each of these nodes that has no pairs yet the next ones, one for each receiver. So many
/// were given before; the answer is how many are given after.
fn give_pairs(firsts: &mut [u32], given: u32, faulty: &FaultSet) -> u32 {
    let mut given = given;
    for i in 0..faulty.len() {
        if let Some(first) = firsts.get_mut(faulty.at(i) as usize) {
            if *first == NONE {
                *first = given;
                given = given.wrapping_add(faulty.nodes());
            }
        }
    }
    given
}

/// Gives each node that is faulty in some era its pairs, and answers how many there are.
fn give_all_pairs(script: &Script, firsts: &mut [u32]) -> u32 {
    let mut given = 0;
    for j in 0..script.eras() {
        given = give_pairs(firsts, given, script.era_faulty(j));
    }
    given
}

impl Noise {
    /// The noise of a script. It takes no memory.
    pub fn new(script: &Script) -> Noise
        ensures { result ≡ script.now.key }
    {
        let key = script.key();
        let alloc = script.alloc();
        Noise {
            generator: generator_of(key),
            stretches: Vec::new(alloc),
            places: Vec::new(alloc),
            firsts: Vec::new(alloc),
            key,
        }
    }

    /// The noise of a script, with room for a stretch for each pair of a node that is faulty in
    /// some era and a receiver: so a round's lies cost less. It takes all the memory that it ever
    /// needs, and makes a stretch when its pair is first asked for.
    pub fn with_room(alloc: Global, script: &Script) -> Result<Noise, NoMemory>
        ensures { IfOk result (λ noise. noise ≡ script.now.key) }
    {
        let mut noise = Noise::new(script);
        noise.firsts = vec![in alloc; NONE; script.faulty().nodes() as usize]?;
        let pairs = give_all_pairs(script, &mut noise.firsts) as usize;
        noise.places = vec![in alloc; NONE; pairs]?;
        noise.stretches = Vec::with_capacity(alloc, pairs)?;
        Ok(noise)
    }

    /// Begins anew as the noise of this key, with the same room. It takes no memory.
    pub fn restart(&mut self, key: [u8; 32])
        ensures { self.new ≡ key }
    {
        self.key = key;
        self.generator = generator_of(key);
        self.stretches.clear();
        self.places.fill(NONE);
    }

    /// The number of a pair, by its stream, if it is one.
    fn pair_of(&self, stream: u64) -> usize {
        match self.firsts.get((stream / 256) as usize) {
            Some(first) => u64::from(*first).wrapping_add(stream % 256) as usize,
            None => usize::MAX,
        }
    }

    /// The bytes of a state of noise, and eight more, if they were made.
    fn find(&self, draw: &Draw) -> Option<&[u8]>
        ensures size { IfSome result
            (λ bytes. bytes_in (fields_at draw.now.shape.now draw.now.v) + 8 ≤ length bytes.now) }
        ensures bytes { IfSome result
            (λ bytes. take (bytes_in (fields_at draw.now.shape.now draw.now.v)) bytes.now
            ≡ noise_bytes self.now draw.now.stream
            (draw.now.turn * words_in (fields_at draw.now.shape.now draw.now.v))
            (bytes_in (fields_at draw.now.shape.now draw.now.v))) }
    {
        let at = *self.places.get(self.pair_of(draw.stream))?;
        self.stretches
            .get(at as usize)?
            .find(draw.stream, draw.place(), draw.count())
    }

    /// Keeps a stretch as that of its pair, if it is one of a pair and there is room.
    fn keep(&mut self, stretch: KeystreamBlock)
        requires { stretch.key ≡ self.old }
        ensures { self.new ≡ self.old }
    {
        let pair = self.pair_of(stretch.stream);
        if pair >= self.places.len() {
            return;
        }
        let at = self.places[pair] as usize;
        if at < self.stretches.len() {
            self.stretches[at] = stretch;
        } else if self.stretches.len() < self.stretches.capacity() {
            self.places[pair] = u32::try_from(self.stretches.len()).unwrap_or(NONE);
            self.stretches.push(stretch).unwrap();
        }
    }

    /// Makes the words of a stream from the block of a place on.
    fn make(&mut self, stream: u64, place: u64) -> KeystreamBlock
        ensures key { result.key ≡ self.old }
        ensures stream { result.stream ≡ stream }
        ensures place { result.first + place % 16 ≡ place }
        ensures same { self.new ≡ self.old }
    {
        let stretch = KeystreamBlock::at(&mut self.generator, self.key, stream, place);
        self.keep(stretch);
        stretch
    }

    /// Fills `bytes`, at most 128, with those of a stream from a place on.
    pub fn fill_bytes(&mut self, stream: u64, first: u64, bytes: &mut [u8])
        requires { length bytes.old ≤ 128 }
        ensures bytes { bytes.new ≡ noise_bytes self.old stream first (length bytes.old) }
        ensures same { self.new ≡ self.old }
    {
        let stretch = self.make(stream, first);
        let count = bytes.len();
        bytes.copy_from_slice(&stretch.front((first % 16) as usize, count)[..count]);
    }

    /// Writes a state of noise, of which words may have been made.
    #[tactic(auto, unfolding(crate::specs::Noise::noise_state))]
    pub(crate) fn state_into(&mut self, draw: &Draw, out: &mut NodeState)
        requires { length out.old.registers ≡ draw.now.shape.now.depth }
        ensures value { out.new
            ≡ noise_state (fields_at draw.now.shape.now draw.now.v) self.old draw.now.stream
            draw.now.turn }
        ensures range { InRange (fields_at draw.now.shape.now draw.now.v) out.new }
        ensures same { self.new ≡ self.old }
    {
        match self.find(draw) {
            Some(bytes) => draw.read(bytes, out),
            None => self.make_state(draw, out),
        }
    }

    /// Writes a state of noise, of which it makes the words. A call takes room for these on the
    /// stack, so this is a function of its own, which `state_into` calls only if it must.
    #[inline(never)]
    #[tactic(auto, unfolding(crate::specs::Noise::noise_state))]
    pub(crate) fn make_state(&mut self, draw: &Draw, out: &mut NodeState)
        requires { length out.old.registers ≡ draw.now.shape.now.depth }
        ensures value { out.new
            ≡ noise_state (fields_at draw.now.shape.now draw.now.v) self.old draw.now.stream
            draw.now.turn }
        ensures range { InRange (fields_at draw.now.shape.now draw.now.v) out.new }
        ensures same { self.new ≡ self.old }
    {
        let place = draw.place();
        let stretch = self.make(draw.stream, place);
        draw.read(stretch.front((place % 16) as usize, draw.count()), out);
    }
}
