//! Scripts: who is faulty when, in which states nodes start, and what a node hears of another.

use crate::bits::NO_BITS;
use crate::states::{Fields, State, ZERO_STATE, state_of};
use rand_chacha::ChaCha8Rng;
use rand_core::{Rng, SeedableRng};

/// Who hears a lie: all, the nodes from one to another, or the group of a number.
#[derive(Clone, Copy)]
pub enum Receivers {
    All,
    Between(u64, u64),
    Group(usize),
}

/// What a lie is: noise, the state of a node, bytes that are read, or the liar's own state shifted.
#[derive(Drop)]
pub enum Lie {
    Noise,
    Copy(u64),
    Bytes(Vec<u8>),
    Shift(u64),
}

/// A line of lies: in the rounds from `first` to `last` the sender says that lie to the receivers,
/// if it is faulty.
pub struct Rule {
    pub first: u64,
    pub last: u64,
    pub sender: u64,
    pub receivers: Receivers,
    pub lie: Lie,
}

// Written out, so that code that drops one has a single call.
impl Drop for Rule {
    fn drop(self) {
        let Rule {
            first: _,
            last: _,
            sender: _,
            receivers: _,
            lie,
        } = self;
        drop(lie);
    }
}

/// The bytes in which a node starts.
pub struct Start {
    pub node: u64,
    pub bytes: Vec<u8>,
}

// Written out, so that code that drops one has a single call.
impl Drop for Start {
    fn drop(self) {
        let Start { node: _, bytes } = self;
        drop(bytes);
    }
}

/// From configuration `first` on these nodes are faulty; some nodes are put into states there.
pub struct Era {
    pub first: u64,
    pub faulty: Vec<u64>,
    pub starts: Vec<Start>,
}

// Written out, so that code that drops one has a single call.
impl Drop for Era {
    fn drop(self) {
        let Era {
            first: _,
            faulty,
            starts,
        } = self;
        drop(faulty);
        drop(starts);
    }
}

/// A script of version 1 or 2: what its lines say, in their order. Version 1 has no eras.
pub struct Script {
    pub version: u64,
    pub faulty: Vec<u64>,
    pub key: Option<[u8; 32]>,
    pub noisy: bool,
    pub starts: Vec<Start>,
    pub eras: Vec<Era>,
    pub groups: Vec<Vec<u64>>,
    pub rules: Vec<Rule>,
    pub rounds: u64,
    pub first: u64,
    pub last: u64,
}

// Written out, so that code that drops one has a single call.
impl Drop for Script {
    fn drop(self) {
        let Script {
            version: _,
            faulty,
            key: _,
            noisy: _,
            starts,
            eras,
            groups,
            rules,
            rounds: _,
            first: _,
            last: _,
        } = self;
        drop(faulty);
        drop(starts);
        drop(eras);
        drop(groups);
        drop(rules);
    }
}

/// The word of a key at a place of a stream.
fn word(key: [u8; 32], stream: u64, place: u64) -> u32 {
    let mut generator = ChaCha8Rng::from_seed(key);
    generator.set_stream(stream);
    generator.set_word_pos(u128::from(place));
    generator.next_u32()
}

impl Rule {
    /// Whether it is a rule for what the sender says to the receiver in round `at`.
    fn matches(&self, script: &Script, at: u64, sender: u64, receiver: u64) -> bool {
        let listens = match self.receivers {
            Receivers::All => true,
            Receivers::Between(first, last) => first <= receiver && receiver <= last,
            Receivers::Group(group) => match script.groups.get(group) {
                Some(group) => group.contains(&receiver),
                None => false,
            },
        };
        self.first <= at && at <= self.last && self.sender == sender && listens
    }
}

/// The bytes of a node among those in which nodes start.
fn bytes_for(starts: &[Start], node: u64) -> Option<&[u8]> {
    for start in starts {
        if start.node == node {
            return Some(&start.bytes);
        }
    }
    None
}

impl Script {
    /// The era of configuration `at`, unless it is the first one.
    fn era(&self, at: u64) -> Option<&Era> {
        let mut last = None;
        for era in &self.eras {
            if era.first <= at {
                last = Some(era);
            }
        }
        last
    }

    /// The nodes that are faulty in configuration `at`.
    pub fn faulty_at(&self, at: u64) -> &[u64] {
        match self.era(at) {
            Some(era) => &era.faulty,
            None => &self.faulty,
        }
    }

    /// With which configuration the era of configuration `at` begins.
    pub fn era_at(&self, at: u64) -> u64 {
        match self.era(at) {
            Some(era) => era.first,
            None => 0,
        }
    }

    /// The state of some fields that is number `turn` of the noise of a stream.
    fn noise(&self, fields: &Fields, stream: u64, turn: u64) -> State {
        let bytes = fields.bytes();
        let words = bytes.wrapping_add(3) / 4;
        let first = turn.wrapping_mul(words);
        let key = self.key.unwrap_or([0; 32]);
        let mut bits = NO_BITS;
        for i in 0..words {
            let word = word(key, stream, first.wrapping_add(i));
            bits.put(u64::from(word.swap_bytes()), 32);
        }
        fields.read(bits.bytes(bytes))
    }

    /// What a sender says to a receiver in round `at` by the first rule that matches.
    fn told(&self, at: u64, sender: u64, receiver: u64) -> Option<&Lie> {
        for rule in &self.rules {
            if rule.matches(self, at, sender, receiver) {
                return Some(&rule.lie);
            }
        }
        None
    }

    /// What a faulty sender, whose states have these fields, says to a receiver in round `at`: by
    /// the first rule that matches, else its own state.
    pub fn lie(
        &self,
        fields: &Fields,
        config: &[State],
        at: u64,
        sender: u64,
        receiver: u64,
    ) -> State {
        let own = state_of(config, sender);
        match self.told(at, sender, receiver) {
            Some(Lie::Noise) => {
                let stream = sender.wrapping_mul(256).wrapping_add(receiver);
                self.noise(fields, stream, at)
            }
            Some(Lie::Copy(node)) => fields.shifted(&state_of(config, *node), 0),
            Some(Lie::Bytes(bytes)) => fields.read(bytes),
            Some(Lie::Shift(by)) => fields.shifted(&own, *by),
            None => own,
        }
    }

    /// The state of these fields in which a node starts: by its own line, else zero or noise.
    pub fn start(&self, fields: &Fields, node: u64) -> State {
        match bytes_for(&self.starts, node) {
            Some(bytes) => fields.read(bytes),
            None if self.noisy => self.noise(fields, node.wrapping_add(65536), 0),
            None => ZERO_STATE,
        }
    }

    /// The bytes of the state that a node is put into in configuration `at`, if it is.
    pub fn hit(&self, at: u64, node: u64) -> Option<&[u8]> {
        match self.era(at) {
            Some(era) if era.first == at => bytes_for(&era.starts, node),
            _ => None,
        }
    }
}
