//! Numbers that are drawn.

ghost use Rattle.std.specs.Prelude.{◌≡◌, ◌<◌, ◌≤◌, ◌-◌};
ghost use Rattle.attack.specs.Draws.{mixed, drawn, below};

/// How far the stream of a seed goes on with each number.
const STRIDE: u64 = 0x9e37_79b9_7f4a_7c15;

/// A word that is made of another: each bit of that changes about half of its bits.
#[tactic(auto, unfolding(crate::specs::Draws::mixed))]
fn mixed(value: u64) -> u64
    ensures { result ≡ mixed value }
{
    let first = (value ^ (value >> 30)).wrapping_mul(0xbf58_476d_1ce4_e5b9);
    let second = (first ^ (first >> 27)).wrapping_mul(0x94d0_49bb_1331_11eb);
    second ^ (second >> 31)
}

/// From what numbers are drawn: the stream of SplitMix64 of a seed. Each place of it has its
/// number, whatever was drawn before.
#[derive(Clone, Copy, Debug, PartialEq, Eq)]
pub struct Lot {
    pub seed: u64,
}

impl Lot {
    /// The number at a place, the first place being 0.
    #[tactic(auto, unfolding(crate::specs::Draws::drawn))]
    pub fn number(self, place: u64) -> u64
        ensures { result ≡ drawn self.seed place }
    {
        let steps = place.wrapping_add(1);
        mixed(self.seed.wrapping_add(steps.wrapping_mul(STRIDE)))
    }

    /// One below `count` by the number at a place; 0 if `count` is 0.
    #[tactic(auto, unfolding(crate::specs::Draws::below))]
    pub fn below(self, place: u64, count: u64) -> u64
        ensures value { result ≡ below self.seed place count }
        ensures most { result ≤ count - 1 }
    {
        if count == 0 {
            return 0;
        }
        self.number(place) % count
    }

    /// The lot whose seed is the number at a place.
    pub fn part(self, place: u64) -> Lot
        ensures { result.seed ≡ drawn self.seed place }
    {
        Lot {
            seed: self.number(place),
        }
    }
}
