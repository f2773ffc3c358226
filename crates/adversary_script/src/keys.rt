ghost use Rattle.std.specs.Prelude.{◌≡◌};
ghost use Rattle.std.specs.List.{list_any};
ghost use Rattle.adversary_script.specs.NoiseSaid.{is_noise, says_noise, starts_with_noise};

use crate::lies::{CommonStart, Lie, What};
use crate::scripts::Script;

/// Whether what is said is noise.
fn is_noise(what: &What) -> bool
    ensures { result ≡ is_noise what.now }
{
    match what {
        What::Noise => true,
        What::Copy(_) | What::State(_) | What::Shift(_) => false,
    }
}

/// Whether one of the lies is noise.
fn any_is_noise(lies: &[Lie]) -> bool
    ensures { result ≡ list_any (λ lie. is_noise lie.what) lies.now }
{
    for lie in lies {
        if is_noise(&lie.what) {
            return true;
        }
    }
    false
}

/// Whether the nodes start with noise that have no start line of their own.
fn starts_with_noise(common: CommonStart) -> bool
    ensures { result ≡ starts_with_noise common }
{
    match common {
        CommonStart::Zero => false,
        CommonStart::Noise => true,
    }
}

impl Script {
    /// Whether it says noise: by `start noise`, or by a lie. Else its key counts for nothing.
    pub fn says_noise(&self) -> bool
        ensures { result ≡ says_noise self.now }
    {
        starts_with_noise(self.parts.common) || any_is_noise(&self.parts.lies)
    }

    /// Makes this the key of its noise.
    pub fn set_key(&mut self, key: [u8; 32])
        ensures { self.new ≡ record self.old { key = key } }
    {
        self.parts.key = key;
    }
}
