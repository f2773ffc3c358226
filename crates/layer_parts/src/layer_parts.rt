ghost use Rattle.std.specs.Prelude.{◌≡◌};
ghost use Rattle.layer_laws.specs.Numbers.{Numbers};
ghost use Rattle.layer_parts.specs.LayerWords.{LayerWords, IsFresh, IsSoundLayer};

use crate::counter_parts::CounterPart;
use counter_core::Overlay;
use layer_laws::CounterNumbers;
use layer_runner::Lines;

/// A part that says a layer above the counter, and is that layer.
pub trait LayerPart: CounterPart + Overlay {
    /// The lines that are written of the layer.
    type LayerLines: Lines<Self>;

    // The layer that is said, and what is written of it.
    ghost words: { LayerWords Self.Content Self.Kept };

    /// The lines for a counter of these numbers, which what is said fits.
    fn lines(numbers: &CounterNumbers) -> Self::LayerLines
        requires { (said : Self.Content) × Self.fits numbers.now said }
        ensures { Self.LayerLines.wording result ≡ words.wording numbers.now };

    // What is made of what is said is the layer, and has kept nothing yet.
    ghost fresh: { (numbers : Numbers) (said : Self.Content) (part : Self)
        → Self.is_made numbers said part
        → IsFresh words numbers said (Self.layer part) (Self.kept part) };

    // The layer is for the counter, and what is written while a script is played is what is
    // defined.
    ghost right: { IsSoundLayer words Self.registers Self.fits };
}
