ghost use Rattle.std.specs.Prelude.{◌≡◌, ◌<◌};
ghost use Rattle.run_lines.specs.OutputTexts.{output_text};

use edge_io::RisingText;

/// What correct nodes show while they count: a number that rises by one modulo C, kept with its
/// text after a space.
#[derive(Drop)]
pub struct Output {
    value: u64,
    modulus: u64,
    text: RisingText,
    ghost below: { value < modulus },
    ghost same: { text ≡ output_text value },
}

impl Output {
    ghost use Rattle.std.specs.Prelude.{◌≡◌, ◌+◌, ◌%◌, ◌<◌};
    ghost use Rattle.run_lines.specs.OutputTexts.{output_text};

    /// This number, which is below its modulus.
    pub(crate) fn new(value: u64, modulus: u64) -> Output
        requires { value < modulus }
        ensures value { result.value ≡ value }
        ensures modulus { result.modulus ≡ modulus }
    {
        Output {
            value,
            modulus,
            text: RisingText::new(b" ", value),
        }
    }

    /// The number.
    pub fn value(&self) -> u64
        ensures { result ≡ self.now.value }
    {
        self.value
    }

    /// A space, and after it the number.
    pub fn text(&self) -> &RisingText
        ensures { result.now ≡ output_text self.now.value }
    {
        &self.text
    }

    /// Makes it the number of the next configuration.
    pub(crate) fn rise(&mut self)
        ensures value { self.new.value ≡ (self.old.value + 1) % self.old.modulus }
        ensures modulus { self.new.modulus ≡ self.old.modulus }
    {
        if self.value + 1 < self.modulus {
            self.value += 1;
            self.text.rise();
        } else {
            *self = Output::new(0, self.modulus);
        }
    }
}
