ghost use Rattle.std.specs.Prelude.{◌≡◌, ◌<◌, ◌≤◌, ◌+◌, ◌^◌, ◌++◌};
ghost use Rattle.state_codec.specs.Bits.{bits};

/// Bits that do not fill a byte yet, and the place of the byte that they begin.
#[derive(Clone, Copy)]
pub struct Pending {
    pub at: usize,
    pub held: u64,
    pub count: u32,
    ghost few: { count < 8 },
    ghost within: { held < 2 ^ count },
}

/// A number of so many bits.
#[derive(Clone, Copy)]
pub struct SizedNumber {
    pub size: u32,
    pub value: u64,
    ghost short: { size ≤ 56 },
    ghost fits: { value < 2 ^ size },
}

impl SizedNumber {
    /// The number whose bits are those of this one, and after them those of another.
    pub fn joined(self, next: SizedNumber) -> SizedNumber
        requires { self.size + next.size ≤ 56 }
        ensures size { result.size ≡ self.size + next.size }
        ensures text { bits result.size result.value
            ≡ bits self.size self.value ++ bits next.size next.value }
    {
        SizedNumber {
            size: self.size + next.size,
            value: (self.value << next.size) | next.value,
        }
    }
}

/// Bits that do not fill a byte yet, and a number that is to be written after them.
#[derive(Clone, Copy)]
pub struct Waiting {
    pub pending: Pending,
    pub number: SizedNumber,
}
