ghost use Rattle.std.specs.Prelude.{◌≡◌};
ghost use Rattle.sweep.specs.Keys.{key_of, KeysDiffer};

/// The key of a number: its eight bytes, the high one first, and 24 zeros.
pub fn key_of(seed: u64) -> [u8; 32]
    ensures { result ≡ key_of seed }
{
    let mut key = [0; 32];
    key[..8].copy_from_slice(&seed.to_be_bytes());
    key
}

/// No two numbers below 2^64 have one key, so that each run of a sweep is that of another key. The
/// function does nothing: its clause is the law.
pub fn keys_differ()
    ensures { KeysDiffer }
{}
