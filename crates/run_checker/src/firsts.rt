ghost use Rattle.std.specs.Prelude.{◌≡◌};
ghost use Rattle.round_runner.specs.Locks.{first_of};

/// The first of some numbers: the one that was known before, or this one, if it is one of them.
pub fn first_of(known: Option<u64>, is_one: bool, now: u64) -> Option<u64>
    ensures { result ≡ first_of known is_one now }
{
    match known {
        Some(before) => Some(before),
        None => { if is_one { Some(now) } else { None } }
    }
}
