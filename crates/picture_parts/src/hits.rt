//! Whether a count was broken off, as far as counts show it.

ghost use Rattle.std.specs.Prelude.{◌≡◌};
ghost use Rattle.picture_parts.specs.Hits.{may_follow};

/// Whether a count that goes at least up to `most` may go on so: by one, or from its largest number
/// to 0.
fn may_follow(most: u64, before: u64, after: u64) -> bool
    ensures { result ≡ may_follow most before after }
{
    after.checked_sub(1) == Some(before) || (after == 0 && most <= before)
}

/// Whether a count was broken off, as far as numbers that are there show it.
pub fn breaks(most: u64, before: Option<u64>, after: Option<u64>) -> bool {
    match (before, after) {
        (Some(before), Some(after)) => !may_follow(most, before, after),
        _ => false,
    }
}
