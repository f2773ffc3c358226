//! What the words ask for.

ghost use Rattle.std.specs.Prelude.{◌≡◌, map, string_bytes};
ghost use Rattle.states.specs.Requests.{request_of};

/// What these words ask for: None exactly if there is one. Without words the states of the input
/// are turned.
pub fn request_of(words: &[String]) -> Option<()>
    ensures { result ≡ request_of (map string_bytes words.now) }
{
    match words {
        [] => Some(()),
        _ => None,
    }
}
