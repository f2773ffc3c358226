//! What the words ask for.

ghost use Rattle.std.specs.Prelude.{◌≡◌, map, string_bytes};
ghost use Rattle.trace.specs.Requests.{are_numbers, node_words, request_of, want_by};

use crate::wants::Want;
use edge_io::number;

/// Whether each word is a number.
fn are_numbers(words: &[String]) -> bool
    ensures { result ≡ are_numbers (map string_bytes words.now) }
{
    for word in words {
        if number(word.as_bytes()).is_none() {
            return false;
        }
    }
    true
}

/// The configurations from the one number to the other, if each is one and they are in order.
fn want_by(first: Option<u64>, last: Option<u64>) -> Option<Want>
    ensures { result ≡ want_by first last }
{
    match (first, last) {
        (Some(first), Some(last)) => {
            if last < first {
                None
            } else {
                Some(Want { first, last })
            }
        }
        _ => None,
    }
}

/// What these words ask for: None exactly if they ask for no trace. After the numbers of the
/// configurations stand those of nodes, which only the plan can say to be some.
pub fn request_of(words: &[String]) -> Option<Want>
    ensures { result ≡ request_of (map string_bytes words.now) }
{
    match words {
        [first, last, nodes @ ..] => {
            if !are_numbers(nodes) {
                return None;
            }
            want_by(number(first.as_bytes()), number(last.as_bytes()))
        }
        _ => None,
    }
}

/// The words after those of the configurations.
pub fn node_words(words: &[String]) -> &[String]
    ensures { map string_bytes result.now ≡ node_words (map string_bytes words.now) }
{
    match words {
        [_, _, nodes @ ..] => nodes,
        _ => &[],
    }
}
