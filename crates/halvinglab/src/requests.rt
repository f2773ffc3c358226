//! What the words ask for.

ghost use Rattle.std.specs.Prelude.{◌≡◌, map, string_bytes};
ghost use Rattle.halvinglab.specs.Requests.{request_alone, request_of};

use halving_runs::Shown;

/// A word that reads all of the input, and answers it.
#[derive(Clone, Copy, Debug, PartialEq, Eq)]
pub enum Whole {
    /// The table of the plan that is read.
    Plan,
    /// The run of the plan and the script that are read, with lines of this kind.
    Play(Shown),
}

/// What is asked for.
#[derive(Clone, Copy, Debug, PartialEq, Eq)]
pub enum Request {
    /// The answer to all of the input.
    Whole(Whole),
    /// One node that is given packets: its cell at the start and after each packet.
    Node,
}

/// What a single word asks for.
fn request_alone(word: &str) -> Option<Request>
    ensures { result ≡ request_alone word.now }
{
    if word == "plan" {
        Some(Request::Whole(Whole::Plan))
    } else if word == "run" {
        Some(Request::Whole(Whole::Play(Shown::Rows)))
    } else if word == "slots" {
        Some(Request::Whole(Whole::Play(Shown::Holds)))
    } else if word == "consensus" {
        Some(Request::Whole(Whole::Play(Shown::Decisions)))
    } else if word == "fire" {
        Some(Request::Whole(Whole::Play(Shown::Fires)))
    } else if word == "log" {
        Some(Request::Whole(Whole::Play(Shown::Entries)))
    } else if word == "node" {
        Some(Request::Node)
    } else {
        None
    }
}

/// What these words ask for: None exactly if they ask for no answer and no node.
pub fn request_of(words: &[String]) -> Option<Request>
    ensures { result ≡ request_of (map string_bytes words.now) }
{
    match words {
        [word] => request_alone(word.as_str()),
        _ => None,
    }
}
