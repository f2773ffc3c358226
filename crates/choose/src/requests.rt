//! What the words ask for.

ghost use Rattle.std.specs.Prelude.{◌≡◌, map, string_bytes, IfSome};
ghost use Rattle.texts.specs.Numbers.{number_of};
ghost use Rattle.plan_finder.specs.FindPart.{IsFit};
ghost use Rattle.choose.specs.Requests.{want_with, want_by, search_of, request_of};
ghost use Rattle.choose.specs.Requests.{room_with, room_by, within_of, IsRoom, HasFitWant};

use edge_io::number;
use plan_finder::Want;

/// Which plans are looked at.
#[derive(Clone, Copy, Debug, PartialEq, Eq)]
pub enum Scope {
    /// Those of both constructions.
    Both,
    /// Those of the boosting construction alone.
    Boosting,
}

/// What a plan may take, and what it is to count by.
#[derive(Clone, Copy, Debug, PartialEq, Eq)]
pub struct Room {
    /// How many nodes it has at most, 1 to 256.
    pub nodes: u64,
    /// Its bound at most, in rounds.
    pub bound: u64,
    /// The modulus that it counts by, 2 to 2^40.
    pub modulus: u64,
}

/// What is asked for.
#[derive(Clone, Copy, Debug, PartialEq, Eq)]
pub enum Request {
    /// The lines of a front for these wants.
    Front(Scope, Want),
    /// The text of the last plan of a front for these wants.
    LastPlan(Scope, Want),
    /// The line of the plan that tolerates the most faults within this room.
    Most(Room),
    /// The text of that plan.
    MostPlan(Room),
}

/// The most nodes, if they are left out.
const MOST_NODES: Option<u64> = Some(256);

/// The wants with these numbers, if they keep the limits.
fn want_with(faults: u64, modulus: u64, most: u64) -> Option<Want>
    ensures value { result ≡ want_with faults modulus most }
    ensures fits { IfSome result IsFit }
{
    if faults > 85 || modulus < 2 || modulus > 1 << 40 || most < 1 || most > 256 {
        return None;
    }
    Some(Want {
        faults,
        modulus,
        most,
    })
}

/// The same, if each of them is a number.
fn want_by(faults: Option<u64>, modulus: Option<u64>, most: Option<u64>) -> Option<Want>
    ensures value { result ≡ want_by faults modulus most }
    ensures fits { IfSome result IsFit }
{
    match (faults, modulus, most) {
        (Some(faults), Some(modulus), Some(most)) => want_with(faults, modulus, most),
        _ => None,
    }
}

/// The wants of two words and of how many nodes there may be.
fn wanted(faults: &str, modulus: &str, most: Option<u64>) -> Option<Want>
    ensures value { result ≡ want_by (number_of faults.now) (number_of modulus.now) most }
    ensures fits { IfSome result IsFit }
{
    want_by(number(faults.as_bytes()), number(modulus.as_bytes()), most)
}

/// What words without a construction before them search.
fn search_of(scope: Scope, words: &[String]) -> Option<Request>
    ensures value { result ≡ search_of scope (map string_bytes words.now) }
    ensures fits { IfSome result HasFitWant }
{
    match words {
        [faults, modulus] => {
            let want = wanted(faults.as_str(), modulus.as_str(), MOST_NODES)?;
            Some(Request::Front(scope, want))
        }
        [faults, modulus, last] => {
            if last.as_str() == "plan" {
                let want = wanted(faults.as_str(), modulus.as_str(), MOST_NODES)?;
                return Some(Request::LastPlan(scope, want));
            }
            let most = number(last.as_bytes());
            let want = wanted(faults.as_str(), modulus.as_str(), most)?;
            Some(Request::Front(scope, want))
        }
        [faults, modulus, most, last] => {
            if last.as_str() != "plan" {
                return None;
            }
            let most = number(most.as_bytes());
            let want = wanted(faults.as_str(), modulus.as_str(), most)?;
            Some(Request::LastPlan(scope, want))
        }
        _ => None,
    }
}

/// The room with these numbers, if they keep the limits.
fn room_with(nodes: u64, bound: u64, modulus: u64) -> Option<Room>
    ensures value { result ≡ room_with nodes bound modulus }
    ensures fits { IfSome result IsRoom }
{
    if nodes < 1 || nodes > 256 || modulus < 2 || modulus > 1 << 40 {
        return None;
    }
    Some(Room {
        nodes,
        bound,
        modulus,
    })
}

/// The room of three words.
fn room_by(nodes: &str, bound: &str, modulus: &str) -> Option<Room>
    ensures value { result ≡ room_by (number_of nodes.now) (number_of bound.now)
        (number_of modulus.now) }
    ensures fits { IfSome result IsRoom }
{
    let nodes = number(nodes.as_bytes())?;
    let bound = number(bound.as_bytes())?;
    let modulus = number(modulus.as_bytes())?;
    room_with(nodes, bound, modulus)
}

/// What words after `within` ask for.
fn within_of(words: &[String]) -> Option<Request>
    ensures value { result ≡ within_of (map string_bytes words.now) }
    ensures fits { IfSome result HasFitWant }
{
    match words {
        [nodes, bound, modulus] => {
            let room = room_by(nodes.as_str(), bound.as_str(), modulus.as_str())?;
            Some(Request::Most(room))
        }
        [nodes, bound, modulus, last] => {
            if last.as_str() != "plan" {
                return None;
            }
            let room = room_by(nodes.as_str(), bound.as_str(), modulus.as_str())?;
            Some(Request::MostPlan(room))
        }
        _ => None,
    }
}

/// What these words ask for: None exactly if they ask for no plan.
pub fn request_of(words: &[String]) -> Option<Request>
    ensures value { result ≡ request_of (map string_bytes words.now) }
    ensures fits { IfSome result HasFitWant }
{
    match words {
        [first, _, ..] => {
            if first.as_str() == "boosting" {
                search_of(Scope::Boosting, &words[1..])
            } else if first.as_str() == "within" {
                within_of(&words[1..])
            } else {
                search_of(Scope::Both, words)
            }
        }
        _ => None,
    }
}
