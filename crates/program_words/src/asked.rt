//! What words ask for.

ghost use Rattle.std.specs.Prelude.{◌≡◌, map, string_bytes, Some};
ghost use Rattle.program_words.specs.Asked.{asked_alone, asked_by, for_request, IfRequest};

/// What the words of a program ask for.
#[derive(Clone, Copy, Debug, PartialEq, Eq)]
pub enum Asked<Q> {
    /// How the program is used.
    Help,
    /// Its name and version.
    Version,
    /// What this program alone does.
    Request(Q),
    /// Nothing that it does.
    Nothing,
}

/// What is asked for by words that are neither `--help` nor `--version`.
fn for_request<Q: Copy>(request: Option<Q>) -> Asked<Q>
    ensures value { result ≡ for_request request }
    ensures request { IfRequest result (λ q. request ≡ Some q) }
{
    match request {
        Some(request) => Asked::Request(request),
        None => Asked::Nothing,
    }
}

/// What a single word asks for.
fn asked_alone<Q: Copy>(word: &str, request: Option<Q>) -> Asked<Q>
    ensures value { result ≡ asked_alone word.now request }
    ensures request { IfRequest result (λ q. request ≡ Some q) }
{
    if word == "--help" {
        Asked::Help
    } else if word == "--version" {
        Asked::Version
    } else {
        for_request(request)
    }
}

/// What words ask for: `--help` and `--version`, alone, for what they say, and all others for what
/// the program takes them for.
pub fn asked_by<Q: Copy>(words: &[String], request: Option<Q>) -> Asked<Q>
    ensures value { result ≡ asked_by (map string_bytes words.now) request }
    ensures request { IfRequest result (λ q. request ≡ Some q) }
{
    match words {
        [word] => asked_alone(word.as_str(), request),
        _ => for_request(request),
    }
}
