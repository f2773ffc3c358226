ghost use Rattle.std.specs.Prelude.{◌≡◌};
ghost use Rattle.adversary_script.specs.Kinds.{start_kind, kind_of, may_follow_start, may_follow};
ghost use Rattle.adversary_script.specs.Answers.{ReadsFront};

use edge_io::Words;

/// The kinds of a script's lines.
#[derive(Clone, Copy, PartialEq, Eq)]
pub enum Kind {
    /// `script 1` or `script 2`
    Script,
    /// `faulty`
    Faulty,
    /// `seed`
    Seed,
    /// `start zero`
    StartZero,
    /// `start noise`
    StartNoise,
    /// `start node`
    StartNode,
    /// `era`
    Era,
    /// `group`
    Group,
    /// `lie`
    Lie,
    /// `rounds`
    Rounds,
    /// `show`
    Show,
    /// `end`
    End,
}

/// Takes the word after `start`, which says of which kind the line is.
fn start_kind(words: &mut Words) -> Option<Kind>
    ensures { ReadsFront result (start_kind words.old) words.new }
{
    let word = words.next()?;
    if word == b"zero".as_slice() {
        return Some(Kind::StartZero);
    }
    if word == b"noise".as_slice() {
        return Some(Kind::StartNoise);
    }
    if word == b"node".as_slice() {
        return Some(Kind::StartNode);
    }
    None
}

/// Takes the one or two words that say of which kind a line is.
pub fn read_kind(words: &mut Words) -> Option<Kind>
    ensures { ReadsFront result (kind_of words.old) words.new }
{
    let word = words.next()?;
    if word == b"start".as_slice() {
        return start_kind(words);
    }
    if word == b"lie".as_slice() {
        return Some(Kind::Lie);
    }
    if word == b"group".as_slice() {
        return Some(Kind::Group);
    }
    if word == b"script".as_slice() {
        return Some(Kind::Script);
    }
    if word == b"faulty".as_slice() {
        return Some(Kind::Faulty);
    }
    if word == b"seed".as_slice() {
        return Some(Kind::Seed);
    }
    if word == b"era".as_slice() {
        return Some(Kind::Era);
    }
    if word == b"rounds".as_slice() {
        return Some(Kind::Rounds);
    }
    if word == b"show".as_slice() {
        return Some(Kind::Show);
    }
    if word == b"end".as_slice() {
        return Some(Kind::End);
    }
    None
}

/// Whether a line of a kind may stand after a start, or after an era.
fn may_follow_start(kind: Kind) -> bool
    ensures { result ≡ may_follow_start kind }
{
    kind == Kind::StartNode
        || kind == Kind::Era
        || kind == Kind::Group
        || kind == Kind::Lie
        || kind == Kind::Rounds
}

/// Whether a line of a kind may stand after one of another, or first if there is no other.
pub fn may_follow(last: Option<Kind>, kind: Kind) -> bool
    ensures { result ≡ may_follow last kind }
{
    match last {
        None => kind == Kind::Script,
        Some(Kind::Script) => kind == Kind::Faulty,
        Some(Kind::Faulty) => {
            kind == Kind::Seed || kind == Kind::StartZero || kind == Kind::StartNoise
        }
        Some(Kind::Seed) => kind == Kind::StartZero || kind == Kind::StartNoise,
        Some(Kind::StartZero) | Some(Kind::StartNoise) | Some(Kind::StartNode) | Some(Kind::Era) =>
            may_follow_start(kind),
        Some(Kind::Group) => kind == Kind::Group || kind == Kind::Lie || kind == Kind::Rounds,
        Some(Kind::Lie) => kind == Kind::Lie || kind == Kind::Rounds,
        Some(Kind::Rounds) => kind == Kind::Show,
        Some(Kind::Show) => kind == Kind::End,
        Some(Kind::End) => false,
    }
}
