ghost use Rattle.std.specs.Prelude.{◌≡◌, map};
ghost use Rattle.std.specs.String.{string_bytes};
ghost use Rattle.outcomes.specs.Commands.{table, named_in, seeded_command, command_of};

use edge_io::number;

/// The commands that read all of their input, at most 2^20 bytes, before they write.
#[derive(Clone, Copy, Debug, PartialEq, Eq)]
pub enum Batch {
    /// A run: its bound, the rows that its script shows, and its first locked configuration.
    Run,
    /// The certificate of a script's run.
    Record,
    /// Why the last era of a run locks.
    Explain,
    /// The table of a plan.
    Plan,
    /// The text of a plan in version 2.
    Upgrade,
    /// Whether a text is the table of some plan.
    Table,
    /// The plan of least bound that meets some wants, and the least costs that show it.
    Find,
    /// Who holds, by a slot table, at the outputs of the configurations that a script shows.
    Slots,
    /// The decisions of consensus in the slots that a script shows.
    Consensus,
    /// A run with simultaneous firing: which nodes fire at the end of each slot.
    Fire,
    /// A run with a replicated log: the entry that each slot puts.
    Log,
}

/// The commands of the table of words.
#[derive(Clone, Copy, Debug, PartialEq, Eq)]
pub enum Command {
    /// One that reads all of its input first.
    Batch(Batch),
    /// What a run certificate comes to, which is read line by line.
    Check,
    /// One node that is given packets: its cell at the start and after each packet.
    Node,
    /// The run of a plan and a script that are made of this seed, below 10^15. Nothing is read.
    Demo(u64),
}

/// The command of a single word.
fn command_named(word: &str) -> Option<Command>
    ensures { result ≡ named_in table word.now }
{
    if word == "run" {
        Some(Command::Batch(Batch::Run))
    } else if word == "record" {
        Some(Command::Batch(Batch::Record))
    } else if word == "explain" {
        Some(Command::Batch(Batch::Explain))
    } else if word == "plan" {
        Some(Command::Batch(Batch::Plan))
    } else if word == "upgrade" {
        Some(Command::Batch(Batch::Upgrade))
    } else if word == "table" {
        Some(Command::Batch(Batch::Table))
    } else if word == "find" {
        Some(Command::Batch(Batch::Find))
    } else if word == "slots" {
        Some(Command::Batch(Batch::Slots))
    } else if word == "consensus" {
        Some(Command::Batch(Batch::Consensus))
    } else if word == "fire" {
        Some(Command::Batch(Batch::Fire))
    } else if word == "log" {
        Some(Command::Batch(Batch::Log))
    } else if word == "check" {
        Some(Command::Check)
    } else if word == "node" {
        Some(Command::Node)
    } else {
        None
    }
}

/// The command of two words.
fn seeded_command(word: &str, seed: &str) -> Option<Command>
    ensures { result ≡ seeded_command word.now seed.now }
{
    if word == "demo" {
        number(seed.as_bytes()).map(Command::Demo)
    } else {
        None
    }
}

/// What words ask for: one word of the table, or `demo` and a number below 10^15. Other words are
/// no command.
pub fn command_of(words: &[String]) -> Option<Command>
    ensures { result ≡ command_of (map string_bytes words.now) }
{
    match words {
        [word] => command_named(word.as_str()),
        [word, seed] => seeded_command(word.as_str(), seed.as_str()),
        _ => None,
    }
}
