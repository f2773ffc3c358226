//! Does what the words ask for.

ghost use Rattle.std.specs.Prelude.{◌≡◌, map, string_bytes, IsErrOf};
ghost use Rattle.program_words.specs.Conduct.{LeavesUnread};
ghost use Rattle.attack.specs.AttacksWorked.{AttacksAreWorked};
ghost use Rattle.attack.specs.Conduct.{DoesAsked, LeavesUnsaid, asked_of};
ghost use Rattle.attack.specs.DrawsWorked.{DrawsAreWorked};
ghost use Rattle.attack.specs.FreshLaws.{PlansAreAttacked};
ghost use Rattle.attack.specs.ReadBack.{WrittenIsRead};
ghost use Rattle.attack.specs.RequestsWorked.{RequestsAreWorked};
ghost use Rattle.attack.specs.TriesWorked.{TriesAreWorked};

use crate::calling::attack_input;
use crate::finding::Found;
use crate::laws::written_is_read;
use crate::reasons::AttackError;
use crate::requests::{kind_words, request_of};
use crate::search_laws::{
    attacks_are_worked, draws_are_worked, fresh_attacks_are_read, requests_are_worked,
};
use edge_io::{Sink, Source, put_all};
use program_words::{Asked, ProgramError, asked_by};
use std::alloc::Global;

/// How the program is used.
const HELP: &[u8] = b"usage: attack SEED RUNS [KIND ..] < PLAN\n\
    Reads a plan, or a halving plan, tries RUNS attacks on it, and writes the\n\
    plan and the attack that locks latest, as a script for it, which\n\
    counterlab run or halvinglab run plays. A line on standard error says\n\
    which configuration of it is the first locked one, and the bound.\n\
    The attacks are drawn from SEED, and of these kinds, or of all.\n";

/// Does what the words ask for. `SEED RUNS [KIND ..]` asks for a search: SEED has at most 15
/// digits, RUNS is 1 to 1,000,000, and each further word is that of a kind. The answer is then what
/// is said of the attack that was written. `--help` and `--version`, alone, ask for what they say,
/// and of these nothing is said.
///
/// `Usage` comes exactly if the words ask for nothing. When the other errors come, [`attack_input`]
/// says.
pub fn answer<S: Source, K: Sink>(
    alloc: Global,
    words: &[String],
    source: &mut S,
    sink: &mut K,
) -> Result<Option<Found>, AttackError>
    // What was read and written, by how it ended: of a search, the text of the plan that the input
    // is, and after it that of the best attack of so many tries.
    ensures asked { DoesAsked (map string_bytes words.now) result
        (S.left source.old) (S.left source.new) (S.faults source.old) (S.faults source.new)
        (K.told sink.old) (K.told sink.new) }
    // Of words that ask for no search nothing is said.
    ensures unsaid { LeavesUnsaid (asked_of (map string_bytes words.now)) result }
    // If nothing was read the source is as it was, whatever it reports.
    ensures unread { LeavesUnread (asked_of (map string_bytes words.now)) source.old source.new }
    // At `ReadFault` the end of the source was not met.
    ensures unmet { IsErrOf result ProgramError.ReadFault → S.met source.new ≡ S.met source.old }

    // What is written is read back, by the grammars of the words `run` of `counterlab` and
    // `halvinglab`: as the plan, and the script of the attack after it.
    ensures read_back { WrittenIsRead }

    // A search of at least one try finds an attack on every accepted plan: each attack that is
    // drawn afresh is a script for it.
    ensures found { PlansAreAttacked }

    // The numbers that are drawn are those of SplitMix64: the first two of seed 0, as an example.
    ensures draws { DrawsAreWorked }

    // Worked values: what words ask for.
    ensures requests { RequestsAreWorked }

    // Worked values: the first try of each kind on a small plan, letter by letter, what small
    // changes make of an attack, and the tries of a search before and after its fresh ones.
    ensures worked { AttacksAreWorked }
    ensures tries { TriesAreWorked }
{
    written_is_read();
    draws_are_worked();
    attacks_are_worked();
    fresh_attacks_are_read();
    requests_are_worked();
    match asked_by(words, request_of(words)) {
        Asked::Help => {
            put_all(sink, HELP)?;
            Ok(None)
        }
        Asked::Version => {
            put_all(sink, b"attack 2.0\n")?;
            Ok(None)
        }
        Asked::Request(numbers) => {
            let found = attack_input(alloc, numbers, kind_words(words), source, sink)?;
            Ok(Some(found))
        }
        Asked::Nothing => Err(ProgramError::Usage),
    }
}
