ghost use Rattle.std.specs.Prelude.{◌≡◌, ◌≤◌, ◌<◌, ◌+◌, ◌^◌, ℕ, List, Option, Result, length};
ghost use Rattle.std.specs.Prelude.{IfOk};
ghost use Rattle.texts.specs.Parts.{At, Found};
ghost use Rattle.sync_types.specs.declared.answers.Part.{Part};
ghost use Rattle.sync_types.specs.declared.answers.Rule.{Rule};
ghost use Rattle.edge_io.specs.PartAnswers.{IsAnswer};
ghost use Rattle.layer_laws.specs.Numbers.{Numbers};
ghost use Rattle.layer_parts.specs.declared.registers.Registers.{Registers};
ghost use Rattle.layer_parts.specs.CounterParts.{IsSoundPart};

use crate::registers::Registers;
use edge_io::PartError;
use layer_laws::CounterNumbers;
use std::alloc::Global;
use sync_types::{Part, Rule};

/// A part between a plan and a script that is read for a counter.
pub trait CounterPart: Drop {
    /// What the part says.
    type Content;

    ghost NAME: { Part };

    // The part for a counter of these numbers, at the beginning of lines of which the first has
    // that number.
    ghost said_in: { Numbers → (number : ℕ) → List (List ℕ)
        → Result (Found Self.Content) (At Rule) };

    // The registers that states have for what is said.
    ghost registers: { Self.Content → Option Registers };

    // What is said is for a counter of these numbers.
    ghost fits: { Numbers → Self.Content → Type 0 };

    // This is made of what is said, for such a counter.
    ghost is_made: { Numbers → Self.Content → Self → Type 0 };

    /// The part's name in the line of a refusal.
    const NAME: Part;

    /// Reads the part at the beginning of an input: what it says, how many bytes there are through
    /// the part's `end` line, that line's newline included, and how many lines these are, skipped
    /// ones counted. The first line of `bytes` has the number `first_line`.
    fn read(
        alloc: Global,
        numbers: &CounterNumbers,
        bytes: &[u8],
        first_line: u64,
    ) -> Result<(Self, usize, u64), PartError<Rule>>
        requires first { 1 ≤ first_line }
        requires count { first_line + length bytes.now < 2 ^ 64 }
        ensures exact { IsAnswer (said_in numbers.now) (is_made numbers.now) first_line bytes.now
            result }
        ensures within { IfOk result (λ read. read.1 ≤ length bytes.now) }
        ensures lines { IfOk result (λ read. read.2 ≤ read.1) };

    /// The registers that states have for it.
    fn registers(&self) -> Option<Registers>
        ensures { (numbers : Numbers) (said : Self.Content) → is_made numbers said self.now
            → result ≡ registers said };

    // What is read is for the counter, and its registers are few.
    ghost sound: { IsSoundPart said_in registers fits };
}
