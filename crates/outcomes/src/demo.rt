//! The input that the word `demo` makes of a number.

ghost use Rattle.std.specs.Prelude.{◌≡◌, IfOk};
ghost use Rattle.std.specs.String.{string_bytes};
ghost use Rattle.outcomes.specs.DemoText.{liars_of, faulty_line, lie_line, demo_text};

use std::alloc::{AllocError, Global};

/// The ids of three of twelve nodes, rising.
#[derive(Clone, Copy, Debug)]
pub struct Liars {
    pub first: u32,
    pub second: u32,
    pub third: u32,
}

/// The nodes that lie: one in each block of the top level, or three in block 0, or one in block 0
/// and two in block 1.
fn liars_of(seed: u64) -> Liars
    ensures { result ≡ liars_of seed }
{
    let (first, second, third) = match seed % 3 {
        0 => (0, 4, 8),
        1 => (0, 1, 2),
        _ => (3, 4, 5),
    };
    Liars {
        first,
        second,
        third,
    }
}

/// The line that names the faulty nodes.
fn faulty_line(alloc: Global, liars: Liars) -> Result<String, AllocError>
    ensures { IfOk result (λ text. string_bytes text ≡ faulty_line liars) }
{
    let first = liars.first;
    let second = liars.second;
    let third = liars.third;
    format!(in alloc; "faulty {first} {second} {third}\n")
}

/// The line of a liar that says noise to all other nodes in all rounds.
fn lie_line(alloc: Global, liar: u32) -> Result<String, AllocError>
    ensures { IfOk result (λ text. string_bytes text ≡ lie_line liar) }
{
    format!(in alloc; "lie 0 3363 {liar} to all noise\n")
}

/// The plan and the script of a seed: twelve nodes, of which three lie at random in each round.
/// Fails if memory is refused.
pub fn demo_text(alloc: Global, seed: u64) -> Result<String, AllocError>
    ensures { IfOk result (λ text. string_bytes text ≡ demo_text seed) }
{
    let liars = liars_of(seed);
    let faulty = faulty_line(alloc, liars)?;
    let digits = hex::encode(alloc, seed.to_be_bytes())?;
    let first = lie_line(alloc, liars.first)?;
    let second = lie_line(alloc, liars.second)?;
    let third = lie_line(alloc, liars.third)?;
    format!(in alloc;
        "plan 1\nbase 2304\nlevel 4 1 960\nlevel 3 3 10\nend\n\
        script 1\n{faulty}\
        seed {digits}000000000000000000000000000000000000000000000000\n\
        start noise\n{first}{second}{third}rounds 3364\nshow 3360 3364\nend\n"
    )
}
