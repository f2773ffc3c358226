//! Scripts that are played over plans, also with a part between the two.

use crate::calling::is_answered;
use crate::cases::played_on;
use crate::drawn_parts::Kind;
use crate::drawn_plans::Source;
use crate::drawn_scripts::Length;
use crate::draws::Draws;
use crate::given_plans::{PLANS, WITH_SLOTS};

/// How many plans are drawn of a source for runs that end soon, for each version of scripts.
const DRAWN: u64 = 60;

/// How many scripts are drawn for each plan with slots, each layer and each version of scripts.
const WITH_LAYER: u64 = 2;

/// For how many rounds eras go on after the bound, if they do.
const BEHIND: u64 = 12;

/// The layers.
const LAYERS: [Kind; 3] = [Kind::Agreement, Kind::Firing, Kind::Log];

/// The sources of plans for runs that end soon.
const SOURCES: [(&str, Source); 3] = [
    ("boosting plans 1", Source::Boosting(1)),
    ("boosting plans 2", Source::Boosting(2)),
    ("halving plans", Source::Halving(24)),
];

/// How many faults halving plans tolerate whose eras go on after the bound, and how many scripts
/// there are of each version.
const HALVING: [(u64, u64); 5] = [(0, 10), (1, 40), (2, 15), (3, 8), (4, 4)];

/// Plays so many scripts with eras of a length over plans of a source, which is drawn anew for
/// each. The answer is how many are answered as they should be.
fn agreeing(
    rt: &HostRuntime,
    draws: &mut Draws,
    source: Source,
    kind: Kind,
    length: Length,
    count: u64,
) -> anyhow::Result<u64> {
    let mut same = 0u64;
    for _ in 0..count {
        let plan = draws.plan(source)?;
        let case = played_on(draws, &plan, kind, length)?;
        same = same.wrapping_add(u64::from(is_answered(rt, &case)?));
    }
    Ok(same)
}

/// Plays so many scripts of each version, with eras that go on after the bound for so many rounds
/// or end soon, over plans of a source. What is tried is printed with how many agree.
fn try_source(
    rt: &HostRuntime,
    draws: &mut Draws,
    name: &str,
    source: Source,
    kind: Kind,
    behind: u64,
    count: u64,
) -> anyhow::Result<()> {
    let word = kind.word();
    print!(rt; "{name}, {word}:")?;
    for version in 1..=2 {
        let length = Length { version, behind };
        let same = agreeing(rt, draws, source, kind, length, count)?;
        print!(rt; " {same} of {count}")?;
    }
    println!(rt)?;
    Ok(())
}

/// Tries given boosting plans, and those of five levels.
fn try_given(rt: &HostRuntime, draws: &mut Draws) -> anyhow::Result<()> {
    for (place, (count, row)) in PLANS.iter().enumerate() {
        let name = format!(in rt.alloc(); "boosting plan {place}")?;
        let source = Source::Given(*row);
        try_source(rt, draws, name.as_str(), source, Kind::Rows, 0, *count)?;
    }
    for version in 1..=2 {
        let name = format!(in rt.alloc(); "boosting plans {version} of five levels")?;
        let source = Source::High(version);
        try_source(rt, draws, name.as_str(), source, Kind::Rows, 0, 1)?;
    }
    Ok(())
}

/// Tries boosting plans with slots, whose eras go on after the bound.
fn try_slotted(rt: &HostRuntime, draws: &mut Draws) -> anyhow::Result<()> {
    for (place, row) in WITH_SLOTS.iter().enumerate() {
        let name = format!(in rt.alloc(); "boosting plan with slots {place}")?;
        let source = Source::Given(*row);
        try_source(rt, draws, name.as_str(), source, Kind::Rows, BEHIND, 2)?;
        for kind in &LAYERS {
            try_source(rt, draws, name.as_str(), source, *kind, 0, WITH_LAYER)?;
        }
    }
    Ok(())
}

/// Tries halving plans, whose eras go on after the bound.
fn try_halving(rt: &HostRuntime, draws: &mut Draws) -> anyhow::Result<()> {
    for (faults, count) in &HALVING {
        let name = format!(in rt.alloc(); "halving plan of {faults} faults")?;
        let source = Source::Fewest(*faults);
        for kind in &[Kind::Rows, Kind::Slots] {
            try_source(rt, draws, name.as_str(), source, *kind, BEHIND, *count)?;
        }
        for kind in &LAYERS {
            try_source(rt, draws, name.as_str(), source, *kind, 0, *count)?;
        }
    }
    Ok(())
}

/// Tries scripts of all kinds.
pub fn try_scripts(rt: &HostRuntime, draws: &mut Draws) -> anyhow::Result<()> {
    try_given(rt, draws)?;
    for (name, source) in &SOURCES {
        for kind in &[Kind::Rows, Kind::Slots] {
            try_source(rt, draws, name, *source, *kind, 0, DRAWN)?;
        }
    }
    try_slotted(rt, draws)?;
    try_halving(rt, draws)
}
