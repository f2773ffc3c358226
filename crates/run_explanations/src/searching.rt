ghost use Rattle.std.specs.Prelude.{◌≡◌, ◌+◌, ◌%◌, ◌≤◌};
ghost use Rattle.construction.specs.Runs.{is_in};
ghost use Rattle.run_explanations.specs.Searching.{goes_on, stretched, begins_phase};
ghost use Rattle.run_explanations.specs.Searching.{explained_in, explained_from};
ghost use Rattle.adversary_script.specs.Scripts.{most_rounds};

use crate::explanations::Explanation;
use crate::seeing::Observation;
use crate::tops::TopLevel;
use sync_types::FaultSet;

/// For how many configurations one leader has been seen, with a part that grows by one.
#[derive(Clone, Copy, Debug)]
pub(crate) struct LeaderStreak {
    /// What the last one shows.
    pub seen: Option<Observation>,
    /// How many there are.
    pub count: u64,
}

/// A beat of configurations that show one leader.
#[derive(Clone, Copy, Debug)]
pub(crate) struct Window {
    /// The first one.
    pub at: u64,
    /// The leader.
    pub leader: u32,
    /// The part that the first one shows.
    pub part: u64,
    ghost early: { at ≤ most_rounds },
    ghost small: { part ≤ 261 },
}

/// The part after this one.
pub(crate) fn next_part(top: TopLevel, part: u64) -> u64
    ensures value { result ≡ (part + 1) % top.numbers.beat }
    ensures small { result ≤ 261 }
{
    let beat = top.numbers.beat;
    (part % beat + 1) % beat
}

/// Whether what is seen goes on: the same leader, and a part that is one more.
fn goes_on(top: TopLevel, before: Option<Observation>, now: Observation) -> bool
    ensures { result ≡ goes_on top.numbers.beat before now }
{
    match before {
        None => false,
        Some(before) => before.leader == now.leader && now.part == next_part(top, before.part),
    }
}

/// A stretch and one more configuration, which shows this.
pub(crate) fn stretched(
    top: TopLevel,
    stretch: LeaderStreak,
    seen: Option<Observation>,
) -> LeaderStreak
    requires { stretch.count ≤ 1000001 }
    ensures { result ≡ stretched top.numbers.beat stretch seen }
{
    let Some(now) = seen else {
        return LeaderStreak {
            seen: None,
            count: 0,
        };
    };
    let count = if goes_on(top, stretch.seen, now) {
        stretch.count + 1
    } else {
        1
    };
    LeaderStreak { seen, count }
}

/// Whether the phase of a correct king begins `x` configurations after the first one of a window,
/// and ends by the last one.
pub(crate) fn begins_phase(
    top: TopLevel,
    faulty: &FaultSet,
    last: u64,
    window: Window,
    x: u64,
) -> bool
    requires { x ≤ most_rounds }
    ensures { result ≡ begins_phase top.numbers.beat (is_in faulty.now.ids) last window.at
        window.part x }
{
    let part = (window.part + x) % top.numbers.beat;
    part % 3 == 0 && !faulty.contains((part / 3) as u32) && window.at + x + 3 <= last
}

/// The explanation of the first phase of a correct king that ends in the window, and by the last
/// configuration.
fn explained_in(top: TopLevel, faulty: &FaultSet, last: u64, window: Window) -> Option<Explanation>
    ensures { result ≡ explained_in top.numbers.beat (is_in faulty.now.ids) last window.at
        window.leader window.part }
{
    let beat = top.numbers.beat;
    let mut phase = None;
    for x in 0..beat - 2 {
        if phase.is_none() && begins_phase(top, faulty, last, window, x) {
            phase = Some(x);
        }
    }
    match phase {
        Some(x) => Some(Explanation {
            window: window.at,
            leader: window.leader,
            phase: window.at + x,
            king: ((window.part + x) % beat / 3) as u32,
        }),
        None => None,
    }
}

/// The explanation of the window that ends with configuration `c`, if this stretch ends there.
pub(crate) fn explained_from(
    top: TopLevel,
    faulty: &FaultSet,
    last: u64,
    c: u64,
    stretch: LeaderStreak,
) -> Option<Explanation>
    requires early { c ≤ most_rounds }
    requires within { stretch.count ≤ c + 1 }
    ensures { result ≡ explained_from top.numbers.beat (is_in faulty.now.ids) last c stretch.count
        stretch.seen }
{
    let seen = stretch.seen?;
    if stretch.count < top.numbers.beat {
        return None;
    }
    let window = Window {
        at: c + 1 - top.numbers.beat,
        leader: seen.leader,
        part: next_part(top, seen.part),
    };
    explained_in(top, faulty, last, window)
}
