//! Lies that are drawn.

ghost use Rattle.std.specs.Prelude.{◌≡◌, ◌≤◌, ◌<◌, ◌^◌};
ghost use Rattle.attack.specs.Draws.{below};
ghost use Rattle.attack.specs.DrawnLines.{drawn_more, drawn_span, whole_span, all_hear};
ghost use Rattle.attack.specs.DrawnLines.{between, drawn_hearers, drawn_shift, drawn_say, lie_of};
ghost use Rattle.attack.specs.DrawnLines.{drawn_lie};
ghost use Rattle.adversary_script.specs.Scripts.{most_rounds};

use crate::candidates::{LieLine, Say};
use crate::draws::Lot;

/// The numbers of a machine by which attacks are drawn: how many nodes there are, 1 to 256, how
/// many of them are faulty, and how many rounds are played, at most 1,000,000.
#[derive(Clone, Copy, Debug, PartialEq, Eq)]
pub struct Scope {
    pub nodes: u32,
    pub faults: u32,
    pub rounds: u64,
    ghost some: { 1 ≤ nodes },
    ghost few: { nodes ≤ 256 },
    ghost among: { faults ≤ nodes },
    ghost played: { rounds ≤ most_rounds },
}

/// The rounds of a lie, the first and the last one.
#[derive(Clone, Copy, Debug, PartialEq, Eq)]
pub(crate) struct Span {
    pub first: u64,
    pub last: u64,
}

/// The nodes that hear a lie, the first and the last one.
#[derive(Clone, Copy, Debug, PartialEq, Eq)]
pub(crate) struct Hearers {
    pub from: u32,
    pub to: u32,
}

/// All rounds.
pub(crate) fn whole_span(scope: Scope) -> Span
    ensures { result ≡ whole_span scope.rounds }
{
    Span {
        first: 0,
        last: scope.rounds.saturating_sub(1),
    }
}

/// A power of two.
fn power(exponent: u64) -> u64
    requires { exponent < 20 }
    ensures { result ≡ 2 ^ exponent }
{
    1 << exponent
}

/// How many rounds there are after the first: half of the time none, else fewer than a power of two
/// that is drawn too.
fn drawn_more(lot: Lot) -> u64
    ensures { result ≡ drawn_more lot.seed }
{
    if lot.below(1, 2) == 0 {
        return 0;
    }
    lot.below(2, power(lot.below(11, 20)))
}

/// Rounds that are drawn.
pub(crate) fn drawn_span(lot: Lot, scope: Scope) -> Span
    ensures { result ≡ drawn_span lot.seed scope.rounds }
{
    let first = lot.below(0, scope.rounds);
    let last = first.saturating_add(drawn_more(lot));
    Span {
        first,
        last: last.min(scope.rounds.saturating_sub(1)),
    }
}

/// All nodes.
pub(crate) fn all_hear(scope: Scope) -> Hearers
    ensures { result ≡ all_hear scope.nodes }
{
    Hearers {
        from: 0,
        to: scope.nodes - 1,
    }
}

/// The nodes between two.
fn between(one: u32, other: u32) -> Hearers
    ensures { result ≡ between one other }
{
    Hearers {
        from: one.min(other),
        to: one.max(other),
    }
}

/// A node by the number at a place of a lot.
pub(crate) fn drawn_node(lot: Lot, place: u64, scope: Scope) -> u32
    ensures { result ≡ below lot.seed place scope.nodes }
{
    lot.below(place, u64::from(scope.nodes)) as u32
}

/// Nodes that are drawn: half of the time all, else one or a stretch of them.
pub(crate) fn drawn_hearers(lot: Lot, scope: Scope) -> Hearers
    ensures { result ≡ drawn_hearers lot.seed scope.nodes }
{
    let one = drawn_node(lot, 4, scope);
    let choice = lot.below(3, 4);
    if choice == 0 {
        return between(one, one);
    }
    if choice == 1 {
        return between(one, drawn_node(lot, 5, scope));
    }
    all_hear(scope)
}

/// By how much a state is shifted, 1 to 1000.
pub(crate) fn drawn_shift(lot: Lot) -> u64
    ensures { result ≡ drawn_shift lot.seed }
{
    if lot.below(8, 2) == 0 {
        return 1 + lot.below(7, 3);
    }
    1 + lot.below(7, 1000)
}

/// What is said: noise, a copy, a state of its own, or a shift.
pub(crate) fn drawn_say(lot: Lot, scope: Scope) -> Say
    ensures { result ≡ drawn_say lot.seed scope.nodes }
{
    let choice = lot.below(6, 4);
    if choice == 0 {
        return Say::Noise;
    }
    if choice == 1 {
        return Say::Copy(drawn_node(lot, 7, scope));
    }
    if choice == 2 {
        return Say::Drawn(lot.number(7));
    }
    Say::Shift(drawn_shift(lot))
}

/// A lie of these parts.
pub(crate) fn lie_of(span: Span, sender: u32, hearers: Hearers, says: Say) -> LieLine
    ensures { result ≡ lie_of span sender hearers says }
{
    LieLine {
        first: span.first,
        last: span.last,
        sender,
        from: hearers.from,
        to: hearers.to,
        says,
    }
}

/// A lie of a sender.
pub(crate) fn drawn_lie(lot: Lot, scope: Scope, sender: u32) -> LieLine
    ensures { result ≡ drawn_lie lot.seed scope.nodes scope.rounds sender }
{
    lie_of(
        drawn_span(lot, scope),
        sender,
        drawn_hearers(lot, scope),
        drawn_say(lot, scope),
    )
}
