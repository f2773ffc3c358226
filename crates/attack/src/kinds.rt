//! The kinds of attacks.

ghost use Rattle.std.specs.Prelude.{◌≡◌, ◌≤◌, ◌-◌, ◌∷◌, [], ◌++◌, IfOk, OnOk};
ghost use Rattle.attack.specs.Draws.{drawn, below};
ghost use Rattle.attack.specs.Kinds.{kind_of, or_all, shadow_say, always, lower_half, at_times};
ghost use Rattle.attack.specs.Kinds.{shadow, ahead, is_with_others, lower_ahead, upper_ahead};
ghost use Rattle.attack.specs.Kinds.{kind_lies, kind_faulty, all_lies, fresh};

use crate::candidates::{Attack, LieLine, Say};
use crate::drawn_lines::{
    Hearers, Scope, all_hear, drawn_hearers, drawn_node, drawn_shift, drawn_span, lie_of,
    whole_span,
};
use crate::draws::Lot;
use crate::faulty_ids::{chosen, kings_but, left_part};
use std::alloc::Global;
use sync_types::NoMemory;

/// A way in which attacks are drawn. In each all nodes start in noise.
#[derive(Clone, Copy, Debug, PartialEq, Eq)]
pub enum Kind {
    /// Each faulty node says noise.
    Noise,
    /// Each stands still in a state.
    Frozen,
    /// Each says a state to the nodes up to one, and another to the others.
    Split,
    /// Each says noise in three stretches of rounds. They are kings of halves, all but one.
    King,
    /// Each says to nodes what others show, or its own state shifted.
    Shadow,
    /// The nodes up to one hear of a left half that is ahead of the one that the others hear of.
    /// The faulty nodes are all kings of the left half, and those of the right half but one.
    Left,
    /// Each stands still in a state, but for a stretch of noise. They are all kings of the right
    /// half, and those of the left half but one.
    Right,
}

/// All kinds.
const KINDS: [Kind; 7] = [
    Kind::Noise,
    Kind::Frozen,
    Kind::Split,
    Kind::King,
    Kind::Shadow,
    Kind::Left,
    Kind::Right,
];

impl Kind {
    /// The kind of a word: `noise`, `frozen`, `split`, `king`, `shadow`, `left` or `right`.
    pub fn of(word: &[u8]) -> Option<Kind>
        ensures { result ≡ kind_of word.now }
    {
        if word == b"noise".as_slice() {
            return Some(Kind::Noise);
        }
        if word == b"frozen".as_slice() {
            return Some(Kind::Frozen);
        }
        if word == b"split".as_slice() {
            return Some(Kind::Split);
        }
        if word == b"king".as_slice() {
            return Some(Kind::King);
        }
        if word == b"shadow".as_slice() {
            return Some(Kind::Shadow);
        }
        if word == b"left".as_slice() {
            return Some(Kind::Left);
        }
        if word == b"right".as_slice() {
            return Some(Kind::Right);
        }
        None
    }
}

/// These kinds, or all if there are none.
pub(crate) fn or_all(alloc: Global, kinds: &[Kind]) -> Result<Vec<Kind>, NoMemory>
    ensures { IfOk result (λ all. all.items ≡ or_all kinds.now) }
{
    if kinds.is_empty() {
        return Ok(Vec::from_slice(alloc, &KINDS)?);
    }
    Ok(Vec::from_slice(alloc, kinds)?)
}

/// A faulty node of a machine, with what is drawn of it.
#[derive(Clone, Copy, Debug, PartialEq, Eq)]
struct Sender {
    scope: Scope,
    id: u32,
    // The last node that hears the first of two states.
    middle: u32,
    // By how much what it says to the nodes up to that one is ahead of its own state, and what it
    // says to the others.
    lower: u64,
    upper: u64,
    lot: Lot,
}

/// By how much one left half is ahead of another one: less than its period.
fn ahead(lot: Lot, faults: u32) -> u64
    ensures { result ≡ ahead lot.seed faults }
{
    1 + lot.below(4, 3 * u64::from(faults) + 4)
}

/// Whether a faulty node says its own state to the nodes after the middle one: it is in the left
/// half, or heard with these.
fn is_with_others(faults: u32, middle: u32, id: u32) -> bool
    requires { faults ≤ 256 }
    ensures { result ≡ is_with_others faults middle id }
{
    id <= 3 * left_part(faults) || middle < id
}

/// By how much it is ahead of its own state to the nodes up to the middle one, if one left half is
/// so much ahead of the other.
fn lower_ahead(faults: u32, middle: u32, id: u32, by: u64) -> u64
    requires { faults ≤ 256 }
    ensures { result ≡ lower_ahead faults middle id by }
{
    if is_with_others(faults, middle, id) {
        return by;
    }
    0
}

/// By how much it is ahead of it to the others.
fn upper_ahead(faults: u32, middle: u32, id: u32, by: u64) -> u64
    requires { faults ≤ 256 }
    ensures { result ≡ upper_ahead faults middle id by }
{
    if is_with_others(faults, middle, id) {
        return 0;
    }
    (3 * u64::from(faults) + 5).saturating_sub(by)
}

/// A copy of another node, or, one time in four, a shift.
fn shadow_say(lot: Lot, scope: Scope) -> Say
    ensures { result ≡ shadow_say lot.seed scope.nodes }
{
    if lot.below(6, 4) == 0 {
        return Say::Shift(drawn_shift(lot));
    }
    Say::Copy(drawn_node(lot, 7, scope))
}

impl Sender {
    /// What all nodes hear in all rounds.
    fn always(self, says: Say) -> LieLine
        ensures { result ≡ always self.scope.nodes self.scope.rounds self.id says }
    {
        lie_of(whole_span(self.scope), self.id, all_hear(self.scope), says)
    }

    /// What the nodes up to the middle one hear in all rounds.
    fn lower_half(self, says: Say) -> LieLine
        ensures { result ≡ lower_half self.scope.nodes self.scope.rounds self.id self.middle says }
    {
        let hearers = Hearers {
            from: 0,
            to: self.middle,
        };
        lie_of(whole_span(self.scope), self.id, hearers, says)
    }

    /// Noise in some rounds, by the part of the lot at a place.
    fn at_times(self, place: u64) -> LieLine
        ensures { result
            ≡ at_times self.scope.nodes self.scope.rounds self.id (drawn self.lot.seed place) }
    {
        let span = drawn_span(self.lot.part(place), self.scope);
        lie_of(span, self.id, all_hear(self.scope), Say::Noise)
    }

    /// What some nodes hear of others in all rounds, by the part of the lot at a place.
    fn shadow(self, place: u64) -> LieLine
        ensures { result
            ≡ shadow self.scope.nodes self.scope.rounds self.id (drawn self.lot.seed place) }
    {
        let lot = self.lot.part(place);
        let hearers = drawn_hearers(lot, self.scope);
        let says = shadow_say(lot, self.scope);
        lie_of(whole_span(self.scope), self.id, hearers, says)
    }
}

fn push_lie(lies: &mut Vec<LieLine>, lie: LieLine) -> Result<(), NoMemory>
    ensures { OnOk result (lies.new.items ≡ lies.old.items ++ lie ∷ []) }
{
    lies.push(lie).map_err(|_| NoMemory)
}

fn push_two(lies: &mut Vec<LieLine>, first: LieLine, second: LieLine) -> Result<(), NoMemory>
    ensures { OnOk result (lies.new.items ≡ lies.old.items ++ first ∷ second ∷ []) }
{
    push_lie(lies, first)?;
    push_lie(lies, second)
}

fn push_three(
    lies: &mut Vec<LieLine>,
    first: LieLine,
    second: LieLine,
    third: LieLine,
) -> Result<(), NoMemory>
    ensures { OnOk result (lies.new.items ≡ lies.old.items ++ first ∷ second ∷ third ∷ []) }
{
    push_two(lies, first, second)?;
    push_lie(lies, third)
}

/// Adds what a sender says in an attack of a kind.
#[tactic(auto, unfolding(crate::specs::Kinds::kind_lies))]
fn push_kind(kind: Kind, sender: Sender, lies: &mut Vec<LieLine>) -> Result<(), NoMemory>
    ensures { OnOk result (lies.new.items ≡ lies.old.items
        ++ kind_lies sender.scope.nodes sender.scope.rounds sender.id kind sender.middle
        sender.lower sender.upper sender.lot.seed) }
{
    let lot = sender.lot;
    match kind {
        Kind::Noise => push_lie(lies, sender.always(Say::Noise)),
        Kind::Frozen => push_lie(lies, sender.always(Say::Drawn(lot.number(0)))),
        Kind::Split => {
            let first = sender.lower_half(Say::Drawn(lot.number(0)));
            push_two(lies, first, sender.always(Say::Drawn(lot.number(1))))
        }
        Kind::King => push_three(
            lies,
            sender.at_times(0),
            sender.at_times(1),
            sender.at_times(2),
        ),
        Kind::Shadow => push_three(lies, sender.shadow(0), sender.shadow(1), sender.shadow(2)),
        Kind::Left => {
            let first = sender.lower_half(Say::Shift(sender.lower));
            push_two(lies, first, sender.always(Say::Shift(sender.upper)))
        }
        Kind::Right => {
            let frozen = sender.always(Say::Drawn(lot.number(0)));
            push_two(lies, sender.at_times(1), frozen)
        }
    }
}

/// The last node that hears the first of two states; there is one after it.
fn middle_of(lot: Lot, scope: Scope) -> u32
    ensures { result ≡ below lot.seed 2 (scope.nodes - 1) }
{
    lot.below(2, u64::from(scope.nodes - 1)) as u32
}

/// What all faulty nodes say in an attack of a kind.
fn all_lies(
    alloc: Global,
    kind: Kind,
    lot: Lot,
    scope: Scope,
    faulty: &[u32],
) -> Result<Vec<LieLine>, NoMemory>
    ensures { IfOk result (λ lies. lies.items
        ≡ all_lies kind lot.seed scope.nodes scope.faults scope.rounds faulty.now) }
{
    let middle = middle_of(lot, scope);
    let by = ahead(lot, scope.faults);
    let lots = lot.part(3);
    let mut lies = Vec::new(alloc);
    for id in faulty {
        let sender = Sender {
            scope,
            id: *id,
            middle,
            lower: lower_ahead(scope.faults, middle, *id, by),
            upper: upper_ahead(scope.faults, middle, *id, by),
            lot: lots.part(u64::from(*id)),
        };
        push_kind(kind, sender, &mut lies)?;
    }
    Ok(lies)
}

/// A place of so many that is drawn.
fn drawn_place(lot: Lot, count: u32) -> u32
    requires { count ≤ 257 }
    ensures value { result ≡ below lot.seed 0 count }
    ensures most { result ≤ count }
{
    lot.below(0, u64::from(count)) as u32
}

/// The faulty nodes of an attack of a kind.
fn kind_faulty(alloc: Global, kind: Kind, lot: Lot, scope: Scope) -> Result<Vec<u32>, NoMemory>
    ensures { IfOk result (λ ids. ids.items
        ≡ kind_faulty kind lot.seed scope.nodes scope.faults) }
{
    let left = left_part(scope.faults);
    match kind {
        Kind::King => kings_but(
            alloc,
            left,
            drawn_place(lot, scope.faults + 1),
            scope.faults,
        ),
        Kind::Left => {
            let place = left + 1 + drawn_place(lot, scope.faults.saturating_sub(left));
            kings_but(alloc, left, place, scope.faults)
        }
        Kind::Right => kings_but(alloc, left, drawn_place(lot, left + 1), scope.faults),
        Kind::Noise | Kind::Frozen | Kind::Split | Kind::Shadow => {
            chosen(alloc, lot, scope.nodes, scope.faults)
        }
    }
}

/// An attack of a kind, that is drawn. `NoMemory` comes if memory was refused.
#[tactic(auto, unfolding(crate::specs::Kinds::fresh))]
pub(crate) fn fresh(alloc: Global, kind: Kind, lot: Lot, scope: Scope) -> Result<Attack, NoMemory>
    ensures { IfOk result (λ attack. attack
        ≡ fresh kind lot.seed scope.nodes scope.faults scope.rounds) }
{
    let faulty = kind_faulty(alloc, kind, lot.part(1), scope)?;
    let lies = all_lies(alloc, kind, lot, scope, &faulty)?;
    Ok(Attack {
        faulty,
        key: lot.number(0),
        starts: Vec::new(alloc),
        lies,
        rounds: scope.rounds,
        first: scope.rounds,
        last: scope.rounds,
    })
}
