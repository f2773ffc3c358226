//! Small changes of an attack.
//!
//! `NoMemory` comes from each call that gives it if memory was refused.

ghost use Rattle.std.specs.Prelude.{◌≡◌, ◌≤◌, ◌-◌, length, map, slice_index, slice_get, IfOk, OnOk};
ghost use Rattle.std.specs.List.{remove};
ghost use Rattle.attack.specs.Draws.{below};
ghost use Rattle.attack.specs.Changes.{place_of, drawn_start, with_start, renamed};
ghost use Rattle.attack.specs.Changes.{with_exchange, with_span, with_hearers, varied};
ghost use Rattle.attack.specs.Changes.{with_varied, with_lie, change_of, changed_by, changed};

use crate::candidates::{Attack, LieLine, StartLine};
use crate::drawn_lines::{
    Hearers, Scope, Span, drawn_hearers, drawn_lie, drawn_node, drawn_say, drawn_span,
};
use crate::draws::Lot;
use crate::faulty_ids::{exchanged, others};
use std::alloc::Global;
use sync_types::NoMemory;

/// How many lies an attack has at most after one was added.
const MOST_LIES: usize = 40;

/// What is changed.
#[derive(Clone, Copy, Debug, PartialEq, Eq)]
enum Change {
    /// The key of the noise.
    Key,
    /// The start of a node.
    Start,
    /// One start line less.
    NoStart,
    /// One faulty node.
    Faulty,
    /// One lie more.
    More,
    /// One lie less.
    Less,
    /// One lie says it in other rounds, or to others, or something else.
    Vary,
}

/// The change of a number.
fn change_of(number: u64) -> Change
    ensures { result ≡ change_of number }
{
    if number < 3 {
        return Change::Key;
    }
    if number < 6 {
        return Change::Start;
    }
    if number == 6 {
        return Change::NoStart;
    }
    if number < 9 {
        return Change::Faulty;
    }
    if number < 11 {
        return Change::More;
    }
    if number == 11 {
        return Change::Less;
    }
    Change::Vary
}

/// How many start lines stand before that of a node.
fn place_of(node: u32, starts: &[StartLine]) -> usize
    ensures value { result ≡ place_of node starts.now }
    ensures within { result ≤ length starts.now }
{
    let mut place = 0;
    for start in starts {
        if start.node < node {
            place += 1;
        }
    }
    place
}

/// A start line that is drawn.
fn drawn_start(lot: Lot, scope: Scope) -> StartLine
    ensures { result ≡ drawn_start lot.seed scope.nodes }
{
    StartLine {
        node: drawn_node(lot, 1, scope),
        seed: lot.number(2),
    }
}

/// Adds the start line of a node, or puts it in the place of its old one.
#[tactic(auto, unfolding(crate::specs::Changes::with_start))]
fn put_start(starts: &mut Vec<StartLine>, start: StartLine) -> Result<(), NoMemory>
    ensures { OnOk result (starts.new.items ≡ with_start start starts.old.items) }
{
    let place = place_of(start.node, starts);
    if place < starts.len() && starts[place].node == start.node {
        starts[place] = start;
        return Ok(());
    }
    starts.insert(place, start).map_err(|_| NoMemory)
}

/// A lie of a node that has another id now.
#[tactic(auto, unfolding(crate::specs::Changes::renamed))]
fn renamed(old: u32, new: u32, lie: LieLine) -> LieLine
    ensures { result ≡ renamed old new lie }
{
    if lie.sender == old {
        return LieLine { sender: new, ..lie };
    }
    lie
}

/// The lies, when a node has another id now.
fn renamed_lies(
    alloc: Global,
    old: u32,
    new: u32,
    lies: &[LieLine],
) -> Result<Vec<LieLine>, NoMemory>
    ensures { IfOk result (λ told. told.items ≡ map (renamed old new) lies.now) }
{
    let mut told = Vec::new(alloc);
    for lie in lies {
        told.push(renamed(old, new, *lie)).map_err(|_| NoMemory)?;
    }
    Ok(told)
}

/// The id at a place; 0 if there is none.
pub(crate) fn id_at(ids: &[u32], place: u64) -> u32
    ensures { result ≡ slice_index ids.now place }
{
    ids.get(place as usize).copied().unwrap_or(0)
}

/// A lie with other rounds.
fn with_span(span: Span, lie: LieLine) -> LieLine
    ensures { result ≡ with_span span lie }
{
    LieLine {
        first: span.first,
        last: span.last,
        ..lie
    }
}

/// A lie that others hear.
fn with_hearers(hearers: Hearers, lie: LieLine) -> LieLine
    ensures { result ≡ with_hearers hearers lie }
{
    LieLine {
        from: hearers.from,
        to: hearers.to,
        ..lie
    }
}

/// A lie in other rounds, to others, or with another content.
#[tactic(auto, unfolding(crate::specs::Changes::varied))]
fn varied(lot: Lot, scope: Scope, lie: LieLine) -> LieLine
    ensures { result ≡ varied lot.seed scope.nodes scope.rounds lie }
{
    let choice = lot.below(12, 3);
    if choice == 0 {
        return with_span(drawn_span(lot, scope), lie);
    }
    if choice == 1 {
        return with_hearers(drawn_hearers(lot, scope), lie);
    }
    LieLine {
        says: drawn_say(lot, scope),
        ..lie
    }
}

/// Varies the lie at a place, if there is one.
fn vary_at(lot: Lot, scope: Scope, place: u64, lies: &mut Vec<LieLine>)
    ensures { lies.new.items ≡ with_varied lot.seed scope.nodes scope.rounds place
        (slice_get lies.old.items place) lies.old.items }
{
    let place = place as usize;
    if place < lies.len() {
        let lie = lies[place];
        lies[place] = varied(lot, scope, lie);
    }
}

/// Puts a lie before the others, if these are fewer than 40.
fn put_lie(lies: &mut Vec<LieLine>, lie: LieLine) -> Result<(), NoMemory>
    ensures { OnOk result (lies.new.items ≡ with_lie lie lies.old.items) }
{
    if lies.len() < MOST_LIES {
        return lies.insert(0, lie).map_err(|_| NoMemory);
    }
    Ok(())
}

/// Takes the start line at a place away, if there is one.
fn remove_start(starts: &mut Vec<StartLine>, place: u64)
    ensures { starts.new.items ≡ remove starts.old.items place }
{
    let place = place as usize;
    if place < starts.len() {
        let _start = starts.remove(place);
    }
}

/// Takes the lie at a place away, if there is one.
pub(crate) fn remove_lie(lies: &mut Vec<LieLine>, place: u64)
    ensures { lies.new.items ≡ remove lies.old.items place }
{
    let place = place as usize;
    if place < lies.len() {
        let _lie = lies.remove(place);
    }
}

impl Attack {
    /// Puts the correct node at one place in the place of the faulty one at another.
    fn exchange(
        &mut self,
        alloc: Global,
        scope: Scope,
        faulty: u64,
        correct: u64,
    ) -> Result<(), NoMemory>
        ensures { OnOk result
            (self.new ≡ with_exchange scope.nodes faulty correct self.old) }
    {
        let old = id_at(&self.faulty, faulty);
        let others = others(alloc, scope.nodes, &self.faulty)?;
        let new = id_at(&others, correct);
        let ids = exchanged(alloc, scope.nodes, &self.faulty, correct, old)?;
        let lies = renamed_lies(alloc, old, new, &self.lies)?;
        self.faulty = ids;
        self.lies = lies;
        Ok(())
    }

    /// Exchanges a faulty node that is drawn.
    fn exchange_one(&mut self, alloc: Global, lot: Lot, scope: Scope) -> Result<(), NoMemory>
        ensures { OnOk result (self.new ≡ with_exchange scope.nodes
            (below lot.seed 1 (length self.old.faulty))
            (below lot.seed 2 (scope.nodes - length self.old.faulty)) self.old) }
    {
        let count = self.faulty.len() as u64;
        let correct = u64::from(scope.nodes).saturating_sub(count);
        self.exchange(alloc, scope, lot.below(1, count), lot.below(2, correct))
    }

    /// A faulty node that is drawn; 0 if there is none.
    fn sender(&self, lot: Lot) -> u32
        ensures { result ≡ slice_index self.now.faulty
            (below lot.seed 1 (length self.now.faulty)) }
    {
        id_at(&self.faulty, lot.below(1, self.faulty.len() as u64))
    }

    /// Changes one thing.
    #[tactic(auto, unfolding(crate::specs::Changes::changed_by))]
    fn change_by(
        &mut self,
        alloc: Global,
        change: Change,
        lot: Lot,
        scope: Scope,
    ) -> Result<(), NoMemory>
        ensures { OnOk result
            (self.new ≡ changed_by change lot.seed scope.nodes scope.rounds self.old) }
    {
        match change {
            Change::Key => {
                self.key = lot.number(1);
                Ok(())
            }
            Change::Faulty => self.exchange_one(alloc, lot, scope),
            Change::Start => put_start(&mut self.starts, drawn_start(lot, scope)),
            Change::NoStart => {
                let place = lot.below(1, self.starts.len() as u64);
                remove_start(&mut self.starts, place);
                Ok(())
            }
            Change::More => {
                let sender = self.sender(lot);
                put_lie(&mut self.lies, drawn_lie(lot.part(2), scope, sender))
            }
            Change::Less => {
                let place = lot.below(1, self.lies.len() as u64);
                remove_lie(&mut self.lies, place);
                Ok(())
            }
            Change::Vary => {
                let place = lot.below(1, self.lies.len() as u64);
                vary_at(lot.part(2), scope, place, &mut self.lies);
                Ok(())
            }
        }
    }
}

/// The attack after a small change that is drawn.
pub(crate) fn changed(
    alloc: Global,
    lot: Lot,
    scope: Scope,
    attack: &Attack,
) -> Result<Attack, NoMemory>
    ensures { IfOk result (λ made. made
        ≡ changed lot.seed scope.nodes scope.rounds attack.now) }
{
    let mut made = attack.try_clone()?;
    made.change_by(alloc, change_of(lot.below(0, 16)), lot, scope)?;
    Ok(made)
}
