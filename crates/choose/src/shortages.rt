//! Why there is no plan for some wants.

ghost use Rattle.std.specs.Prelude.{◌≤◌, ◌+◌, IfOk, MatchBool};
ghost use Rattle.texts.specs.Growth.{Puts};
ghost use Rattle.edge_io.specs.Writing.{Writes};
ghost use Rattle.plan_finder.specs.FindPart.{IsFit};
ghost use Rattle.choose.specs.declared.requests.Scope.TheVariants as scope;
ghost use Rattle.choose.specs.Shortages.{CanTolerate, AreFewest, IsMostOf, IsShortage};
ghost use Rattle.choose.specs.Shortages.{nodes_part, faults_part, shortage_text};

use crate::requests::Scope;
use crate::searching::least_plan;
use edge_io::{Piece, Sink, WriteFault, Writer};
use plan_finder::Want;
use std::alloc::Global;
use sync_types::NoMemory;

/// What is wanted, and how far it can be had.
#[derive(Clone, Copy, Debug, PartialEq, Eq)]
pub struct Shortage {
    /// How many nodes the faults take, None if no plan of at most 256 nodes tolerates them.
    pub nodes: Option<u64>,
    /// How many faults the nodes tolerate.
    pub faults: u64,
}

/// Whether a plan of the boosting construction tolerates `f` faults with at most `n` nodes.
fn can_boost(alloc: Global, n: u64, f: u64) -> Result<bool, NoMemory>
    requires { (n ≤ 256) × (f ≤ 85) }
    ensures { IfOk result (λ yes. MatchBool yes (CanTolerate scope.Boosting n f)
        (CanTolerate scope.Boosting n f → ⊥)) }
{
    let plan = least_plan(alloc, n, f, 2)?;
    Ok(plan.is_some())
}

/// How many nodes `f` faults take in the boosting construction.
fn fewest_boosting(alloc: Global, f: u64) -> Result<Option<u64>, NoMemory>
    requires { f ≤ 85 }
    ensures { IfOk result (λ nodes. AreFewest scope.Boosting f nodes) }
{
    for n in 0..256 {
        if can_boost(alloc, n + 1, f)? {
            return Ok(Some(n + 1));
        }
    }
    Ok(None)
}

/// How many faults `n` nodes tolerate in the boosting construction.
fn most_boosting(alloc: Global, n: u64) -> Result<u64, NoMemory>
    requires { (1 ≤ n) × (n ≤ 256) }
    ensures { IfOk result (λ faults. IsMostOf scope.Boosting n faults) }
{
    for f in 0..85 {
        if !can_boost(alloc, n, f + 1)? {
            return Ok(f);
        }
    }
    Ok(85)
}

/// The shortage of plans of the boosting construction.
fn shortage_boosting(alloc: Global, want: &Want) -> Result<Option<Shortage>, NoMemory>
    requires { IsFit want.now }
    ensures { IfOk result (IsShortage scope.Boosting want.now) }
{
    if can_boost(alloc, want.most, want.faults)? {
        return Ok(None);
    }
    let nodes = fewest_boosting(alloc, want.faults)?;
    let faults = most_boosting(alloc, want.most)?;
    Ok(Some(Shortage { nodes, faults }))
}

/// The shortage of plans of both constructions.
fn shortage_of_both(want: &Want) -> Option<Shortage>
    requires { IsFit want.now }
    ensures { IsShortage scope.Both want.now result }
{
    if want.most > 3 * want.faults {
        return None;
    }
    Some(Shortage {
        nodes: Some(3 * want.faults + 1),
        faults: (want.most - 1) / 3,
    })
}

/// Why no accepted plan that is looked at meets the wants: how many nodes its faults take, and how
/// many faults its nodes tolerate. None exactly if there is such a plan.
pub fn shortage_of(alloc: Global, scope: Scope, want: &Want) -> Result<Option<Shortage>, NoMemory>
    requires { IsFit want.now }
    ensures { IfOk result (IsShortage scope want.now) }
{
    match scope {
        Scope::Both => Ok(shortage_of_both(want)),
        Scope::Boosting => shortage_boosting(alloc, want),
    }
}

/// Writes how many nodes the faults take.
fn put_nodes<K: Sink>(writer: &mut Writer<'_, K>, faults: u64, nodes: Option<u64>)
    ensures { Writes K.told (nodes_part faults nodes) writer.old writer.new }
{
    match nodes {
        Some(nodes) => writer.pieces(&[
            Piece::Text(b"none: FAULTS "),
            Piece::Number(faults),
            Piece::Text(b" takes MOST_NODES of at least "),
            Piece::Number(nodes),
        ]),
        None => writer.pieces(&[
            Piece::Text(b"none: FAULTS "),
            Piece::Number(faults),
            Piece::Text(b" is more than any boosting plan of at most 256 nodes tolerates"),
        ]),
    }
}

/// Writes how many faults the nodes tolerate.
fn put_faults<K: Sink>(writer: &mut Writer<'_, K>, nodes: u64, faults: u64)
    ensures { Writes K.told (faults_part nodes faults) writer.old writer.new }
{
    writer.pieces(&[
        Piece::Text(b"; MOST_NODES "),
        Piece::Number(nodes),
        Piece::Text(b" allows FAULTS of at most "),
        Piece::Number(faults),
        Piece::Text(b"\n"),
    ]);
}

/// Writes the line that says of what there is too little, and nothing if there is enough.
///
/// `WriteFault` comes only if the sink counted a fault; a prefix of the line was then taken.
pub fn write_shortage<K: Sink>(
    want: &Want,
    shortage: Option<Shortage>,
    sink: &mut K,
) -> Result<(), WriteFault>
    ensures { Puts result (shortage_text want.now shortage) (K.told sink.old) (K.told sink.new) }
{
    match shortage {
        Some(short) => {
            let mut writer = Writer::new(sink);
            put_nodes(&mut writer, want.faults, short.nodes);
            put_faults(&mut writer, want.most, short.faults);
            writer.finish()
        }
        None => Ok(()),
    }
}
