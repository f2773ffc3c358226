//! The nodes that words name.

ghost use Rattle.std.specs.Prelude.{◌≡◌, IfOk, map, string_bytes};
ghost use Rattle.std.specs.Option.{option_map};
ghost use Rattle.trace.specs.Names.{IsNaming, are_nodes, is_named, is_wanted};

use edge_io::number;
use std::alloc::Global;
use sync_types::NoMemory;

/// Whether one of these words names node `v`.
fn is_named(words: &[String], v: u32) -> bool
    ensures { result ≡ is_named (map string_bytes words.now) v }
{
    for word in words {
        if number(word.as_bytes()) == Some(u64::from(v)) {
            return true;
        }
    }
    false
}

/// Whether node `v` is wanted: one of these words names it, or there is no word.
fn is_wanted(words: &[String], v: u32) -> bool
    ensures { result ≡ is_wanted (map string_bytes words.now) v }
{
    words.is_empty() || is_named(words, v)
}

/// Whether each of these words names one of so many nodes.
fn are_nodes(words: &[String], nodes: u32) -> bool
    ensures { result ≡ are_nodes (map string_bytes words.now) nodes }
{
    for word in words {
        match number(word.as_bytes()) {
            Some(id) if id < u64::from(nodes) => {}
            _ => return false,
        }
    }
    true
}

/// The nodes that these words name, in rising order, and all if there is no word; None if a word
/// names no node.
pub fn named_nodes(
    alloc: Global,
    words: &[String],
    nodes: u32,
) -> Result<Option<Vec<u32>>, NoMemory>
    ensures { IfOk result (λ named. IsNaming (map string_bytes words.now) nodes
        (option_map (λ ids. ids.items) named)) }
{
    if !are_nodes(words, nodes) {
        return Ok(None);
    }
    let mut named = Vec::with_capacity(alloc, nodes as usize)?;
    for v in 0..nodes {
        if is_wanted(words, v) {
            named.push(v).map_err(|_| NoMemory)?;
        }
    }
    Ok(Some(named))
}
