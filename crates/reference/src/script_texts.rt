//! The texts of scripts.

use crate::scripts::{Era, Lie, Receivers, Rule, Script, Start};
use crate::texts::Text;

/// The name of a group of that number.
fn name_of(group: usize) -> &'static str {
    match group {
        0 => " left",
        1 => " a",
        2 => " sixteenletterssx",
        _ => " alle",
    }
}

/// Writes who hears a lie.
fn write_receivers(out: &mut Text, receivers: Receivers) {
    out.word(" to");
    match receivers {
        Receivers::All => out.word(" all"),
        Receivers::Between(first, last) => out.put("", &[first, last]),
        Receivers::Group(group) => out.word(name_of(group)),
    }
}

/// Writes a line of lies.
fn write_rule(out: &mut Text, rule: &Rule) {
    out.put("lie", &[rule.first, rule.last, rule.sender]);
    write_receivers(out, rule.receivers);
    match &rule.lie {
        Lie::Noise => out.word(" noise"),
        Lie::Copy(node) => out.put(" copy", &[*node]),
        Lie::Bytes(bytes) => {
            out.word(" hex");
            out.bytes(bytes);
        }
        Lie::Shift(by) => out.put(" shift", &[*by]),
    }
    out.word("\n");
}

/// Writes the lines of nodes' starts.
fn write_starts(out: &mut Text, starts: &[Start]) {
    for start in starts {
        out.put("start node", &[start.node]);
        out.bytes(&start.bytes);
        out.word("\n");
    }
}

/// Writes the line of a key.
fn write_key(out: &mut Text, key: [u8; 32]) {
    out.word("seed");
    out.bytes(&key);
    out.word("\n");
}

/// Writes the first lines of a script.
fn write_front(out: &mut Text, script: &Script) {
    out.line("script", &[script.version]);
    out.line("faulty", &script.faulty);
    if let Some(key) = script.key {
        write_key(out, key);
    }
    out.word(if script.noisy {
        "start noise\n"
    } else {
        "start zero\n"
    });
}

/// Writes the lines of eras.
fn write_eras(out: &mut Text, eras: &[Era]) {
    for era in eras {
        out.put("era", &[era.first]);
        out.line(" faulty", &era.faulty);
        write_starts(out, &era.starts);
    }
}

/// Writes the lines of groups.
fn write_groups(out: &mut Text, groups: &[Vec<u64>]) {
    for (number, group) in groups.iter().enumerate() {
        out.word("group");
        out.line(name_of(number), group);
    }
}

/// Writes the lines of a script.
pub fn write_script(out: &mut Text, script: &Script) {
    write_front(out, script);
    write_starts(out, &script.starts);
    write_eras(out, &script.eras);
    write_groups(out, &script.groups);
    for rule in &script.rules {
        write_rule(out, rule);
    }
    out.line("rounds", &[script.rounds]);
    out.line("show", &[script.first, script.last]);
    out.word("end\n");
}
