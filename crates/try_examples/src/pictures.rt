//! Stored pictures and pages: each is compared with what is drawn of the text that stands beside
//! it.

use crate::bytes_of;
use edge_io::MemSink;
use run_pictures::{Form, draw};
use std::alloc::Global;

/// Whether what is drawn of a text is what is wanted. There is room for one byte more.
fn is_drawn(alloc: Global, text: &[u8], form: Form, wanted: &[u8]) -> anyhow::Result<bool> {
    let room = wanted.len().saturating_add(1);
    let mut sink = MemSink::new(alloc, room, Vec::new(alloc), Vec::new(alloc))?;
    draw(alloc, text, form, &mut sink)?;
    Ok(sink.taken() == wanted)
}

/// The text that a stored picture or page is of, by the name of its file, and which of these it is.
fn drawn_of(file: &str) -> Option<(&str, Form)> {
    if let Some(text) = file.strip_suffix(".svg") {
        return Some((text, Form::Picture));
    }
    match file.strip_suffix(".html") {
        Some(text) => Some((text, Form::Page)),
        None => None,
    }
}

/// Tries a file of a folder, if it is a picture or a page. Whether it is as it should be.
pub fn try_picture(rt: &HostRuntime, folder: &str, file: &str) -> anyhow::Result<bool> {
    let Some((text, form)) = drawn_of(file) else {
        return Ok(true);
    };
    let text = bytes_of(rt, folder, text, ".txt")?;
    let wanted = bytes_of(rt, folder, file, "")?;
    let same = is_drawn(rt.alloc(), &text, form, &wanted)?;
    let but = if same { "" } else { " with other bytes" };
    println!(rt; "{file}{but}")?;
    Ok(same)
}
