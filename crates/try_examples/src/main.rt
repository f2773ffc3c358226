//! Tries the examples: what the workbench answers to each is compared with what is written beside
//! it. It fails if one differs, or has no answer beside it. In the folder `pictures` each stored
//! picture or page is compared with what is drawn of the text of the same name. After the word
//! `made` inputs are tried that no folder has.
#![tactic(auto)]

mod made;
mod pictures;

use crate::made::try_made;
use crate::pictures::try_picture;
use edge_io::{MemSink, PlainSource};
use std::alloc::Global;
use std::process::ExitCode;
use std::rt::Files;
use std::{env, fs, io};
use workbench::counterlab;

/// What the workbench answers to words, which are parted by points, and an input: the exit code,
/// and whether the bytes are those that are wanted. There is room for one byte more.
fn answer(alloc: Global, line: &str, input: &[u8], wanted: &[u8]) -> anyhow::Result<(u8, bool)> {
    let mut words = Vec::new(alloc);
    for word in line.split('.') {
        words.push(String::from_str(alloc, word)?)?;
    }
    let room = wanted.len().saturating_add(1);
    let mut sink = MemSink::new(alloc, room, Vec::new(alloc), Vec::new(alloc))?;
    let status = counterlab(alloc, &words, &mut PlainSource::new(input), &mut sink);
    Ok((status.code(), sink.taken() == wanted))
}

/// The bytes of a file of a folder.
fn bytes_of<R: Files + AllocGlobal>(
    rt: &R,
    folder: &str,
    name: &str,
    ending: &str,
) -> io::Result<Vec<u8>> {
    let path = format!(in rt.alloc(); "{folder}/{name}{ending}")?;
    fs::read(rt, path.as_str())
}

/// Whether the answer of some words to an example is the one that is written in a file. Its name,
/// the words and the exit code are printed.
fn is_answered<R: Files + Print + AllocGlobal>(
    rt: &R,
    folder: &str,
    name: &str,
    line: &str,
    file: &str,
) -> anyhow::Result<bool> {
    let input = bytes_of(rt, folder, name, ".txt")?;
    let wanted = bytes_of(rt, folder, file, "")?;
    let (code, same) = answer(rt.alloc(), line, &input, &wanted)?;
    let but = if same { "" } else { ", with other bytes" };
    println!(rt; "{name} {line} {code}{but}")?;
    Ok(same)
}

/// The names of a folder's files, in order.
fn names_of(rt: &HostRuntime, folder: &str) -> io::Result<Vec<String>> {
    let mut names = Vec::new(rt.alloc());
    for entry in fs::read_dir(rt, folder)? {
        names.push(String::from_str(rt.alloc(), entry?.file_name())?)?;
    }
    names.sort()?;
    Ok(names)
}

/// The words whose answer to an example is in a file of that name: of the example `NAME` and the
/// file `NAME.WORD.out` it is `WORD`, and of `NAME.demo.7.out` they are `demo` and `7`.
fn words_of<'a>(name: &str, file: &'a str) -> Option<&'a str> {
    let (front, words) = file.strip_suffix(".out")?.split_once('.')?;
    if front == name { Some(words) } else { None }
}

/// Tries an example: each of the files that is an answer to it. Whether there is one, and all are
/// as they should be.
fn try_example(
    rt: &HostRuntime,
    folder: &str,
    name: &str,
    files: &[String],
) -> anyhow::Result<bool> {
    let mut answers = false;
    let mut same = true;
    for file in files {
        if let Some(words) = words_of(name, file.as_str()) {
            answers = true;
            same = is_answered(rt, folder, name, words, file.as_str())? && same;
        }
    }
    if !answers {
        println!(rt; "{name} has no answer beside it")?;
    }
    Ok(answers && same)
}

/// Whether a file is an answer to no example among these files.
fn is_stray(files: &[String], file: &str) -> bool {
    let mut is_stray = file.ends_with(".out");
    for other in files {
        if let Some(name) = other.strip_suffix(".txt") {
            is_stray &= words_of(name, file).is_none();
        }
    }
    is_stray
}

/// Tries a file of a folder: a picture, or its answers, if it is an example `NAME.txt`. Whether all
/// are as they should be.
fn try_file(rt: &HostRuntime, folder: &str, file: &str, files: &[String]) -> anyhow::Result<bool> {
    if folder == "pictures" {
        return try_picture(rt, folder, file);
    }
    if let Some(name) = file.strip_suffix(".txt") {
        return try_example(rt, folder, name, files);
    }
    let is_stray = is_stray(files, file);
    if is_stray {
        println!(rt; "{file} is the answer to no example")?;
    }
    Ok(!is_stray)
}

/// Tries the files of a folder, or what is made. Whether all are as they should be.
fn try_folder(rt: &HostRuntime, folder: &str) -> anyhow::Result<bool> {
    println!(rt; "{folder}:")?;
    if folder == "made" {
        return try_made(rt);
    }
    let files = names_of(rt, folder)?;
    let mut same = true;
    for file in &files {
        same = try_file(rt, folder, file.as_str(), &files)? && same;
    }
    Ok(same)
}

fn main(rt: HostRuntime) -> anyhow::Result<ExitCode> {
    let mut same = true;
    for folder in env::args(&rt)?.skip(1) {
        same = try_folder(&rt, folder.as_str())? && same;
    }
    Ok(if same {
        ExitCode::SUCCESS
    } else {
        ExitCode::FAILURE
    })
}
