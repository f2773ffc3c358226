//! Tries what the workbench does if a read or a write fails: for each row of the folders that it is
//! given, and for pieces of several sizes, each call in turn. With the arguments `spend N WORDS` it
//! gives the words and its standard input to the workbench once, after N allocations.
#![tactic(auto)]

mod cells;
mod endings;
mod memory;
mod numbered;
mod rows;
mod sweeps;
mod watched;

use crate::memory::try_words;
use crate::rows::{names_of, parts_of, row_of};
use crate::sweeps::try_row;
use std::process::ExitCode;
use std::{env, io};

/// The sizes of pieces: some that are small, and those about one buffer.
const SIZES: [usize; 6] = [1, 2, 7, 4095, 4096, 4097];

/// The same without the small ones, for rows with many bytes.
const LARGE_SIZES: [usize; 3] = [4095, 4096, 4097];

/// Tries the rows of a folder, in the order of their names. Whether all went as they should.
fn try_folder(rt: &HostRuntime, folder: &str) -> anyhow::Result<bool> {
    let sizes = if folder == "long" {
        LARGE_SIZES.as_slice()
    } else {
        SIZES.as_slice()
    };
    let mut same = true;
    for file in &names_of(rt, folder)? {
        if let Some(parts) = parts_of(file.as_str()) {
            let row = row_of(rt, folder, file.as_str(), parts)?;
            same = try_row(rt, &row, sizes)? && same;
        }
    }
    Ok(same)
}

/// Tries the rows of some folders. Whether all went as they should.
fn try_folders(rt: &HostRuntime, folders: &[String]) -> anyhow::Result<bool> {
    let mut same = numbered::try_all(rt)?;
    for folder in folders {
        same = try_folder(rt, folder.as_str())? && same;
    }
    Ok(same)
}

/// Does what the arguments say. Whether all went as it should.
fn try_all(rt: &HostRuntime, arguments: &[String]) -> anyhow::Result<bool> {
    if let [word, count, words @ ..] = arguments {
        if word.as_str() == "spend" {
            try_words(rt, words, count.as_str().parse::<u64>()?)?;
            return Ok(true);
        }
    }
    try_folders(rt, arguments)
}

/// The arguments after the program's own name.
fn arguments(rt: &HostRuntime) -> io::Result<Vec<String>> {
    let mut arguments = Vec::new(rt.alloc());
    for argument in env::args(rt)?.skip(1) {
        arguments.push(argument)?;
    }
    Ok(arguments)
}

fn main(rt: HostRuntime) -> anyhow::Result<ExitCode> {
    let arguments = arguments(&rt)?;
    let same = try_all(&rt, &arguments)?;
    Ok(if same {
        ExitCode::SUCCESS
    } else {
        ExitCode::FAILURE
    })
}
