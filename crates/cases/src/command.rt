//! A command with what is to happen to it, and its answer.

use crate::files::Files;
use crate::long_shelf::LongShelf;
use anyhow::{Result, anyhow};
use mc_shelf::{MemShelf, MemSink};
use mcdec_commands::run_words;
use std::alloc::Global;

/// Calls that are to fail, by their numbers, with the numbers of bytes that are kept.
#[derive(Drop)]
pub struct Failures {
    pub shelf: Vec<(u64, u64)>,
    pub sink: Vec<(u64, u64)>,
}

/// What a command leaves.
#[derive(Drop)]
pub struct Left {
    pub status: u8,
    pub shelf: LongShelf,
    pub sink: MemSink,
}

/// The words, between single spaces: where there are two, an empty one.
pub fn words_of(alloc: Global, line: &str) -> Result<Vec<String>> {
    let mut words = Vec::new(alloc);
    for word in line.split(' ') {
        words.push(String::from_str(alloc, word)?)?;
    }
    Ok(words)
}

/// Runs the command over those files that its words name.
pub fn run(alloc: Global, words: &[String], files: &Files, failures: &Failures) -> Result<Left> {
    let mut held = MemShelf::new(alloc);
    for word in words {
        if let Some(bytes) = files.held(word.as_str()) {
            held.set(word.as_str(), bytes.as_slice())
                .map_err(|_| anyhow!("no memory"))?;
        }
    }
    for &(call, kept) in &failures.shelf {
        held.fail(call, kept).map_err(|_| anyhow!("no memory"))?;
    }
    let mut shelf = LongShelf::new(held, files.long()?);
    let mut sink = MemSink::new(alloc);
    for &(call, kept) in &failures.sink {
        sink.fail(call, kept).map_err(|_| anyhow!("no memory"))?;
    }
    let status = run_words(alloc, words, &mut shelf, &mut sink);
    Ok(Left {
        status,
        shelf,
        sink,
    })
}
