//! What is printed.

use crate::files::is_newline;
use anyhow::Result;
use std::alloc::Global;

/// The words that a line of a proof begins with.
static PROOF_WORDS: [&[u8]; 13] = [
    b"axiom",
    b"inst",
    b"frame",
    b"compose",
    b"extend",
    b"strengthen",
    b"weaken",
    b"discharge",
    b"use",
    b"loop",
    b"forget",
    b"steer",
    b"exchange",
];

/// The number of lines of proofs in a text.
pub fn count_proof_lines(text: &[u8]) -> u64 {
    let mut count: u64 = 0;
    for line in text.split(is_newline) {
        let word = line.split(|byte| *byte == b' ').next().unwrap_or(line);
        if PROOF_WORDS.contains(&word) {
            count = count.saturating_add(1);
        }
    }
    count
}

/// What is not printed of a command's lines.
#[derive(Drop)]
pub struct Stars {
    /// The word behind each of these.
    pub words: Vec<String>,
    /// This word at the end of a line.
    pub last: Option<String>,
}

/// Adds a text, with a word more where its last line has no end.
pub fn add_text(page: &mut Vec<u8>, text: &[u8]) -> Result<()> {
    page.extend_from_slice(text)?;
    if !text.is_empty() && text.last() != Some(&b'\n') {
        page.extend_from_slice(b"\nunfinished\n")?;
    }
    Ok(())
}

/// Adds a command's lines.
pub fn add_lines(alloc: Global, page: &mut Vec<u8>, text: &[u8], stars: &Stars) -> Result<()> {
    let mut starred = Vec::new(alloc);
    for line in text.split_inclusive(is_newline) {
        add_words(&mut starred, line, stars)?;
    }
    add_text(page, &starred)
}

/// Adds the words of a line.
fn add_words(page: &mut Vec<u8>, line: &[u8], stars: &Stars) -> Result<()> {
    let (words, end) = match line.strip_suffix(b"\n") {
        Some(words) => (words, b"\n".as_slice()),
        None => (line, b"".as_slice()),
    };
    let mut is_hidden = false;
    let mut count = words.split(|byte| *byte == b' ').count();
    for word in words.split(|byte| *byte == b' ') {
        count = count.saturating_sub(1);
        let is_told = count == 0
            && stars
                .last
                .as_ref()
                .is_some_and(|last| last.as_bytes() == word);
        page.extend_from_slice(if is_hidden || is_told {
            b"*".as_slice()
        } else {
            word
        })?;
        if count > 0 {
            page.push(b' ')?;
        }
        is_hidden = stars.words.iter().any(|star| star.as_bytes() == word);
    }
    page.extend_from_slice(end)?;
    Ok(())
}

/// Adds the first lines of a text.
pub fn add_head(page: &mut Vec<u8>, text: &[u8], count: usize) -> Result<()> {
    for line in text.split_inclusive(is_newline).take(count) {
        add_text(page, line)?;
    }
    Ok(())
}

/// Adds the lines of a text that begin so, in their order or rising.
pub fn add_picked(
    alloc: Global,
    page: &mut Vec<u8>,
    text: &[u8],
    start: &[u8],
    is_sorted: bool,
) -> Result<()> {
    let mut lines = Vec::new(alloc);
    for line in text.split_inclusive(is_newline) {
        if line.starts_with(start) {
            lines.push(line)?;
        }
    }
    if is_sorted {
        lines.sort()?;
    }
    for line in lines {
        add_text(page, line)?;
    }
    Ok(())
}

/// How many whole lines, and how many bytes behind them, a front of a text has.
pub fn front_of(front: &[u8], text: &[u8]) -> Option<(usize, usize)> {
    if !text.starts_with(front) {
        return None;
    }
    let lines = front.iter().filter(|byte| is_newline(byte)).count();
    let rest = front.rsplit(is_newline).next().unwrap_or(front);
    Some((lines, rest.len()))
}
