//! ELF files of programs, and the graphs of what is reached in them.

use code_gen::elf_file;
use elf_image::{Image, read};
use flow_graph::{FlowFault, Graph, Outside, build, build_linked};
use rv_words::List;
use std::alloc::Global;

/// `addi x10, x10, 1`
pub const ADD: u32 = 0x00150513;
/// `jalr x0, 0(x1)`
pub const RETURN: u32 = 0x00008067;

/// The image of a file with these words as code at 0x10000.
pub fn image_of(alloc: Global, words: &[u32]) -> Option<Image> {
    if words.len() > 1 << 20 {
        return None;
    }
    let words = List::from_slice(alloc, words).ok()?;
    let file = elf_file(alloc, &words).ok()?;
    read(alloc, file.as_slice()).ok()
}

/// What is reached there from 0x10000, in a function alone or in one of several linked functions.
pub fn built(alloc: Global, linked: bool, words: &[u32]) -> Option<Result<Graph, FlowFault>> {
    let image = image_of(alloc, words)?;
    Some(if linked {
        build_linked(alloc, &image, 0x10000)
    } else {
        build(alloc, &image, 0x10000)
    })
}

/// The graph of a function alone, if it has one.
pub fn graph(alloc: Global, words: &[u32]) -> Option<Graph> {
    built(alloc, false, words)?.ok()
}

/// So many times one word, and then others, while there is memory.
pub fn repeated(alloc: Global, word: u32, count: usize, last: &[u32]) -> Vec<u32> {
    let mut words = Vec::new(alloc);
    for _ in 0..count {
        let _done = words.push(word);
    }
    let _done = words.extend_from_slice(last);
    words
}

/// The number of a fault, and its numbers.
pub fn numbers(why: &Outside) -> (u32, u64, u64) {
    match why {
        Outside::NoSuch => (1, 0, 0),
        Outside::Ambiguous(a, b) => (2, *a, *b),
        Outside::TooLarge => (3, 0, 0),
        Outside::OutsideCode(a) => (4, *a, 0),
        Outside::NotDecoded(a, w) => (5, *a, u64::from(*w)),
        Outside::Environment(a) => (6, *a, 0),
        Outside::Call(a) => (7, *a, 0),
        Outside::JumpThrough(a) => (8, *a, 0),
        Outside::Misaligned(a, t) => (9, *a, *t),
        Outside::TwoEntries { .. } => (10, 0, 0),
        Outside::ManyExits(a) => (11, *a, 0),
    }
}
