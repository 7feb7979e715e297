//! Terms have numbers, equal ones for equal terms.

use group_text::{read_cond, read_mem, read_word};
use mc_text::Scan;
use rv_words::List;
use std::alloc::Global;
use term_arena::Arena;
use word_terms::DEPTH_LIMIT;

/// Words, of which some are the same. Their terms are made of 10 different ones, with `m0` and
/// `(st1 m0 v0 v1)`.
static WORDS: [&[u8]; 9] = [
    b"v0\n",
    b"(add v0 v1)\n",
    b"(add v1 v0)\n",
    b"(sub v0 v1)\n",
    b"(add v0 v1)\n",
    b"(sx1 (add v0 v1))\n",
    b"(ld1 (st1 m0 v0 v1) v0)\n",
    b"(ld2 (st1 m0 v0 v1) v0)\n",
    b"(ld1 (st1 m0 v0 v1) v0)\n",
];

/// The number of the word of a text.
fn number_of(alloc: Global, arena: &mut Arena, text: &[u8]) -> Option<u64> {
    let word = read_word(alloc, &mut Scan::new(text), DEPTH_LIMIT).ok()?;
    arena.intern_word(&word).ok()
}

/// The number of the memory of a text.
fn number_of_memory(alloc: Global, arena: &mut Arena, text: &[u8]) -> Option<u64> {
    let mem = read_mem(alloc, &mut Scan::new(text), DEPTH_LIMIT).ok()?;
    arena.intern_mem(&mem).ok()
}

/// The number of the condition of a text.
fn number_of_condition(alloc: Global, arena: &mut Arena, text: &[u8]) -> Option<u64> {
    let cond = read_cond(alloc, &mut Scan::new(text), DEPTH_LIMIT).ok()?;
    arena.intern_cond(&cond).ok()
}

/// The numbers of the words.
fn numbers(alloc: Global, arena: &mut Arena) -> Option<List<u64>> {
    let mut numbers = List::new(alloc);
    for text in &WORDS {
        let number = number_of(alloc, arena, text)?;
        let _number = numbers.push(number);
    }
    Some(numbers)
}

/// Whether the word of a place has the same number exactly as those with its text.
fn is_told_apart(numbers: &List<u64>, place: usize) -> bool {
    for other in 0..WORDS.len() {
        let is_same = WORDS.get(place) == WORDS.get(other);
        if (numbers.get(place) == numbers.get(other)) != is_same {
            return false;
        }
    }
    true
}

fn are_told_apart(numbers: &List<u64>) -> bool {
    for place in 0..WORDS.len() {
        if !is_told_apart(numbers, place) {
            return false;
        }
    }
    numbers.len() == WORDS.len()
}

/// Whether each word has its number.
fn words_have_numbers(alloc: Global) -> bool {
    let mut arena = Arena::new(alloc);
    match numbers(alloc, &mut arena) {
        Some(numbers) => (arena.len() == 10) & are_told_apart(&numbers),
        None => false,
    }
}

/// Whether a memory has its number again, and a condition of it another one.
fn others_have_numbers(alloc: Global) -> bool {
    let mut arena = Arena::new(alloc);
    let first = number_of_memory(alloc, &mut arena, b"(st1 m0 v0 v1)\n");
    let text = b"(not (in8 (st1 m0 v0 v1) v0))\n";
    let second = number_of_condition(alloc, &mut arena, text);
    let third = number_of_memory(alloc, &mut arena, b"(st1 m0 v0 v1)\n");
    let are_numbers = first.is_some() & second.is_some();
    are_numbers & (arena.len() == 6) & (first == third) & (first != second)
}

#[test]
fn terms_have_numbers(rt: HostRuntime) {
    assert!(rt; words_have_numbers(rt.alloc()));
    assert!(rt; others_have_numbers(rt.alloc()));
}
