//! Texts of the first two versions have their verdicts by each of the calls for them, and those of
//! the first are rewritten.

use super::checking::{ELF, END, FUNCTION, LOOP, V1, V3, text_of};
use super::rows::each;
use checker::check_pulled;
use elf_image::read;
use mc_shelf::{Lines, MemShelf};
use proof_text::{Pull, Version};
use proof_v2::{check_any, check_any_bytes, migrate};
use std::alloc::Global;
use verdicts::{Pulled, Verdict};

/// The parts of a text, and the verdict.
type Text = (&'static [&'static str], Verdict);

static TEXTS: [Text; 3] = [
    (
        &[V1, FUNCTION, LOOP, END],
        Verdict::Accepted {
            functions: 1,
            lines: 8,
        },
    ),
    (&[V1, FUNCTION, END], Verdict::NotProved(0)),
    (&[V3, FUNCTION, LOOP, END], Verdict::BadText(1)),
];

/// Whether a text in memory has that verdict.
fn is_judged(alloc: Global, (parts, wanted): Text) -> bool {
    let text = text_of(alloc, parts);
    check_any_bytes(alloc, &ELF, text.as_slice()) == wanted
}

/// The verdict on a file that is read line by line.
fn held_verdict(alloc: Global, shelf: &mut MemShelf) -> Option<Pulled> {
    match read(alloc, &ELF) {
        Ok(image) => Some(check_any(alloc, &image, "p", 1 << 30, shelf)),
        Err(_) => None,
    }
}

/// .. among the texts of version 1.
fn pulled_verdict(alloc: Global, shelf: &mut MemShelf) -> Option<Pulled> {
    match read(alloc, &ELF) {
        Ok(image) => {
            let mut pull = Pull::new(Lines::new("p", 1 << 30));
            Some(check_pulled(alloc, &image, &mut pull, Version::One, shelf))
        }
        Err(_) => None,
    }
}

/// Whether a text in a file has that verdict.
fn is_judged_by_lines(alloc: Global, (parts, wanted): Text) -> bool {
    let text = text_of(alloc, parts);
    let mut shelf = MemShelf::new(alloc);
    let is_held = shelf.set("p", text.as_slice()).is_ok();
    let any = held_verdict(alloc, &mut shelf) == Some(Pulled::Verdict(wanted));
    is_held & any & (pulled_verdict(alloc, &mut shelf) == Some(Pulled::Verdict(wanted)))
}

/// Whether a text becomes one of version 2 with that verdict, or is refused with it.
fn is_migrated(alloc: Global, (parts, wanted): Text) -> bool {
    let text = text_of(alloc, parts);
    match migrate(alloc, &ELF, text.as_slice()) {
        Ok(new) => {
            let is_second = new.as_slice().starts_with(b"mcproof 2\n");
            is_second & (check_any_bytes(alloc, &ELF, new.as_slice()) == wanted)
        }
        Err(verdict) => verdict == wanted,
    }
}

#[test]
fn texts_are_judged_in_each_way(rt: HostRuntime) {
    assert!(rt; each(rt.alloc(), &TEXTS, is_judged));
    assert!(rt; each(rt.alloc(), &TEXTS, is_judged_by_lines));
    assert!(rt; each(rt.alloc(), &TEXTS, is_migrated));
}
