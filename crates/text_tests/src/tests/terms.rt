//! Terms are read and printed as they stand, have their values, and are put into one another.

use super::rows::each;
use group_text::{
    put_cond, put_mem, put_range, put_word, read_cond, read_mem, read_mems, read_range,
    read_ranges, read_word, read_words,
};
use mc_text::cursor::{address, atom, bytes, eol, keyword, left, number, right, semi};
use mc_text::{Pen, Scan, TokenError, put_atom};
use rv_words::{ByteMap, Bytes, List, Range};
use std::alloc::Global;
use word_terms::{
    Cond, DEPTH_LIMIT, Env, Mem, Sub, TermFault, Word, byte_of, depth_cond, depth_mem, depth_word,
    is_cond_in_scope, is_mem_in_scope, is_word_in_scope, subst_cond, subst_mem, subst_word, truth,
    value,
};

/// A condition, and its truth where v0 is 7, v1 is 2 and m0 has 1, 2, 3, 4 from 0x1000 on.
type Told = (&'static [u8], bool);

static CONDITIONS: [Told; 59] = [
    (b"(eq 0x0 0x0)\n", true),
    (b"(eq 0xffffffffffffffff 0xffffffffffffffff)\n", true),
    (b"(eq v1 0x2)\n", true),
    (b"(eq (sub v0 v1) 0x5)\n", true),
    (b"(eq (sub v1 v0) 0xfffffffffffffffb)\n", true),
    (b"(eq (sltu v1 v0) 0x1)\n", true),
    (b"(eq (divuw 0x100000007 v1) 0x3)\n", true),
    (b"(eq (sx1 0x80) 0xffffffffffffff80)\n", true),
    (b"(eq (sx4 0x80) 0x80)\n", true),
    (b"(eq (ld2 m0 0x1001) 0x302)\n", true),
    (b"(eq (ld8 (st1 m0 0x1001 0xff) 0xfff) 0x403ff0100)\n", true),
    (b"(eq (add v0 v1) 0x9)\n", true),
    (b"(eq (sll v0 v1) 0x1c)\n", true),
    (b"(eq (sll v1 0x43) 0x10)\n", true),
    (b"(eq (slt 0xffffffffffffffff v0) 0x1)\n", true),
    (b"(eq (sltu 0xffffffffffffffff v0) 0x0)\n", true),
    (b"(eq (xor v0 v1) 0x5)\n", true),
    (
        b"(eq (srl 0xfffffffffffffff8 0x1) 0x7ffffffffffffffc)\n",
        true,
    ),
    (
        b"(eq (sra 0xfffffffffffffff8 0x1) 0xfffffffffffffffc)\n",
        true,
    ),
    (b"(eq (or v0 0x8) 0xf)\n", true),
    (b"(eq (and v0 v1) 0x2)\n", true),
    (b"(eq (mul v0 v1) 0xe)\n", true),
    (
        b"(eq (mulh v1 0xffffffffffffffff) 0xffffffffffffffff)\n",
        true,
    ),
    (b"(eq (mulhsu v1 0xffffffffffffffff) 0x1)\n", true),
    (
        b"(eq (mulhsu 0xffffffffffffffff v1) 0xffffffffffffffff)\n",
        true,
    ),
    (b"(eq (mulhu 0xffffffffffffffff v1) 0x1)\n", true),
    (
        b"(eq (div 0xfffffffffffffff9 v1) 0xfffffffffffffffd)\n",
        true,
    ),
    (b"(eq (div v0 0x0) 0xffffffffffffffff)\n", true),
    (
        b"(eq (divu 0xfffffffffffffff9 v1) 0x7ffffffffffffffc)\n",
        true,
    ),
    (
        b"(eq (rem 0xfffffffffffffff9 v1) 0xffffffffffffffff)\n",
        true,
    ),
    (b"(eq (remu 0xfffffffffffffff9 v1) 0x1)\n", true),
    (b"(eq (addw 0x7fffffff 0x1) 0xffffffff80000000)\n", true),
    (b"(eq (subw 0x0 0x1) 0xffffffffffffffff)\n", true),
    (b"(eq (sllw 0x1 0x1f) 0xffffffff80000000)\n", true),
    (b"(eq (srlw 0xffffffff80000000 0x1f) 0x1)\n", true),
    (b"(eq (sraw 0x80000000 0x1f) 0xffffffffffffffff)\n", true),
    (b"(eq (mulw 0x10001 0x10000) 0x10000)\n", true),
    (b"(eq (divw 0xfffffff9 v1) 0xfffffffffffffffd)\n", true),
    (b"(eq (remw 0xfffffff9 v1) 0xffffffffffffffff)\n", true),
    (b"(eq (remuw 0xfffffff9 v1) 0x1)\n", true),
    (b"(eq (sx2 0x8000) 0xffffffffffff8000)\n", true),
    (b"(eq (sx4 0x80000000) 0xffffffff80000000)\n", true),
    (b"(eq (ld1 m0 0x1003) 0x4)\n", true),
    (b"(eq (ld4 m0 0x1000) 0x4030201)\n", true),
    (b"(eq (ld1 m0 0x1002) 0x3)\n", true),
    (b"(eq (ld1 (st2 m0 0x1002 0x8182) 0x1002) 0x82)\n", true),
    (
        b"(eq (ld1 (st1 (st4 m0 0xfff 0x81828384) 0x1001 v0) 0x1002) 0x81)\n",
        true,
    ),
    (
        b"(eq (ld1 (st8 m0 0x1001 0x102030405060708) 0x1002) 0x7)\n",
        true,
    ),
    (b"(eq v0 v0)\n", true),
    (b"(ne v0 v0)\n", false),
    (b"(lt 0xffffffffffffffff v0)\n", true),
    (b"(ltu 0xffffffffffffffff v0)\n", false),
    (b"(in2 m0 0x1002)\n", true),
    (b"(in4 m0 0x1002)\n", false),
    (b"(not (not (geu v0 v1)))\n", true),
    (b"(ge 0xffffffffffffffff v0)\n", false),
    (b"(in1 m0 0x1003)\n", true),
    (b"(in8 m0 0x1000)\n", false),
    (
        b"(ltu v0 (ld2 (st8 m0 (sx4 0x1000) (add v1 0xffffffffffffffff)) 0x1000))\n",
        false,
    ),
];

/// The memory that has 1, 2, 3, 4 from 0x1000 on, while there is memory.
fn memory(alloc: Global) -> ByteMap {
    let mut memory = ByteMap::new(alloc);
    let _done = memory.place(0x1000, &[1, 2, 3, 4]);
    memory
}

/// The condition of a text that is one line.
fn condition(alloc: Global, text: &[u8]) -> Option<Cond> {
    let mut scan = Scan::new(text);
    let read = read_cond(alloc, &mut scan, DEPTH_LIMIT);
    if scan.rest() == b"\n".as_slice() {
        read.ok()
    } else {
        None
    }
}

/// Whether a condition has that truth.
fn has_truth(alloc: Global, cond: &Cond, holds: bool) -> bool {
    let mems = [memory(alloc)];
    let env = Env {
        words: &[7, 2],
        mems: &mems,
    };
    is_cond_in_scope(cond, 2, 1) && truth(cond, &env) == holds
}

/// Whether a condition is printed as that line.
fn is_printed(alloc: Global, cond: &Cond, text: &[u8]) -> bool {
    let mut out = Bytes::new(alloc);
    let mut pen = Pen::new(&mut out);
    let is_put = put_cond(&mut pen, cond).is_ok() & pen.eol().is_ok();
    is_put & (out.as_slice() == text)
}

/// Whether a text is read as a condition of that truth, which is printed as it stands.
fn is_read(alloc: Global, (text, holds): Told) -> bool {
    match condition(alloc, text) {
        Some(cond) => has_truth(alloc, &cond, holds) & is_printed(alloc, &cond, text),
        None => false,
    }
}

/// Whether a word is printed as that text.
fn word_is_printed(alloc: Global, word: &Word, text: &[u8]) -> bool {
    let mut out = Bytes::new(alloc);
    let is_put = put_word(&mut Pen::new(&mut out), word).is_ok();
    is_put & (out.as_slice() == text)
}

/// Whether a word is 5 where v0 is 7 and v1 is 2.
fn is_five(word: &Word) -> bool {
    let env = Env {
        words: &[7, 2],
        mems: &[],
    };
    is_word_in_scope(word, 2, 0) && value(word, &env) == 5
}

/// Whether a text is read as such a word, and is printed as it stands.
fn word_is_read(alloc: Global, text: &[u8]) -> bool {
    match read_word(alloc, &mut Scan::new(text), DEPTH_LIMIT) {
        Ok(word) => is_five(&word) & word_is_printed(alloc, &word, text),
        Err(_) => false,
    }
}

/// Whether a memory is printed as that text.
fn memory_is_printed(alloc: Global, mem: &Mem, text: &[u8]) -> bool {
    let mut out = Bytes::new(alloc);
    let is_put = put_mem(&mut Pen::new(&mut out), mem).is_ok();
    is_put & (out.as_slice() == text)
}

/// Whether a memory has 0x82 at 0x1002 where m0 has 1, 2, 3, 4 from 0x1000 on.
fn has_byte(alloc: Global, mem: &Mem) -> bool {
    let mems = [memory(alloc)];
    let env = Env {
        words: &[],
        mems: &mems,
    };
    is_mem_in_scope(mem, 0, 1) && byte_of(mem, &env, 0x1002) == Some(0x82)
}

/// Whether a text is read as such a memory, and is printed as it stands.
fn memory_is_read(alloc: Global, text: &[u8]) -> bool {
    match read_mem(alloc, &mut Scan::new(text), DEPTH_LIMIT) {
        Ok(mem) => has_byte(alloc, &mem) & memory_is_printed(alloc, &mem, text),
        Err(_) => false,
    }
}

/// Whether a range is printed as that text.
fn range_is_printed(alloc: Global, range: &Range, text: &[u8]) -> bool {
    let mut out = Bytes::new(alloc);
    let is_put = put_range(&mut Pen::new(&mut out), range).is_ok();
    is_put & (out.as_slice() == text)
}

/// Whether a text is read as a range and printed as it stands.
fn range_is_read(alloc: Global, text: &[u8]) -> bool {
    match read_range(alloc, &mut Scan::new(text)) {
        Ok(range) => {
            let is_there = range.at == 0x10000;
            let has_bytes = range.bytes.as_slice() == [0, 0x9a, 0xff].as_slice();
            is_there & has_bytes & range_is_printed(alloc, &range, text)
        }
        Err(_) => false,
    }
}

#[test]
fn terms_are_read_and_printed(rt: HostRuntime) {
    assert!(rt; each(rt.alloc(), &CONDITIONS, is_read));
    assert!(rt; word_is_read(rt.alloc(), b"(sub v0 v1)"));
    assert!(rt; memory_is_read(rt.alloc(), b"(st2 m0 0x1002 0x8182)"));
    assert!(rt; range_is_read(rt.alloc(), b"(0x10000 009aff)"));
}

/// A text of no word, and what is left from the token on that fits nothing.
type NoWord = (&'static [u8], &'static [u8]);

static NO_WORDS: [NoWord; 16] = [
    (b"", b""),
    (b"\n", b"\n"),
    (b"m0\n", b"m0\n"),
    (b"v\n", b"v\n"),
    (b"v00\n", b"v00\n"),
    (b"v4294967296\n", b"v4294967296\n"),
    (b"0x00\n", b"0x00\n"),
    (b"0X0\n", b"0X0\n"),
    (b"0x10000000000000000\n", b"0x10000000000000000\n"),
    (b"()\n", b")\n"),
    (b"(add v0)\n", b")\n"),
    (b"(add v0 v1\n", b"\n"),
    (b"(add v0 v1 v1)\n", b" v1)\n"),
    (b"(add  v0 v1)\n", b"  v0 v1)\n"),
    (b"(ld3 m0 v0)\n", b"ld3 m0 v0)\n"),
    (b"(ld1 v0 v1)\n", b" v0 v1)\n"),
];

/// Whether reading a word stops with that left.
fn stops_before(alloc: Global, (text, rest): NoWord) -> bool {
    let mut scan = Scan::new(text);
    match read_word(alloc, &mut scan, DEPTH_LIMIT) {
        Err(TokenError::Bad) => scan.rest() == rest,
        _ => false,
    }
}

fn has_words(alloc: Global, scan: &mut Scan<'_>, count: usize) -> bool {
    match read_words(alloc, scan) {
        Ok(words) => words.len() == count,
        Err(_) => false,
    }
}

fn has_memories(alloc: Global, scan: &mut Scan<'_>, count: usize) -> bool {
    match read_mems(alloc, scan) {
        Ok(mems) => mems.len() == count,
        Err(_) => false,
    }
}

fn has_ranges(alloc: Global, scan: &mut Scan<'_>, count: usize) -> bool {
    match read_ranges(alloc, scan) {
        Ok(ranges) => ranges.len() == count,
        Err(_) => false,
    }
}

/// Whether words, memories and ranges are read from two lines, each list up to what is no item of
/// it.
fn lists_end(alloc: Global) -> bool {
    let mut scan = Scan::new(b"v0 (add v1 v0) 0x3 ; m0 m1\n(0x10000 3305b500) (0x20000 00)\n");
    let words = has_words(alloc, &mut scan, 3) & semi(&mut scan).is_ok();
    let mems = has_memories(alloc, &mut scan, 2) & eol(&mut scan).is_ok();
    let ranges = has_ranges(alloc, &mut scan, 2) & eol(&mut scan).is_ok();
    words & mems & ranges & scan.rest().is_empty() & (scan.line() == 3)
}

/// Whether the next bytes are these.
fn bytes_are(alloc: Global, scan: &mut Scan<'_>, wanted: &[u8]) -> bool {
    match bytes(alloc, scan) {
        Ok(found) => found.as_slice() == wanted,
        Err(_) => false,
    }
}

/// Whether the tokens of a line are read one by one, each by what is for it alone.
fn tokens_are_read(alloc: Global) -> bool {
    let mut scan = Scan::new(b"let 17 0x1f 00ff ; (name)\n");
    let word = keyword(&mut scan, b"le").is_err() & keyword(&mut scan, b"let").is_ok();
    let small = number(&mut scan, 17).is_err() & (number(&mut scan, 18).ok() == Some(17));
    let no_bytes = !bytes_are(alloc, &mut scan, &[0x1f]);
    let large = (address(&mut scan).ok() == Some(31)) & bytes_are(alloc, &mut scan, &[0, 0xff]);
    word & small & no_bytes & large & ends_so(&mut scan)
}

/// Whether a semicolon follows, and an atom in brackets.
fn ends_so(scan: &mut Scan<'_>) -> bool {
    let is_semi = left(scan).is_err() & semi(scan).is_ok() & left(scan).is_ok();
    let is_name = atom(scan).ok() == Some(b"name".as_slice());
    let is_right = atom(scan).is_err() & eol(scan).is_err() & right(scan).is_ok();
    is_semi & is_name & is_right & eol(scan).is_ok()
}

#[test]
fn tokens_are_read_up_to_others(rt: HostRuntime) {
    assert!(rt; each(rt.alloc(), &NO_WORDS, stops_before));
    assert!(rt; lists_end(rt.alloc()));
    assert!(rt; tokens_are_read(rt.alloc()));
}

// ---- terms put into terms

/// The terms of a text for the first variables, and m2 for m0, while there is memory.
fn terms_of(alloc: Global, text: &[u8]) -> Sub {
    let mut scan = Scan::new(text);
    let mut words = List::new(alloc);
    for i in 0..2 {
        if let Ok(word) = read_word(alloc, &mut scan, DEPTH_LIMIT) {
            let _word = words.push((i, word));
        }
    }
    let mut mems = List::new(alloc);
    let _mem = mems.push((0, Mem::Var(2)));
    Sub { words, mems }
}

/// Whether the condition is this text with the terms put in, or too deep where there is none.
fn becomes(alloc: Global, cond: &Cond, terms: &Sub, made: Option<&[u8]>) -> bool {
    match subst_cond(alloc, cond, terms) {
        Ok(cond) => match made {
            Some(text) => is_printed(alloc, &cond, text),
            None => false,
        },
        Err(fault) => (fault == TermFault::TooDeep) & made.is_none(),
    }
}

/// Whether the condition of a text becomes that with the terms of another text.
fn text_becomes(alloc: Global, text: &[u8], terms: &[u8], made: Option<&[u8]>) -> bool {
    let terms = terms_of(alloc, terms);
    match read_cond(alloc, &mut Scan::new(text), DEPTH_LIMIT) {
        Ok(cond) => becomes(alloc, &cond, &terms, made),
        Err(_) => false,
    }
}

/// A term, the terms that are put in, and what it becomes.
type Changed = (&'static [u8], &'static [u8], &'static [u8]);

fn condition_becomes(alloc: Global, (text, terms, made): Changed) -> bool {
    text_becomes(alloc, text, terms, Some(made))
}

/// Conditions.
static MADE: [Changed; 3] = [
    (
        b"(eq (sub v0 v1) v2)\n",
        b"v1 v0\n",
        b"(eq (sub v1 v0) v2)\n",
    ),
    (
        b"(not (in2 (st1 m0 v0 v1) (ld8 m1 v1)))\n",
        b"(add v1 v2) 0x5\n",
        b"(not (in2 (st1 m2 (add v1 v2) 0x5) (ld8 m1 0x5)))\n",
    ),
    (b"(ltu v0 v2)\n", b"(sx1 v0)\n", b"(ltu (sx1 v0) v2)\n"),
];

/// Words.
static MADE_WORDS: [Changed; 3] = [
    (b"v1", b"v1 (ld1 m0 v0)", b"(ld1 m0 v0)"),
    (b"(sub v0 (ld8 m0 v1))", b"v1 0x7", b"(sub v1 (ld8 m2 0x7))"),
    (b"(sx2 v2)", b"v1 v0", b"(sx2 v2)"),
];

/// Whether the word is this text with the terms put in.
fn word_is_made(alloc: Global, word: &Word, terms: &Sub, made: &[u8]) -> bool {
    match subst_word(alloc, word, terms) {
        Ok(word) => word_is_printed(alloc, &word, made),
        Err(_) => false,
    }
}

fn word_becomes(alloc: Global, (text, terms, made): Changed) -> bool {
    let terms = terms_of(alloc, terms);
    match read_word(alloc, &mut Scan::new(text), DEPTH_LIMIT) {
        Ok(word) => word_is_made(alloc, &word, &terms, made),
        Err(_) => false,
    }
}

/// Memories.
static MADE_MEMORIES: [Changed; 3] = [
    (b"m0", b"v1 v0", b"m2"),
    (b"m1", b"v1 v0", b"m1"),
    (
        b"(st8 (st1 m0 v0 v1) v1 (ld1 m0 v0))",
        b"v1 0x7",
        b"(st8 (st1 m2 v1 0x7) 0x7 (ld1 m2 v1))",
    ),
];

/// Whether the memory is this text with the terms put in.
fn memory_is_made(alloc: Global, mem: &Mem, terms: &Sub, made: &[u8]) -> bool {
    match subst_mem(alloc, mem, terms) {
        Ok(mem) => memory_is_printed(alloc, &mem, made),
        Err(_) => false,
    }
}

fn memory_becomes(alloc: Global, (text, terms, made): Changed) -> bool {
    let terms = terms_of(alloc, terms);
    match read_mem(alloc, &mut Scan::new(text), DEPTH_LIMIT) {
        Ok(mem) => memory_is_made(alloc, &mem, &terms, made),
        Err(_) => false,
    }
}

/// A term, and its depth.
type Deep = (&'static [u8], u32);

static DEEP_WORDS: [Deep; 3] = [(b"0x7", 1), (b"(sx1 v0)", 2), (b"(add v0 (ld8 m1 v1))", 3)];

static DEEP_MEMORIES: [Deep; 2] = [(b"m0", 1), (b"(st1 (st1 m0 v0 v1) v0 (sx1 v1))", 3)];

static DEEP_CONDITIONS: [Deep; 2] = [
    (b"(eq v0 0x0)", 2),
    (b"(not (in2 (st1 m0 v0 v1) (add v0 (ld8 m1 v1))))", 5),
];

fn word_is_deep(alloc: Global, (text, depth): Deep) -> bool {
    match read_word(alloc, &mut Scan::new(text), DEPTH_LIMIT) {
        Ok(word) => depth_word(&word) == depth,
        Err(_) => false,
    }
}

fn memory_is_deep(alloc: Global, (text, depth): Deep) -> bool {
    match read_mem(alloc, &mut Scan::new(text), DEPTH_LIMIT) {
        Ok(mem) => depth_mem(&mem) == depth,
        Err(_) => false,
    }
}

fn condition_is_deep(alloc: Global, (text, depth): Deep) -> bool {
    match read_cond(alloc, &mut Scan::new(text), DEPTH_LIMIT) {
        Ok(cond) => depth_cond(&cond) == depth,
        Err(_) => false,
    }
}

#[test]
fn depths_are_told(rt: HostRuntime) {
    assert!(rt; each(rt.alloc(), &DEEP_WORDS, word_is_deep));
    assert!(rt; each(rt.alloc(), &DEEP_MEMORIES, memory_is_deep));
    assert!(rt; each(rt.alloc(), &DEEP_CONDITIONS, condition_is_deep));
}

/// A variable in so many extensions, between these bytes, while there is memory.
fn nested(alloc: Global, first: &[u8], count: u32, last: &[u8]) -> Bytes {
    let mut text = Bytes::new(alloc);
    let _first = put_atom(&mut text, first);
    for _ in 0..count {
        let _opened = put_atom(&mut text, b"(sx4 ");
    }
    let _word = put_atom(&mut text, b"v0");
    for _ in 0..count {
        let _closed = put_atom(&mut text, b")");
    }
    let _last = put_atom(&mut text, last);
    text
}

/// Whether that many extensions may be put into so many others, or are too deep there.
fn deep_terms_become(alloc: Global, (whole, part, fits): (u32, u32, bool)) -> bool {
    let text = nested(alloc, b"(eq ", whole, b" 0x0)\n");
    let terms = nested(alloc, b"", part, b"\n");
    let made = nested(alloc, b"(eq ", whole.saturating_add(part), b" 0x0)\n");
    let made = if fits { Some(made.as_slice()) } else { None };
    text_becomes(alloc, text.as_slice(), terms.as_slice(), made)
}

static DEPTHS: [(u32, u32, bool); 6] = [
    (62, 0, true),
    (0, 62, true),
    (31, 31, true),
    (62, 1, false),
    (0, 63, false),
    (32, 31, false),
];

#[test]
fn terms_are_put_in(rt: HostRuntime) {
    assert!(rt; each(rt.alloc(), &MADE, condition_becomes));
    assert!(rt; each(rt.alloc(), &MADE_WORDS, word_becomes));
    assert!(rt; each(rt.alloc(), &MADE_MEMORIES, memory_becomes));
    assert!(rt; each(rt.alloc(), &DEPTHS, deep_terms_become));
}
