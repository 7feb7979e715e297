//! What no clause says: that codes are joined where there is memory, and the ranges of small codes.

ghost use Rattle.std.specs.Prelude.{◌≡◌, ◌<◌, ◌≤◌, ◌+◌, ◌^◌, IfOk, length, true};
ghost use Rattle.rv_words.specs.Ranges.{AreRanges};

use super::rows::each;
use rv_words::{List, NoMemory, Range};
use sep_assert::*;
use std::alloc::Global;
use word_terms::{Code, Mem, Word};

/// Code of one range.
fn one_range(alloc: Global, at: u64, bytes: &[u8]) -> Result<Code, NoMemory>
    requires some { 0 < length bytes.now }
    requires within { at + length bytes.now ≤ 2 ^ 64 }
    ensures { IfOk result (λ c. AreRanges c.ranges) }
{
    let mut ranges = List::new(alloc);
    let bytes = List::from_slice(alloc, bytes)?;
    ranges.push(Range { at, bytes })?;
    Ok(Code { ranges })
}

/// Whether the code is these ranges.
fn is_made_of(code: &Code, ranges: &[(u64, &[u8])]) -> bool {
    if code.ranges.len() != ranges.len() {
        return false;
    }
    for i in 0..ranges.len() {
        let (at, bytes) = ranges[i];
        match code.ranges.get(i) {
            Some(range) => {
                if range.at != at || range.bytes.as_slice() != bytes {
                    return false;
                }
            }
            None => return false,
        }
    }
    true
}

/// Whether these bytes are those of a range that is tested.
fn is_small(at: u64, bytes: &[u8]) -> bool
    ensures { result ≡ true → (0 < length bytes.now) × (at + length bytes.now ≤ 2 ^ 64) }
{
    at < 1 << 32 && !bytes.is_empty() && bytes.len() < 1 << 32
}

/// A range: its address and its bytes.
type Piece = (u64, &'static [u8]);

/// Two ranges, and those of both.
type Join = (Piece, Piece, &'static [Piece]);

/// Whether the codes of one range each agree, and are joined to these ranges.
fn is_joined(alloc: Global, (first, second, joined): Join) -> bool {
    if !is_small(first.0, first.1) || !is_small(second.0, second.1) {
        return false;
    }
    let Ok(a) = one_range(alloc, first.0, first.1) else {
        return false;
    };
    let Ok(b) = one_range(alloc, second.0, second.1) else {
        return false;
    };
    if !code_agree(&a, &b) {
        return false;
    }
    match code_join(alloc, &a, &b) {
        Ok(both) => is_made_of(&both, joined) && are_within(&a, &b, &both),
        Err(_) => false,
    }
}

fn are_within(a: &Code, b: &Code, both: &Code) -> bool {
    code_within(a, both) && code_within(b, both) && code_within_either(both, b, a)
}

/// `add x10, x10, x11`
const ADD: &[u8] = &[0x33, 0x05, 0xb5, 0x00];
/// `jalr x0, 0(x1)`
const RETURN: &[u8] = &[0x67, 0x80, 0x00, 0x00];
/// Both.
const BOTH: &[u8] = &[0x33, 0x05, 0xb5, 0x00, 0x67, 0x80, 0x00, 0x00];

static JOINED: [Join; 4] = [
    ((0x10000, ADD), (0x10004, RETURN), &[(0x10000, BOTH)]),
    ((0x10004, RETURN), (0x10000, ADD), &[(0x10000, BOTH)]),
    ((0x10000, BOTH), (0x10004, RETURN), &[(0x10000, BOTH)]),
    (
        (0x10008, ADD),
        (0x10000, RETURN),
        &[(0x10000, RETURN), (0x10008, ADD)],
    ),
];

/// Whether a byte agrees with those from 0x10000 on, and lies among them, as told, and is the same
/// code as itself alone.
fn compares_so(alloc: Global, (at, byte, agree, within): (u64, u8, bool, bool)) -> bool {
    if at >= 1 << 32 {
        return false;
    }
    let Ok(a) = one_range(alloc, 0x10000, &[1, 2, 3]) else {
        return false;
    };
    let Ok(b) = one_range(alloc, at, &[byte]) else {
        return false;
    };
    let is_same = same_code(&b, &b) & !same_code(&a, &b);
    is_same & (code_agree(&a, &b) == agree) & (code_within(&b, &a) == within)
}

static COMPARED: [(u64, u8, bool, bool); 4] = [
    (0x10000, 1, true, true),
    (0x10001, 1, false, false),
    (0x10003, 1, true, false),
    (0xffff, 1, true, false),
];

#[test]
fn codes_are_joined_and_compared(rt: HostRuntime) {
    assert!(rt; each(rt.alloc(), &JOINED, is_joined));
    assert!(rt; each(rt.alloc(), &COMPARED, compares_so));
    assert!(rt; many_are_compared(rt.alloc()));
}

/// The assertion that x10 holds a variable, at a program counter, while there is memory.
fn assertion(alloc: Global, pc: u64, x10: u32, m: u32) -> Assertion {
    let mut regs = List::new(alloc);
    let _reg = regs.push((10, Word::Var(x10)));
    let mut mems = List::new(alloc);
    let _mem = mems.push(Mem::Var(m));
    Assertion {
        pc: Word::Const(pc),
        regs,
        mems,
    }
}

/// A program counter, a variable in x10 and a memory, and whether that is the assertion of 0x10000,
/// 1 and 0.
static ASSERTIONS: [(u64, u32, u32, bool); 4] = [
    (0x10000, 1, 0, true),
    (0x10004, 1, 0, false),
    (0x10000, 2, 0, false),
    (0x10000, 1, 1, false),
];

fn is_same(alloc: Global, (pc, x10, m, same): (u64, u32, u32, bool)) -> bool {
    let first = assertion(alloc, 0x10000, 1, 0);
    let second = assertion(alloc, pc, x10, m);
    same_assertion(&first, &second) == same
}

#[test]
fn assertions_are_compared(rt: HostRuntime) {
    assert!(rt; each(rt.alloc(), &ASSERTIONS, is_same));
}

/// Code of that many ranges of four bytes each, while there is memory.
fn many_ranges(alloc: Global, count: u64) -> Code {
    let mut ranges = List::new(alloc);
    for i in 0..count {
        let mut bytes = List::new(alloc);
        let _bytes = bytes.extend_from_slice(&[0x13, 0, 0, 0]);
        let at = i.wrapping_mul(8);
        let _range = ranges.push(Range { at, bytes });
    }
    Code { ranges }
}

/// Whether codes of many ranges are compared as they should be, in time that grows as their length
/// does.
fn many_are_compared(alloc: Global) -> bool {
    let some = many_ranges(alloc, 10_000);
    let all = many_ranges(alloc, 20_000);
    let is_within = code_within(&some, &all) & !code_within(&all, &some);
    is_within & code_agree(&all, &some) & code_within_either(&all, &some, &all)
}
