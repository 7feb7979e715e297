//! The outcomes of small functions, and the first ill-formed definition of a group.

use super::rows::each;
use loop_rule::{Leaf, leaves};
use proof_text::Reader;
use rv_words::{ByteMap, List, Width};
use std::alloc::Global;
use tailrec_lang::{
    Args, BadDef, Exit, Group, Outcome, def_at, eval, exits_of, has_few_needs, results_at,
    well_formed,
};
use word_terms::Word;

/// Two definitions. The first counts v1 down to 0, adds each of its values to v0 and stores the sum
/// at 0x1000. The second needs that v1 is neither 8 nor 7, calls the first, and returns.
const TEXT: &str = "\
mcproof 1
group f
regs 10 11
mems 1
code
def 0x10000 0x10004
if (eq v1 0x0)
leave 0 v0 v1 ; m0
else
let (sub v1 0x1)
let (add v0 v1)
letm (st8 m0 0x1000 v3)
again v3 v2 ; m1
def 0x20000 ret
need (not (eq v1 0x8))
need (not (eq v1 0x7))
call 0 1 v0 v1 ; m0
arm
leave 0 v0 v2 v3 ; m1
";

/// How an evaluation is to end.
#[derive(Clone, Copy)]
enum Ending {
    /// By exit 0, with this program counter, the sum as the first word and at 0x1000, 0 as the
    /// second word, and with turns left.
    Done { pc: u64, sum: u64, left: u64 },
    /// At the Need of that number in the second definition.
    SideFalse(u64),
    Turns,
}

/// 5 and the count, and a memory with eight zeros from 0x1000 on, while there is memory.
fn arguments(alloc: Global, count: u64) -> Args {
    let mut memory = ByteMap::new(alloc);
    let _zeros = memory.place_zeros(0x1000, 8);
    let mut mems = List::new(alloc);
    let _mem = mems.push(memory);
    let mut words = List::new(alloc);
    let _words = words.extend_from_slice(&[5, count]);
    Args { words, mems }
}

/// How the definition ends, if it can be evaluated.
fn outcome(alloc: Global, g: &Group, def: u32, args: &Args, turns: u64) -> Option<Outcome> {
    if g.defs.len() < 1 << 32
        && well_formed(g).is_ok()
        && has_few_needs(g)
        && (def as usize) < g.defs.len()
        && args.words.len() == g.regs.len()
        && args.mems.len() == g.mems as usize
    {
        eval(alloc, g, def, args, turns).ok()
    } else {
        None
    }
}

/// Whether there are the sum and 0, and one memory with the sum at 0x1000.
fn holds(args: &Args, sum: u64) -> bool {
    match args.mems.as_slice() {
        [m] => args.words.as_slice() == [sum, 0].as_slice() && m.load(0x1000, Width::B8) == sum,
        _ => false,
    }
}

fn is_so(outcome: &Outcome, ending: Ending) -> bool {
    match (outcome, ending) {
        (
            Outcome::Done {
                exit,
                pc: to,
                args,
                left: more,
            },
            Ending::Done { pc, sum, left },
        ) => *exit == 0 && *to == pc && *more == left && holds(args, sum),
        (Outcome::SideFalse { def, ordinal }, Ending::SideFalse(number)) => {
            *def == 1 && *ordinal == number
        }
        (Outcome::Turns, Ending::Turns) => true,
        _ => false,
    }
}

/// A definition, a count and turns, and how it ends.
type Run = ((u32, u64, u64), Ending);

/// Whether the definition ends in that way on 5 and the count.
fn ends_so(alloc: Global, g: &Group, ((def, count, turns), ending): Run) -> bool {
    let args = arguments(alloc, count);
    match outcome(alloc, g, def, &args, turns) {
        Some(outcome) => is_so(&outcome, ending),
        None => false,
    }
}

/// Whether it does so in the group of the text.
fn text_ends_so(alloc: Global, run: Run) -> bool {
    let mut reader = Reader::new(TEXT.as_bytes());
    match reader.group(alloc) {
        Ok(Some(group)) => ends_so(alloc, &group, run),
        _ => false,
    }
}

static RUNS: [Run; 7] = [
    (
        (0, 3, 4),
        Ending::Done {
            pc: 0x10004,
            sum: 11,
            left: 0,
        },
    ),
    (
        (0, 10_000, 10_003),
        Ending::Done {
            pc: 0x10004,
            sum: 50_005_005,
            left: 2,
        },
    ),
    (
        (1, 3, 7),
        Ending::Done {
            pc: 5,
            sum: 11,
            left: 2,
        },
    ),
    ((0, 3, 3), Ending::Turns),
    ((1, 3, 4), Ending::Turns),
    ((1, 8, 9), Ending::SideFalse(0)),
    ((1, 7, 9), Ending::SideFalse(1)),
];

/// What stands in the text, what is put in its place, and the first ill-formed definition.
type Change = (&'static str, &'static str, Option<u32>);

static CHANGES: [Change; 4] = [
    ("call 0", "call 0", None),
    ("call 0", "call 1", Some(1)),
    ("call 0", "call 2", Some(1)),
    ("regs 10 11", "regs 10 11 12", Some(0)),
];

/// Whether that is the first ill-formed definition.
fn is_first_bad(g: &Group, bad: Option<u32>) -> bool {
    if g.defs.len() >= 1 << 32 {
        return false;
    }
    match well_formed(g) {
        Ok(()) => bad.is_none() && has_exits(g),
        Err(BadDef { def }) => bad == Some(def),
    }
}

/// Whether the first definition leads to an address and the second returns, and there is no third.
fn has_exits(g: &Group) -> bool {
    let first = exits_of(g, 0) == [Exit::At(0x10004)].as_slice();
    let second = exits_of(g, 1) == [Exit::Ret].as_slice();
    let results = (results_at(g, Exit::At(0x10004)) == 2) & (results_at(g, Exit::Ret) == 3);
    first & second & results & def_at(g, 1).is_some() & def_at(g, 2).is_none()
}

/// Whether that is the first ill-formed definition of a text.
fn text_is_bad(alloc: Global, text: &[u8], bad: Option<u32>) -> bool {
    let mut reader = Reader::new(text);
    match reader.group(alloc) {
        Ok(Some(group)) => is_first_bad(&group, bad),
        _ => false,
    }
}

/// .. of the changed text.
fn is_ill_formed(alloc: Global, (old, new, bad): Change) -> bool {
    match TEXT.replace(alloc, old, new) {
        Ok(text) => text_is_bad(alloc, text.as_bytes(), bad),
        Err(_) => false,
    }
}

/// A definition, and of each of its leaves how many facts lead there, and the program counter where
/// that is a constant.
type Ends = (u32, &'static [(usize, Option<u64>)]);

static LEAVES: [Ends; 3] = [
    (0, &[(1, Some(0x10004)), (4, Some(0x10000))]),
    (1, &[(3, None)]),
    (2, &[]),
];

fn constant(word: &Word) -> Option<u64> {
    match word {
        Word::Const(n) => Some(*n),
        _ => None,
    }
}

/// Whether these are the leaves.
fn are_leaves(found: &[Leaf], wanted: &[(usize, Option<u64>)]) -> bool {
    if found.len() != wanted.len() {
        return false;
    }
    for (i, leaf) in found.iter().enumerate() {
        let Some(&(facts, pc)) = wanted.get(i) else {
            return false;
        };
        if leaf.facts.len() != facts || constant(&leaf.post.pc) != pc {
            return false;
        }
    }
    true
}

/// Whether these are the leaves of a group's definition.
fn has_leaves(alloc: Global, g: &Group, (def, wanted): Ends) -> bool {
    match leaves(alloc, g, def) {
        Ok(found) => are_leaves(found.as_slice(), wanted),
        Err(_) => false,
    }
}

/// .. of the text's.
fn text_has_leaves(alloc: Global, row: Ends) -> bool {
    let mut reader = Reader::new(TEXT.as_bytes());
    match reader.group(alloc) {
        Ok(Some(group)) => has_leaves(alloc, &group, row),
        _ => false,
    }
}

#[test]
fn functions_have_their_outcomes(rt: HostRuntime) {
    assert!(rt; each(rt.alloc(), &RUNS, text_ends_so));
    assert!(rt; each(rt.alloc(), &CHANGES, is_ill_formed));
    assert!(rt; each(rt.alloc(), &LEAVES, text_has_leaves));
}
