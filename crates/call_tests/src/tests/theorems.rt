//! What the rules of the kernel conclude of a theorem, call by call. The first theorem is that
//! nothing changes where no step is made.

use super::rows::each;
use group_text::read_cond;
use mc_text::Scan;
use rv_words::{List, Text};
use sep_assert::{Assertion, same_assertion};
use std::alloc::Global;
use tailrec_lang::Group;
use triple_kernel::{Fact, NoInstance, Thm, Triple, discharge, inst, strengthen, weaken};
use word_terms::{Code, DEPTH_LIMIT, Sub, Word};

/// No code.
fn no_code(alloc: Global) -> Code {
    Code {
        ranges: List::new(alloc),
    }
}

/// A group of no definitions.
fn empty_group(alloc: Global) -> Group {
    Group {
        name: Text::new(alloc),
        regs: List::new(alloc),
        mems: 0,
        code: no_code(alloc),
        defs: List::new(alloc),
    }
}

/// What is assumed.
#[derive(Clone, Copy)]
enum Assumed {
    Nothing,
    /// That v2 is v1.
    Equal,
    /// The condition that 0 is 0.
    True,
}

/// The facts, while there is memory.
fn facts(alloc: Global, assumed: Assumed) -> List<Fact> {
    let mut facts = List::new(alloc);
    match assumed {
        Assumed::Nothing => {}
        Assumed::Equal => {
            let _fact = facts.push(Fact::WordIs(Word::Var(2), Word::Var(1)));
        }
        Assumed::True => {
            if let Ok(cond) = read_cond(alloc, &mut Scan::new(b"(eq 0x0 0x0)"), DEPTH_LIMIT) {
                let _fact = facts.push(Fact::So(cond));
            }
        }
    }
    facts
}

/// The assertion that x10 holds a variable, while there is memory.
fn assertion(alloc: Global, pc: Word, x10: u32) -> Assertion {
    let mut regs = List::new(alloc);
    let _reg = regs.push((10, Word::Var(x10)));
    Assertion {
        pc,
        regs,
        mems: List::new(alloc),
    }
}

/// The triple that v1 is in x10 before and after, and v0 the program counter.
fn first_triple(alloc: Global) -> Triple {
    Triple {
        facts: List::new(alloc),
        pre: assertion(alloc, Word::Var(0), 1),
        code: no_code(alloc),
        post: assertion(alloc, Word::Var(0), 1),
    }
}

/// The theorem that a triple is whose two assertions are the same.
fn unmoved<'g>(g: &'g Group, triple: Triple) -> Option<Thm<'g>> {
    if same_assertion(&triple.pre, &triple.post) {
        Some(Thm::from_valid(g, triple))
    } else {
        None
    }
}

/// A rule.
#[derive(Clone, Copy)]
enum Rule {
    /// With 0x10000 put in for v0.
    Inst,
    Strengthen,
    Weaken,
    Discharge,
}

/// A rule, and the triple that is stated by it, with 0x10000 as the program counter: what is
/// assumed, and the variables in x10 before and after.
type Call = (Rule, Assumed, u32, u32);

/// 0x10000 for v0, while there is memory.
fn entry(alloc: Global) -> Sub {
    let mut words = List::new(alloc);
    let _word = words.push((0, Word::Const(0x10000)));
    Sub {
        words,
        mems: List::new(alloc),
    }
}

/// The theorem that a rule concludes of another one.
fn concluded<'g>(
    alloc: Global,
    p: &Thm<'g>,
    (rule, assumed, before, after): Call,
) -> Result<Thm<'g>, NoInstance> {
    let stated = Triple {
        facts: facts(alloc, assumed),
        pre: assertion(alloc, Word::Const(0x10000), before),
        code: no_code(alloc),
        post: assertion(alloc, Word::Const(0x10000), after),
    };
    match rule {
        Rule::Inst => inst(p, &entry(alloc), stated),
        Rule::Strengthen => strengthen(p, stated),
        Rule::Weaken => weaken(p, stated),
        Rule::Discharge => discharge(p, stated),
    }
}

/// How many of the calls conclude, each of the theorem before it, until one doesn't.
fn count_of(alloc: Global, first: Thm<'_>, calls: &[Call]) -> usize {
    let mut thm = first;
    for (count, &call) in calls.iter().enumerate() {
        match concluded(alloc, &thm, call) {
            Ok(next) => thm = next,
            Err(NoInstance) => return count,
        }
    }
    calls.len()
}

/// At 0x10000 nothing changes.
const HERE: Call = (Rule::Inst, Assumed::Nothing, 1, 1);

/// .. whatever else is assumed.
const ASSUMED: Call = (Rule::Strengthen, Assumed::True, 1, 1);

/// .. and v2 is there behind it, where it is v1.
const RENAMED: Call = (Rule::Weaken, Assumed::Equal, 1, 2);

/// Calls one after the other, and how many conclude.
type Row = (&'static [Call], usize);

static ROWS: [Row; 9] = [
    (&[HERE], 1),
    (&[(Rule::Inst, Assumed::Nothing, 1, 2)], 0),
    (&[(Rule::Weaken, Assumed::Nothing, 1, 1)], 0),
    (&[HERE, RENAMED], 2),
    (&[HERE, (Rule::Weaken, Assumed::Nothing, 1, 2)], 1),
    (&[HERE, (Rule::Strengthen, Assumed::Equal, 2, 1)], 2),
    (&[HERE, (Rule::Strengthen, Assumed::Equal, 1, 2)], 1),
    (
        &[HERE, ASSUMED, (Rule::Discharge, Assumed::Nothing, 1, 1)],
        3,
    ),
    (
        &[HERE, RENAMED, (Rule::Discharge, Assumed::Nothing, 1, 2)],
        2,
    ),
];

/// Whether so many of the calls conclude.
fn concludes(alloc: Global, (calls, count): Row) -> bool {
    let g = empty_group(alloc);
    match unmoved(&g, first_triple(alloc)) {
        Some(first) => count_of(alloc, first, calls) == count,
        None => false,
    }
}

#[test]
fn rules_conclude_instances_alone(rt: HostRuntime) {
    assert!(rt; each(rt.alloc(), &ROWS, concludes));
}
