//! Triples whose terms are numbers of an arena, as trees.

ghost use Rattle.std.specs.Prelude.{◌≡◌, ◌+◌, ◌≤◌, IfOk, Ok as Done, flat_map, map};
ghost use Rattle.word_terms.specs.Tree.{cond_tree, mem_tree, word_tree};
ghost use Rattle.tailrec_lang.specs.Tree.{values_tree};
ghost use Rattle.sep_assert.specs.Tree.{assertion_tree, register_tree};
ghost use Rattle.triple_kernel.specs.Tree.{fact_tree, triple_tree};
ghost use Rattle.term_arena.specs.Arena.{IsCondAt, IsMemAt, IsWordAt, OfMem, OfWord, cond_nodes, cond_of, mem_nodes, mem_of, word_nodes, word_of};
ghost use Rattle.held_terms.specs.Held.{AreFactsAt, AreMemsAt, AreRegistersAt, AreValuesAt, AreWordsAt, IsFactAt, IsHeldAt, IsSideAt, fact_of, register_of, side_of, triple_of, values_over};
ghost use Rattle.held_terms.specs.Terms.{assertion_terms, fact_terms, nodes_of, triple_terms, values_terms};

use held_terms::{Held, HeldFact, HeldSide, HeldValues};
use rv_words::{List, NoMemory};
use sep_assert::Assertion;
use std::alloc::Global;
use std::sync::ledger::Ledger;
use tailrec_lang::Values;
use term_arena::{Arena, Node, Steps};
use triple_kernel::{Fact, Triple};
use word_terms::{Cond, Mem, Word, copy_code};

/// The triple of those numbers. It takes at most a step for each node of its terms.
pub(crate) fn triple_from<L: Ledger>(
    alloc: Global,
    arena: &Arena,
    h: &Held,
    steps: &mut Steps<L>,
) -> Result<Triple, NoMemory>
    requires { IsHeldAt arena.now h.now }
    ensures triple { IfOk result (λ t. triple_tree t ≡ triple_of arena.now h.now) }
    ensures steps { steps.new ≤ steps.old + nodes_of (triple_terms (triple_of arena.now h.now)) }
{
    let facts = facts_from(alloc, arena, h.facts.as_slice(), steps);
    let pre = side_from(alloc, arena, &h.pre, steps);
    let post = side_from(alloc, arena, &h.post, steps);
    let code = copy_code(alloc, h.code.as_ref());
    Ok(Triple {
        facts: facts?,
        pre: pre?,
        code: code?,
        post: post?,
    })
}

fn facts_from<L: Ledger>(
    alloc: Global,
    arena: &Arena,
    facts: &[HeldFact],
    steps: &mut Steps<L>,
) -> Result<List<Fact>, NoMemory>
    requires { AreFactsAt arena.now facts.now }
    ensures facts { IfOk result (λ fs. map fact_tree fs ≡ map (fact_of arena.now) facts.now) }
    ensures steps { steps.new
        ≤ steps.old + nodes_of (flat_map fact_terms (map (fact_of arena.now) facts.now)) }
{
    let mut trees = List::new(alloc);
    for fact in facts {
        let tree = fact_from(alloc, arena, fact, steps)?;
        trees.push(tree)?;
    }
    Ok(trees)
}

fn fact_from<L: Ledger>(
    alloc: Global,
    arena: &Arena,
    fact: &HeldFact,
    steps: &mut Steps<L>,
) -> Result<Fact, NoMemory>
    requires { IsFactAt arena.now fact.now }
    ensures fact { IfOk result (λ f. fact_tree f ≡ fact_of arena.now fact.now) }
    ensures steps { steps.new ≤ steps.old + nodes_of (fact_terms (fact_of arena.now fact.now)) }
{
    match fact {
        HeldFact::WordIs(a, b) => {
            let a = word_from(alloc, arena, *a, steps);
            let b = word_from(alloc, arena, *b, steps);
            Ok(Fact::WordIs(a?, b?))
        }
        HeldFact::MemIs(a, b) => {
            let a = mem_from(alloc, arena, *a, steps);
            let b = mem_from(alloc, arena, *b, steps);
            Ok(Fact::MemIs(a?, b?))
        }
        HeldFact::So(c) => {
            let c = cond_from(alloc, arena, *c, steps);
            Ok(Fact::So(c?))
        }
        HeldFact::Gives {
            def,
            exit,
            args,
            results,
        } => {
            let args = values_from(alloc, arena, args, steps);
            let results = values_from(alloc, arena, results, steps);
            Ok(Fact::Gives {
                def: *def,
                exit: *exit,
                args: args?,
                results: results?,
            })
        }
    }
}

fn values_from<L: Ledger>(
    alloc: Global,
    arena: &Arena,
    values: &HeldValues,
    steps: &mut Steps<L>,
) -> Result<Values, NoMemory>
    requires { AreValuesAt arena.now values.now }
    ensures values { IfOk result (λ v. values_tree v ≡ values_over arena.now values.now) }
    ensures steps { steps.new
        ≤ steps.old + nodes_of (values_terms (values_over arena.now values.now)) }
{
    let words = words_from(alloc, arena, values.words.as_slice(), steps);
    let mems = mems_from(alloc, arena, values.mems.as_slice(), steps);
    Ok(Values {
        words: words?,
        mems: mems?,
    })
}

fn side_from<L: Ledger>(
    alloc: Global,
    arena: &Arena,
    side: &HeldSide,
    steps: &mut Steps<L>,
) -> Result<Assertion, NoMemory>
    requires { IsSideAt arena.now side.now }
    ensures side { IfOk result (λ s. assertion_tree s ≡ side_of arena.now side.now) }
    ensures steps { steps.new
        ≤ steps.old + nodes_of (assertion_terms (side_of arena.now side.now)) }
{
    let pc = word_from(alloc, arena, side.pc, steps);
    let regs = registers_from(alloc, arena, side.regs.as_slice(), steps);
    let mems = mems_from(alloc, arena, side.mems.as_slice(), steps);
    Ok(Assertion {
        pc: pc?,
        regs: regs?,
        mems: mems?,
    })
}

fn registers_from<L: Ledger>(
    alloc: Global,
    arena: &Arena,
    registers: &[(u8, u64)],
    steps: &mut Steps<L>,
) -> Result<List<(u8, Word)>, NoMemory>
    requires { AreRegistersAt arena.now registers.now }
    ensures registers { IfOk result (λ rs.
        map register_tree rs ≡ map (register_of arena.now) registers.now) }
    ensures steps { steps.new
        ≤ steps.old + nodes_of (map (λ r. OfWord r.1) (map (register_of arena.now) registers.now)) }
{
    let mut trees = List::new(alloc);
    for register in registers {
        let word = word_from(alloc, arena, register.1, steps)?;
        trees.push((register.0, word))?;
    }
    Ok(trees)
}

fn words_from<L: Ledger>(
    alloc: Global,
    arena: &Arena,
    words: &[u64],
    steps: &mut Steps<L>,
) -> Result<List<Word>, NoMemory>
    requires { AreWordsAt arena.now words.now }
    ensures words { IfOk result (λ ts. map word_tree ts ≡ map (word_of arena.now) words.now) }
    ensures steps { steps.new
        ≤ steps.old + nodes_of (map OfWord (map (word_of arena.now) words.now)) }
{
    let mut trees = List::new(alloc);
    for word in words {
        let tree = word_from(alloc, arena, *word, steps)?;
        trees.push(tree)?;
    }
    Ok(trees)
}

fn mems_from<L: Ledger>(
    alloc: Global,
    arena: &Arena,
    mems: &[u64],
    steps: &mut Steps<L>,
) -> Result<List<Mem>, NoMemory>
    requires { AreMemsAt arena.now mems.now }
    ensures mems { IfOk result (λ ms. map mem_tree ms ≡ map (mem_of arena.now) mems.now) }
    ensures steps { steps.new ≤ steps.old + nodes_of (map OfMem (map (mem_of arena.now) mems.now)) }
{
    let mut trees = List::new(alloc);
    for mem in mems {
        let tree = mem_from(alloc, arena, *mem, steps)?;
        trees.push(tree)?;
    }
    Ok(trees)
}

#[cycle(conds)]
fn cond_from<L: Ledger>(
    alloc: Global,
    arena: &Arena,
    k: u64,
    steps: &mut Steps<L>,
) -> Result<Cond, NoMemory>
    requires { IsCondAt arena.now k }
    ensures tree { IfOk result (λ c. cond_tree c ≡ cond_of arena.now k) }
    ensures steps { steps.new ≤ steps.old + cond_nodes (cond_of arena.now k) }
{
    match arena.node(k, steps) {
        Node::Compare(cmp, a, b) => {
            let a = word_from(alloc, arena, a, steps);
            let b = word_from(alloc, arena, b, steps);
            Ok(Cond::Compare(cmp, boxed(alloc, a)?, boxed(alloc, b)?))
        }
        Node::Neg(c) => {
            let c = cond_from(alloc, arena, c, steps);
            Ok(Cond::Neg(boxed(alloc, c)?))
        }
        Node::Inside(width, m, a) => {
            let m = mem_from(alloc, arena, m, steps);
            let a = word_from(alloc, arena, a, steps);
            Ok(Cond::Inside(width, boxed(alloc, m)?, boxed(alloc, a)?))
        }
        _ => unreachable!(),
    }
}

#[cycle(trees)]
fn word_from<L: Ledger>(
    alloc: Global,
    arena: &Arena,
    k: u64,
    steps: &mut Steps<L>,
) -> Result<Word, NoMemory>
    requires { IsWordAt arena.now k }
    ensures tree { IfOk result (λ t. word_tree t ≡ word_of arena.now k) }
    ensures steps { steps.new ≤ steps.old + word_nodes (word_of arena.now k) }
{
    match arena.node(k, steps) {
        Node::Const(n) => Ok(Word::Const(n)),
        Node::WordVar(i) => Ok(Word::Var(i)),
        Node::Bin(op, a, b) => {
            let a = word_from(alloc, arena, a, steps);
            let b = word_from(alloc, arena, b, steps);
            Ok(Word::Bin(op, boxed(alloc, a)?, boxed(alloc, b)?))
        }
        Node::Extend(ext, a) => {
            let a = word_from(alloc, arena, a, steps);
            Ok(Word::Extend(ext, boxed(alloc, a)?))
        }
        Node::Load(width, m, a) => {
            let m = mem_from(alloc, arena, m, steps);
            let a = word_from(alloc, arena, a, steps);
            Ok(Word::Load(width, boxed(alloc, m)?, boxed(alloc, a)?))
        }
        _ => unreachable!(),
    }
}

#[cycle(trees)]
fn mem_from<L: Ledger>(
    alloc: Global,
    arena: &Arena,
    k: u64,
    steps: &mut Steps<L>,
) -> Result<Mem, NoMemory>
    requires { IsMemAt arena.now k }
    ensures tree { IfOk result (λ m. mem_tree m ≡ mem_of arena.now k) }
    ensures steps { steps.new ≤ steps.old + mem_nodes (mem_of arena.now k) }
{
    match arena.node(k, steps) {
        Node::MemVar(i) => Ok(Mem::Var(i)),
        Node::Store(width, m, a, v) => {
            let m = mem_from(alloc, arena, m, steps);
            let a = word_from(alloc, arena, a, steps);
            let v = word_from(alloc, arena, v, steps);
            Ok(Mem::Store(width, boxed(alloc, m)?, boxed(alloc, a)?, boxed(alloc, v)?))
        }
        _ => unreachable!(),
    }
}

/// What came, in a place of its own.
fn boxed<T: Drop>(alloc: Global, made: Result<T, NoMemory>) -> Result<Box<T>, NoMemory>
    ensures { IfOk result (λ b. made ≡ Done b.value) }
{
    let t = made?;
    let place = Box::new(alloc, t)?;
    Ok(place)
}
