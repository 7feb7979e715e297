//! Terms as S-expressions.

ghost use Rattle.std.specs.Prelude.{◌≡◌, IfOk};
ghost use Rattle.word_terms.specs.Tree.{cond_tree, mem_tree, word_tree};
ghost use Rattle.smt_export.specs.Terms.{compare_expr, cond_expr, dom_expr, mem_expr, not_expr, word_expr};
ghost use Rattle.smt_terms.specs.Views.{expr};

use rv_words::{Cmp, NoMemory};
use smt_terms::{
    Tree, name_of_ext, name_of_inside, name_of_load, name_of_op, name_of_store, numbered, one,
    three, two, word,
};
use std::alloc::Global;
use word_terms::{Cond, Mem, Word};

/// A word.
#[cycle(terms)]
pub fn word_term(alloc: Global, t: &Word) -> Result<Tree, NoMemory>
    ensures { IfOk result (λ x. expr x ≡ word_expr (word_tree t.now)) }
{
    match t {
        Word::Const(n) => word(alloc, *n),
        Word::Var(i) => numbered(alloc, b"w", u64::from(*i)),
        Word::Bin(op, a, b) => {
            let a = word_term(alloc, a)?;
            let b = word_term(alloc, b)?;
            two(alloc, name_of_op(*op), a, b)
        }
        Word::Extend(ext, a) => {
            let a = word_term(alloc, a)?;
            one(alloc, name_of_ext(*ext), a)
        }
        Word::Load(width, m, a) => {
            let bytes = mem_term(alloc, m)?;
            let domain = dom_term(alloc, m)?;
            let a = word_term(alloc, a)?;
            three(alloc, name_of_load(*width), bytes, domain, a)
        }
    }
}

/// The bytes of a memory.
#[cycle(terms)]
pub fn mem_term(alloc: Global, t: &Mem) -> Result<Tree, NoMemory>
    ensures { IfOk result (λ x. expr x ≡ mem_expr (mem_tree t.now)) }
{
    match t {
        Mem::Var(i) => numbered(alloc, b"mem", u64::from(*i)),
        Mem::Store(width, m, a, v) => {
            let m = mem_term(alloc, m)?;
            let a = word_term(alloc, a)?;
            let v = word_term(alloc, v)?;
            three(alloc, name_of_store(*width), m, a, v)
        }
    }
}

/// Where the bytes of a memory are present.
pub fn dom_term(alloc: Global, t: &Mem) -> Result<Tree, NoMemory>
    ensures { IfOk result (λ x. expr x ≡ dom_expr (mem_tree t.now)) }
{
    match t {
        Mem::Var(i) => numbered(alloc, b"dom", u64::from(*i)),
        Mem::Store(_, m, _, _) => dom_term(alloc, m),
    }
}

/// The negation of a term.
fn negated(alloc: Global, c: Tree) -> Result<Tree, NoMemory>
    ensures { IfOk result (λ x. expr x ≡ not_expr (expr c)) }
{
    one(alloc, b"not", c)
}

/// A condition.
pub fn cond_term(alloc: Global, c: &Cond) -> Result<Tree, NoMemory>
    ensures { IfOk result (λ x. expr x ≡ cond_expr (cond_tree c.now)) }
{
    match c {
        Cond::Compare(cmp, a, b) => {
            let a = word_term(alloc, a)?;
            let b = word_term(alloc, b)?;
            compared(alloc, *cmp, a, b)
        }
        Cond::Neg(c) => {
            let c = cond_term(alloc, c)?;
            negated(alloc, c)
        }
        Cond::Inside(width, m, a) => {
            let domain = dom_term(alloc, m)?;
            let a = word_term(alloc, a)?;
            two(alloc, name_of_inside(*width), domain, a)
        }
    }
}

/// A comparison.
fn compared(alloc: Global, cmp: Cmp, a: Tree, b: Tree) -> Result<Tree, NoMemory>
    ensures { IfOk result (λ x. expr x ≡ compare_expr cmp (expr a) (expr b)) }
{
    match cmp {
        Cmp::Eq => two(alloc, b"=", a, b),
        Cmp::Ne => {
            let c = two(alloc, b"=", a, b)?;
            negated(alloc, c)
        }
        Cmp::Lt => two(alloc, b"bvslt", a, b),
        Cmp::Ge => {
            let c = two(alloc, b"bvslt", a, b)?;
            negated(alloc, c)
        }
        Cmp::Ltu => two(alloc, b"bvult", a, b),
        Cmp::Geu => {
            let c = two(alloc, b"bvult", a, b)?;
            negated(alloc, c)
        }
    }
}
