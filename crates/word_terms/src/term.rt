//! Terms: for words, for memories, and conditions.

ghost use Rattle.std.specs.Prelude.{◌≡◌, ◌+◌, ◌↔◌, IsTrue};
ghost use Rattle.word_terms.specs.Tree.{cond_tree, depth_of_cond, depth_of_mem, depth_of_word, mem_tree, told_depth, word_tree};

use rv_words::{Cmp, Ext, Op, Width};

/// A term that stands for a word. Variables are numbered from 0. A load isn't extended by its sign,
/// and an absent byte is loaded as 0.
#[cycle(terms)]
#[derive(Debug, Drop)]
pub enum Word {
    Const(u64),
    Var(u32),
    Bin(Op, Box<Word>, Box<Word>),
    Extend(Ext, Box<Word>),
    /// The number at an address of a memory.
    Load(Width, Box<Mem>, Box<Word>),
}

/// A term that stands for a memory. Its variables are numbered from 0, apart from those for words.
#[cycle(terms)]
#[derive(Debug, Drop)]
pub enum Mem {
    Var(u32),
    /// A memory after a store: at an address, of a word's low bytes, at those addresses that are
    /// present.
    Store(Width, Box<Mem>, Box<Word>, Box<Word>),
}

/// A condition.
#[derive(Debug, Drop)]
pub enum Cond {
    Compare(Cmp, Box<Word>, Box<Word>),
    Neg(Box<Cond>),
    /// All addresses of the width from an address on are present in a memory. They go on from 0
    /// after the last one.
    Inside(Width, Box<Mem>, Box<Word>),
}

/// The depth of a term: 1 of a constant or a variable. From 2^32 - 1 on it stays there.
#[cycle(depths)]
pub fn depth_word(t: &Word) -> u32
    ensures { result ≡ told_depth (depth_of_word (word_tree t.now)) }
{
    match t {
        Word::Const(_) => 1,
        Word::Var(_) => 1,
        Word::Bin(_, a, b) => above(depth_word(a).max(depth_word(b))),
        Word::Extend(_, a) => above(depth_word(a)),
        Word::Load(_, m, a) => above(depth_mem(m).max(depth_word(a))),
    }
}

/// The depth of a term for a memory, as `depth_word` tells it.
#[cycle(depths)]
pub fn depth_mem(t: &Mem) -> u32
    ensures { result ≡ told_depth (depth_of_mem (mem_tree t.now)) }
{
    match t {
        Mem::Var(_) => 1,
        Mem::Store(_, m, a, v) => above(depth_mem(m).max(depth_word(a).max(depth_word(v)))),
    }
}

/// The depth of a condition, as `depth_word` tells it.
pub fn depth_cond(t: &Cond) -> u32
    ensures { result ≡ told_depth (depth_of_cond (cond_tree t.now)) }
{
    match t {
        Cond::Compare(_, a, b) => above(depth_word(a).max(depth_word(b))),
        Cond::Neg(c) => above(depth_cond(c)),
        Cond::Inside(_, m, a) => above(depth_mem(m).max(depth_word(a))),
    }
}

/// The depth above a deepest child.
fn above(depth: u32) -> u32
    ensures { result ≡ told_depth (depth + 1) }
{
    depth.saturating_add(1)
}

/// Whether two terms are the same tree.
#[cycle(same)]
pub fn same_word(a: &Word, b: &Word) -> bool
    ensures { IsTrue result ↔ (word_tree a.now ≡ word_tree b.now) }
{
    match a {
        Word::Const(n) => match b {
            Word::Const(m) => *n == *m,
            _ => false,
        },
        Word::Var(i) => match b {
            Word::Var(j) => *i == *j,
            _ => false,
        },
        Word::Bin(f, x, y) => match b {
            Word::Bin(g, u, v) => *f == *g && same_word(x, u) && same_word(y, v),
            _ => false,
        },
        Word::Extend(f, x) => match b {
            Word::Extend(g, u) => *f == *g && same_word(x, u),
            _ => false,
        },
        Word::Load(w, x, y) => match b {
            Word::Load(z, u, v) => *w == *z && same_mem(x, u) && same_word(y, v),
            _ => false,
        },
    }
}

/// Whether two terms for memories are the same tree.
#[cycle(same)]
pub fn same_mem(a: &Mem, b: &Mem) -> bool
    ensures { IsTrue result ↔ (mem_tree a.now ≡ mem_tree b.now) }
{
    match a {
        Mem::Var(i) => match b {
            Mem::Var(j) => *i == *j,
            _ => false,
        },
        Mem::Store(w, m, x, y) => match b {
            Mem::Store(z, n, u, v) => {
                *w == *z && same_mem(m, n) && same_word(x, u) && same_word(y, v)
            }
            _ => false,
        },
    }
}

/// Whether two conditions are the same tree.
pub fn same_cond(a: &Cond, b: &Cond) -> bool
    ensures { IsTrue result ↔ (cond_tree a.now ≡ cond_tree b.now) }
{
    match a {
        Cond::Compare(f, x, y) => match b {
            Cond::Compare(g, u, v) => *f == *g && same_word(x, u) && same_word(y, v),
            _ => false,
        },
        Cond::Neg(x) => match b {
            Cond::Neg(u) => same_cond(x, u),
            _ => false,
        },
        Cond::Inside(w, m, x) => match b {
            Cond::Inside(z, n, u) => *w == *z && same_mem(m, n) && same_word(x, u),
            _ => false,
        },
    }
}
