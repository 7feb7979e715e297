//! Terms put into an arena, node by node.
#![tactic(auto, using(crate::proofs::PutLemmas::tree_stays, crate::proofs::PutLemmas::word_is, crate::proofs::PutLemmas::mem_is, crate::proofs::PutLemmas::cond_is, crate::proofs::TreeLemmas::word_there, crate::proofs::TreeLemmas::mem_there, crate::proofs::TreeLemmas::cond_there))]

ghost use Rattle.std.specs.Prelude.{◌≡◌, ◌≤◌, ◌+◌, IfOk, Some as Just};
ghost use Rattle.word_terms.specs.Tree.{cond_tree, mem_tree, word_tree};
ghost use Rattle.term_arena.specs.Arena.{ArePutIn, Extends, OfCond, OfMem, OfWord, cond_nodes, cond_subterms, mem_nodes, mem_subterms, tree_of, trees_of, word_nodes, word_subterms};

use crate::arena::Arena;
use crate::node::Node;
use crate::steps::Steps;
use rv_words::NoMemory;
use std::sync::ledger::Ledger;
use word_terms::{Cond, Mem, Word};

impl Arena {
    /// The number of a word. It takes at most a step for each node. Mostly it is a variable or a
    /// constant.
    #[inline(always)]
    pub fn put_word<L: Ledger>(&mut self, t: &Word, steps: &mut Steps<L>) -> Result<u64, NoMemory>
        ensures tree { IfOk result (λ k. tree_of self.new k ≡ Just (OfWord (word_tree t.now))) }
        ensures grows { Extends self.old self.new }
        ensures order { IfOk result (λ _.
            ArePutIn (trees_of self.old) (word_subterms (word_tree t.now)) (trees_of self.new)) }
        ensures steps { steps.new ≤ steps.old + word_nodes (word_tree t.now) }
    {
        match t {
            Word::Const(n) => self.add_leaf(Node::Const(*n), steps),
            Word::Var(i) => self.add_leaf(Node::WordVar(*i), steps),
            _ => self.put_parts(t, steps),
        }
    }

    /// The number of a word, whatever it is.
    #[cycle(puts)]
    fn put_parts<L: Ledger>(&mut self, t: &Word, steps: &mut Steps<L>) -> Result<u64, NoMemory>
        ensures tree { IfOk result (λ k. tree_of self.new k ≡ Just (OfWord (word_tree t.now))) }
        ensures grows { Extends self.old self.new }
        ensures order { IfOk result (λ _.
            ArePutIn (trees_of self.old) (word_subterms (word_tree t.now)) (trees_of self.new)) }
        ensures steps { steps.new ≤ steps.old + word_nodes (word_tree t.now) }
    {
        match t {
            Word::Const(n) => self.add_leaf(Node::Const(*n), steps),
            Word::Var(i) => self.add_leaf(Node::WordVar(*i), steps),
            Word::Bin(op, a, b) => {
                let a = self.put_parts(a, steps)?;
                let b = self.put_parts(b, steps)?;
                self.add(Node::Bin(*op, a, b), steps)
            }
            Word::Extend(ext, a) => {
                let a = self.put_parts(a, steps)?;
                self.add(Node::Extend(*ext, a), steps)
            }
            Word::Load(width, m, a) => {
                let m = self.put_mem(m, steps)?;
                let a = self.put_parts(a, steps)?;
                self.add(Node::Load(*width, m, a), steps)
            }
        }
    }

    /// The number of a memory. It takes at most a step for each node.
    #[cycle(puts)]
    pub fn put_mem<L: Ledger>(&mut self, t: &Mem, steps: &mut Steps<L>) -> Result<u64, NoMemory>
        ensures tree { IfOk result (λ k. tree_of self.new k ≡ Just (OfMem (mem_tree t.now))) }
        ensures grows { Extends self.old self.new }
        ensures order { IfOk result (λ _.
            ArePutIn (trees_of self.old) (mem_subterms (mem_tree t.now)) (trees_of self.new)) }
        ensures steps { steps.new ≤ steps.old + mem_nodes (mem_tree t.now) }
    {
        match t {
            Mem::Var(i) => self.add_leaf(Node::MemVar(*i), steps),
            Mem::Store(width, m, a, v) => {
                let m = self.put_mem(m, steps)?;
                let a = self.put_parts(a, steps)?;
                let v = self.put_parts(v, steps)?;
                self.add(Node::Store(*width, m, a, v), steps)
            }
        }
    }

    /// The number of a condition. It takes at most a step for each node.
    pub fn put_cond<L: Ledger>(&mut self, t: &Cond, steps: &mut Steps<L>) -> Result<u64, NoMemory>
        ensures tree { IfOk result (λ k. tree_of self.new k ≡ Just (OfCond (cond_tree t.now))) }
        ensures grows { Extends self.old self.new }
        ensures order { IfOk result (λ _.
            ArePutIn (trees_of self.old) (cond_subterms (cond_tree t.now)) (trees_of self.new)) }
        ensures steps { steps.new ≤ steps.old + cond_nodes (cond_tree t.now) }
    {
        match t {
            Cond::Compare(cmp, a, b) => {
                let a = self.put_word(a, steps)?;
                let b = self.put_word(b, steps)?;
                self.add(Node::Compare(*cmp, a, b), steps)
            }
            Cond::Neg(c) => {
                let c = self.put_cond(c, steps)?;
                self.add(Node::Neg(c), steps)
            }
            Cond::Inside(width, m, a) => {
                let m = self.put_mem(m, steps)?;
                let a = self.put_word(a, steps)?;
                self.add(Node::Inside(*width, m, a), steps)
            }
        }
    }
}
