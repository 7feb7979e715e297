//! Terms put into an arena by who counts no steps.

ghost use Rattle.std.specs.Prelude.{◌≡◌, IfOk, Some as Just};
ghost use Rattle.word_terms.specs.Tree.{cond_tree, mem_tree, word_tree};
ghost use Rattle.term_arena.specs.Arena.{Extends, OfCond, OfMem, OfWord, tree_of};

use crate::arena::Arena;
use crate::steps::Steps;
use rv_words::NoMemory;
use std::marker::Brand;
use std::sync::ledger::{Blank, Ledger};
use word_terms::{Cond, Mem, Word};

impl Arena {
    /// The number of a word. Where no memory is left, each number that was given stands for what it
    /// did.
    pub fn intern_word(&mut self, t: &Word) -> Result<u64, NoMemory>
        ensures tree { IfOk result (λ k. tree_of self.new k ≡ Just (OfWord (word_tree t.now))) }
        ensures grows { Extends self.old self.new }
    {
        self.counted_word::<Brand>(t, Blank::new(1))
    }

    /// The number of a memory, likewise.
    pub fn intern_mem(&mut self, t: &Mem) -> Result<u64, NoMemory>
        ensures tree { IfOk result (λ k. tree_of self.new k ≡ Just (OfMem (mem_tree t.now))) }
        ensures grows { Extends self.old self.new }
    {
        self.counted_mem::<Brand>(t, Blank::new(1))
    }

    /// The number of a condition, likewise.
    pub fn intern_cond(&mut self, t: &Cond) -> Result<u64, NoMemory>
        ensures tree { IfOk result (λ k. tree_of self.new k ≡ Just (OfCond (cond_tree t.now))) }
        ensures grows { Extends self.old self.new }
    {
        self.counted_cond::<Brand>(t, Blank::new(1))
    }

    /// The number of a word, with a counter of its own.
    fn counted_word<L: Ledger>(&mut self, t: &Word, blank: Blank) -> Result<u64, NoMemory>
        requires name { blank.name ≡ L.name }
        requires parts { blank.parts ≡ L.parts }
        requires one { L.parts ≡ 1 }
        ensures tree { IfOk result (λ k. tree_of self.new k ≡ Just (OfWord (word_tree t.now))) }
        ensures grows { Extends self.old self.new }
    {
        self.put_word(t, &mut Steps::<L>::new(blank))
    }

    /// The number of a memory, likewise.
    fn counted_mem<L: Ledger>(&mut self, t: &Mem, blank: Blank) -> Result<u64, NoMemory>
        requires name { blank.name ≡ L.name }
        requires parts { blank.parts ≡ L.parts }
        requires one { L.parts ≡ 1 }
        ensures tree { IfOk result (λ k. tree_of self.new k ≡ Just (OfMem (mem_tree t.now))) }
        ensures grows { Extends self.old self.new }
    {
        self.put_mem(t, &mut Steps::<L>::new(blank))
    }

    /// The number of a condition, likewise.
    fn counted_cond<L: Ledger>(&mut self, t: &Cond, blank: Blank) -> Result<u64, NoMemory>
        requires name { blank.name ≡ L.name }
        requires parts { blank.parts ≡ L.parts }
        requires one { L.parts ≡ 1 }
        ensures tree { IfOk result (λ k. tree_of self.new k ≡ Just (OfCond (cond_tree t.now))) }
        ensures grows { Extends self.old self.new }
    {
        self.put_cond(t, &mut Steps::<L>::new(blank))
    }
}
