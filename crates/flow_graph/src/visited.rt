//! Numbers in the order in which they were first met.
ghost use Rattle.std.specs.Prelude.{◌≡◌, ℕ, ◌+◌, ◌<◌, ◌≤◌, ◌≢◌, ◌↔◌, List, [], ◌∷◌, ◌++◌, ◌^◌, IfOk, OnOk, OnErr, IsTrue, IfSome, length, slice_index, if◌then◌else◌};
ghost use Rattle.std.specs.List.{All, Contains};

use indexmap::IndexSet;
use rv_words::NoMemory;
use std::alloc::Global;
use std::marker::Model;

/// Numbers, each once, in the order in which they were first met.
#[derive(Drop)]
pub struct Visited {
    set: IndexSet<u64>,
}

impl Model for Visited {
    ghost use Rattle.std.specs.Prelude.{ℕ, List, nat_eq};
    ghost use Rattle.std.specs.List.{IsDistinct};

    ghost Value = { List ℕ };

    ghost view = { λ v. v.set.keys };

    ghost invariant = { λ v. IsDistinct nat_eq v.set.keys };
}

impl Visited {
    ghost use Rattle.flow_graph.specs.Graph.{IsRising, number};

    /// No numbers.
    pub fn new(alloc: Global) -> Visited
        ensures { result ≡ [] }
    {
        Visited {
            set: IndexSet::new(alloc),
        }
    }

    /// Adds a number, and says whether it is new.
    pub fn add(&mut self, x: u64) -> Result<bool, NoMemory>
        ensures fresh { IfOk result (λ b. IsTrue b ↔ (Contains self.old x → ⊥)) }
        ensures added { IfOk result (λ b. self.new ≡ (if b then self.old ++ x ∷ [] else self.old)) }
        ensures err { OnErr result (self.new ≡ self.old) }
    {
        Ok(self.set.insert(x)?)
    }

    /// How many there are. They differ, so there are few of them where they are small.
    pub fn len(&self) -> usize
        ensures len { result ≡ length self.now }
        ensures few { (n : ℕ) → All (λ x. x < n) self.now → length self.now ≤ n }
        ensures different { (j k : ℕ)
            → j < k
            → k < length self.now
            → slice_index self.now j ≢ slice_index self.now k }
    {
        self.set.len()
    }

    /// The number at a place.
    pub fn get(&self, i: usize) -> u64
        requires { i < length self.now }
        ensures { result ≡ slice_index self.now i }
    {
        self.set.as_slice()[i]
    }

    /// The place of a number.
    pub fn place(&self, x: u64) -> Option<usize>
        ensures found { IfSome result (λ i. i < length self.now) }
        ensures none { result ≡ None → Contains self.now x → ⊥ }
        ensures at { IfSome result (λ i. slice_index self.now i ≡ x) }
        ensures number { IfSome result (λ i. i ≡ number self.now x) }
    {
        self.set.get_index_of(&x)
    }

    /// Puts the numbers in rising order.
    pub fn sort(&mut self) -> Result<(), NoMemory>
        ensures members { (x : ℕ) → Contains self.old x ↔ Contains self.new x }
        ensures len { length self.new ≡ length self.old }
        ensures rising { OnOk result (IsRising self.new) }
    {
        self.set.sort()?;
        Ok(())
    }

    /// The place of a number that is there.
    pub fn number(&self, x: u64) -> u32
        requires member { Contains self.now x }
        requires few { length self.now < 2 ^ 32 }
        ensures value { result ≡ number self.now x }
        ensures within { result < length self.now }
    {
        match self.place(x) {
            Some(i) => i as u32,
            None => 0,
        }
    }
}
