//! Laws of parts and of code. These functions do nothing: their contracts are the laws.

ghost use Rattle.std.specs.Prelude.{◌≡◌, ◌↔◌, ◌++◌, ℕ, Bool, List, not};
ghost use Rattle.std.specs.List.{filter};
ghost use Rattle.rv_words.specs.Bytes.{Bytes, over};
ghost use Rattle.rv_words.specs.Ranges.{AreRanges, range_bytes};
ghost use Rattle.rv_words.specs.declared.range.Range.{Range};
ghost use Rattle.word_terms.specs.Tree.{MemTree, WordTree};
ghost use Rattle.word_terms.specs.Environment.{Environment};
ghost use Rattle.word_terms.specs.Value.{word_value};
ghost use Rattle.sep_assert.specs.Code.{Agree, IsWithin};
ghost use Rattle.sep_assert.specs.Tree.{AssertionTree};
ghost use Rattle.sep_assert.specs.Part.{Part, ◌⊕◌, Byte, Disjoint, Exists, Has, MakeUp, Pc, Register, code_part, mems_part, part_of, registers_part};

/// A union exists exactly where both parts do and they share no key. So that an existing whole is
/// the union of three parts says that these exist, that they share no key, and that they make it
/// up. The order in which parts are put together doesn't matter.
pub fn law_of_unions()
    ensures exists { (p q : Part) → Exists (p ⊕ q) ↔ (Exists p × Exists q × Disjoint p q) }
    ensures makes_up { (whole p q r : Part)
        → Exists whole
        → ((whole ≡ p ⊕ (q ⊕ r)) ↔ MakeUp whole p q r) }
    ensures commutes { (p q : Part) → p ⊕ q ≡ q ⊕ p }
    ensures associates { (p q r : Part) → (p ⊕ q) ⊕ r ≡ p ⊕ (q ⊕ r) }
{}

/// Parts put together in other groupings.
pub fn law_of_groupings()
    ensures second_first { (p q r : Part) → p ⊕ (q ⊕ r) ≡ q ⊕ (p ⊕ r) }
    ensures to_the_rest { (p q r s : Part) → (p ⊕ q) ⊕ (r ⊕ s) ≡ p ⊕ (r ⊕ (q ⊕ s)) }
    ensures pairs { (p q r s : Part) → (p ⊕ q) ⊕ (r ⊕ s) ≡ (p ⊕ r) ⊕ (q ⊕ s) }
{}

/// What the part that an assertion describes has at each key: at the program counter the value of
/// its term, at a register what its registers have there, and at an address what its memories have
/// there.
pub fn law_of_keys()
    ensures pc { (a : AssertionTree) (e : Environment) → part_of a e Pc ≡ Has (word_value a.pc e) }
    ensures register { (a : AssertionTree) (e : Environment) (r : ℕ)
        → part_of a e (Register r) ≡ registers_part a.regs e (Register r) }
    ensures byte { (a : AssertionTree) (e : Environment) (q : ℕ)
        → part_of a e (Byte q) ≡ mems_part a.mems e (Byte q) }
{}

/// Registers are those with a property and those without it, and memories one after another are
/// both.
pub fn law_of_lists()
    ensures registers { (e : Environment) (test : ℕ × WordTree → Bool) (rs : List (ℕ × WordTree))
        → registers_part rs e
        ≡ registers_part (filter test rs) e ⊕ registers_part (filter (λ r. not (test r)) rs) e }
    ensures mems { (e : Environment) (ms ns : List MemTree)
        → mems_part (ms ++ ns) e ≡ mems_part ms e ⊕ mems_part ns e }
{}

/// Code with other code in it is that code and a rest. Ranges behind others have the bytes of both,
/// ranges in order are determined by their bytes, and two codes agree exactly where both are in the
/// code of their bytes together.
pub fn law_of_code()
    ensures rest { (a b : List Range)
        → IsWithin (range_bytes a) (range_bytes b)
        → (more : Part) × (code_part b ≡ code_part a ⊕ more) }
    ensures append { (xs ys : List Range)
        → range_bytes (xs ++ ys) ≡ over (range_bytes xs) (range_bytes ys) }
    ensures same { (xs ys : List Range)
        → AreRanges xs
        → AreRanges ys
        → range_bytes xs ≡ range_bytes ys
        → xs ≡ ys }
    ensures agree { (x y z : Bytes) → IsWithin x z → IsWithin y z → Agree x y }
    ensures first { (x y : Bytes) → IsWithin x (over x y) }
    ensures second { (x y : Bytes) → Agree x y → IsWithin y (over x y) }
{}
