//! Laws of terms and their values. These functions do nothing: their contracts are the laws.

ghost use Rattle.std.specs.Prelude.{◌≡◌, ◌+◌, ◌^◌, ◌<◌, ◌≤◌, ℕ, List, Some, length, map};
ghost use Rattle.std.specs.List.{range_with_len};
ghost use Rattle.rv_words.specs.Bytes.{Bytes};
ghost use Rattle.word_terms.specs.Tree.{CondTree, MemTree, MemVar, Var, WordTree};
ghost use Rattle.word_terms.specs.Environment.{Environment, Extends, IsInRange, with_mems, with_words};
ghost use Rattle.word_terms.specs.Value.{cond_holds, mem_value, word_value};
ghost use Rattle.word_terms.specs.Scope.{CondInScope, EachInCond, EachInMem, EachInWord, MemInScope, WordInRange, WordInScope};
ghost use Rattle.word_terms.specs.Substitution.{Substitution, put_in_cond, put_in_mem, put_in_word, with_values_of};

/// The value of a term after a substitution is the term's value where each listed variable has its
/// term's value.
pub fn law_of_substitution()
    ensures word { (s : Substitution) (e : Environment) (t : WordTree)
        → word_value (put_in_word s t) e ≡ word_value t (with_values_of e s) }
    ensures mem { (s : Substitution) (e : Environment) (t : MemTree)
        → mem_value (put_in_mem s t) e ≡ mem_value t (with_values_of e s) }
    ensures cond { (s : Substitution) (e : Environment) (t : CondTree)
        → cond_holds (put_in_cond s t) e ≡ cond_holds t (with_values_of e s) }
{}

/// The value of a term depends only on what the variables in it stand for.
pub fn law_of_agreement()
    ensures word { (e f : Environment) (t : WordTree)
        → EachInWord (λ i. e.word i ≡ f.word i) (λ i. e.mem i ≡ f.mem i) t
        → word_value t e ≡ word_value t f }
    ensures mem { (e f : Environment) (t : MemTree)
        → EachInMem (λ i. e.word i ≡ f.word i) (λ i. e.mem i ≡ f.mem i) t
        → mem_value t e ≡ mem_value t f }
    ensures cond { (e f : Environment) (t : CondTree)
        → EachInCond (λ i. e.word i ≡ f.word i) (λ i. e.mem i ≡ f.mem i) t
        → cond_holds t e ≡ cond_holds t f }
{}

/// The value of a term in scope is the same where there are more variables.
pub fn law_of_scopes()
    ensures word { (e f : Environment) (t : WordTree)
        → Extends e f
        → WordInScope t e.words e.mems
        → word_value t e ≡ word_value t f }
    ensures mem { (e f : Environment) (t : MemTree)
        → Extends e f
        → MemInScope t e.words e.mems
        → mem_value t e ≡ mem_value t f }
    ensures cond { (e f : Environment) (t : CondTree)
        → Extends e f
        → CondInScope t e.words e.mems
        → cond_holds t e ≡ cond_holds t f }
    ensures more_words { (e : Environment) (ns : List ℕ) → Extends e (with_words e ns) }
    ensures more_mems { (e : Environment) (ms : List Bytes) → Extends e (with_mems e ms) }
{}

/// A term in scope is in scope where there are more variables.
pub fn law_of_larger_scopes()
    ensures word { (t : WordTree) (words mems w m : ℕ)
        → words ≤ w
        → mems ≤ m
        → WordInScope t words mems
        → WordInScope t w m }
    ensures mem { (t : MemTree) (words mems w m : ℕ)
        → words ≤ w
        → mems ≤ m
        → MemInScope t words mems
        → MemInScope t w m }
    ensures cond { (t : CondTree) (words mems w m : ℕ)
        → words ≤ w
        → mems ≤ m
        → CondInScope t words mems
        → CondInScope t w m }
{}

/// How many variables there are after new ones, and what these stand for: the numbers and memories,
/// in their order. New variables of one kind leave those of the other as they are.
pub fn law_of_new_variables()
    ensures words { (e : Environment) (ns : List ℕ)
        → (with_words e ns).words ≡ e.words + length ns }
    ensures mems { (e : Environment) (ms : List Bytes)
        → (with_mems e ms).mems ≡ e.mems + length ms }
    ensures same_words { (e : Environment) (ms : List Bytes) → (with_mems e ms).words ≡ e.words }
    ensures same_mems { (e : Environment) (ns : List ℕ) → (with_words e ns).mems ≡ e.mems }
    ensures word { (e : Environment) (ms : List Bytes) → (with_mems e ms).word ≡ e.word }
    ensures mem { (e : Environment) (ns : List ℕ) → (with_words e ns).mem ≡ e.mem }
    ensures new_words { (e : Environment) (ns : List ℕ)
        → map (λ t. word_value t (with_words e ns)) (map Var (range_with_len e.words (length ns)))
        ≡ ns }
    ensures new_mems { (e : Environment) (ms : List Bytes)
        → map (λ t. mem_value t (with_mems e ms)) (map MemVar (range_with_len e.mems (length ms)))
        ≡ ms }
{}

/// Where variables stand for 64-bit words and for bytes at 64-bit addresses, so do terms.
pub fn law_of_ranges()
    ensures word { (e : Environment) (t : WordTree)
        → IsInRange e
        → WordInRange t
        → word_value t e < 2 ^ 64 }
    ensures address { (e : Environment) (t : MemTree) (a b : ℕ)
        → IsInRange e
        → mem_value t e a ≡ Some b
        → a < 2 ^ 64 }
    ensures byte { (e : Environment) (t : MemTree) (a b : ℕ)
        → IsInRange e
        → mem_value t e a ≡ Some b
        → b < 2 ^ 8 }
{}
