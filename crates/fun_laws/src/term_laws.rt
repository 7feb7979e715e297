//! Laws of rewriting. These functions do nothing: their contracts are the laws.

ghost use Rattle.std.specs.Prelude.{◌≡◌, ℕ, List, Some};
ghost use Rattle.fun_laws.specs.Laws.{Law, Term, law_at};
ghost use Rattle.fun_laws.specs.Places.{Rewrites};
ghost use Rattle.fun_laws.specs.Values.{KeepsValue};

/// A term that is rewritten keeps its value.
pub fn law_of_values()
    ensures { (n : ℕ) (law : Law)
        → law_at n ≡ Some law
        → (place : List ℕ) (t u : Term)
        → Rewrites law place t u
        → KeepsValue t u }
{}

/// A law rewrites a term at a place to one term at most.
pub fn law_of_one_term()
    ensures { (n : ℕ) (law : Law) → law_at n ≡ Some law → (place : List ℕ) (t u v : Term)
        → Rewrites law place t u → Rewrites law place t v → u ≡ v }
{}
