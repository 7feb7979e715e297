//! The operands that operators take.

ghost use Rattle.std.specs.Prelude.{◌≡◌, ◌∷◌, ℕ, [], None, Option, MatchOption, map};
ghost use Rattle.smt_terms.specs.declared.sort.Sort.{Sort};
ghost use Rattle.smt_terms.specs.Operators.{concat_rule, select_rule, store_rule, truth_rule, truths_rule, vector_rule, vectors_rule};
ghost use Rattle.smt_terms.specs.inner.Datum.{sorted};

use crate::array::Array;
use crate::datum::Datum;
use crate::vector::Vector;

/// One truth.
pub fn one_truth(parts: &[Datum]) -> Option<bool>
    ensures { MatchOption result (truth_rule (map sorted parts.now) ≡ None)
        (λ b. parts.now ≡ Datum.Truth b ∷ []) }
{
    match parts {
        [Datum::Truth(a)] => Some(*a),
        _ => None,
    }
}

/// Two truths.
pub fn two_truths(parts: &[Datum]) -> Option<(bool, bool)>
    ensures { MatchOption result (truths_rule (map sorted parts.now) ≡ None)
        (λ p. parts.now ≡ Datum.Truth p.0 ∷ Datum.Truth p.1 ∷ []) }
{
    match parts {
        [Datum::Truth(a), Datum::Truth(b)] => Some((*a, *b)),
        _ => None,
    }
}

/// One bit-vector.
pub fn one_vector(parts: &[Datum]) -> Option<Vector>
    ensures { MatchOption result
        ((of : ℕ → Option Sort) → vector_rule of (map sorted parts.now) ≡ None)
        (λ v. parts.now ≡ Datum.Bits v ∷ []) }
{
    match parts {
        [Datum::Bits(a)] => Some(*a),
        _ => None,
    }
}

/// Two bit-vectors.
pub fn two_vectors(parts: &[Datum]) -> Option<(Vector, Vector)>
    ensures { MatchOption result
        ((concat_rule (map sorted parts.now) ≡ None)
        × ((of : ℕ → Option Sort) → vectors_rule of (map sorted parts.now) ≡ None))
        (λ p. parts.now ≡ Datum.Bits p.0 ∷ Datum.Bits p.1 ∷ []) }
{
    match parts {
        [Datum::Bits(a), Datum::Bits(b)] => Some((*a, *b)),
        _ => None,
    }
}

/// Two bit-vectors of one width.
pub fn same_widths(parts: &[Datum]) -> Option<(Vector, Vector)>
    ensures { MatchOption result
        ((of : ℕ → Option Sort) → vectors_rule of (map sorted parts.now) ≡ None)
        (λ p. (parts.now ≡ Datum.Bits p.0 ∷ Datum.Bits p.1 ∷ []) × (p.0.width ≡ p.1.width)) }
{
    match two_vectors(parts) {
        Some((a, b)) if a.width == b.width => Some((a, b)),
        _ => None,
    }
}

/// An array and an index.
pub fn array_and_index(parts: &[Datum]) -> Option<(&Array, Vector)>
    ensures { MatchOption result (select_rule (map sorted parts.now) ≡ None)
        (λ p. (parts.now ≡ Datum.Array p.0.now ∷ Datum.Bits p.1 ∷ []) × (p.1.width ≡ 64)) }
{
    match parts {
        [Datum::Array(a), Datum::Bits(i)] if i.width == 64 => Some((a, *i)),
        _ => None,
    }
}

/// An array, an index and an element.
pub fn array_index_and_element(parts: &[Datum]) -> Option<(&Array, Vector, Vector)>
    ensures { MatchOption result (store_rule (map sorted parts.now) ≡ None)
        (λ p.
        (parts.now ≡ Datum.Array p.0.now ∷ Datum.Bits p.1 ∷ Datum.Bits p.2 ∷ [])
        × (p.1.width ≡ 64)
        × (p.2.width ≡ p.0.now.width)) }
{
    match parts {
        [Datum::Array(a), Datum::Bits(i), Datum::Bits(x)] if i.width == 64 && x.width == a.width =>
            Some((a, *i, *x)),
        _ => None,
    }
}
