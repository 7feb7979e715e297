//! What stands at the heads of terms.

ghost use Rattle.std.specs.Prelude.{◌≡◌, ◌∷◌, ℕ, [], Some, length, map, min, MatchOption};
ghost use Rattle.smt_terms.specs.Expression.{Atom, End, Exprs, Node, Then, exprs};
ghost use Rattle.smt_terms.specs.Meaning.{numeral, one_numeral, term_head, two_numerals};
ghost use Rattle.smt_terms.specs.Views.{expr};
ghost use Rattle.smt_terms.specs.inner.Heads.{IsHead};

use crate::numeral::small_numeral;
use crate::operator::{Operator, operator_of};
use crate::tree::Tree;

/// What stands at the head of a term.
#[derive(Clone, Copy)]
pub enum Head<'a> {
    Let,
    Literal,
    Operator(Operator),
    Function(&'a [u8]),
    /// Of which no term with a sort is made.
    Nothing,
}

/// The name that a tree is.
pub fn atom_of(tree: &Tree) -> Option<&[u8]>
    ensures { MatchOption result ((es : Exprs) × (expr tree.now ≡ Node es))
        (λ name. expr tree.now ≡ Atom name.now) }
{
    match tree {
        Tree::Atom(name) => Some(name.as_slice()),
        Tree::Node(_) => None,
    }
}

/// What a tree is at the head of a term.
pub fn head_of(tree: &Tree) -> Head<'_>
    ensures { IsHead result (term_head (expr tree.now)) }
{
    match tree {
        Tree::Atom(name) => plain_head(name.as_slice()),
        Tree::Node(items) => indexed_head(items.as_slice()),
    }
}

/// What a name is at the head of a term.
#[tactic(auto, using(crate::proofs::Heads::head_let, crate::proofs::Heads::head_literal, crate::proofs::Heads::head_operator, crate::proofs::Heads::head_function))]
fn plain_head(name: &[u8]) -> Head<'_>
    ensures { IsHead result (term_head (Atom name.now)) }
{
    if name == b"let".as_slice() {
        return Head::Let;
    }
    if name == b"_".as_slice() {
        return Head::Literal;
    }
    match operator_of(name) {
        Some(op) => Head::Operator(op),
        None => Head::Function(name),
    }
}

/// What trees in parentheses are at the head of a term.
#[tactic(auto, using(crate::proofs::Heads::head_nothing))]
fn indexed_head(items: &[Tree]) -> Head<'_>
    ensures { IsHead result (term_head (Node (exprs (map expr items.now)))) }
{
    if let Some((underscore, name, k)) = three_of(items) {
        return with_one(underscore, name, k);
    }
    match four_of(items) {
        Some((underscore, name, i, j)) => with_two(underscore, name, i, j),
        None => Head::Nothing,
    }
}

fn three_of(items: &[Tree]) -> Option<(&Tree, &Tree, &Tree)>
    ensures { MatchOption result (length items.now ≡ 3 → ⊥) (λ p.
        items.now ≡ p.0.now ∷ p.1.now ∷ p.2.now ∷ []) }
{
    match items {
        [a, b, c] => Some((a, b, c)),
        _ => None,
    }
}

fn four_of(items: &[Tree]) -> Option<(&Tree, &Tree, &Tree, &Tree)>
    ensures { MatchOption result (length items.now ≡ 4 → ⊥) (λ p.
        items.now ≡ p.0.now ∷ p.1.now ∷ p.2.now ∷ p.3.now ∷ []) }
{
    match items {
        [a, b, c, d] => Some((a, b, c, d)),
        _ => None,
    }
}

/// `(_ NAME K)`
fn with_one<'a>(underscore: &Tree, name: &Tree, k: &Tree) -> Head<'a>
    ensures { IsHead result (term_head (Node (Then (expr underscore.now) (Then (expr name.now)
        (Then (expr k.now) End))))) }
{
    let Some(underscore) = atom_of(underscore) else {
        return Head::Nothing;
    };
    let Some(name) = atom_of(name) else {
        return Head::Nothing;
    };
    let Some(k) = atom_of(k) else {
        return Head::Nothing;
    };
    if underscore == b"_".as_slice() {
        extension(name, k)
    } else {
        Head::Nothing
    }
}

/// The extension of that name, by that numeral.
#[tactic(auto, using(crate::proofs::Heads::head_extended))]
fn extension<'a>(name: &[u8], k: &[u8]) -> Head<'a>
    ensures { IsHead result (one_numeral name.now (numeral k.now)) }
{
    match small_numeral(k) {
        Some(k) => extension_by(name, k),
        None => Head::Nothing,
    }
}

#[tactic(auto, using(crate::proofs::Heads::head_sign, crate::proofs::Heads::head_zero, crate::proofs::Heads::head_no_extension))]
fn extension_by<'a>(name: &[u8], k: u32) -> Head<'a>
    ensures { (n : ℕ) → k ≡ min n 129 → IsHead result (one_numeral name.now (Some n)) }
{
    if name == b"sign_extend".as_slice() {
        return Head::Operator(Operator::SignExtend(k));
    }
    if name == b"zero_extend".as_slice() {
        return Head::Operator(Operator::ZeroExtend(k));
    }
    Head::Nothing
}

/// `(_ NAME I J)`
fn with_two<'a>(underscore: &Tree, name: &Tree, i: &Tree, j: &Tree) -> Head<'a>
    ensures { IsHead result (term_head (Node (Then (expr underscore.now) (Then (expr name.now)
        (Then (expr i.now) (Then (expr j.now) End)))))) }
{
    let Some(underscore) = atom_of(underscore) else {
        return Head::Nothing;
    };
    let Some(name) = atom_of(name) else {
        return Head::Nothing;
    };
    let Some(i) = atom_of(i) else {
        return Head::Nothing;
    };
    let Some(j) = atom_of(j) else {
        return Head::Nothing;
    };
    if underscore == b"_".as_slice() {
        extraction(name, i, j)
    } else {
        Head::Nothing
    }
}

/// `extract` of the bits from one numeral to another.
#[tactic(auto, using(crate::proofs::Heads::head_extracted))]
fn extraction<'a>(name: &[u8], i: &[u8], j: &[u8]) -> Head<'a>
    ensures { IsHead result (two_numerals name.now (numeral i.now) (numeral j.now)) }
{
    let Some(i) = small_numeral(i) else {
        return Head::Nothing;
    };
    let Some(j) = small_numeral(j) else {
        return Head::Nothing;
    };
    if name == b"extract".as_slice() {
        Head::Operator(Operator::Extract(i, j))
    } else {
        Head::Nothing
    }
}
