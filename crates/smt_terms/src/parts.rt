//! The parts of bindings and literals.

ghost use Rattle.std.specs.Prelude.{◌≡◌, ◌∷◌, ℕ, [], List, None, length, map, MatchOption};
ghost use Rattle.smt_terms.specs.Expression.{Atom, End, Expr, Node, Then, exprs};
ghost use Rattle.smt_terms.specs.Meaning.{constant, literal_number, literal_of, literal_value, numeral};
ghost use Rattle.smt_terms.specs.Sorts.{Rules, Sorts, binding_sort, constant_sort, literal_sort, literal_sort_of};
ghost use Rattle.smt_terms.specs.Views.{expr};
ghost use Rattle.smt_terms.specs.inner.Datum.{StandsFor};

use crate::datum::{Datum, UNSORTED};
use crate::head::atom_of;
use crate::numeral::{literal_number, small_numeral};
use crate::tree::Tree;
use crate::vector::Vector;

/// `true`, or nothing with a sort.
pub fn constant(name: &[u8]) -> Datum
    ensures { StandsFor (constant_sort name.now) (constant name.now) result }
{
    if name == b"true".as_slice() {
        return Datum::Truth(true);
    }
    UNSORTED
}

/// What `bvN W` in a literal stands for.
#[tactic(auto, using(crate::proofs::Splitting::no_literal))]
pub fn literal(parts: &[Tree]) -> Datum
    ensures { StandsFor (literal_sort (exprs (map expr parts.now)))
        (literal_value (exprs (map expr parts.now))) result }
{
    match two_of(parts) {
        Some((number, width)) => literal_of(number, width),
        None => UNSORTED,
    }
}

fn literal_of(number: &Tree, width: &Tree) -> Datum
    ensures { StandsFor (literal_sort (Then (expr number.now) (Then (expr width.now) End)))
        (literal_value (Then (expr number.now) (Then (expr width.now) End))) result }
{
    let Some(number) = atom_of(number) else {
        return UNSORTED;
    };
    let Some(width) = atom_of(width) else {
        return UNSORTED;
    };
    vector_of(number, width)
}

/// The bit-vector of that width with the low bits of the number of `bvN`.
#[tactic(auto, using(crate::proofs::Splitting::literal_stands))]
fn vector_of(number: &[u8], width: &[u8]) -> Datum
    ensures { StandsFor (literal_sort_of (literal_number number.now) (numeral width.now))
        (literal_of (literal_number number.now) (numeral width.now)) result }
{
    let Some(number) = literal_number(number) else {
        return UNSORTED;
    };
    match small_numeral(width) {
        Some(width) if 0 < width && width <= 128 => Datum::Bits(Vector::new(width, number)),
        _ => UNSORTED,
    }
}

/// The first of these trees, and the others.
pub fn head_and_rest(items: &[Tree]) -> Option<(&Tree, &[Tree])>
    ensures { MatchOption result (items.now ≡ []) (λ p. items.now ≡ p.0.now ∷ p.1.now) }
{
    items.split_first()
}

/// The trees in parentheses.
fn items_of(tree: &Tree) -> Option<&[Tree]>
    ensures { MatchOption result ((name : List ℕ) × (expr tree.now ≡ Atom name))
        (λ items. expr tree.now ≡ Node (exprs (map expr items.now))) }
{
    match tree {
        Tree::Atom(_) => None,
        Tree::Node(items) => Some(items.as_slice()),
    }
}

fn one_of(items: &[Tree]) -> Option<&Tree>
    ensures { MatchOption result (length items.now ≡ 1 → ⊥) (λ a. items.now ≡ a.now ∷ []) }
{
    match items {
        [a] => Some(a),
        _ => None,
    }
}

fn two_of(items: &[Tree]) -> Option<(&Tree, &Tree)>
    ensures { MatchOption result (length items.now ≡ 2 → ⊥) (λ p.
        items.now ≡ p.0.now ∷ p.1.now ∷ []) }
{
    match items {
        [a, b] => Some((a, b)),
        _ => None,
    }
}

/// The name, the term and the body of `((NAME TERM)) BODY`.
#[derive(Clone, Copy)]
pub struct Let<'a> {
    pub name: &'a [u8],
    pub term: &'a Tree,
    pub body: &'a Tree,
}

/// The parts of a binding and its body.
#[tactic(auto, using(crate::proofs::Splitting::no_body))]
pub fn let_of(parts: &[Tree]) -> Option<Let<'_>>
    ensures { MatchOption result
        ((fs : Rules) (s : Sorts) → binding_sort fs s (exprs (map expr parts.now)) ≡ None)
        (λ l.
        exprs (map expr parts.now)
        ≡ Then (Node (Then (Node (Then (Atom l.name.now) (Then (expr l.term.now) End))) End))
        (Then (expr l.body.now) End)) }
{
    match two_of(parts) {
        Some((bindings, body)) => match bound_by(bindings) {
            Some((name, term)) => Some(Let { name, term, body }),
            None => None,
        },
        None => None,
    }
}

/// The name and the term of `((NAME TERM))`.
#[tactic(auto, using(crate::proofs::Splitting::no_pair))]
fn bound_by(bindings: &Tree) -> Option<(&[u8], &Tree)>
    ensures { MatchOption result
        ((fs : Rules) (s : Sorts) (body : Expr)
        → binding_sort fs s (Then (expr bindings.now) (Then body End)) ≡ None)
        (λ p.
        expr bindings.now
        ≡ Node (Then (Node (Then (Atom p.0.now) (Then (expr p.1.now) End))) End)) }
{
    let items = items_of(bindings)?;
    match one_of(items) {
        Some(binding) => pair_of(binding),
        None => None,
    }
}

/// The name and the term of `(NAME TERM)`.
#[tactic(auto, using(crate::proofs::Splitting::no_two))]
fn pair_of(binding: &Tree) -> Option<(&[u8], &Tree)>
    ensures { MatchOption result
        ((fs : Rules) (s : Sorts) (body : Expr)
        → binding_sort fs s (Then (Node (Then (expr binding.now) End)) (Then body End)) ≡ None)
        (λ p. expr binding.now ≡ Node (Then (Atom p.0.now) (Then (expr p.1.now) End))) }
{
    let items = items_of(binding)?;
    match two_of(items) {
        Some((name, term)) => {
            let name = atom_of(name)?;
            Some((name, term))
        }
        None => None,
    }
}
