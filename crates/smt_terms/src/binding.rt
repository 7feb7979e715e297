//! Bindings of names that occur.

ghost use Rattle.std.specs.Prelude.{◌≡◌, IfOk, map};
ghost use Rattle.smt_terms.specs.Expression.{End, Node, Then, bound, exprs, let_in, occurs, occurs_in};
ghost use Rattle.smt_terms.specs.Views.{expr};

use crate::tree::{Tree, atom, is_atom, two};
use rv_words::{List, NoMemory};
use std::alloc::Global;

/// Whether a name occurs in a tree.
#[cycle(occurrences)]
fn occurs(name: &[u8], tree: &Tree) -> bool
    ensures { result ≡ occurs name.now (expr tree.now) }
{
    match tree {
        Tree::Atom(text) => text.as_slice() == name,
        Tree::Node(items) => occurs_in(name, items.as_slice()),
    }
}

/// Whether a name occurs in one of these trees.
#[cycle(occurrences)]
#[tactic(auto, using(crate::proofs::Occurrences::occurs_next, crate::proofs::Occurrences::occurs_found, crate::proofs::Occurrences::occurs_nowhere))]
fn occurs_in(name: &[u8], items: &[Tree]) -> bool
    ensures { result ≡ occurs_in name.now (exprs (map expr items.now)) }
{
    for item in items {
        if occurs(name, item) {
            return true;
        }
    }
    false
}

/// A body in which the name stands for a term.
pub fn bound(alloc: Global, name: &[u8], term: Tree, body: Tree) -> Result<Tree, NoMemory>
    ensures { IfOk result (λ t. expr t ≡ bound name.now (expr term) (expr body)) }
{
    if is_atom(name, &body) {
        return Ok(term);
    }
    if occurs(name, &body) {
        return let_in(alloc, name, term, body);
    }
    Ok(body)
}

/// A body in which the name stands for a term, also where it doesn't occur.
fn let_in(alloc: Global, name: &[u8], term: Tree, body: Tree) -> Result<Tree, NoMemory>
    ensures { IfOk result (λ t. expr t ≡ let_in name.now (expr term) (expr body)) }
{
    let name = atom(alloc, name)?;
    let binding = pair(alloc, name, term)?;
    let bindings = alone(alloc, binding)?;
    two(alloc, b"let", bindings, body)
}

/// Two trees in parentheses.
fn pair(alloc: Global, a: Tree, b: Tree) -> Result<Tree, NoMemory>
    ensures { IfOk result (λ t. expr t ≡ Node (Then (expr a) (Then (expr b) End))) }
{
    let mut items = List::new(alloc);
    items.push(a)?;
    items.push(b)?;
    Ok(Tree::Node(items))
}

/// A tree in parentheses.
fn alone(alloc: Global, a: Tree) -> Result<Tree, NoMemory>
    ensures { IfOk result (λ t. expr t ≡ Node (Then (expr a) End)) }
{
    let mut items = List::new(alloc);
    items.push(a)?;
    Ok(Tree::Node(items))
}
