//! S-expressions.

ghost use Rattle.std.specs.Prelude.{◌≡◌, ◌++◌, ◌∷◌, List, [], IfOk};
ghost use Rattle.std.specs.Fmt.{decimal};
ghost use Rattle.smt_terms.specs.Expression.{Atom, apply, is_atom, ite, word};
ghost use Rattle.smt_terms.specs.Views.{expr};

use mc_text::{put_atom, put_dec};
use rv_words::{Bytes, List, NoMemory, Text};
use std::alloc::Global;

/// A name, or expressions in parentheses.
#[derive(Drop)]
pub enum Tree {
    Atom(Text),
    Node(List<Tree>),
}

/// The atom of that name.
pub fn atom(alloc: Global, name: &[u8]) -> Result<Tree, NoMemory>
    ensures { IfOk result (λ t. expr t ≡ Atom name.now) }
{
    let mut text = Bytes::new(alloc);
    put_atom(&mut text, name)?;
    Ok(Tree::Atom(text))
}

/// Whether a tree is the atom of that name.
pub fn is_atom(name: &[u8], tree: &Tree) -> bool
    ensures { result ≡ is_atom name.now (expr tree.now) }
{
    match tree {
        Tree::Atom(text) => text.as_slice() == name,
        Tree::Node(_) => false,
    }
}

/// The atom of letters and a number.
pub fn numbered(alloc: Global, letters: &[u8], n: u64) -> Result<Tree, NoMemory>
    ensures { IfOk result (λ t. expr t ≡ Atom (letters.now ++ decimal n)) }
{
    let mut text = Bytes::new(alloc);
    put_atom(&mut text, letters)?;
    put_dec(&mut text, n)?;
    Ok(Tree::Atom(text))
}

/// An operator or a function applied to two terms.
pub fn two(alloc: Global, name: &[u8], a: Tree, b: Tree) -> Result<Tree, NoMemory>
    ensures { IfOk result (λ t. expr t ≡ apply name.now (expr a ∷ expr b ∷ [])) }
{
    let head = atom(alloc, name)?;
    let mut items = List::new(alloc);
    items.push(head)?;
    items.push(a)?;
    items.push(b)?;
    Ok(Tree::Node(items))
}

/// An operator or a function applied to one term.
pub fn one(alloc: Global, name: &[u8], a: Tree) -> Result<Tree, NoMemory>
    ensures { IfOk result (λ t. expr t ≡ apply name.now (expr a ∷ [])) }
{
    let head = atom(alloc, name)?;
    let mut items = List::new(alloc);
    items.push(head)?;
    items.push(a)?;
    Ok(Tree::Node(items))
}

/// An operator or a function applied to three terms.
pub fn three(alloc: Global, name: &[u8], a: Tree, b: Tree, c: Tree) -> Result<Tree, NoMemory>
    ensures { IfOk result (λ t. expr t ≡ apply name.now (expr a ∷ expr b ∷ expr c ∷ [])) }
{
    let head = atom(alloc, name)?;
    let mut items = List::new(alloc);
    items.push(head)?;
    items.push(a)?;
    items.push(b)?;
    items.push(c)?;
    Ok(Tree::Node(items))
}

/// The first term where the condition is true, else the second.
pub fn ite(alloc: Global, c: Tree, a: Tree, b: Tree) -> Result<Tree, NoMemory>
    ensures { IfOk result (λ t. expr t ≡ ite (expr c) (expr a) (expr b)) }
{
    three(alloc, b"ite", c, a, b)
}

/// The word of that number.
pub fn word(alloc: Global, n: u64) -> Result<Tree, NoMemory>
    ensures { IfOk result (λ t. expr t ≡ word n) }
{
    let value = numbered(alloc, b"bv", n)?;
    let width = atom(alloc, b"64")?;
    two(alloc, b"_", value, width)
}
