//! The kinds of terms, and a table's terms by their numbers.

ghost use Rattle.std.specs.Prelude.{◌≡◌, slice_get};
ghost use Rattle.short_text.specs.inner.Kinds.{has_kind, kind_of, same_kind};

use term_arena::Node;

/// What a term of a table stands for.
#[derive(Clone, Copy, PartialEq, Eq)]
pub enum Kind {
    Word,
    Mem,
    Cond,
}

/// The kind of a term, by its outermost form.
fn kind_of(node: Node) -> Kind
    ensures { result ≡ kind_of node }
{
    match node {
        Node::Const(_) => Kind::Word,
        Node::WordVar(_) => Kind::Word,
        Node::Bin(_, _, _) => Kind::Word,
        Node::Extend(_, _) => Kind::Word,
        Node::Load(_, _, _) => Kind::Word,
        Node::MemVar(_) => Kind::Mem,
        Node::Store(_, _, _, _) => Kind::Mem,
        Node::Compare(_, _, _) => Kind::Cond,
        Node::Neg(_) => Kind::Cond,
        Node::Inside(_, _, _) => Kind::Cond,
    }
}

fn same_kind(a: Kind, b: Kind) -> bool
    ensures { result ≡ same_kind a b }
{
    match a {
        Kind::Word => matches!(b, Kind::Word),
        Kind::Mem => matches!(b, Kind::Mem),
        Kind::Cond => matches!(b, Kind::Cond),
    }
}

fn term_of(table: &[Node], k: u64) -> Option<Node>
    ensures { result ≡ slice_get table.now k }
{
    table.get(k as usize).copied()
}

/// Whether the table has a term of that number and kind.
pub fn has_kind(table: &[Node], kind: Kind, k: u64) -> bool
    ensures { result ≡ has_kind table.now kind k }
{
    match term_of(table, k) {
        Some(node) => same_kind(kind_of(node), kind),
        None => false,
    }
}
