//! The numbers of the first terms without children, which are had without a search.

ghost use Rattle.std.specs.Prelude.{◌≡◌, ◌+◌, ℕ, List, IfSome, Some as Just, [], ◌++◌, ◌∷◌, length, slice_get, slice_index};
ghost use Rattle.term_arena.specs.declared.node.Node.{Node as NodeOf};
ghost use Rattle.term_arena.specs.inner.Chains.{ArePlaced, IsPlaced};

use crate::node::Node;

/// One more than the number of the node of each of the first constants and variables, or 0.
#[derive(Drop)]
pub(crate) struct FirstLeaves {
    pub consts: [u64; 64],
    pub words: [u64; 64],
    pub mems: [u64; 16],
}

impl FirstLeaves {
    /// None has a number yet.
    pub fn new() -> FirstLeaves
        ensures { ArePlaced [] result }
    {
        FirstLeaves {
            consts: [0; 64],
            words: [0; 64],
            mems: [0; 16],
        }
    }

    /// The number of a node, where it is one of these and has one.
    #[inline(always)]
    pub fn number_of(&self, n: Node) -> Option<u64>
        ensures { (ns : List NodeOf)
            → ArePlaced ns self.now
            → IfSome result (λ k. slice_get ns k ≡ Just n) }
    {
        match n {
            Node::Const(n) => number_at(&self.consts, n as usize),
            Node::WordVar(i) => number_at(&self.words, i as usize),
            Node::MemVar(i) => number_at(&self.mems, i as usize),
            _ => None,
        }
    }

    /// Writes one more than the number of the last node, if it is one of these.
    pub fn note(&mut self, n: Node, link: u64)
        ensures { (ns : List NodeOf)
            → ArePlaced ns self.old
            → link ≡ length ns + 1
            → ArePlaced (ns ++ n ∷ []) self.new }
    {
        match n {
            Node::Const(n) => note_at(&mut self.consts, n as usize, link),
            Node::WordVar(i) => note_at(&mut self.words, i as usize, link),
            Node::MemVar(i) => note_at(&mut self.mems, i as usize, link),
            _ => {}
        }
    }
}

/// The number that a place leads to.
#[inline(always)]
fn number_at(places: &[u64], i: usize) -> Option<u64>
    ensures { IfSome result (λ k. slice_index places.now i ≡ k + 1) }
{
    if i < places.len() {
        let link = places[i];
        if link > 0 {
            return Some(link - 1);
        }
    }
    None
}

/// Writes a place, if there is one.
fn note_at(places: &mut [u64], i: usize, link: u64)
    ensures { (of : ℕ → NodeOf) (ns : List NodeOf)
        → IsPlaced of ns places.old
        → link ≡ length ns + 1
        → IsPlaced of (ns ++ of i ∷ []) places.new }
{
    if i < places.len() {
        places[i] = link;
    }
}
