//! How deep terms are, over their children.

ghost use Rattle.std.specs.Prelude.{◌≡◌, ◌+◌, ◌<◌, length, slice_index};
ghost use Rattle.word_terms.specs.Tree.{told_depth};
ghost use Rattle.term_arena.specs.Arena.{AreBelow};
ghost use Rattle.term_arena.specs.inner.Depths.{NodeInRange, depth_over};

use crate::node::Node;

/// The depth of a node over those of its children.
pub(crate) fn depth_over(depths: &[u32], n: Node) -> u32
    requires { AreBelow (length depths.now) n }
    ensures depth { result ≡ told_depth (depth_over depths.now n) }
    ensures range { NodeInRange n }
{
    match n {
        Node::Const(_) => 1,
        Node::WordVar(_) => 1,
        Node::Bin(_, a, b) => above(depth_at(depths, a).max(depth_at(depths, b))),
        Node::Extend(_, a) => above(depth_at(depths, a)),
        Node::Load(_, m, a) => above(depth_at(depths, m).max(depth_at(depths, a))),
        Node::MemVar(_) => 1,
        Node::Store(_, m, a, v) => {
            let words = depth_at(depths, a).max(depth_at(depths, v));
            above(depth_at(depths, m).max(words))
        }
        Node::Compare(_, a, b) => above(depth_at(depths, a).max(depth_at(depths, b))),
        Node::Neg(c) => above(depth_at(depths, c)),
        Node::Inside(_, m, a) => above(depth_at(depths, m).max(depth_at(depths, a))),
    }
}

/// The depth of a number.
pub(crate) fn depth_at(depths: &[u32], k: u64) -> u32
    requires { k < length depths.now }
    ensures { result ≡ slice_index depths.now k }
{
    depths[k as usize]
}

/// The depth above a deepest child.
fn above(depth: u32) -> u32
    ensures { result ≡ told_depth (depth + 1) }
{
    depth.saturating_add(1)
}
