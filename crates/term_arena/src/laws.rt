//! Laws of arenas. These functions do nothing: their contracts are the laws.

ghost use Rattle.std.specs.Prelude.{◌≡◌, ◌↔◌, ℕ, List, Some, slice_get};
ghost use Rattle.term_arena.specs.declared.node.Node.{Node as NodeOf};
ghost use Rattle.term_arena.specs.Arena.{AreBelow, AreChildren, Extends, IsArena, Tree, tree_of, tree_over, trees_of};

/// What the numbers of an arena stand for: the tree of a number is that of its node, whose children
/// have numbers below it. Two numbers are equal exactly where their trees are, and each keeps its
/// tree when there are more.
pub fn law_of_arenas()
    ensures node { (ns : List NodeOf) (k : ℕ) (n : NodeOf)
        → IsArena ns
        → slice_get ns k ≡ Some n
        → tree_of ns k ≡ Some (tree_over (trees_of ns) n) }
    ensures children { (ns : List NodeOf) (k : ℕ) (n : NodeOf)
        → IsArena ns
        → slice_get ns k ≡ Some n
        → AreChildren ns n }
    ensures below { (ns : List NodeOf) (k : ℕ) (n : NodeOf)
        → IsArena ns
        → slice_get ns k ≡ Some n
        → AreBelow k n }
    ensures equal { (ns : List NodeOf) (i j : ℕ) (x y : Tree)
        → IsArena ns
        → tree_of ns i ≡ Some x
        → tree_of ns j ≡ Some y
        → (i ≡ j) ↔ (x ≡ y) }
    ensures kept { (ns ms : List NodeOf) (k : ℕ) (x : Tree)
        → Extends ns ms
        → tree_of ns k ≡ Some x
        → tree_of ms k ≡ Some x }
{}
