//! Laws of forests. These functions do nothing: their contracts are the laws. Each speaks of the
//! definitions alone.

ghost use Rattle.std.specs.Prelude.{◌≡◌, ◌+◌, ◌<◌, ℕ, List, Some, length, Bool};
ghost use Rattle.rv_words.specs.Bytes.{Bytes};
ghost use Rattle.flow_graph.specs.Flow.{Next};
ghost use Rattle.flow_graph.specs.Graph.{GraphOf, IsFlow, IsGraphOf};
ghost use Rattle.loop_forest.specs.Cycles.{ShowsTwoEntries, TwoEntries};
ghost use Rattle.loop_forest.specs.Addresses.{GoesTo, entry_at};
ghost use Rattle.loop_forest.specs.Forest.{ForestOf, IsForestOf, IsMany, depth_of, head_of, region_of};
ghost use Rattle.loop_forest.specs.Walking.{IsWalkable};

/// What walks along a graph may rest on.
pub fn law_of_walks()
    ensures { (g : GraphOf) (f : ForestOf) → IsFlow g → IsForestOf g f → IsWalkable g f }
{}

/// A graph has a forest, two entries or a loop with too many exits, and only one of these. There is
/// one first loop with too many exits.
pub fn law_of_one_forest()
    ensures no_two_entries { (g : GraphOf) (f : ForestOf)
        → IsFlow g
        → IsForestOf g f
        → TwoEntries (GoesTo g) (entry_at g)
        → ⊥ }
    ensures no_many_exits { (g : GraphOf) (f : ForestOf) (a : ℕ)
        → IsFlow g
        → IsForestOf g f
        → IsMany g a
        → ⊥ }
    ensures one_head { (g : GraphOf) (a b : ℕ) → IsMany g a → IsMany g b → a ≡ b }
{}

/// A loop is one deeper than the region of its head.
pub fn law_of_depths()
    ensures { (g : GraphOf) (f : ForestOf) (l : ℕ) → IsFlow g → IsForestOf g f → l < length f.heads
        → depth_of f (Some l) ≡ depth_of f (region_of f (head_of f l)) + 1 }
{}

/// Two entries between the addresses of a graph are two entries of its code, and the other way.
pub fn law_of_two_entries()
    ensures shown { (linked : Bool) (code : Bytes) (e : ℕ) (g : GraphOf)
        (cycle first second : List ℕ)
        → IsGraphOf linked code e g
        → ShowsTwoEntries (GoesTo g) (entry_at g) cycle first second
        → ShowsTwoEntries (Next linked code) e cycle first second }
    ensures none { (linked : Bool) (code : Bytes) (e : ℕ) (g : GraphOf) (f : ForestOf)
        → IsGraphOf linked code e g
        → IsForestOf g f
        → TwoEntries (Next linked code) e
        → ⊥ }
    ensures none_where_many { (linked : Bool) (code : Bytes) (e : ℕ) (g : GraphOf) (a : ℕ)
        → IsGraphOf linked code e g
        → IsMany g a
        → TwoEntries (Next linked code) e
        → ⊥ }
{}
