//! Laws of the group that is made of a graph. These functions do nothing: their contracts are the
//! laws. Each speaks of the definitions alone.

ghost use Rattle.std.specs.Prelude.{◌<◌, ℕ, List, false};
ghost use Rattle.std.specs.List.{AllByRecursion};
ghost use Rattle.rv_words.specs.Bytes.{Bytes};
ghost use Rattle.rv_words.specs.Ranges.{AreRanges};
ghost use Rattle.rv_words.specs.declared.range.Range.{Range as TheRange};
ghost use Rattle.group_text.specs.Limits.{IsGroup, IsName};
ghost use Rattle.flow_graph.specs.Graph.{GraphOf, IsGraphOf};
ghost use Rattle.loop_forest.specs.Forest.{ForestOf, IsForestOf, number_of};
ghost use Rattle.code_parts.specs.declared.part.Part.{Part as ThePart};
ghost use Rattle.code_parts.specs.Flows.{alone, flow_of, group_of};
ghost use Rattle.code_parts.specs.Order.{AreParts};

/// The group of the parts of reached code, in their order, has a text, where its name and its code
/// do.
pub fn law_of_texts()
    ensures { (code : Bytes) (e : ℕ) (g : GraphOf) (f : ForestOf) (parts : List ThePart)
        (name : List ℕ) (ranges : List TheRange)
        → IsGraphOf false code e g
        → IsForestOf g f
        → AreParts (flow_of g f (alone g parts)) (number_of f) parts
        → IsName name
        → AreRanges ranges
        → AllByRecursion (λ r. AllByRecursion (λ b. b < 256) r.bytes) ranges
        → IsGroup (group_of (flow_of g f (alone g parts)) name ranges parts) }
{}
