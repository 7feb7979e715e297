//! Laws of the parts of a graph, and of linked functions as one group. These functions do nothing:
//! their contracts are the laws. Each speaks of the definitions alone.

ghost use Rattle.std.specs.Prelude.{◌≡◌, ◌<◌, ℕ, List, length, option_map, slice_get, None, Some, Bool, false, ◌≤◌, [], true};
ghost use Rattle.rv_words.specs.Bytes.{Bytes, AreBytes};
ghost use Rattle.rv_words.specs.declared.range.Range.{Range as TheRange};
ghost use Rattle.tailrec_lang.specs.Tree.{DefTree, GroupTree, listed_def};
ghost use Rattle.tailrec_lang.specs.WellFormed.{IsWellFormed};
ghost use Rattle.flow_graph.specs.Graph.{GraphOf, IsGraphOf};
ghost use Rattle.loop_forest.specs.Forest.{ForestOf, IsForestOf, number_of};
ghost use Rattle.code_parts.specs.declared.part.Part.{Part as ThePart};
ghost use Rattle.code_parts.specs.Bodies.{Flow};
ghost use Rattle.code_parts.specs.Graph.{IsCode, IsGraph, IsMade, IsSmall};
ghost use Rattle.code_parts.specs.Flows.{HaveCode, IsSetFor, Context, alone, flow_of, group_of, HaveInstructions};
ghost use Rattle.code_parts.specs.Order.{AreParts};
ghost use Rattle.std.specs.List.{Contains};
ghost use Rattle.rv_words.specs.Ranges.{range_bytes};
ghost use Rattle.sep_assert.specs.Code.{IsWithin};
ghost use Rattle.code_parts.specs.Functions.{AreFunctions};
ghost use Rattle.code_parts.specs.Kept.{IsReachedBy};
ghost use Rattle.code_parts.specs.Members.{AreMembers, CallsBefore, Member, flow_at};
ghost use Rattle.code_parts.specs.Groups.{IsLinkedGroup, functions_of, group_in, members_of};
ghost use Rattle.code_parts.specs.declared.linked.LinkedGroup.{LinkedGroup as TheGroup};

/// A group of all parts is well-formed: each variable is in scope, each call goes to an earlier
/// definition and has an arm for each of its exits.
pub fn law_of_definitions()
    ensures { (f : Flow) (g : GroupTree) (parts : List ThePart)
        → IsGraph f
        → IsMade f g parts
        → IsWellFormed g }
{}

/// Reached code with its loops and cuts is what bodies of parts rest on. A function alone calls no
/// other.
pub fn law_of_flows()
    ensures graph { (code : Bytes) (e : ℕ) (g : GraphOf) (f : ForestOf) (parts : List ThePart)
        → IsGraphOf false code e g
        → IsForestOf g f
        → IsGraph (flow_of g f (alone g parts)) }
    ensures code { (code : Bytes) (e : ℕ) (g : GraphOf) (f : ForestOf) (parts : List ThePart)
        (ranges : List TheRange)
        → IsGraphOf false code e g
        → IsForestOf g f
        → AreBytes code
        → HaveCode g code ranges
        → IsCode (flow_of g f (alone g parts)) ranges }
    ensures small { (code : Bytes) (e : ℕ) (g : GraphOf) (f : ForestOf) (parts : List ThePart)
        → IsGraphOf false code e g
        → IsForestOf g f
        → AreParts (flow_of g f (alone g parts)) (number_of f) parts
        → IsSmall (flow_of g f (alone g parts)) }
    ensures calls { (code : Bytes) (e : ℕ) (g : GraphOf) (f : ForestOf) (parts : List ThePart)
        → IsGraphOf false code e g
        → (n : ℕ)
        → n < length g.addrs
        → (flow_of g f (alone g parts)).callee n ≡ None }
{}

/// A group of the parts of reached code, in their order, is made of it: each definition stands
/// after those that it calls. There is one such order.
pub fn law_of_orders()
    ensures made { (code : Bytes) (e : ℕ) (g : GraphOf) (f : ForestOf) (parts : List ThePart)
        (name : List ℕ) (ranges : List TheRange)
        → IsGraphOf false code e g
        → IsForestOf g f
        → AreBytes code
        → HaveCode g code ranges
        → AreParts (flow_of g f (alone g parts)) (number_of f) parts
        → IsMade (flow_of g f (alone g parts))
        (group_of (flow_of g f (alone g parts)) name ranges parts) parts }
    ensures one_order { (code : Bytes) (e : ℕ) (g : GraphOf) (f : ForestOf)
        (parts others : List ThePart)
        → IsGraphOf false code e g
        → IsForestOf g f
        → AreParts (flow_of g f (alone g parts)) (number_of f) parts
        → AreParts (flow_of g f (alone g others)) (number_of f) others
        → parts ≡ others }
{}

/// The last of these definitions, which the group lists, is entered where the code is.
pub fn law_of_entries()
    ensures { (code : Bytes) (e : ℕ) (g : GraphOf) (f : ForestOf) (parts : List ThePart)
        (name : List ℕ) (ranges : List TheRange)
        → IsGraphOf false code e g
        → IsForestOf g f
        → AreParts (flow_of g f (alone g parts)) (number_of f) parts
        → option_map (λ (d : DefTree). d.entry)
        (slice_get (group_of (flow_of g f (alone g parts)) name ranges parts).defs
        (listed_def (group_of (flow_of g f (alone g parts)) name ranges parts))) ≡ Some e }
{}

/// Code of linked functions, in any context that fits it, is what bodies of parts rest on too.
pub fn law_of_contexts()
    ensures graph { (linked : Bool) (code : Bytes) (e : ℕ) (g : GraphOf) (f : ForestOf)
        (s : Context)
        → IsGraphOf linked code e g
        → IsForestOf g f
        → IsGraph (flow_of g f s) }
    ensures code { (linked : Bool) (code : Bytes) (e : ℕ) (g : GraphOf) (f : ForestOf) (s : Context)
        (ranges : List TheRange)
        → IsGraphOf linked code e g
        → IsForestOf g f
        → AreBytes code
        → HaveCode g code ranges
        → IsSetFor g s
        → IsCode (flow_of g f s) ranges }
{}

/// The functions of an entry, as one group: what their flows rest on, and that the group of their
/// definitions is well-formed and is entered where the code is.
pub fn law_of_groups()
    // Each flow is of code that is reached, its context fits, the code has its instructions, and
    // its numbers are small.
    ensures reached { (code : Bytes) (e : ℕ) (s : TheGroup)
        → AreBytes code
        → AreFunctions code e (functions_of s)
        → IsLinkedGroup s
        → (m : Member)
        → Contains (members_of s) m
        → IsReachedBy m.graph }
    ensures set { (code : Bytes) (e : ℕ) (s : TheGroup)
        → AreBytes code
        → AreFunctions code e (functions_of s)
        → IsLinkedGroup s
        → (m : Member)
        → Contains (members_of s) m
        → IsSetFor m.graph m.context }
    ensures instructions { (code : Bytes) (e : ℕ) (s : TheGroup)
        → AreBytes code
        → AreFunctions code e (functions_of s)
        → IsLinkedGroup s
        → (m : Member)
        → Contains (members_of s) m
        → HaveInstructions m.graph s.code.ranges }
    ensures small { (code : Bytes) (e : ℕ) (s : TheGroup)
        → AreBytes code
        → AreFunctions code e (functions_of s)
        → IsLinkedGroup s
        → (m : Member)
        → Contains (members_of s) m
        → IsSmall (flow_at m) }

    // What a function calls stands before it.
    ensures calls { (code : Bytes) (e : ℕ) (s : TheGroup)
        → AreFunctions code e (functions_of s)
        → IsLinkedGroup s
        → CallsBefore [] (members_of s) }

    // The group has a definition for each part of each function, at most 2,048 in all, and those of
    // the function at the entry last.
    ensures members { (code : Bytes) (e : ℕ) (s : TheGroup) (name : List ℕ)
        → AreBytes code
        → AreFunctions code e (functions_of s)
        → IsLinkedGroup s
        → (main : Member)
        × (main.at ≡ e)
        × AreMembers true code (members_of s) main (group_in s name) }
    ensures some { (code : Bytes) (e : ℕ) (s : TheGroup) (name : List ℕ)
        → AreBytes code
        → AreFunctions code e (functions_of s)
        → IsLinkedGroup s
        → 1 ≤ length (group_in s name).defs }
    ensures few { (code : Bytes) (e : ℕ) (s : TheGroup) (name : List ℕ)
        → AreBytes code
        → AreFunctions code e (functions_of s)
        → IsLinkedGroup s
        → length (group_in s name).defs ≤ 2048 }
    ensures entry { (code : Bytes) (e : ℕ) (s : TheGroup) (name : List ℕ)
        → AreBytes code
        → AreFunctions code e (functions_of s)
        → IsLinkedGroup s
        → option_map (λ (d : DefTree). d.entry)
        (slice_get (group_in s name).defs (listed_def (group_in s name))) ≡ Some e }

    // It is well-formed, and its code is the functions'.
    ensures formed { (code : Bytes) (e : ℕ) (s : TheGroup) (name : List ℕ)
        → AreBytes code
        → AreFunctions code e (functions_of s)
        → IsLinkedGroup s
        → IsWellFormed (group_in s name) }
    ensures code { (code : Bytes) (e : ℕ) (s : TheGroup)
        → AreBytes code
        → AreFunctions code e (functions_of s)
        → IsLinkedGroup s
        → IsWithin (range_bytes s.code.ranges) code }
{}
