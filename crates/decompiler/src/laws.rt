//! Laws of items, and of runs through a group that is made of a graph's parts. These functions do
//! nothing: their contracts are the laws. Each speaks of the definitions alone.

ghost use Rattle.std.specs.Prelude.{ℕ, List, ◌∷◌, [], false, true};
ghost use Rattle.elf_image.specs.Fault.{IsReadable};
ghost use Rattle.verdicts.specs.Accepts.{Accepts};
ghost use Rattle.proof_text.specs.Proofs.{AreProofs};
ghost use Rattle.decompiler.specs.Listing.{AreItemsBy, alone_form, proofs_of};
ghost use Rattle.path_walk.specs.declared.proof.Proof.{Proof as TheProof};
ghost use Rattle.rv_words.specs.Bytes.{AreBytes};
ghost use Rattle.rv_words.specs.Ranges.{range_bytes};
ghost use Rattle.rv_words.specs.declared.range.Range.{Range as TheRange};
ghost use Rattle.elf_image.specs.Image.{code_of_file};
ghost use Rattle.sep_assert.specs.Code.{IsWithin};
ghost use Rattle.tailrec_lang.specs.Tree.{GroupTree};
ghost use Rattle.flow_graph.specs.Graph.{GraphOf, IsGraphOf};
ghost use Rattle.loop_forest.specs.Forest.{ForestOf, IsForestOf, number_of};
ghost use Rattle.code_parts.specs.declared.part.Part.{Part as ThePart};
ghost use Rattle.code_parts.specs.Bodies.{Flow};
ghost use Rattle.code_parts.specs.Graph.{IsAlone, IsCode, IsGraph, IsPart};
ghost use Rattle.code_parts.specs.Flows.{HaveCode, alone, flow_of, group_of};
ghost use Rattle.code_parts.specs.Members.{AreMembers, Member};
ghost use Rattle.code_parts.specs.Order.{AreParts};
ghost use Rattle.claims.specs.Exact.{Exact, FirstReturns};
ghost use Rattle.claims.specs.LinkExact.{ExactIn, FirstReturnsIn, LinkExact};
ghost use Rattle.decompiler.specs.Functions.{UsedBy};
ghost use Rattle.decompiler.specs.Parts.{HasParts, LawOfPart};
ghost use Rattle.claims.specs.Turns.{CountsSteps, RunsBack};

/// Items for names of a file that can be read are accepted for it, and have a text.
pub fn law_of_items()
    ensures accepted { (file : List ℕ) (names : List (List ℕ)) (p : TheProof)
        → IsReadable file
        → AreItemsBy alone_form file names p
        → Accepts file (proofs_of p) }
    ensures text { (file : List ℕ) (names : List (List ℕ)) (p : TheProof)
        → AreItemsBy alone_form file names p
        → AreProofs (proofs_of p) }
{}

/// Of a function alone: a run from the entry of a part that returns is an evaluation of its
/// definition, up to where the run leaves the part. Each turn is at most 32 steps.
pub fn law_of_parts()
    ensures { (f : Flow) (g : GroupTree) (entry : ℕ)
        → IsGraph f
        → IsCode f g.code
        → IsAlone f
        → HasParts f entry g
        → (p : ThePart)
        → IsPart f p
        → LawOfPart f g p }
{}

/// Nothing is lost of a function: a run from its entry that returns is an evaluation.
pub fn law_of_returns()
    ensures { (file : List ℕ) (g : GroupTree) (f : Flow) (entry : ℕ)
        → IsGraph f
        → IsCode f g.code
        → IsAlone f
        → HasParts f entry g
        → IsWithin (range_bytes g.code) (code_of_file file)
        → Exact file g }
{}

/// So nothing is lost of the group that is made of a function's code, its loops and its parts in
/// their order.
pub fn law_of_functions()
    ensures { (file : List ℕ) (e : ℕ) (g : GraphOf) (f : ForestOf) (parts : List ThePart)
        (name : List ℕ) (ranges : List TheRange)
        → IsGraphOf false (code_of_file file) e g
        → IsForestOf g f
        → AreBytes (code_of_file file)
        → HaveCode g (code_of_file file) ranges
        → AreParts (flow_of g f (alone g parts)) (number_of f) parts
        → IsWithin (range_bytes ranges) (code_of_file file)
        → Exact file (group_of (flow_of g f (alone g parts)) name ranges parts) }
{}

/// Nothing is lost of functions that call each other, of any number of memories: a run from the
/// entry of the main one is an evaluation, the runs of what it calls included. Nor is anything lost
/// of one of them by itself.
pub fn law_of_links()
    ensures linked { (file : List ℕ) (ms : List Member) (main : Member) (g : GroupTree)
        → AreBytes (code_of_file file)
        → AreMembers true (code_of_file file) ms main g
        → IsWithin (range_bytes g.code) (code_of_file file)
        → LinkExact (UsedBy ms) file g }
    ensures by_itself { (file : List ℕ) (m : Member) (g : GroupTree)
        → AreBytes (code_of_file file)
        → AreMembers false (code_of_file file) (m ∷ []) m g
        → IsWithin (range_bytes g.code) (code_of_file file)
        → ExactIn (UsedBy (m ∷ [])) file g }
{}

/// So the turns of evaluation count the steps of the machine: each turn is at most 32 steps, and
/// each step at most two turns. Of a function alone, of functions that call each other, with the
/// steps of all of them, and of one of them by itself.
pub fn law_of_counted_steps()
    ensures function { (file : List ℕ) (e : ℕ) (g : GraphOf) (f : ForestOf)
        (parts : List ThePart) (name : List ℕ) (ranges : List TheRange)
        → IsGraphOf false (code_of_file file) e g
        → IsForestOf g f
        → AreBytes (code_of_file file)
        → HaveCode g (code_of_file file) ranges
        → AreParts (flow_of g f (alone g parts)) (number_of f) parts
        → IsWithin (range_bytes ranges) (code_of_file file)
        → CountsSteps 32 FirstReturns file (group_of (flow_of g f (alone g parts)) name ranges
        parts) }
    ensures linked { (file : List ℕ) (ms : List Member) (main : Member) (g : GroupTree)
        → AreBytes (code_of_file file)
        → AreMembers true (code_of_file file) ms main g
        → IsWithin (range_bytes g.code) (code_of_file file)
        → CountsSteps 32 (RunsBack (UsedBy ms)) file g }
    ensures by_itself { (file : List ℕ) (m : Member) (g : GroupTree)
        → AreBytes (code_of_file file)
        → AreMembers false (code_of_file file) (m ∷ []) m g
        → IsWithin (range_bytes g.code) (code_of_file file)
        → CountsSteps 32 (FirstReturnsIn (UsedBy (m ∷ []))) file g }
{}
