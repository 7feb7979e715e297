//! Laws of reached code. These functions do nothing: their contracts are the laws. Each speaks of
//! the definitions alone.

ghost use Rattle.std.specs.Prelude.{◌≡◌, ◌<◌, ◌==◌, ℕ, Bool, IsTrue, Ok as Fine, count_by, length, map, slice_get, slice_index, true, ℤ, Some};
ghost use Rattle.rv_words.specs.Bytes.{Bytes};
ghost use Rattle.rv_decode.specs.declared.instruction.Instr.{Instr};
ghost use Rattle.rv_decode.specs.declared.instruction.Instr.TheVariants.{Jalr};
ghost use Rattle.rvc.specs.Number.{number_in};
ghost use Rattle.flow_graph.specs.Flow.{Next, StandsIn, admitted, is_return, look, next};
ghost use Rattle.flow_graph.specs.Walks.{Reaches};
ghost use Rattle.flow_graph.specs.Reach.{IsFault};
ghost use Rattle.flow_graph.specs.Graph.{GraphOf, IsFlow, IsGraphOf, preds_of, succs_of};
ghost use Rattle.flow_graph.specs.declared.outside.Outside.{Outside};

/// The reached addresses are the least set that has the entry and is closed under successors.
pub fn law_of_reach()
    ensures entry { (linked : Bool) (code : Bytes) (e : ℕ) → Reaches (Next linked code) e e }
    ensures closed { (linked : Bool) (code : Bytes) (e a b : ℕ)
        → Reaches (Next linked code) e a
        → Next linked code a b
        → Reaches (Next linked code) e b }
    ensures least { (linked : Bool) (code : Bytes) (e a : ℕ) (has : ℕ → Bool)
        → Reaches (Next linked code) e a
        → IsTrue (has e)
        → ((x y : ℕ) → IsTrue (has x) → Next linked code x y → IsTrue (has y))
        → IsTrue (has a) }
{}

/// Code has a graph or a fault and not both, one graph at most, and one fault at most.
pub fn law_of_one_answer()
    ensures graph_or_fault { (linked : Bool) (code : Bytes) (e : ℕ) (g : GraphOf) (why : Outside)
        → IsGraphOf linked code e g
        → IsFault linked code e why
        → ⊥ }
    ensures one_fault { (linked : Bool) (code : Bytes) (e : ℕ) (why other : Outside)
        → IsFault linked code e why
        → IsFault linked code e other
        → why ≡ other }
    ensures one_graph { (linked : Bool) (code : Bytes) (e : ℕ) (g h : GraphOf)
        → IsGraphOf linked code e g
        → IsGraphOf linked code e h
        → g ≡ h }
{}

/// The edges of a graph are the successors of its addresses, in their order. An edge stands as
/// often in the list of the node that it leads to as in that of the node that it comes from.
pub fn law_of_edges()
    ensures successors { (linked : Bool) (code : Bytes) (e : ℕ) (g : GraphOf) (n : ℕ)
        → IsGraphOf linked code e g
        → n < length g.addrs
        → map (λ m. slice_index g.addrs m) (succs_of g.edges n)
        ≡ next linked code (slice_index g.addrs n) }
    ensures both_lists { (g : GraphOf) (u v : ℕ)
        → count_by (λ m. m == v) (succs_of g.edges u)
        ≡ count_by (λ m. m == u) (preds_of g.edges v) }
    ensures instructions { (linked : Bool) (code : Bytes) (e : ℕ) (g : GraphOf)
        → IsGraphOf linked code e g
        → map (λ a. look linked code a) g.addrs ≡ map (λ i. Fine i) g.instrs }
    ensures flow { (linked : Bool) (code : Bytes) (e : ℕ) (g : GraphOf)
        → IsGraphOf linked code e g
        → IsFlow g }
{}

/// The instruction of each node stands at its address and has no fault there. A jump through a
/// register without one is the return.
pub fn law_of_instructions()
    ensures stands { (linked : Bool) (code : Bytes) (e : ℕ) (g : GraphOf) (n : ℕ) (i : Instr)
        → IsGraphOf linked code e g
        → n < length g.addrs
        → slice_get g.instrs n ≡ Some i
        → StandsIn linked code (slice_index g.addrs n) i }
    ensures number { (linked : Bool) (code : Bytes) (e : ℕ) (g : GraphOf) (n : ℕ)
        → IsGraphOf linked code e g
        → n < length g.addrs
        → number_in code (slice_index g.addrs n) ≡ Some (slice_index g.numbers n) }
    ensures returns { (linked : Bool) (a rd rs1 : ℕ) (imm : ℤ)
        → admitted linked a (Jalr rd rs1 imm) ≡ Fine (Jalr rd rs1 imm)
        → is_return (Jalr rd rs1 imm) ≡ true }
{}
