//! Laws of linked functions. These functions do nothing: their contracts are the laws. Each speaks
//! of the definitions alone.

ghost use Rattle.std.specs.Prelude.{◌≡◌, ℕ, ◌<◌, Bool, IsTrue, List, Some, length, slice_get, slice_index, slice_index_or};
ghost use Rattle.rv_words.specs.Bytes.{Bytes};
ghost use Rattle.rv_decode.specs.declared.instruction.Instr.TheVariants.{Ebreak};
ghost use Rattle.flow_graph.specs.Flow.{called_by};
ghost use Rattle.code_parts.specs.Calls.{CallsTo, IsFunction};
ghost use Rattle.code_parts.specs.Causes.{HasOneForm, IsCause};
ghost use Rattle.code_parts.specs.Functions.{AreFunctions, IsLinkedFunction};
ghost use Rattle.code_parts.specs.declared.call_fault.LinkWhy.{LinkWhy as Why};
ghost use Rattle.code_parts.specs.declared.linked_function.Function.{Function as Member};

/// The functions of an entry are the least set that has the entry and is closed under calls.
pub fn law_of_calls()
    ensures entry { (code : Bytes) (e : ℕ) → IsFunction code e e }
    ensures closed { (code : Bytes) (e f t : ℕ)
        → IsFunction code e f
        → CallsTo code f t
        → IsFunction code e t }
    ensures least { (code : Bytes) (e f : ℕ) (has : ℕ → Bool)
        → IsFunction code e f
        → IsTrue (has e)
        → ((g t : ℕ) → IsTrue (has g) → CallsTo code g t → IsTrue (has t))
        → IsTrue (has f) }
{}

/// Where the functions of an entry are given, there is no reason against it; and there is one first
/// reason, but that a cycle with two entries can be shown in many ways.
pub fn law_of_one_answer()
    ensures one_cause { (code : Bytes) (e : ℕ) (why other : Why)
        → HasOneForm other
        → IsCause code e why
        → IsCause code e other
        → why ≡ other }
    ensures functions_or_cause { (code : Bytes) (e : ℕ) (fs : List Member) (why : Why)
        → AreFunctions code e fs
        → IsCause code e why
        → ⊥ }
{}

/// What an instruction of a function calls stands before that function.
pub fn law_of_callees()
    ensures { (code : Bytes) (e : ℕ) (fs : List Member) (f : Member) (k n t : ℕ)
        → AreFunctions code e fs
        → slice_get fs k ≡ Some f
        → n < length f.graph.addrs
        → called_by (slice_index f.graph.addrs n) (slice_index_or f.graph.instrs n Ebreak) ≡ Some t
        → (j : ℕ) × (g : Member)
        × (j < k)
        × (slice_get fs j ≡ Some g)
        × (g.entry ≡ t)
        × IsLinkedFunction code g }
{}
