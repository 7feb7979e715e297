//! Which variables stand for registers and memories at a place of a body.

ghost use Rattle.std.specs.Prelude.{◌≡◌, ◌+◌, ◌<◌, ◌≤◌, ◌^◌, IfOk, map};
ghost use Rattle.std.specs.List.{range_with_len};
ghost use Rattle.instr_axioms.specs.Variables.{names_of};
ghost use Rattle.word_terms.specs.Tree.{MemVar, mem_tree};
ghost use Rattle.rv_decode.specs.Registers.{destination};
ghost use Rattle.tailrec_lang.specs.Tree.{values_tree};
ghost use Rattle.code_parts.specs.Bodies as spec;
ghost use Rattle.code_parts.specs.Kept.{flow_in};
ghost use Rattle.code_parts.specs.VariableMaps.{place_of};

use crate::flow::Flow;
pub use crate::variable_map::VariableMap;
use instr_axioms::Variables;
use rv_decode::{Instr, destination};
use rv_words::{List, NoMemory};
use std::alloc::Global;
use tailrec_lang::Values;
use word_terms::{Mem, Word};

impl VariableMap {
    /// The variable of one of the first two memories.
    pub fn memory(&self, q: u8) -> u32
        requires { q < 2 }
        ensures { result ≡ (place_of self.now).memory q }
    {
        if q == 0 {
            self.names.memory
        } else {
            self.second
        }
    }

    /// The variables of the registers, and that of one of the first two memories.
    pub fn names_of(&self, q: u8) -> Variables
        requires { q < 2 }
        ensures { names_of result ≡ spec.names (place_of self.now) q }
    {
        Variables {
            words: self.names.words,
            memory: self.memory(q),
        }
    }
}

/// The next variables after so many, one for each register and one for each memory.
pub fn fresh(flow: &Flow<'_>, words: u32, mems: u32) -> VariableMap
    requires words { words < 2 ^ 16 }
    requires mems { mems < 2 ^ 16 }
    ensures is { place_of result ≡ spec.fresh (flow_in flow.now) words mems }
    ensures words { result.words ≤ words + 31 }
    ensures mems { result.mems ≤ mems + 2 }
{
    let regs = flow.regs();
    let count = flow.mems();
    VariableMap {
        words: words + regs.len() as u32,
        mems: mems + count as u32,
        names: Variables::numbered(regs, words, mems),
        second: mems + 1,
        others: mems,
    }
}

/// The place after a store to the first memory: it is the next memory variable.
fn stored_first(place: VariableMap) -> VariableMap
    requires { place.mems < 2 ^ 16 }
    ensures is { place_of result ≡ spec.stored 0 (place_of place) }
    ensures words { result.words ≡ place.words }
    ensures mems { result.mems ≡ place.mems + 1 }
{
    let mut names = place.names;
    names.memory = place.mems;
    VariableMap {
        words: place.words,
        mems: place.mems + 1,
        names,
        second: place.second,
        others: place.others,
    }
}

/// The place after a store to the second memory.
fn stored_second(place: VariableMap) -> VariableMap
    requires { place.mems < 2 ^ 16 }
    ensures is { place_of result ≡ spec.stored 1 (place_of place) }
    ensures words { result.words ≡ place.words }
    ensures mems { result.mems ≡ place.mems + 1 }
{
    VariableMap {
        words: place.words,
        mems: place.mems + 1,
        names: place.names,
        second: place.mems,
        others: place.others,
    }
}

/// The place after a store to one of the first two memories.
fn stored(q: u8, place: VariableMap) -> VariableMap
    requires mems { place.mems < 2 ^ 16 }
    requires memory { q < 2 }
    ensures is { place_of result ≡ spec.stored q (place_of place) }
    ensures words { result.words ≡ place.words }
    ensures mems { result.mems ≡ place.mems + 1 }
{
    if q == 0 {
        stored_first(place)
    } else {
        stored_second(place)
    }
}

/// The place after a register was written: it is the next variable. x0 is never written.
fn wrote(d: u8, place: VariableMap) -> VariableMap
    requires words { place.words < 2 ^ 16 }
    requires named { d < 32 }
    ensures is { place_of result ≡ spec.wrote d (place_of place) }
    ensures words { result.words ≤ place.words + 1 }
    ensures mems { result.mems ≡ place.mems }
{
    if d == 0 {
        return place;
    }
    let mut names = place.names;
    names.words[d as usize] = place.words;
    VariableMap {
        words: place.words + 1,
        mems: place.mems,
        names,
        second: place.second,
        others: place.others,
    }
}

/// The place after an instruction that loads from or stores to that memory, if it does. What it
/// writes has a variable.
pub fn after(i: Instr, q: u8, place: VariableMap) -> VariableMap
    requires words { place.words < 2 ^ 16 }
    requires mems { place.mems < 2 ^ 16 }
    requires named { destination i < 32 }
    requires memory { q < 2 }
    ensures is { place_of result ≡ spec.place_after i q (place_of place) }
    ensures words { result.words ≤ place.words + 1 }
    ensures mems { result.mems ≤ place.mems + 1 }
{
    if let Instr::Store { .. } = i {
        return stored(q, place);
    }
    wrote(destination(&i), place)
}

/// The memories as values.
#[tactic(auto, using(crate::proofs::VariableMaps::one_memory_more))]
pub fn current_mems(
    alloc: Global,
    flow: &Flow<'_>,
    place: &VariableMap,
) -> Result<List<Mem>, NoMemory>
    ensures { IfOk result (λ ms.
        map mem_tree ms
        ≡ map (λ q. MemVar ((place_of place.now).memory q))
        (range_with_len 0 (flow_in flow.now).mems)) }
{
    let mut mems = List::new(alloc);
    for q in 0..flow.mems() {
        mems.push(Mem::Var(place.memory(q)))?;
    }
    Ok(mems)
}

/// The registers and the memories as values.
pub fn current(alloc: Global, flow: &Flow<'_>, place: &VariableMap) -> Result<Values, NoMemory>
    ensures { IfOk result (λ v.
        values_tree v ≡ spec.current (flow_in flow.now) (place_of place.now)) }
{
    let mut words = List::new(alloc);
    for r in flow.regs() {
        words.push(Word::Var(place.names.word(*r)))?;
    }
    let mems = current_mems(alloc, flow, place)?;
    Ok(Values { words, mems })
}
