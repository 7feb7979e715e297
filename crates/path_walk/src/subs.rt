//! Terms that are put in for variables.

ghost use Rattle.std.specs.Prelude.{◌≡◌, ◌++◌, ◌+◌, ◌≤◌, ◌<◌, ◌^◌, IfOk, OnOk, length, map};
ghost use Rattle.proof_text.specs.Line.{mem_put_in, word_put_in};
ghost use Rattle.code_parts.specs.Bodies.{names};
ghost use Rattle.path_walk.specs.inner.Acts as spec;
ghost use Rattle.path_walk.specs.inner.Histories.{exit_place};
ghost use Rattle.code_parts.specs.Kept.{flow_in};
ghost use Rattle.code_parts.specs.VariableMaps.{place_of};

use code_parts::{Flow, VariableMap, fresh};
use instr_axioms::has_memory;
use rv_decode::Instr;
use rv_words::{List, NoMemory};
use std::alloc::Global;
use tailrec_lang::Exit;
use word_terms::{Mem, Word};

/// There are two memories at most, and the variable of the second is a number of 32 bits.
pub fn law_of_memories(flow: &Flow<'_>, place: &VariableMap)
    ensures few { (flow_in flow.now).mems ≤ 2 }
    ensures second { (place_of place.now).memory 1 < 2 ^ 32 }
{
    let _count = flow.mems();
    let _second = place.memory(1);
}

/// Adds the variables of these registers, each for the next variable.
fn add_registers(
    regs: &[u8],
    place: &VariableMap,
    words: &mut List<(u32, Word)>,
) -> Result<(), NoMemory>
    requires { length words.old + length regs.now < 2 ^ 32 }
    ensures { OnOk result (map word_put_in words.new
        ≡ map word_put_in words.old
        ++ spec.numbered (length words.old) (map (names (place_of place.now) 0).word regs.now)) }
{
    for r in regs {
        let i = words.len() as u32;
        words.push((i, Word::Var(place.names.word(*r))))?;
    }
    Ok(())
}

/// The variables of these registers, each for the next variable.
pub fn own_words(
    alloc: Global,
    regs: &[u8],
    place: &VariableMap,
) -> Result<List<(u32, Word)>, NoMemory>
    requires { length regs.now ≤ 31 }
    ensures { IfOk result (λ ws.
        map word_put_in ws ≡ spec.numbered 0 (map (names (place_of place.now) 0).word regs.now)) }
{
    let mut words = List::new(alloc);
    add_registers(regs, place, &mut words)?;
    Ok(words)
}

/// The variable of an instruction's memory, if it has one.
pub fn own_mems(
    alloc: Global,
    i: Instr,
    q: u8,
    place: &VariableMap,
) -> Result<List<(u32, Mem)>, NoMemory>
    requires { q < 2 }
    ensures { IfOk result (λ ms. map mem_put_in ms ≡ spec.own_mems i q (place_of place.now)) }
{
    let mut mems = List::new(alloc);
    if has_memory(i) {
        mems.push((0, Mem::Var(place.memory(q))))?;
    }
    Ok(mems)
}

/// The next variables for the registers and the memory after an exit.
pub fn place_at(flow: &Flow<'_>, x: Exit, place: &VariableMap) -> VariableMap
    requires words { place.now.words < 2 ^ 15 + 64 }
    requires mems { place.now.mems < 2 ^ 15 + 64 }
    ensures is { place_of result ≡ exit_place (flow_in flow.now) x place.now.words place.now.mems }
    ensures words { result.words ≤ place.now.words + 32 }
    ensures mems { result.mems ≤ place.now.mems + 2 }
{
    match x {
        Exit::At(_) => fresh(flow, place.words, place.mems),
        Exit::Ret => fresh(flow, place.words + 1, place.mems),
    }
}

/// Adds the next variables, for the results of an exit.
fn add_results(
    flow: &Flow<'_>,
    x: Exit,
    place: &VariableMap,
    words: &mut List<(u32, Word)>,
) -> Result<(), NoMemory>
    requires few { length words.old ≤ 31 }
    requires words { place.now.words < 2 ^ 15 + 64 }
    requires mems { place.now.mems < 2 ^ 15 + 64 }
    ensures { OnOk result (map word_put_in words.new
        ≡ map word_put_in words.old
        ++ spec.numbered (length words.old)
        (spec.results_at (flow_in flow.now) x place.now.words place.now.mems).words) }
{
    let next = place_at(flow, x, place);
    if let Exit::Ret = x {
        let i = words.len() as u32;
        words.push((i, Word::Var(place.words)))?;
    }
    add_registers(flow.regs(), &next, words)
}

/// The current variables for the parameters of a call, and the next ones for the results of an
/// exit.
pub fn call_words(
    alloc: Global,
    flow: &Flow<'_>,
    x: Exit,
    place: &VariableMap,
) -> Result<List<(u32, Word)>, NoMemory>
    requires words { place.now.words < 2 ^ 15 + 64 }
    requires mems { place.now.mems < 2 ^ 15 + 64 }
    ensures { IfOk result (λ ws.
        map word_put_in ws ≡ spec.call_words (flow_in flow.now) x (place_of place.now)) }
{
    let mut words = own_words(alloc, flow.regs(), place)?;
    add_results(flow, x, place, &mut words)?;
    Ok(words)
}

/// The current memories and the next ones.
pub fn call_mems(
    alloc: Global,
    flow: &Flow<'_>,
    x: Exit,
    place: &VariableMap,
) -> Result<List<(u32, Mem)>, NoMemory>
    requires { place.now.mems < 2 ^ 15 + 64 }
    ensures { IfOk result (λ ms.
        map mem_put_in ms ≡ spec.call_mems (flow_in flow.now) x (place_of place.now)) }
{
    let mut mems = List::new(alloc);
    match flow.mems() {
        0 => {}
        1 => {
            mems.push((0, Mem::Var(place.memory(0))))?;
            mems.push((1, Mem::Var(place.mems)))?;
        }
        _ => {
            mems.push((0, Mem::Var(place.memory(0))))?;
            mems.push((1, Mem::Var(place.memory(1))))?;
            mems.push((2, Mem::Var(place.mems)))?;
            mems.push((3, Mem::Var(place.mems + 1)))?;
        }
    }
    Ok(mems)
}
