//! The evaluation of a program's function.

ghost use Rattle.std.specs.Prelude.{◌≡◌, ◌*◌, ◌≤◌, None, IfOk, length, map, replicate};
ghost use Rattle.std.specs.FinMap.{get};
ghost use Rattle.tailrec_lang.specs.Tree.{group_tree};
ghost use Rattle.decompiler.specs.Listing.{IsItemFor};
ghost use Rattle.self_test.specs.Start.{file_of, function_name, given as word_given};
ghost use Rattle.self_test.specs.Results as spec;
ghost use Rattle.self_test.specs.Results.{Evaluates, Runs};

use crate::run::{Ran, given};
use decompiler::Item;
use rv_words::{ByteMap, List, NoMemory};
use std::alloc::Global;
use tailrec_lang::{Args, Group, Outcome, eval, has_few_needs};

/// How the evaluation of a program's function ended.
#[derive(Clone, Copy)]
pub struct Evaluated {
    pub turns: u64,
    /// What it gives x10.
    pub value: u64,
}

/// Evaluates a program's function with twice as many turns as its run had steps. A group with more
/// Needs than can be counted needs more memory than there is.
pub fn evaluate(
    alloc: Global,
    item: &Item,
    number: u64,
    size: u32,
    ran: &Ran,
) -> Result<Evaluated, NoMemory>
    requires size { size ≤ 600 }
    requires item { IsItemFor (file_of number size) function_name item.now }
    requires ran { Runs number size ran.now.steps ran.now.value }
    ensures evaluates { IfOk result (λ e.
        Evaluates number size (group_tree item.now.group) (2 * ran.now.steps) e.turns e.value) }
    ensures same { IfOk result (λ e. e.value ≡ ran.now.value) }
{
    let group = &item.group;
    if !has_few_needs(group) {
        return Err(NoMemory);
    }
    let args = arguments(alloc, group, number, size)?;
    let def = (group.defs.len() - 1) as u32;
    let turns = 2 * ran.steps;
    match eval(alloc, group, def, &args, turns)? {
        Outcome::Done { args, left, .. } => Ok(Evaluated {
            turns: turns - left,
            value: result_of(10, group.regs.as_slice(), args.words.as_slice(), number),
        }),
        _ => unreachable!(),
    }
}

/// The arguments where a program begins: what the group's registers hold, and no bytes in its
/// memories.
fn arguments(alloc: Global, group: &Group, number: u64, size: u32) -> Result<Args, NoMemory>
    ensures words { IfOk result (λ args. args.words ≡ map (word_given number size) group.now.regs) }
    ensures mems { IfOk result (λ args. map get args.mems ≡ replicate group.now.mems (λ a. None)) }
{
    let words = words_given(alloc, group.regs.as_slice(), number, size)?;
    let mems = empty_memories(alloc, group.mems)?;
    Ok(Args { words, mems })
}

/// What these registers hold where a program begins.
fn words_given(
    alloc: Global,
    registers: &[u8],
    number: u64,
    size: u32,
) -> Result<List<u64>, NoMemory>
    ensures { IfOk result (λ words. words ≡ map (word_given number size) registers.now) }
{
    let mut words = List::new(alloc);
    for &register in registers {
        words.push(given(register, number, size))?;
    }
    Ok(words)
}

/// As many memories without a byte.
fn empty_memories(alloc: Global, count: u8) -> Result<List<ByteMap>, NoMemory>
    ensures { IfOk result (λ mems. map get mems ≡ replicate count (λ a. None)) }
{
    let mut mems = List::new(alloc);
    for _ in 0..count {
        mems.push(ByteMap::new(alloc))?;
    }
    Ok(mems)
}

/// What a register holds after an evaluation: the word in its place among these, or what it held
/// before.
fn result_of(register: u8, registers: &[u8], words: &[u64], before: u64) -> u64
    requires { length words.now ≡ length registers.now }
    ensures { result ≡ spec.result_of register registers.now words.now before }
{
    for i in 0..registers.len() {
        if registers[i] == register {
            return words[i];
        }
    }
    before
}
