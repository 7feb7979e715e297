//! The axiom of an address, a parcel or word and a form.

ghost use Rattle.std.specs.Prelude.{◌≡◌, IfOk, map, option_map};
ghost use Rattle.word_terms.specs.Tree.{word_tree, mem_tree};
ghost use Rattle.sep_assert.specs.Tree.{assertion_tree, register_tree};
ghost use Rattle.triple_kernel.specs.Tree.{triple_tree};
ghost use Rattle.rvc.specs.Number.{bytes_of, length_of as length_in_bytes};
ghost use Rattle.instr_axioms.specs.Terms as terms;
ghost use Rattle.instr_axioms.specs.Axiom as spec;
ghost use Rattle.instr_axioms.specs.Variables.{names_of};

use crate::address::has_room;
use crate::registers::own;
use crate::terms::{facts, memory_after, pc_after, result};
use crate::variables::Variables;
use rv_decode::{Instr, destination};
use rv_words::{List, NoMemory, Range};
use rvc::{instruction_of, is_word, length_of};
use sep_assert::Assertion;
use std::alloc::Global;
use triple_kernel::{Form, Triple};
use word_terms::{Code, Mem, Word};

/// The axiom of an address, a parcel or word and a form, if there is one.
#[tactic(auto, unfolding(crate::specs::Axiom::axiom_of))]
pub fn axiom_triple(
    alloc: Global,
    addr: u64,
    word: u32,
    form: Form,
) -> Result<Option<Triple>, NoMemory>
    ensures { IfOk result (λ t. option_map triple_tree t ≡ spec.axiom_of addr word form) }
{
    if !has_room(addr, word) {
        return Ok(None);
    }
    match instruction_of(word) {
        Some(i) => triple_if(alloc, addr, word, form, i),
        None => Ok(None),
    }
}

fn triple_if(
    alloc: Global,
    addr: u64,
    word: u32,
    form: Form,
    i: Instr,
) -> Result<Option<Triple>, NoMemory>
    ensures { IfOk result (λ t. option_map triple_tree t ≡ spec.triple_if addr word form i) }
{
    if !has_form(i, form) {
        return Ok(None);
    }
    let triple = own_triple(alloc, i, form, addr, word)?;
    Ok(Some(triple))
}

/// Whether the instruction has that form.
fn has_form(i: Instr, form: Form) -> bool
    ensures { result ≡ terms.has_form i form }
{
    match form {
        Form::Next => !matches!(i, Instr::Ecall | Instr::Ebreak),
        Form::Taken => matches!(i, Instr::Branch { .. }),
    }
}

/// The triple of an instruction over its own registers.
fn own_triple(alloc: Global, i: Instr, form: Form, addr: u64, word: u32) -> Result<Triple, NoMemory>
    ensures { IfOk result (λ t. triple_tree t ≡ spec.own_triple i form addr word) }
{
    let regs = own(alloc, i)?;
    let regs = regs.as_slice();
    let names = Variables::numbered(regs, 0, 0);
    triple_over(alloc, i, form, addr, word, regs, has_memory(i), &names)
}

/// The triple of an instruction over any registers and variables, and over a memory where there is
/// one.
pub fn triple_over(
    alloc: Global,
    i: Instr,
    form: Form,
    addr: u64,
    word: u32,
    regs: &[u8],
    mem: bool,
    names: &Variables,
) -> Result<Triple, NoMemory>
    ensures { IfOk result (λ t.
        triple_tree t
        ≡ spec.triple_over i form addr (length_in_bytes word) (spec.word_code addr word) regs.now
        mem (names_of names.now)) }
{
    let facts = facts(alloc, i, form, names)?;
    let pre = before(alloc, addr, regs, mem, names)?;
    let code = word_code(alloc, addr, word)?;
    let post = after(alloc, i, form, addr, length_of(word), regs, mem, names)?;
    Ok(Triple {
        facts,
        pre,
        code,
        post,
    })
}

/// The bytes of a parcel or word at an address, the low one first.
pub fn word_code(alloc: Global, addr: u64, word: u32) -> Result<Code, NoMemory>
    ensures { IfOk result (λ c. c.ranges ≡ spec.word_code addr word) }
{
    let bytes = number_bytes(alloc, word)?;
    let mut ranges = List::new(alloc);
    ranges.push(Range { at: addr, bytes })?;
    Ok(Code { ranges })
}

/// The bytes of a parcel or word, the low one first.
fn number_bytes(alloc: Global, word: u32) -> Result<List<u8>, NoMemory>
    ensures { IfOk result (λ bs. bs ≡ bytes_of word) }
{
    if is_word(word) {
        return List::from_slice(alloc, &word.to_le_bytes());
    }
    List::from_slice(alloc, &((word % 65536) as u16).to_le_bytes())
}

/// What holds before an instruction, over a memory where there is one.
pub fn before(
    alloc: Global,
    addr: u64,
    regs: &[u8],
    mem: bool,
    names: &Variables,
) -> Result<Assertion, NoMemory>
    ensures { IfOk result (λ a.
        assertion_tree a ≡ spec.before addr regs.now mem (names_of names.now)) }
{
    let words = words_before(alloc, regs, names)?;
    let mems = memory_if(alloc, mem, Mem::Var(names.memory))?;
    Ok(Assertion {
        pc: Word::Const(addr),
        regs: words,
        mems,
    })
}

/// What holds after an instruction of that many bytes, over a memory where there is one.
fn after(
    alloc: Global,
    i: Instr,
    form: Form,
    addr: u64,
    length: u8,
    regs: &[u8],
    mem: bool,
    names: &Variables,
) -> Result<Assertion, NoMemory>
    ensures { IfOk result (λ a.
        assertion_tree a ≡ spec.after i form addr length regs.now mem (names_of names.now)) }
{
    let pc = pc_after(alloc, i, form, addr, length, names)?;
    let words = words_after(alloc, i, addr, length, regs, names)?;
    let m = memory_after(alloc, i, names)?;
    let mems = memory_if(alloc, mem, m)?;
    Ok(Assertion {
        pc,
        regs: words,
        mems,
    })
}

/// Whether an instruction loads or stores.
pub fn has_memory(i: Instr) -> bool
    ensures { result ≡ terms.has_memory i }
{
    matches!(i, Instr::Load { .. } | Instr::Store { .. })
}

/// One memory, or none.
pub fn memory_if(alloc: Global, has: bool, m: Mem) -> Result<List<Mem>, NoMemory>
    ensures { IfOk result (λ ms. map mem_tree ms ≡ spec.memory_if has (mem_tree m)) }
{
    let mut mems = List::new(alloc);
    if has {
        mems.push(m)?;
    }
    Ok(mems)
}

/// The variable of each register.
pub fn words_before(
    alloc: Global,
    regs: &[u8],
    names: &Variables,
) -> Result<List<(u8, Word)>, NoMemory>
    ensures { IfOk result (λ ws.
        map register_tree ws ≡ map (spec.register_with (names_of names.now).word) regs.now) }
{
    let mut words = List::new(alloc);
    for r in regs {
        words.push((*r, Word::Var(names.word(*r))))?;
    }
    Ok(words)
}

/// The word in each register after an instruction.
fn words_after(
    alloc: Global,
    i: Instr,
    addr: u64,
    length: u8,
    regs: &[u8],
    names: &Variables,
) -> Result<List<(u8, Word)>, NoMemory>
    ensures { IfOk result (λ ws.
        map register_tree ws
        ≡ map (spec.register_with (terms.word_after i addr length (names_of names.now))) regs.now) }
{
    let mut words = List::new(alloc);
    for r in regs {
        let t = word_after(alloc, i, addr, length, *r, names)?;
        words.push((*r, t))?;
    }
    Ok(words)
}

/// The word in a register after an instruction.
fn word_after(
    alloc: Global,
    i: Instr,
    addr: u64,
    length: u8,
    r: u8,
    names: &Variables,
) -> Result<Word, NoMemory>
    ensures { IfOk result (λ t.
        word_tree t ≡ terms.word_after i addr length (names_of names.now) r) }
{
    if r == destination(&i) {
        return result(alloc, i, addr, length, names);
    }
    Ok(Word::Var(names.word(r)))
}
