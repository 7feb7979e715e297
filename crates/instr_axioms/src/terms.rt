//! Terms for what an instruction needs, writes and goes on to, over the variables of its registers.

ghost use Rattle.std.specs.Prelude.{◌≡◌, IfOk, map, option_map, option_to_list};
ghost use Rattle.word_terms.specs.Tree.{word_tree, mem_tree, cond_tree, MemVar, Bin, Extend, Inside, Compare, Neg};
ghost use Rattle.triple_kernel.specs.Tree.{fact_tree, So};
ghost use Rattle.instr_axioms.specs.Terms as terms;
ghost use Rattle.instr_axioms.specs.Variables.{names_of};

use crate::address::next;
use crate::variables::Variables;
use rv_decode::Instr;
use rv_machine::{immediate_word, plus_immediate, upper_word};
use rv_words::{Cmp, Ext, List, NoMemory, Op, Width};
use std::alloc::Global;
use triple_kernel::{Fact, Form};
use word_terms::{Cond, Mem, Word};

/// The word in a register; x0 reads as 0.
fn word_in(names: &Variables, r: u8) -> Word
    ensures { word_tree result ≡ terms.word_in (names_of names.now) r }
{
    if r == 0 {
        return Word::Const(0);
    }
    Word::Var(names.word(r))
}

fn bin(alloc: Global, op: Op, a: Word, b: Word) -> Result<Word, NoMemory>
    ensures { IfOk result (λ t. word_tree t ≡ Bin op (word_tree a) (word_tree b)) }
{
    let a = Box::new(alloc, a)?;
    let b = Box::new(alloc, b)?;
    Ok(Word::Bin(op, a, b))
}

/// The word in a register, plus an immediate.
fn sum(alloc: Global, names: &Variables, r: u8, imm: i32) -> Result<Word, NoMemory>
    ensures { IfOk result (λ t. word_tree t ≡ terms.sum (names_of names.now) r imm) }
{
    bin(
        alloc,
        Op::Add,
        word_in(names, r),
        Word::Const(immediate_word(imm)),
    )
}

fn sign_extended(alloc: Global, width: Width, t: Word) -> Result<Word, NoMemory>
    ensures { IfOk result (λ x. word_tree x ≡ terms.sign_extended width (word_tree t)) }
{
    match width {
        Width::B1 => extend(alloc, Ext::Sx1, t),
        Width::B2 => extend(alloc, Ext::Sx2, t),
        Width::B4 => extend(alloc, Ext::Sx4, t),
        Width::B8 => Ok(t),
    }
}

fn extend(alloc: Global, ext: Ext, t: Word) -> Result<Word, NoMemory>
    ensures { IfOk result (λ x. word_tree x ≡ Extend ext (word_tree t)) }
{
    let t = Box::new(alloc, t)?;
    Ok(Word::Extend(ext, t))
}

/// The word that a load from an address gives.
fn loaded(alloc: Global, width: Width, signed: bool, memory: u32, a: Word) -> Result<Word, NoMemory>
    ensures { IfOk result (λ t.
        word_tree t ≡ terms.loaded width signed (MemVar memory) (word_tree a)) }
{
    let m = Box::new(alloc, Mem::Var(memory))?;
    let a = Box::new(alloc, a)?;
    let t = Word::Load(width, m, a);
    if signed {
        sign_extended(alloc, width, t)
    } else {
        Ok(t)
    }
}

fn compare(alloc: Global, cmp: Cmp, a: Word, b: Word) -> Result<Cond, NoMemory>
    ensures { IfOk result (λ c. cond_tree c ≡ Compare cmp (word_tree a) (word_tree b)) }
{
    let a = Box::new(alloc, a)?;
    let b = Box::new(alloc, b)?;
    Ok(Cond::Compare(cmp, a, b))
}

fn contrary(alloc: Global, c: Cond) -> Result<Cond, NoMemory>
    ensures { IfOk result (λ d. cond_tree d ≡ Neg (cond_tree c)) }
{
    let c = Box::new(alloc, c)?;
    Ok(Cond::Neg(c))
}

/// The condition under which an instruction is carried out in that form, if there is one.
pub fn condition(
    alloc: Global,
    i: Instr,
    form: Form,
    names: &Variables,
) -> Result<Option<Cond>, NoMemory>
    ensures { IfOk result (λ c.
        option_to_list (option_map cond_tree c) ≡ terms.conditions i form (names_of names.now)) }
{
    match i {
        Instr::Load {
            width,
            rs1,
            imm,
            ..
        } => {
            let c = accessible(alloc, width, names, rs1, imm)?;
            Ok(Some(c))
        }
        Instr::Store {
            width,
            rs1,
            imm,
            ..
        } => {
            let c = accessible(alloc, width, names, rs1, imm)?;
            Ok(Some(c))
        }
        Instr::Branch { cmp, rs1, rs2, .. } => {
            let c = comparison(alloc, cmp, rs1, rs2, names)?;
            let d = branch_condition(alloc, form, c)?;
            Ok(Some(d))
        }
        _ => Ok(None),
    }
}

/// The comparison of the words in two registers.
pub fn comparison(
    alloc: Global,
    cmp: Cmp,
    rs1: u8,
    rs2: u8,
    names: &Variables,
) -> Result<Cond, NoMemory>
    ensures { IfOk result (λ c.
        cond_tree c
        ≡ Compare cmp (terms.word_in (names_of names.now) rs1)
        (terms.word_in (names_of names.now) rs2)) }
{
    compare(alloc, cmp, word_in(names, rs1), word_in(names, rs2))
}

/// The condition that the memory has the bytes at a register's word plus an immediate.
fn accessible(
    alloc: Global,
    width: Width,
    names: &Variables,
    r: u8,
    imm: i32,
) -> Result<Cond, NoMemory>
    ensures { IfOk result (λ c.
        cond_tree c
        ≡ Inside width (MemVar names.now.memory) (terms.sum (names_of names.now) r imm)) }
{
    let a = sum(alloc, names, r, imm)?;
    let m = Box::new(alloc, Mem::Var(names.memory))?;
    let a = Box::new(alloc, a)?;
    Ok(Cond::Inside(width, m, a))
}

/// The condition of a branch in that form, where it is taken if c is true.
fn branch_condition(alloc: Global, form: Form, c: Cond) -> Result<Cond, NoMemory>
    ensures { IfOk result (λ d. cond_tree d ≡ terms.branch_condition form (cond_tree c)) }
{
    match form {
        Form::Next => contrary(alloc, c),
        Form::Taken => Ok(c),
    }
}

/// The conditions as facts.
pub fn facts(alloc: Global, i: Instr, form: Form, names: &Variables) -> Result<List<Fact>, NoMemory>
    ensures { IfOk result (λ fs.
        map fact_tree fs ≡ map So (terms.conditions i form (names_of names.now))) }
{
    let mut facts = List::new(alloc);
    if let Some(c) = condition(alloc, i, form, names)? {
        facts.push(Fact::So(c))?;
    }
    Ok(facts)
}

/// What the instruction of that many bytes at an address writes to its destination. Where that is
/// x0, nothing is written, and the term is that of the value.
pub fn result(
    alloc: Global,
    i: Instr,
    addr: u64,
    length: u8,
    names: &Variables,
) -> Result<Word, NoMemory>
    ensures { IfOk result (λ t. word_tree t ≡ terms.result i addr length (names_of names.now)) }
{
    match i {
        Instr::Op { op, rs1, rs2, .. } => bin(alloc, op, word_in(names, rs1), word_in(names, rs2)),
        Instr::OpImm { op, rs1, imm, .. } => {
            bin(
                alloc,
                op,
                word_in(names, rs1),
                Word::Const(immediate_word(imm)),
            )
        }
        Instr::Lui { imm, .. } => Ok(Word::Const(upper_word(imm))),
        Instr::Auipc { imm, .. } => Ok(Word::Const(addr.wrapping_add(upper_word(imm)))),
        Instr::Jal { .. } => Ok(Word::Const(next(addr, length))),
        Instr::Jalr { .. } => Ok(Word::Const(next(addr, length))),
        Instr::Load {
            width,
            signed,
            rs1,
            imm,
            ..
        } => {
            let a = sum(alloc, names, rs1, imm)?;
            loaded(alloc, width, signed, names.memory, a)
        }
        _ => Ok(Word::Const(0)),
    }
}

/// The memory after an instruction.
pub fn memory_after(alloc: Global, i: Instr, names: &Variables) -> Result<Mem, NoMemory>
    ensures { IfOk result (λ m. mem_tree m ≡ terms.memory_after i (names_of names.now)) }
{
    match i {
        Instr::Store {
            width,
            rs1,
            rs2,
            imm,
        } => {
            let a = sum(alloc, names, rs1, imm)?;
            let m = Box::new(alloc, Mem::Var(names.memory))?;
            let a = Box::new(alloc, a)?;
            let v = Box::new(alloc, word_in(names, rs2))?;
            Ok(Mem::Store(width, m, a, v))
        }
        _ => Ok(Mem::Var(names.memory)),
    }
}

/// Where the instruction of that many bytes at an address goes in that form.
pub fn pc_after(
    alloc: Global,
    i: Instr,
    form: Form,
    addr: u64,
    length: u8,
    names: &Variables,
) -> Result<Word, NoMemory>
    ensures { IfOk result (λ t.
        word_tree t ≡ terms.pc_after i form addr length (names_of names.now)) }
{
    match i {
        Instr::Jal { offset, .. } => Ok(Word::Const(plus_immediate(addr, offset))),
        Instr::Jalr { rs1, imm, .. } => {
            let a = sum(alloc, names, rs1, imm)?;
            bin(alloc, Op::And, a, Word::Const(0xffff_ffff_ffff_fffe))
        }
        Instr::Branch { offset, .. } => Ok(Word::Const(branch_target(form, addr, length, offset))),
        _ => Ok(Word::Const(next(addr, length))),
    }
}

/// Where a branch goes.
fn branch_target(form: Form, addr: u64, length: u8, offset: i32) -> u64
    ensures { result ≡ terms.branch_target form addr length offset }
{
    match form {
        Form::Next => next(addr, length),
        Form::Taken => plus_immediate(addr, offset),
    }
}
