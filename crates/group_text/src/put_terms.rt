//! Printing terms.
#![tactic(auto, using(mc_text::proofs::Printed::prints))]

ghost use Rattle.std.specs.Prelude.{◌≡◌, OnOk};
ghost use Rattle.mc_text.specs.Printing.{Keeps, page, print};
ghost use Rattle.group_text.specs.TermSpelling.{cond_tokens, mem_tokens, range_tokens, word_tokens};
ghost use Rattle.word_terms.specs.Tree.{cond_tree, mem_tree, word_tree};

use crate::term_names::{
    name_of_comparison, name_of_extension, name_of_inside, name_of_load, name_of_operation,
    name_of_store,
};
use mc_text::Pen;
use rv_words::{NoMemory, Range};
use word_terms::{Cond, Mem, Word};

/// Prints a term for a word.
#[cycle(terms)]
pub fn put_word(pen: &mut Pen<'_>, t: &Word) -> Result<(), NoMemory>
    ensures ok { OnOk result (page pen.new ≡ print (word_tokens (word_tree t.now)) (page pen.old)) }
    ensures kept { Keeps (page pen.old) (page pen.new) }
{
    match t {
        Word::Const(n) => pen.hex(*n),
        Word::Var(i) => pen.numbered(b'v', *i),
        Word::Bin(op, a, b) => {
            pen.open(name_of_operation(*op))?;
            put_word(pen, a)?;
            put_word(pen, b)?;
            pen.right()
        }
        Word::Extend(ext, a) => {
            pen.open(name_of_extension(*ext))?;
            put_word(pen, a)?;
            pen.right()
        }
        Word::Load(width, m, a) => {
            pen.open(name_of_load(*width))?;
            put_mem(pen, m)?;
            put_word(pen, a)?;
            pen.right()
        }
    }
}

/// Prints a term for a memory.
#[cycle(terms)]
pub fn put_mem(pen: &mut Pen<'_>, t: &Mem) -> Result<(), NoMemory>
    ensures ok { OnOk result (page pen.new ≡ print (mem_tokens (mem_tree t.now)) (page pen.old)) }
    ensures kept { Keeps (page pen.old) (page pen.new) }
{
    match t {
        Mem::Var(i) => pen.numbered(b'm', *i),
        Mem::Store(width, m, a, v) => {
            pen.open(name_of_store(*width))?;
            put_mem(pen, m)?;
            put_word(pen, a)?;
            put_word(pen, v)?;
            pen.right()
        }
    }
}

/// Prints a condition.
pub fn put_cond(pen: &mut Pen<'_>, c: &Cond) -> Result<(), NoMemory>
    ensures ok { OnOk result (page pen.new ≡ print (cond_tokens (cond_tree c.now)) (page pen.old)) }
    ensures kept { Keeps (page pen.old) (page pen.new) }
{
    match c {
        Cond::Compare(cmp, a, b) => {
            pen.open(name_of_comparison(*cmp))?;
            put_word(pen, a)?;
            put_word(pen, b)?;
            pen.right()
        }
        Cond::Neg(c) => {
            pen.open(b"not")?;
            put_cond(pen, c)?;
            pen.right()
        }
        Cond::Inside(width, m, a) => {
            pen.open(name_of_inside(*width))?;
            put_mem(pen, m)?;
            put_word(pen, a)?;
            pen.right()
        }
    }
}

/// Prints a range of bytes.
pub fn put_range(pen: &mut Pen<'_>, range: &Range) -> Result<(), NoMemory>
    ensures ok { OnOk result (page pen.new ≡ print (range_tokens range.now) (page pen.old)) }
    ensures kept { Keeps (page pen.old) (page pen.new) }
{
    pen.left()?;
    pen.hex(range.at)?;
    pen.bytes(range.bytes.as_slice())?;
    pen.right()
}
