//! What is told of a definition, each by a function of its own.

ghost use Rattle.std.specs.Prelude.{◌≡◌, ◌++◌, IfOk};
ghost use Rattle.std.specs.Fmt.{decimal};
ghost use Rattle.smt_export.specs.Told.{fun_name, told_name, told_sort};

use mc_text::{put_atom, put_dec};
use rv_words::{List, NoMemory, Text};
use smt_terms::Sort;
use std::alloc::Global;

/// What a function tells of an evaluation: whether it is done, by which exit, with which program
/// counter, the word of that number, and the bytes and the domain of the memory of that number.
#[derive(Clone, Copy, Debug, PartialEq, Eq)]
pub enum Told {
    Ok,
    ExitNumber,
    Pc,
    WordAt(usize),
    MemAt(usize),
    DomAt(usize),
}

/// The name of the function of a definition that tells this.
pub fn fun_name(alloc: Global, def: usize, told: Told) -> Result<Text, NoMemory>
    ensures { IfOk result (λ name. name ≡ fun_name def told) }
{
    let end = told_name(alloc, told)?;
    let mut name = numbered_name(alloc, b"f", def)?;
    put_atom(&mut name, end.as_slice())?;
    Ok(name)
}

fn told_name(alloc: Global, told: Told) -> Result<Text, NoMemory>
    ensures { IfOk result (λ name. name ≡ told_name told) }
{
    match told {
        Told::Ok => List::from_slice(alloc, b"_ok"),
        Told::ExitNumber => List::from_slice(alloc, b"_exit"),
        Told::Pc => List::from_slice(alloc, b"_pc"),
        Told::WordAt(i) => numbered_name(alloc, b"_w", i),
        Told::MemAt(i) => numbered_name(alloc, b"_m", i),
        Told::DomAt(i) => numbered_name(alloc, b"_d", i),
    }
}

/// Letters and a number.
pub fn numbered_name(alloc: Global, letters: &[u8], n: usize) -> Result<Text, NoMemory>
    ensures { IfOk result (λ name. name ≡ letters.now ++ decimal n) }
{
    let mut name = List::new(alloc);
    put_atom(&mut name, letters)?;
    put_dec(&mut name, n as u64)?;
    Ok(name)
}

/// The sort of what is told.
pub fn told_sort(told: Told) -> Sort
    ensures { result ≡ told_sort told }
{
    match told {
        Told::Ok => Sort::Bool,
        Told::ExitNumber => Sort::Bits(32),
        Told::Pc => Sort::Bits(64),
        Told::WordAt(_) => Sort::Bits(64),
        Told::MemAt(_) => Sort::Array(8),
        Told::DomAt(_) => Sort::Array(1),
    }
}
