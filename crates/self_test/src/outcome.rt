//! What comes of a program that is drawn from a number.

ghost use Rattle.std.specs.Prelude.{◌≡◌, ◌≤◌, IfOk};
ghost use Rattle.elf_image.specs.Image.{image_of};
ghost use Rattle.decompiler.specs.Listing.{IsItemFor};
ghost use Rattle.self_test.specs.Start.{file_of, function_name};
ghost use Rattle.self_test.specs.Results.{IsOutcome};

use crate::evaluation::evaluate;
use crate::run::run_program;
use code_gen::{elf_file, program};
use decompiler::{DecompileFault, Item, decompile};
use elf_image::{ElfFault, Image, read};
use rv_words::{List, NoMemory, Text};
use std::alloc::Global;

/// What a program came to that was decompiled, run and evaluated.
#[derive(Clone, Copy, Debug, PartialEq, Eq)]
pub struct Outcome {
    /// How many instructions are reached.
    pub instructions: u32,
    /// How many definitions its function's group has.
    pub defs: u64,
    /// How many steps the machine makes until it returns.
    pub steps: u64,
    /// How many turns the evaluation takes.
    pub turns: u64,
    /// What x10 holds at the end of either.
    pub value: u64,
}

/// Decompiles the program that is drawn from a number, runs it until it returns, and evaluates its
/// function with twice as many turns as the run has steps.
pub fn self_test(alloc: Global, number: u64, size: u32) -> Result<Outcome, NoMemory>
    requires { size ≤ 600 }
    ensures { IfOk result (IsOutcome number size) }
{
    let image = drawn_image(alloc, number, size)?;
    let item = drawn_item(alloc, &image, number, size)?;
    let ran = run_program(alloc, &image, number, size)?;
    drop(image);
    let evaluated = evaluate(alloc, &item, number, size, &ran)?;
    Ok(Outcome {
        instructions: item.reached,
        defs: item.group.defs.len() as u64,
        steps: ran.steps,
        turns: evaluated.turns,
        value: evaluated.value,
    })
}

/// What the program's file puts into memory.
fn drawn_image(alloc: Global, number: u64, size: u32) -> Result<Image, NoMemory>
    requires { size ≤ 600 }
    ensures { IfOk result (λ image. image ≡ image_of (file_of number size)) }
{
    let words = program(alloc, number, size)?;
    let file = elf_file(alloc, &words)?;
    match read(alloc, file.as_slice()) {
        Ok(image) => Ok(image),
        Err(fault) => match fault {
            ElfFault::NoMemory => Err(NoMemory),
            _ => unreachable!(),
        },
    }
}

/// The item of the program's function.
fn drawn_item(alloc: Global, image: &Image, number: u64, size: u32) -> Result<Item, NoMemory>
    requires size { size ≤ 600 }
    requires image { image.now ≡ image_of (file_of number size) }
    ensures { IfOk result (IsItemFor (file_of number size) function_name) }
{
    let mut names = List::new(alloc);
    names.push(Text::from_slice(alloc, b"0x10000")?)?;
    match decompile(alloc, image, &names) {
        Ok(proof) => {
            let mut items = proof.items;
            match items.pop() {
                Some(item) => Ok(item),
                None => unreachable!(),
            }
        }
        Err(DecompileFault::NoMemory) => Err(NoMemory),
        Err(DecompileFault::Refused { .. }) => unreachable!(),
    }
}
