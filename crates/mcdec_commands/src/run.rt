//! The command `run`.

ghost use Rattle.std.specs.Prelude.{◌≡◌, ℕ, List, [], All, IfOk, OnOk};
ghost use Rattle.elf_image.specs.Image.{IsPlaced, bytes_in, image_of, padded};
ghost use Rattle.mc_shelf.specs.Fault.{Rose};
ghost use Rattle.mc_shelf.specs.Shelf.{TellsName};
ghost use Rattle.rv_words.specs.Bytes.{bytes_from};
ghost use Rattle.rv_machine.specs.State.{state_of, with_bytes};
ghost use Rattle.mcdec_commands.specs.Answer.{Gives};
ghost use Rattle.mcdec_answers.specs.Command.{AreArgs, AreGiven, Arg, Given, IsMemory, value_of};
ghost use Rattle.mcdec_answers.specs.CommandReading.{Holds, HoldsArgs, IsReadRun};
ghost use Rattle.mcdec_commands.specs.RunAnswer.{IsLoaded, RunGives, state_given};
ghost use Rattle.mcdec_commands.specs.inner.Loading.{not_loaded};
ghost use Rattle.mcdec_commands.specs.inner.Running.{MachineGives, shown_with, with_placed};
ghost use Rattle.mcdec_commands.specs.inner.Shelves.{ReadsFiles};

use crate::load::{LoadFault, load_image, not_read};
use crate::memory::ranges_now;
use crate::places::starts_by_address;
use decompiler::address_of;
use elf_image::{Image, Piece, law_of_image};
use mc_shelf::Shelf;
use mcdec_answers::{Answer, Registers, Run, RunAnswer, Shown};
use rv_machine::{RunEnd, State};
use rv_words::{List, NoMemory, Range, Text};
use std::alloc::Global;

/// The answer to `run`.
pub fn answer_run<S: Shelf>(alloc: Global, r: &Run<'_>, shelf: &mut S) -> Answer
    requires { All IsMemory r.now.memory }
    ensures gives { (ws : List (List ℕ))
        → IsReadRun ws r.now
        → Gives (S.contents shelf.old) ws (Rose (S.read_faults shelf.old) (S.read_faults shelf.new))
        (Rose (S.write_faults shelf.old) (S.write_faults shelf.new)) result }

    ensures shelf { ReadsFiles S.contents S.read_faults S.write_faults S.IsSure
        (λ told. TellsName told r.now.elf.now) shelf.old shelf.new }
{
    let image = match load_image(alloc, shelf, r.elf) {
        Ok(image) => image,
        Err(fault) => return not_loaded(fault),
    };
    match run_loaded(alloc, image, r) {
        Ok(answer) => Answer::Run(answer),
        Err(NoMemory) => Answer::NoMemory,
    }
}

/// The answer where there is no image of the ELF file.
fn not_loaded(fault: LoadFault) -> Answer
    ensures { result
        ≡ not_loaded (Answer.Run RunAnswer.OverLimit) (λ why. Answer.Run (RunAnswer.Unreadable why))
        fault }
{
    match fault {
        LoadFault::Unread(end) => not_read(end, Answer::Run(RunAnswer::OverLimit)),
        LoadFault::Unreadable(why) => Answer::Run(RunAnswer::Unreadable(why)),
    }
}

/// The answer to `run` where this is the image of the ELF file.
fn run_loaded(alloc: Global, image: Image, r: &Run<'_>) -> Result<RunAnswer, NoMemory>
    requires { All IsMemory r.now.memory }
    ensures { (args : List Arg)
        → AreArgs args
        → HoldsArgs args r.now.given.values r.now.memory []
        → (file : List ℕ)
        → IsLoaded file
        → image ≡ image_of file
        → IfOk result (λ a. RunGives file r.now.start.now r.now.until r.now.steps args a) }
{
    match address_of(&image, r.start) {
        Ok(start) => run_image(alloc, image, start, r),
        Err(why) => {
            let start = Text::from_slice(alloc, r.start)?;
            Ok(RunAnswer::StartRefused(start, why))
        }
    }
}

/// The answer to `run` from an address of this image. It is let go before the run.
fn run_image(alloc: Global, image: Image, start: u64, r: &Run<'_>) -> Result<RunAnswer, NoMemory>
    requires { All IsMemory r.now.memory }
    ensures { (args : List Arg)
        → AreArgs args
        → HoldsArgs args r.now.given.values r.now.memory []
        → (file : List ℕ)
        → image ≡ image_of file
        → IfOk result (λ a.
        MachineGives r.now.until r.now.steps args (state_given file args start) a) }
{
    law_of_image(&image);
    let mut state = State::new(alloc, start);
    place_pieces(&mut state, image.pieces())?;
    drop(image);
    place_ranges(alloc, &mut state, r.memory.as_slice())?;
    set_registers(&mut state, &r.given);
    match state.run(r.until, r.steps) {
        RunEnd::Met(steps) => {
            let memory = ranges_now(alloc, state.memory(), r.memory.as_slice())?;
            let shown = shown(alloc, steps, &state, &r.given, memory)?;
            Ok(RunAnswer::Met(shown))
        }
        RunEnd::Stuck(steps, why) => Ok(RunAnswer::Stuck(steps, why)),
        RunEnd::Steps => Ok(RunAnswer::StepsUsed),
    }
}

/// Puts the pieces into memory, the last first.
fn place_pieces(state: &mut State, pieces: &[Piece]) -> Result<(), NoMemory>
    requires { All IsPlaced pieces.now }
    ensures { OnOk result (state_of state.new
        ≡ with_bytes (bytes_in pieces.now) (state_of state.old)) }
{
    let mut i = pieces.len();
    while i > 0 {
        i -= 1;
        place_piece(state, &pieces[i])?;
    }
    Ok(())
}

/// Puts a piece into memory: zeros, and the file's bytes over them.
fn place_piece(state: &mut State, piece: &Piece) -> Result<(), NoMemory>
    requires { IsPlaced piece.now }
    ensures { OnOk result (state_of state.new
        ≡ with_bytes (bytes_from piece.now.at (padded piece.now)) (state_of state.old)) }
{
    state.place_zeros(piece.at, piece.size)?;
    state.place(piece.at, piece.from.as_slice())
}

/// Puts the ranges into memory, one over the other. They are put there by address first, so that
/// none is put in front of another.
fn place_ranges(alloc: Global, state: &mut State, ranges: &[Range]) -> Result<(), NoMemory>
    requires { All IsMemory ranges.now }
    ensures { OnOk result (state_of state.new ≡ with_placed ranges.now (state_of state.old)) }
{
    place_rising(alloc, state, ranges)?;
    place_each(state, ranges)
}

/// Puts the ranges into memory by address. Where each is put over them afterwards, that makes no
/// difference.
fn place_rising(alloc: Global, state: &mut State, ranges: &[Range]) -> Result<(), NoMemory>
    requires { All IsMemory ranges.now }
    ensures { OnOk result (with_placed ranges.now (state_of state.new)
        ≡ with_placed ranges.now (state_of state.old)) }
{
    let starts = starts_by_address(alloc, ranges)?;
    for start in &starts {
        if let Some(range) = ranges.get(start.place) {
            state.place(range.at, range.bytes.as_slice())?;
        }
    }
    Ok(())
}

/// Puts the ranges into memory, one over the other.
fn place_each(state: &mut State, ranges: &[Range]) -> Result<(), NoMemory>
    requires { All IsMemory ranges.now }
    ensures { OnOk result (state_of state.new ≡ with_placed ranges.now (state_of state.old)) }
{
    for range in ranges {
        state.place(range.at, range.bytes.as_slice())?;
    }
    Ok(())
}

/// Gives the registers their values.
fn set_registers(state: &mut State, values: &Registers)
    ensures { (given : List Given)
        → AreGiven given
        → Holds given values.now.values
        → (state_of state.old).reg ≡ (λ r. 0)
        → state_of state.new ≡ record (state_of state.old) { reg = value_of given } }
{
    for register in 1..32 {
        state.set_reg(register, values.value(register));
    }
}

/// What is shown of a state after that many steps: the registers that were given a value or don't
/// hold 0.
fn shown(
    alloc: Global,
    count: u64,
    state: &State,
    values: &Registers,
    memory: List<Range>,
) -> Result<Shown, NoMemory>
    ensures { (given : List Given) → Holds given values.now.values
        → IfOk result (λ s. s ≡ shown_with given count (state_of state.now) memory) }
{
    let mut registers = List::new(alloc);
    let mut words = List::new(alloc);
    for register in 1..32 {
        let word = state.reg(register);
        if values.given(register).is_some() || word != 0 {
            registers.push(register)?;
            words.push(word)?;
        }
    }
    Ok(Shown {
        count,
        pc: state.pc(),
        registers,
        words,
        memory,
        stack: List::new(alloc),
    })
}
