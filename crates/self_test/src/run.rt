//! The run of a program.

ghost use Rattle.std.specs.Prelude.{◌≡◌, ◌≤◌, IfOk};
ghost use Rattle.elf_image.specs.Image.{image_of};
ghost use Rattle.rv_machine.specs.State.{state_of};
ghost use Rattle.self_test.specs.Start.{begin, file_of, given};
ghost use Rattle.self_test.specs.Results.{Runs};

use code_gen::START;
use elf_image::Image;
use rv_machine::{RunEnd, State};
use rv_words::NoMemory;
use std::alloc::Global;

/// Where a program returns to.
const BEHIND: u64 = 0x20000;

/// More steps than any program makes.
const STEP_LIMIT: u64 = 1_048_575;

/// How the run of a program ended.
#[derive(Clone, Copy)]
pub struct Ran {
    pub steps: u64,
    /// What x10 held then.
    pub value: u64,
}

/// Runs a program until it returns.
pub fn run_program(alloc: Global, image: &Image, number: u64, size: u32) -> Result<Ran, NoMemory>
    requires size { size ≤ 600 }
    requires image { image.now ≡ image_of (file_of number size) }
    ensures { IfOk result (λ ran. Runs number size ran.steps ran.value) }
{
    let mut state = begin_program(alloc, image, number, size)?;
    match state.run(BEHIND, STEP_LIMIT) {
        RunEnd::Met(steps) => Ok(Ran {
            steps,
            value: state.reg(10),
        }),
        RunEnd::Stuck(..) | RunEnd::Steps => unreachable!(),
    }
}

/// The state in which a program begins.
fn begin_program(alloc: Global, image: &Image, number: u64, size: u32) -> Result<State, NoMemory>
    requires size { size ≤ 600 }
    requires image { image.now ≡ image_of (file_of number size) }
    ensures { IfOk result (λ state. state_of state ≡ begin number size) }
{
    let mut state = State::new(alloc, START);
    let piece = &image.pieces()[0];
    state.place(piece.at, piece.from.as_slice())?;
    state.set_reg(1, BEHIND);
    state.set_reg(10, number);
    state.set_reg(11, u64::from(size));
    Ok(state)
}

/// The word in a register where a program begins.
pub fn given(register: u8, number: u64, size: u32) -> u64
    ensures { result ≡ given number size register }
{
    match register {
        1 => BEHIND,
        10 => number,
        11 => u64::from(size),
        _ => 0,
    }
}
