//! Pieces of code that are drawn, one after another.

ghost use Rattle.std.specs.Prelude.{◌≡◌, ◌+◌, ◌*◌, ◌++◌, ◌∷◌, [], ◌≤◌, ◌<◌, IfOk, IsTrue, OnOk, map};
ghost use Rattle.rv_decode.specs.Encodes.{word_of};
ghost use Rattle.rv_decode.specs.Ranges.{is_encodable};
ghost use Rattle.rv_decode.specs.declared.instruction.Instr.TheVariants.{OpImm};
ghost use Rattle.code_gen.specs.Pieces.{drawn};
ghost use Rattle.code_gen.specs.Program as program;
ghost use Rattle.code_gen.specs.Program.{choosing, loop_end, program_of};
ghost use Rattle.code_gen.specs.inner.Written.{drawn_loop, with_drawn};

use crate::draws::Draws;
use rv_decode::{Instr, encode};
use rv_words::{Cmp, List, NoMemory, Op};
use std::alloc::Global;

/// The words of a program that is drawn from a number. It works on x10 with x11 and returns to x1;
/// of the other registers it changes x12 to x16 alone.
pub fn program(alloc: Global, number: u64, size: u32) -> Result<List<u32>, NoMemory>
    requires { size ≤ 600 }
    ensures { IfOk result (λ words. words ≡ program_of number size) }
{
    let mut draws = Draws { seed: number };
    let mut words = List::new(alloc);
    add_pieces(&mut words, &mut draws, size, 0)?;
    let back = Instr::Jalr {
        rd: 0,
        rs1: 1,
        imm: 0,
    };
    add_instruction(&mut words, back)?;
    Ok(words)
}

/// Adds code of that size, which stands in so many loops.
#[cycle(pieces)]
fn add_pieces(
    words: &mut List<u32>,
    draws: &mut Draws,
    size: u32,
    depth: u8,
) -> Result<(), NoMemory>
    requires size { size ≤ 600 }
    requires depth { depth ≤ 4 }
    ensures words { OnOk result (words.new
        ≡ with_drawn words.old depth (drawn size depth draws.old.seed)) }
    ensures seed { OnOk result (draws.new.seed ≡ (drawn size depth draws.old.seed).seed) }
{
    let mut left = size;
    while left > 0 {
        left = add_piece(words, draws, left, depth)?;
    }
    Ok(())
}

/// Adds the first piece of code of that size, and tells the size that is left.
#[cycle(pieces)]
fn add_piece(
    words: &mut List<u32>,
    draws: &mut Draws,
    size: u32,
    depth: u8,
) -> Result<u32, NoMemory>
    requires size { (0 < size) × (size ≤ 600) }
    requires depth { depth ≤ 4 }
    ensures left { IfOk result (λ left. left < size) }
    ensures words { IfOk result (λ left.
        with_drawn words.new depth (drawn left depth draws.new.seed)
        ≡ with_drawn words.old depth (drawn size depth draws.old.seed)) }
    ensures seed { IfOk result (λ left.
        (drawn left depth draws.new.seed).seed ≡ (drawn size depth draws.old.seed).seed) }
{
    let drawn = draws.draw(4);
    if drawn == 2 && size >= 3 {
        add_choice(words, size)?;
        Ok(size - 3)
    } else if drawn == 3 && size >= 3 && depth < 4 {
        add_loop(words, draws, size, depth)
    } else if drawn == 1 {
        add_instruction(words, mixing())?;
        Ok(size - 1)
    } else {
        add_instruction(words, adding(size))?;
        Ok(size - 1)
    }
}

/// Adds a loop with its body, and tells the size that is left.
#[cycle(pieces)]
fn add_loop(words: &mut List<u32>, draws: &mut Draws, size: u32, depth: u8) -> Result<u32, NoMemory>
    requires size { (3 ≤ size) × (size ≤ 600) }
    requires depth { depth < 4 }
    ensures left { IfOk result (λ left. left < size) }
    ensures words { IfOk result (λ left.
        with_drawn words.new depth (drawn left depth draws.new.seed)
        ≡ with_drawn words.old depth (drawn_loop size depth draws.old.seed)) }
    ensures seed { IfOk result (λ left.
        (drawn left depth draws.new.seed).seed ≡ (drawn_loop size depth draws.old.seed).seed) }
{
    let turns = 1 + draws.draw(4);
    let body = 1 + draws.draw((size - 2).min(64));
    add_instruction(words, counting(depth, turns))?;
    let start = words.len();
    add_pieces(words, draws, body, depth + 1)?;
    let length = words.len() - start;
    add_loop_end(words, depth, length)?;
    Ok(size - (body + 2))
}

/// Adds what stands behind a loop's body of that length: the counter falls, and as long as it isn't
/// 0 the body comes again.
fn add_loop_end(words: &mut List<u32>, depth: u8, length: usize) -> Result<(), NoMemory>
    requires depth { depth < 4 }
    requires length { length ≤ 110 }
    ensures { OnOk result (words.new ≡ words.old ++ map word_of (loop_end depth length)) }
{
    let counter = counter(depth);
    add_instruction(words, immediate(Op::Add, counter, counter, -1))?;
    let back = Instr::Branch {
        cmp: Cmp::Ne,
        rs1: counter,
        rs2: 0,
        offset: -4 * (length as i32 + 1),
    };
    add_instruction(words, back)
}

/// Adds a choice: a number is added where x10 is odd, and else x11 is mixed in.
fn add_choice(words: &mut List<u32>, number: u32) -> Result<(), NoMemory>
    requires { number ≤ 600 }
    ensures { OnOk result (words.new ≡ words.old ++ map word_of (choosing number)) }
{
    add_instruction(words, immediate(Op::And, 16, 10, 1))?;
    let skip = Instr::Branch {
        cmp: Cmp::Eq,
        rs1: 16,
        rs2: 0,
        offset: 12,
    };
    add_instruction(words, skip)?;
    add_instruction(words, adding(number))?;
    add_instruction(words, Instr::Jal { rd: 0, offset: 8 })?;
    add_instruction(words, mixing())
}

/// The register that counts the turns of a loop in so many loops.
fn counter(depth: u8) -> u8
    requires { depth < 4 }
    ensures { result ≡ 12 + depth }
{
    12 + depth
}

/// `addi xC,x0,turns`
fn counting(depth: u8, turns: u32) -> Instr
    requires depth { depth < 4 }
    requires turns { turns ≤ 4 }
    ensures { result ≡ program.counting depth turns }
{
    immediate(Op::Add, counter(depth), 0, turns as i32)
}

/// `addi x10,x10,number`
fn adding(number: u32) -> Instr
    requires { number ≤ 600 }
    ensures { result ≡ program.adding number }
{
    immediate(Op::Add, 10, 10, number as i32)
}

/// `xor x10,x10,x11`
fn mixing() -> Instr
    ensures { result ≡ program.mixing }
{
    Instr::Op {
        op: Op::Xor,
        rd: 10,
        rs1: 10,
        rs2: 11,
    }
}

fn immediate(op: Op, rd: u8, rs1: u8, imm: i32) -> Instr
    ensures { result ≡ OpImm op rd rs1 imm }
{
    Instr::OpImm { op, rd, rs1, imm }
}

/// Adds an instruction's word.
#[tactic(auto, unfolding(rv_decode::specs::Encodes::encoded))]
fn add_instruction(words: &mut List<u32>, i: Instr) -> Result<(), NoMemory>
    requires { IsTrue (is_encodable i) }
    ensures { OnOk result (words.new ≡ words.old ++ word_of i ∷ []) }
{
    match encode(&i) {
        Some(word) => words.push(word),
        None => unreachable!(),
    }
}
