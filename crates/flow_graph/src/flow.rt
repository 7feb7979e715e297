//! The instruction at an address, and where it leads: in a function alone, where a call is a fault,
//! or in one of several linked functions, which call each other by x1 and come back.

ghost use Rattle.std.specs.Prelude.{◌≡◌, ◌+◌, ◌<◌, ◌^◌, Some, None, if◌then◌else◌};
ghost use Rattle.rv_words.specs.Bytes.{away, inside, load};
ghost use Rattle.rvc.specs.Number.{number_in};
ghost use Rattle.elf_image.specs.Image.{code_in};
ghost use Rattle.flow_graph.specs.Flow as spec;
ghost use Rattle.flow_graph.specs.inner.Reached.{targets_of};

use crate::outside::Outside;
use elf_image::Image;
use rv_decode::Instr;
use rvc::{instruction_of, is_word, length_of};

/// Where an instruction leads.
#[derive(Clone, Copy)]
pub enum Targets {
    Nowhere,
    One(u64),
    Two(u64, u64),
}

/// The address of the instruction after one of that many bytes.
fn following(a: u64, length: u8) -> u64
    ensures { result ≡ away a length }
{
    a.wrapping_add(u64::from(length))
}

/// The target of a jump by an offset.
fn target(a: u64, offset: i32) -> u64
    ensures { result ≡ spec.target a offset }
{
    a.wrapping_add(i64::from(offset).cast_unsigned())
}

/// Whether it is the jump by which a function returns.
pub fn is_return(instruction: Instr) -> bool
    ensures { result ≡ spec.is_return instruction }
{
    match instruction {
        Instr::Jalr { rd, rs1, imm } => rd == 0 && rs1 == 1 && imm == 0,
        _ => false,
    }
}

/// Where an instruction of that many bytes leads from an address.
pub fn targets_at(a: u64, length: u8, instruction: Instr) -> Targets
    ensures { targets_of result ≡ spec.targets a length instruction }
{
    match instruction {
        Instr::Jal { rd, offset } => {
            if rd == 0 {
                Targets::One(target(a, offset))
            } else {
                Targets::One(following(a, length))
            }
        }
        Instr::Jalr { .. } => Targets::Nowhere,
        Instr::Branch { offset, .. } => Targets::Two(following(a, length), target(a, offset)),
        _ => Targets::One(following(a, length)),
    }
}

/// The function that an instruction at that address calls.
pub fn called_by(a: u64, instruction: Instr) -> Option<u64>
    ensures { result ≡ spec.called_by a instruction }
{
    match instruction {
        Instr::Jal { rd: 1, offset } => Some(target(a, offset)),
        _ => None,
    }
}

/// The instruction, if it may stand at that address in a function, one that is linked or one alone.
fn admitted(linked: bool, a: u64, instruction: Instr) -> Result<Instr, Outside>
    ensures { result ≡ spec.admitted linked a instruction }
{
    match instruction {
        Instr::Ecall => Err(Outside::Environment(a)),
        Instr::Ebreak => Err(Outside::Environment(a)),
        Instr::Jal { rd, .. } => {
            if !(rd == 0 || linked && rd == 1) {
                return Err(Outside::Call(a));
            }
            Ok(instruction)
        }
        Instr::Jalr { rd, .. } => {
            if rd != 0 {
                return Err(Outside::Call(a));
            }
            if !is_return(instruction) {
                return Err(Outside::JumpThrough(a));
            }
            Ok(instruction)
        }
        _ => Ok(instruction),
    }
}

/// The parcel or word of the code bytes from an address on, none of them past the last address.
#[tactic(auto, using(crate::proofs::FetchLemmas::no_parcel, crate::proofs::FetchLemmas::parcel_alone, crate::proofs::FetchLemmas::whole_word))]
pub fn number_at(image: &Image, a: u64) -> Option<u32>
    ensures { result ≡ number_in (code_in image.now.pieces) a }
{
    if a == u64::MAX {
        return None;
    }
    let parcel = parcel_at(image, a)?;
    if !is_word(parcel) {
        return Some(parcel);
    }
    image.word_at(a)
}

/// The number of the two code bytes from an address on, the low one first.
fn parcel_at(image: &Image, a: u64) -> Option<u32>
    requires { a + 1 < 2 ^ 64 }
    ensures { result
        ≡ if inside 2 (code_in image.now.pieces) a then Some (load 2 (code_in image.now.pieces) a)
        else None }
{
    let low = image.code_byte(a)?;
    let high = image.code_byte(a + 1)?;
    Some(u32::from(low) + 256 * u32::from(high))
}

/// How many bytes the instruction at an address has, where there is one.
pub fn length_at(image: &Image, a: u64) -> u8
    ensures { result ≡ spec.length_in (code_in image.now.pieces) a }
{
    match number_at(image, a) {
        Some(number) => length_of(number),
        None => length_of(0),
    }
}

/// The instruction at an address, or the address's fault. A call by x1 is one where functions are
/// linked, else a fault.
#[tactic(auto, unfolding(crate::specs::Flow::look))]
pub fn look(linked: bool, image: &Image, a: u64) -> Result<Instr, Outside>
    ensures { result ≡ spec.look linked (code_in image.now.pieces) a }
{
    if a % 2 != 0 {
        return Err(Outside::Misaligned(a, a));
    }
    match number_at(image, a) {
        None => Err(Outside::OutsideCode(a)),
        Some(w) => match instruction_of(w) {
            None => Err(Outside::NotDecoded(a, w)),
            Some(instruction) => admitted(linked, a, instruction),
        },
    }
}
