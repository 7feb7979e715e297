//! The ranges of an instruction's fields.

ghost use Rattle.std.specs.Prelude.{◌≡◌};
ghost use Rattle.rv_decode.specs.Ranges as spec;

use crate::instruction::Instr;
use rv_words::{Op, Width};

/// Whether all fields are in their ranges.
pub fn is_encodable(i: &Instr) -> bool
    ensures { result ≡ spec.is_encodable i.now }
{
    match *i {
        Instr::Op { rd, rs1, rs2, .. } => is_register(rd) && is_register(rs1) && is_register(rs2),
        Instr::OpImm { op, rd, rs1, imm } => is_register(rd)
            && is_register(rs1)
            && takes_immediate(op, imm),
        Instr::Lui { rd, imm } | Instr::Auipc { rd, imm } => is_register(rd) && imm < 1_048_576,
        Instr::Jal { rd, offset } => is_register(rd) && is_jump_offset(offset),
        Instr::Jalr { rd, rs1, imm } => is_register(rd) && is_register(rs1) && is_immediate(imm),
        Instr::Branch {
            rs1,
            rs2,
            offset,
            ..
        } => is_register(rs1) && is_register(rs2) && is_branch_offset(offset),
        Instr::Load {
            width,
            signed,
            rd,
            rs1,
            imm,
        } => may_load(width, signed) && is_register(rd) && is_register(rs1) && is_immediate(imm),
        Instr::Store { rs1, rs2, imm, .. } => is_register(rs1)
            && is_register(rs2)
            && is_immediate(imm),
        Instr::Fence { imm, rs1, rd } => imm < 4096 && is_register(rs1) && is_register(rd),
        Instr::Ecall | Instr::Ebreak => true,
    }
}

/// Whether the operation has a form with that immediate.
fn takes_immediate(op: Op, imm: i32) -> bool
    ensures { result ≡ spec.takes_immediate op imm }
{
    match op {
        Op::Add | Op::Slt | Op::Sltu | Op::Xor | Op::Or | Op::And | Op::Addw => is_immediate(imm),
        Op::Sll | Op::Srl | Op::Sra => 0 <= imm && imm < 64,
        Op::Sllw | Op::Srlw | Op::Sraw => 0 <= imm && imm < 32,
        _ => false,
    }
}

/// Whether a load of that width may have that extension.
fn may_load(width: Width, signed: bool) -> bool
    ensures { result ≡ spec.may_load width signed }
{
    match width {
        Width::B8 => signed,
        _ => true,
    }
}

fn is_register(number: u8) -> bool
    ensures { result ≡ spec.is_register number }
{
    number < 32
}

/// Whether it is an immediate of format I or S.
fn is_immediate(imm: i32) -> bool
    ensures { result ≡ spec.has_bits 12 imm }
{
    -2048 <= imm && imm < 2048
}

/// Whether it is an offset of format B.
fn is_branch_offset(offset: i32) -> bool
    ensures { result ≡ spec.is_offset 13 offset }
{
    -4096 <= offset && offset < 4096 && offset % 2 == 0
}

/// Whether it is an offset of format J.
fn is_jump_offset(offset: i32) -> bool
    ensures { result ≡ spec.is_offset 21 offset }
{
    -1_048_576 <= offset && offset < 1_048_576 && offset % 2 == 0
}
