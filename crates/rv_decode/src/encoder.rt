//! From an instruction to its word.

ghost use Rattle.std.specs.Prelude.{◌≡◌, ◌<◌, ◌↔◌, ◌^◌, ℕ, IfSome, IsSome, IsTrue, Some};
ghost use Rattle.rv_decode.specs.Decodes.{Decodes, IsOneToOne};
ghost use Rattle.rv_decode.specs.Encodes as spec;
ghost use Rattle.rv_decode.specs.Ranges.{is_encodable as is_encodable_spec};

use crate::formats::{word_b, word_half_shift, word_i, word_j, word_r, word_s, word_shift, word_u};
use crate::instruction::Instr;
use crate::ranges::is_encodable;
use rv_words::{Cmp, Op, Width};

/// The word of an instruction, if all its fields are in their ranges.
pub fn encode(i: &Instr) -> Option<u32>
    ensures exactly { (w : ℕ) → (result ≡ Some w) ↔ ((w < 2 ^ 32) × Decodes w i.now) }
    ensures ranges { IsSome result ↔ IsTrue (is_encodable_spec i.now) }
    ensures value { result ≡ spec.encoded i.now }
    ensures one_to_one { IsOneToOne }
{
    encode_instruction(i)
}

/// The word of an instruction, if all its fields are in their ranges.
#[tactic(auto, unfolding(crate::specs::Encodes::encoded))]
fn encode_instruction(i: &Instr) -> Option<u32>
    ensures value { result ≡ spec.encoded i.now }
    ensures word { IfSome result (λ w. w < 2 ^ 32) }
{
    if is_encodable(i) {
        Some(word_of(*i))
    } else {
        None
    }
}

/// The word that the instruction's fields make.
fn word_of(i: Instr) -> u32
    ensures { result ≡ spec.word_of i }
{
    match i {
        Instr::Op { op, rd, rs1, rs2 } => op_word(op, rd, rs1, rs2),
        Instr::OpImm { op, rd, rs1, imm } => op_immediate_word(op, rd, rs1, imm.cast_unsigned()),
        Instr::Lui { rd, imm } => word_u(0x37, rd, imm),
        Instr::Auipc { rd, imm } => word_u(0x17, rd, imm),
        Instr::Jal { rd, offset } => word_j(0x6f, rd, offset.cast_unsigned()),
        Instr::Jalr { rd, rs1, imm } => word_i(0x67, 0, rd, rs1, imm.cast_unsigned()),
        Instr::Branch {
            cmp,
            rs1,
            rs2,
            offset,
        } => word_b(0x63, branch_funct3(cmp), rs1, rs2, offset.cast_unsigned()),
        Instr::Load {
            width,
            signed,
            rd,
            rs1,
            imm,
        } => word_i(
            0x03,
            load_funct3(width, signed),
            rd,
            rs1,
            imm.cast_unsigned(),
        ),
        Instr::Store {
            width,
            rs1,
            rs2,
            imm,
        } => word_s(0x23, width_funct3(width), rs1, rs2, imm.cast_unsigned()),
        Instr::Fence { imm, rs1, rd } => word_i(0x0f, 0, rd, rs1, imm),
        Instr::Ecall => word_i(0x73, 0, 0, 0, 0),
        Instr::Ebreak => word_i(0x73, 0, 0, 0, 1),
    }
}

/// The word of an operation on two registers.
fn op_word(op: Op, rd: u8, rs1: u8, rs2: u8) -> u32
    ensures { result ≡ spec.join (spec.op_fields op rd rs1 rs2) }
{
    match op {
        Op::Add => word_r(0x33, 0, 0, rd, rs1, rs2),
        Op::Sub => word_r(0x33, 0, 0x20, rd, rs1, rs2),
        Op::Sll => word_r(0x33, 1, 0, rd, rs1, rs2),
        Op::Slt => word_r(0x33, 2, 0, rd, rs1, rs2),
        Op::Sltu => word_r(0x33, 3, 0, rd, rs1, rs2),
        Op::Xor => word_r(0x33, 4, 0, rd, rs1, rs2),
        Op::Srl => word_r(0x33, 5, 0, rd, rs1, rs2),
        Op::Sra => word_r(0x33, 5, 0x20, rd, rs1, rs2),
        Op::Or => word_r(0x33, 6, 0, rd, rs1, rs2),
        Op::And => word_r(0x33, 7, 0, rd, rs1, rs2),
        Op::Mul => word_r(0x33, 0, 1, rd, rs1, rs2),
        Op::Mulh => word_r(0x33, 1, 1, rd, rs1, rs2),
        Op::Mulhsu => word_r(0x33, 2, 1, rd, rs1, rs2),
        Op::Mulhu => word_r(0x33, 3, 1, rd, rs1, rs2),
        Op::Div => word_r(0x33, 4, 1, rd, rs1, rs2),
        Op::Divu => word_r(0x33, 5, 1, rd, rs1, rs2),
        Op::Rem => word_r(0x33, 6, 1, rd, rs1, rs2),
        Op::Remu => word_r(0x33, 7, 1, rd, rs1, rs2),
        Op::Addw => word_r(0x3b, 0, 0, rd, rs1, rs2),
        Op::Subw => word_r(0x3b, 0, 0x20, rd, rs1, rs2),
        Op::Sllw => word_r(0x3b, 1, 0, rd, rs1, rs2),
        Op::Srlw => word_r(0x3b, 5, 0, rd, rs1, rs2),
        Op::Sraw => word_r(0x3b, 5, 0x20, rd, rs1, rs2),
        Op::Mulw => word_r(0x3b, 0, 1, rd, rs1, rs2),
        Op::Divw => word_r(0x3b, 4, 1, rd, rs1, rs2),
        Op::Divuw => word_r(0x3b, 5, 1, rd, rs1, rs2),
        Op::Remw => word_r(0x3b, 6, 1, rd, rs1, rs2),
        Op::Remuw => word_r(0x3b, 7, 1, rd, rs1, rs2),
    }
}

/// The word of an operation on a register and an immediate; 0 where the operation takes none.
fn op_immediate_word(op: Op, rd: u8, rs1: u8, number: u32) -> u32
    ensures { result ≡ spec.join (spec.op_immediate_fields op rd rs1 number) }
{
    match op {
        Op::Add => word_i(0x13, 0, rd, rs1, number),
        Op::Slt => word_i(0x13, 2, rd, rs1, number),
        Op::Sltu => word_i(0x13, 3, rd, rs1, number),
        Op::Xor => word_i(0x13, 4, rd, rs1, number),
        Op::Or => word_i(0x13, 6, rd, rs1, number),
        Op::And => word_i(0x13, 7, rd, rs1, number),
        Op::Sll => word_shift(0x13, 1, 0, rd, rs1, number),
        Op::Srl => word_shift(0x13, 5, 0, rd, rs1, number),
        Op::Sra => word_shift(0x13, 5, 0x10, rd, rs1, number),
        Op::Addw => word_i(0x1b, 0, rd, rs1, number),
        Op::Sllw => word_half_shift(0x1b, 1, 0, rd, rs1, number),
        Op::Srlw => word_half_shift(0x1b, 5, 0, rd, rs1, number),
        Op::Sraw => word_half_shift(0x1b, 5, 0x20, rd, rs1, number),
        _ => 0,
    }
}

/// The funct3 of a branch.
fn branch_funct3(cmp: Cmp) -> u32
    ensures { result ≡ spec.branch_funct3 cmp }
{
    match cmp {
        Cmp::Eq => 0,
        Cmp::Ne => 1,
        Cmp::Lt => 4,
        Cmp::Ge => 5,
        Cmp::Ltu => 6,
        Cmp::Geu => 7,
    }
}

/// The funct3 of a store, and of a load that extends the sign.
fn width_funct3(width: Width) -> u32
    ensures { result ≡ spec.width_funct3 width }
{
    match width {
        Width::B1 => 0,
        Width::B2 => 1,
        Width::B4 => 2,
        Width::B8 => 3,
    }
}

/// The funct3 of a load.
fn load_funct3(width: Width, signed: bool) -> u32
    ensures { result ≡ spec.load_funct3 width signed }
{
    if signed {
        width_funct3(width)
    } else {
        4 + width_funct3(width)
    }
}
