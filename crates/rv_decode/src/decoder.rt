//! From a word to its instruction: the opcode first, then the other fixed bits.

ghost use Rattle.std.specs.Prelude.{◌≡◌, ◌↔◌, IfSome, IsTrue, Some};
ghost use Rattle.rv_decode.specs.Fields.{funct3 as funct3_of, funct7 as funct7_of, opcode as opcode_of};
ghost use Rattle.rv_decode.specs.Decodes.{Decodes, NamesRegisters, decoded};
ghost use Rattle.rv_decode.specs.Ranges.{is_encodable};

use crate::fields::{funct3, funct6, funct7, opcode};
use crate::instruction::Instr;
use crate::rows::{
    auipc, branch, fence, half_shift_immediate, jal, jalr, load, lui, op, op_immediate,
    shift_immediate, store,
};
use rv_words::{Cmp, Op, Width};

/// The instruction that a word is, if it is one.
pub fn decode(w: u32) -> Option<Instr>
    ensures exactly { (i : Instr) → (result ≡ Some i) ↔ Decodes w i }
    ensures value { result ≡ decoded w }
    ensures registers { IfSome result NamesRegisters }
    ensures ranges { IfSome result (λ i. IsTrue (is_encodable i)) }
{
    decode_word(w)
}

/// The instruction that a word is: the opcode tells which format it has.
fn decode_word(w: u32) -> Option<Instr>
    ensures { result ≡ decoded w }
{
    match opcode(w) {
        0x03 => decode_load(w),
        0x0f => decode_fence(w),
        0x13 => decode_op_immediate(w),
        0x17 => Some(auipc(w)),
        0x1b => decode_half_op_immediate(w),
        0x23 => decode_store(w),
        0x33 => decode_op(w),
        0x37 => Some(lui(w)),
        0x3b => decode_half_op(w),
        0x63 => decode_branch(w),
        0x67 => decode_jalr(w),
        0x6f => Some(jal(w)),
        0x73 => decode_system(w),
        _ => None,
    }
}

/// A word with the opcode of loads.
fn decode_load(w: u32) -> Option<Instr>
    requires { opcode_of w ≡ 0x03 }
    ensures { result ≡ decoded w }
{
    match funct3(w) {
        0 => Some(load(Width::B1, true, w)),
        1 => Some(load(Width::B2, true, w)),
        2 => Some(load(Width::B4, true, w)),
        3 => Some(load(Width::B8, true, w)),
        4 => Some(load(Width::B1, false, w)),
        5 => Some(load(Width::B2, false, w)),
        6 => Some(load(Width::B4, false, w)),
        _ => None,
    }
}

/// A word with the opcode of fences.
fn decode_fence(w: u32) -> Option<Instr>
    requires { opcode_of w ≡ 0x0f }
    ensures { result ≡ decoded w }
{
    match funct3(w) {
        0 => Some(fence(w)),
        _ => None,
    }
}

/// A word with the opcode of operations on a register and an immediate.
fn decode_op_immediate(w: u32) -> Option<Instr>
    requires { opcode_of w ≡ 0x13 }
    ensures { result ≡ decoded w }
{
    match funct3(w) {
        0 => Some(op_immediate(Op::Add, w)),
        1 => decode_left_shift(w),
        2 => Some(op_immediate(Op::Slt, w)),
        3 => Some(op_immediate(Op::Sltu, w)),
        4 => Some(op_immediate(Op::Xor, w)),
        5 => decode_right_shift(w),
        6 => Some(op_immediate(Op::Or, w)),
        _ => Some(op_immediate(Op::And, w)),
    }
}

/// A word with the opcode of operations on a register and an immediate, and the funct3 of a left
/// shift.
fn decode_left_shift(w: u32) -> Option<Instr>
    requires opcode { opcode_of w ≡ 0x13 }
    requires funct3 { funct3_of w ≡ 1 }
    ensures { result ≡ decoded w }
{
    match funct6(w) {
        0 => Some(shift_immediate(Op::Sll, w)),
        _ => None,
    }
}

/// A word with the opcode of operations on a register and an immediate, and the funct3 of a right
/// shift.
fn decode_right_shift(w: u32) -> Option<Instr>
    requires opcode { opcode_of w ≡ 0x13 }
    requires funct3 { funct3_of w ≡ 5 }
    ensures { result ≡ decoded w }
{
    match funct6(w) {
        0 => Some(shift_immediate(Op::Srl, w)),
        0x10 => Some(shift_immediate(Op::Sra, w)),
        _ => None,
    }
}

/// A word with the opcode of operations on the low half of a register and an immediate.
fn decode_half_op_immediate(w: u32) -> Option<Instr>
    requires { opcode_of w ≡ 0x1b }
    ensures { result ≡ decoded w }
{
    match funct3(w) {
        0 => Some(op_immediate(Op::Addw, w)),
        1 => decode_half_left_shift(w),
        5 => decode_half_right_shift(w),
        _ => None,
    }
}

/// A word with the opcode of operations on the low half of a register and an immediate, and the
/// funct3 of a left shift.
fn decode_half_left_shift(w: u32) -> Option<Instr>
    requires opcode { opcode_of w ≡ 0x1b }
    requires funct3 { funct3_of w ≡ 1 }
    ensures { result ≡ decoded w }
{
    match funct7(w) {
        0 => Some(half_shift_immediate(Op::Sllw, w)),
        _ => None,
    }
}

/// A word with the opcode of operations on the low half of a register and an immediate, and the
/// funct3 of a right shift.
fn decode_half_right_shift(w: u32) -> Option<Instr>
    requires opcode { opcode_of w ≡ 0x1b }
    requires funct3 { funct3_of w ≡ 5 }
    ensures { result ≡ decoded w }
{
    match funct7(w) {
        0 => Some(half_shift_immediate(Op::Srlw, w)),
        0x20 => Some(half_shift_immediate(Op::Sraw, w)),
        _ => None,
    }
}

/// A word with the opcode of stores.
fn decode_store(w: u32) -> Option<Instr>
    requires { opcode_of w ≡ 0x23 }
    ensures { result ≡ decoded w }
{
    match funct3(w) {
        0 => Some(store(Width::B1, w)),
        1 => Some(store(Width::B2, w)),
        2 => Some(store(Width::B4, w)),
        3 => Some(store(Width::B8, w)),
        _ => None,
    }
}

/// A word with the opcode of operations on two registers.
fn decode_op(w: u32) -> Option<Instr>
    requires { opcode_of w ≡ 0x33 }
    ensures { result ≡ decoded w }
{
    match funct7(w) {
        0 => decode_op_0(w),
        1 => decode_op_1(w),
        0x20 => decode_op_20(w),
        _ => None,
    }
}

/// A word with the opcode of operations on two registers and the funct7 0.
fn decode_op_0(w: u32) -> Option<Instr>
    requires opcode { opcode_of w ≡ 0x33 }
    requires funct7 { funct7_of w ≡ 0 }
    ensures { result ≡ decoded w }
{
    match funct3(w) {
        0 => Some(op(Op::Add, w)),
        1 => Some(op(Op::Sll, w)),
        2 => Some(op(Op::Slt, w)),
        3 => Some(op(Op::Sltu, w)),
        4 => Some(op(Op::Xor, w)),
        5 => Some(op(Op::Srl, w)),
        6 => Some(op(Op::Or, w)),
        _ => Some(op(Op::And, w)),
    }
}

/// A word with the opcode of operations on two registers and the funct7 1: multiplication and
/// division.
fn decode_op_1(w: u32) -> Option<Instr>
    requires opcode { opcode_of w ≡ 0x33 }
    requires funct7 { funct7_of w ≡ 1 }
    ensures { result ≡ decoded w }
{
    match funct3(w) {
        0 => Some(op(Op::Mul, w)),
        1 => Some(op(Op::Mulh, w)),
        2 => Some(op(Op::Mulhsu, w)),
        3 => Some(op(Op::Mulhu, w)),
        4 => Some(op(Op::Div, w)),
        5 => Some(op(Op::Divu, w)),
        6 => Some(op(Op::Rem, w)),
        _ => Some(op(Op::Remu, w)),
    }
}

/// A word with the opcode of operations on two registers and the funct7 0x20.
fn decode_op_20(w: u32) -> Option<Instr>
    requires opcode { opcode_of w ≡ 0x33 }
    requires funct7 { funct7_of w ≡ 0x20 }
    ensures { result ≡ decoded w }
{
    match funct3(w) {
        0 => Some(op(Op::Sub, w)),
        5 => Some(op(Op::Sra, w)),
        _ => None,
    }
}

/// A word with the opcode of operations on the low halves of two registers.
fn decode_half_op(w: u32) -> Option<Instr>
    requires { opcode_of w ≡ 0x3b }
    ensures { result ≡ decoded w }
{
    match funct7(w) {
        0 => decode_half_op_0(w),
        1 => decode_half_op_1(w),
        0x20 => decode_half_op_20(w),
        _ => None,
    }
}

/// A word with the opcode of operations on the low halves of two registers and the funct7 0.
fn decode_half_op_0(w: u32) -> Option<Instr>
    requires opcode { opcode_of w ≡ 0x3b }
    requires funct7 { funct7_of w ≡ 0 }
    ensures { result ≡ decoded w }
{
    match funct3(w) {
        0 => Some(op(Op::Addw, w)),
        1 => Some(op(Op::Sllw, w)),
        5 => Some(op(Op::Srlw, w)),
        _ => None,
    }
}

/// A word with the opcode of operations on the low halves of two registers and the funct7 1:
/// multiplication and division.
fn decode_half_op_1(w: u32) -> Option<Instr>
    requires opcode { opcode_of w ≡ 0x3b }
    requires funct7 { funct7_of w ≡ 1 }
    ensures { result ≡ decoded w }
{
    match funct3(w) {
        0 => Some(op(Op::Mulw, w)),
        4 => Some(op(Op::Divw, w)),
        5 => Some(op(Op::Divuw, w)),
        6 => Some(op(Op::Remw, w)),
        7 => Some(op(Op::Remuw, w)),
        _ => None,
    }
}

/// A word with the opcode of operations on the low halves of two registers and the funct7 0x20.
fn decode_half_op_20(w: u32) -> Option<Instr>
    requires opcode { opcode_of w ≡ 0x3b }
    requires funct7 { funct7_of w ≡ 0x20 }
    ensures { result ≡ decoded w }
{
    match funct3(w) {
        0 => Some(op(Op::Subw, w)),
        5 => Some(op(Op::Sraw, w)),
        _ => None,
    }
}

/// A word with the opcode of branches.
fn decode_branch(w: u32) -> Option<Instr>
    requires { opcode_of w ≡ 0x63 }
    ensures { result ≡ decoded w }
{
    match funct3(w) {
        0 => Some(branch(Cmp::Eq, w)),
        1 => Some(branch(Cmp::Ne, w)),
        4 => Some(branch(Cmp::Lt, w)),
        5 => Some(branch(Cmp::Ge, w)),
        6 => Some(branch(Cmp::Ltu, w)),
        7 => Some(branch(Cmp::Geu, w)),
        _ => None,
    }
}

/// A word with the opcode of JALR.
fn decode_jalr(w: u32) -> Option<Instr>
    requires { opcode_of w ≡ 0x67 }
    ensures { result ≡ decoded w }
{
    match funct3(w) {
        0 => Some(jalr(w)),
        _ => None,
    }
}

/// A word with the opcode of calls of the environment: one of two words.
fn decode_system(w: u32) -> Option<Instr>
    requires { opcode_of w ≡ 0x73 }
    ensures { result ≡ decoded w }
{
    match w {
        0x0000_0073 => Some(Instr::Ecall),
        0x0010_0073 => Some(Instr::Ebreak),
        _ => None,
    }
}
