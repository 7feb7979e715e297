//! The instruction that a word is in each kind of rows of the table.

ghost use Rattle.std.specs.Prelude.{◌≡◌};
ghost use Rattle.rv_decode.specs.Decodes as spec;
ghost use Rattle.rv_decode.specs.inner.Rows as inner;

use crate::fields::{
    amount, fence_bits, half_amount, immediate_b, immediate_i, immediate_j, immediate_s,
    immediate_u, rd, rs1, rs2,
};
use crate::instruction::Instr;
use rv_words::{Cmp, Op, Width};

/// An operation on two registers.
pub fn op(op: Op, w: u32) -> Instr
    ensures { result ≡ spec.op op w }
{
    Instr::Op {
        op,
        rd: rd(w),
        rs1: rs1(w),
        rs2: rs2(w),
    }
}

/// An operation on a register and the immediate of format I.
pub fn op_immediate(op: Op, w: u32) -> Instr
    ensures { result ≡ spec.op_immediate op w }
{
    Instr::OpImm {
        op,
        rd: rd(w),
        rs1: rs1(w),
        imm: immediate_i(w),
    }
}

/// A shift of a register by a fixed amount.
pub fn shift_immediate(op: Op, w: u32) -> Instr
    ensures { result ≡ spec.shift_immediate op w }
{
    Instr::OpImm {
        op,
        rd: rd(w),
        rs1: rs1(w),
        imm: amount(w),
    }
}

/// A shift of a register's low half by a fixed amount.
pub fn half_shift_immediate(op: Op, w: u32) -> Instr
    ensures { result ≡ spec.half_shift_immediate op w }
{
    Instr::OpImm {
        op,
        rd: rd(w),
        rs1: rs1(w),
        imm: half_amount(w),
    }
}

/// A load of the upper bits of format U.
pub fn lui(w: u32) -> Instr
    ensures { result ≡ inner.lui w }
{
    Instr::Lui {
        rd: rd(w),
        imm: immediate_u(w),
    }
}

/// A sum of the address and the upper bits of format U.
pub fn auipc(w: u32) -> Instr
    ensures { result ≡ inner.auipc w }
{
    Instr::Auipc {
        rd: rd(w),
        imm: immediate_u(w),
    }
}

/// A jump by the offset of format J.
pub fn jal(w: u32) -> Instr
    ensures { result ≡ inner.jal w }
{
    Instr::Jal {
        rd: rd(w),
        offset: immediate_j(w),
    }
}

/// A jump to a register plus the immediate of format I.
pub fn jalr(w: u32) -> Instr
    ensures { result ≡ inner.jalr w }
{
    Instr::Jalr {
        rd: rd(w),
        rs1: rs1(w),
        imm: immediate_i(w),
    }
}

/// A branch by the offset of format B.
pub fn branch(cmp: Cmp, w: u32) -> Instr
    ensures { result ≡ spec.branch cmp w }
{
    Instr::Branch {
        cmp,
        rs1: rs1(w),
        rs2: rs2(w),
        offset: immediate_b(w),
    }
}

/// A load from a register plus the immediate of format I.
pub fn load(width: Width, signed: bool, w: u32) -> Instr
    ensures { result ≡ spec.load width signed w }
{
    Instr::Load {
        width,
        signed,
        rd: rd(w),
        rs1: rs1(w),
        imm: immediate_i(w),
    }
}

/// A store to a register plus the immediate of format S.
pub fn store(width: Width, w: u32) -> Instr
    ensures { result ≡ spec.store width w }
{
    Instr::Store {
        width,
        rs1: rs1(w),
        rs2: rs2(w),
        imm: immediate_s(w),
    }
}

/// A fence with its fields.
pub fn fence(w: u32) -> Instr
    ensures { result ≡ inner.fence w }
{
    Instr::Fence {
        imm: fence_bits(w),
        rs1: rs1(w),
        rd: rd(w),
    }
}
