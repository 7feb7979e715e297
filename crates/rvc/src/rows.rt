//! The instruction that a compressed number is in each row of the table, or in each kind of rows.

ghost use Rattle.std.specs.Prelude.{◌≡◌, ◌%◌, ◌^◌, pos, true};
ghost use Rattle.rv_words.specs.Operation.{word_of};
ghost use Rattle.rv_words.specs.declared.operation.Op.TheVariants.{Add, Sll, And};
ghost use Rattle.rv_words.specs.declared.width.Width.TheVariants.{B4, B8};
ghost use Rattle.rv_decode.specs.declared.instruction.Instr.TheVariants as instr;
ghost use Rattle.rvc.specs.Parcel as field;
ghost use Rattle.rvc.specs.Expands as spec;

use crate::parcel::{
    branch_offset, immediate, jump_offset, offset_4, offset_8, rd, rs1_short, rs2, rs2_short,
    shift_amount, stack_addend, stack_load_4, stack_load_8, stack_step, stack_store_4,
    stack_store_8, upper_immediate,
};
use rv_decode::Instr;
use rv_words::{Cmp, Op, Width};

/// C.ADDI4SPN.
pub fn stack_address(h: u16) -> Instr
    ensures { result ≡ instr.OpImm Add (field.rs2_short h) 2 (pos (field.stack_addend h)) }
{
    Instr::OpImm {
        op: Op::Add,
        rd: rs2_short(h),
        rs1: 2,
        imm: i32::from(stack_addend(h)),
    }
}

/// C.LW.
pub fn load_4(h: u16) -> Instr
    ensures { result
        ≡ instr.Load B4 true (field.rs2_short h) (field.rs1_short h) (field.offset_4 h) }
{
    load(Width::B4, rs2_short(h), rs1_short(h), offset_4(h))
}

/// C.LD.
pub fn load_8(h: u16) -> Instr
    ensures { result
        ≡ instr.Load B8 true (field.rs2_short h) (field.rs1_short h) (field.offset_8 h) }
{
    load(Width::B8, rs2_short(h), rs1_short(h), offset_8(h))
}

/// C.LWSP.
pub fn load_4_from_stack(h: u16) -> Instr
    ensures { result ≡ instr.Load B4 true (field.rd h) 2 (field.stack_load_4 h) }
{
    load(Width::B4, rd(h), 2, stack_load_4(h))
}

/// C.LDSP.
pub fn load_8_from_stack(h: u16) -> Instr
    ensures { result ≡ instr.Load B8 true (field.rd h) 2 (field.stack_load_8 h) }
{
    load(Width::B8, rd(h), 2, stack_load_8(h))
}

/// A load that extends the sign.
fn load(width: Width, rd: u8, rs1: u8, imm: i32) -> Instr
    ensures { result ≡ instr.Load width true rd rs1 imm }
{
    Instr::Load {
        width,
        signed: true,
        rd,
        rs1,
        imm,
    }
}

/// C.SW.
pub fn store_4(h: u16) -> Instr
    ensures { result ≡ instr.Store B4 (field.rs1_short h) (field.rs2_short h) (field.offset_4 h) }
{
    store(Width::B4, rs1_short(h), rs2_short(h), offset_4(h))
}

/// C.SD.
pub fn store_8(h: u16) -> Instr
    ensures { result ≡ instr.Store B8 (field.rs1_short h) (field.rs2_short h) (field.offset_8 h) }
{
    store(Width::B8, rs1_short(h), rs2_short(h), offset_8(h))
}

/// C.SWSP.
pub fn store_4_to_stack(h: u16) -> Instr
    ensures { result ≡ instr.Store B4 2 (field.rs2 h) (field.stack_store_4 h) }
{
    store(Width::B4, 2, rs2(h), stack_store_4(h))
}

/// C.SDSP.
pub fn store_8_to_stack(h: u16) -> Instr
    ensures { result ≡ instr.Store B8 2 (field.rs2 h) (field.stack_store_8 h) }
{
    store(Width::B8, 2, rs2(h), stack_store_8(h))
}

fn store(width: Width, rs1: u8, rs2: u8, imm: i32) -> Instr
    ensures { result ≡ instr.Store width rs1 rs2 imm }
{
    Instr::Store {
        width,
        rs1,
        rs2,
        imm,
    }
}

/// C.NOP and C.ADDI, and C.ADDIW: an operation on a register and the immediate.
pub fn op_immediate(op: Op, h: u16) -> Instr
    ensures { result ≡ instr.OpImm op (field.rd h) (field.rd h) (field.immediate h) }
{
    Instr::OpImm {
        op,
        rd: rd(h),
        rs1: rd(h),
        imm: immediate(h),
    }
}

/// C.LI.
pub fn constant(h: u16) -> Instr
    ensures { result ≡ instr.OpImm Add (field.rd h) 0 (field.immediate h) }
{
    Instr::OpImm {
        op: Op::Add,
        rd: rd(h),
        rs1: 0,
        imm: immediate(h),
    }
}

/// C.ADDI16SP.
pub fn move_stack(h: u16) -> Instr
    ensures { result ≡ instr.OpImm Add 2 2 (field.stack_step h) }
{
    Instr::OpImm {
        op: Op::Add,
        rd: 2,
        rs1: 2,
        imm: stack_step(h),
    }
}

/// C.LUI.
pub fn upper(h: u16) -> Instr
    ensures { result ≡ instr.Lui (field.rd h) (word_of (field.immediate h) % 2 ^ 20) }
{
    Instr::Lui {
        rd: rd(h),
        imm: upper_immediate(h),
    }
}

/// C.SRLI and C.SRAI.
pub fn right_shift(op: Op, h: u16) -> Instr
    ensures { result
        ≡ instr.OpImm op (field.rs1_short h) (field.rs1_short h) (field.shift_amount h) }
{
    Instr::OpImm {
        op,
        rd: rs1_short(h),
        rs1: rs1_short(h),
        imm: shift_amount(h),
    }
}

/// C.SLLI.
pub fn left_shift(h: u16) -> Instr
    ensures { result ≡ instr.OpImm Sll (field.rd h) (field.rd h) (field.shift_amount h) }
{
    Instr::OpImm {
        op: Op::Sll,
        rd: rd(h),
        rs1: rd(h),
        imm: shift_amount(h),
    }
}

/// C.ANDI.
pub fn and_immediate(h: u16) -> Instr
    ensures { result ≡ instr.OpImm And (field.rs1_short h) (field.rs1_short h) (field.immediate h) }
{
    Instr::OpImm {
        op: Op::And,
        rd: rs1_short(h),
        rs1: rs1_short(h),
        imm: immediate(h),
    }
}

/// C.SUB, C.XOR, C.OR, C.AND, C.SUBW, C.ADDW.
pub fn op(op: Op, h: u16) -> Instr
    ensures { result ≡ spec.op op h }
{
    Instr::Op {
        op,
        rd: rs1_short(h),
        rs1: rs1_short(h),
        rs2: rs2_short(h),
    }
}

/// C.J.
pub fn jump(h: u16) -> Instr
    ensures { result ≡ instr.Jal 0 (field.jump_offset h) }
{
    Instr::Jal {
        rd: 0,
        offset: jump_offset(h),
    }
}

/// C.BEQZ and C.BNEZ.
pub fn branch(cmp: Cmp, h: u16) -> Instr
    ensures { result ≡ instr.Branch cmp (field.rs1_short h) 0 (field.branch_offset h) }
{
    Instr::Branch {
        cmp,
        rs1: rs1_short(h),
        rs2: 0,
        offset: branch_offset(h),
    }
}

/// C.JR and C.JALR, which writes `rd`.
pub fn jump_through(link: u8, h: u16) -> Instr
    ensures { result ≡ instr.Jalr link (field.rd h) (pos 0) }
{
    Instr::Jalr {
        rd: link,
        rs1: rd(h),
        imm: 0,
    }
}

/// C.MV.
pub fn copy(h: u16) -> Instr
    ensures { result ≡ instr.Op Add (field.rd h) 0 (field.rs2 h) }
{
    Instr::Op {
        op: Op::Add,
        rd: rd(h),
        rs1: 0,
        rs2: rs2(h),
    }
}

/// C.ADD.
pub fn sum(h: u16) -> Instr
    ensures { result ≡ instr.Op Add (field.rd h) (field.rd h) (field.rs2 h) }
{
    Instr::Op {
        op: Op::Add,
        rd: rd(h),
        rs1: rd(h),
        rs2: rs2(h),
    }
}
