//! Instructions.

use rv_words::{Cmp, Op, Width};

/// An instruction of RV64IM with its fields. Registers are numbers from 0 to 31. Immediates are
/// sign-extended; offsets are in bytes, from the instruction's own address.
#[derive(Clone, Copy, Debug, PartialEq, Eq)]
pub enum Instr {
    /// An operation on two registers.
    Op {
        op: Op,
        rd: u8,
        rs1: u8,
        rs2: u8,
    },
    /// An operation on a register and an immediate, which for a shift is its amount.
    OpImm {
        op: Op,
        rd: u8,
        rs1: u8,
        imm: i32,
    },
    /// A load of `imm` into the bits 31 to 12 of a register, the sign extended.
    Lui {
        rd: u8,
        imm: u32,
    },
    /// The same number plus the address of the instruction.
    Auipc {
        rd: u8,
        imm: u32,
    },
    /// A jump by an offset, with a link.
    Jal {
        rd: u8,
        offset: i32,
    },
    /// A jump to a register plus an immediate, with a link.
    Jalr {
        rd: u8,
        rs1: u8,
        imm: i32,
    },
    /// A jump by an offset where the comparison of two registers is true.
    Branch {
        cmp: Cmp,
        rs1: u8,
        rs2: u8,
        offset: i32,
    },
    /// A load from a register plus an immediate. One of eight bytes is `signed`.
    Load {
        width: Width,
        signed: bool,
        rd: u8,
        rs1: u8,
        imm: i32,
    },
    /// A store of `rs2` to `rs1` plus an immediate.
    Store {
        width: Width,
        rs1: u8,
        rs2: u8,
        imm: i32,
    },
    /// A fence. Its fields order nothing in a machine with one hart.
    Fence {
        imm: u32,
        rs1: u8,
        rd: u8,
    },
    /// A call of the environment.
    Ecall,
    /// A return to a debugger.
    Ebreak,
}
