//! The registers of an instruction.

ghost use Rattle.std.specs.Prelude.{◌≡◌};
ghost use Rattle.rv_decode.specs.Registers as spec;

use crate::instruction::Instr;

/// The register that an instruction writes, or x0.
pub fn destination(i: &Instr) -> u8
    ensures { result ≡ spec.destination i.now }
{
    match *i {
        Instr::Op { rd, .. } => rd,
        Instr::OpImm { rd, .. } => rd,
        Instr::Lui { rd, .. } => rd,
        Instr::Auipc { rd, .. } => rd,
        Instr::Jal { rd, .. } => rd,
        Instr::Jalr { rd, .. } => rd,
        Instr::Load { rd, .. } => rd,
        _ => 0,
    }
}

/// Whether the instruction takes the word of the register. It takes that of x0, which is 0, too.
pub fn is_read(i: &Instr, r: u8) -> bool
    ensures { result ≡ spec.is_read i.now r }
{
    match *i {
        Instr::Op { rs1, rs2, .. } => rs1 == r || rs2 == r,
        Instr::OpImm { rs1, .. } => rs1 == r,
        Instr::Jalr { rs1, .. } => rs1 == r,
        Instr::Branch { rs1, rs2, .. } => rs1 == r || rs2 == r,
        Instr::Load { rs1, .. } => rs1 == r,
        Instr::Store { rs1, rs2, .. } => rs1 == r || rs2 == r,
        _ => false,
    }
}

/// Whether the register is the one that the instruction writes. A write to x0 changes nothing.
pub fn is_written(i: &Instr, r: u8) -> bool
    ensures { result ≡ spec.is_written i.now r }
{
    destination(i) == r
}
