//! Words of each format (RISC-V Unprivileged ISA 20191213, sections 2.2 and 2.3). Of each field as
//! many low bits are taken as it has in the word, and immediates are given as the bits of two's
//! complement.

ghost use Rattle.std.specs.Prelude.{◌≡◌};
ghost use Rattle.rv_decode.specs.Encodes.{join, fields_r, fields_i, fields_shift, fields_s, fields_b, fields_u, fields_j};

/// Format R.
pub fn word_r(opcode: u32, funct3: u32, funct7: u32, rd: u8, rs1: u8, rs2: u8) -> u32
    ensures { result ≡ join (fields_r opcode funct3 funct7 rd rs1 rs2) }
{
    opcode % 128
        + (u32::from(rd % 32) << 7)
        + ((funct3 % 8) << 12)
        + (u32::from(rs1 % 32) << 15)
        + (u32::from(rs2 % 32) << 20)
        + ((funct7 % 128) << 25)
}

/// Format I.
pub fn word_i(opcode: u32, funct3: u32, rd: u8, rs1: u8, number: u32) -> u32
    ensures { result ≡ join (fields_i opcode funct3 rd rs1 number) }
{
    opcode % 128
        + (u32::from(rd % 32) << 7)
        + ((funct3 % 8) << 12)
        + (u32::from(rs1 % 32) << 15)
        + ((number % 4096) << 20)
}

/// Format I of a shift of a word by six bits.
pub fn word_shift(opcode: u32, funct3: u32, funct6: u32, rd: u8, rs1: u8, number: u32) -> u32
    ensures { result ≡ join (fields_shift opcode funct3 funct6 rd rs1 number) }
{
    opcode % 128
        + (u32::from(rd % 32) << 7)
        + ((funct3 % 8) << 12)
        + (u32::from(rs1 % 32) << 15)
        + ((number % 64) << 20)
        + ((funct6 % 64) << 26)
}

/// Format I of a shift of a low half by five bits.
pub fn word_half_shift(opcode: u32, funct3: u32, funct7: u32, rd: u8, rs1: u8, number: u32) -> u32
    ensures { result ≡ join (fields_r opcode funct3 funct7 rd rs1 number) }
{
    opcode % 128
        + (u32::from(rd % 32) << 7)
        + ((funct3 % 8) << 12)
        + (u32::from(rs1 % 32) << 15)
        + ((number % 32) << 20)
        + ((funct7 % 128) << 25)
}

/// Format S.
pub fn word_s(opcode: u32, funct3: u32, rs1: u8, rs2: u8, number: u32) -> u32
    ensures { result ≡ join (fields_s opcode funct3 rs1 rs2 number) }
{
    opcode % 128
        + ((number % 32) << 7)
        + ((funct3 % 8) << 12)
        + (u32::from(rs1 % 32) << 15)
        + (u32::from(rs2 % 32) << 20)
        + (((number >> 5) % 128) << 25)
}

/// Format B.
pub fn word_b(opcode: u32, funct3: u32, rs1: u8, rs2: u8, number: u32) -> u32
    ensures { result ≡ join (fields_b opcode funct3 rs1 rs2 number) }
{
    opcode % 128
        + (((number >> 11) % 2) << 7)
        + (((number >> 1) % 16) << 8)
        + ((funct3 % 8) << 12)
        + (u32::from(rs1 % 32) << 15)
        + (u32::from(rs2 % 32) << 20)
        + (((number >> 5) % 64) << 25)
        + (((number >> 12) % 2) << 31)
}

/// Format U.
pub fn word_u(opcode: u32, rd: u8, number: u32) -> u32
    ensures { result ≡ join (fields_u opcode rd number) }
{
    opcode % 128 + (u32::from(rd % 32) << 7) + ((number % 1_048_576) << 12)
}

/// Format J.
pub fn word_j(opcode: u32, rd: u8, number: u32) -> u32
    ensures { result ≡ join (fields_j opcode rd number) }
{
    opcode % 128
        + (u32::from(rd % 32) << 7)
        + (((number >> 12) % 256) << 12)
        + (((number >> 11) % 2) << 20)
        + (((number >> 1) % 1024) << 21)
        + (((number >> 20) % 2) << 31)
}
