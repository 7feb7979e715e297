//! The fields of an instruction word (RISC-V Unprivileged ISA 20191213, sections 2.2 and 2.3).

ghost use Rattle.std.specs.Prelude.{◌≡◌, ◌<◌, ◌≤◌, ◌*◌, ◌^◌, pos, ◌-ℤ◌, nat_lt, if◌then◌else◌};
ghost use Rattle.rv_decode.specs.Fields as spec;

/// The opcode.
pub fn opcode(w: u32) -> u32
    ensures { result ≡ spec.opcode w }
{
    w % 128
}

/// The destination register.
pub fn rd(w: u32) -> u8
    ensures { result ≡ spec.rd w }
{
    ((w >> 7) % 32) as u8
}

pub fn funct3(w: u32) -> u32
    ensures { result ≡ spec.funct3 w }
{
    (w >> 12) % 8
}

/// The first source register.
pub fn rs1(w: u32) -> u8
    ensures { result ≡ spec.rs1 w }
{
    ((w >> 15) % 32) as u8
}

/// The second source register.
pub fn rs2(w: u32) -> u8
    ensures { result ≡ spec.rs2 w }
{
    ((w >> 20) % 32) as u8
}

pub fn funct7(w: u32) -> u32
    ensures { result ≡ spec.funct7 w }
{
    w >> 25
}

/// The upper six bits, above the amount of a shift.
pub fn funct6(w: u32) -> u32
    ensures { result ≡ spec.funct6 w }
{
    w >> 26
}

/// The amount of a shift.
pub fn amount(w: u32) -> i32
    ensures { result ≡ spec.shift_amount w }
{
    ((w >> 20) % 64) as i32
}

/// The amount of a shift of the low half.
pub fn half_amount(w: u32) -> i32
    ensures { result ≡ spec.half_shift_amount w }
{
    ((w >> 20) % 32) as i32
}

/// The immediate of format I.
pub fn immediate_i(w: u32) -> i32
    ensures { result ≡ spec.immediate_i w }
{
    w.cast_signed() >> 20
}

/// The immediate of format S.
pub fn immediate_s(w: u32) -> i32
    ensures { result ≡ spec.immediate_s w }
{
    signed(((w >> 25) << 5) + (w >> 7) % 32, 1 << 11)
}

/// The offset of format B.
pub fn immediate_b(w: u32) -> i32
    ensures { result ≡ spec.immediate_b w }
{
    let high = ((w >> 31) << 12) + (((w >> 7) % 2) << 11);
    signed(
        high + (((w >> 25) % 64) << 5) + (((w >> 8) % 16) << 1),
        1 << 12,
    )
}

/// The upper 20 bits of format U.
pub fn immediate_u(w: u32) -> u32
    ensures { result ≡ spec.immediate_u w }
{
    w >> 12
}

/// The offset of format J.
pub fn immediate_j(w: u32) -> i32
    ensures { result ≡ spec.immediate_j w }
{
    let high = ((w >> 31) << 20) + (((w >> 12) % 256) << 12);
    signed(
        high + (((w >> 20) % 2) << 11) + (((w >> 21) % 1024) << 1),
        1 << 20,
    )
}

/// The bits of a fence, above its registers.
pub fn fence_bits(w: u32) -> u32
    ensures { result ≡ spec.bits 20 12 w }
{
    w >> 20
}

/// The whole number that a number below twice `half` is in two's complement.
fn signed(number: u32, half: u32) -> i32
    requires half { half ≤ 2 ^ 20 }
    requires number { number < 2 * half }
    ensures { result ≡ (if nat_lt number half then pos number else pos number -ℤ pos (2 * half)) }
{
    if number < half {
        number as i32
    } else {
        number as i32 - 2 * half as i32
    }
}
