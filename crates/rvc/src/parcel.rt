//! The fields of a compressed instruction (RISC-V Unprivileged ISA 20191213, sections 16.2 to
//! 16.5).

ghost use Rattle.std.specs.Prelude.{◌≡◌, ◌<◌, ◌≤◌, ◌*◌, ◌%◌, ◌^◌, pos, ◌-ℤ◌, nat_lt, if◌then◌else◌};
ghost use Rattle.rv_words.specs.Operation.{word_of};
ghost use Rattle.rvc.specs.Parcel as spec;

pub fn quadrant(h: u16) -> u16
    ensures { result ≡ spec.quadrant h }
{
    h % 4
}

pub fn funct3(h: u16) -> u16
    ensures { result ≡ spec.funct3 h }
{
    h >> 13
}

/// Bit 12.
pub fn funct1(h: u16) -> u16
    ensures { result ≡ spec.funct1 h }
{
    (h >> 12) % 2
}

/// Bits 11 to 10.
pub fn funct2(h: u16) -> u16
    ensures { result ≡ spec.funct2 h }
{
    (h >> 10) % 4
}

/// Bits 6 to 5.
pub fn funct2_low(h: u16) -> u16
    ensures { result ≡ spec.funct2_low h }
{
    (h >> 5) % 4
}

/// The destination register, which is the first source too.
pub fn rd(h: u16) -> u8
    ensures { result ≡ spec.rd h }
{
    ((h >> 7) % 32) as u8
}

/// The second source register.
pub fn rs2(h: u16) -> u8
    ensures { result ≡ spec.rs2 h }
{
    ((h >> 2) % 32) as u8
}

/// The first source register of three bits, one of x8 to x15.
pub fn rs1_short(h: u16) -> u8
    ensures { result ≡ spec.rs1_short h }
{
    8 + ((h >> 7) % 8) as u8
}

/// The second source register of three bits, one of x8 to x15.
pub fn rs2_short(h: u16) -> u8
    ensures { result ≡ spec.rs2_short h }
{
    8 + ((h >> 2) % 8) as u8
}

/// The immediate of six bits, as a number.
pub fn six_bits(h: u16) -> u16
    ensures { result ≡ spec.six_bits h }
{
    (((h >> 12) % 2) << 5) + (h >> 2) % 32
}

/// The immediate of six bits.
pub fn immediate(h: u16) -> i32
    ensures { result ≡ spec.immediate h }
{
    signed(six_bits(h), 1 << 5)
}

/// The immediate of six bits as the upper 20 bits of a word.
pub fn upper_immediate(h: u16) -> u32
    ensures { result ≡ word_of (spec.immediate h) % 2 ^ 20 }
{
    let number = u32::from(six_bits(h));
    if number < 32 {
        number
    } else {
        number + 0xf_ffc0
    }
}

/// The amount of a shift.
pub fn shift_amount(h: u16) -> i32
    ensures { result ≡ spec.shift_amount h }
{
    i32::from(six_bits(h))
}

/// What C.ADDI4SPN adds.
pub fn stack_addend(h: u16) -> u16
    ensures { result ≡ spec.stack_addend h }
{
    (((h >> 11) % 4) << 4) + (((h >> 7) % 16) << 6) + (((h >> 6) % 2) << 2) + (((h >> 5) % 2) << 3)
}

/// What C.ADDI16SP adds.
pub fn stack_step(h: u16) -> i32
    ensures { result ≡ spec.stack_step h }
{
    let high = (((h >> 12) % 2) << 9) + (((h >> 6) % 2) << 4);
    signed(
        high + (((h >> 5) % 2) << 6) + (((h >> 3) % 4) << 7) + (((h >> 2) % 2) << 5),
        1 << 9,
    )
}

/// The offset of C.LW and C.SW.
pub fn offset_4(h: u16) -> i32
    ensures { result ≡ spec.offset_4 h }
{
    i32::from((((h >> 10) % 8) << 3) + (((h >> 6) % 2) << 2) + (((h >> 5) % 2) << 6))
}

/// The offset of C.LD and C.SD.
pub fn offset_8(h: u16) -> i32
    ensures { result ≡ spec.offset_8 h }
{
    i32::from((((h >> 10) % 8) << 3) + (((h >> 5) % 4) << 6))
}

/// The offset of C.LWSP.
pub fn stack_load_4(h: u16) -> i32
    ensures { result ≡ spec.stack_load_4 h }
{
    i32::from((((h >> 12) % 2) << 5) + (((h >> 4) % 8) << 2) + (((h >> 2) % 4) << 6))
}

/// The offset of C.LDSP.
pub fn stack_load_8(h: u16) -> i32
    ensures { result ≡ spec.stack_load_8 h }
{
    i32::from((((h >> 12) % 2) << 5) + (((h >> 5) % 4) << 3) + (((h >> 2) % 8) << 6))
}

/// The offset of C.SWSP.
pub fn stack_store_4(h: u16) -> i32
    ensures { result ≡ spec.stack_store_4 h }
{
    i32::from((((h >> 9) % 16) << 2) + (((h >> 7) % 4) << 6))
}

/// The offset of C.SDSP.
pub fn stack_store_8(h: u16) -> i32
    ensures { result ≡ spec.stack_store_8 h }
{
    i32::from((((h >> 10) % 8) << 3) + (((h >> 7) % 8) << 6))
}

/// The offset of C.J.
pub fn jump_offset(h: u16) -> i32
    ensures { result ≡ spec.jump_offset h }
{
    let high = (((h >> 12) % 2) << 11) + (((h >> 11) % 2) << 4) + (((h >> 9) % 4) << 8);
    let middle = (((h >> 8) % 2) << 10) + (((h >> 7) % 2) << 6) + (((h >> 6) % 2) << 7);
    signed(
        high + middle + (((h >> 3) % 8) << 1) + (((h >> 2) % 2) << 5),
        1 << 11,
    )
}

/// The offset of C.BEQZ and C.BNEZ.
pub fn branch_offset(h: u16) -> i32
    ensures { result ≡ spec.branch_offset h }
{
    let high = (((h >> 12) % 2) << 8) + (((h >> 10) % 4) << 3);
    signed(
        high + (((h >> 5) % 4) << 6) + (((h >> 3) % 4) << 1) + (((h >> 2) % 2) << 5),
        1 << 8,
    )
}

/// The whole number that a number below twice `half` is in two's complement.
fn signed(number: u16, half: u16) -> i32
    requires half { half ≤ 2 ^ 11 }
    requires number { number < 2 * half }
    ensures { result ≡ (if nat_lt number half then pos number else pos number -ℤ pos (2 * half)) }
{
    if number < half {
        i32::from(number)
    } else {
        i32::from(number) - 2 * i32::from(half)
    }
}
