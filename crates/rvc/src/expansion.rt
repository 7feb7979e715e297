//! From a compressed number to its instruction and its word: the quadrant first, then the funct3,
//! then the other fields.

ghost use Rattle.std.specs.Prelude.{◌≡◌, ◌↔◌, ℕ, IfSome, IsTrue, Some, option_and_then};
ghost use Rattle.rv_decode.specs.Decodes.{NamesRegisters, decoded};
ghost use Rattle.rv_decode.specs.Ranges.{is_encodable};
ghost use Rattle.rvc.specs.Parcel as field;
ghost use Rattle.rvc.specs.Expands.{Expands, compressed, expanded};

use crate::parcel::{
    funct1, funct2, funct2_low, funct3, quadrant, rd, rs2, six_bits, stack_addend,
};
use crate::rows::{
    and_immediate, branch, constant, copy, jump, jump_through, left_shift, load_4,
    load_4_from_stack, load_8, load_8_from_stack, move_stack, op, op_immediate, right_shift,
    stack_address, store_4, store_4_to_stack, store_8, store_8_to_stack, sum, upper,
};
use rv_decode::{Instr, encode};
use rv_words::{Cmp, Op};

/// The word to which a compressed number expands, if it is an instruction.
pub fn expand(h: u16) -> Option<u32>
    ensures value { result ≡ expanded h }
    ensures exactly { (w : ℕ) → (result ≡ Some w) ↔ Expands h w }
{
    expand_number(h)
}

/// The word to which a compressed number expands.
#[tactic(auto, unfolding(crate::specs::Expands::expanded))]
fn expand_number(h: u16) -> Option<u32>
    ensures { result ≡ expanded h }
{
    match compressed_instruction(h) {
        Some(i) => encode(&i),
        None => None,
    }
}

/// The instruction that a compressed number is, if it is one.
pub fn decode_compressed(h: u16) -> Option<Instr>
    ensures value { result ≡ compressed h }
    ensures expanded { result ≡ option_and_then decoded (expanded h) }
    ensures registers { IfSome result NamesRegisters }
    ensures ranges { IfSome result (λ i. IsTrue (is_encodable i)) }
{
    compressed_instruction(h)
}

/// The instruction that a compressed number is.
fn compressed_instruction(h: u16) -> Option<Instr>
    ensures { result ≡ compressed h }
{
    match quadrant(h) {
        0 => in_quadrant_0(h),
        1 => in_quadrant_1(h),
        2 => in_quadrant_2(h),
        _ => None,
    }
}

/// A number of quadrant 0.
fn in_quadrant_0(h: u16) -> Option<Instr>
    requires { field.quadrant h ≡ 0 }
    ensures { result ≡ compressed h }
{
    match funct3(h) {
        0 => decode_stack_address(h),
        2 => Some(load_4(h)),
        3 => Some(load_8(h)),
        6 => Some(store_4(h)),
        7 => Some(store_8(h)),
        _ => None,
    }
}

/// C.ADDI4SPN, but with 0.
fn decode_stack_address(h: u16) -> Option<Instr>
    requires quadrant { field.quadrant h ≡ 0 }
    requires funct3 { field.funct3 h ≡ 0 }
    ensures { result ≡ compressed h }
{
    if stack_addend(h) == 0 {
        return None;
    }
    Some(stack_address(h))
}

/// A number of quadrant 1.
fn in_quadrant_1(h: u16) -> Option<Instr>
    requires { field.quadrant h ≡ 1 }
    ensures { result ≡ compressed h }
{
    match funct3(h) {
        0 => Some(op_immediate(Op::Add, h)),
        1 => decode_half_sum(h),
        2 => Some(constant(h)),
        3 => decode_upper(h),
        4 => decode_arithmetic(h),
        5 => Some(jump(h)),
        6 => Some(branch(Cmp::Eq, h)),
        _ => Some(branch(Cmp::Ne, h)),
    }
}

/// C.ADDIW, but to x0.
fn decode_half_sum(h: u16) -> Option<Instr>
    requires quadrant { field.quadrant h ≡ 1 }
    requires funct3 { field.funct3 h ≡ 1 }
    ensures { result ≡ compressed h }
{
    if rd(h) == 0 {
        return None;
    }
    Some(op_immediate(Op::Addw, h))
}

/// C.ADDI16SP and C.LUI, but with 0.
fn decode_upper(h: u16) -> Option<Instr>
    requires quadrant { field.quadrant h ≡ 1 }
    requires funct3 { field.funct3 h ≡ 3 }
    ensures { result ≡ compressed h }
{
    if six_bits(h) == 0 {
        return None;
    }
    if rd(h) == 2 {
        return Some(move_stack(h));
    }
    Some(upper(h))
}

/// Shifts by fixed amounts, and operations on registers of three bits.
fn decode_arithmetic(h: u16) -> Option<Instr>
    requires quadrant { field.quadrant h ≡ 1 }
    requires funct3 { field.funct3 h ≡ 4 }
    ensures { result ≡ compressed h }
{
    match funct2(h) {
        0 => Some(right_shift(Op::Srl, h)),
        1 => Some(right_shift(Op::Sra, h)),
        2 => Some(and_immediate(h)),
        _ => decode_op(h),
    }
}

/// An operation on two registers of three bits.
fn decode_op(h: u16) -> Option<Instr>
    requires quadrant { field.quadrant h ≡ 1 }
    requires funct3 { field.funct3 h ≡ 4 }
    requires funct2 { field.funct2 h ≡ 3 }
    ensures { result ≡ compressed h }
{
    if funct1(h) == 0 {
        return decode_word_op(h);
    }
    match funct2_low(h) {
        0 => Some(op(Op::Subw, h)),
        1 => Some(op(Op::Addw, h)),
        _ => None,
    }
}

/// An operation on the words of two registers of three bits.
fn decode_word_op(h: u16) -> Option<Instr>
    requires quadrant { field.quadrant h ≡ 1 }
    requires funct3 { field.funct3 h ≡ 4 }
    requires funct2 { field.funct2 h ≡ 3 }
    requires funct1 { field.funct1 h ≡ 0 }
    ensures { result ≡ compressed h }
{
    match funct2_low(h) {
        0 => Some(op(Op::Sub, h)),
        1 => Some(op(Op::Xor, h)),
        2 => Some(op(Op::Or, h)),
        _ => Some(op(Op::And, h)),
    }
}

/// A number of quadrant 2.
fn in_quadrant_2(h: u16) -> Option<Instr>
    requires { field.quadrant h ≡ 2 }
    ensures { result ≡ compressed h }
{
    match funct3(h) {
        0 => Some(left_shift(h)),
        2 => decode_stack_load_4(h),
        3 => decode_stack_load_8(h),
        4 => decode_move(h),
        6 => Some(store_4_to_stack(h)),
        7 => Some(store_8_to_stack(h)),
        _ => None,
    }
}

/// C.LWSP, but to x0.
fn decode_stack_load_4(h: u16) -> Option<Instr>
    requires quadrant { field.quadrant h ≡ 2 }
    requires funct3 { field.funct3 h ≡ 2 }
    ensures { result ≡ compressed h }
{
    if rd(h) == 0 {
        return None;
    }
    Some(load_4_from_stack(h))
}

/// C.LDSP, but to x0.
fn decode_stack_load_8(h: u16) -> Option<Instr>
    requires quadrant { field.quadrant h ≡ 2 }
    requires funct3 { field.funct3 h ≡ 3 }
    ensures { result ≡ compressed h }
{
    if rd(h) == 0 {
        return None;
    }
    Some(load_8_from_stack(h))
}

/// Jumps through registers, C.MV, C.ADD and C.EBREAK.
fn decode_move(h: u16) -> Option<Instr>
    requires quadrant { field.quadrant h ≡ 2 }
    requires funct3 { field.funct3 h ≡ 4 }
    ensures { result ≡ compressed h }
{
    if funct1(h) == 0 {
        if rs2(h) != 0 {
            return Some(copy(h));
        }
        if rd(h) != 0 {
            return Some(jump_through(0, h));
        }
        return None;
    }
    if rs2(h) != 0 {
        return Some(sum(h));
    }
    if rd(h) != 0 {
        return Some(jump_through(1, h));
    }
    Some(Instr::Ebreak)
}
