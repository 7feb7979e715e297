//! The names of the functions that stand for operations, extensions and accesses.

ghost use Rattle.std.specs.Prelude.{◌≡◌};
ghost use Rattle.smt_terms.specs.Functions.{ext_name, inside_name, load_name, op_name, store_name};

use rv_words::{Ext, Op, Width};

/// The name of an operation's function.
pub fn name_of_op(op: Op) -> &'static [u8]
    ensures { result.now ≡ op_name op }
{
    match op {
        Op::Add => b"rv_add",
        Op::Sub => b"rv_sub",
        Op::Sll => b"rv_sll",
        Op::Slt => b"rv_slt",
        Op::Sltu => b"rv_sltu",
        Op::Xor => b"rv_xor",
        Op::Srl => b"rv_srl",
        Op::Sra => b"rv_sra",
        Op::Or => b"rv_or",
        Op::And => b"rv_and",
        Op::Mul => b"rv_mul",
        Op::Mulh => b"rv_mulh",
        Op::Mulhsu => b"rv_mulhsu",
        Op::Mulhu => b"rv_mulhu",
        Op::Div => b"rv_div",
        Op::Divu => b"rv_divu",
        Op::Rem => b"rv_rem",
        Op::Remu => b"rv_remu",
        Op::Addw => b"rv_addw",
        Op::Subw => b"rv_subw",
        Op::Sllw => b"rv_sllw",
        Op::Srlw => b"rv_srlw",
        Op::Sraw => b"rv_sraw",
        Op::Mulw => b"rv_mulw",
        Op::Divw => b"rv_divw",
        Op::Divuw => b"rv_divuw",
        Op::Remw => b"rv_remw",
        Op::Remuw => b"rv_remuw",
    }
}

/// The name of an extension's function.
pub fn name_of_ext(ext: Ext) -> &'static [u8]
    ensures { result.now ≡ ext_name ext }
{
    match ext {
        Ext::Sx1 => b"rv_sx1",
        Ext::Sx2 => b"rv_sx2",
        Ext::Sx4 => b"rv_sx4",
    }
}

/// The name of a load's function.
pub fn name_of_load(width: Width) -> &'static [u8]
    ensures { result.now ≡ load_name width }
{
    match width {
        Width::B1 => b"rv_ld1",
        Width::B2 => b"rv_ld2",
        Width::B4 => b"rv_ld4",
        Width::B8 => b"rv_ld8",
    }
}

/// The name of a store's function.
pub fn name_of_store(width: Width) -> &'static [u8]
    ensures { result.now ≡ store_name width }
{
    match width {
        Width::B1 => b"rv_st1",
        Width::B2 => b"rv_st2",
        Width::B4 => b"rv_st4",
        Width::B8 => b"rv_st8",
    }
}

/// The name of the function that tells whether an access is inside.
pub fn name_of_inside(width: Width) -> &'static [u8]
    ensures { result.now ≡ inside_name width }
{
    match width {
        Width::B1 => b"rv_in1",
        Width::B2 => b"rv_in2",
        Width::B4 => b"rv_in4",
        Width::B8 => b"rv_in8",
    }
}
