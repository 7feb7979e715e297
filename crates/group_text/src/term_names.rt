//! The names of forms.

ghost use Rattle.std.specs.Prelude.{◌≡◌, codes};
ghost use Rattle.rv_words.specs.Operation.{comparison_name, operation_name};
ghost use Rattle.group_text.specs.TermSpelling.{access_name, extension_name};

use rv_words::{Cmp, Ext, Op, Width};

/// The name of an operation.
pub fn name_of_operation(op: Op) -> &'static [u8]
    ensures { result.now ≡ operation_name op }
{
    match op {
        Op::Add => b"add",
        Op::Sub => b"sub",
        Op::Sll => b"sll",
        Op::Slt => b"slt",
        Op::Sltu => b"sltu",
        Op::Xor => b"xor",
        Op::Srl => b"srl",
        Op::Sra => b"sra",
        Op::Or => b"or",
        Op::And => b"and",
        Op::Mul => b"mul",
        Op::Mulh => b"mulh",
        Op::Mulhsu => b"mulhsu",
        Op::Mulhu => b"mulhu",
        Op::Div => b"div",
        Op::Divu => b"divu",
        Op::Rem => b"rem",
        Op::Remu => b"remu",
        Op::Addw => b"addw",
        Op::Subw => b"subw",
        Op::Sllw => b"sllw",
        Op::Srlw => b"srlw",
        Op::Sraw => b"sraw",
        Op::Mulw => b"mulw",
        Op::Divw => b"divw",
        Op::Divuw => b"divuw",
        Op::Remw => b"remw",
        Op::Remuw => b"remuw",
    }
}

/// The name of an extension.
pub fn name_of_extension(ext: Ext) -> &'static [u8]
    ensures { result.now ≡ extension_name ext }
{
    match ext {
        Ext::Sx1 => b"sx1",
        Ext::Sx2 => b"sx2",
        Ext::Sx4 => b"sx4",
    }
}

/// The name of a comparison.
pub fn name_of_comparison(cmp: Cmp) -> &'static [u8]
    ensures { result.now ≡ comparison_name cmp }
{
    match cmp {
        Cmp::Eq => b"eq",
        Cmp::Ne => b"ne",
        Cmp::Lt => b"lt",
        Cmp::Ge => b"ge",
        Cmp::Ltu => b"ltu",
        Cmp::Geu => b"geu",
    }
}

/// The name of a load of that width.
#[tactic(auto, unfolding(crate::proofs::NameTests::digits))]
pub fn name_of_load(width: Width) -> &'static [u8]
    ensures { result.now ≡ access_name (codes "ld") width }
{
    match width {
        Width::B1 => b"ld1",
        Width::B2 => b"ld2",
        Width::B4 => b"ld4",
        Width::B8 => b"ld8",
    }
}

/// The name of a store of that width.
#[tactic(auto, unfolding(crate::proofs::NameTests::digits))]
pub fn name_of_store(width: Width) -> &'static [u8]
    ensures { result.now ≡ access_name (codes "st") width }
{
    match width {
        Width::B1 => b"st1",
        Width::B2 => b"st2",
        Width::B4 => b"st4",
        Width::B8 => b"st8",
    }
}

/// The name of the condition that all addresses of a width are present.
#[tactic(auto, unfolding(crate::proofs::NameTests::digits))]
pub fn name_of_inside(width: Width) -> &'static [u8]
    ensures { result.now ≡ access_name (codes "in") width }
{
    match width {
        Width::B1 => b"in1",
        Width::B2 => b"in2",
        Width::B4 => b"in4",
        Width::B8 => b"in8",
    }
}
