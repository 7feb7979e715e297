//! The functions that stand for operations, extensions and accesses.

ghost use Rattle.std.specs.Prelude.{◌≡◌, ◌∷◌, ◌++◌, [], IfOk, OnOk, map};
ghost use Rattle.smt_terms.specs.Views.{fun_tree};
ghost use Rattle.smt_terms.specs.Functions.{ext_fun, helpers, inside_fun, load_fun, op_fun, store_fun};
ghost use Rattle.smt_terms.specs.inner.Listed.{helper_fun};

use crate::accesses::{extension_term, inside_term, load_term, store_term};
use crate::names::{name_of_ext, name_of_inside, name_of_load, name_of_op, name_of_store};
use crate::operations::operation_term;
use crate::script::Fun;
use crate::sort::Sort;
use rv_words::{Ext, List, NoMemory, Op, Text, Width};
use std::alloc::Global;

/// What has a function.
#[derive(Clone, Copy, PartialEq, Eq)]
pub enum Helper {
    Operation(Op),
    Extension(Ext),
    Load(Width),
    Store(Width),
    Inside(Width),
}

/// All functions.
pub fn helpers(alloc: Global) -> Result<List<Fun>, NoMemory>
    ensures { IfOk result (λ funs. map fun_tree funs ≡ helpers) }
{
    functions(
        alloc,
        &[
            Helper::Operation(Op::Add),
            Helper::Operation(Op::Sub),
            Helper::Operation(Op::Sll),
            Helper::Operation(Op::Slt),
            Helper::Operation(Op::Sltu),
            Helper::Operation(Op::Xor),
            Helper::Operation(Op::Srl),
            Helper::Operation(Op::Sra),
            Helper::Operation(Op::Or),
            Helper::Operation(Op::And),
            Helper::Operation(Op::Mul),
            Helper::Operation(Op::Mulh),
            Helper::Operation(Op::Mulhsu),
            Helper::Operation(Op::Mulhu),
            Helper::Operation(Op::Div),
            Helper::Operation(Op::Divu),
            Helper::Operation(Op::Rem),
            Helper::Operation(Op::Remu),
            Helper::Operation(Op::Addw),
            Helper::Operation(Op::Subw),
            Helper::Operation(Op::Sllw),
            Helper::Operation(Op::Srlw),
            Helper::Operation(Op::Sraw),
            Helper::Operation(Op::Mulw),
            Helper::Operation(Op::Divw),
            Helper::Operation(Op::Divuw),
            Helper::Operation(Op::Remw),
            Helper::Operation(Op::Remuw),
            Helper::Extension(Ext::Sx1),
            Helper::Extension(Ext::Sx2),
            Helper::Extension(Ext::Sx4),
            Helper::Load(Width::B1),
            Helper::Load(Width::B2),
            Helper::Load(Width::B4),
            Helper::Load(Width::B8),
            Helper::Store(Width::B1),
            Helper::Store(Width::B2),
            Helper::Store(Width::B4),
            Helper::Store(Width::B8),
            Helper::Inside(Width::B1),
            Helper::Inside(Width::B2),
            Helper::Inside(Width::B4),
            Helper::Inside(Width::B8),
        ],
    )
}

/// The functions of these.
#[tactic(auto, using(crate::proofs::Listing::pushed))]
fn functions(alloc: Global, items: &[Helper]) -> Result<List<Fun>, NoMemory>
    ensures { IfOk result (λ funs. map fun_tree funs ≡ map helper_fun items.now) }
{
    let mut funs = List::new(alloc);
    for item in items {
        let fun = function(alloc, *item)?;
        funs.push(fun)?;
    }
    Ok(funs)
}

fn function(alloc: Global, item: Helper) -> Result<Fun, NoMemory>
    ensures { IfOk result (λ f. fun_tree f ≡ helper_fun item) }
{
    match item {
        Helper::Operation(op) => operation(alloc, op),
        Helper::Extension(ext) => extension(alloc, ext),
        Helper::Load(width) => load(alloc, width),
        Helper::Store(width) => store(alloc, width),
        Helper::Inside(width) => inside(alloc, width),
    }
}

/// Adds a parameter.
fn add_param(
    params: &mut List<(Text, Sort)>,
    alloc: Global,
    name: &[u8],
    sort: Sort,
) -> Result<(), NoMemory>
    ensures ok { OnOk result (params.new ≡ params.old ++ (name.now, sort) ∷ []) }
{
    let name = List::from_slice(alloc, name)?;
    params.push((name, sort))
}

fn operation(alloc: Global, op: Op) -> Result<Fun, NoMemory>
    ensures { IfOk result (λ f. fun_tree f ≡ op_fun op) }
{
    let name = List::from_slice(alloc, name_of_op(op))?;
    let mut params = List::new(alloc);
    add_param(&mut params, alloc, b"a", Sort::Bits(64))?;
    add_param(&mut params, alloc, b"b", Sort::Bits(64))?;
    let body = operation_term(alloc, op)?;
    Ok(Fun {
        name,
        params,
        sort: Sort::Bits(64),
        body,
    })
}

fn extension(alloc: Global, ext: Ext) -> Result<Fun, NoMemory>
    ensures { IfOk result (λ f. fun_tree f ≡ ext_fun ext) }
{
    let name = List::from_slice(alloc, name_of_ext(ext))?;
    let mut params = List::new(alloc);
    add_param(&mut params, alloc, b"a", Sort::Bits(64))?;
    let body = extension_term(alloc, ext)?;
    Ok(Fun {
        name,
        params,
        sort: Sort::Bits(64),
        body,
    })
}

fn load(alloc: Global, width: Width) -> Result<Fun, NoMemory>
    ensures { IfOk result (λ f. fun_tree f ≡ load_fun width) }
{
    let name = List::from_slice(alloc, name_of_load(width))?;
    let mut params = List::new(alloc);
    add_param(&mut params, alloc, b"m", Sort::Array(8))?;
    add_param(&mut params, alloc, b"d", Sort::Array(1))?;
    add_param(&mut params, alloc, b"a", Sort::Bits(64))?;
    let body = load_term(alloc, width)?;
    Ok(Fun {
        name,
        params,
        sort: Sort::Bits(64),
        body,
    })
}

fn store(alloc: Global, width: Width) -> Result<Fun, NoMemory>
    ensures { IfOk result (λ f. fun_tree f ≡ store_fun width) }
{
    let name = List::from_slice(alloc, name_of_store(width))?;
    let mut params = List::new(alloc);
    add_param(&mut params, alloc, b"m", Sort::Array(8))?;
    add_param(&mut params, alloc, b"a", Sort::Bits(64))?;
    add_param(&mut params, alloc, b"v", Sort::Bits(64))?;
    let body = store_term(alloc, width)?;
    Ok(Fun {
        name,
        params,
        sort: Sort::Array(8),
        body,
    })
}

fn inside(alloc: Global, width: Width) -> Result<Fun, NoMemory>
    ensures { IfOk result (λ f. fun_tree f ≡ inside_fun width) }
{
    let name = List::from_slice(alloc, name_of_inside(width))?;
    let mut params = List::new(alloc);
    add_param(&mut params, alloc, b"d", Sort::Array(1))?;
    add_param(&mut params, alloc, b"a", Sort::Bits(64))?;
    let body = inside_term(alloc, width)?;
    Ok(Fun {
        name,
        params,
        sort: Sort::Bool,
        body,
    })
}
