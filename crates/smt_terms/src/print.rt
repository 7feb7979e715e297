//! Scripts as text.
#![tactic(auto, using(mc_text::proofs::Printed::prints))]

ghost use Rattle.std.specs.Prelude.{◌≡◌, ◌++◌, IfOk, OnOk, codes, flat_map, map};
ghost use Rattle.std.specs.Fmt.{decimal};
ghost use Rattle.mc_text.specs.Printing.{Keeps, page, print};
ghost use Rattle.smt_terms.specs.Expression.{Node, exprs};
ghost use Rattle.smt_terms.specs.Text.{bit_vector, fun_tokens, param_expr, script_text, sort_expr, tokens, tokens_of};
ghost use Rattle.smt_terms.specs.Views.{expr, fun_tree};

use crate::script::{Fun, Script};
use crate::sort::Sort;
use crate::tree::Tree;
use mc_text::Pen;
use rv_words::{Bytes, List, NoMemory, Text};
use std::alloc::Global;

/// A script as SMT-LIB 2.6 commands, one a line.
pub fn script_bytes(alloc: Global, s: &Script) -> Result<Bytes, NoMemory>
    ensures { IfOk result (λ bytes. bytes ≡ script_text (map fun_tree s.now)) }
{
    let mut out = List::new(alloc);
    put_script(&mut out, s.funs())?;
    Ok(out)
}

/// Appends functions.
#[tactic(auto, using(mc_text::proofs::Printed::printed_bytes, mc_text::proofs::Printed::prints))]
fn put_script(out: &mut Bytes, funs: &[Fun]) -> Result<(), NoMemory>
    ensures { OnOk result (out.new ≡ out.old ++ script_text (map fun_tree funs.now)) }
{
    let mut pen = Pen::new(out);
    put_funs(&mut pen, funs)?;
    Ok(())
}

fn put_funs(pen: &mut Pen<'_>, funs: &[Fun]) -> Result<(), NoMemory>
    ensures ok { OnOk result (page pen.new
        ≡ print (flat_map fun_tokens (map fun_tree funs.now)) (page pen.old)) }
    ensures kept { Keeps (page pen.old) (page pen.new) }
{
    for fun in funs {
        put_fun(pen, fun)?;
    }
    Ok(())
}

fn put_fun(pen: &mut Pen<'_>, fun: &Fun) -> Result<(), NoMemory>
    ensures ok { OnOk result (page pen.new ≡ print (fun_tokens (fun_tree fun.now)) (page pen.old)) }
    ensures kept { Keeps (page pen.old) (page pen.new) }
{
    pen.open(b"define-fun")?;
    pen.atom(fun.name.as_slice())?;
    put_signature(pen, fun)?;
    put_tree(pen, &fun.body)?;
    pen.right()?;
    pen.eol()
}

/// Prints the parameters and the sort.
fn put_signature(pen: &mut Pen<'_>, fun: &Fun) -> Result<(), NoMemory>
    ensures ok { OnOk result (page pen.new
        ≡ print
        (tokens (Node (exprs (map param_expr fun.now.params))) ++ tokens (sort_expr fun.now.sort))
        (page pen.old)) }
    ensures kept { Keeps (page pen.old) (page pen.new) }
{
    pen.left()?;
    put_params(pen, fun.params.as_slice())?;
    pen.right()?;
    put_sort(pen, fun.sort)
}

fn put_params(pen: &mut Pen<'_>, params: &[(Text, Sort)]) -> Result<(), NoMemory>
    ensures ok { OnOk result (page pen.new
        ≡ print (tokens_of (exprs (map param_expr params.now))) (page pen.old)) }
    ensures kept { Keeps (page pen.old) (page pen.new) }
{
    for param in params {
        put_param(pen, param)?;
    }
    Ok(())
}

fn put_param(pen: &mut Pen<'_>, param: &(Text, Sort)) -> Result<(), NoMemory>
    ensures ok { OnOk result (page pen.new ≡ print (tokens (param_expr param.now)) (page pen.old)) }
    ensures kept { Keeps (page pen.old) (page pen.new) }
{
    pen.left()?;
    pen.atom(param.0.as_slice())?;
    put_sort(pen, param.1)?;
    pen.right()
}

fn put_sort(pen: &mut Pen<'_>, sort: Sort) -> Result<(), NoMemory>
    ensures ok { OnOk result (page pen.new ≡ print (tokens (sort_expr sort)) (page pen.old)) }
    ensures kept { Keeps (page pen.old) (page pen.new) }
{
    match sort {
        Sort::Bool => pen.atom(b"Bool"),
        Sort::Bits(n) => put_bit_vector(pen, n),
        Sort::Array(n) => {
            pen.open(b"Array")?;
            put_index(pen)?;
            put_bit_vector(pen, n)?;
            pen.right()
        }
    }
}

fn put_bit_vector(pen: &mut Pen<'_>, n: u32) -> Result<(), NoMemory>
    ensures ok { OnOk result (page pen.new
        ≡ print (tokens (bit_vector (decimal n))) (page pen.old)) }
    ensures kept { Keeps (page pen.old) (page pen.new) }
{
    pen.open(b"_")?;
    pen.atom(b"BitVec")?;
    pen.dec(u64::from(n))?;
    pen.right()
}

/// Prints the sort of an array's indices.
fn put_index(pen: &mut Pen<'_>) -> Result<(), NoMemory>
    ensures ok { OnOk result (page pen.new
        ≡ print (tokens (bit_vector (codes "64"))) (page pen.old)) }
    ensures kept { Keeps (page pen.old) (page pen.new) }
{
    pen.open(b"_")?;
    pen.atom(b"BitVec")?;
    pen.atom(b"64")?;
    pen.right()
}

#[cycle(trees)]
fn put_tree(pen: &mut Pen<'_>, tree: &Tree) -> Result<(), NoMemory>
    ensures ok { OnOk result (page pen.new ≡ print (tokens (expr tree.now)) (page pen.old)) }
    ensures kept { Keeps (page pen.old) (page pen.new) }
{
    match tree {
        Tree::Atom(name) => pen.atom(name.as_slice()),
        Tree::Node(items) => {
            pen.left()?;
            put_trees(pen, items.as_slice())?;
            pen.right()
        }
    }
}

#[cycle(trees)]
fn put_trees(pen: &mut Pen<'_>, items: &[Tree]) -> Result<(), NoMemory>
    ensures ok { OnOk result (page pen.new
        ≡ print (tokens_of (exprs (map expr items.now))) (page pen.old)) }
    ensures kept { Keeps (page pen.old) (page pen.new) }
{
    for item in items {
        put_tree(pen, item)?;
    }
    Ok(())
}
