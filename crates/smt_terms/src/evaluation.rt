//! What terms stand for, by recursion on them and on the functions that they apply.

ghost use Rattle.std.specs.Prelude.{◌≡◌, IfOk, OnOk, map};
ghost use Rattle.smt_terms.specs.Expression.{Atom, Node, exprs};
ghost use Rattle.smt_terms.specs.Meaning.{applied, fun_value, functions_after, no_names};
ghost use Rattle.smt_terms.specs.Sorts.{IsFun, IsScript, applied_sort, rule_of, rules_after};
ghost use Rattle.smt_terms.specs.Views.{expr, fun_tree};
ghost use Rattle.smt_terms.specs.inner.Datum.{StandsFor, meaning, sorted};
ghost use Rattle.smt_terms.specs.inner.Telling.{Tells, TellsAll, TellsBinding};

use crate::apply::apply;
use crate::datum::{Datum, UNSORTED, share};
use crate::find::find;
use crate::head::{Head, head_of};
use crate::parts::{constant, head_and_rest, let_of, literal};
use crate::scope::{Binding, look_up, scope_of};
use crate::script::Fun;
use crate::tree::Tree;
use rv_words::{List, NoMemory};
use std::alloc::Global;

/// What a function that applies those before it gives for arguments.
#[cycle(terms)]
pub fn call<'a>(
    alloc: Global,
    before: &'a [Fun],
    fun: &'a Fun,
    args: &[Datum],
) -> Result<Datum, NoMemory>
    requires before { IsScript (map fun_tree before.now) }
    requires fun { IsFun (rules_after no_names (map fun_tree before.now)) (fun_tree fun.now) }
    ensures { IfOk result (λ d.
        StandsFor (rule_of (fun_tree fun.now) (map sorted args.now))
        (fun_value (functions_after no_names (map fun_tree before.now)) (fun_tree fun.now)
        (map meaning args.now)) d) }
{
    if args.len() != fun.params.len() {
        return Ok(UNSORTED);
    }
    let mut scope = scope_of(alloc, fun.params.as_slice(), args)?;
    term(alloc, before, &mut scope, &fun.body)
}

/// What a term stands for, where its names stand for what they are bound to, and it may apply these
/// functions.
#[cycle(terms)]
fn term<'a>(
    alloc: Global,
    funs: &'a [Fun],
    scope: &mut List<Binding<'a>>,
    tree: &'a Tree,
) -> Result<Datum, NoMemory>
    requires { IsScript (map fun_tree funs.now) }
    ensures told { IfOk result (λ d. Tells (map fun_tree funs.now) scope.old (expr tree.now) d) }
    ensures kept { OnOk result (scope.new ≡ scope.old) }
{
    match tree {
        Tree::Atom(name) => atom(alloc, funs, scope, name.as_slice()),
        Tree::Node(items) => node(alloc, funs, scope, items.as_slice()),
    }
}

/// What a name stands for: a variable, a function without parameters, or a constant.
#[cycle(terms)]
fn atom<'a>(
    alloc: Global,
    funs: &'a [Fun],
    scope: &List<Binding<'a>>,
    name: &[u8],
) -> Result<Datum, NoMemory>
    requires { IsScript (map fun_tree funs.now) }
    ensures { IfOk result (λ d. Tells (map fun_tree funs.now) scope.now (Atom name.now) d) }
{
    if let Some(datum) = look_up(scope.as_slice(), name) {
        return share(datum);
    }
    match find(funs, name) {
        Some(found) => call(alloc, found.before, found.fun, &[]),
        None => Ok(constant(name)),
    }
}

/// What a term in parentheses stands for.
#[cycle(terms)]
fn node<'a>(
    alloc: Global,
    funs: &'a [Fun],
    scope: &mut List<Binding<'a>>,
    items: &'a [Tree],
) -> Result<Datum, NoMemory>
    requires { IsScript (map fun_tree funs.now) }
    ensures told { IfOk result (λ d.
        Tells (map fun_tree funs.now) scope.old (Node (exprs (map expr items.now))) d) }
    ensures kept { OnOk result (scope.new ≡ scope.old) }
{
    let Some((head, rest)) = head_and_rest(items) else {
        return Ok(UNSORTED);
    };
    match head_of(head) {
        Head::Let => binding(alloc, funs, scope, rest),
        Head::Literal => Ok(literal(rest)),
        Head::Operator(op) => {
            let parts = terms(alloc, funs, scope, rest)?;
            apply(alloc, op, parts.as_slice())
        }
        Head::Function(name) => {
            let args = terms(alloc, funs, scope, rest)?;
            application(alloc, funs, name, args.as_slice())
        }
        Head::Nothing => Ok(UNSORTED),
    }
}

/// What an application of the function of that name stands for.
#[cycle(terms)]
fn application<'a>(
    alloc: Global,
    funs: &'a [Fun],
    name: &[u8],
    args: &[Datum],
) -> Result<Datum, NoMemory>
    requires { IsScript (map fun_tree funs.now) }
    ensures { IfOk result (λ d.
        StandsFor
        (applied_sort (rules_after no_names (map fun_tree funs.now)) name.now (map sorted args.now))
        (applied (functions_after no_names (map fun_tree funs.now)) name.now (map meaning args.now))
        d) }
{
    match find(funs, name) {
        Some(found) => call(alloc, found.before, found.fun, args),
        None => Ok(UNSORTED),
    }
}

/// What a body stands for in which a name stands for a term.
#[cycle(terms)]
fn binding<'a>(
    alloc: Global,
    funs: &'a [Fun],
    scope: &mut List<Binding<'a>>,
    parts: &'a [Tree],
) -> Result<Datum, NoMemory>
    requires { IsScript (map fun_tree funs.now) }
    ensures told { IfOk result (λ d.
        TellsBinding (map fun_tree funs.now) scope.old (exprs (map expr parts.now)) d) }
    ensures kept { OnOk result (scope.new ≡ scope.old) }
{
    let Some(parts) = let_of(parts) else {
        return Ok(UNSORTED);
    };
    let datum = term(alloc, funs, scope, parts.term)?;
    let name = parts.name;
    scope.push(Binding { name, datum })?;
    let value = term(alloc, funs, scope, parts.body)?;
    let _ = scope.pop();
    Ok(value)
}

/// What each of these terms stands for.
#[cycle(terms)]
fn terms<'a>(
    alloc: Global,
    funs: &'a [Fun],
    scope: &mut List<Binding<'a>>,
    trees: &'a [Tree],
) -> Result<List<Datum>, NoMemory>
    requires { IsScript (map fun_tree funs.now) }
    ensures told { IfOk result (λ ds.
        TellsAll (map fun_tree funs.now) scope.old (exprs (map expr trees.now)) ds) }
    ensures kept { OnOk result (scope.new ≡ scope.old) }
{
    let mut values = List::new(alloc);
    for tree in trees {
        let datum = term(alloc, funs, scope, tree)?;
        values.push(datum)?;
    }
    Ok(values)
}
