//! Branches both of whose sides apply one function of a definition. Such a branch is one
//! application, to arguments that its condition chooses.

ghost use Rattle.std.specs.Prelude.{◌≡◌, IfOk, None, Some, map, option_map};
ghost use Rattle.smt_terms.specs.Expression.{Atom, Node, Then, bound, exprs, ite};
ghost use Rattle.smt_terms.specs.Views.{expr};
ghost use Rattle.smt_export.specs.Joins.{application, application_expr, both_guards, bound_each, branch_expr, branch_of, chosen, chosen_each, chosen_guard, first_applied, guarded, in_ite, in_let, is_falsity, is_fun_name, is_not_true, joined_applications, plain, plain_items, plain_of, same_atom, same_count, under_binding, under_bindings, under_choice, under_ite, under_let, under_list, under_pair, under_parts, with_binding, with_guard};
ghost use Rattle.smt_export.specs.inner.Applications.{application_of};

use crate::left::falsity;
use rv_words::{List, NoMemory, Text};
use smt_terms::{Tree, atom, bound, is_atom, ite};
use std::alloc::Global;

/// A function of a definition applied; where there is a guard, the term is false where that is.
#[derive(Drop)]
pub struct Applied {
    guard: Option<Tree>,
    name: Text,
    args: List<Tree>,
}

/// The first term where the condition is true, else the second; one application where both are
/// applications of one function.
#[tactic(auto, using(crate::proofs::Joins::branch_made))]
pub fn branch_term(alloc: Global, c: Tree, x: Tree, y: Tree) -> Result<Tree, NoMemory>
    ensures { IfOk result (λ t. expr t ≡ branch_expr (expr c) (expr x) (expr y)) }
{
    let first = application(alloc, &x)?;
    let second = application(alloc, &y)?;
    branch_of(alloc, c, first, second, x, y)
}

fn branch_of(
    alloc: Global,
    c: Tree,
    first: Option<Applied>,
    second: Option<Applied>,
    x: Tree,
    y: Tree,
) -> Result<Tree, NoMemory>
    ensures { IfOk result (λ t.
        expr t
        ≡ branch_of (expr c) (option_map application_of first) (option_map application_of second)
        (ite (expr c) (expr x) (expr y))) }
{
    match first {
        None => ite(alloc, c, x, y),
        Some(a) => match second {
            None => ite(alloc, c, x, y),
            Some(b) => branch_between(alloc, c, a, b, x, y),
        },
    }
}

fn branch_between(
    alloc: Global,
    c: Tree,
    a: Applied,
    b: Applied,
    x: Tree,
    y: Tree,
) -> Result<Tree, NoMemory>
    ensures { IfOk result (λ t.
        expr t
        ≡ branch_of (expr c) (Some (application_of a)) (Some (application_of b))
        (ite (expr c) (expr x) (expr y))) }
{
    if a.name.as_slice() == b.name.as_slice() && same_count(a.args.as_slice(), b.args.as_slice()) {
        return joined_application(alloc, &c, &a, &b);
    }
    ite(alloc, c, x, y)
}

// ---- what a term applies

/// What a term applies, if it is an application under bindings and guards.
#[cycle(applications)]
fn application(alloc: Global, tree: &Tree) -> Result<Option<Applied>, NoMemory>
    ensures { IfOk result (λ o. option_map application_of o ≡ application (expr tree.now)) }
{
    match tree {
        Tree::Atom(_) => Ok(None),
        Tree::Node(items) => {
            let bound = in_let(alloc, items.as_slice())?;
            let chosen = in_ite(alloc, items.as_slice())?;
            first_applied(alloc, items.as_slice(), bound, chosen)
        }
    }
}

#[cycle(applications)]
fn in_let(alloc: Global, items: &[Tree]) -> Result<Option<Applied>, NoMemory>
    ensures { IfOk result (λ o. option_map application_of o ≡ in_let (exprs (map expr items.now))) }
{
    match items {
        [] => Ok(None),
        [_head] => Ok(None),
        [_head, _bindings] => Ok(None),
        [head, bindings, body] => {
            let inner = application(alloc, body)?;
            under_let(alloc, head, bindings, inner)
        }
        [_head, _bindings, _body, _fourth, _more @ ..] => Ok(None),
    }
}

#[cycle(applications)]
fn in_ite(alloc: Global, items: &[Tree]) -> Result<Option<Applied>, NoMemory>
    ensures { IfOk result (λ o. option_map application_of o ≡ in_ite (exprs (map expr items.now))) }
{
    match items {
        [] => Ok(None),
        [_head] => Ok(None),
        [_head, _c] => Ok(None),
        [_head, _c, _x] => Ok(None),
        [head, c, x, y] => {
            let inner = application(alloc, x)?;
            under_ite(alloc, head, c, y, inner)
        }
        [_head, _c, _x, _y, _fifth, _more @ ..] => Ok(None),
    }
}

fn first_applied(
    alloc: Global,
    items: &[Tree],
    bound: Option<Applied>,
    chosen: Option<Applied>,
) -> Result<Option<Applied>, NoMemory>
    ensures { IfOk result (λ o.
        option_map application_of o
        ≡ first_applied (option_map application_of bound) (option_map application_of chosen)
        (plain_items (exprs (map expr items.now)))) }
{
    match bound {
        Some(a) => Ok(Some(a)),
        None => match chosen {
            Some(b) => Ok(Some(b)),
            None => plain_items(alloc, items),
        },
    }
}

fn plain_items(alloc: Global, items: &[Tree]) -> Result<Option<Applied>, NoMemory>
    ensures { IfOk result (λ o.
        option_map application_of o ≡ plain_items (exprs (map expr items.now))) }
{
    match items {
        [] => Ok(None),
        [head, rest @ ..] => plain_of(alloc, head, rest),
    }
}

fn under_let(
    alloc: Global,
    head: &Tree,
    bindings: &Tree,
    inner: Option<Applied>,
) -> Result<Option<Applied>, NoMemory>
    ensures { IfOk result (λ o.
        option_map application_of o
        ≡ under_let (expr head.now) (expr bindings.now) (option_map application_of inner)) }
{
    if is_atom(b"let", head) {
        return under_bindings(alloc, bindings, inner);
    }
    Ok(None)
}

fn under_ite(
    alloc: Global,
    head: &Tree,
    c: &Tree,
    y: &Tree,
    inner: Option<Applied>,
) -> Result<Option<Applied>, NoMemory>
    ensures { IfOk result (λ o.
        option_map application_of o
        ≡ under_ite (expr head.now) (expr c.now) (expr y.now) (option_map application_of inner)) }
{
    if is_atom(b"ite", head) {
        return under_choice(alloc, c, y, inner);
    }
    Ok(None)
}

fn plain_of(alloc: Global, head: &Tree, args: &[Tree]) -> Result<Option<Applied>, NoMemory>
    ensures { IfOk result (λ o.
        option_map application_of o ≡ plain_of (expr head.now) (exprs (map expr args.now))) }
{
    match head {
        Tree::Atom(name) => plain_named(alloc, name.as_slice(), args),
        Tree::Node(_) => Ok(None),
    }
}

fn plain_named(alloc: Global, name: &[u8], args: &[Tree]) -> Result<Option<Applied>, NoMemory>
    ensures { IfOk result (λ o.
        option_map application_of o ≡ plain_of (Atom name.now) (exprs (map expr args.now))) }
{
    if is_fun_name(name) {
        let applied = plain(alloc, name, args)?;
        return Ok(Some(applied));
    }
    Ok(None)
}

/// A function applied to terms.
fn plain(alloc: Global, name: &[u8], args: &[Tree]) -> Result<Applied, NoMemory>
    ensures { IfOk result (λ a. application_of a ≡ plain name.now (exprs (map expr args.now))) }
{
    let name = List::from_slice(alloc, name)?;
    let args = copy_trees(alloc, args)?;
    Ok(Applied {
        guard: None,
        name,
        args,
    })
}

/// Whether that is the name of a definition's function.
fn is_fun_name(name: &[u8]) -> bool
    ensures { result ≡ is_fun_name name.now }
{
    match name {
        [] => false,
        [first, _rest @ ..] => *first == b'f',
    }
}

// ---- under bindings

fn under_bindings(
    alloc: Global,
    bindings: &Tree,
    inner: Option<Applied>,
) -> Result<Option<Applied>, NoMemory>
    ensures { IfOk result (λ o.
        option_map application_of o
        ≡ under_bindings (expr bindings.now) (option_map application_of inner)) }
{
    match bindings {
        Tree::Atom(_) => Ok(None),
        Tree::Node(items) => under_list(alloc, items.as_slice(), inner),
    }
}

fn under_list(
    alloc: Global,
    bindings: &[Tree],
    inner: Option<Applied>,
) -> Result<Option<Applied>, NoMemory>
    ensures { IfOk result (λ o.
        option_map application_of o
        ≡ under_list (exprs (map expr bindings.now)) (option_map application_of inner)) }
{
    match bindings {
        [] => Ok(None),
        [binding] => under_binding(alloc, binding, inner),
        [_first, _second, _more @ ..] => Ok(None),
    }
}

fn under_binding(
    alloc: Global,
    binding: &Tree,
    inner: Option<Applied>,
) -> Result<Option<Applied>, NoMemory>
    ensures { IfOk result (λ o.
        option_map application_of o
        ≡ under_binding (expr binding.now) (option_map application_of inner)) }
{
    match binding {
        Tree::Atom(_) => Ok(None),
        Tree::Node(parts) => under_parts(alloc, parts.as_slice(), inner),
    }
}

fn under_parts(
    alloc: Global,
    parts: &[Tree],
    inner: Option<Applied>,
) -> Result<Option<Applied>, NoMemory>
    ensures { IfOk result (λ o.
        option_map application_of o
        ≡ under_parts (exprs (map expr parts.now)) (option_map application_of inner)) }
{
    match parts {
        [] => Ok(None),
        [_name] => Ok(None),
        [name, term] => under_pair(alloc, name, term, inner),
        [_name, _term, _third, _more @ ..] => Ok(None),
    }
}

fn under_pair(
    alloc: Global,
    name: &Tree,
    term: &Tree,
    inner: Option<Applied>,
) -> Result<Option<Applied>, NoMemory>
    ensures { IfOk result (λ o.
        option_map application_of o
        ≡ under_pair (expr name.now) (expr term.now) (option_map application_of inner)) }
{
    match name {
        Tree::Atom(name) => under_name(alloc, name.as_slice(), term, inner),
        Tree::Node(_) => Ok(None),
    }
}

fn under_name(
    alloc: Global,
    name: &[u8],
    term: &Tree,
    inner: Option<Applied>,
) -> Result<Option<Applied>, NoMemory>
    ensures { IfOk result (λ o.
        option_map application_of o
        ≡ under_pair (Atom name.now) (expr term.now) (option_map application_of inner)) }
{
    if b"true".as_slice() == name {
        return Ok(None);
    }
    match inner {
        None => Ok(None),
        Some(a) => {
            let applied = with_binding(alloc, name, term, &a)?;
            Ok(Some(applied))
        }
    }
}

/// What is applied where the name stands for a term.
fn with_binding(alloc: Global, name: &[u8], term: &Tree, a: &Applied) -> Result<Applied, NoMemory>
    ensures { IfOk result (λ b.
        application_of b ≡ with_binding name.now (expr term.now) (application_of a.now)) }
{
    let guard = bound_guard(alloc, name, term, &a.guard)?;
    let args = bound_each(alloc, name, term, a.args.as_slice())?;
    let name = List::from_slice(alloc, a.name.as_slice())?;
    Ok(Applied { guard, name, args })
}

fn bound_guard(
    alloc: Global,
    name: &[u8],
    term: &Tree,
    guard: &Option<Tree>,
) -> Result<Option<Tree>, NoMemory>
    ensures { IfOk result (λ o.
        option_map expr o
        ≡ option_map (bound name.now (expr term.now)) (option_map expr guard.now)) }
{
    match guard {
        None => Ok(None),
        Some(c) => {
            let bound = bound_copy(alloc, name, term, c)?;
            Ok(Some(bound))
        }
    }
}

fn bound_each(
    alloc: Global,
    name: &[u8],
    term: &Tree,
    bodies: &[Tree],
) -> Result<List<Tree>, NoMemory>
    ensures { IfOk result (λ items.
        exprs (map expr items)
        ≡ bound_each name.now (expr term.now) (exprs (map expr bodies.now))) }
{
    let mut items = List::new(alloc);
    match bodies {
        [] => Ok(items),
        [first, rest @ ..] => {
            let body = bound_copy(alloc, name, term, first)?;
            items.push(body)?;
            let more = bound_each(alloc, name, term, rest)?;
            items.append(more)?;
            Ok(items)
        }
    }
}

/// A copy of a body in which the name stands for a term.
fn bound_copy(alloc: Global, name: &[u8], term: &Tree, body: &Tree) -> Result<Tree, NoMemory>
    ensures { IfOk result (λ t. expr t ≡ bound name.now (expr term.now) (expr body.now)) }
{
    let term = copy_tree(alloc, term)?;
    let body = copy_tree(alloc, body)?;
    bound(alloc, name, term, body)
}

// ---- under guards

fn under_choice(
    alloc: Global,
    c: &Tree,
    y: &Tree,
    inner: Option<Applied>,
) -> Result<Option<Applied>, NoMemory>
    ensures { IfOk result (λ o.
        option_map application_of o
        ≡ under_choice (expr c.now) (expr y.now) (option_map application_of inner)) }
{
    if is_falsity(y) {
        return under_guard(alloc, c, inner);
    }
    Ok(None)
}

fn under_guard(alloc: Global, c: &Tree, inner: Option<Applied>) -> Result<Option<Applied>, NoMemory>
    ensures { IfOk result (λ o.
        option_map application_of o
        ≡ option_map (with_guard (expr c.now)) (option_map application_of inner)) }
{
    match inner {
        None => Ok(None),
        Some(a) => {
            let applied = with_guard(alloc, c, &a)?;
            Ok(Some(applied))
        }
    }
}

/// What is applied where a further condition holds.
fn with_guard(alloc: Global, c: &Tree, a: &Applied) -> Result<Applied, NoMemory>
    ensures { IfOk result (λ b. application_of b ≡ with_guard (expr c.now) (application_of a.now)) }
{
    let guard = both_guards(alloc, c, &a.guard)?;
    let name = List::from_slice(alloc, a.name.as_slice())?;
    let args = copy_trees(alloc, a.args.as_slice())?;
    Ok(Applied {
        guard: Some(guard),
        name,
        args,
    })
}

fn both_guards(alloc: Global, c: &Tree, guard: &Option<Tree>) -> Result<Tree, NoMemory>
    ensures { IfOk result (λ t. expr t ≡ both_guards (expr c.now) (option_map expr guard.now)) }
{
    let c = copy_tree(alloc, c)?;
    match guard {
        None => Ok(c),
        Some(d) => {
            let d = copy_tree(alloc, d)?;
            let otherwise = falsity(alloc)?;
            ite(alloc, c, d, otherwise)
        }
    }
}

fn is_falsity(tree: &Tree) -> bool
    ensures { result ≡ is_falsity (expr tree.now) }
{
    match tree {
        Tree::Atom(_) => false,
        Tree::Node(items) => is_not_true(items.as_slice()),
    }
}

fn is_not_true(items: &[Tree]) -> bool
    ensures { result ≡ is_not_true (exprs (map expr items.now)) }
{
    match items {
        [] => false,
        [_f] => false,
        [f, t] => is_atom(b"not", f) && is_atom(b"true", t),
        [_f, _t, _third, _more @ ..] => false,
    }
}

// ---- one application

/// One application, to arguments that the condition chooses.
fn joined_application(alloc: Global, c: &Tree, a: &Applied, b: &Applied) -> Result<Tree, NoMemory>
    ensures { IfOk result (λ t.
        expr t
        ≡ application_expr (joined_applications (expr c.now) (application_of a.now)
        (application_of b.now))) }
{
    let guard = chosen_guard(alloc, c, &a.guard, &b.guard)?;
    let args = chosen_each(alloc, c, a.args.as_slice(), b.args.as_slice())?;
    let term = node(alloc, a.name.as_slice(), args)?;
    guarded(alloc, guard, term)
}

fn node(alloc: Global, name: &[u8], args: List<Tree>) -> Result<Tree, NoMemory>
    ensures { IfOk result (λ t. expr t ≡ Node (Then (Atom name.now) (exprs (map expr args)))) }
{
    let head = atom(alloc, name)?;
    let mut items = List::new(alloc);
    items.push(head)?;
    items.append(args)?;
    Ok(Tree::Node(items))
}

fn guarded(alloc: Global, guard: Option<Tree>, term: Tree) -> Result<Tree, NoMemory>
    ensures { IfOk result (λ t. expr t ≡ guarded (option_map expr guard) (expr term)) }
{
    match guard {
        None => Ok(term),
        Some(c) => {
            let otherwise = falsity(alloc)?;
            ite(alloc, c, term, otherwise)
        }
    }
}

fn chosen_guard(
    alloc: Global,
    c: &Tree,
    x: &Option<Tree>,
    y: &Option<Tree>,
) -> Result<Option<Tree>, NoMemory>
    ensures { IfOk result (λ o.
        option_map expr o
        ≡ chosen_guard (expr c.now) (option_map expr x.now) (option_map expr y.now)) }
{
    match x {
        None => match y {
            None => Ok(None),
            Some(y) => {
                let truth = atom(alloc, b"true")?;
                let guard = chosen(alloc, c, &truth, y)?;
                Ok(Some(guard))
            }
        },
        Some(x) => {
            let guard = chosen_or_true(alloc, c, x, y)?;
            Ok(Some(guard))
        }
    }
}

fn chosen_or_true(alloc: Global, c: &Tree, x: &Tree, y: &Option<Tree>) -> Result<Tree, NoMemory>
    ensures { IfOk result (λ t.
        Some (expr t) ≡ chosen_guard (expr c.now) (Some (expr x.now)) (option_map expr y.now)) }
{
    match y {
        None => {
            let truth = atom(alloc, b"true")?;
            chosen(alloc, c, x, &truth)
        }
        Some(y) => chosen(alloc, c, x, y),
    }
}

fn chosen_each(alloc: Global, c: &Tree, xs: &[Tree], ys: &[Tree]) -> Result<List<Tree>, NoMemory>
    ensures { IfOk result (λ items.
        exprs (map expr items)
        ≡ chosen_each (expr c.now) (exprs (map expr xs.now)) (exprs (map expr ys.now))) }
{
    let mut items = List::new(alloc);
    match xs {
        [] => Ok(items),
        [x, xs @ ..] => match ys {
            [] => Ok(items),
            [y, ys @ ..] => {
                let first = chosen(alloc, c, x, y)?;
                items.push(first)?;
                let more = chosen_each(alloc, c, xs, ys)?;
                items.append(more)?;
                Ok(items)
            }
        },
    }
}

/// The first term where the condition is true, else the second.
fn chosen(alloc: Global, c: &Tree, x: &Tree, y: &Tree) -> Result<Tree, NoMemory>
    ensures { IfOk result (λ t. expr t ≡ chosen (expr c.now) (expr x.now) (expr y.now)) }
{
    let first = copy_tree(alloc, x)?;
    if same_atom(x, y) {
        return Ok(first);
    }
    let second = copy_tree(alloc, y)?;
    let c = copy_tree(alloc, c)?;
    ite(alloc, c, first, second)
}

fn same_atom(x: &Tree, y: &Tree) -> bool
    ensures { result ≡ same_atom (expr x.now) (expr y.now) }
{
    match x {
        Tree::Atom(name) => is_atom(name.as_slice(), y),
        Tree::Node(_) => false,
    }
}

fn same_count(xs: &[Tree], ys: &[Tree]) -> bool
    ensures { result ≡ same_count (exprs (map expr xs.now)) (exprs (map expr ys.now)) }
{
    match xs {
        [] => match ys {
            [] => true,
            [_y, _ys @ ..] => false,
        },
        [_x, xs @ ..] => match ys {
            [] => false,
            [_y, ys @ ..] => same_count(xs, ys),
        },
    }
}

// ---- copies

#[cycle(copies)]
fn copy_tree(alloc: Global, tree: &Tree) -> Result<Tree, NoMemory>
    ensures { IfOk result (λ t. expr t ≡ expr tree.now) }
{
    match tree {
        Tree::Atom(name) => atom(alloc, name.as_slice()),
        Tree::Node(items) => {
            let items = copy_trees(alloc, items.as_slice())?;
            Ok(Tree::Node(items))
        }
    }
}

#[cycle(copies)]
#[tactic(auto, using(crate::proofs::Lists::pushed))]
fn copy_trees(alloc: Global, items: &[Tree]) -> Result<List<Tree>, NoMemory>
    ensures { IfOk result (λ copies. map expr copies ≡ map expr items.now) }
{
    let mut copies = List::new(alloc);
    for item in items {
        let copy = copy_tree(alloc, item)?;
        copies.push(copy)?;
    }
    Ok(copies)
}
