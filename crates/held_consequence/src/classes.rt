//! Classes of words, memories and conditions: where facts let one stand for the other, both have
//! one class.
//!
//! A class is the number of a form in an arena of its own. The form of a term is the term itself,
//! but that each variable stands for the form that an equation chose for it, and that a condition
//! on an address stands over the memory before its outer stores. So two terms have one class
//! exactly where they have the same form: operations, widths, comparisons and memories count, and
//! no constants can be chosen so that others come to the same class.

ghost use Rattle.std.specs.Prelude.{◌≡◌, ◌+◌, ◌<◌, IfOk, IfSome, None as Nothing, OnOk, Some as Just, length};
ghost use Rattle.std.specs.BTreeMap.{get};
ghost use Rattle.std.specs.Ordering.{nat_cmp};
ghost use Rattle.term_arena.specs.Arena.{AreChildren, Extends, IsAdded, tree_of, tree_over, trees_of};
ghost use Rattle.held_consequence.specs.declared.classes.Variable.{Variable as VariableOf};
ghost use Rattle.held_consequence.specs.inner.Alone.{Searched};
ghost use Rattle.held_consequence.specs.inner.Classes.{AreClassed, AreForms, ArePartsAt, Grows, HasClass, HasLeaf, IsClass, IsClassOver, IsLeaf, IsWanted, all_known, class_at, class_found, leaf_of, node_over, variable_tree, parts_of as parts_of_node};
ghost use Rattle.held_terms.specs.Subterms.{HasTerm};

use rv_words::NoMemory;
use std::alloc::Global;
use std::collections::BTreeMap;
use std::marker::Brand;
use std::sync::ledger::{Blank, Ledger};
use term_arena::{Arena, Node, Steps};

/// A class: the number of a form, and that of the memory before its outer stores, if it is one of a
/// memory, else the same number.
#[derive(Clone, Copy)]
pub(crate) struct Class {
    form: u64,
    base: u64,
}

/// The classes of a term's children. Where there are fewer, the last one counts again.
#[derive(Clone, Copy)]
struct Children {
    first: Class,
    second: Class,
    third: Class,
}

/// The variable of a word or of a memory.
#[derive(Clone, Copy)]
enum Variable {
    Word(u32),
    Mem(u32),
}

/// What the form of a term is made of.
#[derive(Clone, Copy)]
enum Parts {
    /// The constant itself.
    Constant(u64),
    /// A variable, whose form is free.
    Variable(Variable),
    /// The term itself, over the forms of three children. Where there are fewer, the last one
    /// counts again.
    Over(Node, u64, u64, u64),
}

/// What the form of a node's term is made of.
fn parts_of(n: Node) -> Parts
    ensures { result ≡ parts_of_node n }
{
    match n {
        Node::Const(value) => Parts::Constant(value),
        Node::WordVar(i) => Parts::Variable(Variable::Word(i)),
        Node::Bin(_, a, b) => Parts::Over(n, a, b, b),
        Node::Extend(_, a) => Parts::Over(n, a, a, a),
        Node::Load(_, m, a) => Parts::Over(n, m, a, a),
        Node::MemVar(i) => Parts::Variable(Variable::Mem(i)),
        Node::Store(_, m, a, v) => Parts::Over(n, m, a, v),
        Node::Compare(_, a, b) => Parts::Over(n, a, b, b),
        Node::Neg(c) => Parts::Over(n, c, c, c),
        Node::Inside(_, m, a) => Parts::Over(n, m, a, a),
    }
}

/// All three, if they are known.
fn all_known(first: Option<Class>, second: Option<Class>, third: Option<Class>) -> Option<Children>
    ensures { result ≡ all_known first second third }
{
    Some(Children {
        first: first?,
        second: second?,
        third: third?,
    })
}

/// The node over the forms of its children. A condition on an address stands over the memory before
/// its outer stores.
fn node_over(n: Node, c: Children) -> Node
    ensures { result ≡ node_over n c }
{
    match n {
        Node::Bin(op, _, _) => Node::Bin(op, c.first.form, c.second.form),
        Node::Extend(ext, _) => Node::Extend(ext, c.first.form),
        Node::Load(width, _, _) => Node::Load(width, c.first.form, c.second.form),
        Node::Store(width, _, _, _) => Node::Store(
            width,
            c.first.form,
            c.second.form,
            c.third.form,
        ),
        Node::Compare(cmp, _, _) => Node::Compare(cmp, c.first.form, c.second.form),
        Node::Neg(_) => Node::Neg(c.first.form),
        Node::Inside(width, _, _) => Node::Inside(width, c.first.base, c.second.form),
        _ => n,
    }
}

/// The class of that node's form, which has that number.
fn class_at(n: Node, c: Children, form: u64) -> Class
    ensures { result ≡ class_at n c form }
{
    match n {
        Node::Store(_, _, _, _) => Class {
            form,
            base: c.first.base,
        },
        _ => Class { form, base: form },
    }
}

// ---- forms

/// The number of a form. No steps are counted.
fn add_form(forms: &mut Arena, n: Node) -> Result<u64, NoMemory>
    requires { AreChildren forms.old n }
    ensures ok { IfOk result (λ k. IsAdded forms.old n k forms.new) }
    ensures tree { IfOk result (λ k.
        tree_of forms.new k ≡ Just (tree_over (trees_of forms.old) n)) }
    ensures grows { Extends forms.old forms.new }
{
    counted_form::<Brand>(forms, n, Blank::new(1))
}

/// The number of a form, with a counter of its own.
fn counted_form<L: Ledger>(forms: &mut Arena, n: Node, blank: Blank) -> Result<u64, NoMemory>
    requires children { AreChildren forms.old n }
    requires name { blank.name ≡ L.name }
    requires parts { blank.parts ≡ L.parts }
    requires one { L.parts ≡ 1 }
    ensures ok { IfOk result (λ k. IsAdded forms.old n k forms.new) }
    ensures tree { IfOk result (λ k.
        tree_of forms.new k ≡ Just (tree_over (trees_of forms.old) n)) }
    ensures grows { Extends forms.old forms.new }
{
    forms.add(n, &mut Steps::<L>::new(blank))
}

/// The class of a form that is no store.
fn class_alone(forms: &mut Arena, n: Node) -> Result<Class, NoMemory>
    requires { AreChildren forms.old n }
    ensures form { IfOk result (λ c.
        tree_of forms.new c.form ≡ Just (tree_over (trees_of forms.old) n)) }
    ensures base { IfOk result (λ c. c.base ≡ c.form) }
    ensures grows { Extends forms.old forms.new }
{
    let form = add_form(forms, n)?;
    Ok(Class { form, base: form })
}

/// The class of that node's form over the forms of its children, if these are known.
fn class_with(
    forms: &mut Arena,
    n: Node,
    children: Option<Children>,
) -> Result<Option<Class>, NoMemory>
    requires { IfSome children (λ c. AreChildren forms.old (node_over n c)) }
    ensures class { IfOk result (λ v.
        IfSome v (λ k. IsClassOver forms.old forms.new n children k)) }
    ensures grows { Extends forms.old forms.new }
{
    match children {
        Some(c) => {
            let form = add_form(forms, node_over(n, c))?;
            Ok(Some(class_at(n, c, form)))
        }
        None => Ok(None),
    }
}

// ---- variables

/// The classes of variables that have one.
#[derive(Drop)]
pub(crate) struct Leaves {
    words: BTreeMap<u32, Class>,
    mems: BTreeMap<u32, Class>,
}

/// No variable has a class.
pub(crate) fn no_leaves(alloc: Global) -> Leaves
    ensures { (v : VariableOf) → leaf_of result v ≡ Nothing }
{
    Leaves {
        words: BTreeMap::new(alloc),
        mems: BTreeMap::new(alloc),
    }
}

fn leaf_in(leaves: &Leaves, v: Variable) -> Option<Class>
    ensures { result ≡ leaf_of leaves.now v }
{
    match v {
        Variable::Word(i) => leaf_among(&leaves.words, i),
        Variable::Mem(i) => leaf_among(&leaves.mems, i),
    }
}

fn leaf_among(leaves: &BTreeMap<u32, Class>, i: u32) -> Option<Class>
    ensures { result ≡ get nat_cmp leaves.now i }
{
    match leaves.get(&i) {
        Some(c) => Some(*c),
        None => None,
    }
}

/// Gives the variable that class.
fn put_leaf(leaves: &mut Leaves, v: Variable, c: Class) -> Result<(), NoMemory>
    ensures { OnOk result (HasLeaf leaves.old leaves.new v c) }
{
    match v {
        Variable::Word(i) => {
            leaves.words.insert(i, c)?;
        }
        Variable::Mem(i) => {
            leaves.mems.insert(i, c)?;
        }
    }
    Ok(())
}

/// The class of a variable, which is the one that is wanted, if it has none yet, and one of its
/// own, if none is wanted.
fn class_of_variable(
    forms: &mut Arena,
    leaves: &mut Leaves,
    v: Variable,
    wanted: Option<Class>,
) -> Result<Class, NoMemory>
    requires wanted { IfSome wanted (IsLeaf forms.old v) }
    requires forms { AreForms forms.old leaves.old }
    ensures class { IfOk result (λ c. leaf_of leaves.new v ≡ Just c) }
    ensures forms { OnOk result (AreForms forms.new leaves.new) }
    ensures grows { OnOk result (Grows forms.old forms.new leaves.old leaves.new) }
{
    if let Some(c) = leaf_in(leaves, v) {
        return Ok(c);
    }
    let c = wanted_or_own(forms, v, wanted)?;
    put_leaf(leaves, v, c)?;
    Ok(c)
}

/// The class that is wanted, or that of a variable that has its own.
fn wanted_or_own(forms: &mut Arena, v: Variable, wanted: Option<Class>) -> Result<Class, NoMemory>
    requires { IfSome wanted (IsLeaf forms.old v) }
    ensures leaf { IfOk result (λ c. IsLeaf forms.new v c) }
    ensures grows { Extends forms.old forms.new }
{
    match wanted {
        Some(c) => Ok(c),
        None => own_class(forms, v),
    }
}

/// The class of a variable that has its own.
fn own_class(forms: &mut Arena, v: Variable) -> Result<Class, NoMemory>
    ensures leaf { IfOk result (λ c. IsLeaf forms.new v c) }
    ensures grows { Extends forms.old forms.new }
{
    match v {
        Variable::Word(i) => class_alone(forms, Node::WordVar(i)),
        Variable::Mem(i) => class_alone(forms, Node::MemVar(i)),
    }
}

// ---- classes

/// The class of a term, as far as it is known. A variable that has none yet gets the one that is
/// wanted, if it is the term itself, else one of its own. What is found is kept, so that each term
/// is read once.
#[cycle(classes)]
pub(crate) fn class_of<L: Ledger>(
    arena: &Arena,
    forms: &mut Arena,
    leaves: &mut Leaves,
    seen: &mut BTreeMap<u64, Option<Class>>,
    x: u64,
    wanted: Option<Class>,
    steps: &mut Steps<L>,
) -> Result<Option<Class>, NoMemory>
    requires there { x < length arena.now }
    requires wanted { IfSome wanted (IsWanted arena.now forms.old x) }
    requires seen { AreClassed arena.now forms.old leaves.old seen.old }
    ensures class { IfOk result (λ v. IfSome v (HasClass arena.now forms.new leaves.new x)) }
    ensures seen { OnOk result (AreClassed arena.now forms.new leaves.new seen.new) }
    ensures grows { OnOk result (Grows forms.old forms.new leaves.old leaves.new) }
    ensures searched { Searched arena.now (HasTerm arena.now x) seen.old seen.new steps.old
        steps.new }
{
    if let Some(v) = seen_in(seen, x) {
        return Ok(v);
    }
    seen.insert(x, None)?;
    let v = class_over(arena, forms, leaves, seen, x, wanted, steps)?;
    seen.insert(x, v)?;
    Ok(v)
}

/// The class of a term that wasn't read yet.
#[cycle(classes)]
fn class_over<L: Ledger>(
    arena: &Arena,
    forms: &mut Arena,
    leaves: &mut Leaves,
    seen: &mut BTreeMap<u64, Option<Class>>,
    x: u64,
    wanted: Option<Class>,
    steps: &mut Steps<L>,
) -> Result<Option<Class>, NoMemory>
    requires there { x < length arena.now }
    requires wanted { IfSome wanted (IsWanted arena.now forms.old x) }
    requires seen { AreClassed arena.now forms.old leaves.old seen.old }
    ensures class { IfOk result (λ v. IfSome v (HasClass arena.now forms.new leaves.new x)) }
    ensures seen { OnOk result (AreClassed arena.now forms.new leaves.new seen.new) }
    ensures grows { OnOk result (Grows forms.old forms.new leaves.old leaves.new) }
    ensures searched { Searched arena.now (HasTerm arena.now x) seen.old seen.new (steps.old + 1)
        steps.new }
{
    match read_parts(arena, x, steps) {
        Parts::Constant(n) => {
            let c = class_alone(forms, Node::Const(n))?;
            Ok(Some(c))
        }
        Parts::Variable(v) => {
            let c = class_of_variable(forms, leaves, v, wanted)?;
            Ok(Some(c))
        }
        Parts::Over(n, a, b, d) => {
            let first = class_of(arena, forms, leaves, seen, a, None, steps)?;
            let second = class_of(arena, forms, leaves, seen, b, None, steps)?;
            let third = class_of(arena, forms, leaves, seen, d, None, steps)?;
            let c = class_with(forms, n, all_known(first, second, third))?;
            Ok(c)
        }
    }
}

/// What the form of a number's term is made of.
fn read_parts<L: Ledger>(arena: &Arena, x: u64, steps: &mut Steps<L>) -> Parts
    requires { x < length arena.now }
    ensures parts { ArePartsAt arena.now x result }
    ensures steps { steps.new ≡ steps.old + 1 }
{
    let n = arena.node(x, steps);
    parts_of(n)
}

/// What is known of a number's class, if it was read.
fn seen_in(seen: &BTreeMap<u64, Option<Class>>, x: u64) -> Option<Option<Class>>
    ensures { result ≡ get nat_cmp seen.now x }
{
    match seen.get(&x) {
        Some(v) => Some(*v),
        None => None,
    }
}

/// The class of a number, if it is known, by the number of its form.
pub(crate) fn class_in(seen: &BTreeMap<u64, Option<Class>>, x: u64) -> Option<u64>
    ensures { result ≡ class_found (get nat_cmp seen.now x) }
{
    match seen_in(seen, x) {
        Some(Some(c)) => Some(c.form),
        _ => None,
    }
}
