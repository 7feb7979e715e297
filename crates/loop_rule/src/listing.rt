//! The leaves of a definition as a list, each with all facts of the way there.

ghost use Rattle.std.specs.Prelude.{◌≡◌, ◌++◌, IfOk, OnOk, length, map, take};
ghost use Rattle.tailrec_lang.specs.Tree.{BodyTree, DefTree, GroupTree, body_tree, def_tree, exits_at, group_tree, step_tree, values_tree, with_steps};
ghost use Rattle.tailrec_lang.specs.inner.Tree.{arm_trees};
ghost use Rattle.triple_kernel.specs.Tree.{fact_tree};
ghost use Rattle.loop_rule.specs.Tree.{leaf_tree};
ghost use Rattle.loop_rule.specs.Leaves.{arm_leaves, body_leaves, leaves_at, leaves_of};

use crate::assertions::{entry_with, exit_at, exit_with};
use crate::paths::{Scope, call_fact, contrary, fact_of, first_scope, scope_after, scope_in_arm};
use rv_words::{List, NoMemory};
use sep_assert::Assertion;
use std::alloc::Global;
use tailrec_lang::{Body, Def, End, Group, Step, Values, exits_of};
use triple_kernel::{Fact, copy_facts};
use word_terms::copy_cond;

/// An end of a body at which an entry into it ends: the facts of the way there, and what has to
/// hold there.
#[derive(Debug, Drop)]
pub struct Leaf {
    pub facts: List<Fact>,
    pub post: Assertion,
}

/// The leaves of the definition of that number, in the order of its text; none, if there is no such
/// definition.
pub fn leaves(alloc: Global, g: &Group, def: u32) -> Result<List<Leaf>, NoMemory>
    ensures { IfOk result (λ list. map leaf_tree list ≡ leaves_at (group_tree g.now) def) }
{
    match g.defs.get(def as usize) {
        Some(def) => leaves_of_def(alloc, g, def),
        None => Ok(List::new(alloc)),
    }
}

/// The leaves of the definition.
fn leaves_of_def(alloc: Global, g: &Group, def: &Def) -> Result<List<Leaf>, NoMemory>
    ensures { IfOk result (λ list.
        map leaf_tree list ≡ leaves_of (group_tree g.now) (def_tree def.now)) }
{
    let scope = first_scope(g)?;
    let mut list = List::new(alloc);
    add_leaves(alloc, g, def, &def.body, scope, List::new(alloc), &mut list)?;
    Ok(list)
}

/// Adds the leaves of a body, to which a way with those facts leads.
#[cycle(leaves)]
fn add_leaves(
    alloc: Global,
    g: &Group,
    def: &Def,
    body: &Body,
    scope: Scope,
    facts: List<Fact>,
    list: &mut List<Leaf>,
) -> Result<(), NoMemory>
    ensures { OnOk result (map leaf_tree list.new
        ≡ map leaf_tree list.old
        ++ body_leaves (group_tree g.now) (def_tree def.now) (body_tree body.now) scope.words
        scope.mems (map fact_tree facts)) }
{
    let mut path = facts;
    let after = add_steps(alloc, body.steps.as_slice(), scope, &mut path)?;
    match &body.end {
        End::Branch(c, a, b) => {
            let mut first = copy_facts(alloc, path.as_slice())?;
            let holds = copy_cond(alloc, c)?;
            first.push(Fact::So(holds))?;
            add_leaves(alloc, g, def, a, after, first, list)?;
            let fails = contrary(alloc, c)?;
            path.push(Fact::So(fails))?;
            add_leaves(alloc, g, def, b, after, path, list)?;
            Ok(())
        }
        End::Call(callee, values, arms) => {
            add_arm_leaves(
                alloc,
                g,
                def,
                *callee,
                values,
                arms.as_slice(),
                after,
                path.as_slice(),
                list,
            )?;
            Ok(())
        }
        End::Again(values) => {
            let post = entry_with(alloc, g, def, values)?;
            list.push(Leaf { facts: path, post })?;
            Ok(())
        }
        End::Leave(exit, values) => {
            let exit = exit_at(def, *exit);
            let post = exit_with(alloc, g, exit, values)?;
            list.push(Leaf { facts: path, post })?;
            Ok(())
        }
    }
}

/// Adds the leaves of the arms of a call with these values.
#[cycle(leaves)]
fn add_arm_leaves(
    alloc: Global,
    g: &Group,
    def: &Def,
    callee: u32,
    values: &Values,
    arms: &[Body],
    scope: Scope,
    facts: &[Fact],
    list: &mut List<Leaf>,
) -> Result<(), NoMemory>
    ensures { OnOk result (map leaf_tree list.new
        ≡ map leaf_tree list.old
        ++ arm_leaves (group_tree g.now) (def_tree def.now) callee
        (exits_at (group_tree g.now) callee) 0 (values_tree values.now) (arm_trees arms.now)
        scope.words scope.mems (map fact_tree facts.now)) }
{
    let exits = exits_of(g, callee as usize);
    let count = arms.len().min(exits.len());
    for i in 0..count {
        let mut path = copy_facts(alloc, facts)?;
        let gives = call_fact(alloc, g, callee, i, exits[i], values, scope)?;
        path.push(gives)?;
        let arm_scope = scope_in_arm(g, exits[i], scope)?;
        add_leaves(alloc, g, def, &arms[i], arm_scope, path, list)?;
    }
    Ok(())
}

/// Adds the facts of steps, and tells the scope after them.
fn add_steps(
    alloc: Global,
    steps: &[Step],
    scope: Scope,
    path: &mut List<Fact>,
) -> Result<Scope, NoMemory>
    ensures leaves { IfOk result (λ after.
        (g : GroupTree) (def : DefTree) (rest : BodyTree)
        → body_leaves g def (with_steps (map step_tree steps.now) rest) scope.words scope.mems
        (map fact_tree path.old)
        ≡ body_leaves g def rest after.words after.mems (map fact_tree path.new)) }
    ensures path { OnOk result (take (length path.old) path.new ≡ path.old) }
{
    let mut after = scope;
    for step in steps {
        let fact = fact_of(alloc, step, after)?;
        path.push(fact)?;
        after = scope_after(step, after)?;
    }
    Ok(after)
}
