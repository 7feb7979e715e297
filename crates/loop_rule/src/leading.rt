//! The theorems that lead to the leaves of a definition. The leaves are met one after the other,
//! with one list of facts for the way to where the walk is, so that memory is linear in the
//! definition.

ghost use Rattle.std.specs.Prelude.{◌≡◌, ◌++◌, ◌∷◌, [], IfOk, IsErrOf, IsOk, OnOk, length, map, take};
ghost use Rattle.std.specs.List.{AllZip, Contains};
ghost use Rattle.tailrec_lang.specs.Tree.{BodyTree, DefTree, GroupTree, body_tree, def_tree, exits_at, group_tree, step_tree, values_tree, with_steps};
ghost use Rattle.tailrec_lang.specs.inner.Tree.{arm_trees, end_tree};
ghost use Rattle.triple_kernel.specs.Tree.{fact_tree};
ghost use Rattle.loop_rule.specs.Tree.{LeafTree, leaf_with};
ghost use Rattle.loop_rule.specs.Leaves.{arm_leaves, body_leaves, leaves_of};
ghost use Rattle.loop_rule.specs.Rule.{IsLedTo};
ghost use Rattle.loop_rule.specs.Judge.{Went};
ghost use Rattle.loop_rule.specs.inner.Citing.{IsOf, Walks};
ghost use Rattle.loop_rule.specs.inner.Rule.{IsLed};

use crate::assertions::{entry_with, exit_at, exit_with};
use crate::judge::JudgeLeaves;
use crate::paths::{Scope, call_fact, contrary, fact_of, first_scope, scope_after, scope_in_arm};
use rv_words::NoMemory;
use sep_assert::Assertion;
use std::alloc::Global;
use tailrec_lang::{Body, Def, End, Group, Step, Values, exits_of};
use triple_kernel::{Fact, RuleFault};
use word_terms::copy_cond;

/// A definition to be closed, its group, and the numbers of the theorems that are cited for its
/// leaves.
#[derive(Drop)]
pub(crate) struct Citing<'a> {
    group: &'a Group,
    def: &'a Def,
    cited: &'a [u64],
}

/// Cites a theorem for each leaf of the definition, in their order, none of which is left. The
/// judge begins before the first step; there is no instance where a theorem doesn't lead to its
/// leaf.
#[tactic(auto, using(crate::proofs::WalkLemmas::went_same, crate::proofs::WalkLemmas::went_more))]
pub fn cite_for_leaves<J: JudgeLeaves>(
    alloc: Global,
    g: &Group,
    def: &Def,
    cited: &[u64],
    judge: &mut J,
) -> Result<(), RuleFault>
    requires ready { J.judge.IsReady judge.old }
    requires group { (J.judge.closing judge.old).group ≡ group_tree g.now }
    requires def { (J.judge.closing judge.old).def ≡ def_tree def.now }
    requires begins { J.judge.way judge.old ≡ [] }
    ensures led { IsOk result
        → AllZip (IsLedTo (group_tree g.now) (def_tree def.now))
        (leaves_of (group_tree g.now) (def_tree def.now))
        (map (J.judge.closing judge.old).theorem cited.now) }
    ensures holds { IsOk result
        → (leaf : LeafTree)
        → Contains (leaves_of (group_tree g.now) (def_tree def.now)) leaf
        → IsLed (J.judge.Holds (group_tree g.now)) (group_tree g.now) (def_tree def.now) leaf }
    ensures not_led { IsErrOf result RuleFault.NoInstance
        → AllZip (IsLedTo (group_tree g.now) (def_tree def.now))
        (leaves_of (group_tree g.now) (def_tree def.now))
        (map (J.judge.closing judge.old).theorem cited.now)
        → ⊥ }
    ensures went { Went J.judge (leaves_of (group_tree g.now) (def_tree def.now)) judge.old
        judge.new }
{
    let citing = Citing {
        group: g,
        def,
        cited,
    };
    let start = first_scope(g)?;
    let scope = push_steps(alloc, def.body.steps.as_slice(), start, judge)?;
    let used = cite_for_end(alloc, &citing, &def.body.end, scope, judge, 0)?;
    if used < cited.len() {
        return Err(RuleFault::NoInstance);
    }
    Ok(())
}

/// Cites the theorems from that place on for the leaves of the end of a body, to which the judge's
/// way leads. Gives the place behind them. The way is then what it was.
#[cycle(leaves)]
#[tactic(auto, using(crate::proofs::WalkLemmas::went_same, crate::proofs::WalkLemmas::went_more))]
fn cite_for_end<J: JudgeLeaves>(
    alloc: Global,
    c: &Citing<'_>,
    end: &End,
    scope: Scope,
    judge: &mut J,
    place: usize,
) -> Result<usize, RuleFault>
    requires { IsOf J.judge c.now judge.old }
    ensures { Walks J.judge c.now
        (body_leaves (group_tree c.now.group.now) (def_tree c.now.def.now) (end_tree end.now)
        scope.words scope.mems (J.judge.way judge.old)) place judge.old judge.new result }
{
    match end {
        End::Branch(cond, a, b) => {
            let holds = copy_cond(alloc, cond)?;
            let fails = contrary(alloc, cond)?;
            let place = cite_behind(alloc, c, Fact::So(holds), a, scope, judge, place)?;
            cite_behind(alloc, c, Fact::So(fails), b, scope, judge, place)
        }
        End::Call(callee, values, arms) => {
            cite_for_arms(
                alloc,
                c,
                *callee,
                values,
                arms.as_slice(),
                scope,
                judge,
                place,
            )
        }
        End::Again(values) => {
            let post = entry_with(alloc, c.group, c.def, values)?;
            cite_for_leaf(alloc, c, judge, &post, place)
        }
        End::Leave(exit, values) => {
            let exit = exit_at(c.def, *exit);
            let post = exit_with(alloc, c.group, exit, values)?;
            cite_for_leaf(alloc, c, judge, &post, place)
        }
    }
}

/// Cites theorems for the leaves of the arms of a call with these values.
#[cycle(leaves)]
fn cite_for_arms<J: JudgeLeaves>(
    alloc: Global,
    c: &Citing<'_>,
    callee: u32,
    values: &Values,
    arms: &[Body],
    scope: Scope,
    judge: &mut J,
    place: usize,
) -> Result<usize, RuleFault>
    requires { IsOf J.judge c.now judge.old }
    ensures { Walks J.judge c.now
        (arm_leaves (group_tree c.now.group.now) (def_tree c.now.def.now) callee
        (exits_at (group_tree c.now.group.now) callee) 0 (values_tree values.now)
        (arm_trees arms.now) scope.words scope.mems (J.judge.way judge.old)) place judge.old
        judge.new result }
{
    let exits = exits_of(c.group, callee as usize);
    let count = arms.len().min(exits.len());
    let mut next = place;
    for i in 0..count {
        let gives = call_fact(alloc, c.group, callee, i, exits[i], values, scope)?;
        let arm_scope = scope_in_arm(c.group, exits[i], scope)?;
        next = cite_behind(alloc, c, gives, &arms[i], arm_scope, judge, next)?;
    }
    Ok(next)
}

/// Cites theorems for the leaves of a body to which the way leads with one fact more.
#[cycle(leaves)]
#[tactic(auto, using(crate::proofs::WalkLemmas::went_same, crate::proofs::WalkLemmas::went_more))]
fn cite_behind<J: JudgeLeaves>(
    alloc: Global,
    c: &Citing<'_>,
    fact: Fact,
    body: &Body,
    scope: Scope,
    judge: &mut J,
    place: usize,
) -> Result<usize, RuleFault>
    requires { IsOf J.judge c.now judge.old }
    ensures { Walks J.judge c.now
        (body_leaves (group_tree c.now.group.now) (def_tree c.now.def.now) (body_tree body.now)
        scope.words scope.mems (J.judge.way judge.old ++ fact_tree fact ∷ [])) place judge.old
        judge.new result }
{
    let length = judge.length();
    judge.push(fact)?;
    let scope = push_steps(alloc, body.steps.as_slice(), scope, judge)?;
    let next = cite_for_end(alloc, c, &body.end, scope, judge, place)?;
    judge.shorten(length);
    Ok(next)
}

/// Cites the theorem at that place for the leaf at the end of the way.
fn cite_for_leaf<J: JudgeLeaves>(
    alloc: Global,
    c: &Citing<'_>,
    judge: &mut J,
    post: &Assertion,
    place: usize,
) -> Result<usize, RuleFault>
    requires { IsOf J.judge c.now judge.old }
    ensures { Walks J.judge c.now (leaf_with (J.judge.way judge.old) post.now ∷ []) place judge.old
        judge.new result }
{
    let Some(number) = c.cited.get(place) else {
        return Err(RuleFault::NoInstance);
    };
    let led = judge.is_led(alloc, post, *number)?;
    if led {
        Ok(place + 1)
    } else {
        Err(RuleFault::NoInstance)
    }
}

/// Adds the facts of steps, and tells the scope after them.
fn push_steps<J: JudgeLeaves>(
    alloc: Global,
    steps: &[Step],
    scope: Scope,
    judge: &mut J,
) -> Result<Scope, NoMemory>
    requires { J.judge.IsReady judge.old }
    ensures leaves { IfOk result (λ after.
        (g : GroupTree) (def : DefTree) (rest : BodyTree)
        → body_leaves g def (with_steps (map step_tree steps.now) rest) scope.words scope.mems
        (J.judge.way judge.old)
        ≡ body_leaves g def rest after.words after.mems (J.judge.way judge.new)) }
    ensures way { OnOk result (take (length (J.judge.way judge.old)) (J.judge.way judge.new)
        ≡ J.judge.way judge.old) }
    ensures went { Went J.judge [] judge.old judge.new }
{
    let mut after = scope;
    for step in steps {
        let fact = fact_of(alloc, step, after)?;
        judge.push(fact)?;
        after = scope_after(step, after)?;
    }
    Ok(after)
}
