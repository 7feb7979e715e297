//! Constants and addresses of a group are 64-bit words, since the program holds them as such. These
//! functions read them all, and so tell it of the group's tree.

ghost use Rattle.std.specs.Prelude.{map};
ghost use Rattle.std.specs.List.{AllByRecursion};
ghost use Rattle.word_terms.specs.Tree.{mem_tree, word_tree};
ghost use Rattle.word_terms.specs.Scope.{MemInRange, WordInRange};
ghost use Rattle.tailrec_lang.specs.Tree.{body_tree, def_tree, group_tree, step_tree, values_tree};
ghost use Rattle.tailrec_lang.specs.inner.Tree.{arm_trees, end_tree};
ghost use Rattle.group_terms.specs.Range.{ArmsInRange, BodyInRange, DefInRange, ExitInRange, GroupInRange, StepInRange, ValuesInRange};

use tailrec_lang::{Body, Def, End, Exit, Group, Step, Values};
use word_terms::{Mem, Word, is_cond_in_scope, is_mem_in_scope, is_word_in_scope};

/// Reads the constants and addresses of all definitions, in one pass.
pub fn has_range(g: &Group)
    ensures { GroupInRange (group_tree g.now) }
{
    for def in g.defs.as_slice() {
        def_has_range(def);
    }
}

fn def_has_range(def: &Def)
    ensures { DefInRange (def_tree def.now) }
{
    let _entry = def.entry;
    exits_have_range(def.exits.as_slice());
    body_has_range(&def.body);
}

fn exits_have_range(exits: &[Exit])
    ensures { AllByRecursion ExitInRange exits.now }
{
    for exit in exits {
        exit_has_range(*exit);
    }
}

fn exit_has_range(exit: Exit)
    ensures { ExitInRange exit }
{
    match exit {
        Exit::At(a) => {
            let _address = a;
        }
        Exit::Ret => (),
    }
}

#[cycle(ranges)]
#[tactic(auto, using(crate::proofs::Ranged::body_ranged))]
fn body_has_range(body: &Body)
    ensures { BodyInRange (body_tree body.now) }
{
    steps_have_range(body.steps.as_slice());
    end_has_range(&body.end);
}

fn steps_have_range(steps: &[Step])
    ensures { AllByRecursion StepInRange (map step_tree steps.now) }
{
    for step in steps {
        step_has_range(step);
    }
}

fn step_has_range(step: &Step)
    ensures { StepInRange (step_tree step.now) }
{
    match step {
        Step::Bind(t) => {
            let _in_scope = is_word_in_scope(t, 0, 0);
        }
        Step::BindMem(m) => {
            let _in_scope = is_mem_in_scope(m, 0, 0);
        }
        Step::Need(c) => {
            let _in_scope = is_cond_in_scope(c, 0, 0);
        }
    }
}

fn words_have_range(words: &[Word])
    ensures { AllByRecursion WordInRange (map word_tree words.now) }
{
    for t in words {
        let _in_scope = is_word_in_scope(t, 0, 0);
    }
}

fn mems_have_range(mems: &[Mem])
    ensures { AllByRecursion MemInRange (map mem_tree mems.now) }
{
    for m in mems {
        let _in_scope = is_mem_in_scope(m, 0, 0);
    }
}

fn values_have_range(values: &Values)
    ensures { ValuesInRange (values_tree values.now) }
{
    words_have_range(values.words.as_slice());
    mems_have_range(values.mems.as_slice());
}

#[cycle(ranges)]
fn end_has_range(end: &End)
    ensures { BodyInRange (end_tree end.now) }
{
    match end {
        End::Branch(c, a, b) => {
            let _in_scope = is_cond_in_scope(c, 0, 0);
            body_has_range(a);
            body_has_range(b);
        }
        End::Call(_, values, arms) => {
            values_have_range(values);
            arms_have_range(arms.as_slice());
        }
        End::Again(values) => values_have_range(values),
        End::Leave(_, values) => values_have_range(values),
    }
}

#[cycle(ranges)]
#[tactic(auto, using(crate::proofs::Ranged::arm_ranged))]
fn arms_have_range(arms: &[Body])
    ensures { ArmsInRange (arm_trees arms.now) }
{
    for arm in arms {
        body_has_range(arm);
    }
}
