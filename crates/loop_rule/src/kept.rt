//! Leaves that are judged by theorems in a list.

ghost use Rattle.std.specs.Prelude.{◌≡◌, ◌↔◌, IsTrue, map};
ghost use Rattle.tailrec_lang.specs.Tree.{def_tree, group_tree};
ghost use Rattle.triple_kernel.specs.Tree.{fact_tree, triple_tree};
ghost use Rattle.triple_kernel.specs.Valid.{Valid};
ghost use Rattle.loop_rule.specs.Tree.{leaf_with};
ghost use Rattle.loop_rule.specs.Rule.{LeadsTo};
ghost use Rattle.loop_rule.specs.inner.Citing.{AreOfGroup};

use crate::judge::JudgeLeaves;
use rv_words::{List, NoMemory};
use sep_assert::{Assertion, code_within, same_assertion};
use std::alloc::Global;
use tailrec_lang::{Def, Group};
use triple_kernel::{Fact, Thm, are_among};

/// Judges the leaves of a definition by theorems, some of which were forgotten: its group, what
/// holds where it is entered with its parameters, and the facts of the way.
#[derive(Drop)]
pub(crate) struct KeptLeaves<'a, 'g> {
    pub group: &'a Group,
    pub def: &'a Def,
    pub entry: Assertion,
    pub kept: &'a [Option<Thm<'g>>],
    pub way: List<Fact>,
}

impl<'a, 'g> JudgeLeaves for KeptLeaves<'a, 'g> {
    ghost use Rattle.loop_rule.specs.inner.Citing.{kept_judge};

    ghost judge = { kept_judge };

    fn length(&self) -> usize {
        self.way.len()
    }

    fn push(&mut self, fact: Fact) -> Result<(), NoMemory> {
        self.way.push(fact)
    }

    fn shorten(&mut self, length: usize) {
        self.way.truncate(length);
    }

    fn is_led(&mut self, _alloc: Global, post: &Assertion, number: u64) -> Result<bool, NoMemory> {
        match self.kept.get(number as usize) {
            Some(Some(t)) => Ok(leads(self, post, t)),
            _ => Ok(false),
        }
    }
}

/// Whether the theorem leads from the definition's entry to the leaf at the end of the way.
fn leads<'g>(k: &KeptLeaves<'_, 'g>, post: &Assertion, t: &Thm<'g>) -> bool
    requires ready { AreOfGroup k.now }
    requires group { group_tree t.now.0 ≡ group_tree k.now.group.now }
    ensures row { IsTrue result
        ↔ LeadsTo (group_tree k.now.group.now) (def_tree k.now.def.now)
        (leaf_with (map fact_tree k.now.way) post.now) (triple_tree t.now.1) }
    ensures valid { Valid (group_tree k.now.group.now) (triple_tree t.now.1) }
{
    let p = t.triple();
    same_assertion(&p.pre, &k.entry)
        && same_assertion(&p.post, post)
        && are_among(p.facts.as_slice(), k.way.as_slice())
        && code_within(&p.code, &k.group.code)
}
