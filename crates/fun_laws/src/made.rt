//! Ends of bodies, made of their parts.

ghost use Rattle.std.specs.Prelude.{◌≡◌, IfOk};
ghost use Rattle.word_terms.specs.Tree.{cond_tree};
ghost use Rattle.tailrec_lang.specs.Tree.{Branch, Call, body_tree, values_tree};
ghost use Rattle.tailrec_lang.specs.inner.Tree.{arm_trees, end_tree};

use rv_words::{List, NoMemory};
use std::alloc::Global;
use tailrec_lang::{Body, End, Values};
use word_terms::Cond;

pub fn made_branch(alloc: Global, c: Cond, a: Body, b: Body) -> Result<End, NoMemory>
    ensures { IfOk result (λ e. end_tree e ≡ Branch (cond_tree c) (body_tree a) (body_tree b)) }
{
    let a = Box::new(alloc, a)?;
    let b = Box::new(alloc, b)?;
    Ok(End::Branch(c, a, b))
}

pub fn made_call(def: u32, values: Values, arms: List<Body>) -> End
    ensures { end_tree result ≡ Call def (values_tree values) (arm_trees arms) }
{
    End::Call(def, values, arms)
}
