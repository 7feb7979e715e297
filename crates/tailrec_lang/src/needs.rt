//! Whether a group's Needs can be counted with 64 bits.

ghost use Rattle.std.specs.Prelude.{◌≡◌, ◌<◌, ◌≤◌, ◌^◌, ◌↔◌, IsTrue, IfSome, IfNone};
ghost use Rattle.tailrec_lang.specs.Tree.{body_tree, group_tree};
ghost use Rattle.tailrec_lang.specs.inner.Tree.{arm_trees};
ghost use Rattle.tailrec_lang.specs.Eval.{HasFewNeeds, arm_needs, needs};

use crate::group::{Body, End, Group};
use crate::walk::needs_of;

/// Whether each definition has fewer than 2^64 Needs. Any group does that was read from a file.
pub fn has_few_needs(g: &Group) -> bool
    ensures { IsTrue result ↔ HasFewNeeds (group_tree g.now) }
{
    let defs = g.defs.as_slice();
    for def in defs {
        if !has_few(&def.body) {
            return false;
        }
    }
    true
}

fn has_few(body: &Body) -> bool
    ensures { IsTrue result ↔ (needs (body_tree body.now) < 2 ^ 64) }
{
    match checked_needs(body) {
        Some(_) => true,
        None => false,
    }
}

/// How many Needs there are in a body, if they are fewer than 2^64.
#[cycle(counts)]
fn checked_needs(body: &Body) -> Option<u64>
    ensures some { IfSome result (λ n. n ≡ needs (body_tree body.now)) }
    ensures none { IfNone result (2 ^ 64 ≤ needs (body_tree body.now)) }
{
    let mut count = 0u64;
    let steps = body.steps.as_slice();
    for step in steps {
        count = count.checked_add(needs_of(step))?;
    }
    match &body.end {
        End::Branch(_, a, b) => {
            let first = checked_needs(a)?;
            let second = checked_needs(b)?;
            let before = count.checked_add(first)?;
            before.checked_add(second)
        }
        End::Call(_, _, arms) => {
            let more = checked_needs_in_arms(arms.as_slice())?;
            count.checked_add(more)
        }
        _ => Some(count),
    }
}

/// How many Needs there are in arms, if they are fewer than 2^64.
#[cycle(counts)]
fn checked_needs_in_arms(arms: &[Body]) -> Option<u64>
    ensures some { IfSome result (λ n. n ≡ arm_needs (arm_trees arms.now)) }
    ensures none { IfNone result (2 ^ 64 ≤ arm_needs (arm_trees arms.now)) }
{
    let mut count = 0u64;
    for arm in arms {
        let more = checked_needs(arm)?;
        count = count.checked_add(more)?;
    }
    Some(count)
}
