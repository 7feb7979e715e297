//! Whether the variables and exits of definitions have numbers of 64 and of 32 bits. Those of any
//! group that was read from a file have.

ghost use Rattle.std.specs.Prelude.{◌≡◌, ◌+◌, ◌<◌, ◌^◌, IfSome, IsTrue, length};
ghost use Rattle.tailrec_lang.specs.Tree.{body_tree, def_tree, group_tree};
ghost use Rattle.tailrec_lang.specs.inner.Tree.{arm_trees, end_tree};
ghost use Rattle.smt_export.specs.inner.Following.{arm_room, room};
ghost use Rattle.smt_export.specs.inner.Room.{DefHasRoom, HasRoom};

use tailrec_lang::{Body, Def, End, Group};

/// Whether all of the group's definitions have.
pub fn has_room(g: &Group) -> bool
    ensures { IsTrue result → HasRoom (group_tree g.now) }
{
    for def in g.defs.as_slice() {
        if !def_has_room(g, def) {
            return false;
        }
    }
    true
}

fn def_has_room(g: &Group, def: &Def) -> bool
    ensures { IsTrue result → DefHasRoom (group_tree g.now) (def_tree def.now) }
{
    match room(g, &def.body) {
        Some(room) => {
            is_exit_count(def.exits.len())
                && has_sum(g.regs.len(), room)
                && has_sum(g.mems as usize, room)
        }
        None => false,
    }
}

fn is_exit_count(count: usize) -> bool
    ensures { IsTrue result → count < 2 ^ 32 }
{
    count < 1 << 32
}

fn has_sum(a: usize, b: usize) -> bool
    ensures { IsTrue result → a + b < 2 ^ 64 }
{
    match a.checked_add(b) {
        Some(_) => true,
        None => false,
    }
}

/// At most so many variables are bound in a body.
#[cycle(rooms)]
#[tactic(auto, using(crate::proofs::Fits::room_behind))]
fn room(g: &Group, body: &Body) -> Option<usize>
    ensures { IfSome result (λ n. n ≡ room (group_tree g.now) (body_tree body.now)) }
{
    let end = end_room(g, &body.end)?;
    body.steps.len().checked_add(end)
}

#[cycle(rooms)]
fn end_room(g: &Group, end: &End) -> Option<usize>
    ensures { IfSome result (λ n. n ≡ room (group_tree g.now) (end_tree end.now)) }
{
    match end {
        End::Branch(_, a, b) => {
            let first = room(g, a)?;
            let second = room(g, b)?;
            first.checked_add(second)
        }
        End::Call(_, _, arms) => arms_room(g, arms.as_slice()),
        End::Again(_) => Some(0),
        End::Leave(_, _) => Some(0),
    }
}

#[cycle(rooms)]
#[tactic(auto, using(crate::proofs::Fits::room_next, crate::proofs::Fits::room_all))]
fn arms_room(g: &Group, arms: &[Body]) -> Option<usize>
    ensures { IfSome result (λ n. n ≡ arm_room (group_tree g.now) (arm_trees arms.now)) }
{
    let mut count = 0;
    for arm in arms {
        let inner = room(g, arm)?;
        count = with_arm(g, count, inner)?;
    }
    Some(count)
}

fn with_arm(g: &Group, count: usize, inner: usize) -> Option<usize>
    ensures { IfSome result (λ n. n ≡ count + (length g.now.regs + 1 + g.now.mems + inner)) }
{
    let results = g.regs.len().checked_add(1)?;
    let results = results.checked_add(g.mems as usize)?;
    let more = results.checked_add(inner)?;
    count.checked_add(more)
}
