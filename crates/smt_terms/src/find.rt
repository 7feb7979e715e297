//! Functions by their names.

ghost use Rattle.std.specs.Prelude.{◌≡◌, ◌≤◌, length, map, take, MatchOption};
ghost use Rattle.smt_terms.specs.Views.{fun_tree};
ghost use Rattle.smt_terms.specs.inner.Finding.{IsFound, IsMissing};

use crate::script::Fun;

/// A function, and those before it.
#[derive(Clone, Copy)]
pub struct Found<'a> {
    pub before: &'a [Fun],
    pub fun: &'a Fun,
}

/// The last function of that name.
#[tactic(auto, using(crate::proofs::Finding::not_behind_all, crate::proofs::Finding::not_behind_one, crate::proofs::Finding::none_of_all, crate::proofs::Finding::found_at))]
pub fn find<'a>(funs: &'a [Fun], name: &[u8]) -> Option<Found<'a>>
    ensures { MatchOption result (IsMissing (map fun_tree funs.now) name.now)
        (λ f.
        IsFound (map fun_tree funs.now) name.now (map fun_tree f.before.now) (fun_tree f.fun.now)) }
{
    let mut left = funs.len();
    'back: while left > 0 {
        left -= 1;
        let fun = &funs[left];
        if name == fun.name.as_slice() {
            let before = first(funs, left);
            return Some(Found { before, fun });
        }
    }
    None
}

/// The first `n` functions.
fn first(funs: &[Fun], n: usize) -> &[Fun]
    requires { n ≤ length funs.now }
    ensures { result.now ≡ take n funs.now }
{
    &funs[..n]
}
