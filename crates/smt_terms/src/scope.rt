//! What names stand for within a term.

ghost use Rattle.std.specs.Prelude.{◌≡◌, None, Some, MatchOption, IfOk, IsTrue, length, map};
ghost use Rattle.smt_terms.specs.Meaning.{bind_all, no_names};
ghost use Rattle.smt_terms.specs.Sorts.{sorts_fit, sorts_with};
ghost use Rattle.smt_terms.specs.inner.Datum.{meaning, sort_of_datum, sorted};
ghost use Rattle.smt_terms.specs.inner.Scope.{sorts_in, variables_in};

use crate::datum::{Datum, share};
use crate::sort::Sort;
use rv_words::{List, NoMemory, Text};
use std::alloc::Global;

/// A name, and what it stands for.
#[derive(Drop)]
pub struct Binding<'a> {
    pub name: &'a [u8],
    pub datum: Datum,
}

/// What a name stands for by its last binding.
#[tactic(auto, using(crate::proofs::Scopes::not_bound_all, crate::proofs::Scopes::not_bound_one, crate::proofs::Scopes::bound_sort_at, crate::proofs::Scopes::bound_value_at, crate::proofs::Scopes::no_sort, crate::proofs::Scopes::no_value))]
pub fn look_up<'a, 'b>(scope: &'b [Binding<'a>], name: &[u8]) -> Option<&'b Datum>
    ensures sort { MatchOption result (sorts_in scope.now name.now ≡ None) (λ d.
        sorts_in scope.now name.now ≡ Some (sort_of_datum d.now)) }
    ensures value { MatchOption result (variables_in scope.now name.now ≡ None)
        (λ d. variables_in scope.now name.now ≡ Some (meaning d.now)) }
{
    let mut left = scope.len();
    'back: while left > 0 {
        left -= 1;
        let binding = &scope[left];
        if name == binding.name {
            return Some(&binding.datum);
        }
    }
    None
}

/// The parameters as names for the arguments.
#[tactic(auto, using(crate::proofs::Scopes::bound_to_none, crate::proofs::Scopes::bound_to_more, crate::proofs::Scopes::bound_sorts, crate::proofs::Scopes::bound_values))]
pub fn scope_of<'a>(
    alloc: Global,
    params: &'a [(Text, Sort)],
    args: &[Datum],
) -> Result<List<Binding<'a>>, NoMemory>
    requires { length params.now ≡ length args.now }
    ensures sorts { IfOk result (λ scope.
        IsTrue (sorts_fit params.now (map sorted args.now))
        → sorts_in scope ≡ sorts_with no_names params.now) }
    ensures values { IfOk result (λ scope.
        variables_in scope ≡ bind_all no_names params.now (map meaning args.now)) }
{
    let mut scope = List::new(alloc);
    for i in 0..params.len() {
        let datum = share(&args[i])?;
        let name = params[i].0.as_slice();
        scope.push(Binding { name, datum })?;
    }
    Ok(scope)
}
