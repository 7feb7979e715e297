//! Where the definitions of each function stand, and how it is called.

ghost use Rattle.std.specs.Prelude.{◌≡◌, ◌+◌, ◌<◌, ◌^◌, IfOk, length};
ghost use Rattle.code_parts.specs.Groups.{AreSomeFunctions, HasOrderedParts, called_as};
ghost use Rattle.code_parts.specs.inner.Placing.{ArePlaced};
ghost use Rattle.loop_forest.specs.Forest.{IsForestOf};
ghost use Rattle.code_parts.specs.Kept.{IsReachedBy};

use crate::callee::Callee;
use crate::linked::LinkedFunction;
use crate::linked_function::Function;
use crate::order::parts_of;
use crate::uses::returns;
use rv_words::{List, NoMemory};
use std::alloc::Global;

/// Functions with their parts, and how each is called.
#[derive(Drop)]
pub struct Places<'a> {
    pub functions: List<LinkedFunction<'a>>,
    pub callees: List<Callee>,
    /// How many definitions they have.
    pub count: u32,
}

/// A function with its parts, behind so many definitions.
fn placed<'a>(
    alloc: Global,
    function: &'a Function,
    base: u32,
) -> Result<LinkedFunction<'a>, NoMemory>
    requires { IsForestOf function.now.graph function.now.forest }
    ensures function { IfOk result (λ f. f.function.now ≡ function.now) }
    ensures base { IfOk result (λ f. f.base ≡ base) }
    ensures parts { IfOk result HasOrderedParts }
{
    let parts = parts_of(alloc, &function.graph, &function.forest)?;
    Ok(LinkedFunction {
        function,
        parts,
        base,
    })
}

/// How many definitions stand before those behind a function's.
fn behind(function: &LinkedFunction<'_>) -> u32
    requires { function.now.base + length function.now.parts < 2 ^ 32 }
    ensures { result ≡ function.now.base + length function.now.parts }
{
    function.base + function.parts.len() as u32
}

/// How a function is called: by its last definition.
fn callee_of(function: &LinkedFunction<'_>, next: u32) -> Callee
    requires reached { IsReachedBy function.now.function.now.graph }
    requires forest { IsForestOf function.now.function.now.graph function.now.function.now.forest }
    requires parts { HasOrderedParts function.now }
    requires next { next ≡ function.now.base + length function.now.parts }
    ensures { result ≡ called_as function.now }
{
    Callee {
        entry: function.function.entry,
        def: next - 1,
        returns: returns(&function.function.graph),
    }
}

/// The functions with their parts, one behind the other.
pub fn places_of<'a>(alloc: Global, functions: &'a [Function]) -> Result<Places<'a>, NoMemory>
    requires { AreSomeFunctions functions.now }
    ensures { IfOk result (λ p. ArePlaced functions.now p.functions p.callees p.count) }
{
    let mut placed_functions = List::new(alloc);
    let mut callees = List::new(alloc);
    let mut base = 0;
    for function in functions {
        let one = placed(alloc, function, base)?;
        let next = behind(&one);
        callees.push(callee_of(&one, next))?;
        placed_functions.push(one)?;
        base = next;
    }
    Ok(Places {
        functions: placed_functions,
        callees,
        count: base,
    })
}
