//! The values of applications.

ghost use Rattle.std.specs.Prelude.{IfOk, map};
ghost use Rattle.smt_terms.specs.Views.{fun_tree};
ghost use Rattle.smt_terms.specs.Values.{TellsValue};

use crate::evaluation::call;
use crate::find::find;
use crate::given::{taken, told};
use crate::script::Script;
use crate::smt::Smt;
use rv_words::{List, NoMemory};
use std::alloc::Global;

/// The value of the script's function of that name on these inputs. It is none exactly where no
/// function has the name, or where the inputs aren't of its parameters' sorts.
#[tactic(auto, using(crate::proofs::Applications::value_missing, crate::proofs::Applications::value_unfit, crate::proofs::Applications::value_told))]
pub fn value_of(
    alloc: Global,
    s: &Script,
    name: &[u8],
    inputs: &List<Smt>,
) -> Result<Option<Smt>, NoMemory>
    ensures { IfOk result (λ answer. TellsValue (map fun_tree s.now) name.now inputs.now answer) }
{
    let Some(found) = find(s.funs(), name) else {
        return Ok(None);
    };
    let params = found.fun.params.as_slice();
    let Some(args) = taken(alloc, params, inputs.as_slice())? else {
        return Ok(None);
    };
    let datum = call(alloc, found.before, found.fun, args.as_slice())?;
    let value = told(alloc, &datum)?;
    Ok(Some(value))
}
