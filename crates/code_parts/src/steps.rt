//! The steps of a body for an instruction.

ghost use Rattle.std.specs.Prelude.{◌≡◌, ◌<◌, ◌++◌, OnOk, map};
ghost use Rattle.tailrec_lang.specs.Tree.{step_tree};
ghost use Rattle.code_parts.specs.Bodies as spec;
ghost use Rattle.code_parts.specs.VariableMaps.{place_of};

use crate::variables::VariableMap;
use instr_axioms::{Form, condition, memory_after, result};
use rv_decode::{Instr, destination};
use rv_words::{List, NoMemory};
use std::alloc::Global;
use tailrec_lang::Step;

/// Adds the condition of an access to memory q.
pub fn add_needs(
    alloc: Global,
    i: Instr,
    q: u8,
    place: &VariableMap,
    steps: &mut List<Step>,
) -> Result<(), NoMemory>
    requires { q < 2 }
    ensures { OnOk result (map step_tree steps.new
        ≡ map step_tree steps.old ++ spec.needs i q (place_of place.now)) }
{
    if let Some(c) = condition(alloc, i, Form::Next, &place.names_of(q))? {
        steps.push(Step::Need(c))?;
    }
    Ok(())
}

/// Adds what an instruction of that many bytes writes, where it accesses memory q if it does.
pub fn add_writes(
    alloc: Global,
    i: Instr,
    addr: u64,
    length: u8,
    q: u8,
    place: &VariableMap,
    steps: &mut List<Step>,
) -> Result<(), NoMemory>
    requires { q < 2 }
    ensures { OnOk result (map step_tree steps.new
        ≡ map step_tree steps.old ++ spec.writes i addr length q (place_of place.now)) }
{
    let names = place.names_of(q);
    if let Instr::Store { .. } = i {
        let m = memory_after(alloc, i, &names)?;
        steps.push(Step::BindMem(m))?;
    } else if destination(&i) != 0 {
        let t = result(alloc, i, addr, length, &names)?;
        steps.push(Step::Bind(t))?;
    }
    Ok(())
}
