//! The group of a function's definitions.

ghost use Rattle.std.specs.Prelude.{◌≡◌, IfOk, map};
ghost use Rattle.tailrec_lang.specs.Tree.{def_tree, group_tree};
ghost use Rattle.code_parts.specs.Flows.{group_over};
ghost use Rattle.code_parts.specs.Kept.{flow_in};

use crate::flow::Flow;
use rv_words::{List, NoMemory, Text};
use std::alloc::Global;
use tailrec_lang::{Def, Group};
use word_terms::copy_code;

/// The group of that name with these definitions, over the registers, the memories and the code of
/// a flow.
pub fn group_with(
    alloc: Global,
    name: Text,
    flow: &Flow<'_>,
    defs: List<Def>,
) -> Result<Group, NoMemory>
    ensures group { IfOk result (λ g.
        group_tree g ≡ group_over (flow_in flow.now) name flow.now.code (map def_tree defs)) }
{
    let regs = List::from_slice(alloc, flow.regs())?;
    let code = copy_code(alloc, flow.code())?;
    Ok(Group {
        name,
        regs,
        mems: flow.mems(),
        code,
        defs,
    })
}
