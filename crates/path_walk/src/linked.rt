//! The group of linked functions with the lines of its proof.

ghost use Rattle.std.specs.Prelude.{◌≡◌, ℕ, ◌<◌, ◌^◌, ◌++◌, List as Items, IfOk, OnOk, length, map};
ghost use Rattle.std.specs.List.{All, sum_by};
ghost use Rattle.tailrec_lang.specs.Tree.{def_tree};
ghost use Rattle.group_text.specs.declared.version.Version.TheVariants.{Three};
ghost use Rattle.proof_text.specs.Line.{line_tree};
ghost use Rattle.verdicts.specs.Instance.{after_lines};
ghost use Rattle.code_parts.specs.Functions.{size_of as the_size};
ghost use Rattle.code_parts.specs.Bodies as spec;
ghost use Rattle.code_parts.specs.Graph.{IsPart};
ghost use Rattle.code_parts.specs.Kept.{flow_in};
ghost use Rattle.code_parts.specs.Members.{flow_at};
ghost use Rattle.code_parts.specs.Groups.{AreSomeFunctions, IsLinkedGroup, functions_of, member_in};
ghost use Rattle.path_walk.specs.Forgotten.{KeepsNone};
ghost use Rattle.path_walk.specs.Further.{IsVersionFor};
ghost use Rattle.path_walk.specs.Linked.{IsLinkedItem};
ghost use Rattle.path_walk.specs.inner.LinkedWalks.{AreWalkedTo, CanAllBeWalked, CanBeWalked};

use crate::item::Item;
use crate::one_part::walk_in;
use code_parts::{Flow, LinkedFunction, LinkedGroup, Part, law_of_groups};
use group_text::Version;
use proof_text::Line;
use rv_words::{List, NoMemory, Text};
use std::alloc::Global;
use tailrec_lang::{Def, Group};
use word_terms::copy_code;

/// Walks through these parts of a flow in a text of version 3, and tells the number of the next
/// theorem.
fn walk_parts(
    alloc: Global,
    flow: &Flow<'_>,
    parts: &[Part],
    first: u64,
    defs: &mut List<Def>,
    lines: &mut List<Line>,
) -> Result<u64, NoMemory>
    requires version { IsVersionFor (flow_in flow.now) Three }
    requires each { All (IsPart (flow_in flow.now)) parts.now }
    requires first { first ≡ (after_lines (map line_tree lines.old)).next }
    ensures next { IfOk result (λ k. k ≡ (after_lines (map line_tree lines.new)).next) }
    ensures defs { OnOk result (map def_tree defs.new
        ≡ map def_tree defs.old ++ map (spec.part_def (flow_in flow.now)) parts.now) }
    ensures lines { OnOk result (AreWalkedTo Three (flow_in flow.now) flow.now.code parts.now
        (length parts.now) (map line_tree lines.old) (map line_tree lines.new)) }
    ensures kept { OnOk result (KeepsNone (after_lines (map line_tree lines.old))
        → KeepsNone (after_lines (map line_tree lines.new))) }
{
    let mut next = first;
    for part in parts {
        let walked = walk_in(alloc, flow, Version::Three, *part, next, lines)?;
        defs.push(walked.def)?;
        next = walked.next;
    }
    Ok(next)
}

/// Walks through the parts of one of the functions.
fn walk_function(
    alloc: Global,
    group: &LinkedGroup<'_>,
    function: &LinkedFunction<'_>,
    first: u64,
    defs: &mut List<Def>,
    lines: &mut List<Line>,
) -> Result<u64, NoMemory>
    requires function { CanBeWalked group.now function.now }
    requires first { first ≡ (after_lines (map line_tree lines.old)).next }
    ensures next { IfOk result (λ k. k ≡ (after_lines (map line_tree lines.new)).next) }
    ensures defs { OnOk result (map def_tree defs.new
        ≡ map def_tree defs.old
        ++ map (spec.part_def (flow_at (member_in group.now function.now))) function.now.parts) }
    ensures lines { OnOk result (AreWalkedTo Three (flow_at (member_in group.now function.now))
        group.now.code.ranges function.now.parts (length function.now.parts)
        (map line_tree lines.old) (map line_tree lines.new)) }
    ensures kept { OnOk result (KeepsNone (after_lines (map line_tree lines.old))
        → KeepsNone (after_lines (map line_tree lines.new))) }
{
    let context = group.context(function);
    let flow = Flow::of(
        alloc,
        &function.function.graph,
        &function.function.forest,
        &context,
        &group.code,
    )?;
    walk_parts(alloc, &flow, function.parts.as_slice(), first, defs, lines)
}

/// How many instructions these functions have.
fn size_of(functions: &[LinkedFunction<'_>]) -> u32
    requires { sum_by the_size (map (λ f. f.function.now) functions.now) < 2 ^ 32 }
    ensures { result ≡ sum_by the_size (map (λ f. f.function.now) functions.now) }
{
    let mut size = 0;
    for function in functions {
        size += function.function.graph.len();
    }
    size
}

/// What the walk through all of them rests on.
fn law_of_walks(group: &LinkedGroup<'_>)
    requires functions { AreSomeFunctions (functions_of group.now) }
    requires group { IsLinkedGroup group.now }
    ensures { (name : Items ℕ) → CanAllBeWalked group.now name }
{
    law_of_groups();
}

/// The group of linked functions under that name, with lines that close each of its definitions.
pub fn linked_item(alloc: Global, name: Text, group: &LinkedGroup<'_>) -> Result<Item, NoMemory>
    requires functions { AreSomeFunctions (functions_of group.now) }
    requires group { IsLinkedGroup group.now }
    ensures item { IfOk result (λ item. IsLinkedItem group.now name item) }
    ensures kept { IfOk result (λ item. KeepsNone (after_lines (map line_tree item.lines))) }
{
    law_of_walks(group);
    let mut defs = List::new(alloc);
    let mut lines = List::new(alloc);
    let mut next = 0;
    for function in group.functions.as_slice() {
        next = walk_function(alloc, group, function, next, &mut defs, &mut lines)?;
    }
    let reached = size_of(group.functions.as_slice());
    let regs = List::from_slice(alloc, group.regs.as_slice())?;
    let code = copy_code(alloc, &group.code)?;
    Ok(Item {
        group: Group {
            name,
            regs,
            mems: group.mems,
            code,
            defs,
        },
        lines,
        reached,
    })
}
