//! Functions of a file whose stack accesses have a memory of their own.

ghost use Rattle.std.specs.Prelude.{◌≡◌, ℕ, List as Items, All, Ok as Fine, IfOk, IfErr, false};
ghost use Rattle.rv_words.specs.Bytes.{AreBytes, Bytes};
ghost use Rattle.elf_image.specs.Image.{code_in, image_of};
ghost use Rattle.group_text.specs.Limits.{IsName};
ghost use Rattle.flow_graph.specs.Graph.{IsGraphOf};
ghost use Rattle.decompiler.specs.Listing.{AreItemsBy};
ghost use Rattle.decompiler.specs.Names.{StandsFor};
ghost use Rattle.decompiler.specs.Refusals.{IsFaultBy};
ghost use Rattle.decompiler.specs.inner.Functions.{IsNoFunction};
ghost use Rattle.stack_split.specs.Listing.{IsSplitItemFor, split_form};
ghost use Rattle.stack_split.specs.inner.Accesses.{AreStackAccesses};

use code_parts::CallGraphFault;
use decompiler::{MakeItems, cause_of, fault_alone, items_of, law_of_bytes};
use elf_image::{Image, law_of_image};
use flow_graph::{FlowFault, Graph, build};
use loop_forest::find_loops;
use path_walk::{DecompileFault, Item, Proof, split_item};
use rv_words::{List, NoMemory, Text};
use stack_offsets::stack_accesses;
use std::alloc::Global;

/// The form of functions that call none, with a memory for the stack.
#[derive(Clone, Copy, Debug, Drop)]
pub struct WithStack;

impl MakeItems for WithStack {
    ghost form = { split_form };

    fn function_at(
        &self,
        alloc: Global,
        image: &Image,
        entry: u64,
        name: Text,
    ) -> Result<Item, CallGraphFault> {
        match split_at(alloc, image, entry, name) {
            Ok(item) => Ok(item),
            Err(why) => Err(cause_of(why)),
        }
    }
}

/// An item for each of these names of a file, in which stack accesses use the second memory and all
/// others the first; or the first of the names that is outside the fragment.
pub fn split(alloc: Global, image: &Image, names: &List<Text>) -> Result<Proof, DecompileFault>
    requires { All IsName names.now }
    ensures items { (file : Items ℕ)
        → image.now ≡ image_of file
        → IfOk result (AreItemsBy split_form file names.now) }
    ensures refused { (file : Items ℕ)
        → image.now ≡ image_of file
        → IfErr result (IsFaultBy split_form file names.now) }
{
    match items_of(alloc, image, names, &WithStack) {
        Ok(proof) => Ok(proof),
        Err(fault) => Err(fault_alone(fault)),
    }
}

/// The item of the function at an address, under that name.
fn split_at(alloc: Global, image: &Image, entry: u64, name: Text) -> Result<Item, FlowFault>
    requires { IsName name }
    ensures item { (file : Items ℕ)
        → image.now ≡ image_of file
        → StandsFor file name (Fine entry)
        → IfOk result (IsSplitItemFor file name) }
    ensures none { IfErr result (IsNoFunction (code_in image.now.pieces) entry) }
{
    law_of_bytes(image);
    law_of_image(image);
    let graph = build(alloc, image, entry)?;
    let forest = find_loops(alloc, &graph)?;
    let second = stack_addresses(alloc, &graph)?;
    let item = split_item(alloc, name, &graph, &forest, second.as_slice())?;
    Ok(item)
}

/// The addresses of the stack accesses of a function.
fn stack_addresses(alloc: Global, graph: &Graph) -> Result<List<u64>, NoMemory>
    ensures { (code : Bytes) (e : ℕ) → AreBytes code → IsGraphOf false code e graph.now
        → IfOk result (AreStackAccesses code e graph.now.addrs) }
{
    let found = stack_accesses(alloc, graph)?;
    let is_access = found.as_slice();
    let mut second = List::new(alloc);
    for n in 0..graph.len() {
        if is_access[n as usize] {
            second.push(graph.addr(n))?;
        }
    }
    Ok(second)
}
