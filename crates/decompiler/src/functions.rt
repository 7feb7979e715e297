//! Decompiling the functions of a file, each alone.

ghost use Rattle.std.specs.Prelude.{◌≡◌, ℕ, List as Items, All, Ok as Fine, IfOk, IfErr};
ghost use Rattle.elf_image.specs.Image.{code_in, image_of};
ghost use Rattle.group_text.specs.Limits.{IsName};
ghost use Rattle.decompiler.specs.Listing.{AreItemsBy, IsItemFor, alone_form};
ghost use Rattle.decompiler.specs.Refusals.{IsFaultBy};
ghost use Rattle.decompiler.specs.Names.{StandsFor};
ghost use Rattle.decompiler.specs.inner.Functions.{IsNoFunction, cause_of, fault_alone};

use crate::bytes::law_of_bytes;
use crate::fault::LinkFault;
use crate::making::{MakeItems, items_of};
use code_parts::{CallGraphFault, LinkWhy};
use elf_image::{Image, law_of_image};
use flow_graph::{FlowFault, Outside, build};
use loop_forest::find_loops;
use path_walk::{DecompileFault, Item, Proof, item_of};
use rv_words::{List, Text};
use std::alloc::Global;

/// The form of functions that call none.
#[derive(Clone, Copy, Debug, Drop)]
pub struct Alone;

impl MakeItems for Alone {
    ghost form = { alone_form };

    fn function_at(
        &self,
        alloc: Global,
        image: &Image,
        entry: u64,
        name: Text,
    ) -> Result<Item, CallGraphFault> {
        match alone_at(alloc, image, entry, name) {
            Ok(item) => Ok(item),
            Err(why) => Err(cause_of(why)),
        }
    }
}

/// An item for each of these names of a file, or the first of the names that is outside the
/// fragment.
pub fn decompile(alloc: Global, image: &Image, names: &List<Text>) -> Result<Proof, DecompileFault>
    requires { All IsName names.now }
    ensures items { (file : Items ℕ)
        → image.now ≡ image_of file
        → IfOk result (AreItemsBy alone_form file names.now) }
    ensures refused { (file : Items ℕ)
        → image.now ≡ image_of file
        → IfErr result (IsFaultBy alone_form file names.now) }
{
    match items_of(alloc, image, names, &Alone) {
        Ok(proof) => Ok(proof),
        Err(fault) => Err(fault_alone(fault)),
    }
}

/// Why there is no item, as one of the reasons for linked functions.
pub fn cause_of(why: FlowFault) -> CallGraphFault
    ensures { result ≡ cause_of why }
{
    match why {
        FlowFault::Outside(why) => CallGraphFault::Refused(LinkWhy::Outside(why)),
        FlowFault::NoMemory => CallGraphFault::NoMemory,
    }
}

/// Why there is no proof of functions each alone, of which none calls itself.
pub fn fault_alone(fault: LinkFault) -> DecompileFault
    ensures { result ≡ fault_alone fault }
{
    match fault {
        LinkFault::Refused { name, why } => match why {
            LinkWhy::Outside(why) => DecompileFault::Refused { name, why },
            LinkWhy::Recursive(entry) => {
                let why = Outside::Call(entry);
                DecompileFault::Refused { name, why }
            }
        },
        LinkFault::NoMemory => DecompileFault::NoMemory,
    }
}

/// The item of the function at an address, under that name.
fn alone_at(alloc: Global, image: &Image, entry: u64, name: Text) -> Result<Item, FlowFault>
    requires { IsName name }
    ensures item { (file : Items ℕ)
        → image.now ≡ image_of file
        → StandsFor file name (Fine entry)
        → IfOk result (IsItemFor file name) }
    ensures none { IfErr result (IsNoFunction (code_in image.now.pieces) entry) }
{
    law_of_bytes(image);
    law_of_image(image);
    let graph = build(alloc, image, entry)?;
    let forest = find_loops(alloc, &graph)?;
    let item = item_of(alloc, name, &graph, &forest)?;
    Ok(item)
}
