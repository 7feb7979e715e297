//! Linking the functions of a file.

ghost use Rattle.std.specs.Prelude.{◌≡◌, ℕ, List as Items, All, Ok as Fine, IfOk, IfErr};
ghost use Rattle.elf_image.specs.Image.{code_in, image_of};
ghost use Rattle.group_text.specs.Limits.{IsName};
ghost use Rattle.code_parts.specs.Causes.{IsCallGraphFault};
ghost use Rattle.decompiler.specs.Listing.{AreItemsBy};
ghost use Rattle.decompiler.specs.Names.{StandsFor};
ghost use Rattle.decompiler.specs.Refusals.{IsNoProofBy};
ghost use Rattle.call_link.specs.Listing.{IsLinkedItemFor, linked_form};

use code_parts::{CallGraphFault, linked_functions, linked_group};
use decompiler::{LinkFault, MakeItems, items_of, law_of_bytes};
use elf_image::{Image, law_of_image};
use path_walk::{Item, Proof, linked_item};
use rv_words::{List, Text};
use std::alloc::Global;

/// The form of functions with all functions to which calls lead.
#[derive(Clone, Copy, Debug, Drop)]
pub struct Linked;

impl MakeItems for Linked {
    ghost form = { linked_form };

    fn function_at(
        &self,
        alloc: Global,
        image: &Image,
        entry: u64,
        name: Text,
    ) -> Result<Item, CallGraphFault> {
        linked_at(alloc, image, entry, name)
    }
}

/// An item for each of these names of a file, of all functions that calls lead to from there; or
/// the first of the names whose functions can't be linked.
pub fn link(alloc: Global, image: &Image, names: &List<Text>) -> Result<Proof, LinkFault>
    requires { All IsName names.now }
    ensures items { (file : Items ℕ)
        → image.now ≡ image_of file
        → IfOk result (AreItemsBy linked_form file names.now) }
    ensures refused { (file : Items ℕ)
        → image.now ≡ image_of file
        → IfErr result (IsNoProofBy linked_form file names.now) }
{
    items_of(alloc, image, names, &Linked)
}

/// The item of the functions that calls lead to from an address, under that name.
fn linked_at(alloc: Global, image: &Image, entry: u64, name: Text) -> Result<Item, CallGraphFault>
    requires { IsName name }
    ensures item { (file : Items ℕ)
        → image.now ≡ image_of file
        → StandsFor file name (Fine entry)
        → IfOk result (IsLinkedItemFor file name) }
    ensures none { IfErr result (IsCallGraphFault (code_in image.now.pieces) entry) }
{
    law_of_bytes(image);
    law_of_image(image);
    let functions = linked_functions(alloc, image, entry)?;
    let group = linked_group(alloc, functions.as_slice())?;
    let item = linked_item(alloc, name, &group)?;
    Ok(item)
}
