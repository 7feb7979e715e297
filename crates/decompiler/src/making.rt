//! Items for the names of a file, in each form.

ghost use Rattle.std.specs.Prelude.{◌≡◌, ℕ, ◌<◌, List as Items, [], All, Ok as Fine, IfOk, IfErr, get_or, length, take};
ghost use Rattle.std.specs.List.{AllZip};
ghost use Rattle.elf_image.specs.Image.{code_in, image_of};
ghost use Rattle.group_text.specs.Limits.{IsName};
ghost use Rattle.decompiler.specs.Listing.{AreItemsBy, IsItemBy, ItemForm};
ghost use Rattle.decompiler.specs.Names.{StandsFor};
ghost use Rattle.decompiler.specs.Refusals.{IsNoProofBy};
ghost use Rattle.decompiler.specs.inner.Functions.{IsNoItem, IsRefusedAt, outside_of, refusal};

use crate::fault::LinkFault;
use crate::name::address_of;
use code_parts::{CallGraphFault, LinkWhy};
use elf_image::{Image, NameFault, law_of_image};
use flow_graph::Outside;
use path_walk::{Item, Proof};
use rv_words::{List, Text};
use std::alloc::Global;

/// How the item of a name is made, in one of the forms.
pub trait MakeItems {
    /// The form.
    ghost form: { ItemForm };

    /// The item of the function at an address, under that name.
    fn function_at(
        &self,
        alloc: Global,
        image: &Image,
        entry: u64,
        name: Text,
    ) -> Result<Item, CallGraphFault>
        requires { IsName name }
        ensures item { (file : Items ℕ)
            → image.now ≡ image_of file
            → StandsFor file name (Fine entry)
            → IfOk result (IsItemBy form file name) }
        ensures none { IfErr result (IsRefusedAt form (code_in image.now.pieces) entry) };
}

/// An item for each of these names of a file, or the first of the names that has a fault.
pub fn items_of<M: MakeItems>(
    alloc: Global,
    image: &Image,
    names: &List<Text>,
    form: &M,
) -> Result<Proof, LinkFault>
    requires { All IsName names.now }
    ensures items { (file : Items ℕ)
        → image.now ≡ image_of file
        → IfOk result (AreItemsBy M.form file names.now) }
    ensures refused { (file : Items ℕ)
        → image.now ≡ image_of file
        → IfErr result (IsNoProofBy M.form file names.now) }
{
    let all = names.as_slice();
    let mut items = List::new(alloc);
    let mut i = 0;
    'names: while i < all.len() {
        items.push(item_at(alloc, image, all, i, form)?)?;
        i += 1;
    }
    Ok(Proof { items })
}

/// The item of the name of that number, or its fault, where the names before it have items.
pub fn item_at<M: MakeItems>(
    alloc: Global,
    image: &Image,
    names: &[Text],
    number: usize,
    form: &M,
) -> Result<Item, LinkFault>
    requires number { number < length names.now }
    requires names { All IsName names.now }
    ensures item { (file : Items ℕ)
        → image.now ≡ image_of file
        → IfOk result (IsItemBy M.form file (get_or names.now number [])) }
    ensures refused { (file : Items ℕ) (before : Items Item)
        → image.now ≡ image_of file
        → AllZip (IsItemBy M.form file) (take number names.now) before
        → IfErr result (IsNoProofBy M.form file names.now) }
{
    match item_for(alloc, image, &names[number], form) {
        Ok(item) => Ok(item),
        Err(why) => Err(refusal(number as u64, why)),
    }
}

/// Why there is no proof, where this is why there is no item of the name of that number.
fn refusal(number: u64, why: CallGraphFault) -> LinkFault
    ensures { result ≡ refusal number why }
{
    match why {
        CallGraphFault::Refused(why) => LinkFault::Refused { name: number, why },
        CallGraphFault::NoMemory => LinkFault::NoMemory,
    }
}

/// The item of a name.
fn item_for<M: MakeItems>(
    alloc: Global,
    image: &Image,
    name: &Text,
    form: &M,
) -> Result<Item, CallGraphFault>
    requires { IsName name.now }
    ensures item { (file : Items ℕ)
        → image.now ≡ image_of file
        → IfOk result (IsItemBy M.form file name.now) }
    ensures none { (file : Items ℕ)
        → image.now ≡ image_of file
        → IfErr result (IsNoItem M.form file name.now) }
{
    law_of_image(image);
    match address_of(image, name.as_slice()) {
        Ok(entry) => {
            let name = List::from_slice(alloc, name.as_slice())?;
            form.function_at(alloc, image, entry, name)
        }
        Err(why) => Err(CallGraphFault::Refused(LinkWhy::Outside(outside_of(why)))),
    }
}

/// The fault of a name that has no address.
fn outside_of(why: NameFault) -> Outside
    ensures { result ≡ outside_of why }
{
    match why {
        NameFault::NoSuch => Outside::NoSuch,
        NameFault::Ambiguous(a, b) => Outside::Ambiguous(a, b),
    }
}
