//! The address that a name stands for.

ghost use Rattle.std.specs.Prelude.{◌≡◌, ℕ, List};
ghost use Rattle.elf_image.specs.Image.{image_of};
ghost use Rattle.decompiler.specs.Names.{StandsFor};

use elf_image::{Image, NameFault, law_of_image};
use mc_text::hexnum;

/// The address that a name stands for: a hexadecimal number is that address, any other name is
/// looked up among the function symbols.
pub fn address_of(image: &Image, name: &[u8]) -> Result<u64, NameFault>
    ensures { (file : List ℕ) → image.now ≡ image_of file → StandsFor file name.now result }
{
    law_of_image(image);
    match hexnum(name) {
        Some(address) => Ok(address),
        None => image.symbol(name),
    }
}
