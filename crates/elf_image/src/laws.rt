//! What the image of a file has. The function does nothing: its contract is the law.

ghost use Rattle.std.specs.Prelude.{◌≡◌, ℕ, List};
ghost use Rattle.elf_image.specs.Image.{bytes_in, code_in, code_of_file, image_of, memory_of_file};
ghost use Rattle.elf_image.specs.Symbol.{symbols_of};

use crate::image::Image;

/// The image of a file has the file's memory, code and symbols: no address is in two pieces, so
/// that their order doesn't matter to the bytes.
pub fn law_of_image(image: &Image)
    ensures memory { (file : List ℕ)
        → image.now ≡ image_of file
        → bytes_in image.now.pieces ≡ memory_of_file file }
    ensures code { (file : List ℕ)
        → image.now ≡ image_of file
        → code_in image.now.pieces ≡ code_of_file file }
    ensures symbols { (file : List ℕ)
        → image.now ≡ image_of file
        → image.now.symbols ≡ symbols_of file }
{
    image.pieces();
}
