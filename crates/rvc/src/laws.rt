//! Laws of compressed instructions. These functions do nothing: their contracts are the laws. Each
//! speaks of the definitions alone.

ghost use Rattle.std.specs.Prelude.{◌≡◌, ◌↔◌, ◌<◌, ◌^◌, ℕ, Some, option_and_then};
ghost use Rattle.rv_decode.specs.Decodes.{decoded};
ghost use Rattle.rvc.specs.Expands.{Expands, compressed, expanded};

/// A number expands to one word at most, which the first row gives whose tests it meets. Its
/// instruction is the one to which that word decodes: each word of an expansion is an instruction.
pub fn law_of_expansion()
    ensures one { (h w : ℕ) → h < 2 ^ 16 → (expanded h ≡ Some w) ↔ Expands h w }
    ensures decodes { (h : ℕ) → compressed h ≡ option_and_then decoded (expanded h) }
{}
