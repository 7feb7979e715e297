//! Laws of drawn code. These functions do nothing: their contracts are the laws. Each speaks of the
//! definitions alone.

ghost use Rattle.std.specs.Prelude.{◌≡◌, ◌≢◌, ℕ, ◌+◌, ◌*◌, ◌^◌, ◌-◌, ◌<◌, ◌≤◌, All, length};
ghost use Rattle.std.specs.List.{AllZip};
ghost use Rattle.rv_decode.specs.Decodes.{Decodes};
ghost use Rattle.rv_decode.specs.Registers.{destination};
ghost use Rattle.code_gen.specs.Draws.{draw, next};
ghost use Rattle.code_gen.specs.Pieces.{Done, Pieces, beginning, drawn, kind};
ghost use Rattle.code_gen.specs.Program.{code, counter, instructions, program_of};
ghost use Rattle.code_gen.specs.Structure.{AreShaped, EachAt, LandsWithin, most_steps};

/// Code of size 0 is none. Other code begins with the piece of its kind, and what comes after is
/// drawn in the same manner: the bound on the number of pieces is never met.
pub fn law_of_draws()
    ensures none { (d s : ℕ) → drawn 0 d s ≡ record { pieces = Done; seed = s } }
    ensures some { (u d s : ℕ)
        → 0 < u
        → drawn u d s ≡ beginning drawn (kind (draw 4 s) u d) u d (next s) }
{}

/// The structure of drawn code: its loops stand in at most three others, take one to four turns,
/// and have short bodies.
pub fn law_of_shapes()
    ensures { (u d s : ℕ) → u ≤ 600 → d ≤ 4 → AreShaped d (drawn u d s).pieces }
{}

/// Each word of a program decodes to the instruction that stands there, and there are at most
/// 1,001.
pub fn law_of_words()
    ensures decodes { (number size : ℕ)
        → size ≤ 600
        → AllZip Decodes (program_of number size) (instructions number size) }
    ensures few { (number size : ℕ) → 3 * length (instructions number size) ≤ 5 * size + 3 }
{}

/// The counter of a loop is its own: no instruction within it writes it but the last two.
pub fn law_of_counters()
    ensures { (d e : ℕ) (p : Pieces)
        → AreShaped d p
        → d ≤ 4
        → e < d
        → All (λ i. destination i ≢ counter e) (code d p) }
{}

/// Jumps and branches stay within the code of their pieces: it is left at its end alone.
pub fn law_of_targets()
    ensures { (d : ℕ) (p : Pieces) → EachAt (LandsWithin (length (code d p))) 0 (code d p) }
{}

/// How many steps drawn code takes at most.
pub fn law_of_steps()
    ensures { (u d s : ℕ) → d ≤ 4 → most_steps (drawn u d s).pieces ≤ 2 * 4 ^ (4 - d) * u }
{}
