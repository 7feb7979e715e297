//! Numbers drawn from a seed.

ghost use Rattle.std.specs.Prelude.{◌≡◌, ◌<◌};
ghost use Rattle.code_gen.specs.Draws.{draw, next};

/// A source of numbers, which are the same for the same seed.
#[derive(Drop)]
pub struct Draws {
    pub seed: u64,
}

impl Draws {
    /// A number below that one. The upper 31 bits of the seed decide, as the period of the lower
    /// ones is short.
    pub fn draw(&mut self, below: u32) -> u32
        requires { 0 < below }
        ensures number { result ≡ draw below self.old.seed }
        ensures seed { self.new.seed ≡ next self.old.seed }
    {
        self.seed = self
            .seed
            .wrapping_mul(6364136223846793005)
            .wrapping_add(1442695040888963407);
        ((self.seed >> 33) % u64::from(below)) as u32
    }
}
