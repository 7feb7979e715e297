//! Theorems that are looked up by their numbers.

ghost use Rattle.std.specs.Prelude.{◌≡◌, IfSome, option_map};
ghost use Rattle.std.specs.Option.{option_copied};
ghost use Rattle.held_terms.specs.Held.{IsHeldAt, triple_of};
ghost use Rattle.held_definitions.specs.Theorems.{AreHeldAt, held_by_number, theorem_at};

use held_terms::Held;
use std::collections::BTreeMap;
use term_arena::Arena;

/// The theorem of that number, if it exists and wasn't forgotten.
pub fn theorem<'a>(arena: &Arena, held: &'a BTreeMap<u64, Held>, k: u64) -> Option<&'a Held>
    requires { AreHeldAt arena.now held.now.entries }
    ensures theorem { option_map (triple_of arena.now) (option_copied result)
        ≡ theorem_at arena.now held.now.entries k }
    ensures there { IfSome (option_copied result) (λ h. IsHeldAt arena.now h) }
    ensures held { option_copied result ≡ held_by_number held.now.entries k }
{
    held.get(&k)
}
