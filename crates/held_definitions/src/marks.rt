//! Which theorems' code is known without a look at its bytes.

ghost use Rattle.std.specs.Prelude.{◌≡◌, IsTrue, List as Items, Some as Just};
ghost use Rattle.rv_words.specs.declared.range.Range.{Range};
ghost use Rattle.held_terms.specs.declared.held.Held.{Held as HeldOf};
ghost use Rattle.held_definitions.specs.Theorems.{Theorems};

use std::alloc::Global;
use std::collections::BTreeSet;

/// Theorems that are known to have the group's own code, and others whose code is known to lie
/// within it, as far as there is room to keep that.
#[derive(Drop)]
pub struct Marks {
    pub own: BTreeSet<u64>,
    pub within: BTreeSet<u64>,
}

impl Marks {
    ghost use Rattle.std.specs.Prelude.{IfSome, Option};
    ghost use Rattle.std.specs.BTreeSet.{contains};
    ghost use Rattle.std.specs.Ordering.{nat_cmp};
    ghost use Rattle.held_definitions.specs.Theorems.{held_by_number};
    ghost use Rattle.held_definitions.specs.inner.Marks.{AreMarked, Changes, HasCode, HasWithin};

    /// No marks.
    pub fn new(alloc: Global) -> Marks
        ensures { (code : Items Range) (held : Theorems) → AreMarked code held result }
    {
        Marks {
            own: BTreeSet::new(alloc),
            within: BTreeSet::new(alloc),
        }
    }

    /// Whether the theorem of that number is known to have the group's own code.
    pub fn is_own(&self, number: u64) -> bool
        ensures { result ≡ contains nat_cmp self.now.own number }
    {
        self.own.contains(&number)
    }

    /// Whether its code is known to lie within the group's own.
    pub fn is_within(&self, number: u64) -> bool
        ensures { (code : Items Range) (held : Theorems)
            → AreMarked code held self.now
            → IsTrue result
            → IfSome (held_by_number held number) (HasWithin code) }
    {
        self.own.contains(&number) || self.within.contains(&number)
    }

    /// Takes the marks of that number away.
    pub fn remove(&mut self, number: u64)
        ensures same { (code : Items Range) (held : Theorems)
            → AreMarked code held self.old
            → AreMarked code held self.new }
        ensures changed { (code : Items Range) (old held : Theorems) (w : Option HeldOf)
            → Changes old held number w
            → AreMarked code old self.old
            → AreMarked code held self.new }
    {
        self.own.remove(&number);
        self.within.remove(&number);
    }

    /// Marks the theorem of that number, which came, as far as there is room: that it has the
    /// group's own code where `own` says so, and that its code lies within that where `within`
    /// does.
    pub fn add(&mut self, number: u64, own: bool, within: bool)
        ensures { (code : Items Range) (old held : Theorems) (h : HeldOf)
            → Changes old held number (Just h)
            → (IsTrue own → HasCode code h)
            → (IsTrue within → HasWithin code h)
            → AreMarked code held self.old
            → AreMarked code held self.new }
    {
        if own {
            let _marked = self.own.insert(number);
        }
        if within {
            let _marked = self.within.insert(number);
        }
    }
}
