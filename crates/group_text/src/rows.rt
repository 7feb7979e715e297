//! Rows of a text, one after the other.

ghost use Rattle.std.specs.Prelude.{◌≡◌, ℕ, ◌<◌, ◌≤◌, List, Option, Some, None, IfOk, OnErr};
ghost use Rattle.group_text.specs.declared.read_error.RowError.{RowError as LostBy};
ghost use Rattle.group_text.specs.declared.read_error.RowError.TheVariants.{NoMemory};
ghost use Rattle.group_text.specs.inner.Rows.{RowPosition, IsRow, Passed, Holds, lost_by};

use crate::read_error::RowError;
use std::alloc::Global;

/// The rows of a text, one after the other. What is lent at each call is where they come from.
pub trait Rows<E> {
    /// The places at which they may stand.
    ghost May: { Self → E → RowPosition → Type 0 };

    /// The row that is held, or nothing.
    ghost held: { Self → List ℕ };

    /// No row is lost, which must be known beforehand.
    ghost Sure: { Self → E → Type 0 };

    /// A bound on the rows that may still be passed.
    ghost left: { Self → ℕ };

    /// What calls may do to the rows and to what is lent, by what the last of them lost a row, if
    /// it did.
    ghost Lends: { Option LostBy → Self → E → Self → E → Type 0 };

    /// Holds the next row, if there is one. It isn't passed.
    fn hold(&mut self, alloc: Global, from: &mut E) -> Result<bool, RowError>
        ensures kept { (p : RowPosition) → May self.new from.new p → May self.old from.old p }
        ensures left { left self.new ≤ left self.old }
        ensures lends { Lends (lost_by result) self.old from.old self.new from.new }
        ensures sure { Sure self.old from.old → OnErr result ⊥ }
        ensures holds { IfOk result (λ b. Holds b (held self.new) (May self.new from.new)) };

    /// The row that is held, or nothing.
    fn row(&self) -> &[u8]
        ensures { result.now ≡ held self.now };

    /// Passes over the row that is held.
    fn pass(&mut self, from: &E)
        requires { IsRow (held self.old) }
        ensures fewer { left self.new < left self.old }
        ensures lends { Lends None self.old from.now self.new from.now }
        ensures passed { (q : RowPosition)
            → May self.new from.now q
            → (p : RowPosition) × May self.old from.now p × Passed (held self.old) p q };

    /// How many rows were passed.
    fn taken(&self, from: &E) -> u64
        ensures { (p : RowPosition) → May self.now from.now p → result ≡ p.taken };

    /// No call does nothing.
    ghost lends_nothing: { (a : Self) (d : E) → Lends None a d a d };

    /// Calls after calls that lost no row.
    ghost lends_then: { (lost : Option LostBy) (a b c : Self) (d e f : E) → Lends None a d b e → Lends lost b e c f → Lends lost a d c f };

    /// Memory may be missing where no row was lost.
    ghost lends_full: { (a b : Self) (d e : E) → Lends None a d b e → Lends (Some NoMemory) a d b e };
}
