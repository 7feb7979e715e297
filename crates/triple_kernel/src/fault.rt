//! Why a rule gave no theorem.

ghost use Rattle.std.specs.Prelude.{◌≡◌};
ghost use Rattle.triple_kernel.specs.declared.fault.RuleFault.TheVariants.{NoMemory as NoRoom};

use rv_words::NoMemory;

/// Why a rule that takes memory gave no theorem.
#[derive(Clone, Copy, Debug, PartialEq, Eq)]
pub enum RuleFault {
    /// The stated conclusion is no instance of the rule on these premises.
    NoInstance,
    /// There was no memory.
    NoMemory,
}

impl From<NoMemory> for RuleFault {
    ghost from_gives = { λ _ fault. fault ≡ NoRoom };

    fn from(_e: NoMemory) -> RuleFault {
        RuleFault::NoMemory
    }
}
