//! The command `selftest`.

ghost use Rattle.std.specs.Prelude.{◌≡◌, ◌≤◌};
ghost use Rattle.mcdec_answers.specs.Printed.{status};
ghost use Rattle.mcdec_commands.specs.inner.SelfTesting.{TestGives};

use mcdec_answers::{Answer, SelfTest, SelfTestAnswer};
use rv_words::NoMemory;
use self_test::self_test;
use std::alloc::Global;

/// The answer to `selftest`.
pub fn answer_selftest(alloc: Global, test: SelfTest) -> Answer
    requires { test.size ≤ 600 }
    ensures gives { TestGives test.number test.size result }
    ensures no_fault { status result ≡ 5 → ⊥ }
{
    match self_test(alloc, test.number, test.size) {
        Ok(outcome) => Answer::SelfTest(SelfTestAnswer {
            number: test.number,
            size: test.size,
            outcome,
        }),
        Err(NoMemory) => Answer::NoMemory,
    }
}
