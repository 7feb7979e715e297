//! What stands before a place in a body, in the order of its definition's text.

ghost use Rattle.std.specs.Prelude.{◌≡◌, ◌+◌, ◌<◌, ◌^◌, OnOk};
ghost use Rattle.tailrec_lang.specs.inner.Walk.{needs_passed, needs_skipped};

use crate::group::Body;
use crate::walk::{needs_in, needs_in_arms};
use rv_words::{List, NoMemory};
use std::alloc::Global;

/// What was passed over: the first body of a branch, or the arms before one.
#[derive(Drop)]
pub enum Skipped<'a> {
    First(&'a Body),
    Arms(&'a [Body]),
}

/// How many Needs were met on the way, and what was passed over. The Needs in that are counted only
/// where their number is wanted, so that a turn costs nothing for the bodies that it doesn't enter.
#[derive(Drop)]
pub struct Passed<'a> {
    pub met: u64,
    pub skipped: List<Skipped<'a>>,
}

impl<'a> Passed<'a> {
    /// The place where a definition's body begins.
    pub fn nothing(alloc: Global) -> Passed<'a>
        ensures { needs_passed result ≡ 0 }
    {
        Passed {
            met: 0,
            skipped: List::new(alloc),
        }
    }

    /// Passes over what isn't entered.
    pub fn skip(&mut self, skipped: Skipped<'a>) -> Result<(), NoMemory>
        ensures { OnOk result (needs_passed self.new
            ≡ needs_passed self.old + needs_skipped skipped.entry) }
    {
        self.skipped.push(skipped)?;
        Ok(())
    }

    /// How many Needs stand before.
    pub fn needs(&self) -> u64
        requires { needs_passed self.now < 2 ^ 64 }
        ensures { result ≡ needs_passed self.now }
    {
        let mut count = self.met;
        let all = self.skipped.as_slice();
        for skipped in all {
            count += needs_of_skipped(skipped);
        }
        count
    }
}

/// How many Needs there are in what was passed over.
fn needs_of_skipped(skipped: &Skipped) -> u64
    requires { needs_skipped skipped.now < 2 ^ 64 }
    ensures { result ≡ needs_skipped skipped.now }
{
    match skipped {
        Skipped::First(body) => needs_in(body),
        Skipped::Arms(arms) => needs_in_arms(arms),
    }
}
