//! Runs of the machine.

ghost use Rattle.rv_machine.specs.State.{state_of};
ghost use Rattle.rv_machine.specs.Run.{EndsIn};

use crate::state::{State, Stuck};

/// How a run ends.
#[derive(Clone, Copy, Debug, PartialEq, Eq)]
pub enum RunEnd {
    /// At the address, after that many steps.
    Met(u64),
    /// Without a next step, after that many steps.
    Stuck(u64, Stuck),
    /// After all steps.
    Steps,
}

impl State {
    /// Steps until the program counter is `until`, at most `steps` times. Before each step it tests
    /// whether it is there, then whether steps are left. It takes no memory.
    pub fn run(&mut self, until: u64, steps: u64) -> RunEnd
        ensures { EndsIn until steps (state_of self.old) (state_of self.new) result }
    {
        for made in 0..steps {
            if self.pc() == until {
                return RunEnd::Met(made);
            }
            if let Err(why) = self.step() {
                return RunEnd::Stuck(made, why);
            }
        }
        if self.pc() == until {
            return RunEnd::Met(steps);
        }
        RunEnd::Steps
    }
}
