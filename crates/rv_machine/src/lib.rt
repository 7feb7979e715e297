//! The machine: states and steps of one hart (RISC-V Unprivileged ISA 20191213, RV64IMC without
//! traps).
//!
//! A `State` is a program counter, 32 registers of which x0 stays 0, and a memory in which a byte
//! is present or absent; there are no permissions. `state.step()` carries out the instruction at
//! the program counter, or answers why there is none: a `Stuck`. `state.run(until, steps)` is the
//! loop of steps, and answers a `RunEnd`: the address was met, no further step was possible, or all
//! steps were used. `state.touches()` tells which bytes the next step loads or stores.
//!
//! The step is a function of states, `step` in `specs/Step.antt`, laid out as the manual's tables:
//! `act` is what an instruction does, `hindrance` when it can't. An instruction has two bytes or
//! four, by crate rvc.
//!
//! The law that matters is `law_of_steps`: a step is that of the instruction at the program
//! counter, exactly where it isn't hindered. `law_of_touches` says that it depends on no other byte
//! than those that it fetches and touches, and `law_of_runs` that runs can be joined and parted.
#![tactic(auto)]

mod access;
mod address;
mod laws;
mod registers;
mod running;
mod state;
mod touch;

pub use address::{immediate_word, jump_target, plus_immediate, upper_word};
pub use laws::{law_of_registers, law_of_runs, law_of_states, law_of_steps, law_of_touches};
pub use running::RunEnd;
pub use state::{State, Stuck};
pub use touch::Touch;
