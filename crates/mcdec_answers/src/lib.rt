//! The words of a command line and the command that they are; what is answered to it, and how an
//! answer is printed.
#![tactic(auto)]

mod answer;
mod command;
mod print;

pub use answer::{
    Answer, CheckAnswer, DecompileAnswer, EvalAnswer, LawsAnswer, Listed, MigrateAnswer, RunAnswer,
    SelfTestAnswer, Shown, SimplifyAnswer, SmtAnswer,
};
pub use command::{
    Check, Command, Decompile, Eval, Form, Laws, Memory, Migrate, Registers, Run, SelfTest,
    Simplify, Smt, Unread, read_words,
};
pub use print::deliver;
