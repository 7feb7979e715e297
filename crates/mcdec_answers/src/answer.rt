//! What is answered to a list of words.

use crate::command::Form;
use code_parts::LinkWhy;
use elf_image::{ElfFault, NameFault};
use rv_machine::Stuck;
use rv_words::{List, Range, Text};
use self_test::Outcome;
use verdicts::Verdict;

/// The answer to a list of words.
#[derive(Debug, Drop)]
pub enum Answer {
    /// The words are no command.
    NotACommand,
    /// A read of the shelf failed.
    ReadFault,
    /// A write to the shelf failed.
    WriteFault,
    /// There was no memory.
    NoMemory,
    /// What the command `eval` comes to.
    Eval(EvalAnswer),
    /// What the command `run` comes to.
    Run(RunAnswer),
    /// What the command `check` comes to.
    Check(CheckAnswer),
    /// What the commands `decompile`, `link` and `split` come to.
    Decompile(DecompileAnswer),
    /// What the command `selftest` comes to.
    SelfTest(SelfTestAnswer),
    /// What the command `simplify` comes to.
    Simplify(SimplifyAnswer),
    /// What the command `laws` comes to.
    Laws(LawsAnswer),
    /// What the command `smt` comes to.
    Smt(SmtAnswer),
    /// What the command `migrate` comes to.
    Migrate(MigrateAnswer),
}

/// What the command `eval` comes to.
#[derive(Debug, Drop)]
pub enum EvalAnswer {
    /// The proof file has more bytes than are read.
    OverLimit,
    /// It isn't a proof file, from this line on.
    Unreadable(u64),
    /// In the group of that number, this definition isn't well-formed.
    IllFormed { group: u64, def: u32 },
    /// No group has the name.
    NoFunction,
    /// A condition that is needed is false: its definition, and its number there.
    SideFalse { def: u32, ordinal: u64 },
    /// The evaluation used all its turns.
    TurnsUsed,
    /// It ended: the turns used, the program counter at the exit, the words of the group's
    /// registers there, and, if the group has a memory, the bytes that were asked for.
    Done(Shown),
}

/// What the command `run` comes to.
#[derive(Debug, Drop)]
pub enum RunAnswer {
    /// The ELF file has more bytes than are read.
    OverLimit,
    /// It has this fault.
    Unreadable(ElfFault),
    /// START isn't the spelling of an address, and as a name it has no one value.
    StartRefused(Text, NameFault),
    /// After that many steps there was no next one.
    Stuck(u64, Stuck),
    /// The run made all its steps.
    StepsUsed,
    /// It met the address: the steps made, the program counter, the words of registers that were
    /// given one or don't hold 0, and the bytes that were asked for.
    Met(Shown),
}

/// What the command `check` comes to.
#[derive(Clone, Copy, Debug)]
pub enum CheckAnswer {
    /// The ELF file has more bytes than are read.
    ElfOverLimit,
    /// The proof file has more bytes than are read.
    ProofOverLimit,
    /// The verdict on the two. It is never `NoMemory`.
    Judged(Verdict),
}

/// What the commands `decompile`, `link` and `split` come to.
#[derive(Debug, Drop)]
pub enum DecompileAnswer {
    /// The ELF file has more bytes than are read.
    OverLimit,
    /// It has this fault.
    Unreadable(ElfFault),
    /// This name is outside the fragment.
    Refused(Text, LinkWhy),
    /// The text was written, with a function for each of these names, in that form.
    Decompiled(Form, List<Listed>),
}

/// What is told of a name: where its function is entered, how many instructions are reached from
/// there, and how many definitions it has.
#[derive(Debug, Drop)]
pub struct Listed {
    pub name: Text,
    pub entry: u64,
    pub reached: u32,
    pub defs: u64,
}

/// What the command `selftest` comes to: the number and the size, and what came of the program.
#[derive(Clone, Copy, Debug)]
pub struct SelfTestAnswer {
    pub number: u64,
    pub size: u32,
    pub outcome: Outcome,
}

/// What the command `simplify` comes to.
#[derive(Clone, Copy, Debug)]
pub enum SimplifyAnswer {
    /// The proof file has more bytes than are read.
    OverLimit,
    /// It isn't a proof file, from this line on.
    Unreadable(u64),
    /// In the group of that number, this definition isn't well-formed.
    IllFormed { group: u64, def: u32 },
    /// No group has the name.
    NoFunction,
    /// A certificate was written, with that many steps.
    Simplified(u64),
}

/// What the command `laws` comes to.
#[derive(Clone, Copy, Debug)]
pub enum LawsAnswer {
    /// The proof file has more bytes than are read.
    ProofOverLimit,
    /// The certificate's file has more bytes than are read.
    CertOverLimit,
    /// The one file isn't a proof file, from this line on.
    Unreadable(u64),
    /// In its group of that number, this definition isn't well-formed.
    IllFormed { group: u64, def: u32 },
    /// The other file isn't a certificate, from this line on.
    UnreadableCert(u64),
    /// No group has the name of the certificate's.
    NoFunction,
    /// The group of that name isn't the certificate's.
    OtherGroup,
    /// The step on this line doesn't rewrite what the steps before it give.
    BadStep(u64),
    /// The steps give other definitions than the stated ones.
    OtherResult,
    /// The certificate is accepted; it has that many steps.
    Accepted(u64),
}

/// What the command `smt` comes to.
#[derive(Clone, Copy, Debug)]
pub enum SmtAnswer {
    /// The proof file has more bytes than are read.
    OverLimit,
    /// It isn't a proof file, from this line on.
    Unreadable(u64),
    /// In the group of that number, this definition isn't well-formed.
    IllFormed { group: u64, def: u32 },
    /// No group has the name.
    NoFunction,
    /// The group of that name has no definition of that number.
    NoDef,
    /// The definition reaches this one, which enters itself again.
    Loop(u32),
    /// A script was written for this definition.
    Exported(u32),
}

/// What the command `migrate` comes to.
#[derive(Clone, Copy, Debug)]
pub enum MigrateAnswer {
    /// The ELF file has more bytes than are read.
    ElfOverLimit,
    /// The proof file has more bytes than are read.
    ProofOverLimit,
    /// The verdict that refuses the two. It is never `NoMemory`.
    Refused(Verdict),
    /// A text of version 2 was written, with that many functions and proof lines.
    Migrated { functions: u64, lines: u64 },
}

/// What is shown of the end of an evaluation or a run.
#[derive(Debug, Drop)]
pub struct Shown {
    /// How many turns or steps there were.
    pub count: u64,
    pub pc: u64,
    pub registers: List<u8>,
    /// The word of each of these registers.
    pub words: List<u64>,
    pub memory: List<Range>,
    /// Of the second memory, where there is one.
    pub stack: List<Range>,
}
