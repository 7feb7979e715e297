//! Groups of definitions.

use rv_words::{List, Text};
use word_terms::{Code, Cond, Mem, Word};

/// Terms for the words and the memories that a definition is entered or left with.
#[derive(Debug, Drop)]
pub struct Values {
    pub words: List<Word>,
    pub mems: List<Mem>,
}

/// One line of a body.
#[derive(Debug, Drop)]
pub enum Step {
    /// The next word variable is the term's value.
    Bind(Word),
    /// The next memory variable is the term's value.
    BindMem(Mem),
    /// The condition has to be true; otherwise there is no value.
    Need(Cond),
}

/// How a body ends.
#[cycle(bodies)]
#[derive(Debug, Drop)]
pub enum End {
    /// Goes on with the first body where the condition is true, else with the second.
    Branch(Cond, Box<Body>, Box<Body>),
    /// Enters the earlier definition of that number with these values, and goes on with the arm of
    /// the exit by which it leaves. The results are the arm's next variables, the returned address
    /// first where there is one.
    Call(u32, Values, List<Body>),
    /// Enters the definition again, with these values.
    Again(Values),
    /// Leaves the definition by the exit of that number, with these values; the first is the
    /// address to which it returns, where the exit is a return.
    Leave(u32, Values),
}

/// Steps in order, and an end.
#[cycle(bodies)]
#[derive(Debug, Drop)]
pub struct Body {
    pub steps: List<Step>,
    pub end: End,
}

/// Where a definition is left to.
#[derive(Clone, Copy, Debug, PartialEq, Eq)]
pub enum Exit {
    /// An address.
    At(u64),
    /// The address that it returns to, which is the first word that it is left with.
    Ret,
}

/// A definition: the address where its code is entered, its exits, and its body. Its parameters are
/// one word for each register of the group, in order, and the group's memories, as the variables
/// from 0 on.
#[derive(Debug, Drop)]
pub struct Def {
    pub entry: u64,
    pub exits: List<Exit>,
    pub body: Body,
}

/// The definitions that belong to one function, which is the last of them, and what they have in
/// common: the function's name, the numbers of the registers that are its parameters, how many
/// memories it has, and its code. In a text the registers rise from 1 to 31, and there are 0, 1 or,
/// where the stack has one of its own, 2 memories; the type doesn't ask for it.
#[derive(Debug, Drop)]
pub struct Group {
    pub name: Text,
    pub regs: List<u8>,
    pub mems: u8,
    pub code: Code,
    pub defs: List<Def>,
}
