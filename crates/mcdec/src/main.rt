//! A decompiler from RISC-V machine code into logic: the program.
#![tactic(auto)]

use mc_shelf::{DirShelf, OutSink};
use mcdec_answers::{Answer, deliver};
use mcdec_commands::run_words;
use std::process::ExitCode;
use std::{env, io};

/// Runs the command that the arguments are, over the system's files and the standard output.
fn main(rt: HostRuntime) -> ExitCode {
    let alloc = rt.alloc();
    let mut shelf = DirShelf::new(&rt);
    let mut out = OutSink::new(&rt);
    let status = match arguments(&rt) {
        Ok(words) => run_words(alloc, &words, &mut shelf, &mut out),
        Err(answer) => deliver(&mut out, &answer),
    };
    ExitCode::from(status)
}

/// The words behind the program's name. An argument that isn't UTF-8 is no command's word.
fn arguments(rt: &HostRuntime) -> Result<Vec<String>, Answer> {
    let mut arguments = match env::args(rt) {
        Ok(arguments) => arguments,
        Err(e) if e.kind() == io::ErrorKind::OutOfMemory => return Err(Answer::NoMemory),
        Err(_) => return Err(Answer::NotACommand),
    };
    arguments.next();
    arguments.collect(rt.alloc()).map_err(|_| Answer::NoMemory)
}
