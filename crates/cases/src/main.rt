//! Runs cases of the commands, which it reads from its input, and prints what comes of them.
//!
//! A line of the input is one of these. What a line prints stands behind it in the input too,
//! behind `> `, for the reader: such lines are passed over, as empty ones and those that begin with
//! `#` are.
//!
//!     case TEXT              a case begins: the names hold what they held before the first case
//!     file NAME              the name holds the lines that follow, each behind `| `
//!     each NAME COUNT        adds the lines that follow so many times, with the number of each time, from 0, in the place of `{}`
//!     hex NAME BYTES         .. these bytes, in hexadecimal digits
//!     elf NAME WORD..        .. an ELF file with these instruction words at 0x10000; WORD*N is N of them
//!     copy NAME OTHER        .. what the other one holds
//!     long NAME COUNT        .. so many empty lines, where it is missing; no memory is taken for them, and a case has one such name
//!     drop NAME              .. nothing, and is missing
//!     add NAME BYTES         adds bytes at the end
//!     put NAME AT BYTES      writes bytes over those from that offset on
//!     cut NAME SIZE          keeps as many bytes
//!     line NAME N            puts the lines that follow in the place of line N
//!     fail CALL KEPT         that call on the shelf of the next command fails, and keeps so many bytes
//!     choke CALL KEPT        that call on its sink
//!     star WORD              the word behind this one is printed as `*` in the next command's lines
//!     count NAME             the number of lines of proofs in the file is printed as `*` at their ends
//!     run WORD..             runs the command, and prints its lines, its status, and which names hold something else then
//!     fronts NAME WORD..     runs it once for each shorter front of what the name holds, and prints each answer that differs
//!                            from the one before, with the front's size
//!     spoil NAME BYTE WORD.. the same with this byte in the place of each other one
//!     show NAME              prints what the name holds
//!     head NAME N            .. its first lines
//!     pick NAME TEXT         .. its lines that begin with the text
//!     sort NAME TEXT         .. those in rising order
//!     front NAME OTHER       .. how much of the other one's bytes the name holds, from their beginning
#![tactic(auto)]

mod cases;
mod command;
mod files;
mod long_shelf;
mod page;

use anyhow::Result;
use cases::Cases;
use std::io;
use std::io::{BufRead, BufReader, BufWriter, Write};

fn main(rt: HostRuntime) -> Result<()> {
    let alloc = rt.alloc();
    let mut out = BufWriter::new(alloc, io::writer(&rt))?;
    let mut cases = Cases::new(alloc);
    for line in BufReader::new(alloc, rt.reader())?.lines(alloc) {
        let page = cases.answer(line?.as_str())?;
        out.write_all(page.as_slice())?;
    }
    out.flush()?;
    Ok(())
}
