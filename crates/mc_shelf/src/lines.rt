//! Files, line by line.

ghost use Rattle.std.specs.Prelude.{◌≡◌, ◌≢◌, ◌+◌, ◌^◌, ◌<◌, ◌≤◌, ◌⊎◌, [], length, None, Some, Ok as Done, Err as Stopped, false, IfSome, IfNone, IfOk, IfErr, OnOk, IsErrOf, unwrap_or};
ghost use Rattle.mc_shelf.specs.Fault.{Rose};
ghost use Rattle.mc_shelf.specs.Lines.{up_to_newline, IsEnded, bytes_left, AllGiven, GivesFirstLine};
ghost use Rattle.mc_shelf.specs.Shelf.{TellsName};
ghost use Rattle.mc_shelf.specs.declared.lines.LineFault.TheVariants.{Fault as Faulty, NoMemory as NoRoom};

use crate::ahead::Ahead;
use crate::shelf::Shelf;
use crate::sink::Failed;
use rv_words::{Bytes, NoMemory};
use std::alloc::Global;
use std::marker::Model;

/// Why a line was not given.
#[derive(Clone, Copy, Debug, PartialEq, Eq)]
pub enum LineFault {
    /// The outside failed, or the name is missing.
    Fault,
    /// There was no memory.
    NoMemory,
}

impl From<Failed> for LineFault {
    ghost from_gives = { λ _ e. e ≡ Faulty };

    fn from(_e: Failed) -> LineFault {
        LineFault::Fault
    }
}

impl From<NoMemory> for LineFault {
    ghost from_gives = { λ _ e. e ≡ NoRoom };

    fn from(_e: NoMemory) -> LineFault {
        LineFault::NoMemory
    }
}

/// The lines of a file, from its front, up to a number of bytes. It holds a block of 4,096 bytes;
/// the shelf is lent at each call.
#[derive(Drop)]
pub struct Lines<'s> {
    name: &'s str,
    size: u64,
    given: u64,
    ahead: Ahead,
    refused: Option<LineFault>,
}

impl<'s> Model for Lines<'s> {
    ghost use Rattle.std.specs.Prelude.{◌≡◌, ◌+◌, ◌≤◌, length, None};
    ghost use Rattle.mc_shelf.specs.Lines.{LinesState};

    ghost Value = { LinesState };

    ghost view = { λ l. record {
      name = l.name.now;
      size = l.size;
      given = l.given;
      waiting = l.ahead.waiting;
      ended = l.ahead.ended;
      refused = l.refused;
    } };

    ghost invariant = { λ l. (l.given ≤ l.size)
        × (l.refused ≡ None → (l.given + length l.ahead.waiting ≡ l.ahead.place) × (l.ahead.place ≤ l.size)) };
}

/// The line, where it has bytes.
fn with_bytes(line: Bytes) -> Option<Bytes>
    ensures some { IfSome result (λ given. (given ≡ line) × (line ≢ [])) }
    ensures none { IfNone result (line ≡ []) }
{
    if line.is_empty() { None } else { Some(line) }
}

impl<'s> Lines<'s> {
    /// The lines of what the name holds, of which no more than so many bytes are given.
    pub fn new(name: &'s str, size: u64) -> Lines<'s>
        ensures { result
            ≡ record {
              name = name.now;
              size = size;
              given = 0;
              waiting = [];
              ended = false;
              refused
                  = None;
            } }
    {
        Lines {
            name,
            size,
            given: 0,
            ahead: Ahead::new(),
            refused: None,
        }
    }

    /// Gives the bytes up to and with the next newline, or the last bytes.
    pub fn next<S: Shelf>(
        &mut self,
        alloc: Global,
        shelf: &mut S,
    ) -> Result<Option<Bytes>, LineFault>
        // Of the bytes that are left the first line is given, where it is told what the name holds.
        ensures line { IfOk result (λ line.
            IfSome (S.contents shelf.old) (λ files. IfSome (files self.old.name)
            (λ file. GivesFirstLine line (bytes_left self.old file) (bytes_left self.new file)))) }

        // Over every shelf.
        ensures alone { IfOk result (λ line.
            IfSome line (λ bytes. (0 < length bytes) × (up_to_newline bytes ≡ bytes))) }
        ensures ends { IfOk result (λ line.
            IfSome line (λ bytes. IsEnded bytes ⊎ AllGiven self.new)) }
        ensures given { IfOk result (λ line.
            self.new.given ≡ self.old.given + length (unwrap_or line [])) }
        ensures within { (self.new.given ≤ self.new.size) × (self.new.size < 2 ^ 64) }
        ensures none { IfOk result (λ line. IfNone line (AllGiven self.new)) }
        ensures all_given { self.old.refused ≡ None → AllGiven self.old → result ≡ Done None }
        ensures same { (self.new.name ≡ self.old.name) × (self.new.size ≡ self.old.size) }

        // A refusal has its cause, and stays.
        ensures cause { IsErrOf result LineFault.Fault
            → Rose (S.read_faults shelf.old) (S.read_faults shelf.new)
            ⊎ (self.old.refused ≡ Some Faulty) }
        ensures again { IfSome self.old.refused (λ fault. result ≡ Stopped fault) }
        ensures err { IfErr result (λ fault.
            (self.new.refused ≡ Some fault) × (self.new.given ≡ self.old.given)) }
        ensures ok { OnOk result (self.new.refused ≡ None) }

        ensures kept { S.contents shelf.new ≡ S.contents shelf.old }
        ensures writes { S.write_faults shelf.new ≡ S.write_faults shelf.old }
        ensures counted { (S.read_faults shelf.old ≤ S.read_faults shelf.new)
            × (S.write_faults shelf.old ≤ S.write_faults shelf.new) }

        ensures stays_sure { S.IsSure shelf.old → S.IsSure shelf.new }
        ensures sure_fault { S.IsSure shelf.old
            → TellsName (S.contents shelf.old) self.old.name
            → IsErrOf result LineFault.Fault
            → self.old.refused ≡ Some Faulty }
        ensures sure_counts { S.IsSure shelf.old
            → TellsName (S.contents shelf.old) self.old.name
            → (S.read_faults shelf.new ≡ S.read_faults shelf.old)
            × (S.write_faults shelf.new ≡ S.write_faults shelf.old) }
    {
        if let Some(fault) = self.refused {
            return Err(fault);
        }
        match self.ahead.next_line(alloc, shelf, self.name, self.size) {
            Ok(line) => {
                self.given += line.len() as u64;
                Ok(with_bytes(line))
            }
            Err(fault) => {
                self.refused = Some(fault);
                Err(fault)
            }
        }
    }
}
