//! What the next instruction loads or stores.

ghost use Rattle.std.specs.Prelude.{◌≡◌, ◌<◌};
ghost use Rattle.rv_decode.specs.Decodes.{NamesRegisters};
ghost use Rattle.rv_machine.specs.State.{state_of};
ghost use Rattle.rv_machine.specs.Touches as spec;

use crate::address::plus_immediate;
use crate::state::State;
use rv_decode::Instr;
use rv_words::Width;

/// Addresses that lie one after the other, going on from 0 after the last one.
#[derive(Clone, Copy, Debug, PartialEq, Eq)]
pub struct Touch {
    /// The first address, or 0 where there is none.
    pub at: u64,
    /// How many there are.
    pub count: u8,
}

/// No address.
const NOTHING: Touch = Touch { at: 0, count: 0 };

impl State {
    /// The addresses that the instruction at the program counter loads or stores. There are none
    /// where it is another instruction, and where no instruction can be fetched or decoded.
    #[tactic(auto, unfolding(crate::specs::Touches::touches))]
    pub fn touches(&self) -> Touch
        ensures { result ≡ spec.touches (state_of self.now) }
    {
        match self.instruction() {
            Ok(found) => self.touched(found.instruction),
            Err(_) => NOTHING,
        }
    }

    /// The addresses that an instruction loads or stores.
    fn touched(&self, instruction: Instr) -> Touch
        requires { NamesRegisters instruction }
        ensures { result ≡ spec.touched instruction (state_of self.now) }
    {
        match instruction {
            Instr::Load {
                width,
                rs1,
                imm,
                ..
            } => self.accessed(width, rs1, imm),
            Instr::Store {
                width,
                rs1,
                imm,
                ..
            } => self.accessed(width, rs1, imm),
            _ => NOTHING,
        }
    }

    /// The addresses of a width from a register plus an immediate on.
    fn accessed(&self, width: Width, rs1: u8, imm: i32) -> Touch
        requires { rs1 < 32 }
        ensures { result ≡ spec.accessed width rs1 imm (state_of self.now) }
    {
        Touch {
            at: plus_immediate(self.reg(rs1), imm),
            count: width.bytes(),
        }
    }
}
