//! The state of the machine and its step.

ghost use Rattle.std.specs.Prelude.{◌≡◌, ◌≢◌, ◌+◌, ◌^◌, ◌<◌, ◌≤◌, ◌↔◌, false, Some, None, IsSome, IsTrue, length, replicate, OnOk, OnErr, IfOk, IfErr};
ghost use Rattle.std.specs.FinMap.{empty};
ghost use Rattle.rv_words.specs.Bytes.{bytes_from, bytes_of};
ghost use Rattle.rv_decode.specs.Decodes.{NamesRegisters};
ghost use Rattle.rv_machine.specs.State.{IsState, empty_state, state_of, with_bytes};
ghost use Rattle.rv_machine.specs.declared.state.Stuck.TheVariants.{NoByte};
ghost use Rattle.rv_machine.specs.Step.{act, branches, cause, first_absent as absent_from, goes_on, goes_to, has, hindrance, instruction_at, length_at, loads_to, next, step as next_state, stores_at, stuck, writes};

use crate::access::{fetch, first_absent, load};
use crate::address::{immediate_word, jump_target, plus_immediate, upper_word};
use crate::registers::Registers;
use rv_decode::Instr;
use rv_words::{ByteMap, NoMemory, Width, apply, compare};
use rvc::{instruction_of, length_of};
use std::alloc::Global;
use std::marker::Model;

/// Why there is no step, in the order of the tests.
#[derive(Clone, Copy, Debug, PartialEq, Eq)]
pub enum Stuck {
    /// The program counter is odd.
    Misaligned(u64),
    /// One of the bytes of the instruction at the program counter is absent.
    NoFetch,
    /// The parcel or the word at the program counter is no instruction.
    NotDecoded(u32),
    /// The instruction calls the environment.
    Environment,
    /// A byte that is to be loaded or stored is absent: the first one counting up from the address.
    NoByte(u64),
}

/// An instruction, and how many bytes it has where it stands.
#[derive(Clone, Copy)]
pub struct Found {
    pub instruction: Instr,
    pub length: u64,
}

/// A state of the machine. Memory has no permissions.
#[derive(Debug, Drop)]
pub struct State {
    pc: u64,
    registers: Registers,
    memory: ByteMap,
}

impl Model for State {
    ghost use Rattle.rv_machine.specs.State.{Contents};
    ghost use Rattle.rv_machine.specs.inner.State.{contents_code};

    ghost Value = { Contents };

    ghost coded = { contents_code };

    ghost view = { λ s. record { pc = s.pc; registers = s.registers; memory = s.memory } };
}

impl State {
    /// A state with that program counter, all registers 0 and no memory.
    pub fn new(alloc: Global, pc: u64) -> State
        ensures contents { result ≡ record { pc = pc; registers = replicate 32 0; memory = empty } }
        ensures state { state_of result ≡ empty_state pc }
    {
        State {
            pc,
            registers: Registers::new(),
            memory: ByteMap::new(alloc),
        }
    }

    /// Every value is a machine's state: its numbers are in their ranges.
    pub fn law_of_values(&self)
        ensures { IsState (state_of self.now) }
    {
        let _pc = self.pc;
        self.registers.law_of_values();
        self.memory.law_of_values();
    }

    /// The program counter: the address of the instruction that is next (section 2.1 of the
    /// manual).
    pub fn pc(&self) -> u64
        ensures { result ≡ self.now.pc }
    {
        self.pc
    }

    /// The word in register `n`, 0 to 31; of x0 that is 0 (section 2.1 of the manual).
    pub fn reg(&self, n: u8) -> u64
        requires { n < 32 }
        ensures { result ≡ (state_of self.now).reg n }
    {
        self.registers.get(n)
    }

    /// Writes a word to register `n`, 1 to 31.
    pub fn set_reg(&mut self, n: u8, v: u64)
        requires within { n < 32 }
        requires not_zero { n ≢ 0 }
        ensures { state_of self.new ≡ writes n v (state_of self.old) }
    {
        self.registers.set(n, v);
    }

    /// The memory: the bytes that are present, by address.
    pub fn memory(&self) -> &ByteMap
        ensures { result.now ≡ self.now.memory }
    {
        &self.memory
    }

    /// Puts bytes at the addresses from `a` on, over those that are present.
    pub fn place(&mut self, a: u64, bytes: &[u8]) -> Result<(), NoMemory>
        requires { a + length bytes.now ≤ 2 ^ 64 }
        ensures ok { OnOk result (state_of self.new
            ≡ with_bytes (bytes_from a bytes.now) (state_of self.old)) }
        ensures err { OnErr result (self.new ≡ self.old) }
    {
        self.memory.place(a, bytes)
    }

    /// Puts `n` zeros at the addresses from `a` on.
    pub fn place_zeros(&mut self, a: u64, n: u64) -> Result<(), NoMemory>
        requires { a + n ≤ 2 ^ 64 }
        ensures ok { OnOk result (state_of self.new
            ≡ with_bytes (bytes_from a (replicate n 0)) (state_of self.old)) }
        ensures err { OnErr result (self.new ≡ self.old) }
    {
        self.memory.place_zeros(a, n)
    }

    /// Makes one step: carries out the instruction at the program counter (chapters 2, 5, 7 and 16
    /// of the manual). Where there is none or it can't be carried out, nothing changes. It takes no
    /// memory.
    #[tactic(auto, unfolding(crate::specs::Step::step, crate::specs::Step::stuck))]
    pub fn step(&mut self) -> Result<(), Stuck>
        ensures ok { OnOk result (next_state (state_of self.old) ≡ Some (state_of self.new)) }
        ensures reason { IfErr result (λ why. stuck (state_of self.old) ≡ Some why) }
        ensures exactly { (stuck (state_of self.old) ≡ None)
            ↔ IsSome (next_state (state_of self.old)) }
        ensures err { OnErr result (self.new ≡ self.old) }
    {
        let found = self.instruction()?;
        self.carry_out(found.instruction, found.length)
    }

    /// The instruction at the program counter.
    pub(crate) fn instruction(&self) -> Result<Found, Stuck>
        ensures ok { IfOk result (λ f. instruction_at (state_of self.now) ≡ Some f.instruction) }
        ensures length { IfOk result (λ f. length_at (state_of self.now) ≡ f.length) }
        ensures registers { IfOk result (λ f. NamesRegisters f.instruction) }
        ensures later { IfOk result (λ f.
            cause (state_of self.now) ≡ hindrance f.instruction (state_of self.now)) }
        ensures none { OnErr result (instruction_at (state_of self.now) ≡ None) }
        ensures reason { IfErr result (λ why. cause (state_of self.now) ≡ why) }
    {
        if self.pc % 2 != 0 {
            return Err(Stuck::Misaligned(self.pc));
        }
        let Some(number) = fetch(&self.memory, self.pc) else {
            return Err(Stuck::NoFetch);
        };
        match instruction_of(number) {
            Some(instruction) => Ok(Found {
                instruction,
                length: u64::from(length_of(number)),
            }),
            None => Err(Stuck::NotDecoded(number)),
        }
    }

    /// Carries an instruction of that many bytes out.
    fn carry_out(&mut self, instruction: Instr, length: u64) -> Result<(), Stuck>
        requires { NamesRegisters instruction }
        ensures ok { OnOk result (act instruction length (state_of self.old)
            ≡ Some (state_of self.new)) }
        ensures none { OnErr result (act instruction length (state_of self.old) ≡ None) }
        ensures reason { IfErr result (λ why. hindrance instruction (state_of self.old) ≡ why) }
        ensures err { OnErr result (self.new ≡ self.old) }
    {
        match instruction {
            Instr::Op { op, rd, rs1, rs2 } => {
                self.finish(rd, apply(op, self.reg(rs1), self.reg(rs2)), length);
            }
            Instr::OpImm { op, rd, rs1, imm } => {
                self.finish(rd, apply(op, self.reg(rs1), immediate_word(imm)), length);
            }
            Instr::Lui { rd, imm } => self.finish(rd, upper_word(imm), length),
            Instr::Auipc { rd, imm } => {
                self.finish(rd, self.pc.wrapping_add(upper_word(imm)), length);
            }
            Instr::Jal { rd, offset } => self.jump(rd, plus_immediate(self.pc, offset), length),
            Instr::Jalr { rd, rs1, imm } => {
                self.jump(rd, jump_target(self.reg(rs1), imm), length);
            }
            Instr::Branch {
                cmp,
                rs1,
                rs2,
                offset,
            } => self.branch(compare(cmp, self.reg(rs1), self.reg(rs2)), offset, length),
            Instr::Load {
                width,
                signed,
                rd,
                rs1,
                imm,
            } => self.load(
                width,
                signed,
                rd,
                plus_immediate(self.reg(rs1), imm),
                length,
            )?,
            Instr::Store {
                width,
                rs1,
                rs2,
                imm,
            } => self.store(
                width,
                plus_immediate(self.reg(rs1), imm),
                self.reg(rs2),
                length,
            )?,
            Instr::Fence { .. } => self.go_on(length),
            Instr::Ecall | Instr::Ebreak => return Err(Stuck::Environment),
        }
        Ok(())
    }

    /// On to the next instruction, behind one of that many bytes.
    fn go_on(&mut self, length: u64)
        ensures { state_of self.new ≡ goes_on length (state_of self.old) }
    {
        self.pc = self.pc.wrapping_add(length);
    }

    /// Writes a register, and on to the next instruction.
    fn finish(&mut self, rd: u8, word: u64, length: u64)
        requires { rd < 32 }
        ensures { state_of self.new ≡ goes_on length (writes rd word (state_of self.old)) }
    {
        self.registers.set(rd, word);
        self.go_on(length);
    }

    /// Jumps to a target, and writes the address after the jump to a register.
    fn jump(&mut self, rd: u8, target: u64, length: u64)
        requires { rd < 32 }
        ensures { let s = state_of self.old in state_of self.new ≡ goes_to target
            (writes rd (next length s) s) }
    {
        let link = self.pc.wrapping_add(length);
        self.pc = target;
        self.registers.set(rd, link);
    }

    /// Goes by an offset or on to the next instruction.
    fn branch(&mut self, taken: bool, offset: i32, length: u64)
        ensures { state_of self.new ≡ branches taken offset length (state_of self.old) }
    {
        if taken {
            self.pc = plus_immediate(self.pc, offset);
        } else {
            self.go_on(length);
        }
    }

    /// Tests that all bytes of the width from an address on are present.
    fn find_bytes(&self, width: Width, a: u64) -> Result<(), Stuck>
        ensures ok { OnOk result (IsTrue (has width (state_of self.now).mem a)) }
        ensures none { OnErr result (has width (state_of self.now).mem a ≡ false) }
        ensures reason { IfErr result (λ why.
            NoByte (absent_from (bytes_of width) (state_of self.now).mem a) ≡ why) }
    {
        if self.memory.has(a, width) {
            return Ok(());
        }
        match first_absent(&self.memory, a, width.bytes()) {
            Some(absent) => Err(Stuck::NoByte(absent)),
            None => Ok(()),
        }
    }

    /// Loads from an address into a register.
    fn load(&mut self, width: Width, signed: bool, rd: u8, a: u64, length: u64) -> Result<(), Stuck>
        requires { rd < 32 }
        ensures ok { OnOk result (loads_to rd width signed a length (state_of self.old)
            ≡ Some (state_of self.new)) }
        ensures none { OnErr result (has width (state_of self.old).mem a ≡ false) }
        ensures reason { IfErr result (λ why.
            NoByte (absent_from (bytes_of width) (state_of self.old).mem a) ≡ why) }
        ensures err { OnErr result (self.new ≡ self.old) }
    {
        let Some(word) = load(&self.memory, a, width, signed) else {
            return self.find_bytes(width, a);
        };
        self.finish(rd, word, length);
        Ok(())
    }

    /// Stores the low bytes of a word.
    fn store(&mut self, width: Width, a: u64, word: u64, length: u64) -> Result<(), Stuck>
        ensures ok { OnOk result (stores_at width a word length (state_of self.old)
            ≡ Some (state_of self.new)) }
        ensures none { OnErr result (has width (state_of self.old).mem a ≡ false) }
        ensures reason { IfErr result (λ why.
            NoByte (absent_from (bytes_of width) (state_of self.old).mem a) ≡ why) }
        ensures err { OnErr result (self.new ≡ self.old) }
    {
        self.find_bytes(width, a)?;
        self.memory.store(a, width, word);
        self.go_on(length);
        Ok(())
    }
}
