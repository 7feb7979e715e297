//! What no clause says: that the calls succeed while there is memory, and runs whose outcome comes
//! from outside.

use super::rows::each;
use rv_machine::*;
use rv_words::Width;
use std::alloc::Global;

/// Where the programs begin.
const START: u64 = 0x10000;

/// Whether the calls on a new state give what they are to give.
fn new_state_is_right(alloc: Global) -> bool {
    let mut state = State::new(alloc, 0x1234);
    let is_empty = (state.pc() == 0x1234) & (state.reg(31) == 0);
    let has_none = state.memory().byte(0x1234).is_none();
    state.set_reg(31, 7);
    let is_placed = state.place(0xffff_ffff_ffff_fffe, b"ab").is_ok();
    let is_zeroed = state.place_zeros(0, 1).is_ok();
    let has_last = state.memory().byte(0xffff_ffff_ffff_ffff) == Some(b'b');
    let has_first = state.memory().byte(0) == Some(0);
    let is_set = state.reg(31) == 7;
    is_empty & has_none & is_placed & is_zeroed & has_last & has_first & is_set
}

/// `addi x10, x10, 1` and `ret`
const LEAF: &[u8] = b"\x13\x05\x15\0\x67\x80\0\0";
/// `ret`
const RETURN: &[u8] = b"\x67\x80\0\0";
/// `jalr x1, -4(x1)`
const LINK: &[u8] = b"\xe7\x80\xc0\xff";
/// `c.jalr x10`
const CALL: &[u8] = b"\x02\x95";
/// `c.j` by 4
const JUMP: &[u8] = b"\x11\xa0";
/// `c.nop`, and `addi x10, x10, 1` at an address that isn't a multiple of four
const BESIDE: &[u8] = b"\x01\0\x13\x05\x15\0";
/// `addi x0, x0, 0`
const NOP: &[u8] = b"\x13\0\0\0";

/// The highest word.
const ONES: u64 = 0xffff_ffff_ffff_ffff;

/// Whether steps are counted, the program counter is looked at first, and a run goes on where the
/// one before it ended.
fn steps_are_counted(alloc: Global) -> bool {
    let mut state = State::new(alloc, START);
    let is_placed = state.place(START, LEAF).is_ok();
    state.set_reg(1, 0x2000);
    let none = state.run(START, 0) == RunEnd::Met(0);
    let one = (state.run(0x2000, 1) == RunEnd::Steps) & (state.pc() == 0x10004);
    let two = (state.run(0x2000, 1) == RunEnd::Met(1)) & (state.reg(10) == 1);
    let stuck = state.run(0x3000, 5) == RunEnd::Stuck(0, Stuck::NoFetch);
    is_placed & none & one & two & stuck
}

/// A run: the bytes from the start on; the program counter, x1 and x10; after how many steps; and
/// these three then.
type Run = (&'static [u8], [u64; 3], u64, [u64; 3]);

/// Whether a run is so.
fn runs_so(alloc: Global, (bytes, before, steps, after): Run) -> bool {
    let mut state = State::new(alloc, before[0]);
    let is_placed = state.place(START, bytes).is_ok();
    state.set_reg(1, before[1]);
    state.set_reg(10, before[2]);
    let is_met = state.run(after[0], steps) == RunEnd::Met(steps);
    is_placed & is_met & ([state.pc(), state.reg(1), state.reg(10)] == after)
}

static RUNS: [Run; 8] = [
    (LEAF, [START, 0x2000, ONES], 2, [0x2000, 0x2000, 0]),
    // bit 0 of the target is cleared, bit 1 isn't
    (RETURN, [START, 0x2001, 0], 1, [0x2000, 0x2001, 0]),
    (RETURN, [START, 0x2002, 0], 1, [0x2002, 0x2002, 0]),
    (RETURN, [START, 0x2003, 0], 1, [0x2002, 0x2003, 0]),
    // the source is read before the link is written
    (LINK, [START, 0x3000, 0], 1, [0x2ffc, 0x10004, 0]),
    (CALL, [START, 0, 0x2000], 1, [0x2000, 0x10002, 0x2000]),
    (JUMP, [START, 0, 0], 1, [0x10004, 0, 0]),
    (BESIDE, [START, 0, 0], 2, [0x10006, 0, 1]),
];

#[test]
fn runs_end_as_they_should(rt: HostRuntime) {
    assert!(rt; new_state_is_right(rt.alloc()));
    assert!(rt; steps_are_counted(rt.alloc()));
    assert!(rt; each(rt.alloc(), &RUNS, runs_so));
}

/// Whether there is no step, for that reason, where these bytes stand from the start on.
fn is_stuck(alloc: Global, (bytes, pc, why): (&[u8], u64, Stuck)) -> bool {
    let mut state = State::new(alloc, pc);
    let is_placed = state.place(START, bytes).is_ok();
    is_placed & (state.step() == Err(why)) & (state.pc() == pc)
}

static STUCK: [(&[u8], u64, Stuck); 11] = [
    (NOP, 0x10001, Stuck::Misaligned(0x10001)),
    (NOP, 0x0fffe, Stuck::NoFetch),
    (NOP, 0x0fffc, Stuck::NoFetch),
    (b"\x13\0\0", START, Stuck::NoFetch),
    (b"\x01\0\x01", 0x10002, Stuck::NoFetch),
    // `ecall`, `ebreak`, `c.ebreak`
    (b"\x73\0\0\0", START, Stuck::Environment),
    (b"\x73\0\x10\0", START, Stuck::Environment),
    (b"\x13\0\x02\x90", 0x10002, Stuck::Environment),
    (b"\x07\0\0\x80", START, Stuck::NotDecoded(0x8000_0007)),
    (b"\0\x20\0\x80", START, Stuck::NotDecoded(0x2000)),
    // `c.lw x15, 16(x10)`
    (b"\x1c\x49\x01\0", START, Stuck::NoByte(16)),
];

/// Whether an instruction at the last address goes on at 0.
fn goes_round(alloc: Global) -> bool {
    let mut state = State::new(alloc, 0xffff_ffff_ffff_fffc);
    let is_placed = state.place(0xffff_ffff_ffff_fffc, NOP).is_ok();
    is_placed & (state.run(0, 9) == RunEnd::Met(1))
}

/// Whether an instruction lies on both sides of 0.
fn lies_round(alloc: Global) -> bool {
    let mut state = State::new(alloc, 0xffff_ffff_ffff_fffe);
    let first = state.place(0xffff_ffff_ffff_fffe, b"\x13\x05").is_ok();
    let second = state.place(0, b"\x15\0").is_ok();
    first & second & (state.run(2, 1) == RunEnd::Met(1)) & (state.reg(10) == 1)
}

#[test]
fn steps_are_stuck_or_go_round(rt: HostRuntime) {
    assert!(rt; each(rt.alloc(), &STUCK, is_stuck));
    assert!(rt; goes_round(rt.alloc()));
    assert!(rt; lies_round(rt.alloc()));
}

/// Places these words from the start on.
fn place_words(state: &mut State, words: &[u32]) -> bool {
    let mut at = START;
    let mut is_placed = true;
    for word in words {
        is_placed = is_placed & (at < 0x20000);
        if at < 0x20000 {
            is_placed = is_placed & state.place(at, &word.to_le_bytes()).is_ok();
            at += 4;
        }
    }
    is_placed
}

/// Places one instruction, eight bytes with four zeros behind them, and four bytes at each end of
/// the address space.
fn place_data(state: &mut State, word: u32) -> bool {
    let code = state.place(START, &word.to_le_bytes()).is_ok();
    let data = state
        .place(0x2000, b"\x81\x92\xa3\xb4\xc5\xd6\xe7\xf8")
        .is_ok();
    let zeros = state.place_zeros(0x2008, 4).is_ok();
    let last = state
        .place(0xffff_ffff_ffff_fffc, b"\x01\x02\x03\x84")
        .is_ok();
    let first = state.place(0, b"\x05\x06\x07\x88").is_ok();
    code & data & zeros & last & first
}

/// The last address of a multiple of four.
const LAST: u64 = 0xffff_ffff_ffff_fffc;

/// Whether the step of a word, from these values of x1 and x2, leaves the program counter and x2
/// so.
fn goes_so(alloc: Global, (word, x1, x2, pc, after): (u32, u64, u64, u64, u64)) -> bool {
    let mut state = State::new(alloc, START);
    let is_placed = place_data(&mut state, word);
    state.set_reg(1, x1);
    state.set_reg(2, x2);
    let is_made = state.step().is_ok();
    is_placed & is_made & (state.pc() == pc) & (state.reg(2) == after)
}

static STEPS: [(u32, u64, u64, u64, u64); 35] = [
    // `lb`, `lh`, `lw`, `ld`, `lbu`, `lhu` and `lwu` of x2, 0(x1), and `lb` x2, -1(x1)
    (0x0000_8103, 0x2000, 0, 0x10004, 0xffff_ffff_ffff_ff81),
    (0x0000_9103, 0x2000, 0, 0x10004, 0xffff_ffff_ffff_9281),
    (0x0000_a103, 0x2000, 0, 0x10004, 0xffff_ffff_b4a3_9281),
    (0x0000_b103, 0x2000, 0, 0x10004, 0xf8e7_d6c5_b4a3_9281),
    (0x0000_c103, 0x2000, 0, 0x10004, 0x81),
    (0x0000_d103, 0x2000, 0, 0x10004, 0x9281),
    (0x0000_e103, 0x2000, 0, 0x10004, 0xb4a3_9281),
    (0x0000_b103, 0x2003, 0, 0x10004, 0x00f8_e7d6_c5b4),
    (0x0000_a103, 0x2008, 0, 0x10004, 0),
    (0x0000_b103, LAST, 0, 0x10004, 0x8807_0605_8403_0201),
    (0x0000_e103, 0xffff_ffff_ffff_fffe, 0, 0x10004, 0x0605_8403),
    (0x0000_9103, ONES, 0, 0x10004, 0x0584),
    (0xfff0_8103, 0, 0, 0x10004, 0xffff_ffff_ffff_ff84),
    // `beq`, `bne`, `blt`, `bge`, `bltu` and `bgeu` of x1 and x2 by 16 bytes, and `beq` by -16 and
    // by 2, taken or not
    (0x0020_8863, 1, 1, 0x10010, 1),
    (0x0020_8863, 1, 2, 0x10004, 2),
    (0x0020_9863, 1, 2, 0x10010, 2),
    (0x0020_9863, 1, 1, 0x10004, 1),
    (0x0020_c863, ONES, 1, 0x10010, 1),
    (0x0020_c863, 1, ONES, 0x10004, ONES),
    (0x0020_d863, 1, ONES, 0x10010, ONES),
    (0x0020_d863, ONES, 1, 0x10004, 1),
    (0x0020_e863, 1, ONES, 0x10010, ONES),
    (0x0020_e863, ONES, 1, 0x10004, 1),
    (0x0020_f863, ONES, 1, 0x10010, 1),
    (0x0020_f863, 1, ONES, 0x10004, ONES),
    (0xfe20_88e3, 7, 7, 0xfff0, 7),
    (0x0020_8163, 1, 2, 0x10004, 2),
    (0x0020_8163, 1, 1, 0x10002, 1),
    // `lui` and `auipc` of x2, twice each, `jal` x2 by -8 bytes and by 6, and `fence`
    (0x8000_0137, 0, 0, 0x10004, 0xffff_ffff_8000_0000),
    (0x7fff_f137, 0, 0, 0x10004, 0x7fff_f000),
    (0xffff_f117, 0, 0, 0x10004, 0xf000),
    (0x7fff_f117, 0, 0, 0x10004, 0x8000_f000),
    (0xff9f_f16f, 0, 0, 0xfff8, 0x10004),
    (0x0060_016f, 0, 0, 0x10006, 0x10004),
    (0x0ff0_000f, 0, 0, 0x10004, 0),
];

/// Whether the step of a word, from that x1, stores x2 so that eight bytes from an address on make
/// a number.
fn stores_so(alloc: Global, (word, x1, address, number): (u32, u64, u64, u64)) -> bool {
    let mut state = State::new(alloc, START);
    let is_placed = place_data(&mut state, word);
    state.set_reg(1, x1);
    state.set_reg(2, 0x1122_3344_5566_7788);
    let is_made = state.step().is_ok();
    is_placed & is_made & (state.memory().load(address, Width::B8) == number)
}

/// `sb`, `sh`, `sw` and `sd` of x2, 0(x1), and `sd` x2, -8(x1).
static STORES: [(u32, u64, u64, u64); 7] = [
    (0x0020_8023, 0x2000, 0x2000, 0xf8e7_d6c5_b4a3_9288),
    (0x0020_9023, 0x2001, 0x2000, 0xf8e7_d6c5_b477_8881),
    (0x0020_a023, 0x2004, 0x2000, 0x5566_7788_b4a3_9281),
    (0x0020_b023, 0x2000, 0x2000, 0x1122_3344_5566_7788),
    (0xfe20_bc23, 0x200a, 0x2000, 0x3344_5566_7788_9281),
    (0x0020_b023, LAST, LAST, 0x1122_3344_5566_7788),
    (0x0020_9023, ONES, 0, 0x8807_0677),
];

/// Whether the step of a word, from that x1, is none for want of the byte at an address, and
/// changes nothing.
fn is_absent(alloc: Global, (word, x1, address): (u32, u64, u64)) -> bool {
    let mut state = State::new(alloc, START);
    let is_placed = place_data(&mut state, word);
    state.set_reg(1, x1);
    is_placed & (state.step() == Err(Stuck::NoByte(address))) & (state.pc() == START)
}

/// `ld`, `lb`, `lh`, `sw` and `sd` at 0(x1), and `ld` of x0.
static ABSENT: [(u32, u64, u64); 7] = [
    (0x0000_b103, 0x2008, 0x200c),
    (0x0000_b003, 0x2008, 0x200c),
    (0x0000_8103, 0x1fff, 0x1fff),
    (0x0020_a023, 0x200a, 0x200c),
    (0x0020_b023, 0x1ffe, 0x1ffe),
    (0x0000_b103, 0xffff_ffff_ffff_fffe, 4),
    (0x0000_9103, 0xffff_ffff_ffff_fffb, 0xffff_ffff_ffff_fffb),
];

#[test]
fn steps_do_what_they_should(rt: HostRuntime) {
    assert!(rt; each(rt.alloc(), &STEPS, goes_so));
    assert!(rt; each(rt.alloc(), &STORES, stores_so));
    assert!(rt; each(rt.alloc(), &ABSENT, is_absent));
}

/// Whether the next step of a word, from that x1, touches so many addresses from that one on.
fn touches_so(alloc: Global, (word, x1, at, count): (u32, u64, u64, u8)) -> bool {
    let mut state = State::new(alloc, START);
    let is_placed = place_data(&mut state, word);
    state.set_reg(1, x1);
    is_placed & (state.touches() == Touch { at, count })
}

/// `lb`, `sh`, `lwu` and `ld` at 0(x1), `c.lw x15, 16(x10)`, `sd` at -8(x1), `add`, and no
/// instruction.
static TOUCHES: [(u32, u64, u64, u8); 8] = [
    (0x0000_8103, 0x2000, 0x2000, 1),
    (0x0020_9023, 0x2001, 0x2001, 2),
    (0x0000_e103, 0x2004, 0x2004, 4),
    (0x0000_b103, 0x9000, 0x9000, 8),
    (0x0000_491c, 0, 16, 4),
    (0xfe20_bc23, 4, 0xffff_ffff_ffff_fffc, 8),
    (0x0010_8133, 0x2000, 0, 0),
    (0xffff_ffff, 0x2000, 0, 0),
];

#[test]
fn addresses_are_touched(rt: HostRuntime) {
    assert!(rt; each(rt.alloc(), &TOUCHES, touches_so));
}

/// A loop of 27 instructions that mixes all operations, as GNU binutils 2.40 assembles it.
static MIXING: [u32; 27] = [
    0x00d5_1293,
    0x0055_4533,
    0x0075_5293,
    0x0055_4533,
    0x0115_1293,
    0x0055_4533,
    0x4035_5313,
    0x4066_0633,
    0x00a6_23b3,
    0x0076_86b3,
    0x00a6_33b3,
    0x0077_0733,
    0x00d5_1433,
    0x0087_e7b3,
    0x00d6_5433,
    0x0087_f7b3,
    0x40e6_54b3,
    0x0098_4833,
    0xff98_2393,
    0x0078_88b3,
    0xff98_3393,
    0x0079_0933,
    0xfff8_4813,
    0x1117_e793,
    0xff08_7993,
    0x0015_8593,
    0x0000_8067,
];

/// Whether 10,000 passes leave in x10 to x19 what a C program with the same operations on
/// `uint64_t` and `int64_t` gives.
fn mixes(alloc: Global) -> bool {
    let mut state = State::new(alloc, START);
    let is_placed = place_words(&mut state, &MIXING);
    state.set_reg(1, START);
    state.set_reg(10, 88_172_645_463_325_252);
    is_placed & (state.run(0, 270_000) == RunEnd::Steps) & are_mixed(&state)
}

/// Registers, and what that program leaves in each.
static MIXED: [(u8, u64); 10] = [
    (10, 0xa628_597e_834c_92dd),
    (11, 10_000),
    (12, 0x7314_d8d2_5c1a_bc0f),
    (13, 0x1439),
    (14, 0x1321),
    (15, 0x0111),
    (16, 0x791b_c78f_3afe_84b4),
    (17, 0x13b2),
    (18, 10_000),
    (19, 0x791b_c78f_3afe_84b0),
];

fn are_mixed(state: &State) -> bool {
    for &(n, word) in &MIXED {
        if n >= 32 || state.reg(n) != word {
            return false;
        }
    }
    true
}

/// A program that fills 64 double words and then folds 501 windows of them with loads, stores,
/// products and quotients of many kinds, as GNU binutils 2.40 assembles it.
static FOLDING: [u32; 34] = [
    0x02b5_0533,
    0x00c5_0533,
    0x00a2_b023,
    0x0082_8293,
    0xfff3_0313,
    0xfe03_16e3,
    0xe002_8293,
    0x1f40_0313,
    0x0002_8683,
    0x0012_d703,
    0x0032_a783,
    0x0052_b803,
    0x0022_c883,
    0x0062_9903,
    0x0072_e983,
    0x02f8_3a33,
    0x0306_aab3,
    0x02d8_4b33,
    0x0327_ebb3,
    0x02e8_5c33,
    0x0319_fcbb,
    0x0145_0533,
    0x0155_4533,
    0x0165_0533,
    0x0175_4533,
    0x0185_0533,
    0x0195_4533,
    0x00a2_9223,
    0x00e2_84a3,
    0x0162_a5a3,
    0x0012_8293,
    0xfff3_0313,
    0xfa03_50e3,
    0x0010_0073,
];

/// Whether it leaves what a C program with fixed-width types and `memcpy` gives.
fn folds(alloc: Global) -> bool {
    let mut state = State::new(alloc, START);
    let is_placed = place_words(&mut state, &FOLDING);
    let is_zeroed = state.place_zeros(0x20000, 1024).is_ok();
    state.set_reg(5, 0x20000);
    state.set_reg(6, 64);
    state.set_reg(10, 1);
    state.set_reg(11, 6_364_136_223_846_793_005);
    state.set_reg(12, 1_442_695_040_888_963_407);
    let is_ended = state.run(0, 20_000) == RunEnd::Stuck(12_911, Stuck::Environment);
    let first = state.memory().load(0x20100, Width::B8) == 0x2d22_f62d_427f_5171;
    let last = state.memory().load(0x201f8, Width::B8) == 0xeee8_af79_7ace_0e30;
    let is_left = first & last & (state.reg(10) == 0x32fb_703f_9b30_0e30);
    is_placed & is_zeroed & is_ended & is_left
}

#[test]
fn long_runs_leave_what_c_gives(rt: HostRuntime) {
    assert!(rt; mixes(rt.alloc()));
    assert!(rt; folds(rt.alloc()));
}
