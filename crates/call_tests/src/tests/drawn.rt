//! Programs, and a file, as another program made them from the same rules.

ghost use Rattle.std.specs.Prelude.{◌≤◌, ◌^◌, length};

use super::rows::each;
use code_gen::*;
use rv_words::List;
use std::alloc::Global;

/// A number, a size, and the words of the program.
type Drawn = (u64, u32, &'static [u32]);

static PROGRAMS: [Drawn; 9] = [
    (0, 1, &[0x0015_0513, 0x0000_8067]),
    (0, 2, &[0x0025_0513, 0x0015_0513, 0x0000_8067]),
    (
        0,
        3,
        &[
            0x0010_0613,
            0x0015_0513,
            0xfff6_0613,
            0xfe06_1ce3,
            0x0000_8067,
        ],
    ),
    (
        0,
        4,
        &[
            0x0010_0613,
            0x0025_0513,
            0x00b5_4533,
            0xfff6_0613,
            0xfe06_1ae3,
            0x0000_8067,
        ],
    ),
    (
        1,
        5,
        &[
            0x0015_7813,
            0x0008_0663,
            0x0055_0513,
            0x0080_006f,
            0x00b5_4533,
            0x00b5_4533,
            0x0015_0513,
            0x0000_8067,
        ],
    ),
    (
        2,
        5,
        &[
            0x0055_0513,
            0x0015_7813,
            0x0008_0663,
            0x0045_0513,
            0x0080_006f,
            0x00b5_4533,
            0x0015_0513,
            0x0000_8067,
        ],
    ),
    (
        7,
        10,
        &[
            0x0015_7813,
            0x0008_0663,
            0x00a5_0513,
            0x0080_006f,
            0x00b5_4533,
            0x0020_0613,
            0x00b5_4533,
            0x0010_0693,
            0x0015_0513,
            0xfff6_8693,
            0xfe06_9ce3,
            0xfff6_0613,
            0xfe06_14e3,
            0x0015_0513,
            0x0000_8067,
        ],
    ),
    (
        0xffff_ffff_ffff_ffff,
        6,
        &[
            0x0065_0513,
            0x0020_0613,
            0x0035_0513,
            0x0025_0513,
            0x00b5_4533,
            0xfff6_0613,
            0xfe06_18e3,
            0x0000_8067,
        ],
    ),
    (
        3,
        20,
        &[
            0x0040_0613,
            0x0015_7813,
            0x0008_0663,
            0x0065_0513,
            0x0080_006f,
            0x00b5_4533,
            0x0035_0513,
            0x0025_0513,
            0x0015_0513,
            0xfff6_0613,
            0xfc06_1ee3,
            0x00b5_4533,
            0x00b5_4533,
            0x00b5_4533,
            0x0030_0613,
            0x00b5_4533,
            0x0015_7813,
            0x0008_0663,
            0x0055_0513,
            0x0080_006f,
            0x00b5_4533,
            0x00b5_4533,
            0x0015_0513,
            0xfff6_0613,
            0xfc06_1ee3,
            0x0015_0513,
            0x0000_8067,
        ],
    ),
];

/// A number, a size, how many words the program has, and their digest.
type Long = (u64, u32, usize, u64);

static LONG_PROGRAMS: [Long; 4] = [
    (7, 512, 699, 0xea2f_76ed_9103_25a8),
    (0, 600, 819, 0xfeef_fab9_9caf_6264),
    (0xffff_ffff_ffff_ffff, 600, 820, 0xc2c7_e36d_94d6_cfc1),
    (0xab54_a98c_eb1f_0ad2, 599, 825, 0xeeb5_ac10_c4f1_c7e2),
];

/// The file of the first program: the header, the program header and the words.
static FILE: [u8; 128] = [
    0x7f, 0x45, 0x4c, 0x46, 0x02, 0x01, 0x01, 0x00, 0x00, 0x00, 0x00, 0x00, 0x00, 0x00, 0x00, 0x00,
    0x02, 0x00, 0xf3, 0x00, 0x01, 0x00, 0x00, 0x00, 0x00, 0x00, 0x01, 0x00, 0x00, 0x00, 0x00, 0x00,
    0x40, 0x00, 0x00, 0x00, 0x00, 0x00, 0x00, 0x00, 0x00, 0x00, 0x00, 0x00, 0x00, 0x00, 0x00, 0x00,
    0x00, 0x00, 0x00, 0x00, 0x40, 0x00, 0x38, 0x00, 0x01, 0x00, 0x40, 0x00, 0x00, 0x00, 0x00, 0x00,
    0x01, 0x00, 0x00, 0x00, 0x05, 0x00, 0x00, 0x00, 0x78, 0x00, 0x00, 0x00, 0x00, 0x00, 0x00, 0x00,
    0x00, 0x00, 0x01, 0x00, 0x00, 0x00, 0x00, 0x00, 0x00, 0x00, 0x01, 0x00, 0x00, 0x00, 0x00, 0x00,
    0x08, 0x00, 0x00, 0x00, 0x00, 0x00, 0x00, 0x00, 0x08, 0x00, 0x00, 0x00, 0x00, 0x00, 0x00, 0x00,
    0x04, 0x00, 0x00, 0x00, 0x00, 0x00, 0x00, 0x00, 0x13, 0x05, 0x15, 0x00, 0x67, 0x80, 0x00, 0x00,
];

fn is_program(alloc: Global, (number, size, words): Drawn) -> bool {
    match program(alloc, number, size.min(600)) {
        Ok(found) => found.as_slice() == words,
        Err(_) => false,
    }
}

fn digest(words: &[u32]) -> u64 {
    let mut digest = 0xcbf2_9ce4_8422_2325u64;
    for &word in words {
        digest = (digest ^ u64::from(word)).wrapping_mul(0x0100_0000_01b3);
    }
    digest
}

fn has_digest(alloc: Global, (number, size, length, wanted): Long) -> bool {
    match program(alloc, number, size.min(600)) {
        Ok(found) => (found.len() == length) & (digest(found.as_slice()) == wanted),
        Err(_) => false,
    }
}

fn is_file(alloc: Global, words: &List<u32>, bytes: &[u8]) -> bool
    requires { length words.now ≤ 2 ^ 20 }
{
    match elf_file(alloc, words) {
        Ok(found) => found.as_slice() == bytes,
        Err(_) => false,
    }
}

/// Whether the first program has that file.
fn has_file(alloc: Global) -> bool {
    match program(alloc, 0, 1) {
        Ok(words) if words.len() <= 1 << 20 => is_file(alloc, &words, &FILE),
        _ => false,
    }
}

#[test]
fn programs_are_drawn(rt: HostRuntime) {
    assert!(rt; each(rt.alloc(), &PROGRAMS, is_program));
    assert!(rt; each(rt.alloc(), &LONG_PROGRAMS, has_digest));
    assert!(rt; has_file(rt.alloc()));
}
