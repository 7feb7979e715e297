//! The words of worked parcels, and every parcel by sums over an independent program's words.

use super::rows::all;
use rv_decode::{Instr, decode};
use rvc::*;

/// Whether a parcel is that instruction word, or none.
fn is_word_of((parcel, word): (u16, Option<u32>)) -> bool {
    let instruction = match word {
        Some(word) => decode(word),
        None => None,
    };
    expand(parcel) == word && decode_compressed(parcel) == instruction
}

static PARCELS: [(u16, Option<u32>); 23] = [
    (0x952e, Some(0x00b5_0533)),
    (0x15fd, Some(0xfff5_8593)),
    (0xfdf5, Some(0xfe05_9ee3)),
    (0x8082, Some(0x0000_8067)),
    (0x0001, Some(0x0000_0013)),
    (0x9002, Some(0x0010_0073)),
    (0x1000, Some(0x0201_0413)),
    (0x491c, Some(0x0105_2783)),
    (0x2501, Some(0x0005_051b)),
    (0x4501, Some(0x0000_0513)),
    (0x7139, Some(0xfc01_0113)),
    (0x6785, Some(0x0000_17b7)),
    (0x9101, Some(0x0205_5513)),
    (0x9d3d, Some(0x00f5_053b)),
    (0xa001, Some(0x0000_006f)),
    (0x1502, Some(0x0205_1513)),
    (0x47b2, Some(0x00c1_2783)),
    (0x6462, Some(0x0181_3403)),
    (0xc63e, Some(0x00f1_2623)),
    (0xec22, Some(0x0081_3c23)),
    (0x0000, None),
    (0x2000, None),
    (0x8002, None),
];

#[test]
fn words_of_parcels(rt: HostRuntime) {
    assert!(rt; all(&PARCELS, is_word_of));
}

/// How many parcels of a quadrant with a funct3 have a word, and a sum over their words: 31 times
/// the sum before, and the word, or 0 where there is none, from the least parcel to the greatest.
fn sums(quadrant: u16, funct3: u16) -> (u32, u64) {
    let mut count = 0u32;
    let mut sum = 0u64;
    for rest in 0..2048u16 {
        let word = expand(funct3 << 13 | rest << 2 | quadrant);
        if let Some(_) = word {
            count = count.wrapping_add(1);
        }
        sum = sum
            .wrapping_mul(31)
            .wrapping_add(u64::from(word.unwrap_or(0)));
    }
    (count, sum)
}

/// A quadrant and a funct3, and these two numbers.
static SUMS: [(u16, u16, u32, u64); 24] = [
    (0, 0, 2040, 0x7aa8_0776_97ac_8480),
    (0, 1, 0, 0x0000_0000_0000_0000),
    (0, 2, 2048, 0xb9d7_d40d_9433_8000),
    (0, 3, 2048, 0xaa8e_0d6e_9c33_8000),
    (0, 4, 0, 0x0000_0000_0000_0000),
    (0, 5, 0, 0x0000_0000_0000_0000),
    (0, 6, 2048, 0x7765_2019_cac1_8000),
    (0, 7, 2048, 0x513f_bedb_4241_8000),
    (1, 0, 2048, 0x9a66_ac69_5619_8000),
    (1, 1, 1984, 0x3389_fb9a_7ecf_9400),
    (1, 2, 2048, 0x3ef6_4869_7619_8000),
    (1, 3, 2016, 0x2d59_727e_bb74_d63c),
    (1, 4, 1920, 0x4bea_cb74_3f1b_2800),
    (1, 5, 2048, 0x76c7_6852_fc27_8000),
    (1, 6, 2048, 0xe7dc_36ed_b341_8000),
    (1, 7, 2048, 0xd76a_205e_bb41_8000),
    (2, 0, 2048, 0xf7da_76da_5e19_8000),
    (2, 1, 0, 0x0000_0000_0000_0000),
    (2, 2, 1984, 0x64b0_b8a6_b0cf_f400),
    (2, 3, 1984, 0x6d73_d1c4_308f_f400),
    (2, 4, 2047, 0xbd63_4217_f2d3_bb3b),
    (2, 5, 0, 0x0000_0000_0000_0000),
    (2, 6, 2048, 0xcdbb_6a16_eac1_8000),
    (2, 7, 2048, 0x33f7_882c_e241_8000),
];

/// How many words of the last quadrant, that of instructions of four bytes, have a word as parcels.
fn count_of_others() -> u32 {
    let mut count = 0u32;
    for parcel in 0..16384u16 {
        if let Some(_) = expand(parcel << 2 | 3) {
            count = count.wrapping_add(1);
        }
    }
    count
}

fn has_sums((quadrant, funct3, count, sum): (u16, u16, u32, u64)) -> bool {
    sums(quadrant, funct3) == (count, sum)
}

#[test]
fn every_parcel(rt: HostRuntime) {
    assert!(rt; all(&SUMS, has_sums));
    assert!(rt; count_of_others() == 0);
}

/// Numbers, the length that their low bits tell, and the word of their instruction, if they are
/// one. A number with the low bits of a parcel and more than 16 bits is neither.
static NUMBERS: [(u32, u8, Option<u32>); 5] = [
    (0x8082, 2, Some(0x0000_8067)),
    (0x0000_8067, 4, Some(0x0000_8067)),
    (0x9002, 2, Some(0x0010_0073)),
    (0x0001_8082, 2, None),
    (0x0000_0000, 2, None),
];

/// Whether a number has that length and is the instruction of that word, or none.
fn is_instruction((number, length, word): (u32, u8, Option<u32>)) -> bool {
    let instruction = match word {
        Some(word) => decode(word),
        None => None,
    };
    length_of(number) == length && instruction_of(number) == instruction
}

#[test]
fn instructions_of_both_lengths(rt: HostRuntime) {
    assert!(rt; all(&NUMBERS, is_instruction));
    assert!(rt; decode(0x0010_0073) == Some(Instr::Ebreak));
}
