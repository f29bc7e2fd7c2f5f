//! Words computed by another program from the rule, and assembled from their texts by LLVM's assembler too.

use super::*;
use rv_step::{Arch, FlatEnd, FlatMem, step_flat};
use std::alloc::AllocGlobal;
use std::process::Abort;

/// The address of a program's first word.
const START: u64 = 0x8000_0000;

/// The programs of one block, by their seeds.
const SMALL: [(u64, [u32; 26]); 4] = [
    (
        7,
        [
            0x00080f97, // auipc x31, 0x80
            0x45e00093, // addi x1, x0, 1118
            0x53f00113, // addi x2, x0, 1343
            0x53100193, // addi x3, x0, 1329
            0x39100213, // addi x4, x0, 913
            0x0e900293, // addi x5, x0, 233
            0x10300313, // addi x6, x0, 259
            0x7e800393, // addi x7, x0, 2024
            0x01400413, // addi x8, x0, 20
            0x0db00493, // addi x9, x0, 219
            0x67600513, // addi x10, x0, 1654
            0x60300593, // addi x11, x0, 1539
            0x1b300613, // addi x12, x0, 435
            0x04000693, // addi x13, x0, 64
            0x47000713, // addi x14, x0, 1136
            0x1dd00793, // addi x15, x0, 477
            0x381fbc23, // sd x1, 920(x31)
            0x508fb103, // ld x2, 1288(x31)
            0x389fb023, // sd x9, 896(x31)
            0x02840233, // mul x4, x8, x8
            0x02958333, // mul x6, x11, x9
            0x2d8fb503, // ld x10, 728(x31)
            0x00e305b3, // add x11, x6, x14
            0x746fb023, // sd x6, 1856(x31)
            0x00100f37, // lui x30, 0x100
            0x000f2023, // sw x0, 0(x30)
        ],
    ),
    (
        0,
        [
            0x00080f97, // auipc x31, 0x80
            0x5bf00093, // addi x1, x0, 1471
            0x70800113, // addi x2, x0, 1800
            0x41100193, // addi x3, x0, 1041
            0x57400213, // addi x4, x0, 1396
            0x66d00293, // addi x5, x0, 1645
            0x79b00313, // addi x6, x0, 1947
            0x1b800393, // addi x7, x0, 440
            0x3c700413, // addi x8, x0, 967
            0x5e000493, // addi x9, x0, 1504
            0x49b00513, // addi x10, x0, 1179
            0x14f00593, // addi x11, x0, 335
            0x6d200613, // addi x12, x0, 1746
            0x50600693, // addi x13, x0, 1286
            0x03d00713, // addi x14, x0, 61
            0x13400793, // addi x15, x0, 308
            0x08bfb823, // sd x11, 144(x31)
            0x1a8fb283, // ld x5, 424(x31)
            0x1c9fbc23, // sd x9, 472(x31)
            0x7f0fb603, // ld x12, 2032(x31)
            0x005505b3, // add x11, x10, x5
            0x0b8fb503, // ld x10, 184(x31)
            0x0ccfbc23, // sd x12, 216(x31)
            0x02368133, // mul x2, x13, x3
            0x00100f37, // lui x30, 0x100
            0x000f2023, // sw x0, 0(x30)
        ],
    ),
    (
        1,
        [
            0x00080f97, // auipc x31, 0x80
            0x7d600093, // addi x1, x0, 2006
            0x35900113, // addi x2, x0, 857
            0x0cc00193, // addi x3, x0, 204
            0x2e600213, // addi x4, x0, 742
            0x35a00293, // addi x5, x0, 858
            0x0f300313, // addi x6, x0, 243
            0x29a00393, // addi x7, x0, 666
            0x0f600413, // addi x8, x0, 246
            0x52900493, // addi x9, x0, 1321
            0x3ba00513, // addi x10, x0, 954
            0x1fb00593, // addi x11, x0, 507
            0x4f200613, // addi x12, x0, 1266
            0x57c00693, // addi x13, x0, 1404
            0x32000713, // addi x14, x0, 800
            0x4ba00793, // addi x15, x0, 1210
            0x008305b3, // add x11, x6, x8
            0x02c40433, // mul x8, x8, x12
            0x58afb023, // sd x10, 1408(x31)
            0x003703b3, // add x7, x14, x3
            0x624fb423, // sd x4, 1576(x31)
            0x347fb823, // sd x7, 848(x31)
            0x02640333, // mul x6, x8, x6
            0x004283b3, // add x7, x5, x4
            0x00100f37, // lui x30, 0x100
            0x000f2023, // sw x0, 0(x30)
        ],
    ),
    (
        u64::MAX,
        [
            0x00080f97, // auipc x31, 0x80
            0x3a800093, // addi x1, x0, 936
            0x2b700113, // addi x2, x0, 695
            0x75500193, // addi x3, x0, 1877
            0x00200213, // addi x4, x0, 2
            0x18000293, // addi x5, x0, 384
            0x64300313, // addi x6, x0, 1603
            0x0d500393, // addi x7, x0, 213
            0x69700413, // addi x8, x0, 1687
            0x69800493, // addi x9, x0, 1688
            0x57c00513, // addi x10, x0, 1404
            0x0a300593, // addi x11, x0, 163
            0x0b200613, // addi x12, x0, 178
            0x49000693, // addi x13, x0, 1168
            0x55a00713, // addi x14, x0, 1370
            0x5ae00793, // addi x15, x0, 1454
            0x00940633, // add x12, x8, x9
            0x6e2fb023, // sd x2, 1760(x31)
            0x628fb403, // ld x8, 1576(x31)
            0x022585b3, // mul x11, x11, x2
            0x003fbc23, // sd x3, 24(x31)
            0x028086b3, // mul x13, x1, x8
            0x298fb503, // ld x10, 664(x31)
            0x3ccfbc23, // sd x12, 984(x31)
            0x00100f37, // lui x30, 0x100
            0x000f2023, // sw x0, 0(x30)
        ],
    ),
];

#[test]
fn small_programs_have_their_words(rt: HostRuntime) {
    for (seed, words) in &SMALL {
        let made = program(rt.alloc(), *seed, 1).expect(&rt, "memory");
        assert_eq!(rt; made.words.items(), words.as_slice(), "seed {seed}");
    }
}

#[test]
fn the_largest_program_has_its_words(rt: HostRuntime) {
    let made = program(rt.alloc(), 7, BLOCKS_MAX).expect(&rt, "memory");
    let words = made.words.items();
    assert_eq!(rt; words.len(), 16_018);
    assert_eq!(rt; &words[..24], &SMALL[0].1[..24]);
    // mul x9, x2, x9; sd x13, 1768(x31); lui x30, 0x100; sw x0, 0(x30)
    assert_eq!(rt;
        &words[16_014..],
        [0x0291_04b3, 0x6edf_b423, 0x0010_0f37, 0x000f_2023].as_slice()
    );
    let mut mixed = 0u32;
    for word in words {
        mixed = mixed.wrapping_mul(31).wrapping_add(*word);
    }
    assert_eq!(rt; mixed, 0xa608_f7b8);
}

/// Runs a program over flat memory, where each word retires but the last, which stores 0 to the exit device.
fn runs_to_its_end(rt: &(impl Abort + AllocGlobal), seed: u64, blocks: u32) {
    assert!(rt; 1 <= blocks && blocks <= BLOCKS_MAX);
    let made = program(rt.alloc(), seed, blocks).expect(rt, "memory");
    let mut bytes = Vec::new(rt.alloc());
    for word in made.words.items() {
        bytes
            .extend_from_slice(&word.to_le_bytes())
            .expect(rt, "memory");
    }
    assert!(rt; bytes.len() <= 0x80000);
    let mut memory = FlatMem::new(rt.alloc(), 0x80800).expect(rt, "memory");
    memory.put(START, &bytes);
    let mut hart = Arch::reset(START);
    let mut end = FlatEnd::Retired;
    for _word in made.words.items() {
        assert_eq!(rt; end, FlatEnd::Retired);
        end = step_flat(&mut hart, &mut memory).end;
    }
    assert_eq!(rt; end, FlatEnd::Exit(0));
    assert_eq!(rt; (hart.x[30], hart.x[31]), (0x10_0000, 0x8008_0000));
}

#[test]
fn programs_run_to_their_exit(rt: HostRuntime) {
    for (seed, _) in &SMALL {
        runs_to_its_end(&rt, *seed, 1);
    }
    runs_to_its_end(&rt, 7, BLOCKS_MAX);
}
