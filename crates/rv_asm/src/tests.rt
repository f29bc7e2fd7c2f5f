//! What no clause says: that the sources and words of the agreed tables are read and written as they stand here.

use crate::{AsmFault, AsmKind, Program, assemble, disassemble};
use std::process::Abort;

/// Instructions as an assembler of others spells them, GNU as 2.40 with `-march=rv64im_zicsr_zifencei`, and their words.
static SPELLED: [(&str, u32); 143] = [
    ("lui x5, 0x12345", 0x123452b7),
    ("auipc x31, 0xfedcb", 0xfedcbf97),
    ("jal x1, .+1234", 0x4d2000ef),
    ("jalr x1, -100(x5)", 0xf9c280e7),
    ("beq x1, x2, .+16", 0x00208863),
    ("bne x5, x6, .-16", 0xfe6298e3),
    ("blt x7, x8, .+2", 0x0083c163),
    ("bge x9, x10, .-2", 0xfea4dfe3),
    ("bltu x11, x12, .+300", 0x12c5e663),
    ("bgeu x13, x14, .-300", 0xece6fae3),
    ("lb x15, 1(x16)", 0x00180783),
    ("lh x17, -2(x18)", 0xffe91883),
    ("lw x19, 4(x20)", 0x004a2983),
    ("ld x21, -8(x22)", 0xff8b3a83),
    ("lbu x23, 100(x24)", 0x064c4b83),
    ("lhu x25, -100(x26)", 0xf9cd5c83),
    ("lwu x27, 1000(x28)", 0x3e8e6d83),
    ("sb x29, 1(x30)", 0x01df00a3),
    ("sh x31, -2(x1)", 0xfff09f23),
    ("sw x2, 100(x3)", 0x0621a223),
    ("sd x4, -1000(x5)", 0xc042bc23),
    ("addi x6, x7, 33", 0x02138313),
    ("slti x8, x9, -33", 0xfdf4a413),
    ("sltiu x10, x11, 777", 0x3095b513),
    ("xori x12, x13, -777", 0xcf76c613),
    ("ori x14, x15, 0x555", 0x5557e713),
    ("andi x16, x17, 0x2aa", 0x2aa8f813),
    ("slli x18, x19, 33", 0x02199913),
    ("srli x20, x21, 42", 0x02aada13),
    ("srai x22, x23, 21", 0x415bdb13),
    ("add x1, x2, x3", 0x003100b3),
    ("sll x4, x5, x6", 0x00629233),
    ("slt x7, x8, x9", 0x009423b3),
    ("sltu x10, x11, x12", 0x00c5b533),
    ("xor x13, x14, x15", 0x00f746b3),
    ("srl x16, x17, x18", 0x0128d833),
    ("or x19, x20, x21", 0x015a69b3),
    ("and x22, x23, x24", 0x018bfb33),
    ("sub x25, x26, x27", 0x41bd0cb3),
    ("sra x28, x29, x30", 0x41eede33),
    ("mul x31, x1, x2", 0x02208fb3),
    ("mulh x3, x4, x5", 0x025211b3),
    ("mulhsu x6, x7, x8", 0x0283a333),
    ("mulhu x9, x10, x11", 0x02b534b3),
    ("div x12, x13, x14", 0x02e6c633),
    ("divu x15, x16, x17", 0x031857b3),
    ("rem x18, x19, x20", 0x0349e933),
    ("remu x21, x22, x23", 0x037b7ab3),
    ("addiw x24, x25, -5", 0xffbc8c1b),
    ("slliw x26, x27, 21", 0x015d9d1b),
    ("srliw x28, x29, 10", 0x00aede1b),
    ("sraiw x30, x31, 27", 0x41bfdf1b),
    ("addw x2, x3, x1", 0x0011813b),
    ("sllw x5, x6, x4", 0x004312bb),
    ("srlw x8, x9, x7", 0x0074d43b),
    ("subw x11, x12, x10", 0x40a605bb),
    ("sraw x14, x15, x13", 0x40d7d73b),
    ("mulw x17, x18, x16", 0x030908bb),
    ("divw x20, x21, x19", 0x033aca3b),
    ("divuw x23, x24, x22", 0x036c5bbb),
    ("remw x26, x27, x25", 0x039ded3b),
    ("remuw x29, x30, x28", 0x03cf7ebb),
    ("fence", 0x0ff0000f),
    ("fence.i", 0x0000100f),
    ("csrrw x1, mstatus, x2", 0x300110f3),
    ("csrrs x5, mhartid, x0", 0xf14022f3),
    ("csrrc x6, mie, x7", 0x3043b373),
    ("csrrwi x8, mtvec, 9", 0x3054d473),
    ("csrrsi x10, mip, 11", 0x3445e573),
    ("csrrci x12, mepc, 21", 0x341af673),
    ("ecall", 0x00000073),
    ("ebreak", 0x00100073),
    ("mret", 0x30200073),
    ("wfi", 0x10500073),
    ("lui x0, 0", 0x00000037),
    ("lui x31, 0xfffff", 0xffffffb7),
    ("auipc x1, 1", 0x00001097),
    ("auipc x2, 0x80000", 0x80000117),
    ("jal x0, .-1048576", 0x8000006f),
    ("jal x31, .+1048574", 0x7fffffef),
    ("jal x16, .-2", 0xfffff86f),
    ("jal x1, .+2", 0x002000ef),
    ("jal x1, .+4", 0x004000ef),
    ("jal x1, .+8", 0x008000ef),
    ("jal x1, .+16", 0x010000ef),
    ("jal x1, .+32", 0x020000ef),
    ("jal x1, .+64", 0x040000ef),
    ("jal x1, .+128", 0x080000ef),
    ("jal x1, .+256", 0x100000ef),
    ("jal x1, .+512", 0x200000ef),
    ("jal x1, .+1024", 0x400000ef),
    ("jal x1, .+2048", 0x001000ef),
    ("jal x1, .+4096", 0x000010ef),
    ("jal x1, .+8192", 0x000020ef),
    ("jal x1, .+16384", 0x000040ef),
    ("jal x1, .+32768", 0x000080ef),
    ("jal x1, .+65536", 0x000100ef),
    ("jal x1, .+131072", 0x000200ef),
    ("jal x1, .+262144", 0x000400ef),
    ("jal x1, .+524288", 0x000800ef),
    ("jalr x0, -2048(x31)", 0x800f8067),
    ("jalr x31, 2047(x0)", 0x7ff00fe7),
    ("addi x1, x2, -1", 0xfff10093),
    ("beq x31, x0, .-4096", 0x800f8063),
    ("beq x0, x31, .+4094", 0x7ff00fe3),
    ("beq x1, x2, .+2", 0x00208163),
    ("beq x1, x2, .+4", 0x00208263),
    ("beq x1, x2, .+8", 0x00208463),
    ("beq x1, x2, .+16", 0x00208863),
    ("beq x1, x2, .+32", 0x02208063),
    ("beq x1, x2, .+64", 0x04208063),
    ("beq x1, x2, .+128", 0x08208063),
    ("beq x1, x2, .+256", 0x10208063),
    ("beq x1, x2, .+512", 0x20208063),
    ("beq x1, x2, .+1024", 0x40208063),
    ("beq x1, x2, .+2048", 0x002080e3),
    ("sd x31, -2048(x0)", 0x81f03023),
    ("sd x0, 2047(x31)", 0x7e0fbfa3),
    ("sb x1, 1(x2)", 0x001100a3),
    ("sb x1, 2(x2)", 0x00110123),
    ("sb x1, 4(x2)", 0x00110223),
    ("sb x1, 8(x2)", 0x00110423),
    ("sb x1, 16(x2)", 0x00110823),
    ("sb x1, 32(x2)", 0x02110023),
    ("sb x1, 64(x2)", 0x04110023),
    ("sb x1, 128(x2)", 0x08110023),
    ("sb x1, 256(x2)", 0x10110023),
    ("sb x1, 512(x2)", 0x20110023),
    ("sb x1, 1024(x2)", 0x40110023),
    ("sb x1, -1(x2)", 0xfe110fa3),
    ("srai x1, x2, 32", 0x42015093),
    ("slli x31, x31, 63", 0x03ff9f93),
    ("srli x1, x0, 0", 0x00005093),
    ("sraiw x1, x2, 16", 0x4101509b),
    ("slliw x31, x31, 31", 0x01ff9f9b),
    ("srliw x1, x0, 0", 0x0000509b),
    ("csrrw x0, 0, x31", 0x000f9073),
    ("csrrs x31, 0xfff, x0", 0xfff02ff3),
    ("csrrc x1, 0x800, x1", 0x8000b0f3),
    ("csrrwi x0, 0xfff, 31", 0xffffd073),
    ("csrrci x31, 0, 0", 0x00007ff3),
    ("add x0, x31, x0", 0x000f8033),
    ("remu x31, x0, x31", 0x03f07fb3),
];

/// Sources, and the words that they give.
static SOURCES: [(&str, &[u32]); 26] = [
    ("", &[]),
    ("\n", &[]),
    (" \t # a comment alone\n\n", &[]),
    ("nop_is: # nothing\n addi x0, x0, 0 # stays", &[0x13]),
    ("addi x1, x0, 1", &[0x100093]),
    ("\taddi\t x1 ,\tx0\t,1 \t#x1 is 1\n", &[0x100093]),
    ("addi x1,x0,1#\naddi x1,x0,-0", &[0x100093, 0x93]),
    (
        "addi x1, x0, 2047\naddi x1, x0, -2048",
        &[0x7ff00093, 0x80000093],
    ),
    (
        "addi x1, x0, 0x7FF\naddi x1, x0, 0x00000000000000007ff",
        &[0x7ff00093, 0x7ff00093],
    ),
    ("x:\njal x0, x", &[0x6f]),
    ("jal x0, x\nx:", &[0x40006f]),
    (
        "jal x0, _end9\naddi x0, x0, 0\n_end9:\nbeq x0, x0, _end9",
        &[0x80006f, 0x13, 0x63],
    ),
    ("x1: \n jal x1, x1\nadd:\n jal x0, add", &[0xef, 0x6f]),
    ("a:\nb:\njal zero, b\njal zero, a", &[0x6f, 0xffdff06f]),
    (
        "beq x1, x2, .+2\nbeq x1, x2, .-2\nbeq x1, x2, .+-4\njal x1, .+0xa",
        &[0x208163, 0xfe208fe3, 0xfe208ee3, 0xa000ef],
    ),
    (
        "add ra, sp, gp\nadd tp, t0, t1\nadd t2, s0, s1\nadd a0, a1, a2\nadd a3, a4, a5",
        &[0x3100b3, 0x628233, 0x9403b3, 0xc58533, 0xf706b3],
    ),
    (
        "add a6, a7, s2\nadd s3, s4, s5\nadd s6, s7, s8\nadd s9, s10, s11\nadd t3, t4, t5\nadd t6, fp, zero",
        &[
            0x1288833, 0x15a09b3, 0x18b8b33, 0x1bd0cb3, 0x1ee8e33, 0x40fb3,
        ],
    ),
    (
        "csrrw x0, mstatus, x1\ncsrrw x0, 0x300, x1\ncsrrw x0, 768, x1",
        &[0x30009073, 0x30009073, 0x30009073],
    ),
    (
        "csrrs x1, misa, x0\ncsrrs x1, mie, x0\ncsrrs x1, mtvec, x0\ncsrrs x1, mscratch, x0",
        &[0x301020f3, 0x304020f3, 0x305020f3, 0x340020f3],
    ),
    (
        "csrrs x1, mepc, x0\ncsrrs x1, mcause, x0\ncsrrs x1, mtval, x0\ncsrrs x1, mip, x0",
        &[0x341020f3, 0x342020f3, 0x343020f3, 0x344020f3],
    ),
    (
        "csrrs x1, mvendorid, x0\ncsrrs x1, marchid, x0\ncsrrs x1, mimpid, x0\ncsrrs x1, mhartid, x0",
        &[0xf11020f3, 0xf12020f3, 0xf13020f3, 0xf14020f3],
    ),
    (
        "csrrwi x0, 4095, 31\ncsrrci x0, 0x0, 0x0",
        &[0xffffd073, 0x7073],
    ),
    (
        "fence\nfence.i\necall\nebreak\nmret\nwfi",
        &[0xff0000f, 0x100f, 0x73, 0x100073, 0x30200073, 0x10500073],
    ),
    (
        ".word 0\n.word 4294967295\n.word 0xFfFfFfFf\n.word -0",
        &[0x0, 0xffffffff, 0xffffffff, 0x0],
    ),
    (
        "lui x1, 0\nlui x1, 1048575\nauipc x31, 0x80",
        &[0xb7, 0xfffff0b7, 0x80f97],
    ),
    (
        "lb x1, -0(x2)\nlb x1, 0x10(sp)\nsb x1, -2048(x2)\njalr x0, 0(ra)",
        &[0x10083, 0x1010083, 0x80110023, 0x8067],
    ),
];

/// Sources that are refused: the first faulty line, and what is wrong with it.
static FAULTS: [(&str, u32, AsmKind); 88] = [
    ("addi x1, x0, 1\naddi x1, x0, 2048", 2, AsmKind::Range),
    ("addi x1, x0, -2049", 1, AsmKind::Range),
    ("addi x1, x0, 99999999999999999999999999", 1, AsmKind::Range),
    (
        "addi x1, x0, -99999999999999999999999999",
        1,
        AsmKind::Range,
    ),
    (
        "addi x1, x0, 0x1ffffffffffffffff0000000000000001",
        1,
        AsmKind::Range,
    ),
    ("lui x1, 1048576", 1, AsmKind::Range),
    ("lui x1, -1", 1, AsmKind::Range),
    ("jal x1, .+1048576", 1, AsmKind::Range),
    ("jal x1, .-1048578", 1, AsmKind::Range),
    ("jal x1, .+3", 1, AsmKind::Range),
    ("beq x1, x2, .+4096", 1, AsmKind::Range),
    ("beq x1, x2, .-4098", 1, AsmKind::Range),
    ("beq x1, x2, .+1", 1, AsmKind::Range),
    ("slli x1, x2, 64", 1, AsmKind::Range),
    ("slliw x1, x2, 32", 1, AsmKind::Range),
    ("srai x1, x2, -1", 1, AsmKind::Range),
    ("lb x1, 2048(x2)", 1, AsmKind::Range),
    ("sb x1, -2049(x2)", 1, AsmKind::Range),
    ("csrrw x0, 4096, x1", 1, AsmKind::Range),
    ("csrrw x0, -1, x1", 1, AsmKind::Range),
    ("csrrwi x0, 0, 32", 1, AsmKind::Range),
    ("csrrwi x0, 0, -1", 1, AsmKind::Range),
    ("csrrwi x0, 4096, 0", 1, AsmKind::Range),
    (".word 4294967296", 1, AsmKind::Range),
    (".word -1", 1, AsmKind::Range),
    ("x: jal x0, x", 1, AsmKind::Word),
    ("x :", 1, AsmKind::Word),
    ("1x:", 1, AsmKind::Word),
    (":", 1, AsmKind::Word),
    ("nop", 1, AsmKind::Word),
    ("ADDI x1, x0, 1", 1, AsmKind::Word),
    ("addi\r", 1, AsmKind::Word),
    (".words 1", 1, AsmKind::Word),
    ("a.b:", 1, AsmKind::Word),
    ("a: b:", 1, AsmKind::Word),
    ("addi x1, x0, 1\r", 1, AsmKind::Operand),
    ("x:\r\n", 1, AsmKind::Word),
    ("add :", 1, AsmKind::Operand),
    ("add", 1, AsmKind::Operand),
    ("add x1, x2", 1, AsmKind::Operand),
    ("add x1, x2, x3, x4", 1, AsmKind::Operand),
    ("add x1, x2, x3,", 1, AsmKind::Operand),
    ("add , x1, x2, x3", 1, AsmKind::Operand),
    ("add x1 x2 x3", 1, AsmKind::Operand),
    ("add x01, x2, x3", 1, AsmKind::Operand),
    ("add x32, x2, x3", 1, AsmKind::Operand),
    ("add X1, x2, x3", 1, AsmKind::Operand),
    ("add s12, x2, x3", 1, AsmKind::Operand),
    ("addi x1, x0, 01", 1, AsmKind::Operand),
    ("addi x1, x0, +1", 1, AsmKind::Operand),
    ("addi x1, x0, --1", 1, AsmKind::Operand),
    ("addi x1, x0, -0x1", 1, AsmKind::Operand),
    ("addi x1, x0, 0X1", 1, AsmKind::Operand),
    ("addi x1, x0, 0x", 1, AsmKind::Operand),
    ("addi x1, x0, -", 1, AsmKind::Operand),
    ("addi x1, x0, 1 2", 1, AsmKind::Operand),
    ("addi x1, x0, -00", 1, AsmKind::Operand),
    ("addi x1, x0, 0xg", 1, AsmKind::Operand),
    ("addi x1, x0, x1", 1, AsmKind::Operand),
    ("lb x1, 4 (x2)", 1, AsmKind::Operand),
    ("lb x1, (x2)", 1, AsmKind::Operand),
    ("lb x1, 4(x2", 1, AsmKind::Operand),
    ("lb x1, 4( x2)", 1, AsmKind::Operand),
    ("lb x1, 4x2)", 1, AsmKind::Operand),
    ("lb x1, 9999(y)", 1, AsmKind::Operand),
    ("jal x0, .4", 1, AsmKind::Operand),
    ("jal x0, 4", 1, AsmKind::Operand),
    ("jal x0, .+ 4", 1, AsmKind::Operand),
    ("jal x0, a.b", 1, AsmKind::Operand),
    ("jal x0, .+x", 1, AsmKind::Operand),
    ("jal x0, ", 1, AsmKind::Operand),
    ("csrrw x0, sstatus, x1", 1, AsmKind::Operand),
    ("csrrw x0, 99999, 1", 1, AsmKind::Operand),
    ("csrrwi x0, 99999, x1", 1, AsmKind::Operand),
    ("fence x0", 1, AsmKind::Operand),
    ("fence.i 0", 1, AsmKind::Operand),
    ("ecall 0", 1, AsmKind::Operand),
    (".word", 1, AsmKind::Operand),
    (".word 1, 2", 1, AsmKind::Operand),
    (".word x", 1, AsmKind::Operand),
    ("a:\na:", 2, AsmKind::Twice),
    ("a:\nb:\n\na: # again\nnop", 4, AsmKind::Twice),
    ("a:\njal x0, b\na:", 2, AsmKind::Label),
    ("jal x0, a", 1, AsmKind::Label),
    ("beq x0, x0, A\na:", 1, AsmKind::Label),
    ("jal x0, a\nnop\na:", 2, AsmKind::Word),
    ("\n\nnop\nadd", 3, AsmKind::Word),
    ("addi x1, x0, 2048\nnop", 1, AsmKind::Range),
];

/// Words, and the text of each.
static TEXTS: [(u32, &str); 37] = [
    (0x00550023, "sb x5, 0(x10)"),
    (0x00100093, "addi x1, x0, 1"),
    (0xfff10093, "addi x1, x2, -1"),
    (0x80010083, "lb x1, -2048(x2)"),
    (0x000000b7, "lui x1, 0x0"),
    (0xfffff0b7, "lui x1, 0xfffff"),
    (0x00080f97, "auipc x31, 0x80"),
    (0x0000006f, "jal x0, .+0"),
    (0xfffff06f, "jal x0, .-2"),
    (0x0040006f, "jal x0, .+4"),
    (0x800f8063, "beq x31, x0, .-4096"),
    (0x7ff00fe3, "beq x0, x31, .+4094"),
    (0x03ff9f93, "slli x31, x31, 63"),
    (0x4101509b, "sraiw x1, x2, 16"),
    (0x003100b3, "add x1, x2, x3"),
    (0x00008067, "jalr x0, 0(x1)"),
    (0x30009073, "csrrw x0, mstatus, x1"),
    (0xf14022f3, "csrrs x5, mhartid, x0"),
    (0x000f9073, "csrrw x0, 0x0, x31"),
    (0xfff02ff3, "csrrs x31, 0xfff, x0"),
    (0x3045d073, "csrrwi x0, mie, 11"),
    (0x0ff0000f, "fence"),
    (0x0000100f, "fence.i"),
    (0x0000000f, ".word 0x0000000f"),
    (0x8330000f, ".word 0x8330000f"),
    (0x0ff0008f, ".word 0x0ff0008f"),
    (0x0ff0800f, ".word 0x0ff0800f"),
    (0x0010100f, ".word 0x0010100f"),
    (0x00000073, "ecall"),
    (0x00100073, "ebreak"),
    (0x30200073, "mret"),
    (0x10500073, "wfi"),
    (0x00000000, ".word 0x00000000"),
    (0xffffffff, ".word 0xffffffff"),
    (0x00010203, "lb x4, 0(x2)"),
    (0x0000beef, "jal x29, .+45056"),
    (0x0000abcd, ".word 0x0000abcd"),
];

/// The longest source of the tables, in bytes.
const LONGEST: usize = 300;

fn assembled(rt: &(impl Abort + AllocGlobal), source: &str) -> Result<Program, AsmFault> {
    assert!(rt; source.len() < LONGEST);
    assemble(rt.alloc(), source)
}

fn check_words(rt: &(impl Abort + AllocGlobal), source: &str, words: &[u32]) {
    match assembled(rt, source) {
        Ok(program) => assert_eq!(rt; program.words.items(), words, "{source}"),
        Err(fault) => panic!(rt; "{source}: {fault}"),
    }
}

fn check_fault(rt: &(impl Abort + AllocGlobal), source: &str, line: u32, kind: AsmKind) {
    match assembled(rt, source) {
        Ok(_) => panic!(rt; "{source}"),
        Err(fault) => assert_eq!(rt; fault, AsmFault::Line { line, kind }, "{source}"),
    }
}

fn check_text(rt: &(impl Abort + AllocGlobal), word: u32, wanted: &str) {
    match disassemble(rt.alloc(), word) {
        Ok(text) => assert_eq!(rt; text.as_str(), wanted),
        Err(fault) => panic!(rt; "{word:x}: {fault}"),
    }
}

#[test]
fn instructions_have_the_words_of_other_assemblers(rt: HostRuntime) {
    for &(source, word) in &SPELLED {
        check_words(&rt, source, &[word]);
    }
}

#[test]
fn sources_give_their_words(rt: HostRuntime) {
    for &(source, words) in &SOURCES {
        check_words(&rt, source, words);
    }
}

#[test]
fn the_first_faulty_line_is_told(rt: HostRuntime) {
    for &(source, line, kind) in &FAULTS {
        check_fault(&rt, source, line, kind);
    }
}

#[test]
fn words_have_their_texts(rt: HostRuntime) {
    for &(word, text) in &TEXTS {
        check_text(&rt, word, text);
    }
}

#[test]
fn faults_are_shown_in_lower_case(rt: HostRuntime) {
    let fault = AsmFault::Line {
        line: 2,
        kind: AsmKind::Range,
    };
    let text = format!(in rt.alloc(); "{fault}").expect(&rt, "memory");
    assert_eq!(rt; text.as_str(), "line 2 range");
}
