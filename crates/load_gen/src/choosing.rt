// The instructions of a program.
ghost use Rattle.std.specs.Prelude.{◌≡◌, ◌<◌, ◌%◌, pos};
ghost use Rattle.rv_table.specs.Fields.{inst_of};
ghost use Rattle.rv_table.specs.Table.{IsEncodable, word_of};
ghost use Rattle.rv_table.specs.declared.op.Op.TheVariants.{Auipc, Lui, Addi, Sw};
ghost use Rattle.load_gen.specs.Generated.{picked, offset as offset_of, chosen as chosen_of};

use rv_table::{Inst, Op, encode};

/// The register that points at the doublewords that steps load and store.
const BASE: u8 = 31;

/// The word of an instruction that has one.
pub(crate) fn word(i: Inst) -> u32
    requires { IsEncodable i }
    ensures { result ≡ word_of i }
{
    match encode(i) {
        Some(word) => word,
        None => unreachable!(),
    }
}

/// The register that a draw picks.
fn register(n: u64) -> u8
    ensures { result ≡ picked n }
{
    1 + (n % 15) as u8
}

/// The offset that a draw picks.
fn offset(n: u64) -> i32
    ensures { result ≡ offset_of n }
{
    8 * (n % 256) as i32
}

/// The instruction of a step that draws these numbers.
#[tactic(auto, unfolding(rv_table::specs::Table::IsEncodable))]
pub(crate) fn chosen(a: u64, b: u64, c: u64, e: u64) -> Inst
    ensures value { result ≡ chosen_of a b c e }
    ensures word { IsEncodable result }
{
    match a % 4 {
        0 => inst(Op::Add, register(b), register(c), register(e), 0),
        1 => inst(Op::Mul, register(b), register(c), register(e), 0),
        2 => inst(Op::Sd, 0, BASE, register(b), offset(c)),
        _ => inst(Op::Ld, register(b), BASE, 0, offset(c)),
    }
}

/// What sets a register to a draw.
#[tactic(auto, unfolding(rv_table::specs::Table::IsEncodable))]
pub(crate) fn start(k: u8, n: u64) -> Inst
    requires { k < 32 }
    ensures value { result ≡ inst_of Addi k 0 0 (pos (n % 2048)) }
    ensures word { IsEncodable result }
{
    inst(Op::Addi, k, 0, 0, (n % 2048) as i32)
}

/// What points the base register at its doublewords.
#[tactic(auto, unfolding(rv_table::specs::Table::IsEncodable))]
pub(crate) fn base() -> Inst
    ensures value { result ≡ inst_of Auipc 31 0 0 (pos 0x80) }
    ensures word { IsEncodable result }
{
    inst(Op::Auipc, BASE, 0, 0, 0x80)
}

/// What points x30 at the exit device.
#[tactic(auto, unfolding(rv_table::specs::Table::IsEncodable))]
pub(crate) fn exit_base() -> Inst
    ensures value { result ≡ inst_of Lui 30 0 0 (pos 0x100) }
    ensures word { IsEncodable result }
{
    inst(Op::Lui, 30, 0, 0, 0x100)
}

/// What stores 0 to the exit device.
#[tactic(auto, unfolding(rv_table::specs::Table::IsEncodable))]
pub(crate) fn exit_store() -> Inst
    ensures value { result ≡ inst_of Sw 0 30 0 (pos 0) }
    ensures word { IsEncodable result }
{
    inst(Op::Sw, 0, 30, 0, 0)
}

fn inst(op: Op, rd: u8, rs1: u8, rs2: u8, imm: i32) -> Inst
    ensures { result ≡ inst_of op rd rs1 rs2 imm }
{
    Inst {
        op,
        rd,
        rs1,
        rs2,
        imm,
    }
}
