// The names of registers, of control and status registers, and of operations.
ghost use Rattle.std.specs.Prelude.{◌≡◌, ◌^◌, ◌<◌, map, IfSome};
ghost use Rattle.std.specs.Option.{option_map};
ghost use Rattle.rv_asm.specs.Names.{entry, number_named, name_numbered, register_of, csrs, operation_among, operation_named};

use rv_table::{Op, Row, all_rows, mnemonic};

/// A name, and the number that it stands for.
type Named = (&'static str, u32);

/// The registers, first by number and then by what they are for.
static REGISTERS: [Named; 65] = [
    ("x0", 0),
    ("x1", 1),
    ("x2", 2),
    ("x3", 3),
    ("x4", 4),
    ("x5", 5),
    ("x6", 6),
    ("x7", 7),
    ("x8", 8),
    ("x9", 9),
    ("x10", 10),
    ("x11", 11),
    ("x12", 12),
    ("x13", 13),
    ("x14", 14),
    ("x15", 15),
    ("x16", 16),
    ("x17", 17),
    ("x18", 18),
    ("x19", 19),
    ("x20", 20),
    ("x21", 21),
    ("x22", 22),
    ("x23", 23),
    ("x24", 24),
    ("x25", 25),
    ("x26", 26),
    ("x27", 27),
    ("x28", 28),
    ("x29", 29),
    ("x30", 30),
    ("x31", 31),
    ("zero", 0),
    ("ra", 1),
    ("sp", 2),
    ("gp", 3),
    ("tp", 4),
    ("t0", 5),
    ("t1", 6),
    ("t2", 7),
    ("s0", 8),
    ("fp", 8),
    ("s1", 9),
    ("a0", 10),
    ("a1", 11),
    ("a2", 12),
    ("a3", 13),
    ("a4", 14),
    ("a5", 15),
    ("a6", 16),
    ("a7", 17),
    ("s2", 18),
    ("s3", 19),
    ("s4", 20),
    ("s5", 21),
    ("s6", 22),
    ("s7", 23),
    ("s8", 24),
    ("s9", 25),
    ("s10", 26),
    ("s11", 27),
    ("t3", 28),
    ("t4", 29),
    ("t5", 30),
    ("t6", 31),
];

/// The control and status registers.
static CSRS: [Named; 13] = [
    ("mstatus", 0x300),
    ("misa", 0x301),
    ("mie", 0x304),
    ("mtvec", 0x305),
    ("mscratch", 0x340),
    ("mepc", 0x341),
    ("mcause", 0x342),
    ("mtval", 0x343),
    ("mip", 0x344),
    ("mvendorid", 0xf11),
    ("marchid", 0xf12),
    ("mimpid", 0xf13),
    ("mhartid", 0xf14),
];

/// The register that a text names.
pub(crate) fn register_of(name: &[u8]) -> Option<u8>
    ensures value { result ≡ register_of name.now }
    ensures small { IfSome result (λ n. n < 32) }
{
    register_number(name).map(|n| n as u8)
}

fn register_number(name: &[u8]) -> Option<u32>
    ensures value { result ≡ register_of name.now }
    ensures small { IfSome result (λ n. n < 32) }
{
    number_named(&REGISTERS, name)
}

/// The control and status register that a text names.
pub(crate) fn csr_named(name: &[u8]) -> Option<u32>
    ensures value { result ≡ number_named csrs name.now }
    ensures small { IfSome result (λ n. n < 2 ^ 12) }
{
    number_named(&CSRS, name)
}

/// The name of a control and status register.
pub(crate) fn csr_name(number: u32) -> Option<&'static str>
    ensures { option_map (λ s. s.now) result ≡ name_numbered csrs number }
{
    name_numbered(&CSRS, number)
}

/// The number that a table has for a name.
fn number_named(table: &[Named], name: &[u8]) -> Option<u32>
    ensures { result ≡ number_named (map entry table.now) name.now }
{
    for (text, number) in table {
        if text.as_bytes() == name {
            return Some(*number);
        }
    }
    None
}

/// The name that a table has for a number.
fn name_numbered(table: &[Named], number: u32) -> Option<&'static str>
    ensures { option_map (λ s. s.now) result ≡ name_numbered (map entry table.now) number }
{
    for (name, n) in table {
        if *n == number {
            return Some(*name);
        }
    }
    None
}

/// The operation that a text names.
pub(crate) fn operation_named(name: &[u8]) -> Option<Op>
    ensures { result ≡ operation_named name.now }
{
    operation_among(&all_rows().rows, name)
}

/// The operation of the first of some rows that has a name.
fn operation_among(rows: &[Row], name: &[u8]) -> Option<Op>
    ensures { result ≡ operation_among rows.now name.now }
{
    for row in rows {
        if mnemonic(row.op).as_bytes() == name {
            return Some(row.op);
        }
    }
    None
}
