// How an instruction's operands are written.
ghost use Rattle.std.specs.Prelude.{◌≡◌};
ghost use Rattle.rv_asm.specs.Forms.{form_of, immediate_form, alone_immediate};

use rv_table::{Format, Op, row_for};

/// The opcode of loads.
const LOAD: u32 = 0x03;

/// The opcode of `jalr`.
const JALR: u32 = 0x67;

/// The opcode of fences.
const MISC_MEM: u32 = 0x0f;

/// How an instruction's operands are written. Registers are named as the fields that hold them, n is a number.
#[derive(Clone, Copy, Debug, PartialEq, Eq)]
pub(crate) enum Form {
    /// `rd, n`.
    Upper,
    /// `rd, target`.
    Jump,
    /// `rd, n(rs1)`, also of `jalr`.
    Load,
    /// `rd, rs1, n`.
    Immediate,
    /// `rs1, rs2, target`.
    Branch,
    /// `rs2, n(rs1)`.
    Store,
    /// `rd, rs1, rs2`.
    Registers,
    /// `rd, csr, rs1`.
    CsrRegister,
    /// `rd, csr, n`.
    CsrImmediate,
    /// No operand.
    Alone,
}

/// The form of an operation, by its row's format and, where formats are shared, its opcode.
pub(crate) fn form_of(op: Op) -> Form
    ensures { result ≡ form_of op }
{
    let row = row_for(op);
    match row.format {
        Format::U => Form::Upper,
        Format::J => Form::Jump,
        Format::I => immediate_form(row.value & 0x7f),
        Format::B => Form::Branch,
        Format::S => Form::Store,
        Format::ShiftSix | Format::ShiftFive => Form::Immediate,
        Format::R => Form::Registers,
        Format::Csr => Form::CsrRegister,
        Format::CsrNumber => Form::CsrImmediate,
        Format::Whole => Form::Alone,
    }
}

fn immediate_form(opcode: u32) -> Form
    ensures { result ≡ immediate_form opcode }
{
    match opcode {
        LOAD | JALR => Form::Load,
        MISC_MEM => Form::Alone,
        _ => Form::Immediate,
    }
}

/// The immediate of an operation that stands alone: a plain `fence` orders everything, before and after it.
pub(crate) fn alone_immediate(op: Op) -> i32
    ensures { result ≡ alone_immediate op }
{
    match op {
        Op::Fence => 0xff,
        _ => 0,
    }
}
