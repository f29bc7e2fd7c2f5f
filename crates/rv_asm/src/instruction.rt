// The instruction that an operation and its operands give.
ghost use Rattle.std.specs.Prelude.{◌≡◌};
ghost use Rattle.rv_table.specs.Fields.{inst_of};
ghost use Rattle.rv_asm.specs.Lines.{operands_of};
ghost use Rattle.rv_asm.specs.Instructions.{upper, jump, load, immediate, branch, store, three_registers, csr_register, csr_immediate, alone, fields_in};
ghost use Rattle.rv_asm.specs.Forms.{form_of};
ghost use Rattle.rv_asm.specs.Seen.{scope_seen};

use crate::fault::AsmKind;
use crate::form::{Form, alone_immediate, form_of};
use crate::number::immediate_number;
use crate::operands::{address, csr, five_bits, register, three, two};
use crate::target::{Scope, target};
use rv_table::{Inst, Op};

/// The instruction of an operation and its operands. Whether its fields hold their values is not asked.
pub(crate) fn instruction(scope: &Scope, op: Op, operands: &[u8]) -> Result<Inst, AsmKind>
    ensures { result ≡ fields_in (form_of op) (scope_seen scope.now) op (operands_of operands.now) }
{
    match form_of(op) {
        Form::Upper => upper(op, operands),
        Form::Jump => jump(scope, op, operands),
        Form::Load => load(op, operands),
        Form::Immediate => immediate(op, operands),
        Form::Branch => branch(scope, op, operands),
        Form::Store => store(op, operands),
        Form::Registers => three_registers(op, operands),
        Form::CsrRegister => csr_register(op, operands),
        Form::CsrImmediate => csr_immediate(op, operands),
        Form::Alone => alone(op, operands),
    }
}

fn upper(op: Op, operands: &[u8]) -> Result<Inst, AsmKind>
    ensures { result ≡ upper op (operands_of operands.now) }
{
    let (d, n) = two(operands)?;
    let rd = register(d)?;
    let imm = immediate_number(n)?;
    Ok(inst(op, rd, 0, 0, imm))
}

fn jump(scope: &Scope, op: Op, operands: &[u8]) -> Result<Inst, AsmKind>
    ensures { result ≡ jump (scope_seen scope.now) op (operands_of operands.now) }
{
    let (d, t) = two(operands)?;
    let rd = register(d)?;
    let imm = target(scope, t)?;
    Ok(inst(op, rd, 0, 0, imm))
}

fn load(op: Op, operands: &[u8]) -> Result<Inst, AsmKind>
    ensures { result ≡ load op (operands_of operands.now) }
{
    let (d, a) = two(operands)?;
    let rd = register(d)?;
    let (imm, rs1) = address(a)?;
    Ok(inst(op, rd, rs1, 0, imm))
}

fn immediate(op: Op, operands: &[u8]) -> Result<Inst, AsmKind>
    ensures { result ≡ immediate op (operands_of operands.now) }
{
    let (d, a, n) = three(operands)?;
    let rd = register(d)?;
    let rs1 = register(a)?;
    let imm = immediate_number(n)?;
    Ok(inst(op, rd, rs1, 0, imm))
}

fn branch(scope: &Scope, op: Op, operands: &[u8]) -> Result<Inst, AsmKind>
    ensures { result ≡ branch (scope_seen scope.now) op (operands_of operands.now) }
{
    let (a, b, t) = three(operands)?;
    let rs1 = register(a)?;
    let rs2 = register(b)?;
    let imm = target(scope, t)?;
    Ok(inst(op, 0, rs1, rs2, imm))
}

fn store(op: Op, operands: &[u8]) -> Result<Inst, AsmKind>
    ensures { result ≡ store op (operands_of operands.now) }
{
    let (b, a) = two(operands)?;
    let rs2 = register(b)?;
    let (imm, rs1) = address(a)?;
    Ok(inst(op, 0, rs1, rs2, imm))
}

fn three_registers(op: Op, operands: &[u8]) -> Result<Inst, AsmKind>
    ensures { result ≡ three_registers op (operands_of operands.now) }
{
    let (d, a, b) = three(operands)?;
    let rd = register(d)?;
    let rs1 = register(a)?;
    let rs2 = register(b)?;
    Ok(inst(op, rd, rs1, rs2, 0))
}

fn csr_register(op: Op, operands: &[u8]) -> Result<Inst, AsmKind>
    ensures { result ≡ csr_register op (operands_of operands.now) }
{
    let (d, n, a) = three(operands)?;
    let rd = register(d)?;
    let imm = csr(n)?;
    let rs1 = register(a)?;
    Ok(inst(op, rd, rs1, 0, imm))
}

fn csr_immediate(op: Op, operands: &[u8]) -> Result<Inst, AsmKind>
    ensures { result ≡ csr_immediate op (operands_of operands.now) }
{
    let (d, n, a) = three(operands)?;
    let rd = register(d)?;
    let imm = csr(n)?;
    let size = immediate_number(a)?;
    let rs1 = five_bits(size)?;
    Ok(inst(op, rd, rs1, 0, imm))
}

fn alone(op: Op, operands: &[u8]) -> Result<Inst, AsmKind>
    ensures { result ≡ alone op (operands_of operands.now) }
{
    if operands.is_empty() {
        Ok(inst(op, 0, 0, 0, alone_immediate(op)))
    } else {
        Err(AsmKind::Operand)
    }
}

fn inst(op: Op, rd: u8, rs1: u8, rs2: u8, imm: i32) -> Inst
    ensures { result ≡ inst_of op rd rs1 rs2 imm }
{
    Inst {
        op,
        rd,
        rs1,
        rs2,
        imm,
    }
}
