// The operands of an instruction, and what each may be.
ghost use Rattle.std.specs.Prelude.{◌≡◌, ◌<◌, IfOk};
ghost use Rattle.std.specs.Result.{result_map_both};
ghost use Rattle.rv_asm.specs.Lines.{operands_of};
ghost use Rattle.rv_asm.specs.Seen.{cut, last};
ghost use Rattle.rv_asm.specs.Operands.{one, two, three, register, csr, address, register_in_brackets, register_before_close, five_bits};

use crate::bytes::{place_of_byte, trimmed, without_last};
use crate::fault::AsmKind;
use crate::names::{csr_named, register_of};
use crate::number::immediate_number;

/// The one operand.
pub(crate) fn one(operands: &[u8]) -> Result<&[u8], AsmKind>
    ensures { result_map_both (λ x. x.now) (λ k. k) result ≡ one (operands_of operands.now) }
{
    if operands.is_empty() {
        return Err(AsmKind::Operand);
    }
    last(operands)
}

/// The two operands.
pub(crate) fn two(operands: &[u8]) -> Result<(&[u8], &[u8]), AsmKind>
    ensures { result_map_both (λ p. (p.0.now, p.1.now)) (λ k. k) result ≡ two (operands_of operands.now) }
{
    let (first, rest) = cut(operands)?;
    let second = last(rest)?;
    Ok((first, second))
}

/// The three operands.
pub(crate) fn three(operands: &[u8]) -> Result<(&[u8], &[u8], &[u8]), AsmKind>
    ensures { result_map_both (λ p. (p.0.now, p.1.now, p.2.now)) (λ k. k) result ≡ three (operands_of operands.now) }
{
    let (first, rest) = cut(operands)?;
    let (second, rest) = cut(rest)?;
    let third = last(rest)?;
    Ok((first, second, third))
}

/// The first of two operands or more, and what follows its comma.
fn cut(operands: &[u8]) -> Result<(&[u8], &[u8]), AsmKind>
    ensures { result_map_both (λ p. (p.0.now, p.1.now)) (λ k. k) result ≡ cut operands.now }
{
    let comma = place_of_byte(b',', operands);
    if comma < operands.len() {
        Ok((trimmed(&operands[..comma]), &operands[comma + 1..]))
    } else {
        Err(AsmKind::Operand)
    }
}

/// The last operand: a comma follows none.
fn last(operands: &[u8]) -> Result<&[u8], AsmKind>
    ensures { result_map_both (λ x. x.now) (λ k. k) result ≡ last operands.now }
{
    if place_of_byte(b',', operands) < operands.len() {
        Err(AsmKind::Operand)
    } else {
        Ok(trimmed(operands))
    }
}

/// A register.
pub(crate) fn register(text: &[u8]) -> Result<u8, AsmKind>
    ensures value { result ≡ register text.now }
    ensures small { IfOk result (λ n. n < 32) }
{
    register_of(text).ok_or(AsmKind::Operand)
}

/// A control and status register: a name, or else a number.
pub(crate) fn csr(text: &[u8]) -> Result<i32, AsmKind>
    ensures { result ≡ csr text.now }
{
    match csr_named(text) {
        Some(n) => Ok(n as i32),
        None => immediate_number(text),
    }
}

/// An offset, and the base register behind it in brackets.
pub(crate) fn address(text: &[u8]) -> Result<(i32, u8), AsmKind>
    ensures value { result ≡ address text.now }
    ensures small { IfOk result (λ a. a.1 < 32) }
{
    let open = place_of_byte(b'(', text);
    let offset = immediate_number(&text[..open])?;
    let base = register_in_brackets(&text[open..])?;
    Ok((offset, base))
}

/// The register between the brackets.
fn register_in_brackets(text: &[u8]) -> Result<u8, AsmKind>
    ensures value { result ≡ register_in_brackets text.now }
    ensures small { IfOk result (λ n. n < 32) }
{
    match text.split_first() {
        Some((_, behind)) => register_before_close(behind),
        None => Err(AsmKind::Operand),
    }
}

fn register_before_close(text: &[u8]) -> Result<u8, AsmKind>
    ensures value { result ≡ register_before_close text.now }
    ensures small { IfOk result (λ n. n < 32) }
{
    match without_last(b')', text) {
        Some(name) => register(name),
        None => Err(AsmKind::Operand),
    }
}

/// A number in the place of rs1.
pub(crate) fn five_bits(n: i32) -> Result<u8, AsmKind>
    ensures value { result ≡ five_bits n }
    ensures small { IfOk result (λ k. k < 32) }
{
    if 0 <= n && n < 32 {
        Ok(n as u8)
    } else {
        Err(AsmKind::Range)
    }
}
