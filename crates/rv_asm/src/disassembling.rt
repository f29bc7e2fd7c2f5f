// The text of a word.
ghost use Rattle.std.specs.Prelude.{◌≡◌, [], ◌∷◌, IfOk, if◌then◌else◌};
ghost use Rattle.std.specs.String.{string_bytes};
ghost use Rattle.rv_table.specs.Table.{decode_of};
ghost use Rattle.rv_asm.specs.Disassembly.{disassembly, meaning_text, word_text, instruction_text, line_text, operands_text, hexadecimal_text, csr_text, target_text, is_plain};
ghost use Rattle.rv_asm.specs.Names.{register_name};
ghost use Rattle.rv_asm.specs.Forms.{form_of};
ghost use Rattle.rv_asm.specs.Source.{words_of};

use crate::form::{Form, alone_immediate, form_of};
use crate::names::csr_name;
use gc_base::NoMemory;
use rv_table::{Inst, decode, mnemonic};
use std::alloc::{AllocError, Global};

/// A word as an instruction's text, which assembles to that word alone: registers by number, decimal numbers, `0x` in front
/// of upper immediates and unnamed CSRs, targets as distances. A word that no form gives is `.word` and its number.
#[tactic(auto, unfolding(crate::specs::Disassembly::disassembly))]
pub fn disassemble(alloc: Global, w: u32) -> Result<String, NoMemory>
    ensures text { IfOk result (λ s. string_bytes s ≡ disassembly w) }

    // the text assembles to the word
    ensures back { IfOk result (λ s. words_of (string_bytes s) ≡ Ok (w ∷ [])) }
{
    Ok(meaning_text(alloc, w)?)
}

/// The text of a word, by what it decodes to.
fn meaning_text(alloc: Global, w: u32) -> Result<String, AllocError>
    ensures { IfOk result (λ s. string_bytes s ≡ meaning_text w (decode_of w)) }
{
    match decode(w) {
        Some(i) => instruction_text(alloc, w, i),
        None => word_text(alloc, w),
    }
}

fn word_text(alloc: Global, w: u32) -> Result<String, AllocError>
    ensures { IfOk result (λ s. string_bytes s ≡ word_text w) }
{
    format!(in alloc; ".word 0x{w:08x}")
}

/// The text of a word that is the instruction `i`.
fn instruction_text(alloc: Global, w: u32, i: Inst) -> Result<String, AllocError>
    ensures { IfOk result (λ s. string_bytes s ≡ instruction_text w i (form_of i.op)) }
{
    let name = mnemonic(i.op);
    match form_of(i.op) {
        Form::Upper => upper_text(alloc, name, i.rd, i.imm.unsigned_abs()),
        Form::Jump => jump_text(alloc, name, i),
        Form::Load => load_text(alloc, name, i),
        Form::Immediate => immediate_text(alloc, name, i),
        Form::Branch => branch_text(alloc, name, i),
        Form::Store => store_text(alloc, name, i),
        Form::Registers => registers_text(alloc, name, i),
        Form::CsrRegister => csr_register_text(alloc, name, i),
        Form::CsrImmediate => csr_immediate_text(alloc, name, i),
        Form::Alone => alone_text(alloc, name, w, i),
    }
}

fn upper_text(alloc: Global, name: &str, rd: u8, n: u32) -> Result<String, AllocError>
    ensures { IfOk result (λ s. string_bytes s ≡ line_text name.now (register_name rd ∷ hexadecimal_text n ∷ [])) }
{
    format!(in alloc; "{name} x{rd}, 0x{n:x}")
}

fn jump_text(alloc: Global, name: &str, i: Inst) -> Result<String, AllocError>
    ensures { IfOk result (λ s. string_bytes s ≡ line_text name.now (operands_text Form.Jump i)) }
{
    let target = target_text(alloc, i.imm)?;
    format!(in alloc; "{name} x{}, {target}", i.rd)
}

fn load_text(alloc: Global, name: &str, i: Inst) -> Result<String, AllocError>
    ensures { IfOk result (λ s. string_bytes s ≡ line_text name.now (operands_text Form.Load i)) }
{
    format!(in alloc; "{name} x{}, {}(x{})", i.rd, i.imm, i.rs1)
}

fn immediate_text(alloc: Global, name: &str, i: Inst) -> Result<String, AllocError>
    ensures { IfOk result (λ s. string_bytes s ≡ line_text name.now (operands_text Form.Immediate i)) }
{
    format!(in alloc; "{name} x{}, x{}, {}", i.rd, i.rs1, i.imm)
}

fn branch_text(alloc: Global, name: &str, i: Inst) -> Result<String, AllocError>
    ensures { IfOk result (λ s. string_bytes s ≡ line_text name.now (operands_text Form.Branch i)) }
{
    let target = target_text(alloc, i.imm)?;
    format!(in alloc; "{name} x{}, x{}, {target}", i.rs1, i.rs2)
}

fn store_text(alloc: Global, name: &str, i: Inst) -> Result<String, AllocError>
    ensures { IfOk result (λ s. string_bytes s ≡ line_text name.now (operands_text Form.Store i)) }
{
    format!(in alloc; "{name} x{}, {}(x{})", i.rs2, i.imm, i.rs1)
}

fn registers_text(alloc: Global, name: &str, i: Inst) -> Result<String, AllocError>
    ensures { IfOk result (λ s. string_bytes s ≡ line_text name.now (operands_text Form.Registers i)) }
{
    format!(in alloc; "{name} x{}, x{}, x{}", i.rd, i.rs1, i.rs2)
}

fn csr_register_text(alloc: Global, name: &str, i: Inst) -> Result<String, AllocError>
    ensures { IfOk result (λ s. string_bytes s ≡ line_text name.now (operands_text Form.CsrRegister i)) }
{
    let csr = csr_text(alloc, i.imm.unsigned_abs())?;
    format!(in alloc; "{name} x{}, {csr}, x{}", i.rd, i.rs1)
}

fn csr_immediate_text(alloc: Global, name: &str, i: Inst) -> Result<String, AllocError>
    ensures { IfOk result (λ s. string_bytes s ≡ line_text name.now (operands_text Form.CsrImmediate i)) }
{
    let csr = csr_text(alloc, i.imm.unsigned_abs())?;
    format!(in alloc; "{name} x{}, {csr}, {}", i.rd, i.rs1)
}

/// The name of an instruction without operands, and the plain word where it has fields that the name doesn't stand for.
fn alone_text(alloc: Global, name: &str, w: u32, i: Inst) -> Result<String, AllocError>
    ensures { IfOk result (λ s. string_bytes s ≡ (if is_plain i then name.now else word_text w)) }
{
    if i.rd == 0 && i.rs1 == 0 && i.imm == alone_immediate(i.op) {
        return String::from_str(alloc, name);
    }
    word_text(alloc, w)
}

/// A distance in bytes, as a target.
fn target_text(alloc: Global, n: i32) -> Result<String, AllocError>
    ensures { IfOk result (λ s. string_bytes s ≡ target_text n) }
{
    let sign = if n < 0 { '-' } else { '+' };
    format!(in alloc; ".{sign}{}", n.unsigned_abs())
}

/// A control and status register's name, or its number.
fn csr_text(alloc: Global, n: u32) -> Result<String, AllocError>
    ensures { IfOk result (λ s. string_bytes s ≡ csr_text n) }
{
    match csr_name(n) {
        Some(name) => String::from_str(alloc, name),
        None => format!(in alloc; "0x{n:x}"),
    }
}
