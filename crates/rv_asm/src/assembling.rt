// The words of a source.
ghost use Rattle.std.specs.Prelude.{◌≡◌, ◌+◌, ◌-◌, ◌^◌, ◌<◌, ◌≤◌, ◌∷◌, [], IfOk, IfErr, IfNone, IfSome, OnOk, map, length};
ghost use Rattle.gc_text.specs.LineReader.{lines_of};
ghost use Rattle.rv_asm.specs.Lines.{source_lines, operands_of};
ghost use Rattle.rv_asm.specs.Source.{words_of, Explains, words_from, line_word, is_given_before, instruction_word, plain_word};
ghost use Rattle.rv_asm.specs.Ranges.{encoded};
ghost use Rattle.rv_asm.specs.Seen.{line_seen, labels_seen, scope_seen};
ghost use Rattle.rv_asm.specs.Steps.{StepsOver, StopsAt};

use crate::bytes::place_of_byte;
use crate::fault::{AsmFault, AsmKind};
use crate::instruction::instruction;
use crate::labels::{Labels, labels_of, place_of};
use crate::line::{Line, line_of};
use crate::names::operation_named;
use crate::number::number;
use crate::operands::one;
use crate::program::Program;
use crate::target::Scope;
use crate::words::Words;
use rv_table::{Inst, encode};
use std::alloc::{AllocError, Global};

/// The words of a source. Its first faulty line is told, counted from 1, with what is wrong there.
#[tactic(auto, unfolding(crate::specs::Source::words_of))]
pub fn assemble(alloc: Global, text: &str) -> Result<Program, AsmFault>
    requires { length text.now < 2 ^ 32 - 1 }
    ensures words { IfOk result (λ p. words_of text.now ≡ Ok p.words) }
    ensures few { IfOk result (λ p. length p.words ≤ length text.now + 1) }
    ensures fault { IfErr result (Explains (words_of text.now)) }
{
    let lines = lines_of(alloc, text.as_bytes())?;
    let labels = labels_of(alloc, &lines)?;
    let words = words_of(alloc, &lines, &labels)?;
    Ok(Program {
        words: Words::new(words),
    })
}

/// What the lines of a text say.
fn lines_of(alloc: Global, text: &[u8]) -> Result<Vec<Line<'_>>, AllocError>
    ensures lines { IfOk result (λ v. map line_seen v.items ≡ source_lines text.now) }
    ensures few { IfOk result (λ v. length v.items ≤ length text.now + 1) }
{
    let mut lines = Vec::new(alloc);
    let mut rest = Some(text);
    while let Some(left) = rest {
        let (line, more) = first_line(left);
        lines.push(line_of(line))?;
        rest = more;
    }
    Ok(lines)
}

/// The first line of a text, and what follows its line feed where it is ended.
fn first_line(text: &[u8]) -> (&[u8], Option<&[u8]>)
    ensures last { IfNone result.1 (lines_of text.now ≡ result.0.now ∷ []) }
    ensures ended { IfSome result.1 (λ more. lines_of text.now ≡ result.0.now ∷ lines_of more.now) }
    ensures shorter { IfSome result.1 (λ more. length more.now < length text.now) }
{
    let end = place_of_byte(b'\n', text);
    if end < text.len() {
        (&text[..end], Some(&text[end + 1..]))
    } else {
        (text, None)
    }
}

/// The words of some lines that have these labels.
fn words_of(alloc: Global, lines: &[Line], labels: &Labels) -> Result<Vec<u32>, AsmFault>
    requires { length lines.now < 2 ^ 32 }
    ensures words { IfOk result (λ v. words_from (labels_seen labels.now) 1 0 (map line_seen lines.now) ≡ Ok v.items) }
    ensures few { IfOk result (λ v. length v.items ≤ length lines.now) }
    ensures fault { IfErr result (Explains (words_from (labels_seen labels.now) 1 0 (map line_seen lines.now))) }
{
    let mut words = Vec::new(alloc);
    let mut number = 0;
    for line in lines {
        number += 1;
        add_line(&mut words, &*labels, number, line)?;
    }
    Ok(words)
}

/// Appends the word of a line, if it takes one.
fn add_line(words: &mut Vec<u32>, labels: &Labels, number: u32, line: &Line) -> Result<(), AsmFault>
    requires { length words.old.items < 2 ^ 32 }
    ensures step { OnOk result (StepsOver (labels_seen labels.now) number (line_seen line.now) words.old.items words.new.items) }
    ensures grows { length words.new.items ≤ length words.old.items + 1 }
    ensures fault { IfErr result (StopsAt (labels_seen labels.now) number (length words.old.items) (line_seen line.now)) }
{
    let scope = Scope {
        place: words.len() as u32,
        labels: &*labels,
    };
    match line_word(&scope, number, line) {
        Ok(None) => Ok(()),
        Ok(Some(word)) => Ok(words.push(word)?),
        Err(kind) => Err(AsmFault::Line { line: number, kind }),
    }
}

/// The word of a line, if it takes one.
fn line_word(scope: &Scope, number: u32, line: &Line) -> Result<Option<u32>, AsmKind>
    ensures { result ≡ line_word (labels_seen scope.now.labels.now) number scope.now.place (line_seen line.now) }
{
    match *line {
        Line::Blank => Ok(None),
        Line::Label(name) if is_given_before(scope, number, name) => Err(AsmKind::Twice),
        Line::Label(_) => Ok(None),
        Line::Instruction(name, operands) => Ok(Some(instruction_word(scope, name, operands)?)),
    }
}

/// Whether a label is given by an earlier line than this one.
fn is_given_before(scope: &Scope, number: u32, name: &[u8]) -> bool
    ensures { result ≡ is_given_before number (labels_seen scope.now.labels.now name.now) }
{
    match place_of(scope.labels, name) {
        Some(place) => place.line < number,
        None => false,
    }
}

/// The word of an instruction.
fn instruction_word(scope: &Scope, name: &[u8], operands: &[u8]) -> Result<u32, AsmKind>
    ensures { result ≡ instruction_word (scope_seen scope.now) name.now (operands_of operands.now) }
{
    if name == b".word".as_slice() {
        return plain_word(operands);
    }
    match operation_named(name) {
        Some(op) => encoded(instruction(scope, op, operands)?),
        None => Err(AsmKind::Word),
    }
}

/// The word of an instruction, if its fields hold its values.
fn encoded(i: Inst) -> Result<u32, AsmKind>
    ensures { result ≡ encoded i }
{
    encode(i).ok_or(AsmKind::Range)
}

/// The word that a source gives as a number.
fn plain_word(operands: &[u8]) -> Result<u32, AsmKind>
    ensures { result ≡ plain_word (operands_of operands.now) }
{
    match u32::try_from(number(one(operands)?)?) {
        Ok(word) => Ok(word),
        Err(_) => Err(AsmKind::Range),
    }
}
