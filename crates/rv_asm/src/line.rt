// The lines of a source.
ghost use Rattle.std.specs.Prelude.{◌≡◌};
ghost use Rattle.std.specs.List.{list_all};
ghost use Rattle.std.specs.Option.{option_map};
ghost use Rattle.rv_asm.specs.Lines.{line_of, label_in, is_label, begins_label, is_in_label, instruction_of};
ghost use Rattle.rv_asm.specs.Seen.{line_seen};

use crate::bytes::{place_of_blank, place_of_byte, trimmed, without_blanks_before, without_last};

/// What a line says.
#[derive(Clone, Copy)]
pub(crate) enum Line<'a> {
    /// Nothing, or a comment alone.
    Blank,
    /// A label with a colon.
    Label(&'a [u8]),
    /// An instruction's name, and its operands with the commas between them.
    Instruction(&'a [u8], &'a [u8]),
}

/// What a line says, without its line feed.
pub(crate) fn line_of(line: &[u8]) -> Line<'_>
    ensures { line_seen result ≡ line_of line.now }
{
    let code = trimmed(&line[..place_of_byte(b'#', line)]);
    if code.is_empty() {
        return Line::Blank;
    }
    match label_in(code) {
        Some(name) => Line::Label(name),
        None => instruction_of(code),
    }
}

/// The label that a line gives.
fn label_in(code: &[u8]) -> Option<&[u8]>
    ensures { option_map (λ x. x.now) result ≡ label_in code.now }
{
    let name = without_last(b':', code)?;
    if is_label(name) { Some(name) } else { None }
}

/// Whether a text is a label's name.
pub(crate) fn is_label(name: &[u8]) -> bool
    ensures { result ≡ is_label name.now }
{
    match name.split_first() {
        Some((first, rest)) => begins_label(*first) && are_in_label(rest),
        None => false,
    }
}

fn are_in_label(name: &[u8]) -> bool
    ensures { result ≡ list_all is_in_label name.now }
{
    for c in name {
        if !is_in_label(*c) {
            return false;
        }
    }
    true
}

fn begins_label(c: u8) -> bool
    ensures { result ≡ begins_label c }
{
    c.is_ascii_alphabetic() || c == b'_'
}

fn is_in_label(c: u8) -> bool
    ensures { result ≡ is_in_label c }
{
    begins_label(c) || c.is_ascii_digit()
}

/// An instruction's name and what follows it.
fn instruction_of(code: &[u8]) -> Line<'_>
    ensures { line_seen result ≡ instruction_of code.now }
{
    let end = place_of_blank(code);
    Line::Instruction(&code[..end], without_blanks_before(&code[end..]))
}
