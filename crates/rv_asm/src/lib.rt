//! The assembler: the words of a source, and the text of a word.
//!
//! Its promise: `assemble` gives exactly the words of `specs/Source.antt`, or the fault of the first faulty line, and the
//! text that `disassemble` gives of a word assembles to that word alone. Read `Source` first, then `Lines`, `Instructions`
//! and `Operands`, and `Disassembly` for the other way.
//!
//! There are no pseudo-instructions, no sections and no symbols but labels. What a word does, and the file that words are
//! put into, is said elsewhere.
#![tactic(auto)]

mod assembling;
mod bytes;
mod disassembling;
mod fault;
mod form;
mod instruction;
mod labels;
mod laws;
mod line;
mod names;
mod number;
mod operands;
mod place;
mod program;
mod target;
#[cfg(test)]
mod tests;
mod words;

pub use assembling::assemble;
pub use disassembling::disassemble;
pub use fault::{AsmFault, AsmKind};
pub use laws::{blanks_and_comments_are_free, spellings_are_free};
pub use program::Program;
pub use words::Words;
