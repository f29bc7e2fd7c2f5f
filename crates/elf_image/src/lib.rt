//! Images: what a file says as one, and the ELF file of an assembled program.
//!
//! Its promise: `read` gives exactly the image that the definition gives for the file and the size of RAM, or its first
//! fault, whatever the file holds; what `write` writes reads back as the program's words; and the blocks that `Blocks` gives,
//! put in order into RAM that is zero, make of it what the image says.
//! Read `specs/Image.antt` first, then `specs/Header.antt` and `specs/Segment.antt`; `specs/Ram.antt` says what RAM then
//! holds, and `specs/Loading.antt` what a block does. Section headers, symbols, flags and virtual addresses aren't looked
//! at, and nothing is relocated.
#![tactic(auto)]

mod blocks;
mod fault;
mod field;
mod header;
mod image;
mod layout;
mod piece;
mod program_header;
mod reader;
#[cfg(test)]
mod sample_files;
#[cfg(test)]
mod tests;
mod writer;
mod written_pages;

pub use blocks::{Block, Blocks};
pub use fault::ElfFault;
pub use image::Image;
pub use piece::{Piece, Pieces};
pub use reader::read;
pub use rv_asm::{Program, Words};
pub use writer::write;
