// Reads an image.
ghost use Rattle.std.specs.Prelude.{◌≡◌, ◌+◌, ◌-◌, ◌*◌, ◌^◌, [], ◌∷◌, ◌<◌, ◌≤◌, ◌%◌, length, None, Some, Ok, Err, All, IfOk, IfErr, IsOkUnless};
ghost use Rattle.elf_image.specs.Header.{header_fault, count_of, table_of};
ghost use Rattle.elf_image.specs.Segment.{HasWholeSegments, faulty_segment, pieces_of, program_header};
ghost use Rattle.elf_image.specs.Ram.{ram_of};
ghost use Rattle.elf_image.specs.Image.{image_of, raw_image, elf_image, LiesInRam};

use crate::field::{u16_at, u64_at};
use crate::header::check_header;
use crate::layout::{COUNT_AT, ENTRY_AT, MAGIC, PROGRAM_HEADER_SIZE, RAM_BASE, TABLE_AT};
use crate::program_header::ProgramHeader;
use crate::{ElfFault, Image, Piece, Pieces};
use gc_base::{NoMemory, Octets};
use std::alloc::Global;

/// The image that a file says, where RAM has `ram` bytes, or its first fault. A file that isn't ELF is a raw image.
pub fn read(alloc: Global, file: &[u8], ram: u32) -> Result<Image, ElfFault>
    // which answer: the image that the file says; its first fault exactly where it has one; else want of memory alone
    ensures image { IfOk result (λ image. image_of file.now ram ≡ Ok image) }
    ensures fault { IfErr (image_of file.now ram) (λ fault. result ≡ Err fault) }
    ensures memory { IfOk (image_of file.now ram) (λ _. IsOkUnless result ElfFault.NoMemory) }

    // what is known of each image
    ensures in_ram { IfOk result (λ image. All (LiesInRam ram) image.pieces) }
    ensures size { IfOk result (λ image. length (ram_of image ram) ≡ ram) }
    ensures aligned { IfOk result (λ image. image.entry % 4 ≡ 0) }
{
    if file.starts_with(&MAGIC) {
        read_elf(alloc, file, ram)
    } else {
        read_raw(alloc, file, ram)
    }
}

// The image that is the file's bytes.
fn read_raw(alloc: Global, file: &[u8], ram: u32) -> Result<Image, ElfFault>
    ensures image { IfOk result (λ image. raw_image file.now ram ≡ Ok image) }
    ensures fault { IfErr (raw_image file.now ram) (λ fault. result ≡ Err fault) }
    ensures memory { IfOk (raw_image file.now ram) (λ _. IsOkUnless result ElfFault.NoMemory) }
{
    if file.len() > ram as usize {
        return Err(ElfFault::Raw);
    }
    let pieces = raw_pieces(alloc, file)?;
    Ok(Image {
        entry: RAM_BASE,
        pieces,
    })
}

// The whole file as one piece.
fn raw_pieces(alloc: Global, file: &[u8]) -> Result<Pieces, NoMemory>
    ensures { IfOk result (λ pieces. pieces
        ≡ record { addr = RAM_BASE; bytes = file.now; zeros = 0 } ∷ []) }
{
    let bytes = Octets::new(Vec::from_slice(alloc, file)?);
    let mut pieces = Vec::new(alloc);
    pieces.push(Piece {
        addr: RAM_BASE,
        bytes,
        zeros: 0,
    })?;
    Ok(Pieces::new(pieces))
}

// The image of an ELF file. All of it is checked before memory is taken.
fn read_elf(alloc: Global, file: &[u8], ram: u32) -> Result<Image, ElfFault>
    ensures image { IfOk result (λ image. elf_image file.now ram ≡ Ok image) }
    ensures fault { IfErr (elf_image file.now ram) (λ fault. result ≡ Err fault) }
    ensures memory { IfOk (elf_image file.now ram) (λ _. IsOkUnless result ElfFault.NoMemory) }
    ensures in_ram { IfOk result (λ image. All (LiesInRam ram) image.pieces) }
{
    check_header(file)?;
    if let Some(index) = faulty_segment(file, ram) {
        return Err(ElfFault::Segment { index });
    }
    let pieces = loaded_pieces(alloc, file)?;
    Ok(Image {
        entry: u64_at(file, ENTRY_AT),
        pieces,
    })
}

// The number of the first program header whose segment is to be loaded and can't be.
fn faulty_segment(file: &[u8], ram: u32) -> Option<u16>
    requires { header_fault file.now ≡ None }
    ensures { result ≡ faulty_segment file.now ram }
{
    for index in 0..u16_at(file, COUNT_AT) {
        if program_header(file, index).is_faulty(file, ram) {
            return Some(index);
        }
    }
    None
}

// The pieces of all segments that are loaded.
fn loaded_pieces(alloc: Global, file: &[u8]) -> Result<Pieces, NoMemory>
    requires header { header_fault file.now ≡ None }
    requires segments { HasWholeSegments file.now }
    ensures { IfOk result (λ pieces. pieces ≡ pieces_of file.now) }
{
    let mut pieces = Vec::new(alloc);
    for index in 0..u16_at(file, COUNT_AT) {
        let header = program_header(file, index);
        if header.is_loaded() {
            pieces.push(header.piece(alloc, file)?)?;
        }
    }
    Ok(Pieces::new(pieces))
}

// The program header of a number.
fn program_header(file: &[u8], index: u16) -> ProgramHeader
    requires header { header_fault file.now ≡ None }
    requires index { index < count_of file.now }
    ensures { result ≡ program_header file.now (table_of file.now + 56 * index) }
{
    let place = u64_at(file, TABLE_AT) as usize + PROGRAM_HEADER_SIZE * index as usize;
    ProgramHeader::at(file, place)
}
