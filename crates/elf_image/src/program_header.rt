// A program header: which segment of the file goes to which memory.
ghost use Rattle.std.specs.Prelude.{◌≡◌, ◌+◌, ◌≤◌, ◌^◌, ◌<◌, length, nat_le, IfOk};
ghost use Rattle.elf_image.specs.Segment.{program_header, is_loaded, fits, is_faulty, piece_of};

use crate::Piece;
use crate::field::{u32_at, u64_at};
use crate::layout::{ADDRESS_AT, FILE_SIZE_AT, LOAD, MEMORY_SIZE_AT, OFFSET_AT, RAM_BASE};
use gc_base::{NoMemory, Octets};
use std::alloc::Global;

/// What is looked at in a program header. Sizes and places are in bytes.
#[derive(Clone, Copy, Debug)]
pub(crate) struct ProgramHeader {
    /// The type of the segment.
    pub(crate) kind: u32,
    /// Where its bytes stand in the file.
    pub(crate) offset: u64,
    /// Its first physical address.
    pub(crate) address: u64,
    pub(crate) file_size: u64,
    pub(crate) memory_size: u64,
}

impl ProgramHeader {
    /// The program header at a place of a file.
    pub(crate) fn at(file: &[u8], place: usize) -> ProgramHeader
        requires { place + 56 ≤ length file.now }
        ensures { result ≡ program_header file.now place }
    {
        ProgramHeader {
            kind: u32_at(file, place),
            offset: u64_at(file, place + OFFSET_AT),
            address: u64_at(file, place + ADDRESS_AT),
            file_size: u64_at(file, place + FILE_SIZE_AT),
            memory_size: u64_at(file, place + MEMORY_SIZE_AT),
        }
    }

    /// Whether the segment goes to memory.
    pub(crate) fn is_loaded(&self) -> bool
        ensures { result ≡ is_loaded self.now }
    {
        self.kind == LOAD && self.memory_size > 0
    }

    /// Whether its bytes lie in the file and its memory in RAM of so many bytes.
    pub(crate) fn fits(&self, file: &[u8], ram: u32) -> bool
        ensures { result ≡ fits file.now ram self.now }
    {
        self.file_size <= self.memory_size
            && is_within(self.offset, self.file_size, file.len() as u64)
            && self.address >= RAM_BASE
            && is_within(self.address - RAM_BASE, self.memory_size, u64::from(ram))
    }

    /// Whether the segment is to be loaded and can't be.
    pub(crate) fn is_faulty(&self, file: &[u8], ram: u32) -> bool
        ensures { result ≡ is_faulty file.now ram self.now }
    {
        self.is_loaded() && !self.fits(file, ram)
    }

    /// What the segment puts into memory.
    pub(crate) fn piece(&self, alloc: Global, file: &[u8]) -> Result<Piece, NoMemory>
        requires in_memory { self.now.file_size ≤ self.now.memory_size }
        requires in_file { self.now.offset + self.now.file_size ≤ length file.now }
        ensures { IfOk result (λ piece. piece ≡ piece_of file.now self.now) }
    {
        let start = self.offset as usize;
        let bytes = Vec::from_slice(alloc, &file[start..start + self.file_size as usize])?;
        Ok(Piece {
            addr: self.address,
            bytes: Octets::new(bytes),
            zeros: self.memory_size - self.file_size,
        })
    }
}

// Whether so many bytes from a place on are at most the room. Both numbers may be any, so that no sum is made.
fn is_within(place: u64, size: u64, room: u64) -> bool
    ensures { result ≡ nat_le (place + size) room }
{
    size <= room && place <= room - size
}
