// Files that the tests read: one that a program is written as, with a comment for each field, and others by their segments.
use byteorder::{ByteOrder, LittleEndian};
use gc_base::NoMemory;
use std::alloc::Global;

/// The size of RAM where nothing else is said.
pub(crate) const RAM: u32 = 4096;

/// The size of the largest RAM.
pub(crate) const LARGEST_RAM: u32 = 16_777_216;

/// The address of RAM's first byte.
pub(crate) const BASE: u64 = 0x8000_0000;

/// A program that stores a byte to the UART and a word to the exit device.
pub(crate) const WORDS: [u32; 5] = [
    0x1000_0537, // lui x10, 0x10000
    0x0010_0293, // addi x5, x0, 1
    0x0055_0023, // sb x5, 0(x10)
    0x0010_05b7, // lui x11, 0x100
    0x0005_a023, // sw x0, 0(x11)
];

/// The file of that program.
pub(crate) const FILE: [u8; 140] = [
    0x7f, 0x45, 0x4c, 0x46, // 0 the bytes of ELF
    2, 1, 1, 0, // 4 class, order, version, system
    0, 0, 0, 0, 0, 0, 0, 0, // 8 nothing
    2, 0, 243, 0, // 16 kind, machine
    1, 0, 0, 0, // 20 version
    0, 0, 0, 0x80, 0, 0, 0, 0, // 24 entry
    64, 0, 0, 0, 0, 0, 0, 0, // 32 place of the program headers
    0, 0, 0, 0, 0, 0, 0, 0, // 40 place of the section headers
    0, 0, 0, 0, // 48 flags
    64, 0, // 52 size of this header
    56, 0, 1, 0, // 54 size and count of program headers
    0, 0, 0, 0, 0, 0, // 58 size, count and names of section headers
    1, 0, 0, 0, // 64 type
    7, 0, 0, 0, // 68 flags
    120, 0, 0, 0, 0, 0, 0, 0, // 72 place in the file
    0, 0, 0, 0x80, 0, 0, 0, 0, // 80 virtual address
    0, 0, 0, 0x80, 0, 0, 0, 0, // 88 physical address
    20, 0, 0, 0, 0, 0, 0, 0, // 96 size in the file
    20, 0, 0, 0, 0, 0, 0, 0, // 104 size in memory
    8, 0, 0, 0, 0, 0, 0, 0, // 112 alignment
    0x37, 0x05, 0x00, 0x10, // 120 the words
    0x93, 0x02, 0x10, 0x00, //
    0x23, 0x00, 0x55, 0x00, //
    0xb7, 0x05, 0x10, 0x00, //
    0x23, 0xa0, 0x05, 0x00, //
];

/// What is looked at in a program header.
#[derive(Clone, Copy)]
pub(crate) struct Segment {
    pub(crate) kind: u32,
    pub(crate) offset: u64,
    pub(crate) address: u64,
    pub(crate) file_size: u64,
    pub(crate) memory_size: u64,
}

/// A segment of no bytes that is loaded, with zeros for its memory.
pub(crate) const fn zeros(address: u64, memory_size: u64) -> Segment {
    Segment {
        kind: 1,
        offset: 0,
        address,
        file_size: 0,
        memory_size,
    }
}

/// The program header of a segment.
pub(crate) fn program_header(segment: Segment) -> [u8; 56] {
    let mut header = [0; 56];
    LittleEndian::write_u32(&mut header, segment.kind);
    LittleEndian::write_u64(&mut header[8..], segment.offset);
    LittleEndian::write_u64(&mut header[24..], segment.address);
    LittleEndian::write_u64(&mut header[32..], segment.file_size);
    LittleEndian::write_u64(&mut header[40..], segment.memory_size);
    header
}

/// An ELF file with these segments, at most 65,535, and behind their headers some bytes.
pub(crate) fn elf(alloc: Global, segments: &[Segment], bytes: &[u8]) -> Result<Vec<u8>, NoMemory> {
    let mut header = [0; 64];
    header.copy_from_slice(&FILE[..64]);
    LittleEndian::write_u16(&mut header[56..], segments.len().min(65_535) as u16);
    let mut file = Vec::from_slice(alloc, &header)?;
    for segment in segments {
        file.extend_from_slice(&program_header(*segment))?;
    }
    file.extend_from_slice(bytes)?;
    Ok(file)
}

/// The file with some bytes changed.
pub(crate) fn edited(alloc: Global, edits: &[(usize, u8)]) -> Result<Vec<u8>, NoMemory> {
    let mut file = Vec::from_slice(alloc, &FILE)?;
    for (place, byte) in edits {
        if *place < file.len() {
            file[*place] = *byte;
        }
    }
    Ok(file)
}
