// Writes the ELF file of a program.
ghost use Rattle.std.specs.Prelude.{◌≡◌, ◌+◌, ◌*◌, ◌^◌, ◌<◌, ◌≤◌, ◌++◌, ℕ, length, IfOk, OnOk, Ok};
ghost use Rattle.elf_image.specs.Image.{image_of};
ghost use Rattle.elf_image.specs.Written.{elf_bytes, file_header, program_image, segment_header, words_bytes};

use crate::Program;
use crate::layout::{
    ADDRESS_AT, ALIGNMENT, ALIGNMENT_AT, CLASS_64, CLASS_AT, COUNT_AT, ENTRY_AT, ENTRY_SIZE_AT,
    EXECUTABLE, FILE_SIZE_AT, FLAGS_AT, HEADER_SIZE, HEADER_SIZE_AT, IDENTIFICATION_VERSION_AT,
    KIND_AT, LOAD, LOW_FIRST, MACHINE_AT, MAGIC, MEMORY_SIZE_AT, OFFSET_AT, ORDER_AT,
    PROGRAM_HEADER_SIZE, RAM_BASE, READ_WRITE_EXECUTE, RISC_V, TABLE_AT, VERSION, VERSION_AT,
    VIRTUAL_ADDRESS_AT, WORD_SIZE,
};
use byteorder::{ByteOrder, LittleEndian};
use gc_base::NoMemory;
use std::alloc::Global;

/// The ELF file of a program: one segment at RAM's first byte, which is also the entry.
pub fn write(alloc: Global, p: &Program) -> Result<Vec<u8>, NoMemory>
    ensures file { IfOk result (λ file. file.items ≡ elf_bytes p.now.words) }
    // it reads back as the program, where that fits in RAM
    ensures back { IfOk result (λ file. (ram : ℕ) → ram < 2 ^ 32 →
        4 * length p.now.words ≤ ram → image_of file.items ram ≡ Ok (program_image p.now.words)) }
{
    let words = p.words.items();
    let size = WORD_SIZE as usize * words.len();
    let mut file = Vec::with_capacity(alloc, HEADER_SIZE + PROGRAM_HEADER_SIZE + size)?;
    file.extend_from_slice(&file_header())?;
    file.extend_from_slice(&segment_header(size as u64))?;
    put_words(&mut file, words)?;
    Ok(file)
}

// The file header. What isn't written is 0.
fn file_header() -> [u8; HEADER_SIZE]
    ensures { result ≡ file_header }
{
    let mut header = [0; HEADER_SIZE];
    header[..MAGIC.len()].copy_from_slice(&MAGIC);
    header[CLASS_AT] = CLASS_64;
    header[ORDER_AT] = LOW_FIRST;
    header[IDENTIFICATION_VERSION_AT] = VERSION;
    LittleEndian::write_u16(&mut header[KIND_AT..], EXECUTABLE);
    LittleEndian::write_u16(&mut header[MACHINE_AT..], RISC_V);
    LittleEndian::write_u32(&mut header[VERSION_AT..], u32::from(VERSION));
    LittleEndian::write_u64(&mut header[ENTRY_AT..], RAM_BASE);
    LittleEndian::write_u64(&mut header[TABLE_AT..], HEADER_SIZE as u64);
    LittleEndian::write_u16(&mut header[HEADER_SIZE_AT..], HEADER_SIZE as u16);
    LittleEndian::write_u16(&mut header[ENTRY_SIZE_AT..], PROGRAM_HEADER_SIZE as u16);
    LittleEndian::write_u16(&mut header[COUNT_AT..], 1);
    header
}

// The program header of a segment of so many bytes, which stand behind it.
fn segment_header(size: u64) -> [u8; PROGRAM_HEADER_SIZE]
    ensures { result ≡ segment_header size }
{
    let mut header = [0; PROGRAM_HEADER_SIZE];
    LittleEndian::write_u32(&mut header, LOAD);
    LittleEndian::write_u32(&mut header[FLAGS_AT..], READ_WRITE_EXECUTE);
    LittleEndian::write_u64(
        &mut header[OFFSET_AT..],
        (HEADER_SIZE + PROGRAM_HEADER_SIZE) as u64,
    );
    LittleEndian::write_u64(&mut header[VIRTUAL_ADDRESS_AT..], RAM_BASE);
    LittleEndian::write_u64(&mut header[ADDRESS_AT..], RAM_BASE);
    LittleEndian::write_u64(&mut header[FILE_SIZE_AT..], size);
    LittleEndian::write_u64(&mut header[MEMORY_SIZE_AT..], size);
    LittleEndian::write_u64(&mut header[ALIGNMENT_AT..], ALIGNMENT);
    header
}

// The words, each with its low byte first.
fn put_words(file: &mut Vec<u8>, words: &[u32]) -> Result<(), NoMemory>
    ensures { OnOk result (file.new.items ≡ file.old.items ++ words_bytes words.now) }
{
    for word in words {
        file.extend_from_slice(&word.to_le_bytes())?;
    }
    Ok(())
}
