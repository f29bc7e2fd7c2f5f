// What is asked of the header of an ELF file.
ghost use Rattle.std.specs.Prelude.{◌≡◌, ◌≤◌, length, None, Some, OnOk, OnErr, IfErr, IsTrue, true, false};
ghost use Rattle.elf_image.specs.Header.{has_sound_table, header_fault};

use crate::ElfFault;
use crate::field::{u16_at, u64_at};
use crate::layout::{
    CLASS_64, CLASS_AT, COUNT_AT, ENTRY_AT, ENTRY_SIZE_AT, EXECUTABLE, HEADER_SIZE, KIND_AT,
    LOW_FIRST, MACHINE_AT, ORDER_AT, PROGRAM_HEADER_SIZE, RISC_V, TABLE_AT, WORD_SIZE,
};

/// Refuses a header at its first fault.
pub(crate) fn check_header(file: &[u8]) -> Result<(), ElfFault>
    ensures sound { OnOk result (header_fault file.now ≡ None) }
    ensures fault { IfErr result (λ fault. header_fault file.now ≡ Some fault) }
{
    check(file.len() >= HEADER_SIZE, ElfFault::Header)?;
    check(file[CLASS_AT] == CLASS_64, ElfFault::Class)?;
    check(file[ORDER_AT] == LOW_FIRST, ElfFault::Order)?;
    check(u16_at(file, KIND_AT) == EXECUTABLE, ElfFault::Kind)?;
    check(u16_at(file, MACHINE_AT) == RISC_V, ElfFault::Machine)?;
    check(has_whole_table(file), ElfFault::Header)?;
    check(u64_at(file, ENTRY_AT) % WORD_SIZE == 0, ElfFault::Header)
}

// Answers the fault where what is asked for doesn't hold.
fn check(holds: bool, fault: ElfFault) -> Result<(), ElfFault>
    ensures holds { OnOk result (holds ≡ true) }
    ensures fault { IfErr result (λ e. (holds ≡ false) × (e ≡ fault)) }
{
    if holds { Ok(()) } else { Err(fault) }
}

// Whether the table of program headers lies in the file, if there is one. Its place may be any number, so that the
// room behind it is compared and no sum is made.
fn has_whole_table(file: &[u8]) -> bool
    requires { 64 ≤ length file.now }
    ensures { result ≡ has_sound_table file.now }
{
    let count = u16_at(file, COUNT_AT) as usize;
    if count == 0 {
        return true;
    }
    let place = u64_at(file, TABLE_AT) as usize;
    u16_at(file, ENTRY_SIZE_AT) as usize == PROGRAM_HEADER_SIZE
        && place <= file.len()
        && PROGRAM_HEADER_SIZE * count <= file.len() - place
}
