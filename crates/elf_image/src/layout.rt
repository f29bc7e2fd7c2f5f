// Where the fields of an ELF file stand, and the values that are asked for and written. The names are those of the ELF-64
// object file format, "ELF header" and "Program header table".

/// The first bytes of each ELF file.
pub(crate) const MAGIC: [u8; 4] = [0x7f, b'E', b'L', b'F'];

// The file header. Places are in bytes from the start of the file.

/// Its size, in bytes.
pub(crate) const HEADER_SIZE: usize = 64;
/// `e_ident[EI_CLASS]`
pub(crate) const CLASS_AT: usize = 4;
/// `e_ident[EI_DATA]`
pub(crate) const ORDER_AT: usize = 5;
/// `e_ident[EI_VERSION]`
pub(crate) const IDENTIFICATION_VERSION_AT: usize = 6;
/// `e_type`
pub(crate) const KIND_AT: usize = 16;
/// `e_machine`
pub(crate) const MACHINE_AT: usize = 18;
/// `e_version`
pub(crate) const VERSION_AT: usize = 20;
/// `e_entry`
pub(crate) const ENTRY_AT: usize = 24;
/// `e_phoff`
pub(crate) const TABLE_AT: usize = 32;
/// `e_ehsize`
pub(crate) const HEADER_SIZE_AT: usize = 52;
/// `e_phentsize`
pub(crate) const ENTRY_SIZE_AT: usize = 54;
/// `e_phnum`
pub(crate) const COUNT_AT: usize = 56;

/// The class of 64-bit objects.
pub(crate) const CLASS_64: u8 = 2;
/// The order that has the low byte first.
pub(crate) const LOW_FIRST: u8 = 1;
/// The kind of an executable at fixed addresses.
pub(crate) const EXECUTABLE: u16 = 2;
/// The machine RISC-V.
pub(crate) const RISC_V: u16 = 243;
/// The one version of the format.
pub(crate) const VERSION: u8 = 1;

// A program header. Places are in bytes from its start; its first field is `p_type`.

/// Its size, in bytes.
pub(crate) const PROGRAM_HEADER_SIZE: usize = 56;
/// `p_flags`
pub(crate) const FLAGS_AT: usize = 4;
/// `p_offset`
pub(crate) const OFFSET_AT: usize = 8;
/// `p_vaddr`
pub(crate) const VIRTUAL_ADDRESS_AT: usize = 16;
/// `p_paddr`
pub(crate) const ADDRESS_AT: usize = 24;
/// `p_filesz`
pub(crate) const FILE_SIZE_AT: usize = 32;
/// `p_memsz`
pub(crate) const MEMORY_SIZE_AT: usize = 40;
/// `p_align`
pub(crate) const ALIGNMENT_AT: usize = 48;

/// The type of a segment that is loaded.
pub(crate) const LOAD: u32 = 1;
/// The flags of a segment that may be read, written and executed.
pub(crate) const READ_WRITE_EXECUTE: u32 = 7;
/// The alignment of the segment that is written, in bytes.
pub(crate) const ALIGNMENT: u64 = 8;

/// An instruction's size in bytes, of which the entry is a multiple.
pub(crate) const WORD_SIZE: u64 = 4;

/// The address of RAM's first byte.
pub(crate) const RAM_BASE: u64 = 0x8000_0000;
