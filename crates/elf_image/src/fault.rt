// Why a file is no image.
ghost use Rattle.std.specs.Prelude.{◌≡◌};

use gc_base::NoMemory;
use thiserror::Error;

/// The first thing that is wrong with a file as an image, or want of memory.
#[derive(Clone, Copy, Debug, PartialEq, Eq, Error)]
pub enum ElfFault {
    /// The file isn't ELF, and is longer than RAM.
    #[error("the raw image is longer than RAM")]
    Raw,
    /// The file is shorter than a header, its table of program headers isn't whole, or its entry is no multiple of 4.
    #[error("the header is damaged")]
    Header,
    /// The file isn't of the 64-bit class.
    #[error("the file is not of the 64-bit class")]
    Class,
    /// The file doesn't have the low byte first.
    #[error("the file does not have the low byte first")]
    Order,
    /// The file isn't an executable at fixed addresses.
    #[error("the file is not an executable at fixed addresses")]
    Kind,
    /// The file isn't for RISC-V.
    #[error("the file is not for RISC-V")]
    Machine,
    /// A segment has more bytes than memory, isn't wholly in the file, or isn't wholly in RAM.
    #[error("segment {index} cannot be loaded")]
    Segment {
        /// Its program header, counted from 0 over those of all types.
        index: u16,
    },
    /// Memory could not be had.
    #[error("memory could not be had")]
    NoMemory,
}

impl From<NoMemory> for ElfFault {
    ghost use Rattle.elf_image.specs.declared.fault.ElfFault.TheVariants as faults;

    ghost from_gives = { λ _ fault. fault ≡ faults.NoMemory };

    fn from(_: NoMemory) -> ElfFault {
        ElfFault::NoMemory
    }
}
