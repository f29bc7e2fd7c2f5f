// Numbers in a file, low byte first.
ghost use Rattle.std.specs.Prelude.{◌≡◌, ◌+◌, ◌≤◌, length};
ghost use Rattle.elf_image.specs.Field.{field};

use byteorder::{ByteOrder, LittleEndian};

/// The number of the two bytes at a place.
pub(crate) fn u16_at(file: &[u8], place: usize) -> u16
    requires { place + 2 ≤ length file.now }
    ensures { result ≡ field file.now place 2 }
{
    LittleEndian::read_u16(&file[place..])
}

/// The number of the four bytes at a place.
pub(crate) fn u32_at(file: &[u8], place: usize) -> u32
    requires { place + 4 ≤ length file.now }
    ensures { result ≡ field file.now place 4 }
{
    LittleEndian::read_u32(&file[place..])
}

/// The number of the eight bytes at a place.
pub(crate) fn u64_at(file: &[u8], place: usize) -> u64
    requires { place + 8 ≤ length file.now }
    ensures { result ≡ field file.now place 8 }
{
    LittleEndian::read_u64(&file[place..])
}
