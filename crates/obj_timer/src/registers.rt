// Which register of the timer a packet is for. The offsets are those of SiFive's timer for one hart.
ghost use Rattle.std.specs.Prelude.{◌≡◌, ◌≤◌};
ghost use Rattle.gm_words.specs.Numbers.{carried_number};
ghost use Rattle.gm_model.specs.Timer.{timer_register};
ghost use Rattle.obj_timer.specs.Registers.{register_of};

use gm_model::Packet;
use gm_model::platform::TIMER_BASE;

/// The register of the software line, of 4 bytes.
const MSIP: u64 = TIMER_BASE;

/// The register of the number that the clock is compared with, of 8 bytes.
const MTIMECMP: u64 = TIMER_BASE + 0x4000;

/// The register of the clock, of 8 bytes.
const MTIME: u64 = TIMER_BASE + 0xbff8;

/// A register of the timer, or none.
#[derive(Clone, Copy)]
pub(crate) enum Register {
    Msip,
    Mtimecmp,
    Mtime,
    Nowhere,
}

/// The register that a packet is for, which it reads or writes whole.
pub(crate) fn addressed(p: &Packet) -> Register
    ensures { register_of result ≡ timer_register p.now.addr p.now.size }
{
    match (p.addr, p.size) {
        (MSIP, 4) => Register::Msip,
        (MTIMECMP, 8) => Register::Mtimecmp,
        (MTIME, 8) => Register::Mtime,
        _ => Register::Nowhere,
    }
}

/// The number that four bytes bring.
pub(crate) fn word(p: &Packet) -> u32
    requires { p.now.size ≡ 4 }
    ensures { result ≡ carried_number p.now }
{
    let [a, b, c, d] = [p.bytes[0], p.bytes[1], p.bytes[2], p.bytes[3]];
    u32::from_le_bytes([a, b, c, d])
}

/// The number that eight bytes bring.
pub(crate) fn double_word(p: &Packet) -> u64
    requires { p.now.size ≡ 8 }
    ensures { result ≡ carried_number p.now }
{
    let [a, b, c, d] = [p.bytes[0], p.bytes[1], p.bytes[2], p.bytes[3]];
    let [e, f, g, h] = [p.bytes[4], p.bytes[5], p.bytes[6], p.bytes[7]];
    u64::from_le_bytes([a, b, c, d, e, f, g, h])
}
