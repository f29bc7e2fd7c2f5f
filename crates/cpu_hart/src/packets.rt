// The requests of a CPU.
ghost use Rattle.std.specs.Prelude.{◌≡◌, ◌<◌, ◌≤◌, ◌^◌, []};
ghost use Rattle.rv_step.specs.Width.{IsSize};
ghost use Rattle.pkt_pool.specs.Packet.{request as request_of};
ghost use Rattle.gm_words.specs.Platform.{is_in_ram};
ghost use Rattle.gm_model.specs.Accesses.{fetch_request, load_request, store_request};

use crate::octets::put_number;
use gc_base::{PktId, PortNo};
use gm_model::platform::RAM_BASE;
use gm_model::{Cmd, Packet};

/// The source of the fetches, as it is noted.
pub const FETCH_SOURCE: u8 = 0;

/// The source of the data accesses.
pub const DATA_SOURCE: u8 = 1;

/// The port of the fetches.
pub const FETCH_PORT: PortNo = PortNo(0);

/// The port of the data accesses.
pub const DATA_PORT: PortNo = PortNo(1);

/// Whether so many bytes at an address lie in RAM of this size.
#[inline(always)]
pub fn in_ram(ram: u32, addr: u64, count: u8) -> bool
    ensures { result ≡ is_in_ram ram addr count }
{
    addr >= RAM_BASE && addr - RAM_BASE + count as u64 <= ram as u64
}

/// A new request, with no bytes yet.
#[inline(always)]
fn request(id: PktId, src: u8, cmd: Cmd, addr: u64, size: u8, uncached: bool) -> Packet
    ensures { result ≡ request_of id.0 src cmd addr size [] uncached }
{
    Packet {
        id,
        src,
        cmd,
        addr,
        size,
        bytes: [0; 64],
        uncached,
        fault: false,
        stack: [0; 8],
        depth: 0,
    }
}

/// The fetch of the word at pc.
#[inline(always)]
pub fn fetch(id: PktId, pc: u64) -> Packet
    ensures { result ≡ fetch_request id.0 pc }
{
    request(id, FETCH_SOURCE, Cmd::Read, pc, 4, false)
}

/// The data access of a load.
#[inline(always)]
pub fn load(id: PktId, ram: u32, addr: u64, size: u8) -> Packet
    ensures { result ≡ load_request ram id.0 addr size }
{
    request(
        id,
        DATA_SOURCE,
        Cmd::Read,
        addr,
        size,
        !in_ram(ram, addr, size),
    )
}

/// The data access of a store of v.
pub fn store(id: PktId, ram: u32, addr: u64, size: u8, v: u64) -> Packet
    requires { IsSize size }
    ensures { result ≡ store_request ram id.0 addr size v }
{
    let uncached = !in_ram(ram, addr, size);
    let mut p = request(id, DATA_SOURCE, Cmd::Write, addr, size, uncached);
    put_number(&mut p.bytes, size, v);
    p
}
