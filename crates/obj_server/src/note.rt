// What a server notes of a request.
ghost use Rattle.std.specs.Prelude.{◌≡◌, ◌<◌, ◌≤◌, ◌++◌, [], length, take, drop, replicate};
ghost use Rattle.pkt_pool.specs.Packet.{carried_bytes, is_write};
ghost use Rattle.gm_words.specs.Entries.{served_entries, entry_bytes};
ghost use Rattle.obj_core.specs.Out.{extended};
ghost use Rattle.obj_server.specs.ServedBy.{is_device};

use crate::served_by::ServedBy;
use gm_model::{Cmd, Entry, Packet};
use obj_core::Outbox;

/// The requests of the hart and of the DMA engine have a source below this.
const NOTED_SOURCES: u8 = 3;

/// The first bytes, so many of them, and zeros behind. Most are 4 or 8, a length that is known beforehand.
#[inline(always)]
fn front(bytes: &[u8; 64], count: usize) -> [u8; 8]
    requires { count ≤ 8 }
    ensures { result ≡ take count bytes.now ++ drop count (replicate 8 0) }
{
    let mut front = [0; 8];
    match count {
        4 => front[..4].copy_from_slice(&bytes[..4]),
        8 => front[..8].copy_from_slice(&bytes[..8]),
        n => front[..n].copy_from_slice(&bytes[..n]),
    }
    front
}

/// The eight bytes that an entry has of a packet.
#[tactic(auto, using(crate::proofs::NotedBytes::noted_short, crate::proofs::NotedBytes::noted_long))]
#[inline(always)]
fn noted_bytes(p: &Packet) -> [u8; 8]
    requires { p.now.size ≤ 64 }
    ensures { result ≡ entry_bytes (carried_bytes p.now) }
{
    if p.size <= 8 {
        front(&p.bytes, p.size as usize)
    } else {
        front(&p.bytes, 8)
    }
}

/// Whether a packet is of a write.
#[inline(always)]
fn writes(cmd: Cmd) -> bool
    ensures { result ≡ is_write cmd }
{
    match cmd {
        Cmd::Read | Cmd::ReadResp => false,
        Cmd::Write | Cmd::WriteBack | Cmd::WriteResp => true,
    }
}

/// Notes that a request with this command got this response, and who served it.
#[inline(always)]
pub fn note_served(cmd: Cmd, response: &Packet, by: ServedBy, out: &mut Outbox)
    requires size { response.now.size ≤ 64 }
    requires room { length out.old.entries < 528 }
    ensures { out.new ≡ extended out.old []
        (served_entries (record response.now { cmd = cmd }) response.now (is_device by)) out.old.next }
{
    if response.src < NOTED_SOURCES {
        out.note(Entry::Served {
            src: response.src,
            id: response.id,
            write: writes(cmd),
            addr: response.addr,
            size: response.size,
            bytes: noted_bytes(response),
            device: by.is_device(),
            fault: response.fault,
        });
    }
}
