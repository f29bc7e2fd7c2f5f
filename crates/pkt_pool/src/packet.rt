// What the parts send to each other.
ghost use Rattle.std.specs.Prelude.{◌≡◌, ◌≤◌, length};
ghost use Rattle.pkt_pool.specs.Packet.{pushed, popped, top_port, with_front, read_response, fault_response, is_response, is_write_back};

use crate::cmd::Cmd;
use gc_base::{PktId, PortNo};

/// Puts bytes in front. Words and double words, which most are, have copies of a length that is known beforehand.
#[inline(always)]
fn put_front(to: &mut [u8], from: &[u8])
    requires { length from.now ≤ length to.old }
    ensures { to.new ≡ with_front to.old from.now }
{
    match from.len() {
        4 => to[..4].copy_from_slice(&from[..4]),
        8 => to[..8].copy_from_slice(&from[..8]),
        n => to[..n].copy_from_slice(from),
    }
}

/// A request on its way to memory or a device, or the response on its way back.
#[derive(Clone, Copy, Debug, PartialEq, Eq)]
pub struct Packet {
    pub id: PktId,
    /// Who made the request: 0 a CPU's fetch, 1 a CPU's data access, 2 the DMA engine, 4, 5 and 6 `cache1` to `cache3`.
    pub src: u8,
    pub cmd: Cmd,
    pub addr: u64,
    /// In bytes: 1, 2, 4 or 8, or a whole line.
    pub size: u8,
    /// The first `size` bytes are those that are read or written.
    pub bytes: [u8; 64],
    /// Whether the address is not in RAM, so that caches pass the packet on.
    pub uncached: bool,
    /// Of a response: the access was refused.
    pub fault: bool,
    /// The ports by which the request came into each crossbar, the last one at `depth - 1`.
    pub stack: [u8; 8],
    pub depth: u8,
}

impl Packet {
    /// Notes the port by which the request came, where the stack has a place.
    pub fn push_port(&mut self, port: PortNo)
        ensures { self.new ≡ pushed self.old port.0 }
    {
        if self.depth < 8 {
            self.stack[self.depth as usize] = port.0;
            self.depth += 1;
        }
    }

    /// Takes off the port that was noted last: where the response goes.
    pub fn pop_port(&mut self) -> PortNo
        ensures port { result.0 ≡ top_port self.old }
        ensures popped { self.new ≡ popped self.old }
    {
        let port = self.top_port();
        self.depth = self.depth.saturating_sub(1);
        port
    }

    /// Makes a read its response, with these bytes.
    #[inline(always)]
    pub fn answer(&mut self, bytes: &[u8])
        requires { length bytes.now ≤ 64 }
        ensures { self.new ≡ read_response self.old bytes.now }
    {
        put_front(&mut self.bytes, bytes);
        self.cmd = Cmd::ReadResp;
    }

    /// Whether it is a response.
    #[inline(always)]
    pub fn is_response(&self) -> bool
        ensures { result ≡ is_response self.now.cmd }
    {
        match self.cmd {
            Cmd::ReadResp | Cmd::WriteResp => true,
            Cmd::Read | Cmd::Write | Cmd::WriteBack => false,
        }
    }

    /// Whether it is a write-back, which has no response.
    #[inline(always)]
    pub fn is_write_back(&self) -> bool
        ensures { result ≡ is_write_back self.now.cmd }
    {
        match self.cmd {
            Cmd::WriteBack => true,
            Cmd::Read | Cmd::Write | Cmd::ReadResp | Cmd::WriteResp => false,
        }
    }

    /// The port that was noted last; 0 where there is no such place.
    #[inline(always)]
    pub fn top_port(&self) -> PortNo
        ensures { result.0 ≡ top_port self.now }
    {
        let top = self.depth.saturating_sub(1) as usize;
        PortNo(if top < 8 { self.stack[top] } else { 0 })
    }

    /// Makes a request the response that refuses it by fault: a read gets zeros, and what has no response stays.
    pub fn refuse(&mut self)
        requires { self.old.size ≤ 64 }
        ensures { self.new ≡ fault_response self.old self.old.cmd }
    {
        match self.cmd {
            Cmd::Read => {
                self.bytes[..self.size as usize].fill(0);
                self.cmd = Cmd::ReadResp;
                self.fault = true;
            }
            Cmd::Write => {
                self.cmd = Cmd::WriteResp;
                self.fault = true;
            }
            Cmd::WriteBack | Cmd::ReadResp | Cmd::WriteResp => {}
        }
    }
}
