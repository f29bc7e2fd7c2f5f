// The bytes of RAM.
ghost use Rattle.std.specs.Prelude.{◌≡◌, ◌+◌, ◌≤◌, length, take, drop, replicate, IfOk, IsTrue};
ghost use Rattle.rv_step.specs.FlatMem.{in_ram, ram_put};
ghost use Rattle.gm_model.specs.Memory.{with_bytes_at};
ghost use Rattle.pkt_pool.specs.Packet.{carried_bytes};
ghost use Rattle.gm_words.specs.Entries.{ram_bytes};

use gc_base::NoMemory;
use gm_model::Packet;
use gm_model::platform::RAM_BASE;
use std::alloc::Global;
use std::marker::Model;

/// The bytes of RAM. Contracts see the list of them.
#[derive(Drop)]
pub struct Ram {
    bytes: Vec<u8>,
}

impl Model for Ram {
    ghost use Rattle.std.specs.Prelude.{ℕ, List, ◌<◌, ◌^◌, length};

    ghost Value = { List ℕ };

    ghost view = { λ m. m.bytes.items };

    ghost invariant = { λ m. length m.bytes.items < 2 ^ 32 };
}

impl Ram {
    // Set-up.

    /// RAM of so many bytes, all 0.
    pub(crate) fn zeroed(alloc: Global, size: u32) -> Result<Ram, NoMemory>
        ensures { IfOk result (λ m. m ≡ replicate size 0) }
    {
        let bytes = vec![in alloc; 0u8; size as usize]?;
        Ok(Ram { bytes })
    }

    /// Whether so many bytes at an address lie in RAM.
    #[inline(always)]
    pub(crate) fn holds(&self, addr: u64, size: u8) -> bool
        ensures { result ≡ in_ram self.now addr size }
    {
        let n = self.bytes.len() as u64;
        addr >= RAM_BASE && addr - RAM_BASE <= n && size as u64 <= n - (addr - RAM_BASE)
    }

    // Requests.

    /// The bytes at an address.
    #[inline(always)]
    pub(crate) fn bytes_at(&self, addr: u64, size: u8) -> &[u8]
        requires { IsTrue (in_ram self.now addr size) }
        ensures { result.now ≡ ram_bytes self.now addr size }
    {
        let first = (addr - RAM_BASE) as usize;
        &self.bytes[first..first + size as usize]
    }

    /// Keeps what a write that lies in RAM carries.
    #[inline(always)]
    pub(crate) fn keep(&mut self, p: &Packet)
        requires size { p.now.size ≤ 64 }
        requires within { IsTrue (in_ram self.old p.now.addr p.now.size) }
        ensures value { self.new ≡ ram_put self.old p.now.addr (carried_bytes p.now) }
        ensures size { length self.new ≡ length self.old }
    {
        self.put(p.addr - RAM_BASE, &p.bytes[..p.size as usize]);
    }

    // Own bytes.

    /// Reads the bytes from a place on.
    pub(crate) fn read(&self, at: u64, to: &mut [u8])
        requires { at + length to.old ≤ length self.now }
        ensures { to.new ≡ take (length to.old) (drop at self.now) }
    {
        let first = at as usize;
        to.copy_from_slice(&self.bytes[first..first + to.len()]);
    }

    /// Sets the bytes from a place on. Most are 4 or 8, a length that is known beforehand.
    #[inline(always)]
    pub(crate) fn put(&mut self, at: u64, from: &[u8])
        requires { at + length from.now ≤ length self.old }
        ensures value { self.new ≡ with_bytes_at self.old at from.now }
        ensures size { length self.new ≡ length self.old }
    {
        let first = at as usize;
        match from.len() {
            4 => self.bytes[first..first + 4].copy_from_slice(&from[..4]),
            8 => self.bytes[first..first + 8].copy_from_slice(&from[..8]),
            n => self.bytes[first..first + n].copy_from_slice(from),
        }
    }
}
