// A pool of packets.
ghost use Rattle.std.specs.Prelude.{◌≡◌, ◌+◌, ◌<◌, ◌≤◌, [], Some, None, IfOk, OnSome, IfNone, option_copied};
ghost use Rattle.pkt_pool.specs.Pooled.{packet_at, count, Changes};

use crate::packet::Packet;
use gc_base::NoMemory;
use slab::Slab;
use std::alloc::Global;
use std::marker::Model;

/// Packets under keys that the pool picks. Contracts see which packet each key holds, and how many packets there is room for.
#[derive(Drop)]
pub struct Pool {
    packets: Slab<Packet>,
    cap: u32,
}

impl Model for Pool {
    ghost use Rattle.std.specs.Prelude.{◌≤◌};
    ghost use Rattle.pkt_pool.specs.Pooled.{Pooled};

    ghost Value = { Pooled };

    ghost view = { λ p. record { slots = p.packets.slots; cap = p.cap } };

    ghost invariant = { λ p. p.cap ≤ p.packets.capacity };
}

impl Pool {
    /// A pool with room for so many packets, and none in it.
    pub fn new(alloc: Global, cap: u32) -> Result<Pool, NoMemory>
        ensures { IfOk result (λ p. p ≡ record { slots = []; cap = cap }) }
    {
        Ok(Pool {
            packets: Slab::with_capacity(alloc, cap as usize)?,
            cap,
        })
    }

    /// Puts a packet in, and gives its key. There is room for it.
    #[inline(always)]
    pub fn put_reserved(&mut self, p: Packet) -> usize
        requires { count self.old < self.old.cap }
        ensures vacant { packet_at self.old result ≡ None }
        ensures packet { Changes self.old self.new result (Some p) }
        ensures one_more { count self.new ≡ count self.old + 1 }
    {
        self.packets.insert_reserved(p)
    }

    /// The packet of a key, lent, if the key holds one.
    #[inline(always)]
    pub fn get(&self, key: usize) -> Option<&Packet>
        ensures { option_copied result ≡ packet_at self.now key }
    {
        self.packets.get(key)
    }

    /// Takes the packet of a key out, if the key holds one.
    #[inline(always)]
    pub fn take(&mut self, key: usize) -> Option<Packet>
        ensures packet { result ≡ packet_at self.old key }
        ensures taken { Changes self.old self.new key None }
        ensures one_less { OnSome result (count self.new + 1 ≡ count self.old) }
        ensures none { IfNone result (self.new ≡ self.old) }
    {
        self.packets.try_remove(key)
    }
}

#[cfg(test)]
mod tests {
    use super::*;
    use crate::cmd::Cmd;
    use gc_base::PktId;
    use std::test::Fail;

    /// A read with a number.
    fn read(n: u64) -> Packet {
        Packet {
            id: PktId(n),
            src: 0,
            cmd: Cmd::Read,
            addr: 0x8000_0000,
            size: 4,
            bytes: [0; 64],
            uncached: false,
            fault: false,
            stack: [0; 8],
            depth: 0,
        }
    }

    // By the rule: each key gives its own packet until that is taken, and the room that it leaves is used again.
    #[test]
    fn keys_give_their_packets(rt: HostRuntime) -> Result<(), Fail> {
        let mut pool = Pool::new(rt.alloc(), 2)?;
        assert!(rt; pool.get(0).is_none());
        let first = pool.put_reserved(read(7));
        let second = pool.put_reserved(read(8));
        assert_eq!(rt; pool.get(first), Some(&read(7)));
        assert_eq!(rt; pool.get(second), Some(&read(8)));
        assert_eq!(rt; pool.take(first), Some(read(7)));
        assert!(rt; pool.take(first).is_none());
        let third = pool.put_reserved(read(9));
        assert_eq!(rt; pool.get(second), Some(&read(8)));
        assert_eq!(rt; pool.take(third), Some(read(9)));
        Ok(())
    }
}
