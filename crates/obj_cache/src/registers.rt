// The registers of a cache: which lines are on their way to it, and the packets that wait for each.
ghost use Rattle.std.specs.Prelude.{◌≡◌, ◌+◌, ◌-◌, ◌≤◌, ◌==◌, [], ◌∷◌, ◌++◌, length, take, drop, false, None, IfOk, IfSome, IsTrue, is_some, slice_get, All};
ghost use Rattle.gc_base.specs.Limits.{most_targets};
ghost use Rattle.gm_words.specs.Allowed.{MayPass};
ghost use Rattle.gm_cache.specs.State.{find_register, without_register, joined, targets_in};
ghost use Rattle.gm_cache.specs.Rule.{newest_bytes};
ghost use Rattle.gm_model.specs.Memory.{covers};
ghost use Rattle.gm_model.specs.Xbar.{read_of};
ghost use Rattle.pkt_pool.specs.Packet.{carried_bytes, read_response};
ghost use Rattle.cache_mshr.specs.Registers.{is_open, AreSound};
ghost use Rattle.obj_cache.specs.Held.{is_full, IsTarget, targets_of, first_gone};
ghost use Rattle.obj_cache.specs.RegistersKept.{packets_at};

use crate::answer::answer;
use cache_mshr::Mshrs;
use gc_base::NoMemory;
use gc_base::limits::TARGETS_MAX;
use gm_model::Packet;
use pkt_pool::Pool;
use std::alloc::Global;
use std::marker::Model;

/// Which lines are on their way, and the packets that wait for each, by key in a pool.
#[derive(Drop)]
pub(crate) struct Registers {
    mshrs: Mshrs,
    pool: Pool,
    line: u32,
}

impl Model for Registers {
    ghost use Rattle.obj_cache.specs.Held.{Held};
    ghost use Rattle.obj_cache.specs.RegistersKept.{shown, IsKept};

    ghost Value = { Held };

    ghost view = { λ r. shown r.pool r.mshrs r.line };

    ghost invariant = { λ r. IsKept r.pool r.mshrs r.line };
}

impl Registers {
    /// So many registers, each with places for so many targets, of lines of so many bytes, and none open.
    pub(crate) fn new(
        alloc: Global,
        count: u32,
        targets: u32,
        line: u32,
    ) -> Result<Registers, NoMemory>
        requires few { count ≤ 16 }
        requires some { 1 ≤ targets }
        requires most { targets ≤ most_targets }
        ensures { IfOk result (λ r. r ≡ record { used = []; count = count; places = targets; line = line }) }
    {
        Ok(Registers {
            mshrs: Mshrs::new(alloc, count, targets)?,
            pool: Pool::new(alloc, count * targets)?,
            line,
        })
    }

    /// Whether no line is on its way.
    pub(crate) fn is_empty(&self) -> bool
        ensures { result ≡ (length self.now.used == 0) }
    {
        self.mshrs.used() == 0
    }

    /// How many lines are on their way.
    pub(crate) fn used(&self) -> u32
        ensures value { result ≡ length self.now.used }
        ensures most { result ≤ 16 }
    {
        self.mshrs.used()
    }

    /// Whether all registers are used, or one has no place for another target.
    pub(crate) fn is_full(&self) -> bool
        ensures { result ≡ is_full self.now }
    {
        self.mshrs.full()
    }

    /// Whether the line at an address is on its way.
    pub(crate) fn has(&self, addr: u64) -> bool
        ensures value { result ≡ is_some (find_register addr self.now.used) }
        ensures most { length (targets_of addr self.now.used) ≤ 16 }
    {
        self.mshrs.find(addr).is_some()
    }

    /// The line at an address is on its way, and this packet waits for it.
    pub(crate) fn start(&mut self, addr: u64, first: &Packet)
        requires room { is_full self.old ≡ false }
        requires absent { find_register addr self.old.used ≡ None }
        requires target { IsTarget self.old.line addr first.now }
        ensures { self.new ≡ record self.old { used = self.old.used ++ record { address = addr; targets = first.now ∷ [] } ∷ [] } }
    {
        let key = self.pool.put_reserved(*first);
        self.mshrs.allot(addr, key);
    }

    /// A packet more waits for the line at an address, if that is on its way.
    pub(crate) fn join(&mut self, addr: u64, p: &Packet)
        requires room { is_full self.old ≡ false }
        requires target { IsTarget self.old.line addr p.now }
        ensures { self.new ≡ record self.old { used = joined addr p.now self.old.used } }
    {
        if let Some(register) = self.mshrs.find(addr) {
            let key = self.pool.put_reserved(*p);
            self.mshrs.add_target(register, key);
        }
    }

    /// Takes out the first packet that waits for the line at an address, if one does.
    pub(crate) fn take_first(&mut self, addr: u64) -> Option<Packet>
        ensures first { result ≡ slice_get (targets_of addr self.old.used) 0 }
        ensures rest { self.new ≡ record self.old { used = first_gone addr self.old.used } }
        ensures target { IfSome result (λ x. IsTarget self.old.line addr x) }
    {
        let register = self.mshrs.find(addr)?;
        self.pool.take(self.mshrs.first(register)?)
    }

    /// The line at an address has come, and nobody waits for it any more.
    pub(crate) fn close(&mut self, addr: u64)
        requires { targets_of addr self.old.used ≡ [] }
        ensures { self.new ≡ record self.old { used = without_register addr self.old.used } }
    {
        if let Some(register) = self.mshrs.find(addr) {
            self.mshrs.close(register);
        }
    }

    /// Answers a read without time, if a write-back that waits covers its address: the newest does.
    pub(crate) fn read(&self, p: &mut Packet) -> bool
        requires { MayPass p.old }
        ensures answered { result ≡ is_some (newest_bytes (targets_in self.now.used) p.old.addr p.old.size) }
        ensures packet { p.new ≡ read_of p.old (newest_bytes (targets_in self.now.used) p.old.addr p.old.size) }
    {
        let mut n = self.mshrs.used();
        while n > 0 {
            n -= 1;
            if let Some(register) = self.mshrs.at(n) {
                if read_at(&self.mshrs, &self.pool, register, p) {
                    return true;
                }
            }
        }
        false
    }
}

/// Answers a read without time, if a write-back that waits in the register of a key covers its address: the newest does.
fn read_at(mshrs: &Mshrs, pool: &Pool, register: usize, p: &mut Packet) -> bool
    requires sound { AreSound mshrs.now }
    requires most { mshrs.now.places ≤ most_targets }
    requires known { IsTrue (is_open register mshrs.now.used) }
    requires bytes { All MayPass (packets_at pool.now mshrs.now register) }
    requires size { MayPass p.old }
    ensures answered { result ≡ is_some (newest_bytes (packets_at pool.now mshrs.now register) p.old.addr p.old.size) }
    ensures packet { p.new ≡ read_of p.old (newest_bytes (packets_at pool.now mshrs.now register) p.old.addr p.old.size) }
{
    let mut n = TARGETS_MAX;
    while n > 0 {
        n -= 1;
        if let Some(key) = mshrs.target(register, n) {
            if let Some(held) = pool.get(key) {
                if covers(held, p.addr) {
                    answer_by(p, held);
                    return true;
                }
            }
        }
    }
    false
}

/// Whether a packet is a write-back of bytes among which the address is.
fn covers(held: &Packet, addr: u64) -> bool
    ensures { result ≡ covers held.now addr }
{
    held.is_write_back() && held.addr <= addr && addr - held.addr < held.size as u64
}

/// Answers a read by what a write-back that covers its address carries.
fn answer_by(p: &mut Packet, held: &Packet)
    requires size { MayPass p.old }
    requires bytes { MayPass held.now }
    requires covers { IsTrue (covers held.now p.old.addr) }
    ensures { p.new ≡ read_response p.old (take p.old.size (drop (p.old.addr - held.now.addr) (carried_bytes held.now))) }
{
    let from = (p.addr - held.addr) as usize;
    answer(p, &held.bytes[..held.size as usize], from);
}
