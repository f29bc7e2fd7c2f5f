// The miss registers of a cache.
ghost use Rattle.std.specs.Prelude.{◌≡◌, ◌<◌, ◌≤◌, [], length, false, None, IsTrue, IfOk, IfSome, slice_get};
ghost use Rattle.gc_base.specs.Limits.{most_targets};
ghost use Rattle.std.specs.Option.{option_map};
ghost use Rattle.std.specs.Vec.{vec_capacity};
ghost use Rattle.cache_mshr.specs.Kept.{without_key};
ghost use Rattle.cache_mshr.specs.Registers.{key_of, is_open, targets_of, has_full, is_full, opened, joined, first_gone, closed, AreSound};

use crate::entry::{Entry, push_target, take_target};
use crate::targets::Targets;
use gc_base::NoMemory;
use slab::Slab;
use std::alloc::Global;
use std::marker::Model;

/// The miss registers of a cache: which lines are on their way to it, and which packets wait for each.
#[derive(Drop)]
pub struct Mshrs {
    registers: Slab<Entry>,
    /// The keys of the open registers, in the order in which they were opened.
    keys: Vec<usize>,
    count: u32,
    targets: u32,
}

impl Model for Mshrs {
    ghost use Rattle.std.specs.Vec.{vec_capacity};
    ghost use Rattle.cache_mshr.specs.Registers.{Registers};

    ghost Value = { Registers };

    ghost use Rattle.cache_mshr.specs.Kept.{shown, AreKept};

    ghost view = { λ m. shown m.registers m.keys.items m.count m.targets };

    ghost invariant = { λ m. AreKept m.registers m.keys.items (vec_capacity m.keys) m.count m.targets };
}

impl Mshrs {
    /// So many registers, each with places for so many targets, and none open.
    pub fn new(alloc: Global, count: u32, targets: u32) -> Result<Mshrs, NoMemory>
        requires some { 0 < targets }
        requires most { targets ≤ most_targets }
        ensures empty { IfOk result (λ m. m ≡ record { used = []; count = count; places = targets }) }
        ensures sound { IfOk result AreSound }
    {
        Ok(Mshrs {
            registers: Slab::with_capacity(alloc, count as usize)?,
            keys: Vec::with_capacity(alloc, count as usize)?,
            count,
            targets,
        })
    }

    /// How many registers are open.
    pub fn used(&self) -> u32
        ensures { result ≡ length self.now.used }
    {
        self.keys.len() as u32
    }

    /// Whether all registers are used, or one has no place for another target.
    pub fn full(&self) -> bool
        ensures value { result ≡ is_full self.now }
        ensures sound { AreSound self.now }
    {
        self.keys.len() == self.count as usize || self.has_full()
    }

    /// Whether a register has no place for another target.
    fn has_full(&self) -> bool
        ensures { result ≡ has_full self.now.places self.now.used }
    {
        for key in &self.keys {
            if let Some(entry) = self.registers.get(*key) {
                if entry.targets.len() == self.targets as usize {
                    return true;
                }
            }
        }
        false
    }

    /// The key of the register that is open for a line, if one is.
    pub fn find(&self, addr: u64) -> Option<usize>
        ensures key { result ≡ key_of addr self.now.used }
        ensures known { IfSome result (λ k. IsTrue (is_open k self.now.used)) }
    {
        for key in &self.keys {
            if let Some(entry) = self.registers.get(*key) {
                if entry.addr == addr {
                    return Some(*key);
                }
            }
        }
        None
    }

    /// The key of the open register before which n others were opened, if there is one.
    pub fn at(&self, n: u32) -> Option<usize>
        ensures key { result ≡ option_map (λ r. r.key) (slice_get self.now.used n) }
        ensures known { IfSome result (λ k. IsTrue (is_open k self.now.used)) }
    {
        if n < self.used() {
            Some(self.keys[n as usize])
        } else {
            None
        }
    }

    /// Opens a register for a line, for which this packet waits first, and gives its key.
    pub fn allot(&mut self, addr: u64, first: usize) -> usize
        requires room { is_full self.old ≡ false }
        requires apart { key_of addr self.old.used ≡ None }
        ensures new_key { is_open result self.old.used ≡ false }
        ensures opened { self.new ≡ opened result addr first self.old }
        ensures known { IsTrue (is_open result self.new.used) }
        ensures sound { AreSound self.new }
    {
        let key = self.registers.insert_reserved(Entry {
            addr,
            targets: Targets::one(first),
        });
        self.keys.push_reserved(key);
        key
    }

    /// A packet more waits for the line of an open register.
    pub fn add_target(&mut self, reg: usize, packet: usize)
        requires room { is_full self.old ≡ false }
        requires known { IsTrue (is_open reg self.old.used) }
        ensures joined { self.new ≡ joined reg packet self.old }
        ensures sound { AreSound self.new }
    {
        push_target(&mut self.registers, reg, packet);
    }

    /// Takes the first target of an open register out, if one is left.
    pub fn first(&mut self, reg: usize) -> Option<usize>
        requires { IsTrue (is_open reg self.old.used) }
        ensures first { result ≡ slice_get (targets_of reg self.old.used) 0 }
        ensures rest { self.new ≡ first_gone reg self.old }
        ensures sound { AreSound self.new }
    {
        take_target(&mut self.registers, reg)
    }

    /// The target of an open register before which n others came, if there is one. It stays.
    pub fn target(&self, reg: usize, n: u32) -> Option<usize>
        requires { IsTrue (is_open reg self.now.used) }
        ensures { result ≡ slice_get (targets_of reg self.now.used) n }
    {
        self.registers.get(reg)?.targets.get(n as usize)
    }

    /// Closes an open register for whose line nobody waits any more.
    pub fn close(&mut self, reg: usize)
        requires known { IsTrue (is_open reg self.old.used) }
        requires served { targets_of reg self.old.used ≡ [] }
        ensures closed { self.new ≡ closed reg self.old }
        ensures sound { AreSound self.new }
    {
        self.registers.try_remove(reg);
        drop_key(&mut self.keys, reg);
    }
}

/// Drops a key from a list of keys, if it stands there.
fn drop_key(keys: &mut Vec<usize>, key: usize)
    ensures items { keys.new.items ≡ without_key key keys.old.items }
    ensures capacity { vec_capacity keys.new ≡ vec_capacity keys.old }
{
    for at in 0..keys.len() {
        if keys[at] == key {
            keys.remove(at);
            return;
        }
    }
}
