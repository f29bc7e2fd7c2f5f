// The lines of a cache.
ghost use Rattle.std.specs.Prelude.{◌≡◌, ◌+◌, ◌^◌, ◌<◌, ◌≤◌, ◌%◌, ◌==◌, ◌||◌, ◌↔◌, length, IsTrue, IsSome, IsNone, IfSome, IfNone, IfOk, Some, None, slice_get};
ghost use Rattle.std.specs.Option.{option_map};
ghost use Rattle.std.specs.Int.{is_power_of_two};
ghost use Rattle.cache_tags.specs.Line.{new_line, rewritten};
ghost use Rattle.cache_tags.specs.Kept.{base_of, set_of, lines_at, lines_of, lines_with_used, lines_with_changed, lines_with_new, line_of, line_at, found, touched, written, installed, victim_of, empty, emptied, nth_line, KeepsPlaces, KeepsOtherPlaces, IsSoundCache};

use crate::place::{LineAt, Place, Victim};
use crate::set::Set;
use gc_base::NoMemory;
use gc_base::limits::WAYS_MAX;
use std::alloc::Global;
use std::marker::Model;

/// What a cache keeps. Contracts see the lines of each set, the most recently used first, each with its way.
#[derive(Drop)]
pub struct Tags {
    ways: u32,
    /// How many bytes a line has.
    line: u32,
    /// How many of an address's bits are its place in its line.
    shift: u32,
    /// The bits of a line's number that are its set's.
    mask: u64,
    sets: Vec<Set>,
}

impl Model for Tags {
    ghost use Rattle.cache_tags.specs.Kept.{Kept};

    ghost Value = { Kept };

    ghost use Rattle.cache_tags.specs.Store.{stored_cache, IsStoredCache};

    ghost view = { λ t. stored_cache t.ways t.line t.sets.items };

    ghost invariant = { λ t. IsStoredCache t.ways t.line t.shift t.mask t.sets.items };
}

impl Tags {
    /// A cache with so many sets, so many ways in each of them and so many bytes in a line, that keeps nothing.
    pub fn new(alloc: Global, sets: u32, ways: u32, line: u32) -> Result<Tags, NoMemory>
        requires power { IsTrue (is_power_of_two sets) }
        requires some { 0 < ways }
        requires few { ways ≤ WAYS_MAX }
        requires line { IsTrue ((line == 16) || (line == 32) || (line == 64)) }
        ensures empty { IfOk result (λ t. t ≡ empty sets ways line) }
        ensures sound { IfOk result (λ t. IsSoundCache t) }
    {
        let mut all = Vec::with_capacity(alloc, sets as usize)?;
        for _ in 0..sets {
            all.push_reserved(Set::new(alloc, ways, line)?);
        }
        Ok(Tags {
            ways,
            line,
            shift: shift_of(line),
            mask: sets as u64 - 1,
            sets: all,
        })
    }

    /// The number of the set of an address.
    #[inline(always)]
    fn set_of(&self, addr: u64) -> u32
        ensures { result ≡ set_of self.now addr }
    {
        (addr >> self.shift & self.mask) as u32
    }

    /// The address of the line that an address lies in.
    #[inline(always)]
    fn base_of(&self, addr: u64) -> u64
        ensures { result ≡ base_of self.now addr }
    {
        addr - (addr & (self.line as u64 - 1))
    }

    /// The place of the line that an address lies in, if it is there.
    pub fn find(&self, addr: u64) -> Option<Place>
        ensures found { result ≡ found self.now addr }
        ensures there { IsSome result ↔ IsSome (line_of self.now addr) }
        ensures line { IfSome result (λ at. IsSome (line_at self.now at) × (line_at self.now at ≡ line_of self.now addr)) }
        ensures none { IfNone result (line_of self.now addr ≡ None) }
    {
        let set = self.set_of(addr);
        let way = self.sets[set as usize].find(self.base_of(addr))?;
        Some(Place { set, way })
    }

    /// Makes the line at a place the most recently used.
    pub fn touch(&mut self, at: Place)
        requires { IsSome (line_at self.old at) }
        ensures touched { self.new ≡ touched self.old at }
        ensures lines { IfSome (line_at self.old at) (λ l. lines_of self.new ≡ lines_with_used self.old at.set l) }
        ensures places { KeepsPlaces self.old self.new }
        ensures sound { IsSoundCache self.new }
    {
        self.sets[at.set as usize].touch(at.way);
    }

    /// The bytes of the line at a place.
    pub fn bytes(&self, at: Place) -> &[u8]
        requires { IsSome (line_at self.now at) }
        ensures bytes { option_map (λ l. l.bytes) (line_at self.now at) ≡ Some result.now }
        ensures whole { length result.now ≡ self.now.line }
    {
        self.sets[at.set as usize].bytes(at.way)
    }

    /// Writes bytes to the line at a place, from an offset on. It is dirty then.
    pub fn write(&mut self, at: Place, offset: u32, bytes: &[u8])
        requires place { IsSome (line_at self.old at) }
        requires fits { offset + length bytes.now ≤ self.old.line }
        ensures written { self.new ≡ written self.old at offset bytes.now }
        ensures lines { IfSome (line_at self.old at) (λ l. lines_of self.new ≡ lines_with_changed self.old at.set (rewritten l offset bytes.now)) }
        ensures line { line_at self.new at ≡ option_map (λ l. rewritten l offset bytes.now) (line_at self.old at) }
        ensures others { KeepsOtherPlaces self.old self.new at }
        ensures sound { IsSoundCache self.new }
    {
        self.sets[at.set as usize].write(at.way, offset as usize, bytes);
    }

    /// Takes a line in, which isn't there, as the most recently used of its set, and gives the one that leaves.
    pub fn install(&mut self, addr: u64, bytes: &[u8], dirty: bool) -> Option<Victim>
        requires base { addr % self.old.line ≡ 0 }
        requires whole { length bytes.now ≡ self.old.line }
        requires absent { line_of self.old addr ≡ None }
        ensures installed { self.new ≡ installed self.old (new_line addr dirty bytes.now) }
        ensures lines { lines_of self.new ≡ lines_with_new self.old (set_of self.old addr) (new_line addr dirty bytes.now) }
        ensures victim { result ≡ victim_of self.old addr }
        ensures free { IsNone result ↔ (length (lines_at self.old (set_of self.old addr)) < self.old.ways) }
        ensures sound { IsSoundCache self.new }
    {
        let set = self.set_of(addr);
        self.sets[set as usize].install(addr, bytes, dirty)
    }

    /// Takes all lines out.
    pub fn clear(&mut self)
        ensures emptied { self.new ≡ emptied self.old }
        ensures sound { IsSoundCache self.new }
    {
        for set in self.sets.iter_mut() {
            set.clear();
        }
    }

    /// The n-th line of a set, the most recently used first, if there are so many.
    pub fn nth(&self, set: u32, n: u32) -> Option<LineAt>
        ensures nth { result ≡ nth_line self.now set n }
        ensures line { IfSome result (λ l. IsSome (line_at self.now l.at) × (line_at self.now l.at ≡ slice_get (lines_at self.now set) n)) }
    {
        self.sets.get(set as usize)?.nth(set, n)
    }
}

/// How many bits the place in a line has.
fn shift_of(line: u32) -> u32
    requires { IsTrue ((line == 16) || (line == 32) || (line == 64)) }
    ensures shift { 2 ^ result ≡ line }
    ensures small { result ≤ 6 }
{
    match line {
        16 => 4,
        32 => 5,
        _ => 6,
    }
}

#[cfg(test)]
mod tests;
