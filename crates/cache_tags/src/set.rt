// One set of a cache.
ghost use Rattle.std.specs.Prelude.{◌≡◌, ◌≢◌, ◌+◌, ◌<◌, ◌≤◌, [], ◌∷◌, ◌++◌, length, take, drop, Some, None, IsSome, IfSome, IfNone, IfOk, All, slice_get};
ghost use Rattle.std.specs.Option.{option_map};
ghost use Rattle.cache_tags.specs.Line.{new_line, victim};
ghost use Rattle.cache_tags.specs.Held.{of_address, in_way, used, written_in, leaving, with_line, line_info, IsSoundSet};

use crate::place::{LineAt, Place, Victim};
use crate::stored::{Stored, pad, put};
use gc_base::NoMemory;
use std::alloc::Global;
use std::marker::Model;
use std::mem;

/// The rank of a way, if it is among these.
fn rank_of(order: &[u8], way: u8) -> Option<usize>
    ensures found { IfSome result (λ rank. slice_get order.now rank ≡ Some way) }
    ensures none { IfNone result (All (λ w. w ≢ way) order.now) }
{
    order.iter().position(|w| *w == way)
}

/// Puts a way in front of so many others, which move back by a place.
fn put_in_front(order: &mut [u8], others: usize, way: u8)
    requires { others < length order.old }
    ensures { order.new ≡ way ∷ take others order.old ++ drop (others + 1) order.old }
{
    let mut carried = way;
    for rank in 0..others + 1 {
        carried = mem::replace(&mut order[rank], carried);
    }
}

/// The lines of a set. Contracts see them the most recently used first, each with its way.
#[derive(Drop)]
pub(crate) struct Set {
    ways: u32,
    /// How many bytes a line has.
    line: u32,
    /// In front the ways that have a line, the most recently used first.
    order: [u8; 16],
    /// The lines by way.
    lines: Vec<Stored>,
}

impl Model for Set {
    ghost use Rattle.std.specs.Prelude.{vec_capacity};
    ghost use Rattle.cache_tags.specs.Held.{CacheSet};

    ghost Value = { CacheSet };

    ghost use Rattle.cache_tags.specs.Stored.{stored_set, IsStoredSet};

    ghost view = { λ s. stored_set s.ways s.line s.order s.lines.items };

    ghost invariant = { λ s. IsStoredSet s.ways s.line s.order s.lines.items (vec_capacity s.lines) };
}

impl Set {
    /// A set with no line.
    pub(crate) fn new(alloc: Global, ways: u32, line: u32) -> Result<Set, NoMemory>
        requires some { 0 < ways }
        requires ways { ways ≤ 16 }
        requires line { line ≤ 64 }
        ensures { IfOk result (λ s. s ≡ record { ways = ways; line = line; held = [] }) }
    {
        Ok(Set {
            ways,
            line,
            order: [0; 16],
            lines: Vec::with_capacity(alloc, ways as usize)?,
        })
    }

    /// The way of the line of an address.
    pub(crate) fn find(&self, addr: u64) -> Option<u32>
        ensures { result ≡ option_map (λ h. h.way) (of_address addr self.now.held) }
    {
        for way in &self.order[..self.lines.len()] {
            if self.lines[*way as usize].addr == addr {
                return Some(*way as u32);
            }
        }
        None
    }

    /// Makes the line in a way the most recently used.
    pub(crate) fn touch(&mut self, way: u32)
        requires { IsSome (in_way way self.old.held) }
        ensures used { self.new ≡ record self.old { held = used way self.old.held } }
        ensures sound { IsSoundSet self.new }
    {
        if let Some(rank) = rank_of(&self.order[..self.lines.len()], way as u8) {
            put_in_front(&mut self.order, rank, way as u8);
        }
    }

    /// The bytes of the line in a way.
    pub(crate) fn bytes(&self, way: u32) -> &[u8]
        requires { IsSome (in_way way self.now.held) }
        ensures bytes { option_map (λ h. h.line.bytes) (in_way way self.now.held) ≡ Some result.now }
        ensures whole { length result.now ≡ self.now.line }
    {
        &self.lines[way as usize].bytes[..self.line as usize]
    }

    /// Writes bytes to the line in a way, from an offset on. It is dirty then.
    pub(crate) fn write(&mut self, way: u32, offset: usize, bytes: &[u8])
        requires way { IsSome (in_way way self.old.held) }
        requires fits { offset + length bytes.now ≤ self.old.line }
        ensures written { self.new ≡ record self.old { held = written_in way offset bytes.now self.old.held } }
        ensures sound { IsSoundSet self.new }
    {
        let line = &mut self.lines[way as usize];
        put(&mut line.bytes, offset, bytes);
        line.dirty = true;
    }

    /// Takes a line in, as the most recently used, and gives the one that leaves.
    pub(crate) fn install(&mut self, addr: u64, bytes: &[u8], dirty: bool) -> Option<Victim>
        requires whole { length bytes.now ≡ self.old.line }
        requires absent { of_address addr self.old.held ≡ None }
        ensures installed { self.new ≡ record self.old { held = with_line self.old.ways (new_line addr dirty bytes.now) self.old.held } }
        ensures victim { result ≡ option_map (λ h. victim h.line) (leaving self.old.ways self.old.held) }
        ensures sound { IsSoundSet self.new }
    {
        let taken = self.lines.len();
        let bytes = pad(bytes);
        let line = Stored { addr, dirty, bytes };
        if taken < self.ways as usize {
            self.lines.push_reserved(line);
            put_in_front(&mut self.order, taken, taken as u8);
            return None;
        }
        let way = self.order[taken - 1];
        let left = mem::replace(&mut self.lines[way as usize], line);
        put_in_front(&mut self.order, taken - 1, way);
        Some(Victim {
            addr: left.addr,
            dirty: left.dirty,
            bytes: pad(&left.bytes[..self.line as usize]),
        })
    }

    /// Takes all lines out.
    pub(crate) fn clear(&mut self)
        ensures { self.new ≡ record self.old { held = [] } }
    {
        self.lines.clear();
    }

    /// The n-th line, the most recently used first, as one of the set with this number.
    pub(crate) fn nth(&self, set: u32, n: u32) -> Option<LineAt>
        ensures { result ≡ option_map (line_info set) (slice_get self.now.held n) }
    {
        let way = self.order[..self.lines.len()].get(n as usize)?;
        let line = &self.lines[*way as usize];
        Some(LineAt {
            addr: line.addr,
            dirty: line.dirty,
            at: Place {
                set,
                way: *way as u32,
            },
        })
    }
}
