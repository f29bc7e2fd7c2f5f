// The lines of a cache, by set, and what a line does with a request.
ghost use Rattle.std.specs.Prelude.{◌≡◌, ◌-◌, ◌%◌, ◌<◌, ◌≤◌, ◌==◌, ◌||◌, [], length, take, drop, replicate, None, IfOk, IsSome, IfSome, is_some, IsTrue};
ghost use Rattle.std.specs.Option.{option_map};
ghost use Rattle.std.specs.Int.{is_power_of_two};
ghost use Rattle.cache_tags.specs.Kept.{line_at, IsSoundCache};
ghost use Rattle.cache_tags.specs.Line.{new_line, leaving_line, victim};
ghost use Rattle.obj_cache.specs.Held.{IsTarget};
ghost use Rattle.gc_base.specs.declared.limits.TheConstants.{WAYS_MAX};
ghost use Rattle.gm_words.specs.Allowed.{MayPass};
ghost use Rattle.gm_model.specs.Xbar.{read_of};
ghost use Rattle.obj_cache.specs.Commands.{told};
ghost use Rattle.obj_core.specs.Lines.{line_info, line_bytes};
ghost use Rattle.obj_cache.specs.Sets.{nth_in, set_at, line_in, served_in, response_by, response_in, come_to, bytes_in};
ghost use Rattle.obj_cache.specs.LinesKept.{served_at};

use crate::answer::answer;
use cache_tags::{Place, Tags, Victim};
use gc_base::NoMemory;
use gm_model::{Cmd, Packet};
use obj_core::LineInfo;
use std::alloc::Global;
use std::marker::Model;

/// The lines of a cache, by set, the most recently used first.
#[derive(Drop)]
pub(crate) struct Lines {
    tags: Tags,
}

impl Model for Lines {
    ghost use Rattle.obj_cache.specs.Sets.{Sets};
    ghost use Rattle.obj_cache.specs.LinesKept.{shown, AreLines};

    ghost Value = { Sets };

    ghost view = { λ l. shown l.tags };

    ghost invariant = { λ l. AreLines l.tags };
}

impl Lines {
    /// So many sets with so many ways, of lines of so many bytes, and no line.
    pub(crate) fn new(alloc: Global, sets: u32, ways: u32, line: u32) -> Result<Lines, NoMemory>
        requires power { IsTrue (is_power_of_two sets) }
        requires some { 0 < ways }
        requires few { ways ≤ WAYS_MAX }
        requires line { IsTrue ((line == 16) || (line == 32) || (line == 64)) }
        ensures { IfOk result (λ l. l ≡ record { ways = ways; line = line; lines = replicate sets [] }) }
    {
        Ok(Lines {
            tags: Tags::new(alloc, sets, ways, line)?,
        })
    }

    /// Whether the line that begins at an address is there.
    pub(crate) fn has(&self, addr: u64) -> bool
        requires { addr % self.now.line ≡ 0 }
        ensures { result ≡ is_some (line_in self.now addr) }
    {
        self.tags.find(addr).is_some()
    }

    /// The line at an address serves a request and becomes the most recently used of its set; false if it isn't there. The request
    /// becomes its response; a write-back, which has none, stays as it is.
    pub(crate) fn serve(&mut self, addr: u64, p: &mut Packet) -> bool
        requires target { IsTarget self.old.line addr p.old }
        ensures served { result ≡ is_some (line_in self.old addr) }
        ensures lines { self.new ≡ served_in self.old (line_in self.old addr) p.old }
        ensures packet { p.new ≡ response_in (line_in self.old addr) p.old }
    {
        match self.tags.find(addr) {
            Some(at) => {
                self.tags.touch(at);
                serve_at(&mut self.tags, at, addr, p);
                true
            }
            None => false,
        }
    }

    /// A line, which isn't there, comes as the most recently used of its set. Gives the line that leaves, where no way is free.
    pub(crate) fn install(&mut self, addr: u64, bytes: &[u8], dirty: bool) -> Option<Victim>
        requires aligned { addr % self.old.line ≡ 0 }
        requires whole { length bytes.now ≡ self.old.line }
        requires absent { line_in self.old addr ≡ None }
        ensures lines { self.new ≡ come_to self.old (new_line addr dirty bytes.now) }
        ensures victim { result ≡ option_map victim (leaving_line self.old.ways (set_at self.old addr)) }
    {
        self.tags.install(addr, bytes, dirty)
    }

    /// Forgets all lines.
    pub(crate) fn clear(&mut self)
        ensures { self.new ≡ record self.old { lines = replicate (length self.old.lines) [] } }
    {
        self.tags.clear();
    }

    /// What is told of the n-th line of a set, the most recently used first, and its bytes.
    pub(crate) fn line(&self, set: u32, n: u32, bytes: &mut [u8; 64]) -> Option<LineInfo>
        ensures line { result ≡ option_map (λ l. line_info (told set l)) (nth_in self.now set n) }
        ensures bytes { bytes.new ≡ line_bytes (option_map (told set) (nth_in self.now set n)) bytes.old }
    {
        match self.tags.nth(set, n) {
            Some(line) => {
                let own = self.tags.bytes(line.at);
                bytes[..own.len()].copy_from_slice(own);
                Some(LineInfo {
                    set,
                    addr: line.addr,
                    dirty: line.dirty,
                })
            }
            None => None,
        }
    }

    /// Answers a read without time by the line of its address, if that is there.
    pub(crate) fn read(&self, p: &mut Packet) -> bool
        requires { MayPass p.old }
        ensures answered { result ≡ is_some (bytes_in self.now p.old.addr p.old.size) }
        ensures packet { p.new ≡ read_of p.old (bytes_in self.now p.old.addr p.old.size) }
    {
        match self.tags.find(p.addr) {
            Some(at) => {
                let line = self.tags.bytes(at);
                let from = p.addr % line.len() as u64;
                answer(p, line, from as usize);
                true
            }
            None => false,
        }
    }
}

/// The line at a place, which begins at an address, serves a request, and stays in its place.
fn serve_at(tags: &mut Tags, at: Place, addr: u64, p: &mut Packet)
    requires sound { IsSoundCache tags.old }
    requires most { tags.old.line ≤ 64 }
    requires there { IsSome (line_at tags.old at) }
    requires target { IsTarget tags.old.line addr p.old }
    ensures tags { tags.new ≡ served_at tags.old at (p.old.addr - addr) p.old p.old.cmd }
    ensures sound { IsSoundCache tags.new }
    ensures packet { IfSome (line_at tags.old at) (λ l. l.address ≡ addr → p.new ≡ response_by l p.old p.old.cmd) }
{
    let from = p.addr - addr;
    match p.cmd {
        Cmd::Read => answer(p, tags.bytes(at), from as usize),
        Cmd::Write => {
            tags.write(at, from as u32, &p.bytes[..p.size as usize]);
            p.cmd = Cmd::WriteResp;
        }
        Cmd::WriteBack => tags.write(at, from as u32, &p.bytes[..p.size as usize]),
        Cmd::ReadResp | Cmd::WriteResp => {}
    }
}
