// How often what was noted.
ghost use Rattle.std.specs.Prelude.{◌≡◌, ℕ, ◌+◌, ◌-◌, ◌^◌, ◌<◌, length, replicate, vec_len, IfOk};
ghost use Rattle.cfg_tree.specs.Valid.{IsValidConfig};
ghost use Rattle.gm_words.specs.Counts.{count_entry, count_access, one_more_at};
ghost use Rattle.probe_stats.specs.Counted.{begun_at, cleared_at, IsBelowAt, IsAccessBelow, IsRaisedBelow};

use gc_base::{NoMemory, ObjId, Tick};
use gm_words::{Config, Entry, Part, platform};
use std::alloc::Global;
use std::marker::Model;

mod json;
mod stats;
#[cfg(test)]
mod tests;
mod trace;

/// How often what was noted since a tick, of the parts of a machine each, and how many events there were.
#[derive(Drop)]
pub struct Counters {
    retired: u64,
    sleeps: u64,
    traps: u64,
    device_reads: u64,
    device_writes: u64,
    ram_reads: u64,
    ram_writes: u64,
    hits: Vec<u64>,
    misses: Vec<u64>,
    refused: Vec<u64>,
    events: u64,
    since: Tick,
    parts: Vec<Part>,
    /// How many caches are configured.
    caches: usize,
}

impl Model for Counters {
    ghost use Rattle.std.specs.Prelude.{◌≡◌, ◌≤◌, length, map, All};
    ghost use Rattle.gm_words.specs.Shown.{part_shown};
    ghost use Rattle.probe_stats.specs.Counted.{Counted, HasShortPath};

    ghost Value = { Counted };

    ghost view = { λ c. record {
      counts = record {
        retired = c.retired;
        sleeps = c.sleeps;
        traps = c.traps;
        device_reads = c.device_reads;
        device_writes = c.device_writes;
        ram_reads = c.ram_reads;
        ram_writes = c.ram_writes;
        hits = c.hits.items;
        misses = c.misses.items;
        refused = c.refused.items;
        events = c.events;
      };
      since = c.since;
      parts = map part_shown c.parts.items;
      caches = c.caches;
    } };

    ghost invariant = { λ c. (c.caches ≤ 3) × All HasShortPath (map part_shown c.parts.items)
        × (length c.hits.items ≡ length c.parts.items)
        × (length c.misses.items ≡ length c.parts.items)
        × (length c.refused.items ≡ length c.parts.items) };
}

impl Counters {
    /// The counters of a configuration's machine, all 0, since tick 0. No other call but `json` takes memory.
    pub fn new(alloc: Global, c: &Config) -> Result<Counters, NoMemory>
        requires { IsValidConfig c.now }
        ensures { IfOk result (λ t. t ≡ begun_at c.now 0) }
    {
        let rows = platform::parts(alloc, c)?;
        let parts = rows.len();
        Ok(Counters {
            retired: 0,
            sleeps: 0,
            traps: 0,
            device_reads: 0,
            device_writes: 0,
            ram_reads: 0,
            ram_writes: 0,
            hits: vec![in alloc; 0; parts]?,
            misses: vec![in alloc; 0; parts]?,
            refused: vec![in alloc; 0; parts]?,
            events: 0,
            since: start(),
            parts: rows,
            caches: c.caches.items().len(),
        })
    }

    /// Begins anew at a tick: all counters are 0.
    pub fn clear(&mut self, now: Tick)
        ensures { self.new ≡ cleared_at self.old now }
    {
        self.retired = 0;
        self.sleeps = 0;
        self.traps = 0;
        self.device_reads = 0;
        self.device_writes = 0;
        self.ram_reads = 0;
        self.ram_writes = 0;
        forget(&mut self.hits);
        forget(&mut self.misses);
        forget(&mut self.refused);
        self.events = 0;
        self.since = now;
    }

    /// Counts an entry, where the counter that it raises is below 2^64 - 1.
    pub fn note(&mut self, e: &Entry)
        requires { IsRaisedBelow (2 ^ 64 - 1) self.old.counts e.now }
        ensures { self.new ≡ record self.old { counts = count_entry self.old.counts e.now } }
    {
        match e {
            Entry::Served { write, device, .. } => self.note_access(*device, *write),
            Entry::Retired { .. } => self.retired += 1,
            Entry::Trapped { .. } => self.traps += 1,
            Entry::Line { .. } => {}
            Entry::Slept => self.sleeps += 1,
            Entry::Hit { object } => count_one(&mut self.hits, *object),
            Entry::Miss { object } => count_one(&mut self.misses, *object),
            Entry::Refused { object } => count_one(&mut self.refused, *object),
        }
    }

    /// Counts an access, by whether it is of a device and whether it writes.
    fn note_access(&mut self, device: bool, write: bool)
        requires { IsAccessBelow (2 ^ 64 - 1) self.old.counts device write }
        ensures { self.new ≡ record self.old { counts = count_access self.old.counts device write } }
    {
        match (device, write) {
            (true, true) => self.device_writes += 1,
            (true, false) => self.device_reads += 1,
            (false, true) => self.ram_writes += 1,
            (false, false) => self.ram_reads += 1,
        }
    }

    /// Counts an event.
    pub fn event(&mut self)
        requires { self.old.counts.events < 2 ^ 64 - 1 }
        ensures { self.new ≡ record self.old { counts = record self.old.counts { events = self.old.counts.events + 1 } } }
    {
        self.events += 1;
    }

    /// How many instructions retired.
    #[inline(always)]
    pub fn retired(&self) -> u64
        ensures { result ≡ self.now.counts.retired }
    {
        self.retired
    }

    /// The tick since when it has counted.
    pub fn since(&self) -> Tick
        ensures { result ≡ self.now.since }
    {
        self.since
    }
}

/// Tick 0.
fn start() -> Tick
    ensures { result ≡ 0 }
{
    match Tick::new(0) {
        Some(tick) => tick,
        None => unreachable!(),
    }
}

/// Makes all counts 0.
fn forget(counts: &mut Vec<u64>)
    ensures { counts.new.items ≡ replicate (length counts.old.items) 0 }
{
    counts.as_mut_slice().fill(0);
}

/// Counts one more of an object, if there is such a one.
fn count_one(counts: &mut Vec<u64>, object: ObjId)
    requires { IsBelowAt (2 ^ 64 - 1) counts.old.items object.0 }
    ensures more { counts.new.items ≡ one_more_at counts.old.items object.0 }
    ensures count { length counts.new.items ≡ length counts.old.items }
{
    let place = object.0 as usize;
    if place < counts.len() {
        counts[place] += 1;
    }
}
