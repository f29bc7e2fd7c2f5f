// The statistics: the counters by name, as lines of text.
ghost use Rattle.std.specs.Prelude.{◌≡◌, ◌↔◌, ◌+◌, ◌-◌, ◌*◌, ◌<◌, ◌≤◌, ◌++◌, IsTrue, IfSome, length, map, option_map, slice_get};
ghost use Rattle.std.specs.Bool.{OnFalse};
ghost use Rattle.gm_words.specs.Shown.{part_shown};
ghost use Rattle.probe_stats.specs.Stats.{count_at, machine_pairs, pair, refused_by, cache_paths, caches_pairs, stats_line, stats_pairs};
ghost use Rattle.probe_stats.specs.Shown.{pair_shown};

use super::Counters;
use gc_base::Tick;
use gc_text::{LineBuf, MAX_LINE, put_dec, put_text};
use gm_words::Part;

/// The name of a counter, and its number.
#[derive(Clone, Copy)]
pub(super) struct Pair {
    pub(super) name: &'static str,
    pub(super) number: u64,
}

/// How many pairs a cache has.
const CACHE_PAIRS: usize = 3;

impl Counters {
    /// Appends the n-th line of the statistics at a tick, with its line feed, or answers false where there are no more.
    pub fn text_line(&self, n: u32, now: Tick, b: &mut LineBuf) -> bool
        requires room { length b.old + 64 ≤ MAX_LINE }
        ensures more { IsTrue result ↔ (n < length (stats_pairs self.now now)) }
        ensures value { IfSome (slice_get (stats_pairs self.now now) n) (λ p. b.new ≡ b.old ++ stats_line p) }
        ensures none { OnFalse result (b.new ≡ b.old) }
    {
        match self.pair(n as usize, now) {
            Some(pair) => {
                put_pair(b, pair);
                true
            }
            None => false,
        }
    }

    /// The n-th pair at a tick.
    pub(super) fn pair(&self, n: usize, now: Tick) -> Option<Pair>
        ensures value { option_map pair_shown result ≡ slice_get (stats_pairs self.now now) n }
        ensures caches { self.now.caches ≤ 3 }
    {
        let caches = CACHE_PAIRS * self.caches;
        if n < caches {
            picked(&self.cache_pairs(), n)
        } else {
            picked(&self.machine_pairs(now), n - caches)
        }
    }

    /// The pairs of all caches that may be configured.
    fn cache_pairs(&self) -> [Pair; 9]
        ensures { map pair_shown result ≡ caches_pairs self.now cache_paths }
    {
        [
            self.hits_of("cache1", "cache1.hits"),
            self.misses_of("cache1", "cache1.misses"),
            self.refused_by("cache1", "cache1.refused"),
            self.hits_of("cache2", "cache2.hits"),
            self.misses_of("cache2", "cache2.misses"),
            self.refused_by("cache2", "cache2.refused"),
            self.hits_of("cache3", "cache3.hits"),
            self.misses_of("cache3", "cache3.misses"),
            self.refused_by("cache3", "cache3.refused"),
        ]
    }

    /// The pairs of all machines.
    fn machine_pairs(&self, now: Tick) -> [Pair; 12]
        ensures { map pair_shown result ≡ machine_pairs self.now now }
    {
        [
            self.refused_by("corebus", "corebus.refused"),
            named("cpu.retired", self.retired),
            named("cpu.sleeps", self.sleeps),
            named("cpu.traps", self.traps),
            named("device.reads", self.device_reads),
            named("device.writes", self.device_writes),
            self.refused_by("mem", "mem.refused"),
            self.refused_by("membus", "membus.refused"),
            named("ram.reads", self.ram_reads),
            named("ram.writes", self.ram_writes),
            named("sim.events", self.events),
            named("sim.ticks", now.get().saturating_sub(self.since.get())),
        ]
    }

    /// How often the cache with this path had a line, by this name.
    fn hits_of(&self, path: &str, name: &'static str) -> Pair
        ensures { pair_shown result ≡ pair name.now (count_at self.now.parts self.now.counts.hits path.now) }
    {
        named(name, count_at(&self.parts, &self.hits, path))
    }

    /// How often the cache with this path didn't have a line, by this name.
    fn misses_of(&self, path: &str, name: &'static str) -> Pair
        ensures { pair_shown result ≡ pair name.now (count_at self.now.parts self.now.counts.misses path.now) }
    {
        named(name, count_at(&self.parts, &self.misses, path))
    }

    /// How often the part with this path refused an offer, by this name.
    fn refused_by(&self, path: &str, name: &'static str) -> Pair
        ensures { pair_shown result ≡ pair name.now (refused_by self.now path.now) }
    {
        named(name, count_at(&self.parts, &self.refused, path))
    }
}

fn picked(pairs: &[Pair], n: usize) -> Option<Pair>
    ensures { option_map pair_shown result ≡ slice_get (map pair_shown pairs.now) n }
{
    pairs.get(n).copied()
}

fn named(name: &'static str, number: u64) -> Pair
    ensures { pair_shown result ≡ pair name.now number }
{
    Pair { name, number }
}

/// The count of the part with this path, or 0 where there is no such part.
fn count_at(parts: &[Part], counts: &[u64], path: &str) -> u64
    ensures { result ≡ count_at (map part_shown parts.now) counts.now path.now }
{
    for (part, count) in parts.iter().zip(counts) {
        if part.path == path {
            return *count;
        }
    }
    0
}

/// Appends the line of a pair.
#[tactic(auto, using(gc_text::proofs::DecimalLemmas::decimal_is_short))]
fn put_pair(b: &mut LineBuf, pair: Pair)
    requires room { length b.old + 64 ≤ MAX_LINE }
    requires short { length pair.name.now ≤ 32 }
    ensures { b.new ≡ b.old ++ stats_line (pair_shown pair) }
{
    put_text(b, pair.name.as_bytes());
    put_text(b, b" ");
    put_dec(b, pair.number);
    put_text(b, b"\n");
}
