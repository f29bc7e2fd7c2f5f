// A cache on its own, with the queue that gave its handles.
ghost use Rattle.std.specs.Prelude.{◌≡◌, ◌*◌, ◌≤◌, ◌==◌, ◌||◌, length, IsTrue};
ghost use Rattle.ev_queue.specs.SlotTable.{GivesHandle};
ghost use Rattle.gm_words.specs.Allowed.{MayPass, MayCome};
ghost use Rattle.gm_cache.specs.State.{packets_in};
ghost use Rattle.obj_core.specs.Out.{HasRoom};
ghost use Rattle.cfg_tree.specs.Valid.{IsUpTo, IsValidCache};
ghost use Rattle.obj_cache.specs.Shown.{shown};
ghost use Rattle.obj_cache.specs.Step.{HasBoth};

use crate::Cache;
use ev_queue::{EventHandle, EventQueue};
use gc_base::limits::{
    LATENCY_MAX, MISS_REGISTERS_MAX, SETS_MAX, TARGETS_MAX, TOP, WAYS_MAX, WRITE_QUEUE_MAX,
};
use gc_base::{NoMemory, ObjId, SlotNo, Tick};
use gm_model::{Answer, CacheConfig, Own, Params, Wake};
use obj_core::Outbox;
use std::alloc::Global;
use std::process::Abort;

/// A cache, the queue that gave its handles, and how often it was woken: each time it may hold two packets more.
#[derive(Drop)]
pub(super) struct Bench {
    pub(super) part: Cache,
    pub(super) queue: EventQueue,
    wakes: u32,
    ghost few: { length (packets_in (shown part)) ≤ 2 * wakes },
    ghost given: { HasBoth queue.table (shown part).common.object },
}

/// The handle of a slot.
fn handle<const CLASS: u8>(rt: &impl Abort, queue: &mut EventQueue, slot: u8) -> EventHandle<CLASS>
    ensures handle { result ≡ record { owner = 0; slot = slot } }
    ensures once { GivesHandle queue.old.table queue.new.table 0 slot CLASS }
{
    queue
        .handle::<CLASS>(ObjId(0), SlotNo(slot))
        .expect(rt, "a slot")
}

impl Bench {
    /// A cache of lines of so many bytes, at its start.
    pub(super) fn new(
        rt: &impl Abort,
        alloc: Global,
        line: u32,
        config: &CacheConfig,
    ) -> Result<Bench, NoMemory>
        requires line { IsTrue ((line == 16) || (line == 32) || (line == 64)) }
        requires config { IsValidCache config.now }
    {
        let mut queue = EventQueue::new(alloc, &[2])?;
        let response = handle::<0>(rt, &mut queue, 0);
        let request = handle::<10>(rt, &mut queue, 1);
        let params = Params {
            object: ObjId(0),
            line,
            ram: 4096,
            own: Own::Exit { latency: 1 },
        };
        let part = Cache::start(alloc, &params, 4, config, response, request)?;
        Ok(Bench {
            part,
            queue,
            wakes: 0,
        })
    }

    /// Wakes it.
    pub(super) fn wake(&mut self, rt: &impl Abort, now: Tick, w: &Wake, out: &mut Outbox) -> Answer
        requires { HasRoom out.old }
    {
        assert!(rt; now.get() <= TOP);
        assert!(rt; may_come(w));
        assert!(rt; self.wakes < 250);
        self.wakes += 1;
        self.part.wake(w, now, &mut self.queue, out)
    }
}

/// Whether a wake is one that comes to caches.
fn may_come(w: &Wake) -> bool
    ensures { IsTrue result → MayCome w.now }
{
    match w {
        Wake::Offer { pkt, .. } => pkt.size <= 64,
        Wake::Line { .. } | Wake::AtomicDone { .. } => false,
        Wake::Event { .. } | Wake::Taken { .. } | Wake::Refused { .. } | Wake::Retry { .. } => true,
    }
}

/// Whether a cache may be configured so.
pub(super) fn is_valid(config: &CacheConfig) -> bool
    ensures { IsTrue result → IsValidCache config.now }
{
    config.sets.is_power_of_two()
        && is_up_to(SETS_MAX, config.sets)
        && is_up_to(WAYS_MAX, config.ways)
        && is_up_to(MISS_REGISTERS_MAX, config.mshrs)
        && is_up_to(TARGETS_MAX, config.targets)
        && is_up_to(WRITE_QUEUE_MAX, config.writeq)
        && is_up_to(LATENCY_MAX, config.latency)
}

/// Whether a number is from 1 to another.
fn is_up_to(most: u32, n: u64) -> bool
    ensures { IsTrue result → IsUpTo most n }
{
    1 <= n && n <= most as u64
}
