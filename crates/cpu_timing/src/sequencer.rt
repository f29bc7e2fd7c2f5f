// When the events of a CPU come that is configured, and what it keeps between them.
ghost use Rattle.std.specs.Prelude.{◌≡◌, ◌≤◌, IsTrue, true};
ghost use Rattle.ev_queue.specs.PendingList.{event, rescheduled};
ghost use Rattle.ev_queue.specs.SlotTable.{gave};
ghost use Rattle.gm_words.specs.HartLine.{next_multiple};
ghost use Rattle.gc_base.specs.declared.limits.TheConstants.{PERIOD_MAX};

use crate::stage::Stage;
use cpu_hart::next_period;
use ev_queue::{EventHandle, EventQueue};
use gc_base::limits::TOP;
use gc_base::{ObjId, Tick};

/// A configured CPU without its hart: it takes the hart through its instructions.
#[derive(Drop)]
pub struct Sequencer {
    pub(crate) handle: EventHandle<50>,
    pub(crate) object: ObjId,
    pub(crate) line: u32,
    pub(crate) ram: u32,
    pub(crate) timing: bool,
    pub(crate) draining: bool,
    /// In ticks.
    pub(crate) period: u32,
    pub(crate) stage: Stage,
    /// Whether its event is pending.
    pub(crate) due: bool,
    ghost owner: { handle.owner ≡ object.0 },
    ghost slot: { handle.slot ≡ 0 },
    ghost least: { 1 ≤ period },
    ghost most: { period ≤ PERIOD_MAX },
}

impl Sequencer {
    /// Its event comes at the next multiple of the period.
    #[inline(always)]
    pub(crate) fn goes_on(&mut self, now: Tick, q: &mut EventQueue)
        requires known { IsTrue (gave q.old.table self.old.object.0 0 50) }
        requires tick { now ≤ TOP }
        ensures due { self.new ≡ record self.old { due = true } }
        ensures events { q.new ≡ record q.old {
          pending =
              rescheduled q.old.pending (event (next_multiple self.old.period now) 50 self.old.object.0 0);
        } }
    {
        q.reschedule(&self.handle, next_period(now, self.period));
        self.due = true;
    }
}
