// How an instruction or a trap ends.
ghost use Rattle.std.specs.Prelude.{◌≡◌, ◌≤◌, IsTrue, IfSome};
ghost use Rattle.ev_queue.specs.SlotTable.{gave};
ghost use Rattle.rv_table.specs.Inst.{HasRegisters};
ghost use Rattle.rv_table.specs.Table.{decode_of};
ghost use Rattle.gm_model.specs.TimingCpu.{tcpu_ends, tcpu_retires, tcpu_traps};
ghost use Rattle.obj_core.specs.Out.{HasRoom};
ghost use Rattle.obj_core.specs.Step.{Takes};

use crate::sequencer::Sequencer;
use crate::stage::Stage;
use cpu_hart::{retire, trap};
use ev_queue::EventQueue;
use gc_base::Tick;
use gc_base::limits::TOP;
use gm_model::Entry;
use obj_core::Outbox;
use rv_step::Arch;
use rv_table::Inst;

impl Sequencer {
    ghost use Rattle.gm_model.specs.ObjState.{TimingCpu};
    ghost use Rattle.cpu_timing.specs.Shown.{cpu_state};

    /// An instruction or a trap is over: the next event comes, unless the hart sleeps or the CPU drains.
    #[inline(always)]
    fn ends(&mut self, a: &Arch, now: Tick, e: Entry, q: &mut EventQueue, out: &mut Outbox)
        requires known { IsTrue (gave q.old.table self.old.object.0 0 50) }
        requires room { HasRoom out.old }
        requires tick { now ≤ TOP }
        ensures { let before = cpu_state self.old (Some a.now) in
            Takes (tcpu_ends before a.now out.old.next now e a.now.asleep)
            (TimingCpu before) (TimingCpu (cpu_state self.new (Some a.now))) q.old q.new out.old out.new }
    {
        self.stage = Stage::Between;
        out.note(e);
        if a.asleep {
            out.note(Entry::Slept);
        } else if !self.draining {
            self.goes_on(now, q);
        }
    }

    /// The word at pc retires, with the number that its load got.
    #[inline(always)]
    pub(crate) fn retires(
        &mut self,
        a: &mut Arch,
        now: Tick,
        word: u32,
        inst: &Option<Inst>,
        v: u64,
        q: &mut EventQueue,
        out: &mut Outbox,
    )
        requires decoded { inst.now ≡ decode_of word }
        requires registers { IfSome inst.now HasRegisters }
        requires known { IsTrue (gave q.old.table self.old.object.0 0 50) }
        requires room { HasRoom out.old }
        requires tick { now ≤ TOP }
        ensures { let before = cpu_state self.old (Some a.old) in
            Takes (tcpu_retires before a.old out.old.next now word v)
            (TimingCpu before) (TimingCpu (cpu_state self.new (Some a.new))) q.old q.new out.old out.new }
    {
        let pc = a.pc;
        retire(a, word, inst, v);
        self.ends(a, now, Entry::Retired { pc, word }, q, out);
    }

    /// It traps.
    pub(crate) fn traps(
        &mut self,
        a: &mut Arch,
        now: Tick,
        cause: u64,
        tval: u64,
        q: &mut EventQueue,
        out: &mut Outbox,
    )
        requires known { IsTrue (gave q.old.table self.old.object.0 0 50) }
        requires room { HasRoom out.old }
        requires tick { now ≤ TOP }
        ensures { let before = cpu_state self.old (Some a.old) in
            Takes (tcpu_traps before a.old out.old.next now cause tval)
            (TimingCpu before) (TimingCpu (cpu_state self.new (Some a.new))) q.old q.new out.old out.new }
    {
        let entry = trap(a, cause, tval);
        self.ends(a, now, entry, q, out);
    }
}
