// How an instruction or a trap ends.
ghost use Rattle.std.specs.Prelude.{◌≡◌, IsTrue, IfSome};
ghost use Rattle.ev_queue.specs.SlotTable.{gave};
ghost use Rattle.rv_table.specs.Inst.{HasRegisters};
ghost use Rattle.rv_table.specs.Table.{decode_of};
ghost use Rattle.gm_model.specs.AtomicCpu.{cpu_ends, cpu_retires, cpu_traps};
ghost use Rattle.obj_core.specs.Out.{HasRoom};
ghost use Rattle.obj_core.specs.Step.{Takes};

use crate::sequencer::Sequencer;
use crate::stage::Stage;
use cpu_hart::{retire, trap};
use ev_queue::EventQueue;
use gc_base::Tick;
use gm_model::Entry;
use obj_core::Outbox;
use rv_step::Arch;
use rv_table::Inst;

impl Sequencer {
    ghost use Rattle.gm_model.specs.ObjState.{AtomicCpu};
    ghost use Rattle.cpu_atomic.specs.Shown.{cpu_state};

    /// An instruction or a trap is over: the next event comes at a tick, unless the hart sleeps.
    #[inline(always)]
    pub(crate) fn ends(
        &mut self,
        a: &Arch,
        at: Tick,
        e: Entry,
        q: &mut EventQueue,
        out: &mut Outbox,
    )
        requires known { IsTrue (gave q.old.table self.old.object.0 0 50) }
        requires room { HasRoom out.old }
        ensures { let before = cpu_state self.old (Some a.now) in
            Takes (cpu_ends before a.now out.old.next at e a.now.asleep)
            (AtomicCpu before) (AtomicCpu (cpu_state self.new (Some a.now))) q.old q.new out.old out.new }
    {
        self.stage = Stage::Rest;
        out.note(e);
        if a.asleep {
            out.note(Entry::Slept);
        } else {
            q.reschedule(&self.handle, at);
            self.due = true;
        }
    }

    /// The word at pc retires, with the number that its load got.
    #[inline(always)]
    pub(crate) fn retires(
        &mut self,
        a: &mut Arch,
        at: Tick,
        word: u32,
        inst: &Option<Inst>,
        v: u64,
        q: &mut EventQueue,
        out: &mut Outbox,
    )
        requires decoded { inst.now ≡ decode_of word }
        requires registers { IfSome inst.now HasRegisters }
        requires known { IsTrue (gave q.old.table self.old.object.0 0 50) }
        requires room { HasRoom out.old }
        ensures { let before = cpu_state self.old (Some a.old) in
            Takes (cpu_retires before a.old out.old.next at word v)
            (AtomicCpu before) (AtomicCpu (cpu_state self.new (Some a.new))) q.old q.new out.old out.new }
    {
        let pc = a.pc;
        retire(a, word, inst, v);
        self.ends(a, at, Entry::Retired { pc, word }, q, out);
    }

    /// It traps.
    pub(crate) fn traps(
        &mut self,
        a: &mut Arch,
        at: Tick,
        cause: u64,
        tval: u64,
        q: &mut EventQueue,
        out: &mut Outbox,
    )
        requires known { IsTrue (gave q.old.table self.old.object.0 0 50) }
        requires room { HasRoom out.old }
        ensures { let before = cpu_state self.old (Some a.old) in
            Takes (cpu_traps before a.old out.old.next at cause tval)
            (AtomicCpu before) (AtomicCpu (cpu_state self.new (Some a.new))) q.old q.new out.old out.new }
    {
        let entry = trap(a, cause, tval);
        self.ends(a, at, entry, q, out);
    }
}
