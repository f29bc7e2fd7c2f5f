// What an interrupt line does to a CPU.
ghost use Rattle.std.specs.Prelude.{◌≡◌, ◌≤◌, IsTrue};
ghost use Rattle.ev_queue.specs.SlotTable.{gave};
ghost use Rattle.gm_model.specs.AtomicCpu.{cpu_line, goes_on};
ghost use Rattle.gm_words.specs.HartLine.{is_line};
ghost use Rattle.obj_core.specs.Out.{HasRoom};
ghost use Rattle.obj_core.specs.Step.{Takes};

use crate::sequencer::Sequencer;
use cpu_hart::set_line;
use ev_queue::EventQueue;
use gc_base::Tick;
use gc_base::limits::TOP;
use gm_model::Entry;
use obj_core::Outbox;
use rv_step::Arch;

impl Sequencer {
    ghost use Rattle.gm_model.specs.ObjState.{AtomicCpu};
    ghost use Rattle.cpu_atomic.specs.Shown.{cpu_state};

    /// An interrupt line has a new level, and a hart that it wakes goes on unless it is draining.
    pub(crate) fn lined(
        &mut self,
        a: &mut Arch,
        now: Tick,
        bit: u8,
        level: bool,
        q: &mut EventQueue,
        out: &mut Outbox,
    )
        requires known { IsTrue (gave q.old.table self.old.object.0 0 50) }
        requires room { HasRoom out.old }
        requires tick { now ≤ TOP }
        requires line { IsTrue (is_line bit) }
        ensures { let before = cpu_state self.old (Some a.old) in
            Takes (cpu_line before a.old out.old.next now bit level (goes_on before a.old bit level))
            (AtomicCpu before) (AtomicCpu (cpu_state self.new (Some a.new))) q.old q.new out.old out.new }
    {
        let slept = a.asleep;
        set_line(a, bit, level);
        out.note(Entry::Line { bit, level });
        if slept && !a.asleep && !self.draining {
            self.goes_on(now, q);
        }
    }
}
