// A configured CPU.
ghost use Rattle.std.specs.Prelude.{◌≡◌, ◌^◌, ◌≤◌, IsTrue, false, Some};
ghost use Rattle.ev_queue.specs.SlotTable.{gave};
ghost use Rattle.gm_model.specs.AtomicCpu.{cpu_event, cpu_done, cpu_lined, is_resting};
ghost use Rattle.gm_model.specs.Command.{drain_step, resume_step, is_drained};
ghost use Rattle.gm_words.specs.HartLine.{is_line};
ghost use Rattle.gm_words.specs.declared.own.Own.TheVariants as owns;
ghost use Rattle.gc_base.specs.declared.limits.TheConstants.{PERIOD_MAX};
ghost use Rattle.obj_core.specs.Out.{HasRoom};
ghost use Rattle.obj_core.specs.Step.{Takes};

use crate::sequencer::Sequencer;
use crate::stage::Stage;
use cpu_hart::{is_asleep, is_awake, word};
use ev_queue::{EventHandle, EventQueue};
use gc_base::Tick;
use gc_base::limits::TOP;
use gm_model::{Packet, Params};
use obj_core::Outbox;
use rv_step::Arch;

/// A configured CPU. It is the active one where it has the hart.
#[derive(Drop)]
pub struct Configured {
    pub(crate) sequencer: Sequencer,
    pub(crate) arch: Option<Arch>,
}

impl Configured {
    ghost use Rattle.gm_model.specs.ObjState.{AtomicCpu};
    ghost use Rattle.obj_core.specs.Events.{with_changes};
    ghost use Rattle.gm_model.specs.Command.{start_of};
    ghost use Rattle.cpu_atomic.specs.Kept.{stage_of};
    ghost use Rattle.cpu_atomic.specs.Shown.{shown, cpu_state};

    // Set-up.

    /// One at its start, which is inactive.
    pub(crate) fn start(params: &Params, period: u64, handle: EventHandle<50>) -> Configured
        requires owner { handle.owner ≡ params.now.object.0 }
        requires slot { handle.slot ≡ 0 }
        requires least { 1 ≤ period }
        requires most { period ≤ PERIOD_MAX }
        ensures { shown (Some result) ≡ start_of params.now (owns.AtomicCpu period) }
    {
        let sequencer = Sequencer {
            handle,
            object: params.object,
            line: params.line,
            ram: params.ram,
            timing: false,
            draining: true,
            period: period as u32,
            stage: Stage::Rest,
            due: false,
        };
        Configured {
            sequencer,
            arch: None,
        }
    }

    // Own events.

    /// Its event is served: it begins an instruction, where it is at rest and awake.
    #[inline(always)]
    pub(crate) fn event(&mut self, now: Tick, q: &mut EventQueue, out: &mut Outbox)
        requires known { IsTrue (gave q.old.table self.old.sequencer.object.0 0 50) }
        requires room { HasRoom out.old }
        requires tick { now ≤ TOP }
        ensures { let before = cpu_state self.old.sequencer self.old.arch in
            Takes (cpu_event (record before { due = false }) out.old.next now self.old.arch
            (stage_of self.old.sequencer.stage))
            (shown (Some self.old)) (shown (Some self.new)) q.old q.new out.old out.new }
    {
        self.sequencer.due = false;
        if let (Some(a), Stage::Rest) = (&mut self.arch, self.sequencer.stage) {
            if !a.asleep {
                self.sequencer.begins(a, now, q, out);
            }
        }
    }

    // Responses and interrupt lines.

    /// Its packet was served, which took a latency.
    #[inline(always)]
    pub(crate) fn done(
        &mut self,
        now: Tick,
        p: &Packet,
        latency: u64,
        q: &mut EventQueue,
        out: &mut Outbox,
    )
        requires known { IsTrue (gave q.old.table self.old.sequencer.object.0 0 50) }
        requires room { HasRoom out.old }
        requires tick { now ≤ TOP }
        requires latency { latency ≤ 2 ^ 32 }
        ensures { let before = cpu_state self.old.sequencer self.old.arch in
            Takes (cpu_done before out.old.next now p.now latency self.old.arch
            (stage_of self.old.sequencer.stage))
            (shown (Some self.old)) (shown (Some self.new)) q.old q.new out.old out.new }
    {
        let Some(a) = &mut self.arch else {
            return;
        };
        match self.sequencer.stage {
            Stage::Rest => {}
            Stage::AwaitFetch => self
                .sequencer
                .fetched(a, now, latency, word(&p.bytes), q, out),
            Stage::AwaitData {
                word,
                latency: before,
            } => {
                // A copy, so that the wakes that need none of the packet's bytes don't copy it.
                let response = *p;
                let at = self.sequencer.end(now, before + latency);
                self.sequencer.accessed(a, at, &response, word, q, out);
            }
        }
    }

    /// An interrupt line has a new level.
    pub(crate) fn lined(
        &mut self,
        now: Tick,
        bit: u8,
        level: bool,
        q: &mut EventQueue,
        out: &mut Outbox,
    )
        requires known { IsTrue (gave q.old.table self.old.sequencer.object.0 0 50) }
        requires room { HasRoom out.old }
        requires tick { now ≤ TOP }
        requires line { IsTrue (is_line bit) }
        ensures { let before = cpu_state self.old.sequencer self.old.arch in
            Takes (cpu_lined before out.old.next now bit level self.old.arch)
            (shown (Some self.old)) (shown (Some self.new)) q.old q.new out.old out.new }
    {
        if let Some(a) = &mut self.arch {
            self.sequencer.lined(a, now, bit, level, q, out);
        }
    }

    // Drain and resume.

    /// Whether it stands between two instructions.
    fn is_resting(&self) -> bool
        ensures { result ≡ is_resting (stage_of self.now.sequencer.stage) }
    {
        match self.sequencer.stage {
            Stage::Rest => true,
            Stage::AwaitFetch => false,
            Stage::AwaitData { .. } => false,
        }
    }

    /// Whether it stands between two instructions, and its event isn't pending.
    pub(crate) fn drained(&self) -> bool
        ensures { result ≡ is_drained (shown (Some self.now)) }
    {
        self.is_resting() && !self.sequencer.due
    }

    /// Lets it begin nothing new.
    pub(crate) fn drain(&mut self, q: &mut EventQueue)
        requires known { IsTrue (gave q.old.table self.old.sequencer.object.0 0 50) }
        ensures state { shown (Some self.new) ≡ (drain_step (shown (Some self.old))).state }
        ensures events { q.new ≡ with_changes q.old (shown (Some self.old)) (drain_step (shown (Some self.old))).changes }
    {
        self.sequencer.draining = true;
        if self.is_resting() || is_asleep(&self.arch) {
            q.deschedule(&self.sequencer.handle);
            self.sequencer.due = false;
        }
    }

    /// Lets it go on.
    pub(crate) fn resume(&mut self, now: Tick, q: &mut EventQueue)
        requires known { IsTrue (gave q.old.table self.old.sequencer.object.0 0 50) }
        requires tick { now ≤ TOP }
        ensures state { shown (Some self.new) ≡ (resume_step (shown (Some self.old)) now).state }
        ensures events { q.new ≡ with_changes q.old (shown (Some self.old)) (resume_step (shown (Some self.old)) now).changes }
    {
        self.sequencer.draining = false;
        if is_awake(&self.arch) {
            self.sequencer.goes_on(now, q);
        }
    }
}
