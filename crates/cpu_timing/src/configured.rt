// A configured CPU.
ghost use Rattle.std.specs.Prelude.{◌≡◌, ◌≤◌, ℕ, IsTrue, false, Some};
ghost use Rattle.ev_queue.specs.SlotTable.{gave};
ghost use Rattle.gm_model.specs.TimingCpu.{tcpu_event, tcpu_response, tcpu_taken, tcpu_refused, tcpu_called, tcpu_lined, is_between};
ghost use Rattle.gm_model.specs.Command.{drain_step, resume_step, is_drained};
ghost use Rattle.gm_model.specs.Stepped.{stays};
ghost use Rattle.gm_words.specs.HartLine.{is_line};
ghost use Rattle.gm_words.specs.declared.own.Own.TheVariants as owns;
ghost use Rattle.gc_base.specs.declared.limits.TheConstants.{PERIOD_MAX};
ghost use Rattle.obj_core.specs.Out.{HasRoom};
ghost use Rattle.obj_core.specs.Step.{Takes};

use crate::hand::Hand;
use crate::sequencer::Sequencer;
use crate::stage::Stage;
use cpu_hart::packets::{DATA_SOURCE, FETCH_SOURCE};
use cpu_hart::{is_awake, set_line, word};
use ev_queue::{EventHandle, EventQueue};
use gc_base::Tick;
use gc_base::limits::TOP;
use gm_model::{Entry, Packet, Params};
use obj_core::Outbox;
use rv_step::Arch;

/// A configured CPU. It is the active one where it has the hart.
#[derive(Drop)]
pub struct Configured {
    pub(crate) sequencer: Sequencer,
    pub(crate) arch: Option<Arch>,
}

impl Configured {
    ghost use Rattle.gm_model.specs.ObjState.{TimingCpu};
    ghost use Rattle.obj_core.specs.Events.{with_changes};
    ghost use Rattle.gm_model.specs.Command.{start_of};
    ghost use Rattle.cpu_timing.specs.Quiet.{TakesQuietly};
    ghost use Rattle.cpu_timing.specs.Shown.{shown, cpu_state, stage_of};

    // Set-up.

    /// One at its start, which is inactive.
    pub(crate) fn start(params: &Params, period: u64, handle: EventHandle<50>) -> Configured
        requires owner { handle.owner ≡ params.now.object.0 }
        requires slot { handle.slot ≡ 0 }
        requires least { 1 ≤ period }
        requires most { period ≤ PERIOD_MAX }
        ensures { shown (Some result) ≡ start_of params.now (owns.TimingCpu period) }
    {
        let sequencer = Sequencer {
            handle,
            object: params.object,
            line: params.line,
            ram: params.ram,
            timing: false,
            draining: true,
            period: period as u32,
            stage: Stage::Between,
            due: false,
        };
        Configured {
            sequencer,
            arch: None,
        }
    }

    // Responses and own offers.

    /// A response comes, which is its own where its access is away.
    #[inline(always)]
    pub(crate) fn response(&mut self, now: Tick, p: &Packet, q: &mut EventQueue, out: &mut Outbox)
        requires known { IsTrue (gave q.old.table self.old.sequencer.object.0 0 50) }
        requires room { HasRoom out.old }
        requires tick { now ≤ TOP }
        ensures { let before = cpu_state self.old.sequencer self.old.arch in
            Takes (tcpu_response before out.old.next now p.now self.old.arch (stage_of self.old.sequencer.stage))
            (shown (Some self.old)) (shown (Some self.new)) q.old q.new out.old out.new }
    {
        let Some(a) = &mut self.arch else {
            return;
        };
        match self.sequencer.stage {
            Stage::Fetch(Hand::Away) if p.src == FETCH_SOURCE => {
                self.sequencer.fetched(a, now, word(&p.bytes), q, out);
            }
            Stage::Data {
                word,
                hand: Hand::Away,
            } if p.src == DATA_SOURCE => self.sequencer.accessed(a, now, p, word, q, out),
            _ => {}
        }
    }

    /// Its own offer was taken.
    #[inline(always)]
    pub(crate) fn taken(&mut self)
        ensures { let before = cpu_state self.old.sequencer self.old.arch in
            (n : ℕ) → tcpu_taken before n (stage_of self.old.sequencer.stage) ≡ stays (shown (Some self.new)) n }
    {
        match &mut self.sequencer.stage {
            Stage::Fetch(hand) => *hand = Hand::Away,
            Stage::Data { hand, .. } => *hand = Hand::Away,
            Stage::Between | Stage::Ready { .. } => {}
        }
    }

    /// Its own offer was refused: it keeps the packet until it is called.
    pub(crate) fn refused(&mut self)
        ensures { let before = cpu_state self.old.sequencer self.old.arch in
            (n : ℕ) → tcpu_refused before n (stage_of self.old.sequencer.stage) ≡ stays (shown (Some self.new)) n }
    {
        let stage = &mut self.sequencer.stage;
        match *stage {
            Stage::Fetch(Hand::Asks(p)) => *stage = Stage::Fetch(Hand::Held(p)),
            Stage::Data {
                word,
                hand: Hand::Asks(p),
            } => {
                *stage = Stage::Data {
                    word,
                    hand: Hand::Held(p),
                }
            }
            _ => {}
        }
    }

    /// It is called, and makes the offer that was refused once more.
    pub(crate) fn called(&mut self, out: &mut Outbox)
        requires room { HasRoom out.old }
        ensures { TakesQuietly (tcpu_called (cpu_state self.old.sequencer self.old.arch) out.old.next (stage_of self.old.sequencer.stage))
            (shown (Some self.new)) out.old out.new }
    {
        match self.sequencer.stage {
            Stage::Fetch(Hand::Held(p)) => self.sequencer.offers_fetch(&p, out),
            Stage::Data {
                word,
                hand: Hand::Held(p),
            } => self.sequencer.offers_access(word, &p, out),
            _ => {}
        }
    }

    // Own events and interrupt lines.

    /// Its event is served: it begins an instruction, where it is awake, or makes the access that the word asks for.
    #[inline(always)]
    pub(crate) fn event(&mut self, now: Tick, q: &mut EventQueue, out: &mut Outbox)
        requires known { IsTrue (gave q.old.table self.old.sequencer.object.0 0 50) }
        requires room { HasRoom out.old }
        requires tick { now ≤ TOP }
        ensures { let before = cpu_state self.old.sequencer self.old.arch in
            Takes (tcpu_event (record before { due = false }) out.old.next now self.old.arch
            (stage_of self.old.sequencer.stage))
            (shown (Some self.old)) (shown (Some self.new)) q.old q.new out.old out.new }
    {
        self.sequencer.due = false;
        let Some(a) = &mut self.arch else {
            return;
        };
        match self.sequencer.stage {
            Stage::Between => {
                if !a.asleep {
                    self.sequencer.begins(a, now, q, out);
                }
            }
            Stage::Ready { word } => self.sequencer.demands(a, word, out),
            Stage::Fetch(_) | Stage::Data { .. } => {}
        }
    }

    /// An interrupt line has a new level, and a hart that it wakes goes on unless the CPU is draining.
    pub(crate) fn lined(
        &mut self,
        now: Tick,
        bit: u8,
        level: bool,
        q: &mut EventQueue,
        out: &mut Outbox,
    )
        requires known { IsTrue (gave q.old.table self.old.sequencer.object.0 0 50) }
        requires room { HasRoom out.old }
        requires tick { now ≤ TOP }
        requires line { IsTrue (is_line bit) }
        ensures { let before = cpu_state self.old.sequencer self.old.arch in
            Takes (tcpu_lined before out.old.next now bit level self.old.arch)
            (shown (Some self.old)) (shown (Some self.new)) q.old q.new out.old out.new }
    {
        let Some(a) = &mut self.arch else {
            return;
        };
        let slept = a.asleep;
        set_line(a, bit, level);
        out.note(Entry::Line { bit, level });
        if slept && !a.asleep && !self.sequencer.draining {
            self.sequencer.goes_on(now, q);
        }
    }

    // Drain and resume.

    /// Whether it stands between two instructions.
    fn is_between(&self) -> bool
        ensures { result ≡ is_between (stage_of self.now.sequencer.stage) }
    {
        match self.sequencer.stage {
            Stage::Between => true,
            Stage::Fetch(_) | Stage::Ready { .. } | Stage::Data { .. } => false,
        }
    }

    /// Whether it stands between two instructions, and its event isn't pending.
    pub(crate) fn drained(&self) -> bool
        ensures { result ≡ is_drained (shown (Some self.now)) }
    {
        self.is_between() && !self.sequencer.due
    }

    /// Lets it begin nothing new: within an instruction it goes on to its end.
    pub(crate) fn drain(&mut self, q: &mut EventQueue)
        requires known { IsTrue (gave q.old.table self.old.sequencer.object.0 0 50) }
        ensures state { shown (Some self.new) ≡ (drain_step (shown (Some self.old))).state }
        ensures events { q.new ≡ with_changes q.old (shown (Some self.old)) (drain_step (shown (Some self.old))).changes }
    {
        self.sequencer.draining = true;
        if self.is_between() {
            q.deschedule(&self.sequencer.handle);
            self.sequencer.due = false;
        }
    }

    /// Lets it go on.
    pub(crate) fn resume(&mut self, now: Tick, q: &mut EventQueue)
        requires known { IsTrue (gave q.old.table self.old.sequencer.object.0 0 50) }
        requires tick { now ≤ TOP }
        ensures state { shown (Some self.new) ≡ (resume_step (shown (Some self.old)) now).state }
        ensures events { q.new ≡ with_changes q.old (shown (Some self.old)) (resume_step (shown (Some self.old)) now).changes }
    {
        self.sequencer.draining = false;
        if is_awake(&self.arch) {
            self.sequencer.goes_on(now, q);
        }
    }
}
