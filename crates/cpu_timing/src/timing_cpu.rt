// The timing CPU: a hart that does one instruction after another, whose fetch and data access are offered to others.
// What an instruction does is the RISC-V manuals' (crate rv_step). When the next one comes is this project's own rule.
// Not modelled: instructions that overlap, accesses that are guessed, and more than one hart.
ghost use Rattle.std.specs.Prelude.{◌≡◌};
ghost use Rattle.gm_words.specs.declared.kind.Kind.TheVariants as kinds;

use crate::configured::Configured;
use ev_queue::EventQueue;
use gc_base::{NoMemory, Tick};
use gm_model::{Answer, Kind, Own, Packet, Params, Wake, Way};
use obj_core::{Handles, LineInfo, Outbox, SimObject};
use rv_step::Arch;
use std::alloc::Global;

/// A CPU that offers its fetch and its data access, and goes on as their responses come.
#[derive(Drop)]
pub struct TimingCpu {
    inner: Option<Configured>,
}

impl TimingCpu {
    ghost use Rattle.gm_model.specs.ObjState.{Blank};
    ghost use Rattle.cpu_timing.specs.Shown.{shown};

    // Set-up.

    /// One that isn't configured.
    pub fn blank() -> TimingCpu
        ensures { shown result.inner ≡ Blank kinds.TimingCpu }
    {
        TimingCpu { inner: None }
    }
}

impl SimObject for TimingCpu {
    ghost use Rattle.cpu_timing.specs.Shown.{shown};

    ghost state = { λ s. shown s.inner };

    fn kind(&self) -> Kind {
        Kind::TimingCpu
    }

    // Set-up.

    fn configure(
        &mut self,
        _alloc: Global,
        params: &Params,
        handles: Handles,
    ) -> Result<(), NoMemory> {
        let mut mine = handles.cpu;
        if let Own::TimingCpu { period } = params.own {
            if let Some(handle) = mine.pop() {
                self.inner = Some(Configured::start(params, period, handle));
            }
        }
        Ok(())
    }

    // Requests, responses and own events. A response is always taken.

    #[tactic(auto, unfolding(gm_model::specs::ObjectStep::object_step))]
    fn wake(&mut self, w: Wake, now: Tick, q: &mut EventQueue, out: &mut Outbox) -> Answer {
        let Some(r) = &mut self.inner else {
            return Answer::Nothing;
        };
        match &w {
            Wake::Event { slot } => {
                if slot.0 == 0 {
                    r.event(now, q, out);
                }
            }
            Wake::Offer { pkt, .. } => {
                r.response(now, pkt, q, out);
                return Answer::Taken;
            }
            Wake::Taken { .. } => r.taken(),
            Wake::Refused { .. } => r.refused(),
            Wake::Retry { .. } => r.called(out),
            Wake::Line { bit, level } => r.lined(now, *bit, *level, q, out),
            Wake::AtomicDone { .. } => {}
        }
        Answer::Nothing
    }

    // Atomic access: it serves nobody.

    #[tactic(auto, unfolding(gm_model::specs::ObjectStep::atomic_step))]
    fn atomic(
        &mut self,
        _p: &mut Packet,
        _now: Tick,
        _q: &mut EventQueue,
        _out: &mut Outbox,
    ) -> Way {
        Way::Done { latency: 0 }
    }

    // Functional access and own bytes: it has none.

    #[tactic(auto, unfolding(gm_model::specs::ObjectStep::functional_step))]
    fn functional(&self, _p: &mut Packet) -> Way {
        Way::Done { latency: 0 }
    }

    fn own_bytes(&self, _at: u64, _to: &mut [u8]) -> bool {
        false
    }

    fn put_own_bytes(&mut self, _at: u64, _from: &[u8]) -> bool {
        false
    }

    // Mode, drain and resume.

    fn set_mode(&mut self, timing: bool) {
        if let Some(r) = &mut self.inner {
            r.sequencer.timing = timing;
        }
    }

    fn drain(&mut self, q: &mut EventQueue) {
        if let Some(r) = &mut self.inner {
            r.drain(q);
        }
    }

    fn drained(&self) -> bool {
        match &self.inner {
            Some(r) => r.drained(),
            None => true,
        }
    }

    fn resume(&mut self, now: Tick, q: &mut EventQueue) {
        if let Some(r) = &mut self.inner {
            r.resume(now, q);
        }
    }

    // Lines: it has none.

    fn dirty_line(&self, _n: u32, _bytes: &mut [u8; 64]) -> Option<u64> {
        None
    }

    fn any_line(&self, _n: u32, _bytes: &mut [u8; 64]) -> Option<LineInfo> {
        None
    }

    fn invalidate(&mut self) {}

    // The hart.

    fn arch(&self) -> Option<Arch> {
        match &self.inner {
            Some(r) => r.arch,
            None => None,
        }
    }

    fn take_arch(&mut self) -> Option<Arch> {
        match &mut self.inner {
            Some(r) => r.arch.take(),
            None => None,
        }
    }

    fn give_arch(&mut self, a: Arch) {
        if let Some(r) = &mut self.inner {
            r.arch = Some(a);
        }
    }

    // Exit and input: other devices have them.

    fn exit_code(&self) -> Option<u32> {
        None
    }

    fn input(&mut self, _byte: u8) -> bool {
        false
    }
}
