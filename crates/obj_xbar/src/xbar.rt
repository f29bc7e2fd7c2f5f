// The crossbar as a part: packets go through it in layers, each of which has a place for one.
// This project's own rule. Not modelled: how wide it is, so that a packet's size doesn't count.
ghost use Rattle.std.specs.Prelude.{◌≡◌};
ghost use Rattle.gm_words.specs.declared.kind.Kind.TheVariants as kinds;

use crate::layers::Layers;
use ev_queue::EventQueue;
use gc_base::{NoMemory, Tick};
use gm_model::{Answer, Kind, Own, Packet, Params, Wake, Way};
use obj_core::{Handles, LineInfo, Outbox, SimObject};
use rv_step::Arch;
use std::alloc::Global;

/// A crossbar: requests go to the ports of their addresses, and responses back to those by which the requests came.
#[derive(Drop)]
pub struct Xbar {
    inner: Option<Layers>,
}

impl Xbar {
    ghost use Rattle.gm_model.specs.ObjState.{Blank};
    ghost use Rattle.obj_xbar.specs.Shown.{shown};

    // Set-up.

    /// One that isn't configured.
    pub fn blank() -> Xbar
        ensures { shown result.inner ≡ Blank kinds.Xbar }
    {
        Xbar { inner: None }
    }
}

impl SimObject for Xbar {
    ghost use Rattle.obj_xbar.specs.Shown.{shown};

    ghost state = { λ s. shown s.inner };

    fn kind(&self) -> Kind {
        Kind::Xbar
    }

    // Set-up.

    fn configure(
        &mut self,
        alloc: Global,
        params: &Params,
        handles: Handles,
    ) -> Result<(), NoMemory> {
        if let Own::Xbar { latency, ports } = &params.own {
            self.inner = Some(Layers::start(
                alloc,
                params,
                *latency,
                ports,
                handles.response,
                handles.request,
            )?);
        }
        Ok(())
    }

    // Requests, responses and own events.

    #[tactic(auto, unfolding(gm_model::specs::ObjectStep::object_step))]
    fn wake(&mut self, w: Wake, now: Tick, q: &mut EventQueue, out: &mut Outbox) -> Answer {
        match &mut self.inner {
            Some(l) => l.wake(&w, now, q, out),
            None => Answer::Nothing,
        }
    }

    // Atomic access.

    #[tactic(auto, unfolding(gm_model::specs::ObjectStep::atomic_step))]
    fn atomic(
        &mut self,
        p: &mut Packet,
        _now: Tick,
        _q: &mut EventQueue,
        _out: &mut Outbox,
    ) -> Way {
        match &self.inner {
            Some(l) => l.pass(p),
            None => Way::Done { latency: 0 },
        }
    }

    // Functional access and own bytes: it keeps none.

    #[tactic(auto, unfolding(gm_model::specs::ObjectStep::functional_step))]
    fn functional(&self, p: &mut Packet) -> Way {
        if let Some(l) = &self.inner {
            l.read(p);
        }
        Way::Done { latency: 0 }
    }

    fn own_bytes(&self, _at: u64, _to: &mut [u8]) -> bool {
        false
    }

    fn put_own_bytes(&mut self, _at: u64, _from: &[u8]) -> bool {
        false
    }

    // Mode, drain and resume.

    fn set_mode(&mut self, timing: bool) {
        if let Some(l) = &mut self.inner {
            l.timing = timing;
        }
    }

    fn drain(&mut self, _q: &mut EventQueue) {
        if let Some(l) = &mut self.inner {
            l.draining = true;
        }
    }

    fn drained(&self) -> bool {
        match &self.inner {
            Some(l) => l.is_drained(),
            None => true,
        }
    }

    fn resume(&mut self, _now: Tick, _q: &mut EventQueue) {
        if let Some(l) = &mut self.inner {
            l.draining = false;
        }
    }

    // Lines: it has none.

    fn dirty_line(&self, _n: u32, _bytes: &mut [u8; 64]) -> Option<u64> {
        None
    }

    fn any_line(&self, _n: u32, _bytes: &mut [u8; 64]) -> Option<LineInfo> {
        None
    }

    fn invalidate(&mut self) {}

    // The hart: a CPU has it.

    fn arch(&self) -> Option<Arch> {
        None
    }

    fn take_arch(&mut self) -> Option<Arch> {
        None
    }

    fn give_arch(&mut self, _a: Arch) {}

    // Exit and input: devices have them.

    fn exit_code(&self) -> Option<u32> {
        None
    }

    fn input(&mut self, _byte: u8) -> bool {
        false
    }
}
