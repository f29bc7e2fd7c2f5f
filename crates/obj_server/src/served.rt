// A part that serves requests, whichever device serves them: each takes the same latency. This project's own rule.
ghost use Rattle.std.specs.Prelude.{◌≡◌};

use crate::configured::Configured;
use crate::device::{Device, Start};
use crate::server::Server;
use ev_queue::EventQueue;
use gc_base::{NoMemory, Tick};
use gm_model::{Answer, Kind, Packet, Params, Wake, Way};
use obj_core::{Handles, LineInfo, Outbox, SimObject};
use rv_step::Arch;
use std::alloc::Global;

/// A server of a device. A request that isn't the device's is refused by fault.
#[derive(Drop)]
pub struct Served<D: Device> {
    inner: Option<Configured<D>>,
}

impl<D: Device> Served<D> {
    ghost use Rattle.gm_model.specs.ObjState.{Blank};

    // Set-up.

    /// One that isn't configured.
    pub fn blank() -> Served<D>
        ensures { ⟦<Served<D> as SimObject>⟧.state result ≡ Blank D.kind }
    {
        Served { inner: None }
    }
}

impl<D: Device> SimObject for Served<D> {
    ghost use Rattle.obj_server.specs.Served.{served_state};

    ghost state = { λ s. served_state D.kind D.shown s.inner };

    fn kind(&self) -> Kind {
        D::kind()
    }

    // Set-up.

    fn configure(
        &mut self,
        alloc: Global,
        params: &Params,
        handles: Handles,
    ) -> Result<(), NoMemory> {
        let Start {
            latency,
            places,
            device,
        } = D::start(alloc, params)?;
        let server = Server::start(alloc, params, latency, places)?;
        self.inner = Some(Configured {
            server,
            device,
            slots: handles.device,
        });
        Ok(())
    }

    // Requests, responses and own events.

    #[tactic(auto, unfolding(gm_model::specs::ObjectStep::object_step))]
    fn wake(&mut self, w: Wake, now: Tick, q: &mut EventQueue, out: &mut Outbox) -> Answer {
        match &mut self.inner {
            Some(c) => c.wake(&w, now, q, out),
            None => Answer::Nothing,
        }
    }

    // Atomic access.

    #[tactic(auto, unfolding(gm_model::specs::ObjectStep::atomic_step))]
    fn atomic(&mut self, p: &mut Packet, now: Tick, q: &mut EventQueue, out: &mut Outbox) -> Way {
        match &mut self.inner {
            Some(c) => {
                c.serve(p, now, q, out);
                Way::Done {
                    latency: c.server.latency,
                }
            }
            None => Way::Done { latency: 0 },
        }
    }

    // Functional access and own bytes.

    #[tactic(auto, unfolding(gm_model::specs::ObjectStep::functional_step))]
    fn functional(&self, p: &mut Packet) -> Way {
        if let Some(c) = &self.inner {
            c.device.functional(p, &c.server.queue);
        }
        Way::Done { latency: 0 }
    }

    fn own_bytes(&self, at: u64, to: &mut [u8]) -> bool {
        match &self.inner {
            Some(c) => c.device.own_bytes(at, to),
            None => false,
        }
    }

    fn put_own_bytes(&mut self, at: u64, from: &[u8]) -> bool {
        match &mut self.inner {
            Some(c) => c.device.put_own_bytes(at, from),
            None => false,
        }
    }

    // Mode, drain and resume.

    fn set_mode(&mut self, timing: bool) {
        if let Some(c) = &mut self.inner {
            c.server.set_mode(timing);
        }
    }

    fn drain(&mut self, _q: &mut EventQueue) {
        if let Some(c) = &mut self.inner {
            c.server.drain();
        }
    }

    fn drained(&self) -> bool {
        match &self.inner {
            Some(c) => c.server.is_drained(),
            None => true,
        }
    }

    fn resume(&mut self, _now: Tick, _q: &mut EventQueue) {
        if let Some(c) = &mut self.inner {
            c.server.resume();
        }
    }

    // Lines: it has none.

    fn dirty_line(&self, _n: u32, _bytes: &mut [u8; 64]) -> Option<u64> {
        None
    }

    fn any_line(&self, _n: u32, _bytes: &mut [u8; 64]) -> Option<LineInfo> {
        None
    }

    fn invalidate(&mut self) {}

    // The hart: a CPU has it.

    fn arch(&self) -> Option<Arch> {
        None
    }

    fn take_arch(&mut self) -> Option<Arch> {
        None
    }

    fn give_arch(&mut self, _a: Arch) {}

    // Exit and input.

    fn exit_code(&self) -> Option<u32> {
        match &self.inner {
            Some(c) => c.device.exit_code(),
            None => None,
        }
    }

    fn input(&mut self, byte: u8) -> bool {
        match &mut self.inner {
            Some(c) => c.device.input(byte),
            None => false,
        }
    }
}
