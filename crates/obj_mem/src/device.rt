// RAM as a device: each request takes the same time. This project's own rule.
// Not modelled: banks, rows and refresh of a real memory.
ghost use Rattle.std.specs.Prelude.{◌≡◌, refl};
ghost use Rattle.gm_words.specs.declared.kind.Kind.TheVariants as kinds;

use crate::ram::Ram;
use gc_base::{NoMemory, Tick};
use gm_model::{Kind, Own, Packet, Params};
use obj_core::{Flow, Outbox};
use obj_server::{Device, OwnEvent, Served, Start};
use std::alloc::Global;

/// Memory as a part.
pub type Mem = Served<Ram>;

impl Device for Ram {
    ghost use Rattle.gm_model.specs.ObjState.{Memory};

    ghost shown = { λ m. Memory m };

    ghost kind = { kinds.Mem };

    fn kind() -> Kind {
        Kind::Mem
    }

    // Set-up.

    fn start(alloc: Global, params: &Params) -> Result<Start<Ram>, NoMemory> {
        let Own::Mem { latency, queue } = params.own else {
            unreachable!()
        };
        Ok(Start {
            latency,
            places: queue as u32,
            device: Ram::zeroed(alloc, params.ram)?,
        })
    }

    // Requests, responses and own events: it has none.

    #[inline(always)]
    fn serve(&mut self, p: &mut Packet, _now: Tick, out: &mut Outbox) -> OwnEvent {
        self.serve_request(p, out);
        OwnEvent::Stays
    }

    fn event(&mut self, _out: &mut Outbox) {}

    // Functional access and own bytes.

    fn functional(&self, p: &mut Packet, queue: &Flow) {
        if self.holds(p.addr, p.size) && !queue.read(p) {
            p.answer(self.bytes_at(p.addr, p.size));
        }
    }

    fn own_bytes(&self, at: u64, to: &mut [u8]) -> bool {
        self.read(at, to);
        true
    }

    fn put_own_bytes(&mut self, at: u64, from: &[u8]) -> bool {
        self.put(at, from);
        true
    }

    // Exit and input: other devices have them.

    fn exit_code(&self) -> Option<u32> {
        None
    }

    fn input(&mut self, _byte: u8) -> bool {
        false
    }

    ghost shows_kind = { λ m. refl };
}
