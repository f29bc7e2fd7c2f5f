// A server that is configured.
ghost use Rattle.std.specs.Prelude.{◌≡◌, ◌<◌, ◌≤◌, [], length, IsTrue};
ghost use Rattle.gm_words.specs.Allowed.{MayPass, MayCome};
ghost use Rattle.gm_words.specs.Platform.{slot_classes};
ghost use Rattle.gm_words.specs.declared.wake.Wake.TheVariants as wakes;
ghost use Rattle.gm_model.specs.Server.{serve, server_step, server_serves};
ghost use Rattle.gm_words.specs.Slots.{gave_from};
ghost use Rattle.gm_words.specs.Changes.{changed};
ghost use Rattle.obj_core.specs.Handles.{handles_from};
ghost use Rattle.obj_core.specs.Out.{HasRoom, extended};
ghost use Rattle.obj_core.specs.Step.{Takes, Answers};
ghost use Rattle.obj_server.specs.Server.{server_state, server_of, after_step, gone_first};

use crate::device::Device;
use crate::own_event::OwnEvent;
use crate::server::Server;
use ev_queue::{EventHandle, EventQueue};
use gc_base::limits::TOP;
use gc_base::{SlotNo, Tick};
use gm_model::{Answer, Packet, Wake};
use obj_core::Outbox;

/// A server that is configured, with its device.
#[derive(Drop)]
pub(crate) struct Configured<D: Device> {
    pub(crate) server: Server,
    pub(crate) device: D,
    // Of slot 0, at which a server serves in the timing mode, and of the device's own slot, if it has one.
    pub(crate) slots: Vec<EventHandle<30>>,
    ghost own: { slots.items ≡ handles_from server.object.0 30 0 (slot_classes D.kind) },
}

/// The slot at which it serves.
const SERVE_SLOT: u8 = 0;

/// The slot of the device's own event.
const OWN_SLOT: u8 = 1;

/// The place of the handle of the slot at which it serves.
const SERVE: usize = 0;

/// The place of the handle of the device's own slot.
const OWN: usize = 1;

impl<D: Device> Configured<D> {
    // Requests at once.

    /// Serves a request at once.
    #[inline(always)]
    pub(crate) fn serve(&mut self, p: &mut Packet, now: Tick, q: &mut EventQueue, out: &mut Outbox)
        requires size { p.old.size ≤ 64 }
        requires tick { now ≤ TOP }
        requires room { HasRoom out.old }
        requires handles { IsTrue (gave_from q.old.table self.old.server.object.0 0 (slot_classes D.kind)) }
        ensures server { self.new.server ≡ self.old.server }
        ensures device { D.shown self.new.device ≡ (serve (D.shown self.old.device) p.old now).device }
        ensures response { p.new ≡ (serve (D.shown self.old.device) p.old now).response }
        ensures events { q.new ≡ record q.old {
          pending = changed self.old.server.object.0 q.old.pending
              (serve (D.shown self.old.device) p.old now).changes;
        } }
        ensures out { out.new ≡ extended out.old (serve (D.shown self.old.device) p.old now).acts
            (serve (D.shown self.old.device) p.old now).entries out.old.next }
    {
        match self.device.serve(p, now, out) {
            OwnEvent::Stays => {}
            OwnEvent::Comes { at } => q.reschedule(&self.slots[OWN], at),
            OwnEvent::Goes => q.deschedule(&self.slots[OWN]),
        }
    }

    // Its queue.

    /// A request is offered: it is taken where there is a place for it.
    fn offered(&mut self, p: &Packet, now: Tick, q: &mut EventQueue, out: &mut Outbox) -> Answer
        requires size { MayPass p.now }
        requires tick { now ≤ TOP }
        requires room { HasRoom out.old }
        requires handles { IsTrue (gave_from q.old.table self.old.server.object.0 0 (slot_classes D.kind)) }
        ensures { let d = D.shown self.old.device in let before = server_state self.old.server d in
            Answers (server_step before out.old.next (wakes.Offer (record { 0 = 0 }) p.now) now)
            (server_of self.old.server d) (server_of self.new.server (D.shown self.new.device)) q.old q.new out.old out.new result }
    {
        self.server.offered(p, now, &self.slots[SERVE], q, out)
    }

    /// The first request is gone, and the next is served a latency later. Who waits for a place is called.
    fn remove_first(&mut self, now: Tick, q: &mut EventQueue, out: &mut Outbox)
        requires tick { now ≤ TOP }
        requires room { length out.old.items < 272 }
        requires handles { IsTrue (gave_from q.old.table self.old.server.object.0 0 (slot_classes D.kind)) }
        ensures server { self.new.server ≡ after_step self.old.server (gone_first self.old.server now) }
        ensures device { self.new.device ≡ self.old.device }
        ensures events { q.new ≡ record q.old {
          pending = changed self.old.server.object.0 q.old.pending (gone_first self.old.server now).changes;
        } }
        ensures out { out.new ≡ extended out.old (gone_first self.old.server now).acts [] out.old.next }
    {
        self.server.remove_first(now, &self.slots[SERVE], q, out);
    }

    // Its event.

    /// The first request is served: its response is offered, or it is gone, where it has none.
    #[tactic(auto, using(crate::proofs::Serves::few_acts))]
    fn serves(&mut self, now: Tick, q: &mut EventQueue, out: &mut Outbox)
        requires tick { now ≤ TOP }
        requires room { HasRoom out.old }
        requires handles { IsTrue (gave_from q.old.table self.old.server.object.0 0 (slot_classes D.kind)) }
        ensures { let d = D.shown self.old.device in let before = server_state self.old.server d in
            Takes (server_serves before out.old.next now before.flow.items before.flow.out)
            (server_of self.old.server d) (server_of self.new.server (D.shown self.new.device)) q.old q.new out.old out.new }
    {
        let Some(first) = self.server.queue.first() else {
            return;
        };
        let mut p = *first;
        let ends = p.is_write_back();
        self.serve(&mut p, now, q, out);
        if ends {
            self.remove_first(now, q, out);
        } else {
            self.server.answer(&p, out);
        }
    }

    // Wakes.

    /// Its step rule.
    #[tactic(auto, using(crate::proofs::Steps::response_steps))]
    pub(crate) fn wake(
        &mut self,
        w: &Wake,
        now: Tick,
        q: &mut EventQueue,
        out: &mut Outbox,
    ) -> Answer
        requires wake { MayCome w.now }
        requires tick { now ≤ TOP }
        requires room { HasRoom out.old }
        requires handles { IsTrue (gave_from q.old.table self.old.server.object.0 0 (slot_classes D.kind)) }
        ensures { let d = D.shown self.old.device in
            Answers (server_step (server_state self.old.server d) out.old.next w.now now)
            (server_of self.old.server d) (server_of self.new.server (D.shown self.new.device)) q.old q.new out.old out.new result }
    {
        match w {
            Wake::Event { slot } => self.event(*slot, now, q, out),
            Wake::Offer { pkt, .. } => return self.offered(pkt, now, q, out),
            Wake::Taken { .. } => self.remove_first(now, q, out),
            Wake::Refused { .. } => self.server.hold(),
            Wake::Retry { .. } => self.server.ask_again(out),
            Wake::Line { .. } | Wake::AtomicDone { .. } => {}
        }
        Answer::Nothing
    }

    /// The event of one of its slots is served.
    fn event(&mut self, slot: SlotNo, now: Tick, q: &mut EventQueue, out: &mut Outbox)
        requires tick { now ≤ TOP }
        requires room { HasRoom out.old }
        requires handles { IsTrue (gave_from q.old.table self.old.server.object.0 0 (slot_classes D.kind)) }
        ensures { let d = D.shown self.old.device in
            Takes (server_step (server_state self.old.server d) out.old.next (wakes.Event slot) now)
            (server_of self.old.server d) (server_of self.new.server (D.shown self.new.device)) q.old q.new out.old out.new }
    {
        match slot.0 {
            SERVE_SLOT => self.serves(now, q, out),
            OWN_SLOT => self.device.event(out),
            _ => {}
        }
    }
}
