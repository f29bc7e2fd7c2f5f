// A server without its device: its queue of requests, and who waits for a place in it.
ghost use Rattle.std.specs.Prelude.{◌≡◌, ◌+◌, ◌<◌, ◌≤◌, ◌==◌, ◌&&◌, not, [], length, IsTrue, IfOk, true, false};
ghost use Rattle.ev_queue.specs.SlotTable.{gave};
ghost use Rattle.gc_base.specs.declared.limits.TheConstants.{LATENCY_MAX};
ghost use Rattle.gm_words.specs.Allowed.{MayPass};
ghost use Rattle.gm_words.specs.Changes.{changed};
ghost use Rattle.gm_model.specs.Flows.{answer_of, refusal_of};
ghost use Rattle.obj_core.specs.Out.{HasRoom, extended};

use ev_queue::{EventHandle, EventQueue};
use gc_base::limits::TOP;
use gc_base::{NoMemory, ObjId, PortNo, Tick};
use gm_model::{Act, Answer, Entry, Packet, Params};
use obj_core::{Flow, Outbox};
use std::alloc::Global;

/// A server's one port.
const PORT: PortNo = PortNo(0);

/// A server without its device: what it was configured with, its mode, whether it is draining, and its queue.
#[derive(Drop)]
pub(crate) struct Server {
    pub(crate) object: ObjId,
    /// The size of a line, in bytes.
    pub(crate) line: u32,
    /// The size of RAM, in bytes.
    pub(crate) ram: u32,
    pub(crate) timing: bool,
    pub(crate) draining: bool,
    /// How long a request takes, in ticks.
    pub(crate) latency: u64,
    /// The requests, of which the first is served first, and becomes the response that is offered.
    pub(crate) queue: Flow,
    /// Whether a requestor that was refused waits for a place.
    pub(crate) waiter: bool,
    ghost short: { latency ≤ LATENCY_MAX },
}

impl Server {
    ghost use Rattle.obj_server.specs.Server.{server_of, after_step, has_place, offered_to, gone_first, called, answered_by, held, asked_again};
    ghost use Rattle.gm_model.specs.ObjState.{Device};
    ghost use Rattle.gm_model.specs.Server.{server_start};

    // Set-up.

    /// A server at its start: in atomic mode, draining, and with nothing in its queue.
    pub(crate) fn start(
        alloc: Global,
        params: &Params,
        latency: u64,
        places: u32,
    ) -> Result<Server, NoMemory>
        requires { latency ≤ LATENCY_MAX }
        ensures object { IfOk result (λ s. s.object ≡ params.now.object) }
        ensures state { IfOk result (λ s. (d : Device) → server_of s d ≡ server_start params.now latency places d) }
    {
        Ok(Server {
            object: params.object,
            line: params.line,
            ram: params.ram,
            timing: false,
            draining: true,
            latency,
            queue: Flow::new(alloc, places)?,
            waiter: false,
        })
    }

    // Mode, drain and resume.

    /// Sets the mode.
    pub(crate) fn set_mode(&mut self, timing: bool)
        ensures { self.new ≡ record self.old { timing = timing } }
    {
        self.timing = timing;
    }

    /// Lets it begin nothing new.
    pub(crate) fn drain(&mut self)
        ensures { self.new ≡ record self.old { draining = true } }
    {
        self.draining = true;
    }

    /// Lets it go on.
    pub(crate) fn resume(&mut self)
        ensures { self.new ≡ record self.old { draining = false } }
    {
        self.draining = false;
    }

    /// Whether nothing is in its queue, and nobody waits.
    pub(crate) fn is_drained(&self) -> bool
        ensures { result ≡ (length self.now.queue.flow.items == 0) && not self.now.waiter }
    {
        self.queue.is_empty() && !self.waiter
    }

    /// The tick at which a request is served that begins now.
    #[inline(always)]
    pub(crate) fn served_at(&self, now: Tick) -> Tick
        requires { now ≤ TOP }
        ensures { result ≡ now + self.now.latency }
    {
        match now.after(self.latency) {
            Ok(tick) => tick,
            Err(_) => now,
        }
    }

    // Its queue.

    /// A request is offered: it is taken where there is a place for it, and is served a latency later, if it is the first.
    /// Where there is none, who offers it waits.
    #[tactic(auto, using(crate::proofs::Waiters::waiter_joined))]
    pub(crate) fn offered(
        &mut self,
        p: &Packet,
        now: Tick,
        event: &EventHandle<30>,
        q: &mut EventQueue,
        out: &mut Outbox,
    ) -> Answer
        requires size { MayPass p.now }
        requires tick { now ≤ TOP }
        requires room { HasRoom out.old }
        requires owner { event.now.owner ≡ self.old.object.0 }
        requires slot { event.now.slot ≡ 0 }
        requires known { IsTrue (gave q.old.table self.old.object.0 0 30) }
        ensures server { self.new ≡ after_step self.old (offered_to self.old p.now now) }
        ensures events { q.new ≡ record q.old { pending = changed self.old.object.0 q.old.pending (offered_to self.old p.now now).changes } }
        ensures out { out.new ≡ extended out.old (offered_to self.old p.now now).acts
            (refusal_of self.old.object.0 (has_place self.old)) out.old.next }
        ensures answer { result ≡ answer_of (has_place self.old) }
    {
        if self.queue.has_room() {
            self.take(p, now, event, q);
            Answer::Taken
        } else {
            self.refuse(out);
            Answer::Refused
        }
    }

    /// Takes a request into its queue.
    #[tactic(auto, using(crate::proofs::Waiters::waiter_kept))]
    fn take(&mut self, p: &Packet, now: Tick, event: &EventHandle<30>, q: &mut EventQueue)
        requires size { MayPass p.now }
        requires tick { now ≤ TOP }
        requires place { IsTrue (has_place self.old) }
        requires owner { event.now.owner ≡ self.old.object.0 }
        requires slot { event.now.slot ≡ 0 }
        requires known { IsTrue (gave q.old.table self.old.object.0 0 30) }
        ensures server { self.new ≡ after_step self.old (offered_to self.old p.now now) }
        ensures events { q.new ≡ record q.old { pending = changed self.old.object.0 q.old.pending (offered_to self.old p.now now).changes } }
        ensures acts { (offered_to self.old p.now now).acts ≡ [] }
    {
        let at = self.served_at(now);
        self.queue.put(p, at, event, q);
    }

    /// Notes that it refuses a request: who offered it waits.
    fn refuse(&mut self, out: &mut Outbox)
        requires { HasRoom out.old }
        ensures server { self.new ≡ record self.old { waiter = true } }
        ensures out { out.new ≡ extended out.old [] (refusal_of self.old.object.0 false) out.old.next }
    {
        self.waiter = true;
        out.note(Entry::Refused {
            object: self.object,
        });
    }

    /// The first request is gone, and the next is served a latency later. Who waits for a place is called.
    #[tactic(auto, using(crate::proofs::Steps::gone_steps))]
    pub(crate) fn remove_first(
        &mut self,
        now: Tick,
        event: &EventHandle<30>,
        q: &mut EventQueue,
        out: &mut Outbox,
    )
        requires tick { now ≤ TOP }
        requires room { length out.old.items < 272 }
        requires owner { event.now.owner ≡ self.old.object.0 }
        requires slot { event.now.slot ≡ 0 }
        requires known { IsTrue (gave q.old.table self.old.object.0 0 30) }
        ensures server { self.new ≡ after_step self.old (gone_first self.old now) }
        ensures events { q.new ≡ record q.old { pending = changed self.old.object.0 q.old.pending (gone_first self.old now).changes } }
        ensures out { out.new ≡ extended out.old (gone_first self.old now).acts [] out.old.next }
    {
        let next = self.served_at(now);
        self.queue.drop_first(next, event, q);
        self.call_waiter(out);
    }

    /// Calls who waits, where there is a place.
    fn call_waiter(&mut self, out: &mut Outbox)
        requires { length out.old.items < 272 }
        ensures server { self.new ≡ after_step self.old (called self.old) }
        ensures out { out.new ≡ extended out.old (called self.old).acts [] out.old.next }
    {
        if self.waiter && self.queue.has_room() {
            self.waiter = false;
            out.push(Act::CallRetry { port: PORT });
        }
    }

    // Responses.

    /// The response of the first request stands in its place, and is offered.
    #[tactic(auto, using(crate::proofs::Waiters::waiter_kept))]
    pub(crate) fn answer(&mut self, p: &Packet, out: &mut Outbox)
        requires size { MayPass p.now }
        requires room { length out.old.items < 272 }
        ensures server { self.new ≡ after_step self.old (answered_by self.old p.now) }
        ensures out { out.new ≡ extended out.old (answered_by self.old p.now).acts [] out.old.next }
    {
        self.queue.replace_first(p);
        self.queue.ask(PORT, out);
    }

    /// The response was refused, and waits.
    #[tactic(auto, using(crate::proofs::Waiters::waiter_kept))]
    pub(crate) fn hold(&mut self)
        ensures { self.new ≡ after_step self.old (held self.old) }
    {
        self.queue.hold();
    }

    /// A response that waits is offered again.
    #[tactic(auto, using(crate::proofs::Waiters::waiter_kept))]
    pub(crate) fn ask_again(&mut self, out: &mut Outbox)
        requires { length out.old.items < 272 }
        ensures server { self.new ≡ after_step self.old (asked_again self.old) }
        ensures out { out.new ≡ extended out.old (asked_again self.old).acts [] out.old.next }
    {
        self.queue.ask_again(PORT, out);
    }
}
