// A layer of a crossbar: one packet, and who waits for its place.
ghost use Rattle.std.specs.Prelude.{◌≡◌, ◌<◌, ◌≤◌, ◌-◌, ◌==◌, [], length, IsTrue, IfOk, IfSome, is_some, option_copied, true};
ghost use Rattle.ev_queue.specs.SlotTable.{gave};
ghost use Rattle.gm_words.specs.Allowed.{MayPass};
ghost use Rattle.gm_words.specs.Changes.{changed};
ghost use Rattle.gm_words.specs.Flow.{empty_lane, quiet_flow, Waits};
ghost use Rattle.gm_model.specs.Flows.{head_of, has_room, is_due_out, joined_once, still, put_in, ask_in, hold_in, again_in, open_in};
ghost use Rattle.gm_model.specs.Memory.{queued_bytes};
ghost use Rattle.gm_model.specs.Xbar.{is_lane_idle, read_of};
ghost use Rattle.obj_core.specs.Kept.{is_waiting, outlet_of, with_front};
ghost use Rattle.obj_core.specs.Out.{extended};

use crate::waiting::Waiting;
use ev_queue::{EventHandle, EventQueue};
use gc_base::{NoMemory, PortNo, Tick};
use gm_model::{Act, Packet};
use obj_core::{Flow, Outbox};
use std::alloc::Global;
use std::marker::Model;

/// A layer: a place for one packet, and the ports that wait for it.
#[derive(Drop)]
pub(crate) struct Lane {
    flow: Flow,
    waiting: Waiting,
}

impl Model for Lane {
    ghost use Rattle.gm_words.specs.Flow.{Lane as Shown};
    ghost use Rattle.obj_xbar.specs.Lane.{IsSingle};

    ghost Value = { Shown };

    ghost view = { λ l. record { flow = l.flow.flow; waiting = l.waiting } };

    ghost invariant = { λ l. IsSingle l.flow };
}

impl Lane {
    /// A layer with nothing in it.
    pub(crate) fn new(alloc: Global) -> Result<Lane, NoMemory>
        ensures { IfOk result (λ l. l ≡ empty_lane) }
    {
        Ok(Lane {
            flow: Flow::new(alloc, 1)?,
            waiting: Waiting::nobody(),
        })
    }

    // What is in it.

    /// Whether nothing is in it, and nobody waits.
    pub(crate) fn is_idle(&self) -> bool
        ensures { result ≡ is_lane_idle self.now }
    {
        self.flow.is_empty() && self.waiting.len() == 0
    }

    /// Whether its place is free.
    pub(crate) fn has_room(&self) -> bool
        ensures { result ≡ has_room 1 self.now }
    {
        self.flow.has_room()
    }

    /// Whether the event of its packet is pending.
    pub(crate) fn is_due(&self) -> bool
        ensures { result ≡ is_due_out self.now.flow.out }
    {
        self.flow.is_due()
    }

    /// Whether its packet waits.
    pub(crate) fn waits(&self) -> bool
        ensures { result ≡ is_waiting self.now.flow.out }
    {
        self.flow.waits()
    }

    /// Its packet, lent, if there is one.
    pub(crate) fn first(&self) -> Option<&Packet>
        ensures packet { option_copied result ≡ head_of self.now.flow.items }
        ensures size { IfSome result (λ p. MayPass p.now) }
        ensures there { IfSome result (λ p. 0 < length self.now.flow.items) }
    {
        self.flow.first()
    }

    /// How many ports wait.
    pub(crate) fn waiting(&self) -> usize
        ensures value { result ≡ length self.now.waiting }
        ensures most { result ≤ 8 }
    {
        self.waiting.len()
    }

    // Packets in and out.

    /// Takes a packet into its free place, which is offered at a tick.
    pub(crate) fn put<const CLASS: u8>(
        &mut self,
        p: &Packet,
        at: Tick,
        event: &EventHandle<CLASS>,
        q: &mut EventQueue,
    )
        requires room { IsTrue (has_room 1 self.old) }
        requires size { MayPass p.now }
        requires known { IsTrue (gave q.old.table event.now.owner event.now.slot CLASS) }
        ensures lane { self.new ≡ record self.old {
          flow = (put_in (outlet_of event.now.slot CLASS) p.now at self.old.flow.items self.old.flow.out).flow;
        } }
        ensures events { q.new ≡ record q.old {
          pending = changed event.now.owner q.old.pending (put_in (outlet_of event.now.slot CLASS) p.now at self.old.flow.items self.old.flow.out).changes;
        } }
    {
        self.flow.put(p, at, event, q);
    }

    /// Its packet is gone.
    pub(crate) fn clear(&mut self)
        ensures one { length self.old.flow.items ≤ 1 }
        ensures lane { self.new ≡ record self.old { flow = quiet_flow } }
    {
        self.flow.drop_only();
    }

    /// A port waits for its place.
    pub(crate) fn join(&mut self, port: PortNo)
        requires { port.0 < 8 }
        ensures { self.new ≡ record self.old { waiting = joined_once port.0 self.old.waiting } }
    {
        self.waiting.join(port);
    }

    /// Its packet is gone: the first port that waits is called.
    pub(crate) fn open(&mut self, out: &mut Outbox)
        requires { length out.old.items < 272 }
        ensures one { length self.old.flow.items ≤ 1 }
        ensures lane { self.new ≡ (open_in true (still quiet_flow) self.old.waiting).lane }
        ensures out { out.new ≡ extended out.old (open_in true (still quiet_flow) self.old.waiting).acts [] out.old.next }
    {
        self.flow.drop_only();
        if let Some(port) = self.waiting.take_first() {
            out.push(Act::CallRetry { port });
        }
    }

    /// Another packet stands in place of its own, and waits.
    pub(crate) fn wait_as(&mut self, p: &Packet)
        requires { MayPass p.now }
        ensures { self.new ≡ record self.old { flow = record { items = with_front p.now 0 self.old.flow.items; out = Waits } } }
    {
        self.flow.wait_as(p);
    }

    // Offers.

    /// Its packet is offered, at its event.
    pub(crate) fn ask(&mut self, port: PortNo, out: &mut Outbox)
        requires { length out.old.items < 272 }
        ensures lane { self.new ≡ record self.old { flow = (ask_in port.0 self.old.flow.items self.old.flow.out).flow } }
        ensures out { out.new ≡ extended out.old (ask_in port.0 self.old.flow.items self.old.flow.out).acts [] out.old.next }
    {
        self.flow.ask(port, out);
    }

    /// Its packet was refused, and waits.
    pub(crate) fn hold(&mut self)
        ensures { self.new ≡ record self.old { flow = (hold_in self.old.flow.items self.old.flow.out).flow } }
    {
        self.flow.hold();
    }

    /// Its packet is offered again.
    pub(crate) fn ask_again(&mut self, port: PortNo, out: &mut Outbox)
        requires { length out.old.items < 272 }
        ensures lane { self.new ≡ record self.old { flow = (again_in port.0 self.old.flow.items self.old.flow.out).flow } }
        ensures out { out.new ≡ extended out.old (again_in port.0 self.old.flow.items self.old.flow.out).acts [] out.old.next }
    {
        self.flow.ask_again(port, out);
    }

    // Packets without time.

    /// Answers a read without time, if its packet is a write-back that covers the address.
    pub(crate) fn read(&self, p: &mut Packet) -> bool
        requires { MayPass p.old }
        ensures answered { result ≡ is_some (queued_bytes self.now.flow.items p.old.addr p.old.size) }
        ensures packet { p.new ≡ read_of p.old (queued_bytes self.now.flow.items p.old.addr p.old.size) }
    {
        self.flow.read(p)
    }
}
