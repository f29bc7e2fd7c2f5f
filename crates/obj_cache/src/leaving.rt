// What leaves a cache for memory: a queue whose write-backs are counted.
ghost use Rattle.std.specs.Prelude.{◌≡◌, ◌<◌, ◌≤◌, ◌==◌, [], length, IfOk, IfSome, IsTrue, is_some, option_copied, slice_get};
ghost use Rattle.std.specs.Option.{option_map};
ghost use Rattle.ev_queue.specs.SlotTable.{gave};
ghost use Rattle.gm_cache.specs.Rule.{backs, back_bit};
ghost use Rattle.obj_cache.specs.Leaving.{first_bit};
ghost use Rattle.gm_words.specs.Allowed.{MayPass};
ghost use Rattle.gm_words.specs.Changes.{changed};
ghost use Rattle.gm_words.specs.Flow.{quiet_flow};
ghost use Rattle.gm_model.specs.Flows.{put_in, ask_in, hold_in, again_in, gone_in};
ghost use Rattle.gm_model.specs.Memory.{queued_bytes};
ghost use Rattle.gm_model.specs.Xbar.{read_of};
ghost use Rattle.obj_core.specs.Kept.{outlet_of};
ghost use Rattle.obj_core.specs.Out.{extended};

use ev_queue::{EventHandle, EventQueue};
use gc_base::{NoMemory, PortNo, Tick};
use gm_model::{Cmd, Packet};
use obj_core::{Flow, Outbox};
use std::alloc::Global;
use std::marker::Model;

/// What leaves for memory, and how many write-backs are among it.
#[derive(Drop)]
pub(crate) struct Leaving {
    flow: Flow,
    backs: u32,
}

impl Model for Leaving {
    ghost use Rattle.obj_core.specs.Kept.{Kept};
    ghost use Rattle.obj_cache.specs.Leaving.{AreCounted};

    ghost Value = { Kept };

    ghost view = { λ l. l.flow };

    ghost invariant = { λ l. AreCounted l.backs l.flow };
}

impl Leaving {
    /// A queue with nothing in it.
    pub(crate) fn new(alloc: Global, places: u32) -> Result<Leaving, NoMemory>
        ensures { IfOk result (λ l. l ≡ record { flow = quiet_flow; places = places }) }
    {
        Ok(Leaving {
            flow: Flow::new(alloc, places)?,
            backs: 0,
        })
    }

    /// Whether nothing is in it.
    pub(crate) fn is_empty(&self) -> bool
        ensures { result ≡ (length self.now.flow.items == 0) }
    {
        self.flow.is_empty()
    }

    /// How many write-backs are in it.
    pub(crate) fn backs(&self) -> u32
        ensures { result ≡ backs self.now.flow.items }
    {
        self.backs
    }

    /// The tick from which on the packet behind the first may be offered, if there is one.
    pub(crate) fn next_ready(&self) -> Option<Tick>
        ensures { result ≡ option_map (λ q. q.ready) (slice_get self.now.flow.items 1) }
    {
        self.flow.next_ready()
    }

    /// Puts a packet at the end, which may be offered from a tick on. If it is the first, its event comes then.
    pub(crate) fn put(
        &mut self,
        p: &Packet,
        ready: Tick,
        event: &EventHandle<10>,
        q: &mut EventQueue,
    )
        requires few { length self.old.flow.items ≤ 512 }
        requires room { length self.old.flow.items < self.old.places }
        requires size { MayPass p.now }
        requires known { IsTrue (gave q.old.table event.now.owner event.now.slot 10) }
        ensures flow { self.new ≡ record self.old {
          flow = (put_in (outlet_of event.now.slot 10) p.now ready self.old.flow.items self.old.flow.out).flow;
        } }
        ensures events { q.new ≡ record q.old {
          pending = changed event.now.owner q.old.pending (put_in (outlet_of event.now.slot 10) p.now ready self.old.flow.items self.old.flow.out).changes;
        } }
    {
        self.backs += back_count(p);
        self.flow.put(p, ready, event, q);
    }

    /// Drops the first packet. If there is a next one, its event comes at a tick.
    pub(crate) fn drop_first(&mut self, next: Tick, event: &EventHandle<10>, q: &mut EventQueue)
        requires known { IsTrue (gave q.old.table event.now.owner event.now.slot 10) }
        ensures flow { self.new ≡ record self.old { flow = (gone_in (outlet_of event.now.slot 10) next self.old.flow.items).flow } }
        ensures events { q.new ≡ record q.old {
          pending = changed event.now.owner q.old.pending (gone_in (outlet_of event.now.slot 10) next self.old.flow.items).changes;
        } }
    {
        self.backs -= self.first_count();
        self.flow.drop_first(next, event, q);
    }

    /// How many write-backs the first packet is: 1, or 0.
    fn first_count(&self) -> u32
        ensures { result ≡ first_bit self.now.flow.items }
    {
        match self.flow.first() {
            Some(first) => back_count(first),
            None => 0,
        }
    }

    /// At its event the first packet is offered.
    pub(crate) fn ask(&mut self, port: PortNo, out: &mut Outbox)
        requires { length out.old.items < 272 }
        ensures flow { self.new ≡ record self.old { flow = (ask_in port.0 self.old.flow.items self.old.flow.out).flow } }
        ensures out { out.new ≡ extended out.old (ask_in port.0 self.old.flow.items self.old.flow.out).acts [] out.old.next }
    {
        self.flow.ask(port, out);
    }

    /// Its offer was refused: it waits.
    pub(crate) fn hold(&mut self)
        ensures { self.new ≡ record self.old { flow = (hold_in self.old.flow.items self.old.flow.out).flow } }
    {
        self.flow.hold();
    }

    /// It is called: what waits is offered again.
    pub(crate) fn ask_again(&mut self, port: PortNo, out: &mut Outbox)
        requires { length out.old.items < 272 }
        ensures flow { self.new ≡ record self.old { flow = (again_in port.0 self.old.flow.items self.old.flow.out).flow } }
        ensures out { out.new ≡ extended out.old (again_in port.0 self.old.flow.items self.old.flow.out).acts [] out.old.next }
    {
        self.flow.ask_again(port, out);
    }

    /// Answers a read without time, if a write-back in it covers its address: the newest does.
    pub(crate) fn read(&self, p: &mut Packet) -> bool
        requires { MayPass p.old }
        ensures answered { result ≡ is_some (queued_bytes self.now.flow.items p.old.addr p.old.size) }
        ensures packet { p.new ≡ read_of p.old (queued_bytes self.now.flow.items p.old.addr p.old.size) }
    {
        self.flow.read(p)
    }
}

/// How many write-backs a packet is: 1, or 0.
fn back_count(p: &Packet) -> u32
    ensures value { result ≡ back_bit p.now.cmd }
    ensures most { result ≤ 1 }
{
    match p.cmd {
        Cmd::WriteBack => 1,
        Cmd::Read | Cmd::Write | Cmd::ReadResp | Cmd::WriteResp => 0,
    }
}
