// What a part has to send from one port: the packets in order, and how the first of them stands.
ghost use Rattle.std.specs.Prelude.{◌≡◌, ◌-◌, ◌<◌, ◌≤◌, ◌==◌, [], ◌∷◌, ◌++◌, length, take, drop, nat_lt, IfOk, IfSome, IsTrue, is_some, option_copied, slice_get};
ghost use Rattle.std.specs.Option.{option_map};
ghost use Rattle.ev_queue.specs.SlotTable.{gave};
ghost use Rattle.gm_words.specs.Allowed.{MayPass};
ghost use Rattle.gm_words.specs.Changes.{changed};
ghost use Rattle.gm_words.specs.Flow.{quiet_flow, Waits};
ghost use Rattle.pkt_pool.specs.Packet.{carried_bytes, read_response};
ghost use Rattle.gm_model.specs.Flows.{head_of, is_due_out, put_in, ask_in, hold_in, again_in, gone_in};
ghost use Rattle.gm_model.specs.Memory.{queued_bytes, covers};
ghost use Rattle.gm_model.specs.Xbar.{read_of};
ghost use Rattle.obj_core.specs.Kept.{is_waiting, outlet_of, with_first, with_front, offered, offers};
ghost use Rattle.obj_core.specs.Out.{extended};

use crate::outbox::Outbox;
use ev_queue::{EventHandle, EventQueue};
use gc_base::{NoMemory, PortNo, Tick};
use gm_model::{Act, Packet};
use pkt_pool::Pool;
use std::alloc::Global;
use std::collections::VecDeque;
use std::marker::Model;

/// How the first packet stands.
#[derive(Clone, Copy)]
enum Head {
    /// There is none.
    Quiet,
    /// Its event is pending.
    Due,
    /// It is offered.
    Asked,
    /// It was refused, and waits for a call.
    Waits,
}

/// Where a packet is kept, and the tick from which on it may be offered.
#[derive(Clone, Copy)]
struct Place {
    key: usize,
    ready: Tick,
}

/// What a part has to send from one port. There is a place for so many packets, and it takes no memory once it is made.
#[derive(Drop)]
pub struct Flow {
    pool: Pool,
    queue: VecDeque<Place>,
    head: Head,
    places: u32,
}

impl Model for Flow {
    ghost use Rattle.std.specs.VecDeque.{deque_capacity};
    ghost use Rattle.obj_core.specs.Kept.{Kept, queued, out_of, IsKept};

    ghost Value = { Kept };

    ghost view = { λ f. record { flow = record { items = queued f.pool f.queue.items; out = out_of f.head }; places = f.places } };

    ghost invariant = { λ f. IsKept f.places f.pool f.queue.items (deque_capacity f.queue) };
}

impl Flow {
    /// A flow with nothing in it.
    pub fn new(alloc: Global, places: u32) -> Result<Flow, NoMemory>
        ensures { IfOk result (λ f. f ≡ record { flow = quiet_flow; places = places }) }
    {
        Ok(Flow {
            pool: Pool::new(alloc, places)?,
            queue: VecDeque::with_capacity(alloc, places as usize)?,
            head: Head::Quiet,
            places,
        })
    }

    // What is in it.

    /// Whether nothing is in it.
    pub fn is_empty(&self) -> bool
        ensures { result ≡ (length self.now.flow.items == 0) }
    {
        self.queue.is_empty()
    }

    /// Whether there is a place for one more packet.
    pub fn has_room(&self) -> bool
        ensures { result ≡ nat_lt (length self.now.flow.items) self.now.places }
    {
        self.queue.len() < self.places as usize
    }

    /// Whether the event of the first packet is pending.
    pub fn is_due(&self) -> bool
        ensures { result ≡ is_due_out self.now.flow.out }
    {
        matches!(self.head, Head::Due)
    }

    /// Whether the first packet was refused, and waits.
    pub fn waits(&self) -> bool
        ensures { result ≡ is_waiting self.now.flow.out }
    {
        matches!(self.head, Head::Waits)
    }

    /// The first packet, lent, if there is one.
    pub fn first(&self) -> Option<&Packet>
        ensures packet { option_copied result ≡ head_of self.now.flow.items }
        ensures size { IfSome result (λ p. MayPass p.now) }
    {
        self.pool.get(self.queue.front()?.key)
    }

    /// The tick from which on the packet behind the first may be offered, if there is one.
    pub fn next_ready(&self) -> Option<Tick>
        ensures { result ≡ option_map (λ q. q.ready) (slice_get self.now.flow.items 1) }
    {
        if self.queue.len() < 2 {
            return None;
        }
        Some(self.queue[1].ready)
    }

    // Packets in and out.

    /// Puts a packet at the end, which may be offered from a tick on. If it is the first, its event comes then.
    pub fn put<const CLASS: u8>(
        &mut self,
        p: &Packet,
        ready: Tick,
        event: &EventHandle<CLASS>,
        q: &mut EventQueue,
    )
        requires room { length self.old.flow.items < self.old.places }
        requires size { MayPass p.now }
        requires known { IsTrue (gave q.old.table event.now.owner event.now.slot CLASS) }
        ensures flow { self.new ≡ record self.old {
          flow = (put_in (outlet_of event.now.slot CLASS) p.now ready self.old.flow.items self.old.flow.out).flow;
        } }
        ensures events { q.new ≡ record q.old {
          pending = changed event.now.owner q.old.pending
              (put_in (outlet_of event.now.slot CLASS) p.now ready self.old.flow.items self.old.flow.out).changes;
        } }
    {
        if self.queue.is_empty() {
            self.head = Head::Due;
            q.reschedule(event, ready);
        }
        self.put_last(p, ready);
    }

    /// Puts a packet into the pool, and its key at the end.
    fn put_last(&mut self, p: &Packet, ready: Tick)
        requires room { length self.old.flow.items < self.old.places }
        requires size { MayPass p.now }
        ensures { self.new ≡ record self.old {
          flow = record self.old.flow { items = self.old.flow.items ++ record { packet = p.now; ready = ready } ∷ [] };
        } }
    {
        let key = self.pool.put_reserved(*p);
        self.queue.push_back_reserved(Place { key, ready });
    }

    /// Drops the first packet. If there is a next one, its event comes at a tick.
    pub fn drop_first<const CLASS: u8>(
        &mut self,
        next: Tick,
        event: &EventHandle<CLASS>,
        q: &mut EventQueue,
    )
        requires known { IsTrue (gave q.old.table event.now.owner event.now.slot CLASS) }
        ensures flow { self.new ≡ record self.old { flow = (gone_in (outlet_of event.now.slot CLASS) next self.old.flow.items).flow } }
        ensures events { q.new ≡ record q.old {
          pending = changed event.now.owner q.old.pending (gone_in (outlet_of event.now.slot CLASS) next self.old.flow.items).changes;
        } }
    {
        self.take_first();
        if self.queue.is_empty() {
            self.head = Head::Quiet;
        } else {
            self.head = Head::Due;
            q.reschedule(event, next);
        }
    }

    /// Takes the first packet's key out, and the packet out of the pool.
    fn take_first(&mut self)
        ensures { self.new ≡ record self.old { flow = record self.old.flow { items = drop 1 self.old.flow.items } } }
    {
        if let Some(place) = self.queue.pop_front() {
            self.pool.take(place.key);
        }
    }

    /// Drops the only packet, if there is one.
    pub fn drop_only(&mut self)
        requires { length self.old.flow.items ≤ 1 }
        ensures { self.new ≡ record self.old { flow = quiet_flow } }
    {
        self.take_first();
        self.head = Head::Quiet;
    }

    /// Another packet stands in place of the first.
    pub fn replace_first(&mut self, p: &Packet)
        requires { MayPass p.now }
        ensures { self.new ≡ record self.old { flow = record self.old.flow { items = with_first p.now self.old.flow.items } } }
    {
        if let Some(place) = self.queue.front() {
            let ready = place.ready;
            self.put_first(p, ready);
        }
    }

    /// Another packet stands in place of the first, and waits.
    pub fn wait_as(&mut self, p: &Packet)
        requires { MayPass p.now }
        ensures { self.new ≡ record self.old { flow = record { items = with_front p.now 0 self.old.flow.items; out = Waits } } }
    {
        if let Some(start) = Tick::new(0) {
            self.put_first(p, start);
        }
        self.head = Head::Waits;
    }

    /// Puts a packet, which may be offered from a tick on, in place of the first, if there is one.
    fn put_first(&mut self, p: &Packet, ready: Tick)
        requires { MayPass p.now }
        ensures { self.new ≡ record self.old { flow = record self.old.flow { items = with_front p.now ready self.old.flow.items } } }
    {
        if let Some(first) = self.queue.pop_front() {
            self.pool.take(first.key);
            let key = self.pool.put_reserved(*p);
            self.queue.push_front_reserved(Place { key, ready });
        }
    }

    // Offers.

    /// At its event the first packet is offered.
    pub fn ask(&mut self, port: PortNo, out: &mut Outbox)
        requires { length out.old.items < 272 }
        ensures flow { self.new ≡ record self.old { flow = (ask_in port.0 self.old.flow.items self.old.flow.out).flow } }
        ensures out { out.new ≡ extended out.old (ask_in port.0 self.old.flow.items self.old.flow.out).acts [] out.old.next }
    {
        if let Head::Due = self.head {
            self.offer(port, out);
        }
    }

    /// Its offer was refused: it waits.
    pub fn hold(&mut self)
        ensures { self.new ≡ record self.old { flow = (hold_in self.old.flow.items self.old.flow.out).flow } }
    {
        if let Head::Asked = self.head {
            self.head = Head::Waits;
        }
    }

    /// It is called: what waits is offered again.
    pub fn ask_again(&mut self, port: PortNo, out: &mut Outbox)
        requires { length out.old.items < 272 }
        ensures flow { self.new ≡ record self.old { flow = (again_in port.0 self.old.flow.items self.old.flow.out).flow } }
        ensures out { out.new ≡ extended out.old (again_in port.0 self.old.flow.items self.old.flow.out).acts [] out.old.next }
    {
        if let Head::Waits = self.head {
            self.offer(port, out);
        }
    }

    /// Offers the first packet, if there is one.
    fn offer(&mut self, port: PortNo, out: &mut Outbox)
        requires { length out.old.items < 272 }
        ensures flow { self.new ≡ record self.old { flow = offered self.old.flow.items self.old.flow.out } }
        ensures out { out.new ≡ extended out.old (offers port.0 self.old.flow.items) [] out.old.next }
    {
        if let Some(first) = self.first() {
            out.push(Act::Offer { port, pkt: *first });
            self.head = Head::Asked;
        }
    }

    // Packets without time.

    /// Answers a read without time, if a write-back is among the packets that covers its address: the newest does.
    pub fn read(&self, p: &mut Packet) -> bool
        requires { MayPass p.old }
        ensures answered { result ≡ is_some (queued_bytes self.now.flow.items p.old.addr p.old.size) }
        ensures packet { p.new ≡ read_of p.old (queued_bytes self.now.flow.items p.old.addr p.old.size) }
    {
        let mut n = self.queue.len();
        while n > 0 {
            n -= 1;
            if let Some(held) = self.pool.get(self.queue[n].key) {
                if covers(held, p.addr) {
                    answer(p, held);
                    return true;
                }
            }
        }
        false
    }
}

/// Whether a packet is a write-back of bytes among which the address is.
fn covers(held: &Packet, addr: u64) -> bool
    ensures { result ≡ covers held.now addr }
{
    held.is_write_back() && held.addr <= addr && addr - held.addr < held.size as u64
}

/// Answers a read by what a write-back that covers its address carries.
#[tactic(auto, using(std::proofs::lemmas::List::take_min))]
fn answer(p: &mut Packet, held: &Packet)
    requires size { MayPass p.old }
    requires bytes { MayPass held.now }
    requires covers { IsTrue (covers held.now p.old.addr) }
    ensures { p.new ≡ read_response p.old (take p.old.size (drop (p.old.addr - held.now.addr) (carried_bytes held.now))) }
{
    let from = (p.addr - held.addr) as usize;
    let rest = &held.bytes[..held.size as usize][from..];
    let count = (p.size as usize).min(rest.len());
    p.answer(&rest[..count]);
}
