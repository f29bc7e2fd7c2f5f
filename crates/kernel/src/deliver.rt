// One item at a time: a packet is passed on, its sender is told, or a part is woken.
ghost use Rattle.std.specs.Prelude.{◌≡◌, ℕ, ◌≤◌, [], length, IfSome};
ghost use Rattle.std.specs.Bool.{OnTrue, OnFalse};
ghost use Rattle.std.specs.Option.{option_map};
ghost use Rattle.gc_base.specs.declared.limits.TheConstants.{LATENCY_MAX};
ghost use Rattle.gm_model.specs.Deliver.{deliver_wake, deliver_passed, done_at, deliver_atomic, deliver_line, deliver_offer, passes_max, told_wake, way_latency};
ghost use Rattle.gm_model.specs.Sys.{active_cpu, pass_at, peer_in, step_at};
ghost use Rattle.gm_words.specs.declared.wake.Wake.TheVariants.{Line, AtomicDone};
ghost use Rattle.kernel.specs.Ready.{IsReadyForWake, IsReadyForPacket, MayGoOn, HasItemRoom, IsPassedFirst, IsUnderWay, Delivers, MayOffer};

use crate::boxes::{arch_box, pass_box, wake_box};
use crate::machine::Machine;
use gc_base::{ObjId, PortNo};
use gm_model::{Act, Answer, Packet, Wake, Way};
use obj_core::Item;

/// How many parts a packet is passed through at most.
const PASSES_MAX: u32 = 8;

/// What is told to who offered: any other answer than a refusal is taken for one that took the packet.
fn told(answer: Answer, port: PortNo) -> Wake
    ensures { result ≡ told_wake answer port.0 }
{
    match answer {
        Answer::Refused => Wake::Refused { port },
        Answer::Taken | Answer::Nothing => Wake::Taken { port },
    }
}

impl Machine {
    ghost use Rattle.kernel.specs.Shown.{sys_of, delivery_of};

    /// Delivers the first item, if one is left. Where that is a packet and nothing else is to be delivered, its sender is
    /// told at once, which is the next item.
    #[inline(always)]
    pub(crate) fn deliver_item(&mut self) -> bool
        requires { IsUnderWay (delivery_of state self.old) self.old.queue.table }
        ensures delivered { OnTrue result (Delivers 1 (delivery_of state self.old) (delivery_of state self.new)) }
        ensures none { OnFalse result (delivery_of state self.new ≡ delivery_of state self.old) }
        ensures landed { OnFalse result (self.old.out.items ≡ []) }
        ensures table { self.new.queue.table ≡ self.old.queue.table }
        ensures counters { self.new.counters ≡ self.old.counters }
    {
        let none_left = self.out.is_empty();
        if none_left {
            return false;
        }
        self.deliver_first();
        true
    }

    /// Delivers the first item. Most are packets that are passed at once. The others are kept apart, so that their locals,
    /// which are cleared where a function begins, are cleared for them alone.
    #[inline(always)]
    fn deliver_first(&mut self)
        requires { IsUnderWay (delivery_of state self.old) self.old.queue.table }
        ensures delivered { Delivers 1 (delivery_of state self.old) (delivery_of state self.new) }
        ensures table { self.new.queue.table ≡ self.old.queue.table }
        ensures counters { self.new.counters ≡ self.old.counters }
    {
        match self.out.first() {
            Some(
                Item::Sent {
                    sender,
                    act: Act::Atomic { port, pkt },
                },
            ) => {
                let (sender, port) = (*sender, *port);
                let packet = *pkt;
                self.pass_on(sender, port, packet);
            }
            _ => self.deliver_any(),
        }
    }

    /// Delivers the first item, whichever it is.
    #[inline(never)]
    fn deliver_any(&mut self)
        requires { IsUnderWay (delivery_of state self.old) self.old.queue.table }
        ensures delivered { Delivers 1 (delivery_of state self.old) (delivery_of state self.new) }
        ensures table { self.new.queue.table ≡ self.old.queue.table }
        ensures counters { self.new.counters ≡ self.old.counters }
    {
        match self.out.first() {
            None => {}
            Some(
                Item::Sent {
                    sender,
                    act: Act::Atomic { port, pkt },
                },
            ) => {
                let (sender, port) = (*sender, *port);
                let packet = *pkt;
                self.pass_on(sender, port, packet);
            }
            Some(
                Item::Sent {
                    act: Act::SetLine { bit, level },
                    ..
                },
            ) => {
                let (bit, level) = (*bit, *level);
                self.out.drop_first();
                self.set_line(bit, level);
            }
            Some(
                Item::Sent {
                    sender,
                    act: Act::Offer { port, pkt },
                },
            ) => {
                let (sender, port, packet) = (*sender, *port, *pkt);
                self.out.drop_first();
                self.offer(sender, port, packet);
            }
            Some(
                Item::Sent {
                    sender,
                    act: Act::CallRetry { port },
                },
            ) => {
                let called = self.board.peer(*sender, *port);
                self.out.drop_first();
                self.wake(called.part, Wake::Retry { port: called.port });
            }
            Some(
                Item::Done {
                    sender,
                    pkt,
                    latency,
                },
            ) => {
                let sender = *sender;
                let done = Wake::AtomicDone {
                    pkt: *pkt,
                    latency: *latency,
                };
                self.out.drop_first();
                self.wake(sender, done);
            }
        }
    }

    /// Passes the first item on, which is this packet that a sender passes from a port and waits for, and tells the sender.
    #[inline(always)]
    fn pass_on(&mut self, sender: ObjId, port: PortNo, mut packet: Packet)
        requires under_way { IsUnderWay (delivery_of state self.old) self.old.queue.table }
        requires first { IsPassedFirst self.old.out.items sender.0 port packet }
        ensures delivered { Delivers 1 (delivery_of state self.old) (delivery_of state self.new) }
        ensures table { self.new.queue.table ≡ self.old.queue.table }
        ensures counters { self.new.counters ≡ self.old.counters }
    {
        self.out.drop_first();
        let first = self.board.way(sender, port);
        let latency = self.pass(first.part, &mut packet);
        self.answer(sender, packet, latency);
    }

    /// Tells a sender of the packet that it passed on: at once, if nothing else is to be delivered, and else after that.
    #[inline(always)]
    fn answer(&mut self, sender: ObjId, packet: Packet, latency: u64)
        requires room { HasItemRoom (delivery_of state self.old) }
        requires ready { self.old.out.items ≡ []
            → IsReadyForWake (delivery_of state self.old) self.old.queue.table sender.0 (AtomicDone packet latency) }
        ensures told { Delivers 0 (done_at (delivery_of state self.old) sender.0 packet latency)
            (delivery_of state self.new) }
        ensures table { self.new.queue.table ≡ self.old.queue.table }
        ensures counters { self.new.counters ≡ self.old.counters }
    {
        if self.out.is_empty() {
            let done = Wake::AtomicDone {
                pkt: packet,
                latency,
            };
            self.wake(sender, done);
        } else {
            self.out.push_done(sender, packet, latency);
        }
    }

    /// Wakes a part.
    #[inline(always)]
    pub(crate) fn wake(&mut self, i: ObjId, w: Wake) -> Answer
        requires room { HasItemRoom (delivery_of state self.old) }
        requires ready { IsReadyForWake (delivery_of state self.old) self.old.queue.table i.0 w }
        ensures delivered { delivery_of state self.new ≡ deliver_wake (delivery_of state self.old) i.0 w }
        ensures answer { result ≡ (step_at (sys_of state self.old) i.0 w).answer }
        ensures table { self.new.queue.table ≡ self.old.queue.table }
        ensures counters { self.new.counters ≡ self.old.counters }
    {
        self.out.for_sender(i);
        wake_box(
            &mut self.parts[i.0 as usize],
            w,
            self.tick,
            &mut self.queue,
            &mut self.out,
        )
    }

    /// Shows a packet to the peer of a port, and tells the sender what the peer answers.
    fn offer(&mut self, sender: ObjId, port: PortNo, packet: Packet)
        requires room { HasItemRoom (delivery_of state self.old) }
        requires allowed { MayOffer (delivery_of state self.old) self.old.queue.table sender.0 port.0 packet
            (peer_in (sys_of state self.old).wires sender.0 port.0) }
        ensures delivered { delivery_of state self.new ≡ deliver_offer (delivery_of state self.old) sender.0 port.0 packet
            (peer_in (sys_of state self.old).wires sender.0 port.0) }
        ensures table { self.new.queue.table ≡ self.old.queue.table }
        ensures counters { self.new.counters ≡ self.old.counters }
    {
        let shown = self.board.peer(sender, port);
        let answer = self.wake(
            shown.part,
            Wake::Offer {
                port: shown.port,
                pkt: packet,
            },
        );
        self.wake(sender, told(answer, port));
    }

    /// Gives the active CPU, if there is one, an interrupt line's level.
    fn set_line(&mut self, bit: u8, level: bool)
        requires room { HasItemRoom (delivery_of state self.old) }
        requires few { length (sys_of state self.old).objects ≤ 256 }
        requires ready { IfSome (active_cpu (sys_of state self.old).objects)
            (λ i. IsReadyForWake (delivery_of state self.old) self.old.queue.table i (Line bit level)) }
        ensures delivered { delivery_of state self.new
            ≡ deliver_line (delivery_of state self.old) (Line bit level) (active_cpu (sys_of state self.old).objects) }
        ensures table { self.new.queue.table ≡ self.old.queue.table }
        ensures counters { self.new.counters ≡ self.old.counters }
    {
        if let Some(cpu) = self.active_cpu() {
            self.wake(cpu, Wake::Line { bit, level });
        }
    }

    /// The active CPU, if there is one.
    fn active_cpu(&self) -> Option<ObjId>
        requires { length (sys_of state self.now).objects ≤ 256 }
        ensures { option_map (λ o. o.0) result ≡ active_cpu (sys_of state self.now).objects }
    {
        for i in 0..self.parts.len() {
            if arch_box(&self.parts[i]).is_some() {
                return Some(ObjId(i as u8));
            }
        }
        None
    }

    /// Passes a packet from part to part until one serves it, which makes it the response, and gives how long that took, in ticks.
    #[inline(always)]
    fn pass(&mut self, first: ObjId, packet: &mut Packet) -> u64
        requires room { HasItemRoom (delivery_of state self.old) }
        requires allowed { MayGoOn (delivery_of state self.old) self.old.queue.table first.0 packet.old }
        ensures delivered { (sender : ℕ) → done_at (delivery_of state self.new) sender packet.new result
            ≡ deliver_atomic passes_max (delivery_of state self.old) sender first.0 packet.old 0 }
        ensures table { self.new.queue.table ≡ self.old.queue.table }
        ensures counters { self.new.counters ≡ self.old.counters }
    {
        let mut part = first;
        let mut before = 0;
        'parts: for _n in 0..PASSES_MAX {
            match self.pass_to(part, packet) {
                Way::Done { latency } => return before + latency,
                Way::Pass { port, latency } => {
                    part = self.board.peer(part, port).part;
                    before += latency;
                }
            }
        }
        unreachable!()
    }

    /// Passes a packet to a part, and gives what became of it there.
    #[inline(always)]
    fn pass_to(&mut self, part: ObjId, packet: &mut Packet) -> Way
        requires room { HasItemRoom (delivery_of state self.old) }
        requires ready { IsReadyForPacket (delivery_of state self.old) self.old.queue.table part.0 packet.old }
        ensures passed { delivery_of state self.new ≡ deliver_passed (delivery_of state self.old) part.0 packet.old }
        ensures packet { packet.new ≡ (pass_at (sys_of state self.old) part.0 packet.old).packet }
        ensures way { result ≡ (pass_at (sys_of state self.old) part.0 packet.old).way }
        ensures most { way_latency result ≤ LATENCY_MAX }
        ensures table { self.new.queue.table ≡ self.old.queue.table }
        ensures counters { self.new.counters ≡ self.old.counters }
    {
        self.out.for_sender(part);
        pass_box(
            &mut self.parts[part.0 as usize],
            packet,
            self.tick,
            &mut self.queue,
            &mut self.out,
        )
    }
}
