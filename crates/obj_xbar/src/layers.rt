// A crossbar that is configured: its layers.
ghost use Rattle.std.specs.Prelude.{◌≡◌, ◌+◌, ◌<◌, ◌≤◌, [], length, replicate, true, false, IsTrue, IsFalse, IfOk};
ghost use Rattle.gc_base.specs.declared.limits.TheConstants.{LATENCY_MAX};
ghost use Rattle.gm_words.specs.Allowed.{MayPass, MayCome};
ghost use Rattle.gm_words.specs.Flow.{empty_lane};
ghost use Rattle.pkt_pool.specs.Packet.{is_response};
ghost use Rattle.gm_words.specs.PortUses.{xbar_classes, used, is_total};
ghost use Rattle.gm_words.specs.Slots.{gave_from};
ghost use Rattle.gm_words.specs.declared.wake.Wake.TheVariants as wakes;
ghost use Rattle.gm_words.specs.declared.answer.Answer.TheVariants.{Refused};
ghost use Rattle.gm_model.specs.Flows.{refusal_of};
ghost use Rattle.gm_model.specs.ObjState.{Xbar};
ghost use Rattle.gm_model.specs.Ports.{ComesWithin};
ghost use Rattle.gm_model.specs.Xbar.{xbar_start, xbar_step, xbar_offer, xbar_atomic, xbar_functional, is_xbar_drained, are_idle, held_bytes, read_of};
ghost use Rattle.obj_core.specs.Handles.{handles_from};
ghost use Rattle.obj_core.specs.Out.{HasRoom, extended};
ghost use Rattle.obj_core.specs.Step.{Takes, Answers};

use crate::lane::Lane;
use crate::ports::Ports;
use crate::turned::turned;
use ev_queue::{EventHandle, EventQueue};
use gc_base::limits::TOP;
use gc_base::{NoMemory, PortNo, SlotNo, Tick};
use gm_model::{Answer, Entry, Packet, Params, PortUse, Wake, Way};
use obj_core::Outbox;
use std::alloc::Global;

/// A crossbar that is configured: a layer for each port, and one for addresses of no port.
#[derive(Drop)]
pub struct Layers {
    pub(crate) line: u32,
    pub(crate) ram: u32,
    pub(crate) timing: bool,
    pub(crate) draining: bool,
    /// How long a packet stands in a layer before it is offered, in ticks.
    pub(crate) latency: u64,
    pub(crate) ports: Ports,
    pub(crate) lanes: Vec<Lane>,
    pub(crate) side: Lane,
    /// How many ports are called before the packet of the layer of no port, where it waits.
    pub(crate) ahead: usize,
    ghost short: { latency ≤ LATENCY_MAX },
    ghost few: { length ports.uses ≤ 8 },
    ghost long: { length lanes.items ≡ length ports.uses },
    ghost sided: { length side.flow.items ≤ length ports.uses },
}

impl Layers {
    ghost use Rattle.obj_xbar.specs.Shown.{xbar_state};

    // Set-up.

    /// A crossbar at its start: in atomic mode, draining, and with nothing in its layers.
    pub(crate) fn start(
        alloc: Global,
        params: &Params,
        latency: u64,
        uses: &[PortUse; 8],
        response: Vec<EventHandle<0>>,
        request: Vec<EventHandle<10>>,
    ) -> Result<Layers, NoMemory>
        requires short { latency ≤ LATENCY_MAX }
        requires response { response.items ≡ handles_from params.now.object.0 0 0 (xbar_classes (used uses.now)) }
        requires request { request.items ≡ handles_from params.now.object.0 10 0 (xbar_classes (used uses.now)) }
        ensures { IfOk result (λ l. Xbar (xbar_state l) ≡ xbar_start params.now latency uses.now) }
    {
        let ports = Ports::new(alloc, params.object, uses, response, request)?;
        let lanes = empty_lanes(alloc, ports.len())?;
        Ok(Layers {
            line: params.line,
            ram: params.ram,
            timing: false,
            draining: true,
            latency,
            ports,
            lanes,
            side: Lane::new(alloc)?,
            ahead: 0,
        })
    }

    /// The tick at which a packet is offered that comes in now.
    pub(crate) fn offered_at(&self, now: Tick) -> Tick
        requires { now ≤ TOP }
        ensures { result ≡ now + self.now.latency }
    {
        match now.after(self.latency) {
            Ok(tick) => tick,
            Err(_) => now,
        }
    }

    // Wakes.

    /// Its step rule.
    #[tactic(auto, using(obj_core::proofs::StepLemmas::hold_acts, obj_core::proofs::StepLemmas::hold_changes, obj_core::proofs::StepLemmas::again_changes))]
    pub(crate) fn wake(
        &mut self,
        w: &Wake,
        now: Tick,
        q: &mut EventQueue,
        out: &mut Outbox,
    ) -> Answer
        requires wake { MayCome w.now }
        requires port { ComesWithin (Xbar (xbar_state self.old)) w.now }
        requires tick { now ≤ TOP }
        requires room { HasRoom out.old }
        requires handles { IsTrue (gave_from q.old.table self.old.ports.object 0 (xbar_classes self.old.ports.uses)) }
        ensures { Answers (xbar_step (xbar_state self.old) out.old.next w.now now)
            (Xbar (xbar_state self.old)) (Xbar (xbar_state self.new)) q.old q.new out.old out.new result }
    {
        match w {
            Wake::Offer { port, pkt } => return self.offered(*port, pkt, now, q, out),
            Wake::Event { slot } => self.event(*slot, now, q, out),
            Wake::Taken { port } => self.taken(*port, now, q, out),
            Wake::Refused { port } => self.lanes[port.0 as usize].hold(),
            Wake::Retry { port } => self.lanes[port.0 as usize].ask_again(*port, out),
            Wake::Line { .. } | Wake::AtomicDone { .. } => {}
        }
        Answer::Nothing
    }

    /// A packet is offered at a port: it is taken where the place of its layer is free.
    #[tactic(auto, using(crate::proofs::LayerLemmas::layer_within), unfolding(gm_model::specs::Xbar::layer_of))]
    fn offered(
        &mut self,
        port: PortNo,
        p: &Packet,
        now: Tick,
        q: &mut EventQueue,
        out: &mut Outbox,
    ) -> Answer
        requires size { MayPass p.now }
        requires port { port.0 < length self.old.ports.uses }
        requires tick { now ≤ TOP }
        requires room { HasRoom out.old }
        requires handles { IsTrue (gave_from q.old.table self.old.ports.object 0 (xbar_classes self.old.ports.uses)) }
        ensures { Answers (xbar_step (xbar_state self.old) out.old.next (wakes.Offer port p.now) now)
            (Xbar (xbar_state self.old)) (Xbar (xbar_state self.new)) q.old q.new out.old out.new result }
    {
        let to = self.ports.layer_of(p);
        if to == self.lanes.len() {
            self.offered_beside(port, p, now, q, out)
        } else {
            self.offered_to(to, port, p, now, q, out)
        }
    }

    /// A packet is offered whose layer is that of a port.
    #[tactic(auto, using(obj_core::proofs::StepLemmas::put_acts))]
    fn offered_to(
        &mut self,
        to: usize,
        port: PortNo,
        p: &Packet,
        now: Tick,
        q: &mut EventQueue,
        out: &mut Outbox,
    ) -> Answer
        requires to { to < length self.old.ports.uses }
        requires size { MayPass p.now }
        requires port { port.0 < length self.old.ports.uses }
        requires tick { now ≤ TOP }
        requires room { HasRoom out.old }
        requires handles { IsTrue (gave_from q.old.table self.old.ports.object 0 (xbar_classes self.old.ports.uses)) }
        ensures { Answers (xbar_offer (xbar_state self.old) out.old.next to port.0 p.now now false)
            (Xbar (xbar_state self.old)) (Xbar (xbar_state self.new)) q.old q.new out.old out.new result }
    {
        let at = self.offered_at(now);
        let lane = &mut self.lanes[to];
        if lane.has_room() {
            self.ports.put(to, lane, &turned(p, port), at, q);
            return Answer::Taken;
        }
        lane.join(port);
        self.refuse(out)
    }

    /// A packet is offered whose address is of no port.
    #[tactic(auto, using(obj_core::proofs::StepLemmas::put_acts))]
    fn offered_beside(
        &mut self,
        port: PortNo,
        p: &Packet,
        now: Tick,
        q: &mut EventQueue,
        out: &mut Outbox,
    ) -> Answer
        requires sided { IsFalse (is_total self.old.ports.uses) }
        requires size { MayPass p.now }
        requires port { port.0 < length self.old.ports.uses }
        requires tick { now ≤ TOP }
        requires room { HasRoom out.old }
        requires handles { IsTrue (gave_from q.old.table self.old.ports.object 0 (xbar_classes self.old.ports.uses)) }
        ensures { Answers (xbar_offer (xbar_state self.old) out.old.next (length self.old.ports.uses) port.0 p.now now true)
            (Xbar (xbar_state self.old)) (Xbar (xbar_state self.new)) q.old q.new out.old out.new result }
    {
        let at = self.offered_at(now);
        if self.side.has_room() {
            self.ports
                .put_beside(&mut self.side, &turned(p, port), at, q);
            return Answer::Taken;
        }
        self.side.join(port);
        self.refuse(out)
    }

    /// Notes that an offer is refused.
    fn refuse(&self, out: &mut Outbox) -> Answer
        requires { length out.old.entries < 528 }
        ensures answer { result ≡ Refused }
        ensures out { out.new ≡ extended out.old [] (refusal_of self.now.ports.object false) out.old.next }
    {
        out.note(Entry::Refused {
            object: self.ports.object(),
        });
        Answer::Refused
    }

    /// The event of a layer: its packet is offered, or, where its address is of no port, refused by fault.
    #[tactic(auto, using(obj_core::proofs::StepLemmas::ask_changes, crate::proofs::StepLemmas::nothing_there))]
    fn event(&mut self, slot: SlotNo, now: Tick, q: &mut EventQueue, out: &mut Outbox)
        requires tick { now ≤ TOP }
        requires room { HasRoom out.old }
        requires handles { IsTrue (gave_from q.old.table self.old.ports.object 0 (xbar_classes self.old.ports.uses)) }
        ensures { Takes (xbar_step (xbar_state self.old) out.old.next (wakes.Event slot) now)
            (Xbar (xbar_state self.old)) (Xbar (xbar_state self.new)) q.old q.new out.old out.new }
    {
        if self.ports.is_side(slot) {
            self.side_event(now, q, out);
            return;
        }
        let port = self.ports.port_of(slot);
        if port < self.lanes.len() {
            self.lanes[port].ask(PortNo(port as u8), out);
        }
    }

    /// The offer at a port was taken: the first that waits for its layer is called, or it is the layer of no port.
    #[tactic(auto, using(crate::proofs::StepLemmas::once_gone))]
    fn taken(&mut self, port: PortNo, now: Tick, q: &mut EventQueue, out: &mut Outbox)
        requires port { port.0 < length self.old.ports.uses }
        requires tick { now ≤ TOP }
        requires room { HasRoom out.old }
        requires handles { IsTrue (gave_from q.old.table self.old.ports.object 0 (xbar_classes self.old.ports.uses)) }
        ensures { Takes (xbar_step (xbar_state self.old) out.old.next (wakes.Taken port) now)
            (Xbar (xbar_state self.old)) (Xbar (xbar_state self.new)) q.old q.new out.old out.new }
    {
        if !self.side_waits_for(port) {
            self.lanes[port.0 as usize].open(out);
        } else if self.ahead == 0 {
            self.side_enters(port, now, q, out);
        } else {
            self.ahead -= 1;
            self.lanes[port.0 as usize].open(out);
        }
    }

    // Packets at once, and without time.

    /// What becomes of a packet that is passed to it at once.
    pub(crate) fn pass(&self, p: &mut Packet) -> Way
        requires { MayPass p.old }
        ensures packet { p.new ≡ (xbar_atomic (xbar_state self.now) p.old).packet }
        ensures way { result ≡ (xbar_atomic (xbar_state self.now) p.old).way }
    {
        let latency = self.latency;
        let port = self.ports.way_of(p);
        if port == self.ports.len() {
            p.refuse();
            return Way::Done { latency };
        }
        Way::Pass {
            port: PortNo(port as u8),
            latency,
        }
    }

    /// Answers a read without time, if a layer holds a write-back that covers its address.
    pub(crate) fn read(&self, p: &mut Packet)
        requires { MayPass p.old }
        ensures { p.new ≡ xbar_functional (xbar_state self.now) p.old }
    {
        if self.side.read(p) {
            return;
        }
        read_first(&self.lanes, p);
    }

    // Drain.

    /// Whether nothing is in its layers, and nobody waits.
    #[tactic(auto, unfolding(gm_model::specs::Xbar::are_idle))]
    pub(crate) fn is_drained(&self) -> bool
        ensures { result ≡ is_xbar_drained (xbar_state self.now) }
    {
        self.side.is_idle() && are_idle(&self.lanes)
    }
}

/// So many layers with nothing in them.
fn empty_lanes(alloc: Global, count: usize) -> Result<Vec<Lane>, NoMemory>
    ensures { IfOk result (λ ls. ls.items ≡ replicate count empty_lane) }
{
    let mut lanes = Vec::with_capacity(alloc, count)?;
    for _ in 0..count {
        lanes.push(Lane::new(alloc)?)?;
    }
    Ok(lanes)
}

/// Answers a read without time by the first of the layers that holds a write-back which covers its address.
fn read_first(lanes: &[Lane], p: &mut Packet)
    requires { MayPass p.old }
    ensures { p.new ≡ read_of p.old (held_bytes lanes.now p.old.addr p.old.size) }
{
    for lane in lanes {
        if lane.read(p) {
            return;
        }
    }
}

/// Whether nothing is in any of the layers, and nobody waits.
#[tactic(auto, unfolding(gm_model::specs::Xbar::are_idle))]
fn are_idle(lanes: &[Lane]) -> bool
    ensures { result ≡ are_idle lanes.now }
{
    for lane in lanes {
        if !lane.is_idle() {
            return false;
        }
    }
    true
}
