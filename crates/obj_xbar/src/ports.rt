// The ports of a crossbar, with the handles of their layers.
ghost use Rattle.std.specs.Prelude.{◌≡◌, ℕ, ◌+◌, ◌<◌, ◌≤◌, length, false, IsTrue, IsFalse, IfOk};
ghost use Rattle.gm_words.specs.Allowed.{MayPass};
ghost use Rattle.gm_words.specs.Changes.{changed};
ghost use Rattle.pkt_pool.specs.Packet.{is_response, top_port};
ghost use Rattle.gm_words.specs.PortUses.{xbar_classes, used, fore, behind, sides, source_port, slot_of_port, class_of_port, side_slot, request_class, is_total, port_of_slot, is_side_slot};
ghost use Rattle.gm_words.specs.Slots.{gave_from};
ghost use Rattle.gm_model.specs.Flows.{has_room, put_in};
ghost use Rattle.gm_model.specs.Xbar.{layer_for};
ghost use Rattle.obj_core.specs.Handles.{handles_from};

use crate::lane::Lane;
use ev_queue::{EventHandle, EventQueue};
use gc_base::{NoMemory, ObjId, SlotNo, Tick};
use gm_model::{Packet, PortUse};
use gm_words::port_use;
use std::alloc::Global;
use std::marker::Model;

/// The ports of a configured crossbar, up to the last that has a use, with the handles of their layers.
#[derive(Drop)]
pub(crate) struct Ports {
    object: ObjId,
    uses: Vec<PortUse>,
    response: Vec<EventHandle<0>>,
    request: Vec<EventHandle<10>>,
}

impl Model for Ports {
    ghost use Rattle.obj_xbar.specs.Ports.{Ports as Shown, AreKept};

    ghost Value = { Shown };

    ghost view = { λ p. record { object = p.object.0; uses = p.uses.items } };

    ghost invariant = { λ p. AreKept p.object.0 p.uses.items p.response.items p.request.items };
}

impl Ports {
    /// These ports of an object, with its handles.
    pub(crate) fn new(
        alloc: Global,
        object: ObjId,
        ports: &[PortUse; 8],
        response: Vec<EventHandle<0>>,
        request: Vec<EventHandle<10>>,
    ) -> Result<Ports, NoMemory>
        requires response { response.items ≡ handles_from object.0 0 0 (xbar_classes (used ports.now)) }
        requires request { request.items ≡ handles_from object.0 10 0 (xbar_classes (used ports.now)) }
        ensures value { IfOk result (λ p. p ≡ record { object = object.0; uses = used ports.now }) }
        ensures most { IfOk result (λ p. length p.uses ≤ 8) }
    {
        Ok(Ports {
            object,
            uses: Vec::from_slice(alloc, port_use::used(ports))?,
            response,
            request,
        })
    }

    /// Whose ports they are.
    pub(crate) fn object(&self) -> ObjId
        ensures { result.0 ≡ self.now.object }
    {
        self.object
    }

    /// How many ports there are.
    pub(crate) fn len(&self) -> usize
        ensures value { result ≡ length self.now.uses }
        ensures most { result ≤ 8 }
    {
        self.uses.len()
    }

    // Layers.

    /// The layer of a packet; behind those of all ports stands that of no port.
    #[tactic(auto, unfolding(gm_model::specs::Xbar::layer_for))]
    pub(crate) fn layer_of(&self, p: &Packet) -> usize
        ensures { result ≡ layer_for self.now.uses p.now (is_response p.now.cmd) }
    {
        if p.is_response() {
            self.source_of(p)
        } else {
            self.way_of(p)
        }
    }

    /// The layer of a request, by its address.
    #[tactic(auto, unfolding(gm_model::specs::Xbar::layer_for))]
    pub(crate) fn way_of(&self, p: &Packet) -> usize
        ensures value { result ≡ layer_for self.now.uses p.now false }
        ensures most { result ≤ length self.now.uses }
    {
        match port_use::port_for(&self.uses, p.addr) {
            Some(port) if port < self.uses.len() => port,
            _ => self.uses.len(),
        }
    }

    /// The port at which a response goes out.
    #[tactic(auto, using(crate::proofs::LayerLemmas::source_below))]
    pub(crate) fn source_of(&self, p: &Packet) -> usize
        ensures value { result ≡ source_port self.now.uses (top_port p.now) }
        ensures there { 0 < length self.now.uses → result < length self.now.uses }
    {
        port_use::source_port(&self.uses, p.top_port().0 as usize)
    }

    /// The port of a slot that isn't of the layer of no port.
    pub(crate) fn port_of(&self, slot: SlotNo) -> usize
        ensures { result ≡ port_of_slot self.now.uses slot.0 }
    {
        port_use::port_of_slot(&self.uses, slot.0 as usize)
    }

    /// Whether a slot is of the layer of no port.
    pub(crate) fn is_side(&self, slot: SlotNo) -> bool
        ensures { result ≡ is_side_slot self.now.uses slot.0 }
    {
        port_use::is_side_slot(&self.uses, slot.0 as usize)
    }

    // Packets in.

    /// Takes a packet into the free place of a port's layer, which is offered at a tick.
    #[tactic(auto, using(crate::proofs::HandleLemmas::into_layer))]
    pub(crate) fn put(&self, port: usize, lane: &mut Lane, p: &Packet, at: Tick, q: &mut EventQueue)
        requires port { port < length self.now.uses }
        requires room { IsTrue (has_room 1 lane.old) }
        requires size { MayPass p.now }
        requires handles { IsTrue (gave_from q.old.table self.now.object 0 (xbar_classes self.now.uses)) }
        ensures lane { lane.new ≡ record lane.old {
          flow = (put_in (record { port = port; slot = slot_of_port self.now.uses port; class = class_of_port self.now.uses port }) p.now at
              lane.old.flow.items lane.old.flow.out).flow;
        } }
        ensures events { q.new ≡ record q.old {
          pending = changed self.now.object q.old.pending
              (put_in (record { port = port; slot = slot_of_port self.now.uses port; class = class_of_port self.now.uses port }) p.now at
              lane.old.flow.items lane.old.flow.out).changes;
        } }
    {
        let fore = port_use::fore(&self.uses);
        if port < fore {
            lane.put(p, at, self.response(port), q);
        } else {
            lane.put(p, at, self.request(port - fore), q);
        }
    }

    /// Takes a packet into the free place of the layer of no port.
    #[tactic(auto, using(crate::proofs::HandleLemmas::into_side))]
    pub(crate) fn put_beside(&self, side: &mut Lane, p: &Packet, at: Tick, q: &mut EventQueue)
        requires sided { IsFalse (is_total self.now.uses) }
        requires room { IsTrue (has_room 1 side.old) }
        requires size { MayPass p.now }
        requires handles { IsTrue (gave_from q.old.table self.now.object 0 (xbar_classes self.now.uses)) }
        ensures lane { side.new ≡ record side.old {
          flow = (put_in (record { port = length self.now.uses; slot = side_slot self.now.uses; class = request_class }) p.now at
              side.old.flow.items side.old.flow.out).flow;
        } }
        ensures events { q.new ≡ record q.old {
          pending = changed self.now.object q.old.pending
              (put_in (record { port = length self.now.uses; slot = side_slot self.now.uses; class = request_class }) p.now at
              side.old.flow.items side.old.flow.out).changes;
        } }
    {
        let behind = port_use::behind(&self.uses);
        side.put(p, at, self.request(behind), q);
    }

    /// The handle of the layer for responses of a port.
    #[tactic(auto, using(crate::proofs::HandleLemmas::response_count, crate::proofs::HandleLemmas::response_at))]
    fn response(&self, port: usize) -> &EventHandle<0>
        requires { port < fore self.now.uses }
        ensures { result.now ≡ record { owner = self.now.object; slot = behind self.now.uses + sides self.now.uses + port } }
    {
        &self.response[port]
    }

    /// The handle of a layer for requests, by its slot.
    #[tactic(auto, using(crate::proofs::HandleLemmas::request_count, crate::proofs::HandleLemmas::request_at))]
    fn request(&self, slot: usize) -> &EventHandle<10>
        requires { slot < behind self.now.uses + sides self.now.uses }
        ensures { result.now ≡ record { owner = self.now.object; slot = slot } }
    {
        &self.request[slot]
    }
}
