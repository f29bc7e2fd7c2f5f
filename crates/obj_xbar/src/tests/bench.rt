// A crossbar on its own, with the queue that gave its handles.
ghost use Rattle.std.specs.Prelude.{◌≡◌, ◌+◌, ◌-◌, ◌<◌, ◌≤◌, length, replicate, IsTrue, IfOk, OnOk};
ghost use Rattle.ev_queue.specs.SlotTable.{GivesHandle};
ghost use Rattle.gc_base.specs.declared.limits.TheConstants.{LATENCY_MAX};
ghost use Rattle.gm_words.specs.Allowed.{MayPass, MayCome, are_apart};
ghost use Rattle.gm_words.specs.PortUses.{used, behind, sides, xbar_classes};
ghost use Rattle.gm_words.specs.Slots.{gave_from};
ghost use Rattle.gm_model.specs.ObjState.{ObjState};
ghost use Rattle.gm_model.specs.Ports.{HasPort, ComesWithin};
ghost use Rattle.obj_core.specs.Handles.{handles_from};
ghost use Rattle.obj_core.specs.Out.{HasRoom};
ghost use Rattle.obj_xbar.specs.Shown.{shown};
ghost use Rattle.obj_xbar.specs.Stays.{IsXbar, Stay};

use crate::Xbar;
use ev_queue::{EventHandle, EventQueue};
use gc_base::limits::TOP;
use gc_base::{NoMemory, ObjId, SlotNo, Tick};
use gm_model::{Answer, Own, Packet, Params, PortUse, Wake, Way};
use gm_words::port_use;
use obj_core::{Handles, Outbox, SimObject};
use std::alloc::Global;
use std::process::Abort;

/// A configured crossbar, the queue that gave its handles, and what its ports are for.
#[derive(Drop)]
pub(super) struct Bench {
    pub(super) part: Xbar,
    pub(super) queue: EventQueue,
    ports: [PortUse; 8],
    ghost is: { IsXbar 0 (used ports) (shown part.inner) },
    ghost given: { IsTrue (gave_from queue.table 0 0 (xbar_classes (used ports))) },
}

/// The handle of a slot.
fn handle<const CLASS: u8>(rt: &impl Abort, queue: &mut EventQueue, slot: u8) -> EventHandle<CLASS>
    ensures handle { result ≡ record { owner = 0; slot = slot } }
    ensures once { GivesHandle queue.old.table queue.new.table 0 slot CLASS }
{
    queue
        .handle::<CLASS>(ObjId(0), SlotNo(slot))
        .expect(rt, "a slot")
}

/// The handles of slots from one number on, up to another.
fn handles<const CLASS: u8>(
    rt: &impl Abort,
    alloc: Global,
    queue: &mut EventQueue,
    from: u8,
    end: u8,
) -> Result<Vec<EventHandle<CLASS>>, NoMemory>
    requires { from ≤ end }
    ensures handles { IfOk result (λ hs. hs.items ≡ handles_from 0 CLASS from (replicate (end - from) CLASS)) }
    ensures given { OnOk result (IsTrue (gave_from queue.new.table 0 from (replicate (end - from) CLASS))) }
    ensures stay { OnOk result (Stay queue.old.table queue.new.table) }
{
    let mut handles = Vec::new(alloc);
    for slot in from..end {
        handles.push(handle::<CLASS>(rt, queue, slot))?;
    }
    Ok(handles)
}

/// How many layers there are for requests.
fn request_layers(ports: &[PortUse]) -> usize
    requires { length ports.now ≤ 8 }
    ensures value { result ≡ behind ports.now + sides ports.now }
    ensures most { result ≤ 9 }
{
    let side = if port_use::is_total(ports) { 0 } else { 1 };
    port_use::behind(ports) + side
}

impl Bench {
    /// A crossbar with these ports, at its start.
    fn new(
        rt: &impl Abort,
        alloc: Global,
        latency: u64,
        ports: [PortUse; 8],
    ) -> Result<Bench, NoMemory>
        requires least { 1 ≤ latency }
        requires most { latency ≤ LATENCY_MAX }
        requires apart { IsTrue (are_apart ports) }
    {
        let uses = port_use::used(&ports);
        let requests = request_layers(uses) as u8;
        let slots = requests + port_use::fore(uses) as u8;
        let mut queue = EventQueue::new(alloc, &[slots])?;
        let request = handles::<10>(rt, alloc, &mut queue, 0, requests)?;
        let response = handles::<0>(rt, alloc, &mut queue, requests, slots)?;
        let handles = Handles {
            response,
            request,
            device: Vec::new(alloc),
            cpu: Vec::new(alloc),
        };
        let params = Params {
            object: ObjId(0),
            line: 64,
            ram: 4096,
            own: Own::Xbar { latency, ports },
        };
        let mut part = Xbar::blank();
        part.configure(alloc, &params, handles)?;
        Ok(Bench { part, queue, ports })
    }

    /// `corebus`, with a latency of 100 ticks.
    pub(super) fn corebus(rt: &impl Abort, alloc: Global) -> Result<Bench, NoMemory> {
        let everywhere = PortUse::Destination {
            first: 0,
            last: u64::MAX,
        };
        let ports = [
            PortUse::Source,
            PortUse::Source,
            PortUse::Unused,
            everywhere,
            PortUse::Unused,
            PortUse::Unused,
            PortUse::Unused,
            PortUse::Unused,
        ];
        Bench::new(rt, alloc, 100, ports)
    }

    /// `membus` of a machine with 4096 bytes of RAM, with a latency of 20 ticks.
    pub(super) fn membus(rt: &impl Abort, alloc: Global) -> Result<Bench, NoMemory> {
        let ports = [
            PortUse::Source,
            PortUse::Destination {
                first: 0x8000_0000,
                last: 0x8000_0fff,
            },
            PortUse::Destination {
                first: 0x1000_0000,
                last: 0x1000_0fff,
            },
            PortUse::Destination {
                first: 0x0200_0000,
                last: 0x0200_ffff,
            },
            PortUse::Destination {
                first: 0x0010_0000,
                last: 0x0010_0fff,
            },
            PortUse::Destination { first: 1, last: 0 },
            PortUse::Unused,
            PortUse::Unused,
        ];
        Bench::new(rt, alloc, 20, ports)
    }

    /// Wakes it.
    pub(super) fn wake(&mut self, rt: &impl Abort, now: Tick, w: Wake, out: &mut Outbox) -> Answer
        requires { HasRoom out.old }
    {
        assert!(rt; now.get() <= TOP);
        assert!(rt; may_come(&w));
        assert!(rt; (port_of(&w) as usize) < port_use::used(&self.ports).len());
        self.part.wake(w, now, &mut self.queue, out)
    }

    /// Passes a packet to it at once.
    pub(super) fn pass(
        &mut self,
        rt: &impl Abort,
        now: Tick,
        p: &mut Packet,
        out: &mut Outbox,
    ) -> Way
        requires room { HasRoom out.old }
        requires size { MayPass p.old }
    {
        assert!(rt; now.get() <= TOP);
        self.part.atomic(p, now, &mut self.queue, out)
    }
}

/// Whether a wake is one that comes to crossbars.
fn may_come(w: &Wake) -> bool
    ensures { IsTrue result → MayCome w.now }
{
    match w {
        Wake::Offer { pkt, .. } => pkt.size <= 64,
        Wake::Line { .. } | Wake::AtomicDone { .. } => false,
        Wake::Event { .. } | Wake::Taken { .. } | Wake::Refused { .. } | Wake::Retry { .. } => true,
    }
}

/// The port by which a wake comes, and the first where it comes by none.
fn port_of(w: &Wake) -> u8
    ensures { (o : ObjState) → HasPort o result → ComesWithin o w.now }
{
    match w {
        Wake::Offer { port, .. }
        | Wake::Taken { port }
        | Wake::Refused { port }
        | Wake::Retry { port } => port.0,
        Wake::Event { .. } | Wake::Line { .. } | Wake::AtomicDone { .. } => 0,
    }
}
