// An atomic CPU is configured, gets the hart, goes on, and is boxed.
ghost use Rattle.std.specs.Prelude.{◌≡◌, [], ◌∷◌, IfOk};
ghost use Rattle.gm_words.specs.declared.own.Own.TheVariants as owns;

use crate::AtomicCpu;
use ev_queue::{EventHandle, EventQueue};
use gc_base::{NoMemory, ObjId, PktId, PortNo, SlotNo, Tick};
use gm_model::{Act, Answer, Cmd, Kind, Own, Packet, Params, Wake};
use obj_core::{Handles, Item, Outbox, SimObject};
use rv_step::Arch;
use std::alloc::Global;
use std::test::Fail;

/// What a CPU with a period of 10 ticks is configured with.
fn params() -> Params
    ensures { result ≡ record { object = record { 0 = 0 }; line = 64; ram = 4096; own = owns.AtomicCpu 10 } }
{
    Params {
        object: ObjId(0),
        line: 64,
        ram: 4096,
        own: Own::AtomicCpu { period: 10 },
    }
}

/// The one handle that a CPU gets.
fn handles(alloc: Global, handle: EventHandle<50>) -> Result<Handles, NoMemory>
    ensures cpu { IfOk result (λ h. h.cpu.items ≡ handle ∷ []) }
    ensures response { IfOk result (λ h. h.response.items ≡ []) }
    ensures request { IfOk result (λ h. h.request.items ≡ []) }
    ensures device { IfOk result (λ h. h.device.items ≡ []) }
{
    let mut cpu = Vec::with_capacity(alloc, 1)?;
    cpu.push(handle)?;
    Ok(Handles {
        response: Vec::new(alloc),
        request: Vec::new(alloc),
        device: Vec::new(alloc),
        cpu,
    })
}

/// The fetch of the first word of RAM.
fn first_fetch() -> Packet {
    Packet {
        id: PktId(0),
        src: 0,
        cmd: Cmd::Read,
        addr: 0x8000_0000,
        size: 4,
        bytes: [0; 64],
        uncached: false,
        fault: false,
        stack: [0; 8],
        depth: 0,
    }
}

// By the rule: from tick 7 on it goes on at 10, the next multiple of its period, and fetches the word at pc.
#[test]
fn a_cpu_goes_on_and_fetches(rt: HostRuntime) -> Result<(), Fail> {
    let mut queue = EventQueue::new(rt.alloc(), &[1])?;
    let mut out = Outbox::new(rt.alloc())?;
    let handle = queue
        .handle::<50>(ObjId(0), SlotNo(0))
        .expect(&rt, "a slot");
    let mut part = AtomicCpu::blank();
    part.configure(rt.alloc(), &params(), handles(rt.alloc(), handle)?)?;
    assert!(rt; part.drained());
    part.give_arch(Arch::reset(0x8000_0000));
    part.resume(Tick::new(7).expect(&rt, "a tick"), &mut queue);
    assert!(rt; !part.drained());
    let ten = Tick::new(10).expect(&rt, "a tick");
    assert_eq!(rt; queue.pop().map(|due| due.tick), Some(ten));
    let event = Wake::Event { slot: SlotNo(0) };
    assert_eq!(rt;
        part.wake(event, ten, &mut queue, &mut out),
        Answer::Nothing
    );
    let fetch = Act::Atomic {
        port: PortNo(0),
        pkt: first_fetch(),
    };
    assert_eq!(rt;
        out.first(),
        Some(&Item::Sent {
            sender: ObjId(0),
            act: fetch
        })
    );
    let boxed: Box<dyn SimObject> = Box::new(rt.alloc(), part)?;
    assert_eq!(rt; boxed.kind(), Kind::AtomicCpu);
    assert!(rt; !boxed.drained());
    Ok(())
}
