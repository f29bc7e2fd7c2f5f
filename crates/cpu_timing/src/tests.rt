// A timing CPU is configured, gets the hart, goes on, and is boxed; and one within an instruction is answered.
ghost use Rattle.std.specs.Prelude.{◌≡◌, [], ◌∷◌, IfOk};
ghost use Rattle.gm_words.specs.declared.own.Own.TheVariants as owns;

use crate::TimingCpu;
use crate::configured::Configured;
use crate::hand::Hand;
use crate::sequencer::Sequencer;
use crate::stage::Stage;
use ev_queue::{EventHandle, EventQueue};
use gc_base::{NoMemory, ObjId, PktId, PortNo, SlotNo, Tick};
use gm_model::{Act, Answer, Cmd, Entry, Kind, Own, Packet, Params, Wake};
use obj_core::{Handles, Item, Outbox, SimObject};
use rv_step::Arch;
use std::alloc::Global;
use std::test::Fail;

/// `addi x1, x0, 5`.
const ADDI: u32 = 0x0050_0093;

/// `lw x5, 8(x0)`.
const LW: u32 = 0x0080_2283;

/// What a CPU with a period of 10 ticks is configured with.
fn params() -> Params
    ensures { result ≡ record { object = record { 0 = 0 }; line = 64; ram = 4096; own = owns.TimingCpu 10 } }
{
    Params {
        object: ObjId(0),
        line: 64,
        ram: 4096,
        own: Own::TimingCpu { period: 10 },
    }
}

/// The one handle that a CPU gets.
fn handles(alloc: Global, handle: EventHandle<50>) -> Result<Handles, NoMemory>
    ensures cpu { IfOk result (λ h. h.cpu.items ≡ handle ∷ []) }
    ensures response { IfOk result (λ h. h.response.items ≡ []) }
    ensures request { IfOk result (λ h. h.request.items ≡ []) }
    ensures device { IfOk result (λ h. h.device.items ≡ []) }
{
    let mut cpu = Vec::with_capacity(alloc, 1)?;
    cpu.push(handle)?;
    Ok(Handles {
        response: Vec::new(alloc),
        request: Vec::new(alloc),
        device: Vec::new(alloc),
        cpu,
    })
}

/// A packet with a number in front.
fn packet(src: u8, cmd: Cmd, addr: u64, uncached: bool, number: u32) -> Packet {
    let mut bytes = [0; 64];
    bytes[..4].copy_from_slice(&number.to_le_bytes());
    Packet {
        id: PktId(0),
        src,
        cmd,
        addr,
        size: 4,
        bytes,
        uncached,
        fault: false,
        stack: [0; 8],
        depth: 0,
    }
}

/// The active CPU in a stage, with the hart at the first word of RAM.
fn active(handle: EventHandle<50>, stage: Stage) -> Configured
    requires owner { handle.owner ≡ 0 }
    requires slot { handle.slot ≡ 0 }
    ensures { result.sequencer.object.0 ≡ 0 }
{
    let sequencer = Sequencer {
        handle,
        object: ObjId(0),
        line: 64,
        ram: 4096,
        timing: true,
        draining: false,
        period: 10,
        stage,
        due: false,
    };
    Configured {
        sequencer,
        arch: Some(Arch::reset(0x8000_0000)),
    }
}

/// What is asked for first is this offer.
fn offered(out: &Outbox, port: u8, pkt: Packet) -> bool {
    let act = Act::Offer {
        port: PortNo(port),
        pkt,
    };
    out.first()
        == Some(&Item::Sent {
            sender: ObjId(0),
            act,
        })
}

// By the rule: from tick 7 on it goes on at 10, the next multiple of its period, and offers the fetch of the word at pc.
#[test]
fn a_cpu_goes_on_and_fetches(rt: HostRuntime) -> Result<(), Fail> {
    let mut queue = EventQueue::new(rt.alloc(), &[1])?;
    let mut out = Outbox::new(rt.alloc())?;
    let handle = queue
        .handle::<50>(ObjId(0), SlotNo(0))
        .expect(&rt, "a slot");
    let mut part = TimingCpu::blank();
    part.configure(rt.alloc(), &params(), handles(rt.alloc(), handle)?)?;
    assert!(rt; part.drained());
    part.give_arch(Arch::reset(0x8000_0000));
    part.resume(Tick::new(7).expect(&rt, "a tick"), &mut queue);
    assert!(rt; !part.drained());
    let ten = Tick::new(10).expect(&rt, "a tick");
    assert_eq!(rt; queue.pop().map(|due| due.tick), Some(ten));
    let event = Wake::Event { slot: SlotNo(0) };
    assert_eq!(rt;
        part.wake(event, ten, &mut queue, &mut out),
        Answer::Nothing
    );
    let fetch = packet(0, Cmd::Read, 0x8000_0000, false, 0);
    assert!(rt; offered(&out, 0, fetch));
    let boxed: Box<dyn SimObject> = Box::new(rt.alloc(), part)?;
    assert_eq!(rt; boxed.kind(), Kind::TimingCpu);
    assert!(rt; !boxed.drained());
    Ok(())
}

// By the rule: a response to the fetch that comes at tick 37 ends the instruction, and the next one comes at 40; one to a
// data access is nobody's.
#[test]
fn a_fetched_word_retires(rt: HostRuntime) -> Result<(), Fail> {
    let mut queue = EventQueue::new(rt.alloc(), &[1])?;
    let mut out = Outbox::new(rt.alloc())?;
    let handle = queue
        .handle::<50>(ObjId(0), SlotNo(0))
        .expect(&rt, "a slot");
    let mut cpu = active(handle, Stage::Fetch(Hand::Away));
    let now = Tick::new(37).expect(&rt, "a tick");
    let other = packet(1, Cmd::ReadResp, 0x8000_0000, false, ADDI);
    cpu.response(now, &other, &mut queue, &mut out);
    assert!(rt; out.entries().is_empty());
    let mut out = Outbox::new(rt.alloc())?;
    assert_eq!(rt; cpu.sequencer.object, ObjId(0));
    let fetched = packet(0, Cmd::ReadResp, 0x8000_0000, false, ADDI);
    cpu.response(now, &fetched, &mut queue, &mut out);
    let retired = Entry::Retired {
        pc: 0x8000_0000,
        word: ADDI,
    };
    assert_eq!(rt; out.entries(), [retired].as_slice());
    let forty = Tick::new(40).expect(&rt, "a tick");
    assert_eq!(rt; queue.pop().map(|due| due.tick), Some(forty));
    assert_eq!(rt; cpu.arch.map(|a| a.x[1]), Some(5));
    Ok(())
}

// By the rule: a load is offered, and once it was refused the same offer is made when it is called, and not before.
#[test]
fn a_refused_load_is_made_again(rt: HostRuntime) -> Result<(), Fail> {
    let mut queue = EventQueue::new(rt.alloc(), &[1])?;
    let mut out = Outbox::new(rt.alloc())?;
    let handle = queue
        .handle::<50>(ObjId(0), SlotNo(0))
        .expect(&rt, "a slot");
    let mut cpu = active(handle, Stage::Ready { word: LW });
    let load = packet(1, Cmd::Read, 8, true, 0);
    let ten = Tick::new(10).expect(&rt, "a tick");
    cpu.event(ten, &mut queue, &mut out);
    assert!(rt; offered(&out, 1, load));
    let mut out = Outbox::new(rt.alloc())?;
    cpu.called(&mut out);
    assert!(rt; out.is_empty());
    cpu.refused();
    let mut out = Outbox::new(rt.alloc())?;
    cpu.called(&mut out);
    assert!(rt; offered(&out, 1, load));
    assert!(rt; !cpu.drained());
    Ok(())
}
