// A memory is configured, answers a read, and can be boxed; and it takes offers, serves them and is called, by ticks worked by hand.
ghost use Rattle.std.specs.Prelude.{◌≡◌, ◌≤◌, IfOk, IsTrue};
ghost use Rattle.ev_queue.specs.SlotTable.{gave};
ghost use Rattle.gm_words.specs.Allowed.{MayCome, MayPass};
ghost use Rattle.gm_words.specs.declared.own.Own.TheVariants.{Mem as MemOwn};
ghost use Rattle.obj_core.specs.Handles.{AreHandlesOf};
ghost use Rattle.obj_core.specs.Out.{HasRoom};
ghost use Rattle.obj_mem.specs.Part.{is_memory};

use crate::{Mem, Ram};
use ev_queue::{EventHandle, EventQueue};
use gc_base::limits::TOP;
use gc_base::{NoMemory, ObjId, PktId, PortNo, SlotNo, Tick};
use gm_model::{Act, Answer, Cmd, Entry, Kind, Own, Packet, Params, Wake, Way};
use obj_core::{Handles, Item, Outbox, SimObject};
use obj_server::Served;
use std::alloc::Global;
use std::process::Abort;
use std::test::Fail;

/// What a memory with one page and two places is configured with: a request takes 100 ticks.
fn params() -> Params
    ensures { result ≡ record { object = record { 0 = 0 }; line = 64; ram = 4096; own = MemOwn 100 2 } }
{
    Params {
        object: ObjId(0),
        line: 64,
        ram: 4096,
        own: Own::Mem {
            latency: 100,
            queue: 2,
        },
    }
}

/// The one handle that a memory gets.
fn handles(alloc: Global, handle: EventHandle<30>) -> Result<Handles, NoMemory>
    requires { handle ≡ record { owner = 0; slot = 0 } }
    ensures { IfOk result (λ h. AreHandlesOf (record { object = record { 0 = 0 }; line = 64; ram = 4096; own = MemOwn 100 2 }) h) }
{
    let mut device = Vec::new(alloc);
    device.push(handle)?;
    Ok(Handles {
        response: Vec::new(alloc),
        request: Vec::new(alloc),
        device,
        cpu: Vec::new(alloc),
    })
}

/// A read of four bytes.
fn read_at(addr: u64) -> Packet
    ensures { result.size ≡ 4 }
{
    Packet {
        id: PktId(5),
        src: 1,
        cmd: Cmd::Read,
        addr,
        size: 4,
        bytes: [7; 64],
        uncached: false,
        fault: false,
        stack: [0; 8],
        depth: 0,
    }
}

// By the rule: RAM is zero at its start, and a read that ends past it is left as it is.
#[test]
fn a_configured_memory_is_zero(rt: HostRuntime) -> Result<(), Fail> {
    let mut queue = EventQueue::new(rt.alloc(), &[1])?;
    let mut part = Mem::blank();
    if let Some(handle) = queue.handle::<30>(ObjId(0), SlotNo(0)) {
        part.configure(rt.alloc(), &params(), handles(rt.alloc(), handle)?)?;
    }
    let mut inside = read_at(0x8000_0ffc);
    assert_eq!(rt; part.functional(&mut inside), Way::Done { latency: 0 });
    assert_eq!(rt; inside.cmd, Cmd::ReadResp);
    assert_eq!(rt; inside.bytes[3], 0);
    assert_eq!(rt; inside.bytes[4], 7);
    let mut across = read_at(0xffff_ffff_ffff_ffff);
    let _ = part.functional(&mut across);
    assert_eq!(rt; across, read_at(0xffff_ffff_ffff_ffff));
    let boxed: Box<dyn SimObject> = Box::new(rt.alloc(), part)?;
    assert_eq!(rt; boxed.kind(), Kind::Mem);
    Ok(())
}

/// A memory that is configured, and the queue of its events.
#[derive(Drop)]
struct Bench {
    part: Served<Ram>,
    queue: EventQueue,
    ghost memory: { IsTrue (is_memory 0 (⟦<Served<Ram> as SimObject>⟧.state part)) },
    ghost given: { IsTrue (gave queue.table 0 0 30) },
}

impl Bench {
    /// A memory in the timing mode, which goes on from tick 0 on.
    fn new(rt: &impl Abort, alloc: Global) -> Result<Bench, Fail> {
        let mut queue = EventQueue::new(alloc, &[1])?;
        let handle = queue.handle::<30>(ObjId(0), SlotNo(0)).expect(rt, "a slot");
        let mut part = Mem::blank();
        part.configure(alloc, &params(), handles(alloc, handle)?)?;
        part.set_mode(true);
        part.resume(tick(rt, 0), &mut queue);
        Ok(Bench { part, queue })
    }

    /// The event that is served next is taken out of the queue: its tick.
    fn next(&mut self) -> Option<Tick> {
        self.queue.pop().map(|due| due.tick)
    }

    /// The memory is woken.
    #[tactic(auto, using(crate::proofs::Stays::memory_stays))]
    fn wake(&mut self, w: Wake, now: Tick, out: &mut Outbox) -> Answer
        requires wake { MayCome w }
        requires tick { now ≤ TOP }
        requires room { HasRoom out.old }
    {
        self.part.wake(w, now, &mut self.queue, out)
    }

    /// A packet is passed to the memory at once.
    #[tactic(auto, using(crate::proofs::Stays::memory_stays_passed))]
    fn atomic(&mut self, p: &mut Packet, now: Tick, out: &mut Outbox) -> Way
        requires packet { MayPass p.old }
        requires tick { now ≤ TOP }
        requires room { HasRoom out.old }
    {
        self.part.atomic(p, now, &mut self.queue, out)
    }
}

/// A tick.
fn tick(rt: &impl Abort, n: u64) -> Tick
    ensures { result ≤ TOP }
{
    assert!(rt; n <= TOP);
    Tick::new(n).expect(rt, "a tick")
}

/// Who makes the request with a number: the hart's data access, its fetch, a DMA engine, or a cache.
fn source(id: u64) -> u8 {
    match id {
        2 => 0,
        3 => 2,
        4 => 5,
        6 => 4,
        _ => 1,
    }
}

/// A packet for the second word of RAM, with a number in front.
fn packet(id: u64, cmd: Cmd, number: u32) -> Packet
    ensures { result.size ≡ 4 }
{
    let mut bytes = [0; 64];
    bytes[..4].copy_from_slice(&number.to_le_bytes());
    Packet {
        id: PktId(id),
        src: source(id),
        cmd,
        addr: 0x8000_0004,
        size: 4,
        bytes,
        uncached: false,
        fault: false,
        stack: [0; 8],
        depth: 0,
    }
}

/// A packet is offered to the memory, or by it.
fn offer(id: u64, cmd: Cmd, number: u32) -> Wake {
    Wake::Offer {
        port: PortNo(0),
        pkt: packet(id, cmd, number),
    }
}

fn offers(id: u64, cmd: Cmd, number: u32) -> Option<Act> {
    Some(Act::Offer {
        port: PortNo(0),
        pkt: packet(id, cmd, number),
    })
}

/// What is noted of a request that RAM served: nothing of a cache's.
fn noted(id: u64, write: bool, number: u32) -> Option<Entry> {
    let src = source(id);
    if src > 2 {
        return None;
    }
    let mut bytes = [0; 8];
    bytes[..4].copy_from_slice(&number.to_le_bytes());
    Some(Entry::Served {
        src,
        id: PktId(id),
        write,
        addr: 0x8000_0004,
        size: 4,
        bytes,
        device: false,
        fault: false,
    })
}

/// Whether a wake comes to a memory, with bytes for the whole size of its packet.
fn comes(w: &Wake) -> bool
    ensures { IsTrue result → MayCome w.now }
{
    match w {
        Wake::Offer { pkt, .. } => pkt.size <= 64,
        Wake::Line { .. } | Wake::AtomicDone { .. } => false,
        Wake::Event { .. } | Wake::Taken { .. } | Wake::Refused { .. } | Wake::Retry { .. } => true,
    }
}

/// What was asked for first.
fn first_act(out: &Outbox) -> Option<Act> {
    match out.first() {
        Some(Item::Sent { act, .. }) => Some(*act),
        _ => None,
    }
}

/// What an outbox has: at most one act, and at most one entry.
fn had(rt: &impl Abort, out: &mut Outbox) -> (Option<Act>, Option<Entry>) {
    let act = first_act(out);
    out.drop_first();
    assert!(rt; out.is_empty());
    assert!(rt; out.entries().len() <= 1);
    (act, out.entries().first().copied())
}

// By the rule: the first request is served 100 ticks after it came, and the next one 100 ticks after the first is gone. Who is
// refused waits, and is called once, when a place is free. A response that is refused is offered again when it is called for,
// and a write-back has none.
#[test]
fn requests_wait_and_are_served_in_turn(rt: HostRuntime) -> Result<(), Fail> {
    let mut bench = Bench::new(&rt, rt.alloc())?;
    let event = Wake::Event { slot: SlotNo(0) };
    let taken = Wake::Taken { port: PortNo(0) };
    let refused = Wake::Refused { port: PortNo(0) };
    let retry = Wake::Retry { port: PortNo(0) };
    let full = Some(Entry::Refused { object: ObjId(0) });
    let call = Some(Act::CallRetry { port: PortNo(0) });
    assert!(rt; bench.part.drained());
    for (at, wake, answer, asked, entry, pending) in [
        (
            10,
            offer(1, Cmd::Write, 5),
            Answer::Taken,
            None,
            None,
            Some(110),
        ),
        (
            20,
            offer(2, Cmd::Read, 0),
            Answer::Taken,
            None,
            None,
            Some(110),
        ),
        (
            30,
            offer(3, Cmd::Read, 0),
            Answer::Refused,
            None,
            full,
            Some(110),
        ),
        (
            31,
            offer(4, Cmd::Read, 0),
            Answer::Refused,
            None,
            full,
            Some(110),
        ),
        (40, retry, Answer::Nothing, None, None, Some(110)),
        (
            110,
            event,
            Answer::Nothing,
            offers(1, Cmd::WriteResp, 5),
            noted(1, true, 5),
            None,
        ),
        (110, refused, Answer::Nothing, None, None, None),
        (
            150,
            retry,
            Answer::Nothing,
            offers(1, Cmd::WriteResp, 5),
            None,
            None,
        ),
        (150, taken, Answer::Nothing, call, None, Some(250)),
        (
            160,
            offer(3, Cmd::Read, 0),
            Answer::Taken,
            None,
            None,
            Some(250),
        ),
        (
            250,
            event,
            Answer::Nothing,
            offers(2, Cmd::ReadResp, 5),
            noted(2, false, 5),
            None,
        ),
        (250, taken, Answer::Nothing, None, None, Some(350)),
        (
            260,
            offer(5, Cmd::WriteBack, 9),
            Answer::Taken,
            None,
            None,
            Some(350),
        ),
        (
            270,
            offer(6, Cmd::Read, 0),
            Answer::Refused,
            None,
            full,
            Some(350),
        ),
        (
            350,
            event,
            Answer::Nothing,
            offers(3, Cmd::ReadResp, 5),
            noted(3, false, 5),
            None,
        ),
        (360, taken, Answer::Nothing, call, None, Some(460)),
        (
            370,
            offer(6, Cmd::Read, 0),
            Answer::Taken,
            None,
            None,
            Some(460),
        ),
        (460, event, Answer::Nothing, None, None, Some(560)),
        (
            560,
            event,
            Answer::Nothing,
            offers(6, Cmd::ReadResp, 9),
            noted(6, false, 9),
            None,
        ),
        (570, taken, Answer::Nothing, None, None, None),
    ] {
        assert!(rt; comes(&wake));
        let now = tick(&rt, at);
        if wake == event {
            assert_eq!(rt; bench.next(), Some(now));
        }
        let mut out = Outbox::new(rt.alloc())?;
        assert_eq!(rt; bench.wake(wake, now, &mut out), answer, "at {at}");
        assert_eq!(rt; had(&rt, &mut out), (asked, entry), "at {at}");
        assert_eq!(rt; bench.queue.peek_tick().map(Tick::get), pending, "at {at}");
        assert_eq!(rt; bench.queue.pending(1), None);
    }
    assert!(rt; bench.part.drained());
    Ok(())
}

// By the rule: what is passed at once is served at once, with the latency of a request and no event, and past the end of RAM it is
// refused.
#[test]
fn what_is_passed_at_once_is_served_at_once(rt: HostRuntime) -> Result<(), Fail> {
    let mut bench = Bench::new(&rt, rt.alloc())?;
    for (request, response, entry) in [
        (
            packet(1, Cmd::Read, 7),
            packet(1, Cmd::ReadResp, 0),
            noted(1, false, 0),
        ),
        (
            packet(2, Cmd::Write, 5),
            packet(2, Cmd::WriteResp, 5),
            noted(2, true, 5),
        ),
        (
            packet(3, Cmd::Read, 7),
            packet(3, Cmd::ReadResp, 5),
            noted(3, false, 5),
        ),
        (
            packet(4, Cmd::WriteBack, 9),
            packet(4, Cmd::WriteBack, 9),
            None,
        ),
        (
            packet(5, Cmd::Read, 7),
            packet(5, Cmd::ReadResp, 9),
            noted(5, false, 9),
        ),
    ] {
        assert!(rt; request.size <= 64);
        let mut p = request;
        let mut out = Outbox::new(rt.alloc())?;
        let way = bench.atomic(&mut p, tick(&rt, 1000), &mut out);
        assert_eq!(rt; way, Way::Done { latency: 100 });
        assert_eq!(rt; p, response);
        assert_eq!(rt; had(&rt, &mut out), (None, entry));
        assert_eq!(rt; bench.queue.peek_tick(), None);
    }
    let mut past = read_at(0x8000_0ffd);
    let mut out = Outbox::new(rt.alloc())?;
    let way = bench.atomic(&mut past, tick(&rt, 1000), &mut out);
    assert_eq!(rt; way, Way::Done { latency: 100 });
    assert!(rt; past.fault);
    Ok(())
}

// By the rule: a write-back that isn't served yet is newer than RAM, and a read without time gives its bytes.
#[test]
fn a_read_without_time_sees_a_write_back_that_waits(rt: HostRuntime) -> Result<(), Fail> {
    let mut bench = Bench::new(&rt, rt.alloc())?;
    let mut out = Outbox::new(rt.alloc())?;
    let write_back = offer(1, Cmd::WriteBack, 9);
    assert!(rt; comes(&write_back));
    let answer = bench.wake(write_back, tick(&rt, 10), &mut out);
    assert_eq!(rt; answer, Answer::Taken);
    let mut p = packet(2, Cmd::Read, 7);
    assert_eq!(rt; bench.part.functional(&mut p), Way::Done { latency: 0 });
    assert_eq!(rt; p, packet(2, Cmd::ReadResp, 9));
    Ok(())
}
