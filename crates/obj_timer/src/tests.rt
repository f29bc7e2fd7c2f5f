// A timer's registers, by numbers worked by hand, and a blank one that is configured and boxed.
use crate::{Timer, TimerDevice};
use ev_queue::EventQueue;
use gc_base::limits::TOP;
use gc_base::{ObjId, PktId, SlotNo, Tick};
use gm_model::{Act, Cmd, Kind, Own, Packet, Params};
use obj_core::{Handles, Item, Outbox, SimObject};
use obj_server::{Device, OwnEvent};
use std::alloc::Global;
use std::process::Abort;
use std::test::Fail;

const MSIP: u64 = 0x0200_0000;

const MTIMECMP: u64 = 0x0200_4000;

const MTIME: u64 = 0x0200_bff8;

/// The clock's period is 100 ticks.
const PARAMS: Params = Params {
    object: ObjId(0),
    line: 64,
    ram: 4096,
    own: Own::Timer {
        latency: 5,
        period: 100,
    },
};

/// What a request gave: what became of the own event, the level of a line that was told, and the number and the fault of
/// the response.
#[derive(Clone, Copy, Debug, PartialEq, Eq)]
struct Gave {
    event: OwnEvent,
    told: Option<(u8, bool)>,
    number: u64,
    fault: bool,
}

fn answered(event: OwnEvent, told: Option<(u8, bool)>, number: u64) -> Gave {
    Gave {
        event,
        told,
        number,
        fault: false,
    }
}

fn request(cmd: Cmd, addr: u64, size: u8, number: u64) -> Packet {
    let mut bytes = [0; 64];
    bytes[..8].copy_from_slice(&number.to_le_bytes());
    Packet {
        id: PktId(1),
        src: 1,
        cmd,
        addr,
        size,
        bytes,
        uncached: true,
        fault: false,
        stack: [0; 8],
        depth: 0,
    }
}

fn number(p: &Packet) -> u64 {
    let [a, b, c, d] = [p.bytes[0], p.bytes[1], p.bytes[2], p.bytes[3]];
    let [e, f, g, h] = [p.bytes[4], p.bytes[5], p.bytes[6], p.bytes[7]];
    u64::from_le_bytes([a, b, c, d, e, f, g, h])
}

fn told(out: &Outbox) -> Option<(u8, bool)> {
    match out.first() {
        Some(
            Item::Sent {
                act: Act::SetLine { bit, level },
                ..
            },
        ) => Some((*bit, *level)),
        _ => None,
    }
}

fn serve(
    rt: &impl Abort,
    alloc: Global,
    timer: &mut TimerDevice,
    at: u64,
    request: Packet,
) -> Result<Gave, Fail> {
    let mut out = Outbox::new(alloc)?;
    let mut p = request;
    assert!(rt; p.size <= 64);
    assert!(rt; at <= TOP);
    let now = Tick::new(at).expect(rt, "a tick");
    let event = timer.serve(&mut p, now, &mut out);
    Ok(Gave {
        event,
        told: told(&out),
        number: number(&p),
        fault: p.fault,
    })
}

fn tick(rt: &impl Abort, n: u64) -> OwnEvent {
    OwnEvent::Comes {
        at: Tick::new(n).expect(rt, "a tick"),
    }
}

// By the rule: mtime is the tick by the period, the line is high from mtimecmp on, and the event comes at mtimecmp periods,
// if that is at most tick 2^62.
#[test]
fn the_line_follows_the_number(rt: HostRuntime) -> Result<(), Fail> {
    let mut timer = TimerDevice::start(rt.alloc(), &PARAMS)?.device;
    let goes = OwnEvent::Goes;
    for (at, n, event, told) in [
        (250, 3, tick(&rt, 300), None),
        (250, 2, goes, Some((7, true))),
        (250, 1, goes, None),
        (299, 3, tick(&rt, 300), Some((7, false))),
        (300, 3, goes, Some((7, true))),
        (
            300,
            46_116_860_184_273_879,
            tick(&rt, 4_611_686_018_427_387_900),
            Some((7, false)),
        ),
        (300, 46_116_860_184_273_880, goes, None),
        (300, 184_467_440_737_095_520, goes, None),
        (300, u64::MAX, goes, None),
        (300, 0, goes, Some((7, true))),
    ] {
        let wrote = serve(
            &rt,
            rt.alloc(),
            &mut timer,
            at,
            request(Cmd::Write, MTIMECMP, 8, n),
        )?;
        assert_eq!(rt; wrote, answered(event, told, n), "{n} at {at}");
        let read = serve(
            &rt,
            rt.alloc(),
            &mut timer,
            at,
            request(Cmd::Read, MTIMECMP, 8, 5),
        )?;
        assert_eq!(rt; read, answered(OwnEvent::Stays, None, n), "{n}");
    }
    Ok(())
}

#[test]
fn the_event_raises_the_line_once(rt: HostRuntime) -> Result<(), Fail> {
    let mut timer = TimerDevice::start(rt.alloc(), &PARAMS)?.device;
    for expected in [Some((7, true)), None] {
        let mut out = Outbox::new(rt.alloc())?;
        timer.event(&mut out);
        assert_eq!(rt; told(&out), expected);
    }
    Ok(())
}

// By the rule: a write to msip always tells the level, which is the lowest bit.
#[test]
fn software_sets_its_line(rt: HostRuntime) -> Result<(), Fail> {
    let mut timer = TimerDevice::start(rt.alloc(), &PARAMS)?.device;
    for (n, level) in [
        (1, true),
        (1, true),
        (0xffff_fffe, false),
        (0, false),
        (3, true),
    ] {
        let wrote = serve(
            &rt,
            rt.alloc(),
            &mut timer,
            10,
            request(Cmd::Write, MSIP, 4, n),
        )?;
        assert_eq!(rt;
            wrote,
            answered(OwnEvent::Stays, Some((3, level)), n),
            "{n}"
        );
        let read = serve(
            &rt,
            rt.alloc(),
            &mut timer,
            10,
            request(Cmd::Read, MSIP, 4, 0),
        )?;
        assert_eq!(rt; read, answered(OwnEvent::Stays, None, level as u64), "{n}");
    }
    Ok(())
}

// By the rule: mtime is read only, and registers are read and written whole.
#[test]
fn other_accesses_are_refused(rt: HostRuntime) -> Result<(), Fail> {
    let mut timer = TimerDevice::start(rt.alloc(), &PARAMS)?.device;
    let clock = serve(
        &rt,
        rt.alloc(),
        &mut timer,
        4_611_686_018_427_387_904,
        request(Cmd::Read, MTIME, 8, 0),
    )?;
    assert_eq!(rt;
        clock,
        answered(OwnEvent::Stays, None, 46_116_860_184_273_879)
    );
    for (cmd, addr, size) in [
        (Cmd::Write, MTIME, 8),
        (Cmd::Write, MTIMECMP, 4),
        (Cmd::Write, MTIMECMP + 4, 4),
        (Cmd::Write, MSIP, 8),
        (Cmd::Write, MSIP + 4, 4),
        (Cmd::Read, MTIME, 4),
        (Cmd::Read, MSIP, 1),
    ] {
        let refused = serve(
            &rt,
            rt.alloc(),
            &mut timer,
            250,
            request(cmd, addr, size, 0),
        )?;
        assert!(rt; refused.fault, "{addr}");
        assert_eq!(rt; refused.event, OwnEvent::Stays);
        assert_eq!(rt; refused.told, None);
    }
    Ok(())
}

// By the rule: it takes no input, and keeps no exit number.
#[test]
fn a_configured_timer_is_a_part(rt: HostRuntime) -> Result<(), Fail> {
    let mut queue = EventQueue::new(rt.alloc(), &[2])?;
    let Some(serve) = queue.handle::<30>(ObjId(0), SlotNo(0)) else {
        return Ok(());
    };
    let Some(compare) = queue.handle::<30>(ObjId(0), SlotNo(1)) else {
        return Ok(());
    };
    let mut device = Vec::with_capacity(rt.alloc(), 2)?;
    device.push_reserved(serve);
    device.push_reserved(compare);
    let handles = Handles {
        response: Vec::new(rt.alloc()),
        request: Vec::new(rt.alloc()),
        device,
        cpu: Vec::new(rt.alloc()),
    };
    let mut part = Timer::blank();
    part.configure(rt.alloc(), &PARAMS, handles)?;
    let mut boxed: Box<dyn SimObject> = Box::new(rt.alloc(), part)?;
    assert_eq!(rt; boxed.kind(), Kind::Timer);
    assert!(rt; !boxed.input(b'a'));
    assert_eq!(rt; boxed.exit_code(), None);
    Ok(())
}
