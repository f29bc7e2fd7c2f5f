// Which number an exit device keeps, and a blank one that is configured and boxed.
use crate::{ExitDev, ExitDevice};
use ev_queue::EventQueue;
use gc_base::limits::TOP;
use gc_base::{ObjId, PktId, SlotNo, Tick};
use gm_model::platform::EXIT_BASE;
use gm_model::{Cmd, Kind, Own, Packet, Params};
use obj_core::{Handles, Outbox, SimObject};
use obj_server::Device;
use std::alloc::Global;
use std::process::Abort;
use std::test::Fail;

const PARAMS: Params = Params {
    object: ObjId(0),
    line: 64,
    ram: 4096,
    own: Own::Exit { latency: 5 },
};

/// Serves a write of a number to the register at a tick, and gives the number that is kept then.
fn kept(
    rt: &impl Abort,
    alloc: Global,
    device: &mut ExitDevice,
    at: u64,
    number: u32,
) -> Result<Option<u32>, Fail> {
    let mut bytes = [0; 64];
    bytes[..4].copy_from_slice(&number.to_le_bytes());
    let mut p = Packet {
        id: PktId(1),
        src: 1,
        cmd: Cmd::Write,
        addr: EXIT_BASE,
        size: 4,
        bytes,
        uncached: true,
        fault: false,
        stack: [0; 8],
        depth: 0,
    };
    let mut out = Outbox::new(alloc)?;
    assert!(rt; at <= TOP);
    let now = Tick::new(at).expect(rt, "a tick");
    device.serve(&mut p, now, &mut out);
    Ok(device.exit_code())
}

// By the rule: the first number that is written is kept, and a second one is lost.
#[test]
fn a_second_number_is_lost(rt: HostRuntime) -> Result<(), Fail> {
    for (first, second) in [(0, 7), (7, 0), (1, 4_294_967_295)] {
        let mut device = ExitDevice::start(rt.alloc(), &PARAMS)?.device;
        assert_eq!(rt; device.exit_code(), None);
        assert_eq!(rt;
            kept(&rt, rt.alloc(), &mut device, 1_000, first)?,
            Some(first)
        );
        assert_eq!(rt;
            kept(&rt, rt.alloc(), &mut device, 2_000, second)?,
            Some(first)
        );
    }
    Ok(())
}

// By the rule: at its start it keeps no number, and it has no input.
#[test]
fn a_configured_exit_device_keeps_no_number_yet(rt: HostRuntime) -> Result<(), Fail> {
    let mut queue = EventQueue::new(rt.alloc(), &[1])?;
    let Some(serve) = queue.handle::<30>(ObjId(0), SlotNo(0)) else {
        return Ok(());
    };
    let mut device = Vec::with_capacity(rt.alloc(), 1)?;
    device.push_reserved(serve);
    let handles = Handles {
        response: Vec::new(rt.alloc()),
        request: Vec::new(rt.alloc()),
        device,
        cpu: Vec::new(rt.alloc()),
    };
    let mut part = ExitDev::blank();
    part.configure(rt.alloc(), &PARAMS, handles)?;
    let mut boxed: Box<dyn SimObject> = Box::new(rt.alloc(), part)?;
    assert_eq!(rt; boxed.kind(), Kind::Exit);
    assert_eq!(rt; boxed.exit_code(), None);
    assert!(rt; !boxed.input(b'a'));
    Ok(())
}
