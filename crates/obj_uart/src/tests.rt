// A blank UART is configured and boxed.
use crate::Uart;
use ev_queue::EventQueue;
use gc_base::{ObjId, SlotNo};
use gm_model::{Kind, Own, Params};
use obj_core::{Handles, SimObject};
use std::test::Fail;

// By the rule: at its start it has a place for input, and it keeps no exit number.
#[test]
fn a_configured_uart_takes_input(rt: HostRuntime) -> Result<(), Fail> {
    let mut queue = EventQueue::new(rt.alloc(), &[2])?;
    let Some(serve) = queue.handle::<30>(ObjId(0), SlotNo(0)) else {
        return Ok(());
    };
    let Some(character) = queue.handle::<30>(ObjId(0), SlotNo(1)) else {
        return Ok(());
    };
    let mut device = Vec::with_capacity(rt.alloc(), 2)?;
    device.push_reserved(serve);
    device.push_reserved(character);
    let handles = Handles {
        response: Vec::new(rt.alloc()),
        request: Vec::new(rt.alloc()),
        device,
        cpu: Vec::new(rt.alloc()),
    };
    let params = Params {
        object: ObjId(0),
        line: 64,
        ram: 4096,
        own: Own::Uart {
            latency: 5,
            chartime: 70,
        },
    };
    let mut part = Uart::blank();
    part.configure(rt.alloc(), &params, handles)?;
    let mut boxed: Box<dyn SimObject> = Box::new(rt.alloc(), part)?;
    assert_eq!(rt; boxed.kind(), Kind::Uart);
    assert!(rt; boxed.input(b'a'));
    assert_eq!(rt; boxed.exit_code(), None);
    Ok(())
}
