// A boxed part whose wakes are counted.
use crate::Counted;
use ev_queue::EventQueue;
use gc_base::{NoMemory, ObjId, SlotNo, Tick};
use gm_model::{Answer, Kind, Own, Packet, Params, Wake, Way};
use obj_core::{Handles, LineInfo, Outbox, SimObject};
use rv_step::Arch;
use std::alloc::Global;
use std::cell::Cell;
use std::rc::Rc;
use std::test::Fail;

/// A part that stays blank. It is configured as a DMA engine, and as another kind it finds no memory.
#[derive(Drop)]
struct StaysBlank {
    kind: Kind,
}

impl SimObject for StaysBlank {
    ghost use Rattle.gm_model.specs.ObjState.{Blank};

    ghost state = { λ s. Blank s.kind };

    fn kind(&self) -> Kind {
        self.kind
    }

    fn configure(
        &mut self,
        _alloc: Global,
        params: &Params,
        _handles: Handles,
    ) -> Result<(), NoMemory> {
        match params.own {
            Own::Dma { .. } => Ok(()),
            _ => Err(NoMemory),
        }
    }

    #[tactic(auto, unfolding(gm_model::specs::ObjectStep::object_step))]
    fn wake(&mut self, _w: Wake, _now: Tick, _q: &mut EventQueue, _out: &mut Outbox) -> Answer {
        Answer::Nothing
    }

    #[tactic(auto, unfolding(gm_model::specs::ObjectStep::atomic_step))]
    fn atomic(
        &mut self,
        _p: &mut Packet,
        _now: Tick,
        _q: &mut EventQueue,
        _out: &mut Outbox,
    ) -> Way {
        Way::Done { latency: 0 }
    }

    #[tactic(auto, unfolding(gm_model::specs::ObjectStep::functional_step))]
    fn functional(&self, _p: &mut Packet) -> Way {
        Way::Done { latency: 0 }
    }

    fn own_bytes(&self, _at: u64, _to: &mut [u8]) -> bool {
        false
    }

    fn put_own_bytes(&mut self, _at: u64, _from: &[u8]) -> bool {
        false
    }

    fn set_mode(&mut self, _timing: bool) {}

    fn drain(&mut self, _q: &mut EventQueue) {}

    fn drained(&self) -> bool {
        true
    }

    fn resume(&mut self, _now: Tick, _q: &mut EventQueue) {}

    fn dirty_line(&self, _n: u32, _bytes: &mut [u8; 64]) -> Option<u64> {
        None
    }

    fn any_line(&self, _n: u32, _bytes: &mut [u8; 64]) -> Option<LineInfo> {
        None
    }

    fn invalidate(&mut self) {}

    fn arch(&self) -> Option<Arch> {
        None
    }

    fn take_arch(&mut self) -> Option<Arch> {
        None
    }

    fn give_arch(&mut self, _a: Arch) {}

    fn exit_code(&self) -> Option<u32> {
        None
    }

    fn input(&mut self, _byte: u8) -> bool {
        false
    }
}

#[test]
fn wakes_are_counted_and_parts_can_be_boxed(rt: HostRuntime) -> Result<(), Fail> {
    let wakes = Rc::new(rt.alloc(), Cell::new(0))?;
    let mut part = Counted::new(StaysBlank { kind: Kind::Uart }, Rc::clone(&wakes)?);
    let mut queue = EventQueue::new(rt.alloc(), &[])?;
    let mut out = Outbox::new(rt.alloc())?;
    let event = Wake::Event { slot: SlotNo(0) };
    if let Some(now) = Tick::new(7) {
        assert_eq!(rt;
            part.wake(event, now, &mut queue, &mut out),
            Answer::Nothing
        );
    }
    assert_eq!(rt; wakes.get(), 1);
    let boxed: Box<dyn SimObject> = Box::new(rt.alloc(), part)?;
    assert_eq!(rt; boxed.kind(), Kind::Uart);
    assert!(rt; boxed.drained());
    Ok(())
}

// No contract tells want of memory from a call that is not passed on.
#[test]
fn a_configuration_is_passed_on(rt: HostRuntime) -> Result<(), Fail> {
    let wakes = Rc::new(rt.alloc(), Cell::new(0))?;
    let mut part = Counted::new(StaysBlank { kind: Kind::Dma }, wakes);
    let params = Params {
        object: ObjId(0),
        line: 64,
        ram: 4096,
        own: Own::Dma {
            latency: 5,
            period: 10,
            window: 1,
        },
    };
    let handles = Handles {
        response: Vec::new(rt.alloc()),
        request: Vec::new(rt.alloc()),
        device: Vec::new(rt.alloc()),
        cpu: Vec::new(rt.alloc()),
    };
    part.configure(rt.alloc(), &params, handles)?;
    Ok(())
}
