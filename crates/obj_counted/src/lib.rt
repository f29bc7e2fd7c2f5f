//! A part that counts the wakes of the part inside it, for tests that the parts that are handed in are those that run.
//!
//! Its promise: it is the part inside, whatever is asked of it. How often it was woken no contract says, since no contract
//! can tell what a cell holds; the tests compare it.
#![tactic(auto)]

ghost use Rattle.std.specs.Prelude.{◌≡◌};

use ev_queue::EventQueue;
use gc_base::{NoMemory, Tick};
use gm_model::{Answer, Kind, Packet, Params, Wake, Way};
use obj_core::{Handles, LineInfo, Outbox, SimObject};
use rv_step::Arch;
use std::alloc::Global;
use std::cell::Cell;
use std::rc::Rc;

#[cfg(test)]
mod tests;

/// Passes each call on, and counts the wakes.
#[derive(Drop)]
pub struct Counted<P: SimObject> {
    inner: P,
    wakes: Rc<Cell<u64>>,
}

impl<P: SimObject> Counted<P> {
    /// The part, whose wakes are counted in the cell.
    pub fn new(inner: P, wakes: Rc<Cell<u64>>) -> Counted<P>
        ensures { result.inner ≡ inner }
    {
        Counted { inner, wakes }
    }
}

impl<P: SimObject> SimObject for Counted<P> {
    ghost state = { λ s. P.state s.inner };

    fn kind(&self) -> Kind {
        self.inner.kind()
    }

    fn configure(
        &mut self,
        alloc: Global,
        params: &Params,
        handles: Handles,
    ) -> Result<(), NoMemory> {
        self.inner.configure(alloc, params, handles)
    }

    fn wake(&mut self, w: Wake, now: Tick, q: &mut EventQueue, out: &mut Outbox) -> Answer {
        self.wakes.set(self.wakes.get().saturating_add(1));
        self.inner.wake(w, now, q, out)
    }

    fn atomic(&mut self, p: &mut Packet, now: Tick, q: &mut EventQueue, out: &mut Outbox) -> Way {
        self.inner.atomic(p, now, q, out)
    }

    fn functional(&self, p: &mut Packet) -> Way {
        self.inner.functional(p)
    }

    fn own_bytes(&self, at: u64, to: &mut [u8]) -> bool {
        self.inner.own_bytes(at, to)
    }

    fn put_own_bytes(&mut self, at: u64, from: &[u8]) -> bool {
        self.inner.put_own_bytes(at, from)
    }

    fn set_mode(&mut self, timing: bool) {
        self.inner.set_mode(timing)
    }

    fn drain(&mut self, q: &mut EventQueue) {
        self.inner.drain(q)
    }

    fn drained(&self) -> bool {
        self.inner.drained()
    }

    fn resume(&mut self, now: Tick, q: &mut EventQueue) {
        self.inner.resume(now, q)
    }

    fn dirty_line(&self, n: u32, bytes: &mut [u8; 64]) -> Option<u64> {
        self.inner.dirty_line(n, bytes)
    }

    fn any_line(&self, n: u32, bytes: &mut [u8; 64]) -> Option<LineInfo> {
        self.inner.any_line(n, bytes)
    }

    fn invalidate(&mut self) {
        self.inner.invalidate()
    }

    fn arch(&self) -> Option<Arch> {
        self.inner.arch()
    }

    fn take_arch(&mut self) -> Option<Arch> {
        self.inner.take_arch()
    }

    fn give_arch(&mut self, a: Arch) {
        self.inner.give_arch(a)
    }

    fn exit_code(&self) -> Option<u32> {
        self.inner.exit_code()
    }

    fn input(&mut self, byte: u8) -> bool {
        self.inner.input(byte)
    }
}
