// The machine, and what it tells between two events.
ghost use Rattle.std.specs.Prelude.{◌≡◌, ◌+◌, ◌-◌, ◌≤◌, true, [], length, take, drop, map};

use crate::board::Board;
use crate::boxes::{arch_box, exit_box, read_box, resume_box, write_box};
use ev_queue::EventQueue;
use gc_base::Tick;
use gm_model::Entry;
use gm_model::platform::RAM_BASE;
use obj_core::{Outbox, SimObject};
use probe_stats::Counters;
use rv_step::Arch;

/// A machine: its parts in the order of their paths, their pending events, and what was counted.
///
/// - Contracts see it as the model's `Sys`, by `sys_of` of what its parts show.
/// - Between two calls each wake that may come is allowed (`IsMachine`).
#[derive(Drop)]
pub struct Machine {
    /// What each part is, and where its ports lead.
    pub(crate) board: Board,
    pub(crate) parts: Vec<Box<dyn SimObject>>,
    pub(crate) queue: EventQueue,
    pub(crate) out: Outbox,
    pub(crate) counters: Counters,
    pub(crate) tick: Tick,
    /// Whether events are traced.
    pub(crate) trace: bool,
    pub(crate) draining: bool,
}

impl Machine {
    ghost use Rattle.gm_model.specs.Run.{exit_of};
    ghost use Rattle.gm_model.specs.Start.{commanded, resumed_state, with_raw};
    ghost use Rattle.gm_model.specs.Command.{resume_step};
    ghost use Rattle.gm_model.specs.View.{own_ram, program_state};
    ghost use Rattle.rv_step.specs.FlatMem.{ram_base};
    ghost use Rattle.gm_model.specs.Drained.{is_settled};
    ghost use Rattle.kernel.specs.Settled.{IsSettled};
    ghost use Rattle.kernel.specs.Shown.{sys_of, entries_of, counted_of, named_of, IsMachine};

    /// The tick at which it stands.
    pub fn now(&self) -> Tick
        ensures { result ≡ (sys_of state self.now).tick }
    {
        self.tick
    }

    /// What the last event noted.
    pub fn entries(&self) -> &[Entry]
        ensures { result.now ≡ entries_of self.now }
    {
        self.out.entries()
    }

    /// How often what was noted since the counters began.
    pub fn counters(&self) -> &Counters
        ensures { result.now ≡ counted_of self.now }
    {
        &self.counters
    }

    /// Has events traced, or not.
    pub fn trace(&mut self, on: bool)
        requires machine { IsMachine state self.old }
        ensures traced { sys_of state self.new ≡ record (sys_of state self.old) { trace = on } }
        ensures entries { entries_of self.new ≡ entries_of self.old }
        ensures named { named_of self.new ≡ named_of self.old }
        ensures machine { IsMachine state self.new }
    {
        self.trace = on;
    }

    /// The parts in the order of their paths, so that `ObjId(n)` names the n-th.
    pub fn parts(&self) -> &[Box<dyn SimObject>]
        ensures { map (λ b. state b) result.now ≡ (sys_of state self.now).objects }
    {
        self.parts.as_slice()
    }

    /// The hart's state; a machine that has no hart tells a reset one.
    pub fn arch(&self) -> Arch
        ensures { result ≡ (program_state (sys_of state self.now) []).arch }
    {
        for i in 0..self.parts.len() {
            if let Some(arch) = arch_box(&self.parts[i]) {
                return arch;
            }
        }
        Arch::reset(0)
    }

    /// The number with which the guest has exited, if it has.
    pub fn exited(&self) -> Option<u32>
        ensures { result ≡ exit_of (sys_of state self.now) }
    {
        let exit = self.board.exit()?.0 as usize;
        if exit < self.parts.len() {
            exit_box(&self.parts[exit])
        } else {
            None
        }
    }

    /// RAM's own bytes from an address on.
    pub fn raw(&self, addr: u64, to: &mut [u8])
        requires machine { IsMachine state self.now }
        requires least { ram_base ≤ addr }
        requires most { addr - ram_base + length to.old ≤ length (own_ram (sys_of state self.now).objects) }
        ensures { to.new ≡ take (length to.old) (drop (addr - ram_base) (own_ram (sys_of state self.now).objects)) }
    {
        for i in 0..self.parts.len() {
            if read_box(&self.parts[i], addr - RAM_BASE, to) {
                return;
            }
        }
    }

    /// Sets RAM's own bytes from an address on, where the machine is drained.
    pub fn put_raw(&mut self, addr: u64, from: &[u8])
        requires machine { IsMachine state self.old }
        requires drained { is_settled (sys_of state self.old) ≡ true }
        requires least { ram_base ≤ addr }
        requires most { addr - ram_base + length from.now ≤ length (own_ram (sys_of state self.old).objects) }
        ensures raw { sys_of state self.new ≡ with_raw addr from.now (sys_of state self.old) }
        ensures entries { entries_of self.new ≡ entries_of self.old }
        ensures named { named_of self.new ≡ named_of self.old }
        ensures settled { IsSettled (sys_of state self.old) → IsSettled (sys_of state self.new) }
        ensures machine { IsMachine state self.new }
    {
        self.write_ram(addr - RAM_BASE, from);
    }

    /// Sets RAM's own bytes from a place on. Parts that keep none deny them.
    fn write_ram(&mut self, at: u64, from: &[u8])
        requires machine { IsMachine state self.old }
        requires within { at + length from.now ≤ length (own_ram (sys_of state self.old).objects) }
        ensures raw { sys_of state self.new ≡ with_raw (ram_base + at) from.now (sys_of state self.old) }
        ensures entries { entries_of self.new ≡ entries_of self.old }
        ensures named { named_of self.new ≡ named_of self.old }
        ensures table { self.new.queue.table ≡ self.old.queue.table }
    {
        for i in 0..self.parts.len() {
            write_box(&mut self.parts[i], at, from);
        }
    }

    /// Lets all parts of a machine that was asked to drain, and is drained, go on, in the order of their paths.
    pub fn resume_all(&mut self)
        requires machine { IsMachine state self.old }
        requires settled { IsSettled (sys_of state self.old) }
        ensures resumed { sys_of state self.new ≡ resumed_state (sys_of state self.old) }
        ensures entries { entries_of self.new ≡ entries_of self.old }
        ensures named { named_of self.new ≡ named_of self.old }
        ensures machine { IsMachine state self.new }
    {
        self.resume_parts();
        self.draining = false;
    }

    /// Each part goes on.
    fn resume_parts(&mut self)
        requires { IsMachine state self.old }
        ensures resumed { sys_of state self.new ≡ commanded (λ o. resume_step o (sys_of state self.old).tick) (sys_of state self.old) }
        ensures entries { entries_of self.new ≡ entries_of self.old }
        ensures named { named_of self.new ≡ named_of self.old }
        ensures table { self.new.queue.table ≡ self.old.queue.table }
    {
        for i in 0..self.parts.len() {
            resume_box(&mut self.parts[i], self.tick, &mut self.queue);
        }
    }
}
