// What an instruction does in turn: its requests, and what their responses lead to.
ghost use Rattle.std.specs.Prelude.{◌≡◌, ◌+◌, ◌^◌, ◌≤◌, [], ◌∷◌, IsTrue, None};
ghost use Rattle.ev_queue.specs.SlotTable.{gave};
ghost use Rattle.rv_step.specs.Demand.{need as need_of};
ghost use Rattle.rv_step.specs.Trap.{interrupt_cause};
ghost use Rattle.rv_step.specs.Width.{IsSize};
ghost use Rattle.gm_model.specs.AtomicCpu.{cpu_begins, cpu_fetched, cpu_accessed};
ghost use Rattle.gm_model.specs.Accesses.{store_request};
ghost use Rattle.gm_words.specs.Platform.{data_port, is_in_ram};
ghost use Rattle.gm_words.specs.declared.act.Act.TheVariants.{Atomic};
ghost use Rattle.obj_core.specs.Out.{HasRoom, extended};
ghost use Rattle.obj_core.specs.Step.{Takes};

use crate::sequencer::Sequencer;
use crate::stage::Stage;
use cpu_hart::packets::{self, DATA_PORT, FETCH_PORT};
use cpu_hart::{INSTRUCTION_ACCESS, LOAD_ACCESS, STORE_ACCESS, demand, number};
use ev_queue::EventQueue;
use gc_base::Tick;
use gc_base::limits::TOP;
use gm_model::{Act, Packet};
use obj_core::Outbox;
use rv_step::{Arch, Demand, take};
use rv_table::decode;

impl Sequencer {
    ghost use Rattle.gm_model.specs.ObjState.{AtomicCpu};
    ghost use Rattle.cpu_atomic.specs.Shown.{cpu_state};

    /// Between two instructions: an interrupt is entered, or the next instruction begins.
    #[inline(always)]
    pub(crate) fn begins(&mut self, a: &mut Arch, now: Tick, q: &mut EventQueue, out: &mut Outbox)
        requires known { IsTrue (gave q.old.table self.old.object.0 0 50) }
        requires room { HasRoom out.old }
        requires tick { now ≤ TOP }
        ensures { let before = cpu_state self.old (Some a.old) in
            Takes (cpu_begins before a.old out.old.next now (interrupt_cause a.old) (is_in_ram self.old.ram a.old.pc 4))
            (AtomicCpu before) (AtomicCpu (cpu_state self.new (Some a.new))) q.old q.new out.old out.new }
    {
        match take(a) {
            Some(cause) => self.traps(a, self.end(now, 0), cause, 0, q, out),
            None => self.fetches(a, now, q, out),
        }
    }

    /// No interrupt is taken: the word at pc is fetched, or a fetch outside RAM traps.
    #[inline(always)]
    fn fetches(&mut self, a: &mut Arch, now: Tick, q: &mut EventQueue, out: &mut Outbox)
        requires known { IsTrue (gave q.old.table self.old.object.0 0 50) }
        requires room { HasRoom out.old }
        requires tick { now ≤ TOP }
        ensures { let before = cpu_state self.old (Some a.old) in
            Takes (cpu_begins before a.old out.old.next now None (is_in_ram self.old.ram a.old.pc 4))
            (AtomicCpu before) (AtomicCpu (cpu_state self.new (Some a.new))) q.old q.new out.old out.new }
    {
        if packets::in_ram(self.ram, a.pc, 4) {
            self.stage = Stage::AwaitFetch;
            let id = out.fresh();
            out.push(Act::Atomic {
                port: FETCH_PORT,
                pkt: packets::fetch(id, a.pc),
            });
        } else {
            let (at, pc) = (self.end(now, 0), a.pc);
            self.traps(a, at, INSTRUCTION_ACCESS, pc, q, out);
        }
    }

    /// The word was fetched, which took a latency: what it asks for decides.
    #[inline(always)]
    pub(crate) fn fetched(
        &mut self,
        a: &mut Arch,
        now: Tick,
        latency: u64,
        word: u32,
        q: &mut EventQueue,
        out: &mut Outbox,
    )
        requires known { IsTrue (gave q.old.table self.old.object.0 0 50) }
        requires room { HasRoom out.old }
        requires tick { now ≤ TOP }
        requires latency { latency ≤ 2 ^ 32 }
        ensures { let before = cpu_state self.old (Some a.old) in
            Takes (cpu_fetched before a.old out.old.next now latency word (need_of a.old word))
            (AtomicCpu before) (AtomicCpu (cpu_state self.new (Some a.new))) q.old q.new out.old out.new }
    {
        let at = self.end(now, latency);
        let inst = decode(word);
        match demand(a, word, &inst) {
            Demand::Nothing | Demand::Sleep => self.retires(a, at, word, &inst, 0, q, out),
            Demand::Load { addr, size } => {
                self.stage = Stage::AwaitData { word, latency };
                let id = out.fresh();
                out.push(Act::Atomic {
                    port: DATA_PORT,
                    pkt: packets::load(id, self.ram, addr, size),
                });
            }
            Demand::Store { addr, size, value } => {
                self.stage = Stage::AwaitData { word, latency };
                self.asks_store(addr, size, value, out);
            }
            Demand::Trap { cause, tval } => self.traps(a, at, cause, tval, q, out),
        }
    }

    /// Asks for the data access of a store of v. It is kept apart, so that no other instruction clears the packet that it fills.
    #[inline(never)]
    fn asks_store(&self, addr: u64, size: u8, v: u64, out: &mut Outbox)
        requires size { IsSize size }
        requires room { HasRoom out.old }
        ensures { out.new ≡ extended out.old
            (Atomic (record { 0 = data_port }) (store_request self.now.ram out.old.next addr size v) ∷ []) [] (out.old.next + 1) }
    {
        let id = out.fresh();
        out.push(Act::Atomic {
            port: DATA_PORT,
            pkt: packets::store(id, self.ram, addr, size, v),
        });
    }

    /// The data access of the word was served: it retires, or traps where the access was refused.
    #[inline(always)]
    pub(crate) fn accessed(
        &mut self,
        a: &mut Arch,
        at: Tick,
        p: &Packet,
        word: u32,
        q: &mut EventQueue,
        out: &mut Outbox,
    )
        requires known { IsTrue (gave q.old.table self.old.object.0 0 50) }
        requires room { HasRoom out.old }
        ensures { let before = cpu_state self.old (Some a.old) in
            Takes (cpu_accessed before a.old out.old.next at p.now word (need_of a.old word) p.now.fault)
            (AtomicCpu before) (AtomicCpu (cpu_state self.new (Some a.new))) q.old q.new out.old out.new }
    {
        let inst = decode(word);
        match demand(a, word, &inst) {
            Demand::Load { addr, size } => {
                if p.fault {
                    self.traps(a, at, LOAD_ACCESS, addr, q, out);
                } else {
                    self.retires(a, at, word, &inst, number(&p.bytes, size), q, out);
                }
            }
            Demand::Store { addr, .. } => {
                if p.fault {
                    self.traps(a, at, STORE_ACCESS, addr, q, out);
                } else {
                    self.retires(a, at, word, &inst, 0, q, out);
                }
            }
            Demand::Nothing | Demand::Sleep | Demand::Trap { .. } => {}
        }
    }
}
