// What an instruction does in turn: its requests, which are offered, and what their responses lead to.
ghost use Rattle.std.specs.Prelude.{◌≡◌, ◌<◌, ◌≤◌, IsTrue, None, [], ◌∷◌, length};
ghost use Rattle.ev_queue.specs.SlotTable.{gave};
ghost use Rattle.rv_step.specs.Demand.{need as need_of};
ghost use Rattle.rv_step.specs.Trap.{interrupt_cause};
ghost use Rattle.gm_model.specs.TimingCpu.{tcpu_begins, tcpu_demands, tcpu_fetched, tcpu_accessed};
ghost use Rattle.gm_model.specs.Flows.{offer_at};
ghost use Rattle.gm_words.specs.Platform.{data_port, fetch_port, is_in_ram};
ghost use Rattle.obj_core.specs.Out.{HasRoom, extended};
ghost use Rattle.obj_core.specs.Step.{Takes};

use crate::hand::Hand;
use crate::sequencer::Sequencer;
use crate::stage::Stage;
use cpu_hart::packets::{self, DATA_PORT, FETCH_PORT};
use cpu_hart::{INSTRUCTION_ACCESS, LOAD_ACCESS, STORE_ACCESS, demand, number};
use ev_queue::EventQueue;
use gc_base::Tick;
use gc_base::limits::TOP;
use gm_model::{Act, Packet};
use obj_core::Outbox;
use rv_step::{Arch, Demand, take};
use rv_table::decode;

impl Sequencer {
    ghost use Rattle.gm_model.specs.ObjState.{TimingCpu};
    ghost use Rattle.cpu_timing.specs.Shown.{cpu_state};
    ghost use Rattle.cpu_timing.specs.Quiet.{TakesQuietly};
    ghost use Rattle.cpu_timing.specs.declared.hand.Hand.TheVariants as hands;
    ghost use Rattle.cpu_timing.specs.declared.stage.Stage.TheVariants as stages;

    /// Between two instructions: an interrupt is entered, or the next instruction begins.
    #[inline(always)]
    pub(crate) fn begins(&mut self, a: &mut Arch, now: Tick, q: &mut EventQueue, out: &mut Outbox)
        requires known { IsTrue (gave q.old.table self.old.object.0 0 50) }
        requires room { HasRoom out.old }
        requires tick { now ≤ TOP }
        ensures { let before = cpu_state self.old (Some a.old) in
            Takes (tcpu_begins before a.old out.old.next now (interrupt_cause a.old) (is_in_ram self.old.ram a.old.pc 4))
            (TimingCpu before) (TimingCpu (cpu_state self.new (Some a.new))) q.old q.new out.old out.new }
    {
        match take(a) {
            Some(cause) => self.traps(a, now, cause, 0, q, out),
            None => self.fetches(a, now, q, out),
        }
    }

    /// No interrupt is taken: the fetch of the word at pc is offered, or a fetch outside RAM traps.
    #[inline(always)]
    fn fetches(&mut self, a: &mut Arch, now: Tick, q: &mut EventQueue, out: &mut Outbox)
        requires known { IsTrue (gave q.old.table self.old.object.0 0 50) }
        requires room { HasRoom out.old }
        requires tick { now ≤ TOP }
        ensures { let before = cpu_state self.old (Some a.old) in
            Takes (tcpu_begins before a.old out.old.next now None (is_in_ram self.old.ram a.old.pc 4))
            (TimingCpu before) (TimingCpu (cpu_state self.new (Some a.new))) q.old q.new out.old out.new }
    {
        let pc = a.pc;
        if packets::in_ram(self.ram, pc, 4) {
            let pkt = packets::fetch(out.fresh(), pc);
            self.offers_fetch(&pkt, out);
        } else {
            self.traps(a, now, INSTRUCTION_ACCESS, pc, q, out);
        }
    }

    /// The data access that the word asks for is offered.
    #[inline(always)]
    pub(crate) fn demands(&mut self, a: &Arch, word: u32, out: &mut Outbox)
        requires room { HasRoom out.old }
        ensures { TakesQuietly (tcpu_demands (cpu_state self.old (Some a.now)) out.old.next word (need_of a.now word))
            (TimingCpu (cpu_state self.new (Some a.now))) out.old out.new }
    {
        let inst = decode(word);
        match demand(a, word, &inst) {
            Demand::Load { addr, size } => {
                let pkt = packets::load(out.fresh(), self.ram, addr, size);
                self.offers_access(word, &pkt, out);
            }
            Demand::Store { addr, size, value } => {
                let pkt = packets::store(out.fresh(), self.ram, addr, size, value);
                self.offers_access(word, &pkt, out);
            }
            Demand::Nothing | Demand::Sleep | Demand::Trap { .. } => {}
        }
    }

    /// The fetch is offered.
    #[inline(always)]
    pub(crate) fn offers_fetch(&mut self, p: &Packet, out: &mut Outbox)
        requires room { length out.old.items < 272 }
        ensures stage { self.new ≡ record self.old { stage = stages.Fetch (hands.Asks p.now) } }
        ensures out { out.new ≡ extended out.old (offer_at fetch_port p.now ∷ []) [] out.old.next }
    {
        out.push(Act::Offer {
            port: FETCH_PORT,
            pkt: *p,
        });
        self.stage = Stage::Fetch(Hand::Asks(*p));
    }

    /// The data access of the word is offered.
    #[inline(always)]
    pub(crate) fn offers_access(&mut self, word: u32, p: &Packet, out: &mut Outbox)
        requires room { length out.old.items < 272 }
        ensures stage { self.new ≡ record self.old { stage = stages.Data word (hands.Asks p.now) } }
        ensures out { out.new ≡ extended out.old (offer_at data_port p.now ∷ []) [] out.old.next }
    {
        out.push(Act::Offer {
            port: DATA_PORT,
            pkt: *p,
        });
        self.stage = Stage::Data {
            word,
            hand: Hand::Asks(*p),
        };
    }

    /// The word was fetched: it is over, or its access comes at the next event.
    #[inline(always)]
    pub(crate) fn fetched(
        &mut self,
        a: &mut Arch,
        now: Tick,
        word: u32,
        q: &mut EventQueue,
        out: &mut Outbox,
    )
        requires known { IsTrue (gave q.old.table self.old.object.0 0 50) }
        requires room { HasRoom out.old }
        requires tick { now ≤ TOP }
        ensures { let before = cpu_state self.old (Some a.old) in
            Takes (tcpu_fetched before a.old out.old.next now word (need_of a.old word))
            (TimingCpu before) (TimingCpu (cpu_state self.new (Some a.new))) q.old q.new out.old out.new }
    {
        let inst = decode(word);
        match demand(a, word, &inst) {
            Demand::Nothing | Demand::Sleep => self.retires(a, now, word, &inst, 0, q, out),
            Demand::Load { .. } | Demand::Store { .. } => {
                self.stage = Stage::Ready { word };
                self.goes_on(now, q);
            }
            Demand::Trap { cause, tval } => self.traps(a, now, cause, tval, q, out),
        }
    }

    /// The data access of the word was served: it retires, or traps where the access was refused by fault.
    #[inline(always)]
    pub(crate) fn accessed(
        &mut self,
        a: &mut Arch,
        now: Tick,
        p: &Packet,
        word: u32,
        q: &mut EventQueue,
        out: &mut Outbox,
    )
        requires known { IsTrue (gave q.old.table self.old.object.0 0 50) }
        requires room { HasRoom out.old }
        requires tick { now ≤ TOP }
        ensures { let before = cpu_state self.old (Some a.old) in
            Takes (tcpu_accessed before a.old out.old.next now p.now word (need_of a.old word) p.now.fault)
            (TimingCpu before) (TimingCpu (cpu_state self.new (Some a.new))) q.old q.new out.old out.new }
    {
        let inst = decode(word);
        match demand(a, word, &inst) {
            Demand::Load { addr, .. } if p.fault => self.traps(a, now, LOAD_ACCESS, addr, q, out),
            Demand::Load { size, .. } => {
                self.retires(a, now, word, &inst, number(&p.bytes, size), q, out);
            }
            Demand::Store { addr, .. } if p.fault => {
                self.traps(a, now, STORE_ACCESS, addr, q, out);
            }
            Demand::Store { .. } => self.retires(a, now, word, &inst, 0, q, out),
            Demand::Nothing | Demand::Sleep | Demand::Trap { .. } => {}
        }
    }
}
