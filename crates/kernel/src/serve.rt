// The loop: an event is served, all that it causes is delivered, and so on until a run ends.
ghost use Rattle.std.specs.Prelude.{◌≡◌, ℕ, ◌+◌, ◌^◌, ◌≤◌, ◌<◌, IfOk, OnOk, IfErr, OnErr, IfSome, OnSome, IfNone, MatchOption, is_ok};
ghost use Rattle.std.specs.Option.{option_map, option_to_list};
ghost use Rattle.gc_base.specs.declared.limits.TheConstants.{TOP};
ghost use Rattle.gc_outside.specs.Emissions.{EmitsInOrder};
ghost use Rattle.gc_outside.specs.Sinks.{sinks};
ghost use Rattle.ev_queue.specs.PendingList.{first};
ghost use Rattle.gm_system.specs.Runs.{IsRunReplayed};
ghost use Rattle.gm_model.specs.Deliver.{deliver, items_max};
ghost use Rattle.gm_model.specs.Fire.{fire_first, event_delivered, counted};
ghost use Rattle.gm_words.specs.Entries.{console_of};
ghost use Rattle.gm_model.specs.Run.{reason_for, run_to};
ghost use Rattle.kernel.specs.Emitted.{first_emissions, run_emissions};
ghost use Rattle.kernel.specs.Ends.{TellsEnd, StopsInEvent, IsFaultOf, last_noted};
ghost use Rattle.kernel.specs.Ready.{IsUnderWay, MayServe, HasEventsLeft, at_tick, not_begun, without_first};

use crate::entries::{count, told};
use crate::machine::Machine;
use crate::reason::{has_retired, late_reason};
use crate::run_end::{Fired, RunEnd, RunFault};
use ev_queue::Due;
use gc_base::Tick;
use gc_outside::Sink;
use gm_model::{Goal, Reason, Wake};

/// How many items are delivered for one event at most.
const ITEMS_MAX: u32 = 256;

impl Machine {
    ghost use Rattle.kernel.specs.Shown.{sys_of, delivery_of, entries_of, named_of, IsMachine};

    /// Serves the first pending event at its own tick, with all that it causes.
    pub fn fire(&mut self) -> Option<Fired>
        requires machine { IsMachine state self.old }
        requires events { HasEventsLeft (sys_of state self.old) }
        requires tick { IfSome (first (sys_of state self.old).pending) (λ d. d.tick ≤ TOP) }

        ensures event { option_map (λ f. f.due) result ≡ first (sys_of state self.old).pending }
        ensures fired { sys_of state self.new ≡ (fire_first (sys_of state self.old)).sys }
        ensures entries { OnSome result (entries_of self.new ≡ (fire_first (sys_of state self.old)).entries) }
        ensures console { IfSome result (λ f. option_to_list f.console
            ≡ console_of (fire_first (sys_of state self.old)).entries) }
        ensures none { IfNone result (entries_of self.new ≡ entries_of self.old) }
        ensures named { named_of self.new ≡ named_of self.old }
        // What it noted is the instruction set's over flat memory.
        ensures replay { IsRunReplayed (sys_of state self.old) (fire_first (sys_of state self.old)) }
        ensures machine { IsMachine state self.new }
    {
        let due = self.take_event()?;
        self.serve(&due);
        Some(told(&due, self.out.entries()))
    }

    /// Takes the first pending event out, if one is pending.
    fn take_event(&mut self) -> Option<Due>
        ensures first { result ≡ first (sys_of state self.old).pending }
        ensures rest { sys_of state self.new ≡ without_first (sys_of state self.old) }
        ensures entries { entries_of self.new ≡ entries_of self.old }
        ensures table { self.new.queue.table ≡ self.old.queue.table }
        ensures counters { self.new.counters ≡ self.old.counters }
    {
        self.queue.pop()
    }

    /// Serves an event that was taken out, at its own tick, with all that it causes.
    #[inline(always)]
    fn serve(&mut self, due: &Due)
        requires { MayServe (at_tick due.now.tick (sys_of state self.old)) due.now self.old.queue.table }
        ensures served { sys_of state self.new
            ≡ (counted (event_delivered (at_tick due.now.tick (sys_of state self.old)) due.now)).sys }
        ensures entries { entries_of self.new
            ≡ (event_delivered (at_tick due.now.tick (sys_of state self.old)) due.now).entries }
        ensures table { self.new.queue.table ≡ self.old.queue.table }
        ensures named { named_of self.new ≡ named_of self.old }
    {
        self.begin(due.tick);
        self.wake(due.owner, Wake::Event { slot: due.slot });
        self.deliver();
        count(&mut self.counters, self.out.entries());
    }

    /// Stands at the tick of an event, which has asked for nothing and noted nothing yet.
    #[inline(always)]
    fn begin(&mut self, tick: Tick)
        ensures begun { delivery_of state self.new ≡ not_begun (at_tick tick (sys_of state self.old)) }
        ensures table { self.new.queue.table ≡ self.old.queue.table }
        ensures counters { self.new.counters ≡ self.old.counters }
    {
        self.tick = tick;
        self.out.clear_items();
        self.out.clear_entries();
    }

    /// Delivers what is to be delivered, one item after another, with all that it causes.
    #[inline(always)]
    fn deliver(&mut self)
        requires { IsUnderWay (delivery_of state self.old) self.old.queue.table }
        ensures delivered { delivery_of state self.new ≡ deliver items_max (delivery_of state self.old) }
        ensures table { self.new.queue.table ≡ self.old.queue.table }
        ensures counters { self.new.counters ≡ self.old.counters }
    {
        'items: for _n in 0..ITEMS_MAX {
            if !self.deliver_item() {
                break;
            }
        }
    }

    /// Serves events until there is a reason to end. Each writes its console's byte and, where events are traced, its lines.
    pub fn run<C: Sink, R: Sink>(
        &mut self,
        g: Goal,
        console: &mut C,
        report: &mut R,
    ) -> Result<RunEnd, RunFault>
        requires machine { IsMachine state self.old }
        requires events { (sys_of state self.old).counts.events + g.budget < 2 ^ 54 }

        ensures ended { IfOk result (λ e. TellsEnd e (run_to (sys_of state self.old) g)) }
        ensures budget { IfOk result (λ e. e.events ≤ g.budget) }
        ensures ran { OnOk result (sys_of state self.new ≡ (run_to (sys_of state self.old) g).ran.sys) }
        ensures noted { OnOk result (entries_of self.new
            ≡ last_noted (sys_of state self.old) (entries_of self.old) (run_to (sys_of state self.old) g).events) }
        ensures replay { IsRunReplayed (sys_of state self.old) (run_to (sys_of state self.old) g).ran }
        ensures named { named_of self.new ≡ named_of self.old }

        // What its events write was taken in order, or, where a sink failed, a front of it.
        ensures emitted { EmitsInOrder (run_emissions (named_of self.old).parts (sys_of state self.old) g) (is_ok result)
            (sinks C.Sink R.Sink console.old report.old) (sinks C.Sink R.Sink console.new report.new) }

        // A fault leaves the machine after the whole event whose byte or line was refused.
        ensures stopped { OnErr result (StopsInEvent (named_of self.old).parts (sys_of state self.old) g
            (sys_of state self.new) (entries_of self.new)
            (sinks C.Sink R.Sink console.old report.old) (sinks C.Sink R.Sink console.new report.new)) }
        ensures cause { IfErr result (λ f. IsFaultOf f (C.faults console.old) (C.faults console.new)
            (R.faults report.old) (R.faults report.new)) }
        ensures machine { IsMachine state self.new }
    {
        let start = self.counters.retired();
        'run: for events in 0..g.budget {
            let insts = self.counters.retired() - start;
            if let Some(reason) = self.reason(&g, events, insts) {
                return Ok(RunEnd {
                    reason,
                    insts,
                    events,
                });
            }
            self.step(console, report)?;
        }
        let insts = self.counters.retired() - start;
        match self.reason(&g, g.budget, insts) {
            Some(reason) => Ok(RunEnd {
                reason,
                insts,
                events: g.budget,
            }),
            None => unreachable!(),
        }
    }

    /// Serves the first pending event, and writes its console's byte and, where events are traced, its lines.
    pub fn step<C: Sink, R: Sink>(
        &mut self,
        console: &mut C,
        report: &mut R,
    ) -> Result<Option<Fired>, RunFault>
        requires machine { IsMachine state self.old }
        requires events { HasEventsLeft (sys_of state self.old) }
        requires tick { IfSome (first (sys_of state self.old).pending) (λ d. d.tick ≤ TOP) }

        ensures event { IfOk result (λ o. option_map (λ f. f.due) o ≡ first (sys_of state self.old).pending) }
        ensures fired { sys_of state self.new ≡ (fire_first (sys_of state self.old)).sys }
        ensures entries { MatchOption (first (sys_of state self.old).pending) (entries_of self.new ≡ entries_of self.old)
            (λ d. entries_of self.new ≡ (fire_first (sys_of state self.old)).entries) }
        ensures console { IfOk result (λ o. IfSome o (λ f. option_to_list f.console
            ≡ console_of (fire_first (sys_of state self.old)).entries)) }
        ensures replay { IsRunReplayed (sys_of state self.old) (fire_first (sys_of state self.old)) }
        ensures named { named_of self.new ≡ named_of self.old }

        // What the event writes was taken in order, or, where a sink failed, a front of it.
        ensures emitted { EmitsInOrder (first_emissions (named_of self.old).parts (sys_of state self.old)) (is_ok result)
            (sinks C.Sink R.Sink console.old report.old) (sinks C.Sink R.Sink console.new report.new) }
        ensures cause { IfErr result (λ f. IsFaultOf f (C.faults console.old) (C.faults console.new)
            (R.faults report.old) (R.faults report.new)) }
        ensures machine { IsMachine state self.new }
    {
        match self.fire() {
            None => Ok(None),
            Some(fired) => {
                self.write(&fired, console, report)?;
                Ok(Some(fired))
            }
        }
    }

    /// Why a run ends after so many events in which so many instructions retired, if it does.
    fn reason(&self, g: &Goal, events: u64, insts: u64) -> Option<Reason>
        requires { IsMachine state self.now }
        ensures { result ≡ reason_for g.now events insts (sys_of state self.now) }
    {
        if let Some(code) = self.exited() {
            return Some(Reason::Exit(code));
        }
        if has_retired(g.until, insts) {
            return Some(Reason::Insts);
        }
        match self.queue.peek_tick() {
            None => Some(Reason::Idle),
            Some(tick) => late_reason(g, events, tick.get()),
        }
    }
}
