// What an event writes.
ghost use Rattle.std.specs.Prelude.{◌≡◌, ◌≤◌, [], ◌∷◌, map, IfErr, is_ok};
ghost use Rattle.std.specs.Option.{option_to_list};
ghost use Rattle.gc_outside.specs.Emissions.{EmitsInOrder, EmitsToConsole, EmitsToReport, line_emissions};
ghost use Rattle.gc_outside.specs.Emits.{Emits};
ghost use Rattle.gc_outside.specs.Faults.{Rose};
ghost use Rattle.gc_outside.specs.Sinks.{sink_seen, sinks};
ghost use Rattle.gm_words.specs.Entries.{console_of};
ghost use Rattle.probe_stats.specs.Trace.{entry_line};
ghost use Rattle.kernel.specs.Emitted.{byte_emissions, event_emissions, trace_emissions, trace_lines};
ghost use Rattle.kernel.specs.Ends.{IsFaultOf};
ghost use Rattle.kernel.specs.declared.run_end.RunFault.{RunFault};

use crate::machine::Machine;
use crate::run_end::{Fired, RunFault};
use ev_queue::Due;
use gc_outside::Sink;
use gc_text::LineBuf;
use gm_model::Entry;

impl Machine {
    ghost use Rattle.kernel.specs.Shown.{entries_of, named_of, traces};

    /// Writes what the last event writes: its console's byte and, where events are traced, its lines.
    #[inline(always)]
    pub(crate) fn write<C: Sink, R: Sink>(
        &self,
        fired: &Fired,
        console: &mut C,
        report: &mut R,
    ) -> Result<(), RunFault>
        requires byte { option_to_list fired.now.console ≡ console_of (entries_of self.now) }
        ensures emitted { EmitsInOrder
            (event_emissions (named_of self.now).parts (traces self.now) fired.now.due (entries_of self.now)) (is_ok result)
            (sinks C.Sink R.Sink console.old report.old) (sinks C.Sink R.Sink console.new report.new) }
        ensures cause { IfErr result (λ f. IsFaultOf f (C.faults console.old) (C.faults console.new)
            (R.faults report.old) (R.faults report.new)) }
    {
        write_byte(fired.console, console)?;
        self.write_trace(&fired.due, report)
    }

    /// Writes the trace of the last event, where events are traced.
    #[inline(always)]
    fn write_trace<R: Sink>(&self, due: &Due, report: &mut R) -> Result<(), RunFault>
        ensures emitted { EmitsToReport
            (trace_emissions (named_of self.now).parts (traces self.now) due.now (entries_of self.now)) (is_ok result)
            (sink_seen R.Sink report.old) (sink_seen R.Sink report.new) }
        ensures fault { IfErr result (λ f. (f ≡ RunFault.Report) × Rose (R.faults report.old) (R.faults report.new)) }
    {
        if self.trace {
            self.write_lines(due, self.out.entries(), report)
        } else {
            Ok(())
        }
    }

    /// Writes the lines of an event that noted these entries, each in a call of its own.
    #[cold]
    #[inline(never)]
    fn write_lines<R: Sink>(
        &self,
        due: &Due,
        entries: &[Entry],
        report: &mut R,
    ) -> Result<(), RunFault>
        ensures emitted { EmitsToReport (line_emissions (trace_lines (named_of self.now).parts due.now entries.now))
            (is_ok result) (sink_seen R.Sink report.old) (sink_seen R.Sink report.new) }
        ensures fault { IfErr result (λ f. (f ≡ RunFault.Report) × Rose (R.faults report.old) (R.faults report.new)) }
    {
        let mut line = LineBuf::new();
        self.counters
            .trace_head(due.tick, due.owner, due.slot, &mut line);
        emit(&line, report)?;
        self.write_entries(entries, &mut line, report)
    }

    /// Writes the lines of entries, each in a call of its own.
    fn write_entries<R: Sink>(
        &self,
        entries: &[Entry],
        line: &mut LineBuf,
        report: &mut R,
    ) -> Result<(), RunFault>
        ensures emitted { EmitsToReport (line_emissions (map (λ e. entry_line (named_of self.now).parts e) entries.now))
            (is_ok result) (sink_seen R.Sink report.old) (sink_seen R.Sink report.new) }
        ensures fault { IfErr result (λ f. (f ≡ RunFault.Report) × Rose (R.faults report.old) (R.faults report.new)) }
        ensures count { R.faults report.old ≤ R.faults report.new }
    {
        for entry in entries.iter() {
            line.clear();
            self.counters.trace_line(entry, line);
            emit(line, report)?;
        }
        Ok(())
    }
}

/// Emits a line.
fn emit<R: Sink>(line: &LineBuf, report: &mut R) -> Result<(), RunFault>
    ensures emitted { Emits line.now (is_ok result)
        (R.taken report.old) (R.taken report.new) (R.faults report.old) (R.faults report.new) }
    ensures fault { IfErr result (λ f. (f ≡ RunFault.Report) × Rose (R.faults report.old) (R.faults report.new)) }
    ensures count { R.faults report.old ≤ R.faults report.new }
{
    report.emit(line.bytes()).map_err(|_| RunFault::Report)
}

/// Hands the console a byte.
fn emit_byte<C: Sink>(byte: u8, console: &mut C) -> Result<(), RunFault>
    ensures emitted { Emits (byte ∷ []) (is_ok result)
        (C.taken console.old) (C.taken console.new) (C.faults console.old) (C.faults console.new) }
    ensures fault { IfErr result (λ f. (f ≡ RunFault.Console) × Rose (C.faults console.old) (C.faults console.new)) }
{
    console.emit(&[byte]).map_err(|_| RunFault::Console)
}

/// Hands the console the byte that an event brought to it, if it did.
fn write_byte<C: Sink>(byte: Option<u8>, console: &mut C) -> Result<(), RunFault>
    ensures emitted { EmitsToConsole (byte_emissions (option_to_list byte)) (is_ok result)
        (sink_seen C.Sink console.old) (sink_seen C.Sink console.new) }
    ensures fault { IfErr result (λ f. (f ≡ RunFault.Console) × Rose (C.faults console.old) (C.faults console.new)) }
{
    match byte {
        Some(byte) => emit_byte(byte, console),
        None => Ok(()),
    }
}
