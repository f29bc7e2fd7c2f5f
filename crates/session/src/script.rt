// A script is carried out by a machine.
ghost use Rattle.std.specs.Prelude.{◌≡◌, ◌≤◌, ◌<◌, ◌+◌, ◌^◌, ◌++◌, true, codes, length, map, is_ok, IfErr, IfOk, OnOk};
ghost use Rattle.cfg_tree.specs.Valid.{IsValidConfig};
ghost use Rattle.gc_outside.specs.Emissions.{EmitsInOrder, EmitsToReport, line_emissions};
ghost use Rattle.gc_outside.specs.Sinks.{sink_seen, sinks};
ghost use Rattle.kernel.specs.Shown.{named_by, named_of, sys_seen, IsSeen};
ghost use Rattle.probe_stats.specs.Stats.{json_text, stats_line, stats_pairs};
ghost use Rattle.session.specs.Ending.{Ending, Leaves, SaysMemory, status_of};
ghost use Rattle.session.specs.Registers.{register_lines};
ghost use Rattle.session.specs.Script.{run_reason, run_line, input_line, stop_written, ScriptComesTo, StopFails};
ghost use Rattle.session.specs.declared.status.Status.{Status};
ghost use Rattle.stop_script.specs.declared.stop.Stop.TheVariants.{Run};

use crate::lines::say;
use crate::registers::put_registers;
use crate::status::Status;
use cfg_tree::Config;
use gc_base::{NoMemory, Tick};
use gc_outside::{Failed, Sink};
use gc_text::{LineBuf, put_dec, put_text};
use gm_model::{Goal, Reason, Until};
use kernel::{Machine, RunEnd};
use probe_stats::Counters;
use rv_step::Arch;
use std::alloc::Global;
use stop_script::Stop;

/// Why a run ended.
fn put_reason(text: &mut LineBuf, reason: Reason)
    requires { length text.old ≤ 10 }
    ensures reason { text.new ≡ text.old ++ run_reason reason }
    ensures room { length text.new ≤ length text.old + 25 }
{
    match reason {
        Reason::Exit(n) => {
            put_text(text, b"exit ");
            put_dec(text, n as u64);
        }
        Reason::Insts => put_text(text, b"insts"),
        Reason::Idle => put_text(text, b"idle"),
        Reason::TickLimit => put_text(text, b"ticklimit"),
        Reason::Tick => put_text(text, b"tick"),
        Reason::Limit => put_text(text, b"limit"),
    }
}

/// The line of a run that ended at a tick.
fn run_line(end: &RunEnd, tick: Tick) -> LineBuf
    ensures { result ≡ run_line end.now.reason tick end.now.insts end.now.events }
{
    let mut text = LineBuf::new();
    put_text(&mut text, b"run ");
    put_reason(&mut text, end.reason);
    put_text(&mut text, b" at ");
    put_dec(&mut text, tick.get());
    put_text(&mut text, b" insts ");
    put_dec(&mut text, end.insts);
    put_text(&mut text, b" events ");
    put_dec(&mut text, end.events);
    put_text(&mut text, b"\n");
    text
}

/// The lines of the registers.
fn register_text(arch: &Arch) -> LineBuf
    ensures { result ≡ register_lines arch.now }
{
    let mut text = LineBuf::new();
    put_registers(&mut text, arch);
    text
}

/// The line that tells how many bytes of input were taken.
fn input_line(taken: u32) -> LineBuf
    ensures { result ≡ input_line taken }
{
    let mut text = LineBuf::new();
    put_text(&mut text, b"input ");
    put_dec(&mut text, taken as u64);
    put_text(&mut text, b"\n");
    text
}

/// Runs the machine, and reports how the run ended.
fn run<C: Sink, R: Sink>(
    machine: &mut Machine,
    config: &Config,
    until: Until,
    console: &mut C,
    report: &mut R,
) -> Result<(), Failed>
    requires machine { IsSeen machine.old state }
    requires valid { IsValidConfig config.now }
    requires named { named_of machine.old ≡ named_by config.now }
    requires events { (sys_seen machine.old state).counts.events + config.now.system_budget < 2 ^ 54 }
    ensures sys { OnOk result
        (sys_seen machine.new state ≡ (stop_written config.now (sys_seen machine.old state) (Run until)).sys) }
    ensures emitted { EmitsInOrder
        (stop_written config.now (sys_seen machine.old state) (Run until)).emissions (is_ok result)
        (sinks C.Sink R.Sink console.old report.old) (sinks C.Sink R.Sink console.new report.new) }
    ensures machine { OnOk result (IsSeen machine.new state) }
    ensures named { named_of machine.new ≡ named_of machine.old }
    ensures counted { OnOk result ((sys_seen machine.new state).counts.events
        ≤ (sys_seen machine.old state).counts.events + config.now.system_budget) }
{
    let goal = Goal {
        until,
        budget: config.system_budget,
    };
    match machine.run(goal, console, report) {
        Ok(end) => say(run_line(&end, machine.now()).bytes(), report),
        Err(_) => Err(Failed),
    }
}

/// Reports the statistics at a tick, each line in a call of its own.
fn stats<R: Sink>(counters: &Counters, now: Tick, report: &mut R) -> Result<(), Failed>
    ensures { EmitsToReport (line_emissions (map (λ p. stats_line p) (stats_pairs counters.now now))) (is_ok result)
        (sink_seen R.Sink report.old) (sink_seen R.Sink report.new) }
{
    let mut line = LineBuf::new();
    let mut n = 0;
    while counters.text_line(n, now, &mut line) {
        say(line.bytes(), report)?;
        line.clear();
        n += 1;
    }
    Ok(())
}

/// The line of the statistics' JSON object.
fn json_line(alloc: Global, counters: &Counters, now: Tick) -> Result<Vec<u8>, NoMemory>
    ensures { IfOk result (λ text. text.items ≡ json_text (stats_pairs counters.now now) ++ codes "\n") }
{
    let mut text = counters.json(alloc, now)?;
    text.push(b'\n')?;
    Ok(text)
}

/// Says that memory was not found.
fn say_memory<R: Sink>(report: &mut R) -> Status
    ensures { SaysMemory result (sink_seen R.Sink report.old) (sink_seen R.Sink report.new) }
{
    match say(b"memory\n", report) {
        Ok(()) => Status::Memory,
        Err(_) => Status::Sink,
    }
}

/// A sink that failed ends a call.
fn or_sink(done: Result<(), Failed>) -> Result<(), Status>
    ensures same { is_ok result ≡ is_ok done }
    ensures status { IfErr result (λ s. s ≡ Status.Sink) }
{
    match done {
        Ok(()) => Ok(()),
        Err(_) => Err(Status::Sink),
    }
}

/// Carries out one stop.
fn stop<C: Sink, R: Sink>(
    alloc: Global,
    machine: &mut Machine,
    config: &Config,
    stop: &Stop,
    console: &mut C,
    report: &mut R,
) -> Result<(), Status>
    requires machine { IsSeen machine.old state }
    requires valid { IsValidConfig config.now }
    requires named { named_of machine.old ≡ named_by config.now }
    requires events { (sys_seen machine.old state).counts.events + config.now.system_budget < 2 ^ 54 }
    ensures sys { OnOk result
        (sys_seen machine.new state ≡ (stop_written config.now (sys_seen machine.old state) stop.now).sys) }
    ensures emitted { OnOk result (EmitsInOrder
        (stop_written config.now (sys_seen machine.old state) stop.now).emissions true
        (sinks C.Sink R.Sink console.old report.old) (sinks C.Sink R.Sink console.new report.new)) }
    ensures fails { IfErr result (λ s. StopFails config.now (sys_seen machine.old state) stop.now s
        (sinks C.Sink R.Sink console.old report.old) (sinks C.Sink R.Sink console.new report.new)) }
    ensures machine { OnOk result (IsSeen machine.new state) }
    ensures named { named_of machine.new ≡ named_of machine.old }
    ensures counted { OnOk result ((sys_seen machine.new state).counts.events
        ≤ (sys_seen machine.old state).counts.events + config.now.system_budget) }
{
    match stop {
        Stop::Run(until) => or_sink(run(machine, config, *until, console, report)),
        Stop::Regs => or_sink(say(register_text(&machine.arch()).bytes(), report)),
        Stop::Stats => or_sink(stats(machine.counters(), machine.now(), report)),
        Stop::StatsJson => match json_line(alloc, machine.counters(), machine.now()) {
            Ok(text) => or_sink(say(text.as_slice(), report)),
            Err(NoMemory) => Err(say_memory(report)),
        },
        Stop::Input(bytes) => {
            let taken = machine.input(bytes.items());
            or_sink(say(input_line(taken).bytes(), report))
        }
        Stop::Trace(on) => {
            machine.trace(*on);
            Ok(())
        }
    }
}

/// Carries out stops in order. A failed sink ends it, and so does want of memory.
pub(crate) fn carry_out<C: Sink, R: Sink>(
    alloc: Global,
    machine: &mut Machine,
    config: &Config,
    stops: &[Stop],
    console: &mut C,
    report: &mut R,
) -> Result<(), Status>
    requires machine { IsSeen machine.old state }
    requires valid { IsValidConfig config.now }
    requires named { named_of machine.old ≡ named_by config.now }
    requires events { (sys_seen machine.old state).counts.events ≤ 2 ^ 53 }
    requires few { length stops.now ≤ 256 }
    ensures { (e : Ending) × ScriptComesTo config.now (sys_seen machine.old state) stops.now e
        × Leaves e (status_of result)
        (sinks C.Sink R.Sink console.old report.old) (sinks C.Sink R.Sink console.new report.new) }
{
    for next in stops.iter() {
        stop(alloc, machine, config, next, console, report)?;
    }
    Ok(())
}
