// Machines are built out of the parts that are handed in, and run to where they are asked to. The parts are boxed in one place,
// since a proof of what a box holds takes long.
ghost use Rattle.std.specs.Prelude.{◌≡◌, ◌+◌, ◌^◌, ◌<◌, ◌≤◌, map, IfOk, OnOk, IfSome};
ghost use Rattle.gc_base.specs.declared.limits.TheConstants.{TOP};
ghost use Rattle.ev_queue.specs.PendingList.{first};
ghost use Rattle.cfg_tree.specs.Valid.{IsValidConfig};
ghost use Rattle.gm_model.specs.ObjState.{IsBlank};
ghost use Rattle.gm_words.specs.declared.goal.Reason.{Reason};
ghost use Rattle.kernel.specs.Build.{AreBlank};
ghost use Rattle.kernel.specs.Shown.{sys_of, sys_seen, IsMachine, IsSeen};

use crate::call::tests::{
    ATOMIC, CONFIG, Case, DMA, IMAGE, RUN_END, SILENT, STORE_AND_EXIT, Sinks, TIMED_CONFIG, TIMING,
    expect_left, store_of, words_of,
};
use cfg_tree::Config;
use cpu_atomic::AtomicCpu;
use cpu_timing::TimingCpu;
use gc_base::{NoMemory, ObjId, PktId};
use gm_model::platform::{RAM_BASE, UART_BASE};
use gm_model::{Entry, Goal, Kind, Reason, Until};
use kernel::{BuildFault, Fired, Machine, RunEnd, RunFault};
use obj_core::SimObject;
use obj_counted::Counted;
use obj_exit::ExitDev;
use obj_mem::Mem;
use obj_timer::Timer;
use obj_uart::Uart;
use obj_xbar::Xbar;
use session::gemcore;
use std::alloc::Global;
use std::cell::Cell;
use std::process::Abort;
use std::rc::Rc;
use std::test::Fail;

// The numbers of the parts whose events are told: their places in the order of paths.
const ATOMIC_CPU: ObjId = ObjId(0);

const COREBUS: ObjId = ObjId(1);

const MEM: ObjId = ObjId(3);

const MEMBUS: ObjId = ObjId(4);

const TIMING_CPU: ObjId = ObjId(5);

const UART: ObjId = ObjId(7);

/// How many events a run of these tests serves at most.
const BUDGET: u64 = 1_000_000;

/// How a run ends, how many instructions and events it had, and at which tick.
type End = (Reason, u64, u64, u64);

/// When the first pending event was served, whose it was, and the byte that it brought to the console.
type Told = Option<(u64, ObjId, Option<u8>)>;

/// What is asked of a machine that holds the program, and what it tells.
#[derive(Clone, Copy)]
enum Asked {
    /// To run to two goals, and then to the end. It tells how each run ends.
    Runs(&'static [(Until, u64); 2], &'static [End; 3]),
    /// To serve seven events. It tells of each.
    Events(&'static [Told; 7]),
    /// To run to the end, while the console refuses the first byte. It tells at which tick that was, and what its event noted.
    RefusedByte(u64, &'static [Entry; 3]),
}

/// What is done with parts.
#[derive(Clone, Copy)]
enum Use {
    /// A machine is built of them, or isn't for this reason.
    Build(Option<BuildFault>),
    /// A machine is built of them, and is asked.
    Machine(Asked),
    /// The program is called with them.
    Call(Case),
}

/// Parts, of which two are counted, what is done with them, and how often the atomic CPU and the UART are woken.
#[derive(Clone, Copy)]
struct Counting {
    config: &'static str,
    /// The kind of which one part is missing.
    left_out: Option<Kind>,
    used: Use,
    wakes: u64,
}

/// A machine that is built and not run.
const BUILT: Counting = Counting {
    config: ATOMIC,
    left_out: None,
    used: Use::Build(None),
    wakes: 0,
};

/// A whole run in atomic mode: five events, five fetches and two stores wake the CPU, and an event wakes the UART.
const RUN: Counting = Counting { wakes: 13, ..BUILT };

/// A whole run in timing mode, in which the atomic CPU sleeps. The UART gets the store's offer, serves it, is told that its response was
/// taken, and has sent the byte.
const TIMED_RUN: Counting = Counting {
    config: TIMING,
    wakes: 4,
    ..BUILT
};

/// A blank part more, unless it is of a kind that is left out.
fn keep(
    parts: &mut Vec<Box<dyn SimObject>>,
    part: Box<dyn SimObject>,
    left_out: Option<Kind>,
) -> Result<(), NoMemory>
    requires blank { AreBlank (map (λ b. state b) parts.old.items) }
    requires part { IsBlank (state part) }
    ensures { OnOk result (AreBlank (map (λ b. state b) parts.new.items)) }
{
    if left_out == Some(part.kind()) {
        return Ok(());
    }
    parts.push(part)?;
    Ok(())
}

/// A machine of these parts with the program in RAM, resumed.
fn loaded(alloc: Global, c: &Config, parts: Vec<Box<dyn SimObject>>) -> Result<Machine, BuildFault>
    requires blank { AreBlank (map (λ b. state b) parts.items) }
    requires valid { IsValidConfig c.now }
    requires ram { c.now.system_ram ≡ 65536 }
    ensures machine { IfOk result (λ m. IsMachine state m) }
    ensures events { IfOk result (λ m. (sys_of state m).counts.events ≡ 0) }
{
    let mut machine = Machine::build(alloc, c, parts)?;
    machine.put_raw(RAM_BASE, &STORE_AND_EXIT);
    machine.resume_all();
    Ok(machine)
}

/// Runs to a goal.
fn run(machine: &mut Machine, goal: Goal, sinks: &mut Sinks) -> Result<RunEnd, RunFault>
    requires machine { IsSeen machine.old state }
    requires events { (sys_seen machine.old state).counts.events < 2 ^ 30 }
    requires budget { goal.budget ≤ 1000000 }
    ensures machine { IsSeen machine.new state }
    ensures events { OnOk result ((sys_seen machine.new state).counts.events ≤ (sys_seen machine.old state).counts.events + goal.budget) }
    ensures due { IfOk result (λ e. e.reason ≡ Reason.Limit → IfSome (first (sys_seen machine.new state).pending) (λ d. d.tick ≤ TOP)) }
{
    machine.run(goal, &mut sinks.console, &mut sinks.report)
}

/// Serves the first pending event, if the run may go on.
fn serve(machine: &mut Machine, sinks: &mut Sinks) -> Result<Option<Fired>, RunFault>
    requires machine { IsSeen machine.old state }
    requires events { (sys_seen machine.old state).counts.events < 2 ^ 30 }
    ensures machine { IsSeen machine.new state }
    ensures events { OnOk result ((sys_seen machine.new state).counts.events ≤ (sys_seen machine.old state).counts.events + 1) }
{
    let none = Goal {
        until: Until::End,
        budget: 0,
    };
    match run(machine, none, sinks)?.reason {
        Reason::Limit => Ok(machine.fire()),
        _ => Ok(None),
    }
}

/// Runs to a goal, and tells how the run ended.
fn ended(machine: &mut Machine, goal: Goal, sinks: &mut Sinks) -> Result<End, RunFault>
    requires machine { IsSeen machine.old state }
    requires events { (sys_seen machine.old state).counts.events < 2 ^ 30 }
    requires budget { goal.budget ≤ 1000000 }
    ensures machine { IsSeen machine.new state }
    ensures events { OnOk result ((sys_seen machine.new state).counts.events ≤ (sys_seen machine.old state).counts.events + goal.budget) }
{
    let end = run(machine, goal, sinks)?;
    Ok((end.reason, end.insts, end.events, machine.now().get()))
}

fn goal(until: Until, budget: u64) -> Goal
    ensures { result.budget ≡ budget }
{
    Goal { until, budget }
}

/// Runs to both goals, and then to the end.
fn ends_of(
    machine: &mut Machine,
    goals: &[(Until, u64); 2],
    sinks: &mut Sinks,
) -> Result<[End; 3], RunFault>
    requires machine { IsSeen machine.old state }
    requires events { (sys_seen machine.old state).counts.events ≡ 0 }
{
    let [(first, few), (second, more)] = *goals;
    Ok([
        ended(machine, goal(first, few.min(BUDGET)), sinks)?,
        ended(machine, goal(second, more.min(BUDGET)), sinks)?,
        ended(machine, goal(Until::End, BUDGET), sinks)?,
    ])
}

/// Serves the first pending event, and tells of it.
fn told(machine: &mut Machine, sinks: &mut Sinks) -> Result<Told, RunFault>
    requires machine { IsSeen machine.old state }
    requires events { (sys_seen machine.old state).counts.events < 2 ^ 30 }
    ensures machine { IsSeen machine.new state }
    ensures events { OnOk result ((sys_seen machine.new state).counts.events ≤ (sys_seen machine.old state).counts.events + 1) }
{
    match serve(machine, sinks)? {
        Some(fired) => Ok(Some((fired.due.tick.get(), fired.due.owner, fired.console))),
        None => Ok(None),
    }
}

/// What is told of seven events.
fn seven(machine: &mut Machine, sinks: &mut Sinks) -> Result<[Told; 7], RunFault>
    requires machine { IsSeen machine.old state }
    requires events { (sys_seen machine.old state).counts.events ≡ 0 }
{
    Ok([
        told(machine, sinks)?,
        told(machine, sinks)?,
        told(machine, sinks)?,
        told(machine, sinks)?,
        told(machine, sinks)?,
        told(machine, sinks)?,
        told(machine, sinks)?,
    ])
}

/// Asks the machine, and compares what it tells.
fn expect_told(
    rt: &(impl Abort + AllocGlobal),
    asked: Asked,
    machine: &mut Machine,
) -> Result<(), Fail>
    requires machine { IsSeen machine.old state }
    requires events { (sys_seen machine.old state).counts.events ≡ 0 }
{
    let mut sinks = Sinks::new(rt.alloc())?;
    match asked {
        Asked::Runs(goals, ends) => {
            assert_eq!(rt; ends_of(machine, goals, &mut sinks)?, *ends);
            assert_eq!(rt; sinks.console.bytes(), [1].as_slice());
        }
        Asked::Events(events) => assert_eq!(rt; seven(machine, &mut sinks)?, *events),
        Asked::RefusedByte(tick, entries) => {
            assert!(rt; sinks.console.fail_at(0));
            let refused = run(machine, goal(Until::End, BUDGET), &mut sinks);
            assert_eq!(rt; refused, Err(RunFault::Console));
            assert_eq!(rt; machine.now().get(), tick);
            assert_eq!(rt; machine.entries(), entries.as_slice());
        }
    }
    Ok(())
}

/// Calls the program with these parts, and compares what it answers and leaves.
fn expect_call(
    rt: &(impl Abort + AllocGlobal),
    case: &Case,
    parts: Vec<Box<dyn SimObject>>,
) -> Result<(), Fail>
    requires { AreBlank (map (λ b. state b) parts.items) }
{
    let words = words_of(rt.alloc(), case)?;
    let mut store = store_of(rt, case)?;
    let mut sinks = Sinks::new(rt.alloc())?;
    let status = gemcore(
        rt.alloc(),
        words.as_slice(),
        parts,
        &mut store,
        &mut sinks.console,
        &mut sinks.report,
    );
    expect_left(rt, case, status, &store, &sinks)
}

/// Uses the parts as the case says.
fn expect_use(
    rt: &(impl Abort + AllocGlobal),
    case: &Counting,
    parts: Vec<Box<dyn SimObject>>,
) -> Result<(), Fail>
    requires { AreBlank (map (λ b. state b) parts.items) }
{
    let alloc = rt.alloc();
    let c = cfg_tree::read(alloc, case.config.as_bytes())?;
    assert_eq!(rt; c.system_ram, 65_536);
    match case.used {
        Use::Build(fault) => assert_eq!(rt; Machine::build(alloc, &c, parts).err(), fault),
        Use::Machine(asked) => expect_told(rt, asked, &mut loaded(alloc, &c, parts)?)?,
        Use::Call(call) => expect_call(rt, &call, parts)?,
    }
    Ok(())
}

/// Boxes the parts of each case, and compares what comes of them and how often the counted ones are woken.
///
/// Two kinds are counted, one that asks and one that serves: what a box holds is proved for each type that is boxed.
fn expect_counted(rt: &(impl Abort + AllocGlobal), cases: &[Counting]) -> Result<(), Fail> {
    for case in cases {
        let wakes = Rc::new(rt.alloc(), Cell::new(0u64))?;
        let mut parts = Vec::new(rt.alloc());
        let part = Counted::new(Uart::blank(), Rc::clone(&wakes)?);
        keep(&mut parts, Box::new(rt.alloc(), part)?, case.left_out)?;
        let part = Counted::new(AtomicCpu::blank(), Rc::clone(&wakes)?);
        keep(&mut parts, Box::new(rt.alloc(), part)?, case.left_out)?;
        let part = Box::new(rt.alloc(), TimingCpu::blank())?;
        keep(&mut parts, part, case.left_out)?;
        let part = Box::new(rt.alloc(), Mem::blank())?;
        keep(&mut parts, part, case.left_out)?;
        let part = Box::new(rt.alloc(), ExitDev::blank())?;
        keep(&mut parts, part, case.left_out)?;
        let part = Box::new(rt.alloc(), Timer::blank())?;
        keep(&mut parts, part, case.left_out)?;
        let part = Box::new(rt.alloc(), Xbar::blank())?;
        keep(&mut parts, part, None)?;
        let part = Box::new(rt.alloc(), Xbar::blank())?;
        keep(&mut parts, part, case.left_out)?;
        expect_use(rt, case, parts)?;
        assert_eq!(rt; wakes.get(), case.wakes);
    }
    Ok(())
}

static RUNS: [Counting; 6] = [
    Counting {
        used: Use::Machine(Asked::Runs(
            &[(Until::End, BUDGET), (Until::End, BUDGET)],
            &[
                (Reason::Exit(0), 5, 6, 8_200),
                (Reason::Exit(0), 0, 0, 8_200),
                (Reason::Exit(0), 0, 0, 8_200),
            ],
        )),
        ..RUN
    },
    Counting {
        used: Use::Machine(Asked::Runs(
            &[(Until::Tick(999), BUDGET), (Until::Tick(4_400), BUDGET)],
            &[
                (Reason::Tick, 0, 0, 0),
                (Reason::Tick, 3, 3, 4_400),
                (Reason::Exit(0), 2, 3, 8_200),
            ],
        )),
        ..RUN
    },
    Counting {
        used: Use::Machine(Asked::Runs(
            &[(Until::End, 3), (Until::End, 0)],
            &[
                (Reason::Limit, 3, 3, 4_400),
                (Reason::Limit, 0, 0, 4_400),
                (Reason::Exit(0), 2, 3, 8_200),
            ],
        )),
        ..RUN
    },
    Counting {
        used: Use::Machine(Asked::Runs(
            &[(Until::Insts(2), BUDGET), (Until::Insts(1), BUDGET)],
            &[
                (Reason::Insts, 2, 2, 2_700),
                (Reason::Insts, 1, 1, 4_400),
                (Reason::Exit(0), 2, 3, 8_200),
            ],
        )),
        ..RUN
    },
    Counting {
        used: Use::Machine(Asked::Runs(
            &[(Until::Insts(1), BUDGET), (Until::Tick(4_000), BUDGET)],
            &[
                (Reason::Insts, 1, 6, 1_900),
                (Reason::Tick, 1, 13, 4_000),
                (Reason::Exit(0), 2, 22, 7_250),
            ],
        )),
        ..TIMED_RUN
    },
    Counting {
        used: Use::Machine(Asked::Runs(
            &[(Until::End, 3), (Until::End, 0)],
            &[
                (Reason::Limit, 0, 3, 1_200),
                (Reason::Limit, 0, 0, 1_200),
                (Reason::Exit(0), 4, 38, 7_250),
            ],
        )),
        ..TIMED_RUN
    },
];

#[test]
fn a_run_ends_where_it_is_asked_to_and_goes_on_from_there(rt: HostRuntime) -> Result<(), Fail> {
    expect_counted(&rt, &RUNS)
}

static EVENTS: [Counting; 2] = [
    Counting {
        used: Use::Machine(Asked::Events(&[
            Some((1_000, ATOMIC_CPU, None)),
            Some((2_700, ATOMIC_CPU, None)),
            Some((4_400, ATOMIC_CPU, Some(1))),
            Some((5_400, UART, None)),
            Some((6_500, ATOMIC_CPU, None)),
            Some((8_200, ATOMIC_CPU, None)),
            None,
        ])),
        ..RUN
    },
    // A fetch goes there and back, and the next begins.
    Counting {
        used: Use::Machine(Asked::Events(&[
            Some((1_000, TIMING_CPU, None)),
            Some((1_100, COREBUS, None)),
            Some((1_200, MEMBUS, None)),
            Some((1_700, MEM, None)),
            Some((1_800, MEMBUS, None)),
            Some((1_900, COREBUS, None)),
            Some((2_000, TIMING_CPU, None)),
        ])),
        wakes: 0,
        ..TIMED_RUN
    },
];

#[test]
fn each_event_is_served_at_its_own_tick(rt: HostRuntime) -> Result<(), Fail> {
    expect_counted(&rt, &EVENTS)
}

// The store is fetched, its byte goes to the UART, and it retires.
const STORED: [Entry; 3] = [
    Entry::Served {
        src: 0,
        id: PktId(2),
        write: false,
        addr: RAM_BASE + 8,
        size: 4,
        bytes: [0x23, 0x00, 0x55, 0x00, 0, 0, 0, 0],
        device: false,
        fault: false,
    },
    Entry::Served {
        src: 1,
        id: PktId(3),
        write: true,
        addr: UART_BASE,
        size: 1,
        bytes: [1, 0, 0, 0, 0, 0, 0, 0],
        device: true,
        fault: false,
    },
    Entry::Retired {
        pc: RAM_BASE + 8,
        word: 0x0055_0023,
    },
];

// Three events, three fetches and a store wake the CPU.
static REFUSED_BYTE: [Counting; 1] = [Counting {
    used: Use::Machine(Asked::RefusedByte(4_400, &STORED)),
    wakes: 7,
    ..RUN
}];

#[test]
fn a_refused_byte_ends_the_run_after_its_event(rt: HostRuntime) -> Result<(), Fail> {
    expect_counted(&rt, &REFUSED_BYTE)
}

/// The refusal for want of a part of a kind.
macro_rules! lacking {
    ($kind:expr) => {
        Use::Build(Some(BuildFault::Part { kind: $kind }))
    };
}

/// A machine that isn't built for want of a part.
const LACKING_ATOMIC_CPU: Counting = Counting {
    left_out: Some(Kind::AtomicCpu),
    used: lacking!(Kind::AtomicCpu),
    ..BUILT
};

const LACKING_TIMING_CPU: Counting = Counting {
    left_out: Some(Kind::TimingCpu),
    used: lacking!(Kind::TimingCpu),
    ..BUILT
};

// A machine has the CPUs of both models, whichever it begins with.
static MISSING: [Counting; 12] = [
    BUILT,
    LACKING_ATOMIC_CPU,
    LACKING_TIMING_CPU,
    Counting {
        left_out: Some(Kind::Xbar),
        used: lacking!(Kind::Xbar),
        ..BUILT
    },
    Counting {
        left_out: Some(Kind::Mem),
        used: lacking!(Kind::Mem),
        ..BUILT
    },
    Counting {
        left_out: Some(Kind::Uart),
        used: lacking!(Kind::Uart),
        ..BUILT
    },
    Counting {
        left_out: Some(Kind::Timer),
        used: lacking!(Kind::Timer),
        ..BUILT
    },
    Counting {
        left_out: Some(Kind::Exit),
        used: lacking!(Kind::Exit),
        ..BUILT
    },
    Counting {
        config: TIMING,
        ..BUILT
    },
    Counting {
        config: TIMING,
        ..LACKING_ATOMIC_CPU
    },
    Counting {
        config: TIMING,
        ..LACKING_TIMING_CPU
    },
    Counting {
        config: DMA,
        used: lacking!(Kind::Dma),
        ..BUILT
    },
];

#[test]
fn a_part_that_is_missing_or_not_there_yet_is_named(rt: HostRuntime) -> Result<(), Fail> {
    expect_counted(&rt, &MISSING)
}

/// A call of the program that runs to the end.
const CALL: Case = Case {
    name: "run_of_counted_parts",
    files: &[CONFIG, IMAGE, RUN_END],
    ..SILENT
};

static CALLS: [Counting; 4] = [
    Counting {
        used: Use::Call(Case {
            console: b"\x01",
            report: "run exit 0 at 8200 insts 5 events 6\n",
            ..CALL
        }),
        ..RUN
    },
    Counting {
        used: Use::Call(Case {
            files: &[TIMED_CONFIG, IMAGE, RUN_END],
            console: b"\x01",
            report: "run exit 0 at 7250 insts 4 events 41\n",
            ..CALL
        }),
        ..TIMED_RUN
    },
    Counting {
        left_out: Some(Kind::Xbar),
        used: Use::Call(Case {
            status: 11,
            report: "part xbar\n",
            ..CALL
        }),
        ..BUILT
    },
    Counting {
        left_out: Some(Kind::Uart),
        used: Use::Call(Case {
            status: 11,
            report: "part uart\n",
            ..CALL
        }),
        ..BUILT
    },
];

#[test]
fn the_program_runs_the_parts_that_it_is_given(rt: HostRuntime) -> Result<(), Fail> {
    expect_counted(&rt, &CALLS)
}
