// Whole calls of the program, in one table. The ticks are worked by hand from the latencies of the configuration.
use files::{COMPILED_FILE, LOOP_FILE, PROGRAM_FILE};
use gc_base::NoMemory;
use gc_outside::{MemSink, MemStore};
use gc_program::call;
use std::alloc::{AllocError, Global};
use std::process::Abort;
use std::str;
use std::test::Fail;

mod examples;
mod files;
mod interrupts;
mod modes;
mod ticks;
mod traces;

/// A machine with 64 KiB of RAM: its model, its budget, more keys of `cpu`, the latency of `corebus`, and more sections.
macro_rules! config {
    (model $model:literal, budget $budget:literal, cpu $cpu:literal, corebus $corebus:literal, and $sections:literal) => {
        concat!(
            "[system]\nline = 16\nmodel = \"",
            $model,
            "\"\nram = 65536\nbudget = ",
            $budget,
            "\n[cpu]\nperiod = 1000\n",
            $cpu,
            "[corebus]\nlatency = ",
            $corebus,
            "\n[membus]\nlatency = 100\n[mem]\nlatency = 500\nqueue = 1\n\
[uart]\nlatency = 200\nchartime = 1000\n[timer]\nlatency = 200\nperiod = 100\n[exit]\nlatency = 50\n",
            $sections
        )
    };
}

/// A machine in atomic mode with a budget of so many events.
macro_rules! config_of_budget {
    ($budget:literal) => {
        config!(model "atomic", budget $budget, cpu "", corebus "100", and "")
    };
}

/// The same machine with more sections.
macro_rules! config_and {
    ($sections:literal) => {
        config!(model "atomic", budget "1000000", cpu "", corebus "100", and $sections)
    };
}

/// These lines, and then the registers once the program has ended: behind its last instruction, or where they say that pc is.
macro_rules! and_registers {
    ($lines:literal) => {
        and_registers!($lines, pc "0000000080000014")
    };
    ($lines:literal, pc $pc:literal) => {
        concat!(
            $lines,
            "pc ",
            $pc,
            "\nx5 0000000000000001\nx10 0000000010000000\nx11 0000000000100000\nmstatus 0000000000001800\n"
        )
    };
}

/// The machine of the tests.
pub(crate) const ATOMIC: &str = config_of_budget!("1000000");

/// The same in timing mode.
pub(crate) const TIMING: &str =
    config!(model "timing", budget "1000000", cpu "", corebus "100", and "");

/// The same with a DMA engine.
pub(crate) const DMA: &str = config_and!("[dma]\nlatency = 50\nperiod = 1000\nwindow = 4\n");

/// The same with a cache.
const CACHE: &str = config_and!(
    "[cache1]\nsets = 1\nways = 1\nmshrs = 1\ntargets = 1\nwriteq = 1\nlatency = 10\n"
);

/// The same with a second cache and no first one.
const SECOND_CACHE: &str = config_and!(
    "[cache2]\nsets = 1\nways = 1\nmshrs = 1\ntargets = 1\nwriteq = 1\nlatency = 10\n"
);

/// The same with two faults, of which the one that stands later is the first by its path.
const TWO_FAULTS: &str =
    config!(model "atomic", budget "1000000", cpu "speed = 1\n", corebus "0", and "");

/// Stores the byte 1 to the UART, and exits with 0.
pub(crate) const STORE_AND_EXIT: [u8; 20] = [
    0x37, 0x05, 0x00, 0x10, // lui x10, 0x10000
    0x93, 0x02, 0x10, 0x00, // addi x5, x0, 1
    0x23, 0x00, 0x55, 0x00, // sb x5, 0(x10)
    0xb7, 0x05, 0x10, 0x00, // lui x11, 0x100
    0x23, 0xa0, 0x05, 0x00, // sw x0, 0(x11)
];

/// What is in a file.
#[derive(Clone, Copy)]
pub(crate) enum Content {
    Text(&'static str),
    Bytes(&'static [u8]),
    /// A text, and behind it a comment, of so many bytes together.
    Padded(&'static str, usize),
    /// The file of the program with the bytes at some places changed.
    Changed(&'static [(usize, u8)]),
}

use Content::{Bytes, Changed, Padded, Text};

impl Content {
    /// The bytes of the file.
    fn bytes(self, alloc: Global) -> Result<Vec<u8>, AllocError> {
        match self {
            Text(text) => Vec::from_slice(alloc, text.as_bytes()),
            Bytes(bytes) => Vec::from_slice(alloc, bytes),
            Padded(text, length) => {
                let mut bytes = Vec::from_slice(alloc, text.as_bytes())?;
                bytes.resize(length, b'#')?;
                Ok(bytes)
            }
            Changed(changes) => {
                let mut bytes = Vec::from_slice(alloc, &PROGRAM_FILE)?;
                for (place, byte) in changes {
                    if let Some(changed) = bytes.get_mut(*place) {
                        *changed = *byte;
                    }
                }
                Ok(bytes)
            }
        }
    }
}

/// The numbers of the calls that are to fail, of each counted from 0.
#[derive(Clone, Copy)]
pub(crate) struct Faults {
    store: Option<u64>,
    console: Option<u64>,
    report: Option<u64>,
}

/// A file's name, and what is in it.
type File = (&'static str, Content);

/// A call, and what it answers and writes.
#[derive(Clone, Copy)]
pub(crate) struct Case {
    /// What the case shows.
    pub(crate) name: &'static str,
    pub(crate) files: &'static [File],
    pub(crate) words: &'static [&'static str],
    pub(crate) faults: Faults,
    pub(crate) status: u8,
    pub(crate) console: &'static [u8],
    pub(crate) report: &'static str,
    /// Files as they are after the call, and those that aren't there.
    pub(crate) left: &'static [(&'static str, Option<&'static [u8]>)],
}

/// Nothing fails.
const NO_FAULTS: Faults = Faults {
    store: None,
    console: None,
    report: None,
};

// What most cases have.
pub(crate) const CONFIG: File = ("config", Text(ATOMIC));

pub(crate) const TIMED_CONFIG: File = ("config", Text(TIMING));

pub(crate) const IMAGE: File = ("image", Bytes(&STORE_AND_EXIT));

pub(crate) const RUN_END: File = ("script", Text("run end\n"));

const RUN_END_AND_REGS: File = ("script", Text("run end\nregs\n"));

const RUN: &[&str] = &["run", "config", "image", "script"];

/// A call of `run` that writes nothing.
pub(crate) const SILENT: Case = Case {
    name: "empty_script",
    files: &[CONFIG, IMAGE, ("script", Text(""))],
    words: RUN,
    faults: NO_FAULTS,
    status: 0,
    console: b"",
    report: "",
    left: &[],
};

static CASES: [Case; 23] = [
    SILENT,
    Case {
        name: "blank_script",
        files: &[CONFIG, IMAGE, ("script", Text("# nothing\n\n"))],
        ..SILENT
    },
    Case {
        name: "atomic_run",
        files: &[CONFIG, IMAGE, RUN_END_AND_REGS],
        console: b"\x01",
        report: and_registers!("run exit 0 at 8200 insts 5 events 6\n"),
        ..SILENT
    },
    Case {
        name: "timing_run",
        // A fetch comes back 900 ticks behind its event, so an instruction takes a period, and one with an access two: they begin at 1,000,
        // 2,000, 3,000, 5,000 and 6,000. The exit device keeps its number at 7,000 + 250, before the store has its response and retires.
        // Each fetch and each access is six events; the last lacks the two of its response, and one is the UART's own.
        files: &[TIMED_CONFIG, IMAGE, RUN_END_AND_REGS],
        console: b"\x01",
        report: and_registers!("run exit 0 at 7250 insts 4 events 41\n", pc "0000000080000010"),
        ..SILENT
    },
    Case {
        name: "load_of_no_range_in_the_timing_mode",
        // It is fetched at 1,000, and asks at 2,000. At 2,200 it is refused by fault, and the response comes at 2,400, without any server's
        // latency. The next event is at 3,000.
        files: &[
            TIMED_CONFIG,
            ("image", Bytes(&[0x83, 0x02, 0x00, 0x00])), // lb x5, 0(x0)
            ("script", Text("run tick 2999\nregs\n")),
        ],
        report: "run tick at 2400 insts 0 events 11\n\
pc 0000000000000000\nmstatus 0000000000001800\nmepc 0000000080000000\nmcause 0000000000000005\n",
        ..SILENT
    },
    Case {
        name: "run_to_instructions_and_ticks",
        files: &[
            CONFIG,
            IMAGE,
            (
                "script",
                Text("regs\nrun insts 2\nrun tick 4400\nrun end\nrun end"),
            ),
        ],
        console: b"\x01",
        report: "pc 0000000080000000\nmstatus 0000000000001800\n\
run insts at 2700 insts 2 events 2\n\
run tick at 4400 insts 1 events 1\n\
run exit 0 at 8200 insts 2 events 3\n\
run exit 0 at 8200 insts 0 events 0\n",
        ..SILENT
    },
    Case {
        name: "run_to_before_the_first_event",
        files: &[CONFIG, IMAGE, ("script", Text("run tick 999\n"))],
        report: "run tick at 0 insts 0 events 0\n",
        ..SILENT
    },
    Case {
        name: "run_to_between_two_events",
        files: &[
            CONFIG,
            IMAGE,
            ("script", Text("run tick 3000\nrun insts 1\nrun end\n")),
        ],
        console: b"\x01",
        report: "run tick at 2700 insts 2 events 2\n\
run insts at 4400 insts 1 events 1\n\
run exit 0 at 8200 insts 2 events 3\n",
        ..SILENT
    },
    Case {
        name: "run_limit",
        files: &[("config", Text(config_of_budget!("3"))), IMAGE, RUN_END],
        console: b"\x01",
        report: "run limit at 4400 insts 3 events 3\n",
        ..SILENT
    },
    Case {
        name: "run_limit_for_each_run",
        files: &[
            ("config", Text(config_of_budget!("3"))),
            IMAGE,
            ("script", Text("run end\nrun end\nregs\n")),
        ],
        console: b"\x01",
        report: and_registers!(
            "run limit at 4400 insts 3 events 3\nrun exit 0 at 8200 insts 2 events 3\n"
        ),
        ..SILENT
    },
    Case {
        name: "run_limit_after_a_tick",
        files: &[
            ("config", Text(config_of_budget!("1"))),
            IMAGE,
            ("script", Text("run tick 0\nrun end\n")),
        ],
        report: "run tick at 0 insts 0 events 0\nrun limit at 1000 insts 1 events 1\n",
        ..SILENT
    },
    Case {
        name: "missing_cache",
        files: &[("config", Text(CACHE)), IMAGE, RUN_END],
        status: 11,
        report: "part cache\n",
        ..SILENT
    },
    Case {
        name: "missing_dma_engine",
        files: &[("config", Text(DMA)), IMAGE, RUN_END],
        status: 11,
        report: "part dma\n",
        ..SILENT
    },
    Case {
        name: "config_first_fault",
        files: &[("config", Text(TWO_FAULTS)), IMAGE, RUN_END],
        status: 3,
        report: "config value corebus.latency\n",
        ..SILENT
    },
    Case {
        name: "second_cache_alone",
        files: &[("config", Text(SECOND_CACHE)), IMAGE, RUN_END],
        status: 3,
        report: "config shape cache2\n",
        ..SILENT
    },
    Case {
        name: "missing_config",
        files: &[IMAGE, RUN_END],
        status: 7,
        report: "file config absent\n",
        left: &[("config", None), ("image", Some(&STORE_AND_EXIT))],
        ..SILENT
    },
    Case {
        name: "longest_config",
        files: &[("config", Padded(ATOMIC, 65_536)), IMAGE, RUN_END],
        console: b"\x01",
        report: "run exit 0 at 8200 insts 5 events 6\n",
        ..SILENT
    },
    Case {
        name: "too_long_config",
        files: &[("config", Padded(ATOMIC, 65_537)), IMAGE, RUN_END],
        status: 7,
        report: "file config long\n",
        ..SILENT
    },
    Case {
        name: "refused_line",
        files: &[CONFIG, IMAGE, ("script", Text("run end\nrun  end\n"))],
        status: 5,
        report: "script line 2\n",
        ..SILENT
    },
    Case {
        name: "failing_store",
        files: &[CONFIG, IMAGE, RUN_END],
        faults: Faults {
            store: Some(1),
            ..NO_FAULTS
        },
        status: 8,
        report: "store script\n",
        ..SILENT
    },
    Case {
        name: "failing_console",
        files: &[CONFIG, IMAGE, RUN_END_AND_REGS],
        faults: Faults {
            console: Some(0),
            ..NO_FAULTS
        },
        status: 9,
        ..SILENT
    },
    Case {
        name: "failing_report",
        files: &[CONFIG, IMAGE, RUN_END_AND_REGS],
        faults: Faults {
            report: Some(0),
            ..NO_FAULTS
        },
        status: 9,
        console: b"\x01",
        ..SILENT
    },
    Case {
        name: "failing_report_of_registers",
        files: &[CONFIG, IMAGE, RUN_END_AND_REGS],
        faults: Faults {
            report: Some(1),
            ..NO_FAULTS
        },
        status: 9,
        console: b"\x01",
        report: "run exit 0 at 8200 insts 5 events 6\n",
        ..SILENT
    },
];

// Files of the program with one byte changed.
const ODD_ENTRY: File = ("image", Changed(&[(24, 1)]));

const OF_32_BITS: File = ("image", Changed(&[(4, 1)]));

const HIGH_BYTE_FIRST: File = ("image", Changed(&[(5, 2)]));

const SHARED_OBJECT: File = ("image", Changed(&[(16, 3)]));

const OF_X86: File = ("image", Changed(&[(18, 62)]));

// What the cases of ELF files and of sources have.
const FLAT: &[&str] = &["flat", "image", "10"];

const ASM: &[&str] = &["asm", "source", "image"];

/// The source of the program that stores and exits.
const SOURCE: File = (
    "source",
    Text("lui x10, 0x10000\naddi x5, x0, 1\nsb x5, 0(x10)\nlui x11, 0x100\nsw x0, 0(x11)\n"),
);

/// A call of `asm` that is refused, and puts no file.
const REFUSED_SOURCE: Case = Case {
    words: ASM,
    status: 12,
    left: &[("image", None)],
    ..SILENT
};

/// Calls over ELF files and over sources.
static PROGRAM_CASES: [Case; 27] = [
    Case {
        name: "segment_past_ram",
        // 4 bytes of the file, and 65,537 of memory
        files: &[
            CONFIG,
            ("image", Changed(&[(96, 4), (104, 1), (106, 1)])),
            ("script", Text("run tick 0\n")),
        ],
        status: 4,
        report: "image segment 0\n",
        ..SILENT
    },
    Case {
        name: "segment_of_all_ram",
        files: &[
            CONFIG,
            ("image", Changed(&[(96, 4), (104, 0), (106, 1)])),
            ("script", Text("run tick 0\n")),
        ],
        report: "run tick at 0 insts 0 events 0\n",
        ..SILENT
    },
    Case {
        name: "compiler_headers",
        files: &[CONFIG, ("image", Bytes(&COMPILED_FILE)), RUN_END_AND_REGS],
        console: b"\x01",
        report: and_registers!("run exit 0 at 8200 insts 5 events 6\n"),
        ..SILENT
    },
    Case {
        name: "run_of_damaged_header",
        files: &[CONFIG, ODD_ENTRY, RUN_END],
        status: 4,
        report: "image header\n",
        ..SILENT
    },
    Case {
        name: "run_of_32_bits",
        files: &[CONFIG, OF_32_BITS, RUN_END],
        status: 4,
        report: "image class\n",
        ..SILENT
    },
    Case {
        name: "run_of_high_byte_first",
        files: &[CONFIG, HIGH_BYTE_FIRST, RUN_END],
        status: 4,
        report: "image order\n",
        ..SILENT
    },
    Case {
        name: "run_of_shared_object",
        files: &[CONFIG, SHARED_OBJECT, RUN_END],
        status: 4,
        report: "image kind\n",
        ..SILENT
    },
    Case {
        name: "run_of_other_machine",
        files: &[CONFIG, OF_X86, RUN_END],
        status: 4,
        report: "image machine\n",
        ..SILENT
    },
    Case {
        name: "run_of_image_longer_than_ram",
        files: &[CONFIG, ("image", Padded("", 65_537)), RUN_END],
        status: 4,
        report: "image raw\n",
        ..SILENT
    },
    Case {
        name: "flat_of_damaged_header",
        files: &[ODD_ENTRY],
        words: FLAT,
        status: 4,
        report: "image header\n",
        ..SILENT
    },
    Case {
        name: "flat_of_32_bits",
        files: &[OF_32_BITS],
        words: FLAT,
        status: 4,
        report: "image class\n",
        ..SILENT
    },
    Case {
        name: "flat_of_high_byte_first",
        files: &[HIGH_BYTE_FIRST],
        words: FLAT,
        status: 4,
        report: "image order\n",
        ..SILENT
    },
    Case {
        name: "flat_of_shared_object",
        files: &[SHARED_OBJECT],
        words: FLAT,
        status: 4,
        report: "image kind\n",
        ..SILENT
    },
    Case {
        name: "flat_of_other_machine",
        files: &[OF_X86],
        words: FLAT,
        status: 4,
        report: "image machine\n",
        ..SILENT
    },
    Case {
        name: "flat_of_image_longer_than_ram",
        files: &[("image", Padded("", 16_777_217))],
        words: FLAT,
        status: 4,
        report: "image raw\n",
        ..SILENT
    },
    Case {
        name: "flat_exits",
        files: &[("image", Bytes(&PROGRAM_FILE))],
        words: FLAT,
        console: b"\x01",
        report: and_registers!("flat exit 0 steps 5\n"),
        ..SILENT
    },
    Case {
        name: "flat_exits_of_raw_image",
        files: &[IMAGE],
        words: FLAT,
        console: b"\x01",
        report: and_registers!("flat exit 0 steps 5\n"),
        ..SILENT
    },
    Case {
        name: "flat_begins_at_the_entry",
        files: &[("image", Changed(&[(24, 4)]))],
        words: &["flat", "image", "0"],
        report: "flat count steps 0\npc 0000000080000004\nmstatus 0000000000001800\n",
        ..SILENT
    },
    Case {
        name: "number_out_of_range",
        files: &[("source", Text("addi x1, x0, 1\naddi x1, x0, 2048\n"))],
        report: "source line 2 range\n",
        ..REFUSED_SOURCE
    },
    Case {
        name: "label_and_instruction_on_one_line",
        files: &[("source", Text("x: jal x0, x\n"))],
        report: "source line 1 word\n",
        ..REFUSED_SOURCE
    },
    Case {
        name: "source_of_other_bytes",
        files: &[("source", Bytes(b"addi x1, x0, 1\n\xff\n"))],
        report: "source line 2 word\n",
        ..REFUSED_SOURCE
    },
    Case {
        name: "missing_source",
        files: &[],
        status: 7,
        report: "file source absent\n",
        ..REFUSED_SOURCE
    },
    Case {
        name: "too_long_source",
        files: &[("source", Padded("", 1_048_577))],
        status: 7,
        report: "file source long\n",
        ..REFUSED_SOURCE
    },
    Case {
        name: "longest_source",
        files: &[("source", Padded("x:\njal x0, x\n", 1_048_576))],
        words: ASM,
        left: &[("image", Some(&LOOP_FILE))],
        ..SILENT
    },
    Case {
        name: "store_that_opens_no_file",
        files: &[SOURCE],
        faults: Faults {
            store: Some(1),
            ..NO_FAULTS
        },
        status: 8,
        report: "store image\n",
        ..REFUSED_SOURCE
    },
    Case {
        name: "jump_to_itself",
        files: &[("source", Text("x:\njal x0, x\n"))],
        words: ASM,
        left: &[("image", Some(&LOOP_FILE))],
        ..SILENT
    },
    Case {
        name: "assembler_round_trip",
        files: &[SOURCE],
        words: ASM,
        left: &[("image", Some(&PROGRAM_FILE))],
        ..SILENT
    },
];

/// A program is assembled, and its file is run, over the store of the first call.
static ASSEMBLED_AND_RUN: [Case; 2] = [
    Case {
        name: "assembled",
        files: &[SOURCE, CONFIG, RUN_END_AND_REGS],
        words: ASM,
        left: &[("image", Some(&PROGRAM_FILE))],
        ..SILENT
    },
    Case {
        name: "run_of_assembled_file",
        files: &[],
        console: b"\x01",
        report: and_registers!("run exit 0 at 8200 insts 5 events 6\n"),
        left: &[("image", Some(&PROGRAM_FILE))],
        ..SILENT
    },
];

/// Where the bytes of a call go.
#[derive(Drop)]
pub(crate) struct Sinks {
    pub(crate) console: MemSink,
    pub(crate) report: MemSink,
}

impl Sinks {
    /// Two sinks with room for the bytes of each case.
    pub(crate) fn new(alloc: Global) -> Result<Sinks, NoMemory> {
        Ok(Sinks {
            console: MemSink::new(alloc, 100)?,
            report: MemSink::new(alloc, 1_000)?,
        })
    }
}

/// The words of a call.
pub(crate) fn words_of(alloc: Global, case: &Case) -> Result<Vec<String>, AllocError> {
    let mut words = Vec::new(alloc);
    for word in case.words {
        words.push(word.to_string(alloc)?)?;
    }
    Ok(words)
}

/// A store with the files of a call.
pub(crate) fn store_of(rt: &(impl Abort + AllocGlobal), case: &Case) -> Result<MemStore, NoMemory> {
    let mut store = MemStore::new(rt.alloc(), 20_000_000)?;
    for (name, content) in case.files {
        let bytes = content.bytes(rt.alloc())?;
        assert!(rt; store.add(name, bytes.as_slice()), "{name}");
    }
    Ok(store)
}

/// Has the calls fail that are to fail.
fn plan_faults(rt: &impl Abort, faults: Faults, store: &mut MemStore, sinks: &mut Sinks) {
    if let Some(call) = faults.store {
        assert!(rt; store.fail_at(call));
    }
    if let Some(call) = faults.console {
        assert!(rt; sinks.console.fail_at(call));
    }
    if let Some(call) = faults.report {
        assert!(rt; sinks.report.fail_at(call));
    }
}

/// Compares what a call answered and left with its case.
pub(crate) fn expect_left(
    rt: &impl Abort,
    case: &Case,
    status: u8,
    store: &MemStore,
    sinks: &Sinks,
) -> Result<(), Fail> {
    let report = str::from_utf8(sinks.report.bytes())?;
    assert_eq!(rt; report, case.report, "{}", case.name);
    assert_eq!(rt; sinks.console.bytes(), case.console, "{}", case.name);
    assert_eq!(rt; status, case.status, "{}", case.name);
    for (name, bytes) in case.left {
        assert_eq!(rt; store.file(name), *bytes, "{name} after {}", case.name);
    }
    Ok(())
}

/// Makes the call of a case over a store, and compares what it answered and left.
fn expect_call(
    rt: &(impl Abort + AllocGlobal),
    case: &Case,
    store: &mut MemStore,
) -> Result<(), Fail> {
    let words = words_of(rt.alloc(), case)?;
    let mut sinks = Sinks::new(rt.alloc())?;
    plan_faults(rt, case.faults, store, &mut sinks);
    let status = call(
        rt.alloc(),
        words.as_slice(),
        store,
        &mut sinks.console,
        &mut sinks.report,
    )?;
    expect_left(rt, case, status, store, &sinks)
}

/// Makes calls, each over a store of its own.
fn expect_calls(rt: &(impl Abort + AllocGlobal), cases: &[Case]) -> Result<(), Fail> {
    for case in cases {
        let mut store = store_of(rt, case)?;
        expect_call(rt, case, &mut store)?;
    }
    Ok(())
}

/// Assembles the source of each case, runs what comes of it, and compares what is written, each over a store of its own.
fn expect_assembled_and_run(rt: &(impl Abort + AllocGlobal), cases: &[Case]) -> Result<(), Fail> {
    for case in cases {
        let mut store = store_of(rt, case)?;
        let assembled = Case {
            name: case.name,
            words: ASM,
            ..SILENT
        };
        expect_call(rt, &assembled, &mut store)?;
        expect_call(rt, case, &mut store)?;
    }
    Ok(())
}

#[test]
fn calls_write_what_the_rules_say(rt: HostRuntime) -> Result<(), Fail> {
    expect_calls(&rt, &CASES)
}

#[test]
fn programs_are_read_and_written_as_the_rules_say(rt: HostRuntime) -> Result<(), Fail> {
    expect_calls(&rt, &PROGRAM_CASES)
}

#[test]
fn an_assembled_file_is_run(rt: HostRuntime) -> Result<(), Fail> {
    let mut store = store_of(&rt, &ASSEMBLED_AND_RUN[0])?;
    for case in &ASSEMBLED_AND_RUN {
        expect_call(&rt, case, &mut store)?;
    }
    Ok(())
}
