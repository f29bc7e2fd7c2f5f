// Whole calls: what no clause says is what the definitions mean by their words. The expected bytes are written by hand from
// the manuals and from the rules of the report.
use crate::gemcore;
use gc_base::NoMemory;
use gc_outside::{MemSink, MemStore};
use std::alloc::{AllocError, Global};
use std::process::Abort;
use std::test::Fail;

/// A word of text for each part between `|`, and none of no text.
fn words_of(alloc: Global, text: &str) -> Result<Vec<String>, AllocError> {
    let mut words = Vec::new(alloc);
    if text.is_empty() {
        return Ok(words);
    }
    for word in text.split('|') {
        words.push(word.to_string(alloc)?)?;
    }
    Ok(words)
}

/// What a call answers, and the sinks as it leaves them.
#[derive(Drop)]
struct Left {
    status: u8,
    console: MemSink,
    report: MemSink,
}

/// Makes a call with words that are parted by `|`, over these sinks.
fn call_over(
    rt: &(impl Abort + AllocGlobal),
    text: &str,
    store: &mut MemStore,
    (console, report): (MemSink, MemSink),
) -> Result<Left, NoMemory> {
    let words = words_of(rt.alloc(), text)?;
    let (mut console, mut report) = (console, report);
    let status = gemcore(
        rt.alloc(),
        words.as_slice(),
        Vec::new(rt.alloc()),
        store,
        &mut console,
        &mut report,
    );
    Ok(Left {
        status,
        console,
        report,
    })
}

/// Makes a call over sinks that don't fail.
fn call(
    rt: &(impl Abort + AllocGlobal),
    text: &str,
    store: &mut MemStore,
) -> Result<Left, NoMemory> {
    let console = MemSink::new(rt.alloc(), 100)?;
    let report = MemSink::new(rt.alloc(), 4000)?;
    call_over(rt, text, store, (console, report))
}

/// lui x10, 0x10000; addi x5, x0, 1; sb x5, 0(x10); lui x11, 0x100; sw x0, 0(x11): one byte to the console, and exit 0.
const STORE_AND_EXIT: [u8; 20] = [
    0x37, 0x05, 0x00, 0x10, 0x93, 0x02, 0x10, 0x00, 0x23, 0x00, 0x55, 0x00, 0xb7, 0x05, 0x10, 0x00,
    0x23, 0xa0, 0x05, 0x00,
];

/// lui x5, 0x10000; jalr x0, 0(x5): a jump to where no RAM is.
const JUMP_OUT_OF_RAM: [u8; 8] = [0xb7, 0x02, 0x00, 0x10, 0x67, 0x80, 0x02, 0x00];

/// wfi.
const WAIT: [u8; 4] = [0x73, 0x00, 0x50, 0x10];

/// The first four bytes of an ELF file, and one more.
const ELF: [u8; 5] = [0x7f, 0x45, 0x4c, 0x46, 0x02];

/// lui x10, 0x10000; then four times addi x5, x5, 1; sb x5, 0(x10): the bytes 1, 2, 3 and 4.
const FOUR_BYTES: [u8; 36] = [
    0x37, 0x05, 0x00, 0x10, 0x93, 0x82, 0x12, 0x00, 0x23, 0x00, 0x55, 0x00, 0x93, 0x82, 0x12, 0x00,
    0x23, 0x00, 0x55, 0x00, 0x93, 0x82, 0x12, 0x00, 0x23, 0x00, 0x55, 0x00, 0x93, 0x82, 0x12, 0x00,
    0x23, 0x00, 0x55, 0x00,
];

/// The images by their names.
fn images(rt: &(impl Abort + AllocGlobal)) -> Result<MemStore, NoMemory> {
    let mut store = MemStore::new(rt.alloc(), 1000)?;
    for (name, image) in [
        ("store_and_exit", STORE_AND_EXIT.as_slice()),
        ("jump_out_of_ram", JUMP_OUT_OF_RAM.as_slice()),
        ("wait", WAIT.as_slice()),
        ("elf", ELF.as_slice()),
        ("empty", [].as_slice()),
        ("four_bytes", FOUR_BYTES.as_slice()),
    ] {
        assert!(rt; store.add(name, image));
    }
    Ok(store)
}

/// What a call answers and writes.
struct Case {
    words: &'static str,
    status: u8,
    console: &'static [u8],
    report: &'static [u8],
}

static CASES: [Case; 24] = [
    Case {
        words: "flat|store_and_exit|10",
        status: 0,
        console: b"\x01",
        report: b"flat exit 0 steps 5\n\
pc 0000000080000014\n\
x5 0000000000000001\n\
x10 0000000010000000\n\
x11 0000000000100000\n\
mstatus 0000000000001800\n",
    },
    Case {
        words: "flat|store_and_exit|0",
        status: 0,
        console: b"",
        report: b"flat count steps 0\n\
pc 0000000080000000\n\
mstatus 0000000000001800\n",
    },
    Case {
        words: "flat|empty|1",
        status: 0,
        console: b"",
        report: b"flat count steps 1\n\
pc 0000000000000000\n\
mstatus 0000000000001800\n\
mepc 0000000080000000\n\
mcause 0000000000000002\n",
    },
    Case {
        words: "flat|empty|2",
        status: 0,
        console: b"",
        report: b"flat count steps 2\n\
pc 0000000000000000\n\
mstatus 0000000000001800\n\
mcause 0000000000000001\n",
    },
    Case {
        words: "flat|jump_out_of_ram|3",
        status: 0,
        console: b"",
        report: b"flat count steps 3\n\
pc 0000000000000000\n\
x5 0000000010000000\n\
mstatus 0000000000001800\n\
mepc 0000000010000000\n\
mcause 0000000000000001\n\
mtval 0000000010000000\n",
    },
    Case {
        words: "flat|wait|1000000000",
        status: 0,
        console: b"",
        report: b"flat idle steps 1\n\
pc 0000000080000004\n\
mstatus 0000000000001800\n",
    },
    Case {
        words: "flat|elf|1",
        status: 4,
        console: b"",
        report: b"image header\n",
    },
    Case {
        words: "flat|nothere|1",
        status: 7,
        console: b"",
        report: b"file nothere absent\n",
    },
    Case {
        words: "flat|a b\u{e9}\x7f|1",
        status: 7,
        console: b"",
        report: b"file a?b??? absent\n",
    },
    Case {
        words: "flat||1",
        status: 7,
        console: b"",
        report: b"file  absent\n",
    },
    Case {
        words: "",
        status: 2,
        console: b"",
        report: b"usage\n",
    },
    Case {
        words: "flat",
        status: 2,
        console: b"",
        report: b"usage\n",
    },
    Case {
        words: "flat|store_and_exit",
        status: 2,
        console: b"",
        report: b"usage\n",
    },
    Case {
        words: "flat|store_and_exit|10|x",
        status: 2,
        console: b"",
        report: b"usage\n",
    },
    Case {
        words: "Flat|store_and_exit|10",
        status: 2,
        console: b"",
        report: b"usage\n",
    },
    Case {
        words: "run|store_and_exit|10",
        status: 2,
        console: b"",
        report: b"usage\n",
    },
    Case {
        words: "flat|store_and_exit|",
        status: 2,
        console: b"",
        report: b"usage\n",
    },
    Case {
        words: "flat|store_and_exit|01",
        status: 2,
        console: b"",
        report: b"usage\n",
    },
    Case {
        words: "flat|store_and_exit|+1",
        status: 2,
        console: b"",
        report: b"usage\n",
    },
    Case {
        words: "flat|store_and_exit|-1",
        status: 2,
        console: b"",
        report: b"usage\n",
    },
    Case {
        words: "flat|store_and_exit| 1",
        status: 2,
        console: b"",
        report: b"usage\n",
    },
    Case {
        words: "flat|store_and_exit|1a",
        status: 2,
        console: b"",
        report: b"usage\n",
    },
    Case {
        words: "flat|store_and_exit|1000000001",
        status: 2,
        console: b"",
        report: b"usage\n",
    },
    Case {
        words: "flat|store_and_exit|18446744073709551617",
        status: 2,
        console: b"",
        report: b"usage\n",
    },
];

#[test]
fn calls_write_what_the_rules_say(rt: HostRuntime) -> Result<(), Fail> {
    let mut store = images(&rt)?;
    for case in &CASES {
        let left = call(&rt, case.words, &mut store)?;
        assert_eq!(rt; left.status, case.status);
        assert_eq!(rt; left.console.bytes(), case.console);
        assert_eq!(rt; left.report.bytes(), case.report);
    }
    Ok(())
}

/// So many zeros. The number is no literal where this is proved, so that no list of that length is written out there.
fn zeros(alloc: Global, count: usize) -> Result<Vec<u8>, AllocError> {
    vec![in alloc; 0u8; count]
}

#[test]
fn long_images_are_refused(rt: HostRuntime) -> Result<(), Fail> {
    for (length, status, line) in [
        (16_777_217, 4, b"image raw\n".as_slice()),
        (33_554_432, 4, b"image raw\n".as_slice()),
        (33_554_433, 7, b"file long long\n".as_slice()),
    ] {
        let image = zeros(rt.alloc(), length)?;
        let mut store = MemStore::new(rt.alloc(), length)?;
        assert!(rt; store.add("long", image.as_slice()));
        let left = call(&rt, "flat|long|1", &mut store)?;
        assert_eq!(rt; left.status, status);
        assert_eq!(rt; left.report.bytes(), line);
    }
    Ok(())
}

#[test]
fn a_long_name_is_said_whole(rt: HostRuntime) -> Result<(), Fail> {
    let mut text = "flat|".to_string(rt.alloc())?;
    for _ in 0..3000 {
        text.push('n')?;
    }
    text.push_str("|1")?;
    let left = call(&rt, text.as_str(), &mut images(&rt)?)?;
    assert_eq!(rt; left.status, 7);
    assert_eq!(rt; left.report.bytes().len(), 3013);
    assert!(rt; left.report.bytes().ends_with(b"nnn absent\n"));
    Ok(())
}

/// A run of the four bytes in which call number `call` of the store, the console and the report fail, where it is `Some`.
fn run_with_faults(
    rt: &(impl Abort + AllocGlobal),
    (of_store, of_console, of_report): (Option<u64>, Option<u64>, Option<u64>),
    (status, console_bytes, report_start): (u8, &[u8], &[u8]),
) -> Result<(), Fail> {
    let mut store = images(rt)?;
    let mut console = MemSink::new(rt.alloc(), 100)?;
    let mut report = MemSink::new(rt.alloc(), 1000)?;
    if let Some(call) = of_store {
        assert!(rt; store.fail_at(call));
    }
    if let Some(call) = of_console {
        assert!(rt; console.fail_at(call));
    }
    if let Some(call) = of_report {
        assert!(rt; report.fail_at(call));
    }
    let left = call_over(rt, "flat|four_bytes|9", &mut store, (console, report))?;
    assert_eq!(rt; left.status, status);
    assert_eq!(rt; left.console.bytes(), console_bytes);
    assert!(rt; left.report.bytes().starts_with(report_start));
    assert_eq!(rt; left.report.bytes().is_empty(), report_start.is_empty());
    Ok(())
}

#[test]
fn a_failing_call_leaves_a_prefix(rt: HostRuntime) -> Result<(), Fail> {
    let whole = b"flat count steps 9\npc 0000000080000024\nx5 0000000000000004\n".as_slice();
    for (faults, left) in [
        (
            (Some(0), None, None),
            (8, b"".as_slice(), b"store four_bytes\n".as_slice()),
        ),
        (
            (Some(0), None, Some(0)),
            (9, b"".as_slice(), b"".as_slice()),
        ),
        (
            (Some(0), None, Some(1)),
            (9, b"".as_slice(), b"store ".as_slice()),
        ),
        (
            (Some(1), None, None),
            (0, b"\x01\x02\x03\x04".as_slice(), whole),
        ),
        ((None, Some(0), None), (9, b"".as_slice(), b"".as_slice())),
        (
            (None, Some(1), None),
            (9, b"\x01".as_slice(), b"".as_slice()),
        ),
        (
            (None, Some(2), None),
            (9, b"\x01\x02".as_slice(), b"".as_slice()),
        ),
        (
            (None, Some(3), None),
            (9, b"\x01\x02\x03".as_slice(), b"".as_slice()),
        ),
        (
            (None, Some(4), None),
            (0, b"\x01\x02\x03\x04".as_slice(), whole),
        ),
        (
            (None, None, Some(0)),
            (9, b"\x01\x02\x03\x04".as_slice(), b"".as_slice()),
        ),
        (
            (None, None, Some(1)),
            (0, b"\x01\x02\x03\x04".as_slice(), whole),
        ),
    ] {
        run_with_faults(&rt, faults, left)?;
    }
    Ok(())
}

/// A configuration whose last section, `exit`, has these lines.
macro_rules! config_with {
    ($lines:literal) => {
        concat!(
            "[system]\nline = 16\nmodel = \"atomic\"\nram = 65536\nbudget = 1000000\n[cpu]\nperiod = 1000\n",
            "[corebus]\nlatency = 100\n[membus]\nlatency = 100\n[mem]\nlatency = 500\nqueue = 1\n[uart]\nlatency = 200\n",
            "chartime = 1000\n[timer]\nlatency = 200\nperiod = 100\n[exit]\n",
            $lines
        )
    };
}

/// The files of calls of `run`, by their names.
fn run_files(rt: &(impl Abort + AllocGlobal)) -> Result<MemStore, NoMemory> {
    let mut store = MemStore::new(rt.alloc(), 200_000)?;
    let full = zeros(rt.alloc(), 65_536)?;
    let long = zeros(rt.alloc(), 65_537)?;
    for (name, file) in [
        ("a", config_with!("latency = 50\n").as_bytes()),
        ("unfinished", config_with!("").as_bytes()),
        (
            "unknown",
            config_with!("latency = 50\nspeed = 1\n").as_bytes(),
        ),
        ("value", config_with!("latency = 0\n").as_bytes()),
        ("shape", config_with!("latency = 50\n[cache2]\n").as_bytes()),
        ("text", b"[system".as_slice()),
        ("script", b"# all of it\n\nrun end\nregs\n".as_slice()),
        ("third", b"run end\nregs\nrun  end\n".as_slice()),
        ("image", STORE_AND_EXIT.as_slice()),
        ("elf", ELF.as_slice()),
        ("full", full.as_slice()),
        ("long", long.as_slice()),
    ] {
        assert!(rt; store.add(name, file));
    }
    Ok(store)
}

/// Calls of `run` that are refused, in the order in which it looks at what it is given.
static RUN_REFUSALS: [(&str, u8, &[u8]); 15] = [
    ("run|none|none|none", 7, b"file none absent\n"),
    ("run|long|none|none", 7, b"file long long\n"),
    ("run|text|none|none", 3, b"config text\n"),
    ("run|unknown|none|none", 3, b"config unknown exit.speed\n"),
    (
        "run|unfinished|none|none",
        3,
        b"config missing exit.latency\n",
    ),
    ("run|value|none|none", 3, b"config value exit.latency\n"),
    ("run|shape|none|none", 3, b"config shape cache2\n"),
    ("run|a|none|absent", 7, b"file absent absent\n"),
    ("run|a|none|long", 7, b"file long long\n"),
    ("run|a|none|third", 5, b"script line 3\n"),
    ("run|a|none|script", 7, b"file none absent\n"),
    ("run|a|elf|script", 4, b"image header\n"),
    ("run|a|long|script", 4, b"image raw\n"),
    ("run|a|full|script", 11, b"part atomic\n"),
    ("run|a|image|script|x", 2, b"usage\n"),
];

#[test]
fn the_first_refusal_of_a_run_is_said(rt: HostRuntime) -> Result<(), Fail> {
    let mut store = run_files(&rt)?;
    for (text, status, line) in &RUN_REFUSALS {
        let left = call(&rt, text, &mut store)?;
        assert_eq!(rt; left.status, *status);
        assert_eq!(rt; left.console.bytes(), [].as_slice());
        assert_eq!(rt; left.report.bytes(), *line);
    }
    Ok(())
}

#[test]
fn a_store_that_fails_is_said_with_its_file(rt: HostRuntime) -> Result<(), Fail> {
    for (failing, line) in [
        (0, b"store a\n".as_slice()),
        (1, b"store script\n".as_slice()),
        (2, b"store image\n".as_slice()),
    ] {
        let mut store = run_files(&rt)?;
        assert!(rt; store.fail_at(failing));
        let left = call(&rt, "run|a|image|script", &mut store)?;
        assert_eq!(rt; left.status, 8);
        assert_eq!(rt; left.report.bytes(), line);
    }
    Ok(())
}
