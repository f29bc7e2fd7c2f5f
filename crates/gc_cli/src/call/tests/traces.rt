// Events that are traced, input, and statistics, on the machine of the tests. The ticks and the packet numbers are worked by hand: each
// fetch and each data access draws a number.
use super::{
    Bytes, CONFIG, Case, Faults, File, IMAGE, NO_FAULTS, SILENT, TIMED_CONFIG, Text, expect_calls,
};
use std::test::Fail;

/// Reads the UART's status, and then a byte of its input.
const READ_INPUT: File = (
    "image",
    Bytes(&[
        0x37, 0x05, 0x00, 0x10, // lui x10, 0x10000
        0x83, 0x02, 0x55, 0x00, // lb x5, 5(x10)
        0x03, 0x03, 0x05, 0x00, // lb x6, 0(x10)
    ]),
);

/// Sets the timer for tick 9,200, sends a byte that is sent by then too, and loops.
const TIMER_AND_BYTE: File = (
    "image",
    Bytes(&[
        0x37, 0x05, 0x00, 0x10, // lui x10, 0x10000
        0x37, 0x46, 0x00, 0x02, // lui x12, 0x2004
        0x93, 0x02, 0xc0, 0x05, // addi x5, x0, 92
        0x23, 0x30, 0x56, 0x00, // sd x5, 0(x12)
        0x23, 0x00, 0x55, 0x00, // sb x5, 0(x10)
        0x6f, 0x00, 0x00, 0x00, // jal x0, .+0
    ]),
);

/// Five times a line.
macro_rules! five_times {
    ($line:literal) => {
        concat!($line, $line, $line, $line, $line)
    };
}

/// The trace of the first two instructions of the program that stores and exits.
macro_rules! two_traced {
    ($later:literal) => {
        concat!(
            "@1000 acpu 0\nserved i 0 r 0000000080000000 4 ram 37050010\nretired 0000000080000000 10000537\n",
            "@2700 acpu 0\nserved i 1 r 0000000080000004 4 ram 93021000\nretired 0000000080000004 00100293\n",
            $later
        )
    };
}

/// A traced run to the end of the program that stores and exits.
const TRACED_RUN: &[File] = &[CONFIG, IMAGE, ("script", Text("trace on\nrun end\n"))];

static CASES: [Case; 12] = [
    Case {
        name: "traced_instruction",
        files: &[CONFIG, IMAGE, ("script", Text("trace on\nrun insts 1\n"))],
        report: "@1000 acpu 0\nserved i 0 r 0000000080000000 4 ram 37050010\nretired 0000000080000000 10000537\n\
run insts at 1000 insts 1 events 1\n",
        ..SILENT
    },
    Case {
        name: "instruction_traced_in_the_timing_mode",
        // A packet takes 100 ticks in a layer of each crossbar, on both ways, and 500 in RAM. What it meets is known by the slots:
        // of `corebus` 0 is the layer of requests, and 1 that of responses to fetches; of `membus` 0 is that to RAM, and 6 that of responses.
        files: &[
            TIMED_CONFIG,
            IMAGE,
            ("script", Text("trace on\nrun insts 1\n")),
        ],
        report: "@1000 tcpu 0\n@1100 corebus 0\n@1200 membus 0\n\
@1700 mem 0\nserved i 0 r 0000000080000000 4 ram 37050010\n\
@1800 membus 6\n@1900 corebus 1\nretired 0000000080000000 10000537\n\
run insts at 1900 insts 1 events 6\n",
        ..SILENT
    },
    Case {
        name: "no_more_traced",
        files: &[
            CONFIG,
            IMAGE,
            (
                "script",
                Text("trace on\nrun insts 2\ntrace off\nrun insts 1\n"),
            ),
        ],
        console: b"\x01",
        report: two_traced!(
            "run insts at 2700 insts 2 events 2\nrun insts at 4400 insts 1 events 1\n"
        ),
        ..SILENT
    },
    Case {
        name: "input_that_is_read",
        files: &[
            CONFIG,
            READ_INPUT,
            ("script", Text("input 41\nrun insts 3\nregs\n")),
        ],
        report: "input 1\nrun insts at 4800 insts 3 events 3\n\
pc 000000008000000c\nx5 0000000000000021\nx6 0000000000000041\nx10 0000000010000000\nmstatus 0000000000001800\n",
        ..SILENT
    },
    Case {
        name: "more_input_than_there_are_places",
        files: &[
            CONFIG,
            IMAGE,
            (
                "script",
                Text(five_times!(
                    "input 000102030405060708090a0b0c0d0e0f101112131415161718191a1b1c1d1e1f\
202122232425262728292a2b2c2d2e2f303132333435363738393A3B3C3D3E3F\n"
                )),
            ),
        ],
        report: "input 64\ninput 64\ninput 64\ninput 64\ninput 0\n",
        ..SILENT
    },
    Case {
        name: "timer_and_uart_traced",
        files: &[
            CONFIG,
            TIMER_AND_BYTE,
            ("script", Text("run insts 5\ntrace on\nrun tick 10300\n")),
        ],
        console: b"\x5c",
        report: "run insts at 8200 insts 5 events 5\n\
@9200 timer 1\nline 7 1\n\
@9200 uart 1\n\
@10300 acpu 0\nserved i 7 r 0000000080000014 4 ram 6f000000\nretired 0000000080000014 0000006f\n\
run tick at 10300 insts 1 events 3\n",
        ..SILENT
    },
    Case {
        name: "statistics",
        files: &[CONFIG, IMAGE, ("script", Text("run end\nstats\n"))],
        console: b"\x01",
        report: "run exit 0 at 8200 insts 5 events 6\n\
corebus.refused 0\ncpu.retired 5\ncpu.sleeps 0\ncpu.traps 0\ndevice.reads 0\ndevice.writes 2\n\
mem.refused 0\nmembus.refused 0\nram.reads 5\nram.writes 0\nsim.events 6\nsim.ticks 8200\n",
        ..SILENT
    },
    Case {
        name: "statistics_of_the_timing_mode",
        // One requestor with one packet under way is never refused. The store that ends the run is served, and hasn't retired.
        files: &[TIMED_CONFIG, IMAGE, ("script", Text("run end\nstats\n"))],
        console: b"\x01",
        report: "run exit 0 at 7250 insts 4 events 41\n\
corebus.refused 0\ncpu.retired 4\ncpu.sleeps 0\ncpu.traps 0\ndevice.reads 0\ndevice.writes 2\n\
mem.refused 0\nmembus.refused 0\nram.reads 5\nram.writes 0\nsim.events 41\nsim.ticks 7250\n",
        ..SILENT
    },
    Case {
        name: "statistics_as_json",
        files: &[CONFIG, IMAGE, ("script", Text("run end\nstats json\n"))],
        console: b"\x01",
        report: concat!(
            "run exit 0 at 8200 insts 5 events 6\n",
            r#"{"corebus.refused":0,"cpu.retired":5,"cpu.sleeps":0,"cpu.traps":0,"device.reads":0,"device.writes":2,"#,
            r#""mem.refused":0,"membus.refused":0,"ram.reads":5,"ram.writes":0,"sim.events":6,"sim.ticks":8200}"#,
            "\n"
        ),
        ..SILENT
    },
    Case {
        name: "report_that_fails_at_a_head",
        files: TRACED_RUN,
        faults: Faults {
            report: Some(6),
            ..NO_FAULTS
        },
        status: 9,
        console: b"\x01",
        report: two_traced!(""),
        ..SILENT
    },
    Case {
        name: "report_that_fails_at_an_entry",
        files: TRACED_RUN,
        faults: Faults {
            report: Some(5),
            ..NO_FAULTS
        },
        status: 9,
        report: "@1000 acpu 0\nserved i 0 r 0000000080000000 4 ram 37050010\nretired 0000000080000000 10000537\n\
@2700 acpu 0\nserved i 1 r 0000000080000004 4 ram 93021000\n",
        ..SILENT
    },
    Case {
        name: "console_that_fails_in_a_traced_run",
        files: TRACED_RUN,
        faults: Faults {
            console: Some(0),
            ..NO_FAULTS
        },
        status: 9,
        report: two_traced!(""),
        ..SILENT
    },
];

#[test]
fn events_are_traced_and_counted_as_the_rules_say(rt: HostRuntime) -> Result<(), Fail> {
    expect_calls(&rt, &CASES)
}
