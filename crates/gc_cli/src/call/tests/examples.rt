// The examples, each with what it writes: a source is assembled, its file is the one that is shipped, and is run.
//
// `scripts/example_cases.py` writes this file from the folder `examples`.
use super::{Case, File, SILENT, Text, expect_assembled_and_run};
use std::test::Fail;

/// `examples/machine.toml`
const MACHINE_TOML: &str =
    r##"# A machine in atomic mode; timing.toml has the same one in timing mode. Latencies and periods are in ticks, sizes in bytes.

[system]
model = "atomic"    # how the CPU runs: "atomic", an instruction at each event, or "timing", with packets that take their way
line = 64           # bytes of a cache line: 16, 32 or 64
ram = 16777216      # bytes of RAM, a multiple of 4096 up to 16777216
budget = 100000000  # the most events that one run serves

[cpu]
period = 1000       # ticks of a clock cycle

[corebus]
latency = 100       # ticks that a packet takes through the crossbar at the CPU

[membus]
latency = 100       # ticks that it takes through the crossbar at RAM and devices

[mem]
latency = 500       # ticks in which RAM answers
queue = 1           # requests that RAM holds at a time, in timing mode

[uart]
latency = 200       # ticks in which the UART answers
chartime = 1000     # ticks that sending one byte takes

[timer]
latency = 200       # ticks in which the timer answers
period = 100        # ticks of one count of its clock

[exit]
latency = 50        # ticks in which the exit device answers
"##;

/// `examples/timing.toml`
const TIMING_TOML: &str =
    r##"# The machine of machine.toml in timing mode. Latencies and periods are in ticks, sizes in bytes.

[system]
model = "timing"    # how the CPU runs: "atomic", an instruction at each event, or "timing", with packets that take their way
line = 64           # bytes of a cache line: 16, 32 or 64
ram = 16777216      # bytes of RAM, a multiple of 4096 up to 16777216
budget = 100000000  # the most events that one run serves

[cpu]
period = 1000       # ticks of a clock cycle

[corebus]
latency = 100       # ticks that a packet takes through the crossbar at the CPU

[membus]
latency = 100       # ticks that it takes through the crossbar at RAM and devices

[mem]
latency = 500       # ticks in which RAM answers
queue = 1           # requests that RAM holds at a time, in timing mode

[uart]
latency = 200       # ticks in which the UART answers
chartime = 1000     # ticks that sending one byte takes

[timer]
latency = 200       # ticks in which the timer answers
period = 100        # ticks of one count of its clock

[exit]
latency = 50        # ticks in which the exit device answers
"##;

/// `examples/hello.s`
const HELLO_S: &str =
    r##"# Prints a line by the UART and ends with exit number 0. Made into hello.elf by
#
#     bin/gemcore asm examples/hello.s examples/hello.elf
#
# The number of addi says where the text is: 0x28 bytes behind the first instruction.
    lui   x10, 0x10000      # the UART
    auipc x11, 0            # this instruction's address
    addi  x11, x11, 0x24    # the text
next:
    lb    x12, 0(x11)
    beq   x12, x0, done
    sb    x12, 0(x10)
    addi  x11, x11, 1
    jal   x0, next
done:
    lui   x13, 0x100        # the exit device
    sw    x0, 0(x13)
    .word 0x6c6c6548        # Hell
    .word 0x7266206f        # o fr
    .word 0x52206d6f        # om R
    .word 0x0a2e4d41        # AM. and a line feed
    .word 0
"##;

/// `examples/hello.elf`
const HELLO_ELF: &[u8] = b"\
\x7f\x45\x4c\x46\x02\x01\x01\x00\x00\x00\x00\x00\x00\x00\x00\x00\
\x02\x00\xf3\x00\x01\x00\x00\x00\x00\x00\x00\x80\x00\x00\x00\x00\
\x40\x00\x00\x00\x00\x00\x00\x00\x00\x00\x00\x00\x00\x00\x00\x00\
\x00\x00\x00\x00\x40\x00\x38\x00\x01\x00\x00\x00\x00\x00\x00\x00\
\x01\x00\x00\x00\x07\x00\x00\x00\x78\x00\x00\x00\x00\x00\x00\x00\
\x00\x00\x00\x80\x00\x00\x00\x00\x00\x00\x00\x80\x00\x00\x00\x00\
\x3c\x00\x00\x00\x00\x00\x00\x00\x3c\x00\x00\x00\x00\x00\x00\x00\
\x08\x00\x00\x00\x00\x00\x00\x00\x37\x05\x00\x10\x97\x05\x00\x00\
\x93\x85\x45\x02\x03\x86\x05\x00\x63\x08\x06\x00\x23\x00\xc5\x00\
\x93\x85\x15\x00\x6f\xf0\x1f\xff\xb7\x06\x10\x00\x23\xa0\x06\x00\
\x48\x65\x6c\x6c\x6f\x20\x66\x72\x6f\x6d\x20\x52\x41\x4d\x2e\x0a\
\x00\x00\x00\x00";

/// `examples/hello.script`
const HELLO_SCRIPT: &str = r##"# Run to the end, and show the registers.
run end
regs
"##;

/// `examples/hello.report`
const HELLO_REPORT: &str = r##"run exit 0 at 165500 insts 87 events 103
pc 0000000080000028
x10 0000000010000000
x11 0000000080000038
x13 0000000000100000
mstatus 0000000000001800
"##;

/// `examples/hello.console`
const HELLO_CONSOLE: &[u8] = b"\
\x48\x65\x6c\x6c\x6f\x20\x66\x72\x6f\x6d\x20\x52\x41\x4d\x2e\x0a";

/// `examples/steps.script`
const STEPS_SCRIPT: &str =
    r##"# Show the registers after ten instructions, then after tick 50000, and then run to the end.
run insts 10
regs
run tick 50000
regs
run end
regs
"##;

/// `examples/steps.report`
const STEPS_REPORT: &str = r##"run insts at 18100 insts 10 events 11
pc 0000000080000014
x10 0000000010000000
x11 0000000080000029
x12 0000000000000065
mstatus 0000000000001800
run tick at 49600 insts 16 events 20
pc 0000000080000018
x10 0000000010000000
x11 000000008000002c
x12 000000000000006f
mstatus 0000000000001800
run exit 0 at 165500 insts 61 events 72
pc 0000000080000028
x10 0000000010000000
x11 0000000080000038
x13 0000000000100000
mstatus 0000000000001800
"##;

/// `examples/hello.flat.report`
const HELLO_FLAT_REPORT: &str = r##"flat exit 0 steps 87
pc 0000000080000028
x10 0000000010000000
x11 0000000080000038
x13 0000000000100000
mstatus 0000000000001800
"##;

/// `examples/fibonacci.s`
const FIBONACCI_S: &str =
    r##"# The 90th number of Fibonacci in x10, in hexadecimal among the registers at the end. Made into fibonacci.elf by
#
#     bin/gemcore asm examples/fibonacci.s examples/fibonacci.elf
    addi  x10, x0, 0
    addi  x11, x0, 1
    addi  x12, x0, 90       # how many steps are left
next:
    add   x13, x10, x11
    addi  x10, x11, 0
    addi  x11, x13, 0
    addi  x12, x12, -1
    bne   x12, x0, next
    lui   x14, 0x100        # the exit device
    sw    x0, 0(x14)
"##;

/// `examples/fibonacci.elf`
const FIBONACCI_ELF: &[u8] = b"\
\x7f\x45\x4c\x46\x02\x01\x01\x00\x00\x00\x00\x00\x00\x00\x00\x00\
\x02\x00\xf3\x00\x01\x00\x00\x00\x00\x00\x00\x80\x00\x00\x00\x00\
\x40\x00\x00\x00\x00\x00\x00\x00\x00\x00\x00\x00\x00\x00\x00\x00\
\x00\x00\x00\x00\x40\x00\x38\x00\x01\x00\x00\x00\x00\x00\x00\x00\
\x01\x00\x00\x00\x07\x00\x00\x00\x78\x00\x00\x00\x00\x00\x00\x00\
\x00\x00\x00\x80\x00\x00\x00\x00\x00\x00\x00\x80\x00\x00\x00\x00\
\x28\x00\x00\x00\x00\x00\x00\x00\x28\x00\x00\x00\x00\x00\x00\x00\
\x08\x00\x00\x00\x00\x00\x00\x00\x13\x05\x00\x00\x93\x05\x10\x00\
\x13\x06\xa0\x05\xb3\x06\xb5\x00\x13\x85\x05\x00\x93\x85\x06\x00\
\x13\x06\xf6\xff\xe3\x18\x06\xfe\x37\x07\x10\x00\x23\x20\x07\x00";

/// `examples/fibonacci.report`
const FIBONACCI_REPORT: &str = r##"run exit 0 at 772800 insts 455 events 455
pc 0000000080000028
x10 27f80ddaa1ba7878
x11 40abcfb3c0325745
x13 40abcfb3c0325745
x14 0000000000100000
mstatus 0000000000001800
"##;

/// `examples/trap.s`
const TRAP_S: &str =
    r##"# Sets a trap handler, executes a word that is no instruction, and ends with the trap's cause, 2, as the exit number.
# Made into trap.elf by
#
#     bin/gemcore asm examples/trap.s examples/trap.elf
    auipc x5, 0             # this instruction's address
    addi  x5, x5, 16        # the handler, four words on
    csrrw x0, mtvec, x5
    .word 0                 # no instruction
    csrrs x6, mcause, x0    # the handler
    lui   x7, 0x100         # the exit device
    sw    x6, 0(x7)
"##;

/// `examples/trap.elf`
const TRAP_ELF: &[u8] = b"\
\x7f\x45\x4c\x46\x02\x01\x01\x00\x00\x00\x00\x00\x00\x00\x00\x00\
\x02\x00\xf3\x00\x01\x00\x00\x00\x00\x00\x00\x80\x00\x00\x00\x00\
\x40\x00\x00\x00\x00\x00\x00\x00\x00\x00\x00\x00\x00\x00\x00\x00\
\x00\x00\x00\x00\x40\x00\x38\x00\x01\x00\x00\x00\x00\x00\x00\x00\
\x01\x00\x00\x00\x07\x00\x00\x00\x78\x00\x00\x00\x00\x00\x00\x00\
\x00\x00\x00\x80\x00\x00\x00\x00\x00\x00\x00\x80\x00\x00\x00\x00\
\x1c\x00\x00\x00\x00\x00\x00\x00\x1c\x00\x00\x00\x00\x00\x00\x00\
\x08\x00\x00\x00\x00\x00\x00\x00\x97\x02\x00\x00\x93\x82\x02\x01\
\x73\x90\x52\x30\x00\x00\x00\x00\x73\x23\x20\x34\xb7\x03\x10\x00\
\x23\xa0\x63\x00";

/// `examples/trap.report`
const TRAP_REPORT: &str = r##"run exit 2 at 11200 insts 6 events 7
pc 000000008000001c
x5 0000000080000010
x6 0000000000000002
x7 0000000000100000
mstatus 0000000000001800
mtvec 0000000080000010
mepc 000000008000000c
mcause 0000000000000002
"##;

/// `examples/timer.s`
const TIMER_S: &str =
    r##"# Counts down by the timer: sleeps, prints 3, 2 and 1, each at an interrupt, 1000 counts of the clock apart, and then a line feed,
# and ends with exit number 0. It needs a machine: over flat memory there is no timer. Made into timer.elf by
#
#     bin/gemcore asm examples/timer.s examples/timer.elf
#
# The number of the second instruction says where the handler is: 0x38 bytes behind the first one.
    auipc x5, 0             # this instruction's address
    addi  x5, x5, 0x38      # the handler
    csrrw x0, mtvec, x5
    lui   x10, 0x10000      # the UART
    lui   x11, 0x2004       # the timer's mtimecmp
    addi  x12, x0, 51       # the character 3
    addi  x13, x0, 48       # the character 0, behind the last one
    addi  x14, x0, 1000     # the count of the clock at which the first interrupt comes
    sd    x14, 0(x11)
    addi  x6, x0, 128       # bit 7: interrupts by the timer
    csrrw x0, mie, x6
    csrrsi x0, mstatus, 8   # bit 3, MIE: interrupts are taken from here on
sleep:
    wfi
    jal   x0, sleep
    sb    x12, 0(x10)       # the handler
    addi  x14, x14, 1000
    sd    x14, 0(x11)       # the clock hasn't come to the new number, so the line falls
    addi  x12, x12, -1
    beq   x12, x13, done
    mret
done:
    addi  x12, x0, 10       # a line feed
    sb    x12, 0(x10)
    lui   x15, 0x100        # the exit device
    sw    x0, 0(x15)
"##;

/// `examples/timer.elf`
const TIMER_ELF: &[u8] = b"\
\x7f\x45\x4c\x46\x02\x01\x01\x00\x00\x00\x00\x00\x00\x00\x00\x00\
\x02\x00\xf3\x00\x01\x00\x00\x00\x00\x00\x00\x80\x00\x00\x00\x00\
\x40\x00\x00\x00\x00\x00\x00\x00\x00\x00\x00\x00\x00\x00\x00\x00\
\x00\x00\x00\x00\x40\x00\x38\x00\x01\x00\x00\x00\x00\x00\x00\x00\
\x01\x00\x00\x00\x07\x00\x00\x00\x78\x00\x00\x00\x00\x00\x00\x00\
\x00\x00\x00\x80\x00\x00\x00\x00\x00\x00\x00\x80\x00\x00\x00\x00\
\x60\x00\x00\x00\x00\x00\x00\x00\x60\x00\x00\x00\x00\x00\x00\x00\
\x08\x00\x00\x00\x00\x00\x00\x00\x97\x02\x00\x00\x93\x82\x82\x03\
\x73\x90\x52\x30\x37\x05\x00\x10\xb7\x45\x00\x02\x13\x06\x30\x03\
\x93\x06\x00\x03\x13\x07\x80\x3e\x23\xb0\xe5\x00\x13\x03\x00\x08\
\x73\x10\x43\x30\x73\x60\x04\x30\x73\x00\x50\x10\x6f\xf0\xdf\xff\
\x23\x00\xc5\x00\x13\x07\x87\x3e\x23\xb0\xe5\x00\x13\x06\xf6\xff\
\x63\x04\xd6\x00\x73\x00\x20\x30\x13\x06\xa0\x00\x23\x00\xc5\x00\
\xb7\x07\x10\x00\x23\xa0\x07\x00";

/// `examples/timer.report`
const TIMER_REPORT: &str = r##"run exit 0 at 316800 insts 38 events 48
pc 0000000080000060
x5 0000000080000038
x6 0000000000000080
x10 0000000010000000
x11 0000000002004000
x12 000000000000000a
x13 0000000000000030
x14 0000000000000fa0
x15 0000000000100000
mstatus 0000000000001880
mie 0000000000000080
mtvec 0000000080000038
mepc 0000000080000034
mcause 8000000000000007
"##;

/// `examples/timer.console`
const TIMER_CONSOLE: &[u8] = b"\
\x33\x32\x31\x0a";

/// `examples/hello.timing.report`
const HELLO_TIMING_REPORT: &str = r##"run exit 0 at 121250 insts 86 events 740
pc 0000000080000024
x10 0000000010000000
x11 0000000080000038
x13 0000000000100000
mstatus 0000000000001800
"##;

/// `examples/timer.timing.report`
const TIMER_TIMING_REPORT: &str = r##"run exit 0 at 314250 insts 37 events 290
pc 000000008000005c
x5 0000000080000038
x6 0000000000000080
x10 0000000010000000
x11 0000000002004000
x12 000000000000000a
x13 0000000000000030
x14 0000000000000fa0
x15 0000000000100000
mstatus 0000000000001880
mie 0000000000000080
mtvec 0000000080000038
mepc 0000000080000034
mcause 8000000000000007
"##;

/// The machine of the examples.
const MACHINE: File = ("config", Text(MACHINE_TOML));

/// The same in timing mode.
const TIMED_MACHINE: File = ("config", Text(TIMING_TOML));

static EXAMPLES: [Case; 8] = [
    Case {
        name: "hello",
        files: &[
            MACHINE,
            ("source", Text(HELLO_S)),
            ("script", Text(HELLO_SCRIPT)),
        ],
        console: HELLO_CONSOLE,
        report: HELLO_REPORT,
        left: &[("image", Some(HELLO_ELF))],
        ..SILENT
    },
    Case {
        name: "steps",
        files: &[
            MACHINE,
            ("source", Text(HELLO_S)),
            ("script", Text(STEPS_SCRIPT)),
        ],
        console: HELLO_CONSOLE,
        report: STEPS_REPORT,
        left: &[("image", Some(HELLO_ELF))],
        ..SILENT
    },
    Case {
        name: "hello.flat",
        files: &[
            MACHINE,
            ("source", Text(HELLO_S)),
            ("script", Text(HELLO_SCRIPT)),
        ],
        words: &["flat", "image", "1000"],
        console: HELLO_CONSOLE,
        report: HELLO_FLAT_REPORT,
        left: &[("image", Some(HELLO_ELF))],
        ..SILENT
    },
    Case {
        name: "fibonacci",
        files: &[
            MACHINE,
            ("source", Text(FIBONACCI_S)),
            ("script", Text(HELLO_SCRIPT)),
        ],
        report: FIBONACCI_REPORT,
        left: &[("image", Some(FIBONACCI_ELF))],
        ..SILENT
    },
    Case {
        name: "trap",
        files: &[
            MACHINE,
            ("source", Text(TRAP_S)),
            ("script", Text(HELLO_SCRIPT)),
        ],
        report: TRAP_REPORT,
        left: &[("image", Some(TRAP_ELF))],
        ..SILENT
    },
    Case {
        name: "timer",
        files: &[
            MACHINE,
            ("source", Text(TIMER_S)),
            ("script", Text(HELLO_SCRIPT)),
        ],
        console: TIMER_CONSOLE,
        report: TIMER_REPORT,
        left: &[("image", Some(TIMER_ELF))],
        ..SILENT
    },
    Case {
        name: "hello.timing",
        files: &[
            TIMED_MACHINE,
            ("source", Text(HELLO_S)),
            ("script", Text(HELLO_SCRIPT)),
        ],
        console: HELLO_CONSOLE,
        report: HELLO_TIMING_REPORT,
        left: &[("image", Some(HELLO_ELF))],
        ..SILENT
    },
    Case {
        name: "timer.timing",
        files: &[
            TIMED_MACHINE,
            ("source", Text(TIMER_S)),
            ("script", Text(HELLO_SCRIPT)),
        ],
        console: TIMER_CONSOLE,
        report: TIMER_TIMING_REPORT,
        left: &[("image", Some(TIMER_ELF))],
        ..SILENT
    },
];

#[test]
fn examples_write_what_is_stored_beside_them(rt: HostRuntime) -> Result<(), Fail> {
    expect_assembled_and_run(&rt, &EXAMPLES)
}
