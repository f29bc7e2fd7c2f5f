// Programs that the timer interrupts, on the machine of the tests. What they come to was computed by an interpreter of its own, written from
// the manuals and from the rules of the parts; the ticks that a comment names were worked by hand.
//
// In atomic mode an instruction takes 1,700 ticks, a data access of the timer 400 more, one of the exit device 250. In timing mode it takes
// a period of 1,000, since its fetch is back after 900, and an access one more. The clock counts 100 ticks.
use super::{CONFIG, Case, SILENT, TIMED_CONFIG, Text, expect_assembled_and_run};
use std::test::Fail;

/// Asks for the clock at 200 with MIE clear, sleeps, and sleeps again with no interrupt enabled.
const WOKEN: &str = concat!(
    "lui x12, 0x2004\naddi x5, x0, 200\nsd x5, 0(x12)\naddi x6, x0, 128\ncsrrw x0, mie, x6\nwfi\n",
    "addi x7, x0, 1\ncsrrw x0, mie, x0\nwfi\n"
);

/// A loop counts to 3 while the handler, which stands behind the program, counts interrupts: the first at count 300 of the clock, and
/// each other 150 counts after the handler has read the clock.
const COUNTED: &str = concat!(
    "auipc x5, 0\naddi x5, x5, 0x48\ncsrrw x0, mtvec, x5\nlui x11, 0x2004\nlui x13, 0x200c\n",
    "addi x13, x13, -8\naddi x20, x0, 0\naddi x22, x0, 3\naddi x14, x0, 300\nsd x14, 0(x11)\n",
    "addi x6, x0, 128\ncsrrw x0, mie, x6\ncsrrsi x0, mstatus, 8\nloop:\naddi x21, x21, 1\n",
    "bne x20, x22, loop\ncsrrci x0, mstatus, 8\nlui x15, 0x100\nsw x20, 0(x15)\nhandler:\n",
    "addi x20, x20, 1\nld x14, 0(x13)\naddi x14, x14, 150\nsd x14, 0(x11)\nmret\n"
);

/// The table stands at 0x40 behind the first instruction: its fourth word jumps to the handler of the software line, and its eighth
/// begins the handler of the clock's. Each handler makes its line low.
const VECTORED: &str = concat!(
    "auipc x5, 0\naddi x5, x5, 0x41\ncsrrw x0, mtvec, x5\nlui x11, 0x2004\nlui x12, 0x2000\n",
    "addi x14, x0, 400\nsd x14, 0(x11)\naddi x7, x0, 1\nsw x7, 0(x12)\naddi x6, x0, 0x88\n",
    "csrrw x0, mie, x6\ncsrrsi x0, mstatus, 8\nwfi\naddi x23, x0, 1\nlui x15, 0x100\nsw x20, 0(x15)\n",
    "jal x0, .+0\njal x0, .+0\njal x0, .+0\njal x0, soft\njal x0, .+0\njal x0, .+0\njal x0, .+0\n",
    "addi x20, x20, 16\ncsrrw x21, mcause, x0\naddi x14, x0, -1\nsd x14, 0(x11)\nmret\nsoft:\n",
    "addi x20, x20, 1\ncsrrw x22, mcause, x0\nsw x0, 0(x12)\nmret\n"
);

/// Reads the clock twice, and the other registers of the timer once; then it sleeps.
const READ_TWICE: &str = concat!(
    "lui x13, 0x200c\nld x5, -8(x13)\nld x6, -8(x13)\nsub x7, x6, x5\nlui x12, 0x2000\nlw x8, 0(x12)\n",
    "lui x11, 0x2004\nld x9, 0(x11)\nwfi\n"
);

/// Both lines are high before anything is enabled.
const BOTH_HIGH: &str = concat!(
    "auipc x5, 0\naddi x5, x5, 0x38\ncsrrw x0, mtvec, x5\nlui x11, 0x2004\nlui x12, 0x2000\n",
    "sd x0, 0(x11)\naddi x7, x0, 1\nsw x7, 0(x12)\ncsrrs x8, mip, x0\naddi x6, x0, 0x88\n",
    "csrrw x0, mie, x6\ncsrrsi x0, mstatus, 8\nlui x15, 0x100\nsw x20, 0(x15)\nslli x20, x20, 4\n",
    "csrrs x9, mcause, x0\nadd x20, x20, x9\naddi x20, x20, 0\ncsrrw x0, mie, x0\nmret\n"
);

/// Asks for the clock at 125, and loads a number, to which the handler behind the program adds 1. What it comes to is the exit number.
const LOADING: &str = concat!(
    "auipc x5, 0\naddi x5, x5, 0x30\ncsrrw x0, mtvec, x5\nlui x11, 0x2004\naddi x14, x0, 125\nsd x14, 0(x11)\n",
    "addi x6, x0, 128\ncsrrw x0, mie, x6\ncsrrsi x0, mstatus, 8\nlw x7, 12(x5)\nlui x15, 0x100\nsw x9, 0(x15)\n",
    "addi x9, x7, 1\ncsrrw x0, mie, x0\nmret\n.word 77\n"
);

/// The files of a program that is run to the end on a machine, whose registers are then shown.
macro_rules! to_the_end {
    ($config:expr, $source:expr) => {
        &[
            $config,
            ("source", Text($source)),
            ("script", Text("run end\nregs\n")),
        ]
    };
}

static INTERRUPTED: [Case; 5] = [
    Case {
        name: "hart_woken_under_a_clear_mie_goes_on",
        // It sleeps at 9,900. At 20,000 the clock comes to 200, and the hart goes on at 21,000, the next multiple of its period. No interrupt
        // is taken, since MIE is clear; then none is enabled any more, and it sleeps for good.
        files: to_the_end!(CONFIG, WOKEN),
        report: concat!(
            "run idle at 24400 insts 9 events 10\npc 0000000080000024\nx5 00000000000000c8\nx6 0000000000000080\n",
            "x7 0000000000000001\nx12 0000000002004000\nmstatus 0000000000001800\nmip 0000000000000080\n"
        ),
        ..SILENT
    },
    Case {
        name: "interrupts_by_the_clock_are_counted",
        files: to_the_end!(CONFIG, COUNTED),
        report: concat!(
            "run exit 3 at 85000 insts 47 events 53\npc 0000000080000048\nx5 0000000080000048\nx6 0000000000000080\n",
            "x11 0000000002004000\nx13 000000000200bff8\nx14 0000000000000358\nx15 0000000000100000\nx20 0000000000000003\n",
            "x21 0000000000000008\nx22 0000000000000003\nmstatus 0000000000001880\nmie 0000000000000080\n",
            "mtvec 0000000080000048\nmepc 0000000080000034\nmcause 8000000000000007\n"
        ),
        ..SILENT
    },
    Case {
        name: "vectored_interrupts_by_both_lines",
        // The hart sleeps at 32,100, and is woken at 40,000.
        files: to_the_end!(CONFIG, VECTORED),
        report: concat!(
            "run exit 17 at 54300 insts 26 events 29\npc 0000000080000040\nx5 0000000080000041\nx6 0000000000000088\n",
            "x7 0000000000000001\nx11 0000000002004000\nx12 0000000002000000\nx14 ffffffffffffffff\nx15 0000000000100000\n",
            "x20 0000000000000011\nx21 8000000000000007\nx22 8000000000000003\nx23 0000000000000001\n",
            "mstatus 0000000000001888\nmie 0000000000000088\nmtvec 0000000080000041\nmepc 0000000080000034\n"
        ),
        ..SILENT
    },
    Case {
        name: "clock_read_twice",
        // The two loads are at 2,700 and 4,800, so the clock is 27 and 48. Both lines are low, and the number to compare has all bits.
        files: to_the_end!(CONFIG, READ_TWICE),
        report: concat!(
            "run idle at 16200 insts 9 events 9\npc 0000000080000024\nx5 000000000000001b\nx6 0000000000000030\n",
            "x7 0000000000000015\nx9 ffffffffffffffff\nx11 0000000002004000\nx12 0000000002000000\nx13 000000000200c000\n",
            "mstatus 0000000000001800\n"
        ),
        ..SILENT
    },
    Case {
        name: "software_line_stands_before_the_clock",
        // The software line is taken first.
        files: to_the_end!(CONFIG, BOTH_HIGH),
        report: concat!(
            "run exit 3 at 35100 insts 20 events 21\npc 0000000080000038\nx5 0000000080000038\nx6 0000000000000088\n",
            "x7 0000000000000001\nx8 0000000000000088\nx9 8000000000000003\nx11 0000000002004000\nx12 0000000002000000\n",
            "x15 0000000000100000\nx20 8000000000000003\nmstatus 0000000000001888\nmip 0000000000000088\n",
            "mtvec 0000000080000038\nmepc 0000000080000030\nmcause 8000000000000003\n"
        ),
        ..SILENT
    },
];

static TIMED: [Case; 6] = [
    Case {
        name: "hart_woken_in_timing_mode",
        // The wfi is fetched at 7,000, and sleeps at 7,900. At 20,000 the line rises, and at 21,000 the hart goes on; the last wfi is
        // fetched at 23,000.
        files: to_the_end!(TIMED_CONFIG, WOKEN),
        report: concat!(
            "run idle at 23900 insts 9 events 61\npc 0000000080000024\nx5 00000000000000c8\nx6 0000000000000080\n",
            "x7 0000000000000001\nx12 0000000002004000\nmstatus 0000000000001800\nmip 0000000000000080\n"
        ),
        ..SILENT
    },
    Case {
        name: "interrupts_counted_in_timing_mode",
        // The loop has gone round more often than in atomic mode; what counts the interrupts is the clock.
        files: to_the_end!(TIMED_CONFIG, COUNTED),
        report: concat!(
            "run exit 3 at 80250 insts 68 events 466\npc 0000000080000044\nx5 0000000080000048\nx6 0000000000000080\n",
            "x11 0000000002004000\nx13 000000000200bff8\nx14 0000000000000360\nx15 0000000000100000\nx20 0000000000000003\n",
            "x21 0000000000000013\nx22 0000000000000003\nmstatus 0000000000001880\nmie 0000000000000080\n",
            "mtvec 0000000080000048\nmepc 0000000080000038\nmcause 8000000000000007\n"
        ),
        ..SILENT
    },
    Case {
        name: "vectored_interrupts_in_timing_mode",
        // The hart sleeps at 25,900, and is woken at 40,000.
        files: to_the_end!(TIMED_CONFIG, VECTORED),
        report: concat!(
            "run exit 17 at 51250 insts 25 events 187\npc 000000008000003c\nx5 0000000080000041\nx6 0000000000000088\n",
            "x7 0000000000000001\nx11 0000000002004000\nx12 0000000002000000\nx14 ffffffffffffffff\nx15 0000000000100000\n",
            "x20 0000000000000011\nx21 8000000000000007\nx22 8000000000000003\nx23 0000000000000001\n",
            "mstatus 0000000000001888\nmie 0000000000000088\nmtvec 0000000080000041\nmepc 0000000080000034\n"
        ),
        ..SILENT
    },
    Case {
        name: "clock_read_twice_in_timing_mode",
        // The two loads ask at 3,000 and 5,000, and the timer serves them at 3,400 and 5,400: the clock is 34 and 54 then.
        files: to_the_end!(TIMED_CONFIG, READ_TWICE),
        report: concat!(
            "run idle at 13900 insts 9 events 78\npc 0000000080000024\nx5 0000000000000022\nx6 0000000000000036\n",
            "x7 0000000000000014\nx9 ffffffffffffffff\nx11 0000000002004000\nx12 0000000002000000\nx13 000000000200c000\n",
            "mstatus 0000000000001800\n"
        ),
        ..SILENT
    },
    Case {
        name: "software_line_before_the_clock_in_timing_mode",
        files: to_the_end!(TIMED_CONFIG, BOTH_HIGH),
        report: concat!(
            "run exit 3 at 24250 insts 19 events 137\npc 0000000080000034\nx5 0000000080000038\nx6 0000000000000088\n",
            "x7 0000000000000001\nx8 0000000000000088\nx9 8000000000000003\nx11 0000000002004000\nx12 0000000002000000\n",
            "x15 0000000000100000\nx20 8000000000000003\nmstatus 0000000000001888\nmip 0000000000000088\n",
            "mtvec 0000000080000038\nmepc 0000000080000030\nmcause 8000000000000003\n"
        ),
        ..SILENT
    },
    Case {
        name: "line_that_rises_while_a_load_is_on_its_way",
        // The load asks at 12,000, the line rises at 12,500, and RAM serves the load at 12,700. It retires as its response comes, and
        // the interrupt is entered at the next event. So mepc is behind it, and the handler has its number.
        files: &[
            TIMED_CONFIG,
            ("source", Text(LOADING)),
            (
                "script",
                Text("run tick 12000\ntrace on\nrun tick 13000\ntrace off\nrun end\nregs\n"),
            ),
        ],
        report: concat!(
            "run tick at 12000 insts 9 events 67\n@12100 corebus 0\n@12200 membus 0\n@12500 timer 1\nline 7 1\n",
            "@12700 mem 0\nserved d 11 r 000000008000003c 4 ram 4d000000\n@12800 membus 6\n",
            "@12900 corebus 2\nretired 0000000080000024 00c2a383\n@13000 tcpu 0\ntrapped 8000000000000007 0000000000000000\n",
            "run tick at 13000 insts 1 events 7\nrun exit 78 at 19250 insts 4 events 34\npc 000000008000002c\n",
            "x5 0000000080000030\nx6 0000000000000080\nx7 000000000000004d\nx9 000000000000004e\nx11 0000000002004000\n",
            "x14 000000000000007d\nx15 0000000000100000\nmstatus 0000000000001888\nmip 0000000000000080\n",
            "mtvec 0000000080000030\nmepc 0000000080000028\nmcause 8000000000000007\n"
        ),
        ..SILENT
    },
];

#[test]
fn interrupts_come_between_two_instructions(rt: HostRuntime) -> Result<(), Fail> {
    expect_assembled_and_run(&rt, &INTERRUPTED)
}

#[test]
fn interrupts_wait_for_an_instruction_that_waits_for_its_response(
    rt: HostRuntime,
) -> Result<(), Fail> {
    expect_assembled_and_run(&rt, &TIMED)
}
