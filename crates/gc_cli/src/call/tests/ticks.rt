// Programs whose every tick was worked by hand: they are assembled, and run by a machine in which no two things take equally long.
//
// Each latency is a power of ten, so that a tick counts what it is made of: corebus 1, membus 10, RAM 100, UART 1,000, exit device
// 10,000, and the period 100,000. So
//
// - the first event comes at 100,000, which is the first multiple of the period;
// - an instruction takes 100,111: the period, and its fetch by both crossbars from RAM;
// - a data access adds its way and its server: 111 for RAM, 1,011 for the UART, 10,011 for the exit device, and the way alone, 11, for an
//   address of no range.
//
// A program ends by a wfi, whose own event is the last one, at the tick to which all before it led. Where no byte is being sent,
// nothing is pending then.
use super::{Case, SILENT, Text, expect_assembled_and_run};
use std::test::Fail;

/// A machine in which no two things take equally long, and how long its UART sends a byte.
macro_rules! config_of_chartime {
    ($chartime:literal) => {
        concat!(
            "[system]\nline = 16\nmodel = \"atomic\"\nram = 65536\nbudget = 1000\n[cpu]\nperiod = 100000\n",
            "[corebus]\nlatency = 1\n[membus]\nlatency = 10\n[mem]\nlatency = 100\nqueue = 1\n",
            "[uart]\nlatency = 1000\nchartime = ",
            $chartime,
            "\n[timer]\nlatency = 7\nperiod = 3\n[exit]\nlatency = 10000\n"
        )
    };
}

/// The files of a program that is run to the end on a machine, whose registers are then shown.
macro_rules! files {
    (chartime $chartime:literal, source $source:expr) => {
        files!(chartime $chartime, source $source, script "run end\nregs\n")
    };
    (chartime $chartime:literal, source $source:expr, script $script:literal) => {
        &[
            ("config", Text(config_of_chartime!($chartime))),
            ("source", Text($source)),
            ("script", Text($script)),
        ]
    };
}

/// The files of a program whose fifth instruction, the second of these two, may trap: the handler is the wfi behind it.
///
/// The events are at 100,000, 200,111, 300,222, 400,333 and 500,444, and the wfi's is at 600,555 and what the fifth adds.
macro_rules! fifth {
    ($two:literal) => {
        files!(
            chartime "1000",
            source concat!(
                "auipc x5, 0\naddi x5, x5, 20\ncsrrw x0, mtvec, x5\n",
                $two,
                "wfi\n"
            )
        )
    };
}

/// What is reported where the fifth instruction trapped: when the wfi slept, x10, and the lines of mcause and mtval.
macro_rules! trapped {
    (at $at:literal, x10 $x10:literal, $cause:literal) => {
        concat!(
            "run idle at ",
            $at,
            " insts 5 events 6\npc 0000000080000018\nx5 0000000080000014\nx10 ",
            $x10,
            "\nmstatus 0000000000001800\nmtvec 0000000080000014\nmepc 0000000080000010\n",
            $cause
        )
    };
}

static SERVED: [Case; 8] = [
    Case {
        name: "sleep_ends_a_run",
        files: files!(chartime "1000", source "wfi\n", script "run end\nregs\nrun end\n"),
        report: "run idle at 100000 insts 1 events 1\npc 0000000080000004\nmstatus 0000000000001800\n\
run idle at 100000 insts 0 events 0\n",
        ..SILENT
    },
    Case {
        name: "ram_is_read_and_written",
        // 100,000; the load 200,111, which takes 100,111 + 111; the store 300,333, which takes as long; 400,555.
        files: files!(
            chartime "1000",
            source "auipc x10, 1\nlw x11, 0(x10)\nsw x11, 4(x10)\nwfi\n"
        ),
        report: "run idle at 400555 insts 4 events 4\npc 0000000080000010\nx10 0000000080001000\nmstatus 0000000000001800\n",
        ..SILENT
    },
    // A server that refuses takes its latency as ever.
    Case {
        name: "load_that_the_exit_device_refuses",
        // 600,555 + 10,011; x10 keeps its number.
        files: fifth!("lui x10, 0x100\nlw x10, 0(x10)\n"),
        report: trapped!(at "610566", x10 "0000000000100000", "mcause 0000000000000005\nmtval 0000000000100000\n"),
        ..SILENT
    },
    Case {
        name: "store_that_the_exit_device_refuses_by_its_offset",
        // 600,555 + 10,011; the run has no exit number.
        files: fifth!("lui x10, 0x100\nsw x10, 4(x10)\n"),
        report: trapped!(at "610566", x10 "0000000000100000", "mcause 0000000000000007\nmtval 0000000000100004\n"),
        ..SILENT
    },
    Case {
        name: "store_that_the_exit_device_refuses_by_its_size",
        // 600,555 + 10,011; the run has no exit number.
        files: fifth!("lui x10, 0x100\nsb x10, 0(x10)\n"),
        report: trapped!(at "610566", x10 "0000000000100000", "mcause 0000000000000007\nmtval 0000000000100000\n"),
        ..SILENT
    },
    Case {
        name: "load_that_the_uart_refuses_by_its_size",
        // 600,555 + 1,011
        files: fifth!("lui x10, 0x10000\nlhu x10, 0(x10)\n"),
        report: trapped!(at "601566", x10 "0000000010000000", "mcause 0000000000000005\nmtval 0000000010000000\n"),
        ..SILENT
    },
    Case {
        name: "store_that_the_uart_refuses_by_its_offset",
        // 600,555 + 1,011; nothing is sent.
        files: fifth!("lui x10, 0x10000\nsb x5, 8(x10)\n"),
        report: trapped!(at "601566", x10 "0000000010000000", "mcause 0000000000000007\nmtval 0000000010000008\n"),
        ..SILENT
    },
    Case {
        name: "last_address_of_the_uart",
        // 600,555 + 1,011: it is the UART that refuses.
        files: fifth!("lui x10, 0x10001\nlbu x10, -1(x10)\n"),
        report: trapped!(at "601566", x10 "0000000010001000", "mcause 0000000000000005\nmtval 0000000010000fff\n"),
        ..SILENT
    },
];

static AT_THE_EDGES: [Case; 5] = [
    // An address of no range takes the way alone.
    Case {
        name: "load_behind_the_uart",
        // 600,555 + 11
        files: fifth!("lui x10, 0x10001\nlbu x10, 0(x10)\n"),
        report: trapped!(at "600566", x10 "0000000010001000", "mcause 0000000000000005\nmtval 0000000010001000\n"),
        ..SILENT
    },
    Case {
        name: "store_of_no_range",
        // 600,555 + 11
        files: fifth!("lui x10, 0x20000\nsd x10, 0(x10)\n"),
        report: trapped!(at "600566", x10 "0000000020000000", "mcause 0000000000000007\nmtval 0000000020000000\n"),
        ..SILENT
    },
    Case {
        name: "load_below_ram",
        // 600,555 + 11; the auipc stands at 8000000c.
        files: fifth!("auipc x10, 0\nld x10, -20(x10)\n"),
        report: trapped!(at "600566", x10 "000000008000000c", "mcause 0000000000000005\nmtval 000000007ffffff8\n"),
        ..SILENT
    },
    Case {
        name: "load_behind_ram",
        // 600,555 + 11
        files: fifth!("auipc x10, 0x10\nlw x10, -12(x10)\n"),
        report: trapped!(at "600566", x10 "000000008001000c", "mcause 0000000000000005\nmtval 0000000080010000\n"),
        ..SILENT
    },
    Case {
        name: "load_of_the_last_word_of_ram",
        // 600,555 + 111; it retires, and gets 0.
        files: fifth!("auipc x10, 0x10\nlw x10, -16(x10)\n"),
        report: "run idle at 600666 insts 6 events 6\npc 0000000080000018\nx5 0000000080000014\n\
mstatus 0000000000001800\nmtvec 0000000080000014\n",
        ..SILENT
    },
];

static TRAPPED: [Case; 7] = [
    // What traps before anything is sent takes no access.
    Case {
        name: "misaligned_load",
        // 600,555
        files: fifth!("lui x10, 0x10000\nlw x10, 2(x10)\n"),
        report: trapped!(at "600555", x10 "0000000010000000", "mcause 0000000000000004\nmtval 0000000010000002\n"),
        ..SILENT
    },
    Case {
        name: "misaligned_store",
        // 600,555
        files: fifth!("lui x10, 0x100\nsd x10, 4(x10)\n"),
        report: trapped!(at "600555", x10 "0000000000100000", "mcause 0000000000000006\nmtval 0000000000100004\n"),
        ..SILENT
    },
    Case {
        name: "word_that_is_no_instruction",
        // 600,555: it was fetched.
        files: fifth!("lui x10, 0x100\n.word 0xffffffff\n"),
        report: trapped!(at "600555", x10 "0000000000100000", "mcause 0000000000000002\nmtval 00000000ffffffff\n"),
        ..SILENT
    },
    Case {
        name: "environment_call",
        // 600,555
        files: fifth!("lui x10, 0x100\necall\n"),
        report: trapped!(at "600555", x10 "0000000000100000", "mcause 000000000000000b\n"),
        ..SILENT
    },
    Case {
        name: "misaligned_jump",
        // 600,555; x10 keeps its number, and mcause is 0.
        files: fifth!("addi x10, x5, 2\njalr x10, 0(x10)\n"),
        report: trapped!(at "600555", x10 "0000000080000016", "mtval 0000000080000016\n"),
        ..SILENT
    },
    Case {
        name: "fetch_outside_ram",
        // The jump retires. At 600,555 the fetch traps, which takes the period and no access: 700,555.
        files: fifth!("lui x10, 0x20000\njalr x0, 0(x10)\n"),
        report: "run idle at 700555 insts 6 events 7\npc 0000000080000018\nx5 0000000080000014\nx10 0000000020000000\n\
mstatus 0000000000001800\nmtvec 0000000080000014\nmepc 0000000020000000\nmcause 0000000000000001\nmtval 0000000020000000\n",
        ..SILENT
    },
    Case {
        name: "no_line_wakes_the_hart",
        // Five instructions to 500,444. A write to mip keeps nothing, so nothing is pending, whatever is enabled.
        files: files!(
            chartime "1000",
            source "addi x6, x0, -1\ncsrrw x0, mie, x6\ncsrrw x0, mip, x6\ncsrrsi x0, mstatus, 8\nwfi\n"
        ),
        report: "run idle at 500444 insts 5 events 5\npc 0000000080000014\nx6 ffffffffffffffff\n\
mstatus 0000000000001808\nmie 0000000000000888\n",
        ..SILENT
    },
];

static OF_THE_UART: [Case; 6] = [
    Case {
        name: "registers_of_the_uart_are_read",
        // The loop begins at 300,222. It takes 101,122 for the load and 100,111 for each of four more, eight times: 4,312,750.
        // x7 has the bytes of offsets 0 to 7, the last one lowest: 20 at offset 5, "a byte can be sent", and else 0.
        files: files!(
            chartime "1000",
            source "lui x5, 0x10000\naddi x8, x5, 8\nnext:\nlbu x6, 0(x5)\nslli x7, x7, 8\nadd x7, x7, x6\n\
addi x5, x5, 1\nbne x5, x8, next\nwfi\n"
        ),
        report: "run idle at 4312750 insts 43 events 43\npc 0000000080000020\nx5 0000000010000008\n\
x7 0000000000200000\nx8 0000000010000008\nmstatus 0000000000001800\n",
        ..SILENT
    },
    Case {
        name: "other_registers_of_the_uart_are_written",
        // The loop begins at 300,222. It takes 100,111, 101,122 for the store and 100,111, seven times: 2,409,630. The load of the
        // status takes 101,122: 2,510,752. The UART is free still, and has no event.
        files: files!(
            chartime "1000000",
            source "lui x5, 0x10000\naddi x8, x5, 7\nnext:\naddi x5, x5, 1\nsb x8, 0(x5)\nbne x5, x8, next\n\
lbu x6, -2(x5)\nwfi\n"
        ),
        report: "run idle at 2510752 insts 25 events 25\npc 000000008000001c\nx5 0000000010000007\n\
x6 0000000000000020\nx8 0000000010000007\nmstatus 0000000000001800\n",
        ..SILENT
    },
    // The status at 200,111 is "free"; its byte is stored at 301,233; the status is read anew at 402,355 and 503,477.
    Case {
        name: "status_while_a_byte_is_sent",
        // It is sent at 301,233 + 101,123 = 402,356, a tick after the second load, so x7 is 0; the wfi is at 604,599.
        files: files!(
            chartime "101123",
            source "lui x5, 0x10000\nlbu x6, 5(x5)\nsb x6, 0(x5)\nlbu x7, 5(x5)\nlbu x8, 5(x5)\nwfi\n"
        ),
        console: b" ",
        report: "run idle at 604599 insts 6 events 7\npc 0000000080000018\nx5 0000000010000000\n\
x6 0000000000000020\nx8 0000000000000020\nmstatus 0000000000001800\n",
        ..SILENT
    },
    Case {
        name: "status_as_a_byte_was_sent",
        // It is sent at 402,355, the tick of the second load. A UART's event stands before a CPU's at the same tick.
        files: files!(
            chartime "101122",
            source "lui x5, 0x10000\nlbu x6, 5(x5)\nsb x6, 0(x5)\nlbu x7, 5(x5)\nlbu x8, 5(x5)\nwfi\n"
        ),
        console: b" ",
        report: "run idle at 604599 insts 6 events 7\npc 0000000080000018\nx5 0000000010000000\n\
x6 0000000000000020\nx7 0000000000000020\nx8 0000000000000020\nmstatus 0000000000001800\n",
        ..SILENT
    },
    Case {
        name: "second_byte_while_the_first_is_sent",
        // The bytes are stored at 300,222 and 401,344, the status is read at 502,466, and the wfi is at 603,588. The second byte
        // begins anew: there is one event, at 401,344 + 150,000 = 551,344, and none at 450,222. So x7 is 0.
        files: files!(
            chartime "150000",
            source "lui x5, 0x10000\naddi x6, x0, 65\nsb x6, 0(x5)\nsb x6, 0(x5)\nlbu x7, 5(x5)\nwfi\n",
            script "run tick 551343\nrun tick 551344\nrun end\nregs\n"
        ),
        console: b"AA",
        report: "run tick at 502466 insts 5 events 5\nrun tick at 551344 insts 0 events 1\n\
run idle at 603588 insts 1 events 1\n\
pc 0000000080000018\nx5 0000000010000000\nx6 0000000000000041\nmstatus 0000000000001800\n",
        ..SILENT
    },
    Case {
        name: "sleep_while_a_byte_is_sent",
        // It is stored at 200,111 and sent at 1,200,111. The hart sleeps from 301,233 on, and the run ends once nothing is pending.
        files: files!(
            chartime "1000000",
            source "lui x5, 0x10000\nsb x5, 0(x5)\nwfi\n",
            script "run tick 1200110\nrun end\nrun end\n"
        ),
        console: b"\x00",
        report: "run tick at 301233 insts 3 events 3\nrun idle at 1200111 insts 0 events 1\n\
run idle at 1200111 insts 0 events 0\n",
        ..SILENT
    },
];

#[test]
fn accesses_take_their_way_and_their_server(rt: HostRuntime) -> Result<(), Fail> {
    expect_assembled_and_run(&rt, &SERVED)
}

#[test]
fn addresses_of_no_range_take_the_way_alone(rt: HostRuntime) -> Result<(), Fail> {
    expect_assembled_and_run(&rt, &AT_THE_EDGES)
}

#[test]
fn what_traps_before_it_is_sent_takes_no_access(rt: HostRuntime) -> Result<(), Fail> {
    expect_assembled_and_run(&rt, &TRAPPED)
}

#[test]
fn a_byte_takes_its_time_on_the_line(rt: HostRuntime) -> Result<(), Fail> {
    expect_assembled_and_run(&rt, &OF_THE_UART)
}
