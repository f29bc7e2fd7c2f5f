// Two programs in both models: a small one on eight machines, four configurations of each model, and a longer one on four machines. Whatever
// time takes, the console, the exit number and all registers but pc are the same. In atomic mode the store that ends the run retires in the
// same event, and in timing mode the run ends before that store has its response: there one instruction fewer has retired, and pc is the
// store's.
//
// Ticks and events were computed by an interpreter of its own, written from the rules.
use super::{Case, SILENT, Text, expect_assembled_and_run};
use std::test::Fail;

/// The sum of the squares of 4, 3, 2 and 1 by way of RAM, while a letter is sent for each; the sum is the exit number.
const SQUARES: &str = concat!(
    "lui x10, 0x10000\nauipc x11, 0\naddi x11, x11, 0xfc\naddi x12, x0, 4\nnext:\nmul x14, x12, x12\nsw x14, 0(x11)\n",
    "addi x15, x12, 64\nsb x15, 0(x10)\nlw x16, 0(x11)\nadd x13, x13, x16\naddi x11, x11, 4\naddi x12, x12, -1\n",
    "bne x12, x0, next\nlui x17, 0x100\nsw x13, 0(x17)\n"
);

/// Every instruction, and all kinds of accesses and of traps but interrupts. A checksum of what they come to is the exit number.
const TOUR: &str = concat!(
    // The handler folds cause and value into the checksum x8, counts in x18, and skips; an access fault of a fetch returns to x1.
    "jal t0, start\ncsrrs t1, mcause, x0\ncsrrs t2, mtval, x0\nmul s0, s0, s7\nadd s0, s0, t1\nxor s0, s0, t2\naddi s2, s2, 1\n",
    "csrrs t2, mepc, x0\naddi t2, t2, 4\naddi t1, t1, -1\nbne t1, x0, back\naddi t2, ra, 0\nback:\ncsrrw x0, mepc, t2\nmret\n",
    "start:\ncsrrw x0, mtvec, t0\naddi s1, t0, 0x7fc\naddi s7, x0, 31\nlui s8, 0x100\nlui s3, 0x10000\nlui s4, 0x2000\naddi s5, x0, -1\n",
    "slli s6, s5, 63\naddi s10, x0, 6\nrow:\naddi s11, x0, 8\naddi a0, s1, 0\n",
    // Every size, at every kind of place in a doubleword.
    "cell:\nmul a1, s0, s7\nadd a1, a1, s11\nsd a1, 0(a0)\nsw s0, 12(a0)\nsrli a2, a1, 9\nsh a2, 6(a0)\nsb a2, 3(a0)\nld a2, 0(a0)\n",
    "add s0, a1, a2\nlw a2, 4(a0)\nxor s0, s0, a2\nlwu a2, 12(a0)\nsub s0, s0, a2\nlh a2, 2(a0)\nadd s0, s0, a2\nlhu a2, 6(a0)\n",
    "xor s0, s0, a2\nlb a2, 5(a0)\nsub s0, s0, a2\nlbu a2, 3(a0)\nadd s0, s0, a2\nbge s0, x0, plus\nsraiw a2, s0, 3\nxor s0, s0, a2\n",
    "plus:\nbgeu s0, a1, less\nsra a2, s0, s11\nadd s0, s0, a2\nless:\naddi a0, a0, 8\naddi s11, s11, -1\nblt x0, s11, cell\n",
    // Each operation on registers, with the numbers that the cells came to.
    "mulh a1, s0, s6\nmulhsu a2, s0, s5\nmulhu a3, s0, s0\ndiv a4, s0, s10\nremu a5, s0, s7\ndivu a6, s6, a1\nrem a7, a1, a4\n",
    "mulw t3, s0, s10\ndivw t4, s0, s7\nremuw t5, s0, s7\ndivuw t6, s5, t3\nremw a0, t3, s7\nxor s0, s0, a1\nadd s0, s0, a2\n",
    "xor s0, s0, a3\nsll a1, a3, s10\nsrl a2, a3, s10\nsrai a3, a3, 5\nslt t1, a4, a2\nsltu t2, a1, a2\naddw a1, a1, t1\n",
    "subw a2, a2, t2\nand a1, a1, a3\nsllw a3, a3, s11\nsrlw t1, a4, s10\nsraw t2, a4, s10\nadd s0, s0, a1\nsub s0, s0, a2\n",
    "xor s0, s0, a3\nadd s0, s0, t1\nxor s0, s0, t2\nslli a1, s0, 7\nslliw a2, s0, 9\nsrliw a3, s0, 11\naddiw t1, s0, -77\n",
    "slti t2, a2, 5\nsltiu t0, a2, -5\nxori a1, a1, -1365\nori a2, a2, 0x111\nadd s0, s0, a1\nxor s0, s0, a2\nsub s0, s0, a3\n",
    "add s0, s0, t1\nsub s0, s0, t2\nsub s0, s0, t0\ncsrrs t0, mtvec, x0\nsub s0, s0, a4\nadd s0, s0, a5\nxor s0, s0, a6\n",
    "add s0, s0, a7\nsub s0, s0, t3\nxor s0, s0, t4\nadd s0, s0, t5\nxor s0, s0, t6\nadd s0, s0, a0\n",
    // A letter and the UART's registers, what it refuses, and two accesses that are misaligned.
    "addi a3, s10, 64\nsb a3, 0(s3)\nlbu a4, 5(s3)\nandi a4, a4, 0xdf\nlb a5, 0(s3)\nor a4, a4, a5\nadd s0, s0, a4\nlh a5, 0(s3)\n",
    "sw a3, 4(s3)\nlhu a5, 1(s1)\nsd a3, 4(s1)\naddi s10, s10, -1\nbne s10, x0, row\n",
    // The least number by -1, and by 0.
    "div a1, s6, s5\nrem a2, s6, s5\ndivw a3, s0, x0\nremw a4, s5, x0\ndivu a5, s0, x0\nremu a6, s0, x0\nxor s0, a1, a6\nadd s0, s0, a2\n",
    "sub s0, s0, a3\nxor s0, s0, a4\nadd s0, s0, a5\n",
    // The timer: both lines go up with no interrupt enabled, one comes down, and the clock has gone on.
    "sw s5, 0(s4)\nlw a1, 0(s4)\nld a1, 0(s4)\nlui a4, 0x2004\nld a2, 0(a4)\nslli a3, a1, 40\nsd a3, 0(a4)\nld a3, 0(a4)\n",
    "csrrs a5, mip, x0\nsd x0, 0(a4)\ncsrrs a6, mip, x0\nsw x0, 0(s4)\ncsrrs a7, mip, x0\nlui a4, 0x200c\nld t3, -8(a4)\nld t4, -8(a4)\n",
    "sltu t4, t4, t3\nsltu t3, x0, t3\nsd x0, -8(a4)\nlw t5, -4(a4)\nadd s0, s0, a1\nxor s0, s0, a2\nxor s0, s0, a3\nadd s0, s0, a5\n",
    "sub s0, s0, t4\nxor s0, s0, t3\nmul s0, s0, s7\nadd s0, s0, a6\nmul s0, s0, s7\nadd s0, s0, a7\n",
    // A wfi that doesn't sleep, what the exit device and nobody take, and words that trap.
    "csrrwi x0, mie, 8\ncsrrs x0, mie, s5\nwfi\nlw a1, 0(s8)\nsd s0, 0(s8)\nsw s0, 4(s8)\nlb a1, 0(x0)\nsd s0, 8(x0)\necall\nebreak\n",
    ".word 0\n.word 0xffffffff\ncsrrw a1, mhartid, x0\ncsrrs a1, 0xc00, x0\njal a1, .+6\nbeq a1, a1, .+-2\nbne a1, a1, .+2\n",
    "jalr a1, 3(t0)\n",
    // The registers of the hart.
    "csrrw x0, mscratch, s0\ncsrrsi a2, mscratch, 21\ncsrrci a3, mscratch, 6\ncsrrc a4, mscratch, s1\ncsrrs a5, misa, x0\n",
    "csrrs a6, mstatus, x0\ncsrrs a7, mhartid, x0\nxor s0, s0, a3\nadd s0, s0, a4\nsub s0, s0, a5\nxor s0, s0, a6\n",
    // Jumps out of RAM, accesses at its end, and a word stored there that is run: behind the first one there is none.
    "jalr ra, 0(s3)\njalr ra, -4(x0)\nlui a4, 16\nadd a4, a4, s1\naddi a4, a4, -2048\nld a1, 0(a4)\nsb a1, 0(a4)\njalr ra, 0(a4)\n",
    "lui a6, 0x140\naddi a6, a6, 0x413\nsw a6, -4(a4)\njalr ra, -4(a4)\nlui a6, 8\naddi a6, a6, 0x67\nsw a6, -4(a4)\njalr ra, -4(a4)\n",
    // Instructions that are stored over, whole, by halves and by bytes: with fence.i between, and just before they are run.
    "auipc a4, 0\naddi a5, x0, 12\nagain:\n.word 0\nlwu a6, 28(a4)\nadd a6, a6, s8\nsw a6, 28(a4)\nfence.i\naddi s0, s0, 7\n",
    "sub s0, s0, a6\nsw a6, 40(a4)\naddi s0, s0, 1\nsrli a7, a6, 16\naddi a7, a7, 16\nsh a7, 58(a4)\naddi s0, s0, 1\nsb a5, 67(a4)\n",
    "addi s0, s0, 0\nsw a6, 8(a4)\nmul s0, s0, s7\naddi a5, a5, -1\nbltu x0, a5, again\nfence\nsw s0, 0(s8)\n"
);

/// A machine by its model, its period, and what its parts take.
macro_rules! machine {
    (
        $model:literal, period $period:literal, corebus $corebus:literal, membus $membus:literal, mem $mem:literal, queue $queue:literal,
        uart $uart:literal, chartime $chartime:literal, exit $exit:literal
    ) => {
        concat!(
            "[system]\nline = 16\nmodel = \"",
            $model,
            "\"\nram = 65536\nbudget = 1000000\n[cpu]\nperiod = ",
            $period,
            "\n[corebus]\nlatency = ",
            $corebus,
            "\n[membus]\nlatency = ",
            $membus,
            "\n[mem]\nlatency = ",
            $mem,
            "\nqueue = ",
            $queue,
            "\n[uart]\nlatency = ",
            $uart,
            "\nchartime = ",
            $chartime,
            "\n[timer]\nlatency = 200\nperiod = 100\n[exit]\nlatency = ",
            $exit,
            "\n"
        )
    };
}

/// Nothing takes longer than a tick, so that much is due at one.
macro_rules! least {
    ($model:literal) => {
        machine!(
            $model, period "1", corebus "1", membus "1", mem "1", queue "1",
            uart "1", chartime "1", exit "1"
        )
    };
}

/// An access comes back within a period.
macro_rules! within_a_period {
    ($model:literal) => {
        machine!(
            $model, period "1000", corebus "100", membus "100", mem "500", queue "1",
            uart "200", chartime "1000", exit "50"
        )
    };
}

/// An access takes many periods, and no two things take equally long.
macro_rules! many_periods {
    ($model:literal) => {
        machine!(
            $model, period "7", corebus "13", membus "101", mem "1009", queue "1",
            uart "503", chartime "10007", exit "31"
        )
    };
}

/// Some of what there is takes as long as it may.
macro_rules! slow {
    ($model:literal) => {
        machine!(
            $model, period "300000", corebus "1000000", membus "3", mem "70000", queue "64",
            uart "2", chartime "1000000", exit "999999"
        )
    };
}

/// The files of the program that is run to the end on a machine, whose registers are then shown.
macro_rules! squares_on {
    ($config:expr) => {
        &[
            ("config", Text($config)),
            ("source", Text(SQUARES)),
            ("script", Text("run end\nregs\n")),
        ]
    };
}

/// What is reported: the tick, how many instructions and events the run had, and where pc is then.
macro_rules! squared {
    (at $at:literal, insts $insts:literal, events $events:literal, pc $pc:literal) => {
        concat!(
            "run exit 30 at ",
            $at,
            " insts ",
            $insts,
            " events ",
            $events,
            "\npc ",
            $pc,
            "\nx10 0000000010000000\nx11 0000000080000110\nx13 000000000000001e\nx14 0000000000000001\nx15 0000000000000041\n",
            "x16 0000000000000001\nx17 0000000000100000\nmstatus 0000000000001800\n"
        )
    };
}

/// What is reported in atomic mode.
macro_rules! squared_at_once {
    (at $at:literal, events $events:literal) => {
        squared!(at $at, insts "42", events $events, pc "000000008000003c")
    };
}

/// What is reported in timing mode.
macro_rules! squared_in_time {
    (at $at:literal, events $events:literal) => {
        squared!(at $at, insts "41", events $events, pc "0000000080000038")
    };
}

/// A call of the program, which sends four letters.
const SQUARED: Case = Case {
    console: b"DCBA",
    ..SILENT
};

static MODES: [Case; 8] = [
    Case {
        name: "least_in_atomic_mode",
        files: squares_on!(least!("atomic")),
        report: squared_at_once!(at "201", events "46"),
        ..SQUARED
    },
    Case {
        name: "least_in_timing_mode",
        files: squares_on!(least!("timing")),
        report: squared_in_time!(at "328", events "332"),
        ..SQUARED
    },
    Case {
        name: "within_a_period_in_atomic_mode",
        files: squares_on!(within_a_period!("atomic")),
        report: squared_at_once!(at "77900", events "46"),
        ..SQUARED
    },
    Case {
        name: "within_a_period_in_timing_mode",
        files: squares_on!(within_a_period!("timing")),
        report: squared_in_time!(at "55250", events "332"),
        ..SQUARED
    },
    Case {
        name: "many_periods_in_atomic_mode",
        // The last letter is still being sent as the run ends, so one event of the UART isn't served.
        files: squares_on!(many_periods!("atomic")),
        report: squared_at_once!(at "57789", events "45"),
        ..SQUARED
    },
    Case {
        name: "many_periods_in_timing_mode",
        files: squares_on!(many_periods!("timing")),
        report: squared_in_time!(at "65042", events "332"),
        ..SQUARED
    },
    Case {
        name: "slow_in_atomic_mode",
        files: squares_on!(slow!("atomic")),
        report: squared_at_once!(at "69030167", events "46"),
        ..SQUARED
    },
    Case {
        name: "slow_in_timing_mode",
        files: squares_on!(slow!("timing")),
        report: squared_in_time!(at "115700002", events "332"),
        ..SQUARED
    },
];

#[test]
fn both_models_come_to_the_same_whatever_time_takes(rt: HostRuntime) -> Result<(), Fail> {
    expect_assembled_and_run(&rt, &MODES)
}

/// The files of the tour on a machine, run to the end, whose registers are then shown.
macro_rules! tour_on {
    ($config:expr) => {
        &[
            ("config", Text($config)),
            ("source", Text(TOUR)),
            ("script", Text("run end\nregs\n")),
        ]
    };
}

/// What is reported of the tour: the tick, how many instructions and events the run had, and where pc is then.
macro_rules! toured {
    (at $at:literal, insts $insts:literal, events $events:literal, pc $pc:literal) => {
        concat!(
            "run exit 964914328 at ",
            $at,
            " insts ",
            $insts,
            " events ",
            $events,
            "\npc ",
            $pc,
            "\n",
            "x1 0000000080000344\nx5 0000000080000004\nx6 0000000000000001\nx7 0000000080000350\nx8 d005b75a39836c98\nx9 0000000080000800\n",
            "x10 0000000000000005\nx11 0000000000000001\nx12 a5ca1a931917d7f2\nx13 a5ca1a931917d7f7\nx14 0000000080000344\nx16 0000000001340413\n",
            "x17 0000000000000144\nx18 0000000000000030\nx19 0000000010000000\nx20 0000000002000000\nx21 ffffffffffffffff\nx22 8000000000000000\n",
            "x23 000000000000001f\nx24 0000000000100000\nx28 0000000000000001\nx30 0000000000000005\nx31 0000000000000004\n",
            "mstatus 0000000000001880\nmie 0000000000000888\nmip 0000000000000080\nmtvec 0000000080000004\nmscratch a5ca1a931917d7f1\n",
            "mepc 0000000080000350\nmcause 0000000000000002\n"
        )
    };
}

/// A call of the program, which sends six letters.
const TOURED: Case = Case {
    console: b"FEDCBA",
    ..SILENT
};

static TOURS: [Case; 4] = [
    Case {
        name: "tour_within_a_period_in_atomic_mode",
        files: tour_on!(within_a_period!("atomic")),
        report: toured!(at "4995650", insts "2634", events "2688", pc "00000000800003a0"),
        ..TOURED
    },
    Case {
        name: "tour_within_a_period_in_timing_mode",
        files: tour_on!(within_a_period!("timing")),
        report: toured!(at "3334250", insts "2633", events "19984", pc "000000008000039c"),
        ..TOURED
    },
    Case {
        name: "tour_many_periods_in_atomic_mode",
        files: tour_on!(many_periods!("atomic")),
        report: toured!(at "3724260", insts "2634", events "2688", pc "00000000800003a0"),
        ..TOURED
    },
    Case {
        name: "tour_many_periods_in_timing_mode",
        files: tour_on!(many_periods!("timing")),
        report: toured!(at "4093080", insts "2633", events "19984", pc "000000008000039c"),
        ..TOURED
    },
];

#[test]
fn every_instruction_comes_to_the_same_in_both_models(rt: HostRuntime) -> Result<(), Fail> {
    expect_assembled_and_run(&rt, &TOURS)
}
