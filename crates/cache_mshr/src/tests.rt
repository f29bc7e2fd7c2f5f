// Calls in order, with the answers that they have by the rule, by hand.
use crate::Mshrs;
use std::process::Abort;
use std::test::Fail;

/// A call, by the line that it is about, and its answer.
#[derive(Clone, Copy)]
enum Call {
    /// Opens a register, for which this packet waits first.
    Allot(u64, usize),
    Add(u64, usize),
    First(u64, Option<usize>),
    Target(u64, u32, Option<usize>),
    Close(u64),
    /// Whether a register is open for it.
    Find(u64, bool),
    Full(bool),
    Used(u32),
    /// Opens registers for so many lines from 0 on, each with so many targets: the first is 100 times the line, and each other one more.
    Fill(u8, u8),
    /// Takes these targets out in that order, and closes the registers, the last line's first.
    Serve(u8, u8),
}

use Call::{Add, Allot, Close, Fill, Find, First, Full, Serve, Target, Used};

fn allot(m: &mut Mshrs, line: u64, packet: usize) -> bool {
    if m.full() || m.find(line).is_some() {
        return false;
    }
    let reg = m.allot(line, packet);
    m.find(line) == Some(reg)
}

fn add(m: &mut Mshrs, line: u64, packet: usize) -> bool {
    if m.full() {
        return false;
    }
    let Some(reg) = m.find(line) else {
        return false;
    };
    m.add_target(reg, packet);
    true
}

fn first(m: &mut Mshrs, line: u64, want: Option<usize>) -> bool {
    match m.find(line) {
        Some(reg) => m.first(reg) == want,
        None => false,
    }
}

fn target(m: &Mshrs, line: u64, n: u32, want: Option<usize>) -> bool {
    match m.find(line) {
        Some(reg) => m.target(reg, n) == want,
        None => false,
    }
}

#[tactic(auto, using(crate::proofs::RegistersLemmas::none_left))]
fn close(m: &mut Mshrs, line: u64) -> bool {
    let Some(reg) = m.find(line) else {
        return false;
    };
    if m.target(reg, 0).is_some() {
        return false;
    }
    m.close(reg);
    m.find(line).is_none()
}

fn fill(m: &mut Mshrs, lines: u8, targets: u8) -> bool {
    for line in 0..lines {
        let from = 100 * line as usize;
        if !allot(m, line as u64, from) {
            return false;
        }
        for n in 1..targets {
            if !add(m, line as u64, from + n as usize) {
                return false;
            }
        }
    }
    true
}

fn serve(m: &mut Mshrs, lines: u8, targets: u8) -> bool {
    for served in 0..lines {
        let line = lines - 1 - served;
        for n in 0..targets {
            if !first(m, line as u64, Some(100 * line as usize + n as usize)) {
                return false;
            }
        }
        if !close(m, line as u64) {
            return false;
        }
    }
    true
}

/// Whether the call can be made, and has its answer.
fn goes(m: &mut Mshrs, call: Call) -> bool {
    match call {
        Allot(line, packet) => allot(m, line, packet),
        Add(line, packet) => add(m, line, packet),
        First(line, want) => first(m, line, want),
        Target(line, n, want) => target(m, line, n, want),
        Close(line) => close(m, line),
        Find(line, open) => m.find(line).is_some() == open,
        Full(full) => m.full() == full,
        Used(used) => m.used() == used,
        Fill(lines, targets) => fill(m, lines, targets),
        Serve(lines, targets) => serve(m, lines, targets),
    }
}

#[test]
fn calls_have_their_answers(rt: HostRuntime) -> Result<(), Fail> {
    let cases: [(u32, u32, &[Call]); 9] = [
        // None open, and one register with one target.
        (1, 1, &[Full(false), Used(0), Find(0, false)]),
        (
            1,
            1,
            &[
                Allot(64, 7),
                Full(true),
                Used(1),
                Find(64, true),
                Find(0, false),
            ],
        ),
        (
            1,
            1,
            &[
                Allot(64, 7),
                First(64, Some(7)),
                First(64, None),
                Full(true),
                Close(64),
                Full(false),
                Used(0),
            ],
        ),
        // A packet's key may be 0, and so may a line.
        (
            2,
            2,
            &[
                Allot(0, 0),
                Add(0, 0),
                First(0, Some(0)),
                First(0, Some(0)),
                First(0, None),
                Close(0),
            ],
        ),
        // Full by registers, and no more once one is closed.
        (
            2,
            4,
            &[
                Allot(16, 1),
                Full(false),
                Allot(32, 2),
                Full(true),
                First(16, Some(1)),
                Close(16),
                Full(false),
                Find(16, false),
                Find(32, true),
            ],
        ),
        // Full by targets, and no more once one is taken out. Targets that are read stay.
        (
            3,
            2,
            &[
                Allot(16, 1),
                Allot(32, 2),
                Add(32, 3),
                Full(true),
                Used(2),
                Target(32, 0, Some(2)),
                Target(32, 1, Some(3)),
                Target(32, 2, None),
                Target(32, 0, Some(2)),
                First(32, Some(2)),
                Full(false),
                Target(32, 0, Some(3)),
                Add(32, 4),
                First(32, Some(3)),
                First(32, Some(4)),
            ],
        ),
        // A register is used again, for another line and for the same one: nothing is left of what was there.
        (
            2,
            3,
            &[
                Allot(16, 1),
                Add(16, 2),
                Allot(32, 9),
                First(16, Some(1)),
                First(16, Some(2)),
                Close(16),
                Allot(48, 5),
                Find(16, false),
                Target(48, 0, Some(5)),
                Target(48, 1, None),
                First(32, Some(9)),
                Close(32),
                Allot(32, 6),
                First(32, Some(6)),
                First(32, None),
                Close(32),
                First(48, Some(5)),
                Used(1),
            ],
        ),
        // Many, served from the last line on.
        (
            16,
            16,
            &[
                Fill(15, 15),
                Serve(15, 15),
                Used(0),
                Fill(16, 1),
                Full(true),
                Serve(16, 1),
                Full(false),
            ],
        ),
        // As many as there may be: 15 with 15 targets, one more target, and a sixteenth register.
        (
            16,
            16,
            &[
                Fill(15, 15),
                Full(false),
                Used(15),
                Add(3, 315),
                Full(true),
                Target(3, 15, Some(315)),
                Target(3, 16, None),
                First(3, Some(300)),
                Full(false),
                Allot(99, 1),
                Full(true),
                Used(16),
                First(99, Some(1)),
                Close(99),
                Add(3, 300),
                First(3, Some(301)),
            ],
        ),
    ];
    for (n, (count, targets, calls)) in cases.iter().enumerate() {
        assert!(rt; *targets > 0 && *targets <= 16);
        let mut m = Mshrs::new(rt.alloc(), *count, *targets)?;
        for (k, call) in calls.iter().enumerate() {
            assert!(rt; goes(&mut m, *call), "case {n}, call {k}");
        }
    }
    Ok(())
}
