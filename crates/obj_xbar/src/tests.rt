// Wakes of the platform's two crossbars, with what the rule gives, worked out by hand; and a blank crossbar, boxed.
mod bench;
mod text;

use crate::Xbar;
use bench::Bench;
use gc_base::Tick;
use gm_model::{Kind, Wake};
use obj_core::{Outbox, SimObject};
use std::alloc::Global;
use std::process::Abort;
use std::test::Fail;

/// The wakes of `corebus`, which fetches (port 0), data accesses (1) and responses (3) reach and nobody from port 2, and of
/// `membus`, whose ports are its source (0), RAM (1), the UART (2), the timer (3) and the exit device (4).
///
/// The first rows are of `corebus`, and those below its name of `membus`. A row has a tick, what happens with its port or slot and
/// its packet, and behind ` = ` what comes of it: the answer, what is asked for, whether a refusal was noted, the events that are
/// pending then as `slot@tick`, and `drained` where it is. A packet is its number, command and address, the ports that it came by,
/// and, where it comes out, two of its bytes, the first and the eighth: those of a new one are its number and the seven that follow it.
static ROWS: [&str; 95] = [
    // The fetch is in the layer of port 3; a data access is refused twice and waits once, and a packet of nobody's behind it.
    "10 offer 0 1 Read 80000000 - = Taken; 0@110",
    "20 offer 1 2 Read 80000010 - = Refused; noted; 0@110",
    "30 offer 1 2 Read 80000010 - = Refused; noted; 0@110",
    "40 offer 2 3 Write 10000000 - = Refused; noted; 0@110",
    "110 event 0 = Nothing; offer 3: 1 Read 80000000 [0] 1 8",
    // It is refused, and offered again once it is called, and not twice.
    "115 refused 3 = Nothing",
    "120 retry 3 = Nothing; offer 3: 1 Read 80000000 [0] 1 8",
    "120 retry 3 = Nothing",
    // The first that waits is called. Another is quicker at the same tick, so that it is refused again and waits behind the second.
    "130 taken 3 = Nothing; call 1",
    "130 offer 0 4 WriteBack 80000040 - = Taken; 0@230",
    "130 offer 1 2 Read 80000010 - = Refused; noted; 0@230",
    // A write-back that is held answers a read of its bytes, as far as it has them.
    "131 read 20 Read 80000040 - = 20 ReadResp 80000040 [] 4 11; 0@230",
    "131 read 20 Read 80000044 - = 20 ReadResp 80000044 [] 8 27; 0@230",
    "131 read 20 Read 80000048 - = 20 Read 80000048 [] 20 27; 0@230",
    // Responses go by the port that stands on top: to port 0 into the one place of its layer, and to port 1.
    "140 offer 3 1 ReadResp 80000000 0 = Taken; 0@230 1@240",
    "150 offer 3 9 WriteResp 80000020 0 = Refused; noted; 0@230 1@240",
    "160 offer 3 5 ReadResp 80000030 1 = Taken; 0@230 1@240 2@260",
    "230 event 0 = Nothing; offer 3: 4 WriteBack 80000040 [0] 4 11; 1@240 2@260",
    "230 taken 3 = Nothing; call 2; 1@240 2@260",
    "230 offer 2 3 Write 10000000 - = Taken; 1@240 2@260 0@330",
    "240 event 1 = Nothing; offer 0: 1 ReadResp 80000000 [] 1 8; 2@260 0@330",
    "240 taken 0 = Nothing; call 3; 2@260 0@330",
    "240 offer 3 9 WriteResp 80000020 0 = Taken; 2@260 0@330 1@340",
    "260 event 2 = Nothing; offer 1: 5 ReadResp 80000030 [] 5 12; 0@330 1@340",
    "261 taken 1 = Nothing; 0@330 1@340",
    "330 event 0 = Nothing; offer 3: 3 Write 10000000 [2] 3 10; 1@340",
    "331 taken 3 = Nothing; call 1; 1@340",
    "340 event 1 = Nothing; offer 0: 9 WriteResp 80000020 [] 9 16",
    "340 taken 0 = Nothing; drained",
    // Where no requests come in by the port on top, the response goes to the first by which they do; and before a request at one tick.
    "341 offer 1 2 Read 80000010 - = Taken; 0@441",
    "341 offer 3 3 WriteResp 10000000 2 = Taken; 1@441 0@441",
    "441 event 1 = Nothing; offer 0: 3 WriteResp 10000000 [] 3 10; 0@441",
    "441 event 0 = Nothing; offer 3: 2 Read 80000010 [1] 2 9",
    "450 pass 22 Read 10000005 - = Pass 3 100; 22 Read 10000005 [] 22 29",
    "membus",
    // Each address has its layer, from the first to the last; 90000000 and 10001000 have none, and one layer between them.
    "0 offer 0 1 Read 80000000 1 = Taken; 0@20",
    "0 offer 0 2 Read 10000fff 1 = Taken; 0@20 1@20",
    "1 offer 0 3 Read 200bff8 1 = Taken; 0@20 1@20 2@21",
    "2 offer 0 4 Write 100000 1 = Taken; 0@20 1@20 2@21 3@22",
    "3 offer 0 5 Read 90000000 1 = Taken; 0@20 1@20 2@21 3@22 5@23",
    "4 offer 0 6 Write 10001000 1 = Refused; noted; 0@20 1@20 2@21 3@22 5@23",
    "5 offer 0 7 Read 80000fff 1 = Refused; noted; 0@20 1@20 2@21 3@22 5@23",
    "6 offer 1 8 ReadResp 80000000 10 = Taken; 0@20 1@20 2@21 3@22 5@23 6@26",
    "7 offer 2 9 WriteResp 10000000 10 = Refused; noted; 0@20 1@20 2@21 3@22 5@23 6@26",
    "20 event 0 = Nothing; offer 1: 1 Read 80000000 [1, 0] 1 8; 1@20 2@21 3@22 5@23 6@26",
    "20 event 1 = Nothing; offer 2: 2 Read 10000fff [1, 0] 2 9; 2@21 3@22 5@23 6@26",
    "21 event 2 = Nothing; offer 3: 3 Read 200bff8 [1, 0] 3 10; 3@22 5@23 6@26",
    "22 event 3 = Nothing; offer 4: 4 Write 100000 [1, 0] 4 11; 5@23 6@26",
    // The layer of responses is busy: the refused request waits for it behind port 2 and before port 3, and comes in between.
    "23 event 5 = Nothing; 6@26",
    "24 offer 3 10 ReadResp 2000000 10 = Refused; noted; 6@26",
    "26 event 6 = Nothing; offer 0: 8 ReadResp 80000000 [1] 8 15",
    "27 taken 0 = Nothing; call 2",
    "27 offer 2 9 WriteResp 10000000 10 = Taken; 6@47",
    "47 event 6 = Nothing; offer 0: 9 WriteResp 10000000 [1] 9 16",
    "48 taken 0 = Nothing; call 0; 6@68",
    "48 offer 0 6 Write 10001000 1 = Taken; 6@68 5@68",
    "68 event 6 = Nothing; offer 0: 5 ReadResp 90000000 [1] fault 0 0; 5@68",
    "68 event 5 = Nothing",
    "69 refused 0 = Nothing",
    "70 retry 0 = Nothing; offer 0: 5 ReadResp 90000000 [1] fault 0 0",
    "70 taken 0 = Nothing; call 3",
    "71 offer 3 10 ReadResp 2000000 10 = Taken; 6@91",
    "91 event 6 = Nothing; offer 0: 10 ReadResp 2000000 [1] 10 17",
    "91 taken 0 = Nothing; 6@111",
    // A write-back of no port answers reads as long as it is held, and ends there; who waits is called.
    "100 offer 0 12 WriteBack f0000000 - = Taken; 6@111 5@120",
    "101 read 20 Read f0000002 - = 20 ReadResp f0000002 [] 14 27; 6@111 5@120",
    "111 event 6 = Nothing; offer 0: 6 WriteResp 10001000 [1] fault 6 13; 5@120",
    "112 taken 0 = Nothing; 5@120",
    "115 offer 0 13 Read 0 1 = Refused; noted; 5@120",
    "120 event 5 = Nothing; call 0",
    // Where the layer of responses is idle, a refused request goes there at once.
    "121 offer 0 13 Read 0 1 = Taken; 5@141",
    "141 event 5 = Nothing; 6@161",
    "161 event 6 = Nothing; offer 0: 13 ReadResp 0 [1] fault 0 0",
    "161 taken 0 = Nothing",
    "162 taken 1 = Nothing; call 0",
    "163 taken 2 = Nothing",
    "163 taken 3 = Nothing",
    "163 taken 4 = Nothing; drained",
    "164 pass 21 Write 10000000 1 = Pass 2 20; 21 Write 10000000 [1] 21 28; drained",
    "165 pass 22 Read 90000000 1 = Done 20; 22 ReadResp 90000000 [1] fault 0 0; drained",
    "166 pass 23 Write 7fffffff 1 = Done 20; 23 WriteResp 7fffffff [1] fault 23 30; drained",
    // A stack that is full stays as it is.
    "170 offer 0 30 Read 80000000 12345670 = Taken; 0@190",
    "190 event 0 = Nothing; offer 1: 30 Read 80000000 [1, 2, 3, 4, 5, 6, 7, 0] 30 37",
    // Three offers at one tick, by ports 2, 0 and 1 in turn: one is taken, and the others wait in the order in which they were refused.
    "corebus",
    "1000 offer 2 1 Read 80000000 - = Taken; 0@1100",
    "1000 offer 0 2 Read 80000004 - = Refused; noted; 0@1100",
    "1000 offer 1 3 Read 80000008 - = Refused; noted; 0@1100",
    "1100 event 0 = Nothing; offer 3: 1 Read 80000000 [2] 1 8",
    "1100 taken 3 = Nothing; call 0",
    "1100 offer 0 2 Read 80000004 - = Taken; 0@1200",
    "1200 event 0 = Nothing; offer 3: 2 Read 80000004 [0] 2 9",
    "1200 taken 3 = Nothing; call 1; drained",
    "1200 offer 1 3 Read 80000008 - = Taken; 0@1300",
    "1300 event 0 = Nothing; offer 3: 3 Read 80000008 [1] 3 10",
    "1300 taken 3 = Nothing; drained",
];

/// What comes of a row.
fn came_of(rt: &impl Abort, alloc: Global, bench: &mut Bench, given: &str) -> Result<String, Fail> {
    let mut row = given.split_whitespace();
    let now = Tick::new(text::number(rt, &mut row)).expect(rt, "a tick");
    let mut came = String::new(alloc);
    let mut out = Outbox::new(alloc)?;
    match text::word(rt, &mut row) {
        "pass" => {
            let mut p = text::packet(rt, &mut row);
            let way = bench.pass(rt, now, &mut p, &mut out);
            text::put_way(&mut came, way)?;
            text::put_packet(&mut came, &p)?;
        }
        "read" => {
            let mut p = text::packet(rt, &mut row);
            bench.part.functional(&mut p);
            text::put_packet(&mut came, &p)?;
        }
        verb => {
            let wake = text::wake(rt, verb, &mut row);
            if let Wake::Event { slot } = wake {
                let due = bench.queue.pop();
                assert_eq!(rt; due.map(|d| (d.slot, d.tick)), Some((slot, now)));
            }
            let answer = bench.wake(rt, now, wake, &mut out);
            write!(came, "{answer:?}")?;
        }
    }
    text::put_outbox(&mut came, &mut out)?;
    text::put_events(&mut came, &bench.queue)?;
    if bench.part.drained() {
        came.push_str("; drained")?;
    }
    Ok(came)
}

#[test]
fn crossbars_go_by_the_rule(rt: HostRuntime) -> Result<(), Fail> {
    let mut bench = Bench::corebus(&rt, rt.alloc())?;
    for row in &ROWS {
        if *row == "corebus" {
            bench = Bench::corebus(&rt, rt.alloc())?;
        } else if *row == "membus" {
            bench = Bench::membus(&rt, rt.alloc())?;
        } else {
            let (given, gives) = row.split_once(" = ").expect(&rt, "a row");
            let came = came_of(&rt, rt.alloc(), &mut bench, given)?;
            assert_eq!(rt; came.as_str(), gives, "{row}");
        }
    }
    Ok(())
}

// By the rule: it holds nothing, keeps no bytes and has no hart.
#[test]
fn a_blank_crossbar_is_a_part(rt: HostRuntime) -> Result<(), Fail> {
    let mut boxed: Box<dyn SimObject> = Box::new(rt.alloc(), Xbar::blank())?;
    assert_eq!(rt; boxed.kind(), Kind::Xbar);
    assert!(rt; boxed.drained());
    assert!(rt; !boxed.input(b'a'));
    assert!(rt; boxed.arch().is_none());
    assert_eq!(rt; boxed.exit_code(), None);
    Ok(())
}
