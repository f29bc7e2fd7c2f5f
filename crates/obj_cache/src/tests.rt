// Wakes of caches, with what the rule gives; and caches of all shapes.
mod bench;
mod text;

use bench::{Bench, is_valid};
use gc_base::{PortNo, Tick};
use gm_model::{Answer, CacheConfig, Cmd, Wake};
use obj_core::Outbox;
use std::alloc::Global;
use std::process::Abort;
use std::test::Fail;

/// Wakes of small caches of lines of 16 bytes, and what comes of them. The right sides are those of a plain interpreter, and were read beside
/// the rule.
///
/// A cache is told by its sets, ways, registers, targets, write places and latency. A row has a tick, what happens with its port or slot and
/// its packet, and behind ` = ` what comes of it: the answer, what is asked for, what is noted, the events that are pending then as
/// `slot@tick`, and `drained` where it is. A packet is its number, command, address and size, and the first and the last of the bytes that it
/// carries. The cache's own requests have the number 1.
static ROWS: [&str; 136] = [
    "cache 2 2 2 2 2 10",
    // A miss asks for its line by a request of its own, and a second access joins it. Its register is full then, so that a third is refused, twice.
    "0 offer 0 101 Read 80000004 4 = Taken; miss; 1@10",
    "1 offer 0 102 Write 80000008 4 = Taken; miss; 1@10",
    "2 offer 0 103 Read 10000000 4 = Refused; refused; 1@10",
    "3 offer 0 103 Read 10000000 4 = Refused; refused; 1@10",
    // An access that waits answers no read without time.
    "4 read 120 Read 80000008 4 = 120 Read 80000008 4; 1@10",
    "10 event 1 = Nothing; offer 1: 1 Read 80000000 16",
    "10 taken 1 = Nothing",
    "11 lines 0 = none",
    // The line comes: both are answered in order, and who was refused is called once.
    "12 offer 1 0 ReadResp 80000000 16 = Taken; call 0; served read 101 4 7; served write 102 102 105; 0@22",
    "12 lines 0 = 80000000 dirty 0 15; 0@22",
    "12 read 120 Read 80000000 4 = 120 ReadResp 80000000 4 0 3; 0@22",
    "12 read 120 Read 80000008 4 = 120 ReadResp 80000008 4 102 105; 0@22",
    "13 offer 0 103 Read 10000000 4 = Taken; 0@22 1@23",
    // Answers are offered one after another, each from its tick on, and again once it is called. What passes through is no access of a line.
    "22 event 0 = Nothing; offer 0: 101 ReadResp 80000004 4 4 7; 1@23",
    "22 refused 0 = Nothing; 1@23",
    "23 event 1 = Nothing; offer 1: 103 Read 10000000 4",
    "24 retry 0 = Nothing; offer 0: 101 ReadResp 80000004 4 4 7",
    "25 taken 0 = Nothing; 0@25",
    "25 event 0 = Nothing; offer 0: 102 WriteResp 80000008 4",
    "26 taken 0 = Nothing",
    "27 taken 1 = Nothing; drained",
    "30 offer 1 103 ReadResp 10000000 4 = Taken; 0@40",
    "40 event 0 = Nothing; offer 0: 103 ReadResp 10000000 4 103 106",
    "41 taken 0 = Nothing; drained",
    // A read that hits leaves the line clean or dirty as it is, a write makes it dirty, and each makes it the most recently used.
    "50 offer 0 104 Read 8000000c 4 = Taken; hit; served read 104 12 15; 0@60",
    "50 offer 0 105 Write 80000000 8 = Taken; hit; served write 105 105 112; 0@60",
    "50 lines 0 = 80000000 dirty 105 15; 0@60",
    "60 event 0 = Nothing; offer 0: 104 ReadResp 8000000c 4 12 15",
    "61 taken 0 = Nothing; 0@61",
    "61 event 0 = Nothing; offer 0: 105 WriteResp 80000000 8",
    "62 taken 0 = Nothing; drained",
    // Another line of the set comes, by a cache above that reads it whole; and one of the other set, both at one tick.
    "70 offer 0 106 Read 80000020 16 = Taken; miss; 1@80",
    "70 offer 0 107 Read 80000010 4 = Taken; miss; 1@80",
    "80 event 1 = Nothing; offer 1: 1 Read 80000020 16",
    "81 taken 1 = Nothing; 1@81",
    "81 event 1 = Nothing; offer 1: 1 Read 80000010 16",
    "82 taken 1 = Nothing",
    "90 offer 1 1 ReadResp 80000020 16 = Taken; 0@100",
    "90 offer 1 2 ReadResp 80000010 16 = Taken; served read 107 2 5; 0@100",
    "90 lines 0 = 80000020 clean 1 16, 80000000 dirty 105 15; 0@100",
    "90 lines 1 = 80000010 clean 2 17; 0@100",
    // Both queues at one tick: answers come first.
    "90 offer 0 108 Read 80000040 8 = Taken; miss; 0@100 1@100",
    "100 event 0 = Nothing; offer 0: 106 ReadResp 80000020 16 1 16; 1@100",
    "100 event 1 = Nothing; offer 1: 1 Read 80000040 16",
    "100 taken 0 = Nothing; 0@100",
    "100 event 0 = Nothing; offer 0: 107 ReadResp 80000010 4 2 5",
    "101 taken 1 = Nothing",
    "101 taken 0 = Nothing",
    // A full set: the dirty line, used least recently, leaves as a write-back of its bytes, behind what was to be sent.
    "105 offer 0 109 Read 10000004 4 = Taken; 1@115",
    "110 offer 1 3 ReadResp 80000040 16 = Taken; served read 108 3 10; 1@115 0@120",
    "110 lines 0 = 80000040 clean 3 18, 80000020 clean 1 16; 1@115 0@120",
    // The write-back in the queue has the newest bytes of its line.
    "111 read 120 Read 80000004 4 = 120 ReadResp 80000004 4 109 112; 1@115 0@120",
    // One write place is left, and there must be one for a line more: a register can be opened, and no second one.
    "112 offer 0 110 Write 80000060 8 = Taken; miss; 1@115 0@120",
    "113 offer 0 111 Read 80000044 4 = Refused; refused; 1@115 0@120",
    "115 event 1 = Nothing; offer 1: 109 Read 10000004 4; 0@120",
    "116 taken 1 = Nothing; 0@120 1@120",
    "120 event 0 = Nothing; offer 0: 108 ReadResp 80000040 8 3 10; 1@120",
    "120 event 1 = Nothing; offer 1: 1 WriteBack 80000000 16 105 15",
    "121 taken 0 = Nothing",
    "122 taken 1 = Nothing; call 0; 1@122",
    "122 event 1 = Nothing; offer 1: 1 Read 80000060 16",
    "123 taken 1 = Nothing",
    "123 offer 0 111 Read 80000044 4 = Taken; hit; served read 111 7 10; 0@133",
    // A clean line leaves without a word.
    "130 offer 1 5 ReadResp 80000060 16 = Taken; served write 110 110 117; 0@133",
    "130 lines 0 = 80000060 dirty 110 20, 80000040 clean 3 18; 0@133",
    "133 event 0 = Nothing; offer 0: 111 ReadResp 80000044 4 7 10",
    "134 taken 0 = Nothing; 0@140",
    "140 event 0 = Nothing; offer 0: 110 WriteResp 80000060 8",
    "141 taken 0 = Nothing; drained",
    // A write-back: its bytes are the line's, which is dirty and the most recently used.
    "150 offer 0 112 WriteBack 80000040 16 = Taken; drained",
    "150 lines 0 = 80000040 dirty 112 127, 80000060 dirty 110 20; drained",
    // Without the line it is the line, which comes as dirty. The dirty one that leaves for it is written back.
    "151 offer 0 113 WriteBack 80000000 16 = Taken; 1@161",
    "151 lines 0 = 80000000 dirty 113 128, 80000040 dirty 112 127; 1@161",
    "161 event 1 = Nothing; offer 1: 1 WriteBack 80000060 16 110 20",
    "162 taken 1 = Nothing; drained",
    // While the line is on its way it waits for it, beside an access, and takes its place in turn.
    "170 offer 0 114 Read 80000090 4 = Taken; miss; 1@180",
    "171 offer 0 115 WriteBack 80000090 16 = Taken; 1@180",
    "172 read 120 Read 80000092 4 = 120 ReadResp 80000092 4 117 120; 1@180",
    "172 read 120 Read 800000a0 4 = 120 Read 800000a0 4; 1@180",
    "180 event 1 = Nothing; offer 1: 1 Read 80000090 16",
    "181 taken 1 = Nothing",
    "182 offer 1 7 ReadResp 80000090 16 = Taken; served read 114 7 10; 0@192",
    "182 lines 1 = 80000090 dirty 115 130, 80000010 clean 2 17; 0@192",
    "192 event 0 = Nothing; offer 0: 114 ReadResp 80000090 4 7 10",
    "193 taken 0 = Nothing; drained",
    // Once its lines are forgotten, it has none, and holds nothing.
    "200 lines 1 = 80000090 dirty 115 130, 80000010 clean 2 17; drained",
    "200 invalidate = done; drained",
    "200 lines 0 = none; drained",
    "200 lines 1 = none; drained",
    "200 pass 1 = Pass 1 0; drained",
    "cache 1 2 2 16 8 5",
    // Sixteen wait for one line, and are answered in the order in which they came, each seeing the writes before it.
    "0 offer 0 1 Read 80000000 4 = Taken; miss; 1@5",
    "0 offer 0 2 Write 80000000 4 = Taken; miss; 1@5",
    "0 offer 0 3 Read 80000000 4 = Taken; miss; 1@5",
    "0 offer 0 4 Write 80000004 4 = Taken; miss; 1@5",
    "0 offer 0 5 Read 80000004 4 = Taken; miss; 1@5",
    "0 offer 0 6 Read 80000000 16 = Taken; miss; 1@5",
    "0 offer 0 7 WriteBack 80000000 16 = Taken; 1@5",
    "0 offer 0 8 Read 80000000 8 = Taken; miss; 1@5",
    "0 offer 0 9 Write 80000008 8 = Taken; miss; 1@5",
    "0 offer 0 10 Read 80000008 8 = Taken; miss; 1@5",
    "0 offer 0 11 Write 80000000 1 = Taken; miss; 1@5",
    "0 offer 0 12 Read 80000000 2 = Taken; miss; 1@5",
    "0 offer 0 13 Read 80000001 1 = Taken; miss; 1@5",
    "0 offer 0 14 Write 80000001 1 = Taken; miss; 1@5",
    "0 offer 0 15 Read 80000000 4 = Taken; miss; 1@5",
    "0 offer 0 16 Read 80000000 8 = Taken; miss; 1@5",
    "1 offer 0 17 Read 80000010 4 = Refused; refused; 1@5",
    "5 event 1 = Nothing; offer 1: 1 Read 80000000 16",
    "6 taken 1 = Nothing",
    "7 offer 1 0 ReadResp 80000000 16 = Taken; call 0; served read 1 0 3; served write 2 2 5; served read 3 2 5; served write 4 4 7; served read 5 4 7; served read 8 7 14; served write 9 9 16; served read 10 9 16; served write 11 11 11; served read 12 11 8; served read 13 8 8; served write 14 14 14; served read 15 11 10; served read 16 11 14; 0@12",
    "8 lines 0 = 80000000 dirty 11 16; 0@12",
    "12 event 0 = Nothing; offer 0: 1 ReadResp 80000000 4 0 3",
    "13 taken 0 = Nothing; 0@13",
    "13 event 0 = Nothing; offer 0: 2 WriteResp 80000000 4",
    "14 taken 0 = Nothing; 0@14",
    "cache 1 1 4 4 8 5",
    // One way: a write-back drives another out. The line that left is asked for again, behind its own write-back, whose bytes are the newest
    // until a newer write-back waits for the line.
    "0 offer 0 1 WriteBack 80000000 16 = Taken; drained",
    "0 offer 0 2 WriteBack 80000010 16 = Taken; 1@5",
    "1 offer 0 3 Read 80000000 4 = Taken; miss; 1@5",
    "2 read 120 Read 80000004 4 = 120 ReadResp 80000004 4 5 8; 1@5",
    "3 offer 0 4 WriteBack 80000000 16 = Taken; 1@5",
    "4 read 120 Read 80000004 4 = 120 ReadResp 80000004 4 8 11; 1@5",
    "5 event 1 = Nothing; offer 1: 1 WriteBack 80000000 16 1 16",
    "5 taken 1 = Nothing; 1@6",
    "6 event 1 = Nothing; offer 1: 1 Read 80000000 16",
    "7 refused 1 = Nothing",
    "8 retry 1 = Nothing; offer 1: 1 Read 80000000 16",
    "9 taken 1 = Nothing",
    "10 offer 1 1 ReadResp 80000000 16 = Taken; served read 3 1 4; 0@15 1@15",
    "10 lines 0 = 80000000 dirty 4 19; 0@15 1@15",
    "15 event 0 = Nothing; offer 0: 3 ReadResp 80000000 4 1 4; 1@15",
    "15 event 1 = Nothing; offer 1: 1 WriteBack 80000010 16 2 17",
    "16 taken 0 = Nothing",
    "16 taken 1 = Nothing; drained",
];

/// What comes of a row.
fn came_of(rt: &impl Abort, alloc: Global, bench: &mut Bench, given: &str) -> Result<String, Fail> {
    let mut row = given.split_whitespace();
    let now = Tick::new(text::number(rt, &mut row)).expect(rt, "a tick");
    let mut came = String::new(alloc);
    let mut out = Outbox::new(alloc)?;
    out.fresh();
    match text::word(rt, &mut row) {
        "pass" => text::put_way(&mut came, bench.part.pass())?,
        "read" => {
            let mut p = text::packet(rt, &mut row);
            bench.part.read(&mut p);
            text::put_packet(&mut came, &p)?;
        }
        "lines" => {
            let set = text::number(rt, &mut row).min(1_023) as u32;
            text::put_lines(&mut came, &bench.part, set)?;
        }
        "invalidate" => {
            bench.part.invalidate();
            came.push_str("done")?;
        }
        verb => {
            let wake = text::wake(rt, verb, &mut row);
            if let Wake::Event { slot } = wake {
                let due = bench.queue.pop();
                assert_eq!(rt; due.map(|d| (d.slot, d.tick)), Some((slot, now)));
            }
            let answer = bench.wake(rt, now, &wake, &mut out);
            write!(came, "{answer:?}")?;
        }
    }
    text::put_outbox(&mut came, &mut out)?;
    text::put_events(&mut came, &bench.queue)?;
    if bench.part.is_drained() {
        came.push_str("; drained")?;
    }
    Ok(came)
}

/// A cache of lines of 16 bytes, by a row.
fn cache_of(rt: &impl Abort, alloc: Global, words: &str) -> Result<Bench, Fail> {
    let config = text::config(rt, &mut words.split_whitespace());
    assert!(rt; is_valid(&config));
    Ok(Bench::new(rt, alloc, 16, &config)?)
}

#[test]
fn caches_go_by_the_rule(rt: HostRuntime) -> Result<(), Fail> {
    let mut bench = cache_of(&rt, rt.alloc(), "1 1 1 1 1 1")?;
    for row in &ROWS {
        if let Some(words) = row.strip_prefix("cache ") {
            bench = cache_of(&rt, rt.alloc(), words)?;
        } else {
            let (given, gives) = row.split_once(" = ").expect(&rt, "a row");
            let came = came_of(&rt, rt.alloc(), &mut bench, given)?;
            assert_eq!(rt; came.as_str(), gives, "{row}");
        }
    }
    Ok(())
}

/// The size of lines, the sets, ways, registers, targets, write places and latency of caches.
static SHAPES: [(u32, [u64; 6]); 7] = [
    (16, [1, 1, 1, 1, 1, 1]),
    (32, [1, 16, 16, 16, 64, 1_000_000]),
    (64, [1_024, 16, 16, 16, 64, 10]),
    (64, [1_024, 1, 1, 1, 64, 1]),
    (16, [1_024, 2, 16, 1, 17, 3]),
    (32, [2, 16, 1, 16, 2, 1]),
    (16, [64, 4, 8, 16, 5, 20]),
];

/// A cache of a shape.
fn shaped(rt: &impl Abort, alloc: Global, line: u32, numbers: &[u64; 6]) -> Result<Bench, Fail> {
    let config = CacheConfig {
        sets: numbers[0],
        ways: numbers[1],
        mshrs: numbers[2],
        targets: numbers[3],
        writeq: numbers[4],
        latency: numbers[5],
    };
    assert!(rt; is_valid(&config));
    assert!(rt; line == 16 || line == 32 || line == 64);
    Ok(Bench::new(rt, alloc, line, &config)?)
}

/// The answer to a request of so many bytes at an offset in memory, at tick 0.
fn offered(
    rt: &impl Abort,
    alloc: Global,
    bench: &mut Bench,
    cmd: Cmd,
    offset: u64,
    size: u32,
) -> Result<Answer, Fail> {
    assert!(rt; size <= 64 && offset < 0x1_0000_0000);
    let pkt = text::packet_of(1, cmd, 0x8000_0000 + offset, size as u8);
    let mut out = Outbox::new(alloc)?;
    let start = Tick::new(0).expect(rt, "a tick");
    let wake = Wake::Offer {
        port: PortNo(0),
        pkt,
    };
    Ok(bench.wake(rt, start, &wake, &mut out))
}

/// How many reads are taken, each so far behind the one before it, until one is refused.
fn taken(rt: &impl Abort, alloc: Global, bench: &mut Bench, step: u32) -> Result<u64, Fail> {
    for n in 0..32u64 {
        if offered(rt, alloc, bench, Cmd::Read, n * step as u64, 4)? == Answer::Refused {
            return Ok(n);
        }
    }
    Ok(32)
}

/// A set takes as many lines as it has ways, written back one after another; the next drives the first out, which takes a write place.
fn check_lines(rt: &impl Abort, alloc: Global, line: u32, numbers: &[u64; 6]) -> Result<(), Fail> {
    let mut bench = shaped(rt, alloc, line, numbers)?;
    let step = numbers[0].saturating_mul(line as u64);
    let ways = numbers[1].min(16);
    for n in 0..ways + 1 {
        assert!(rt; bench.part.is_drained());
        let answer = offered(
            rt,
            alloc,
            &mut bench,
            Cmd::WriteBack,
            step.saturating_mul(n),
            line,
        )?;
        assert_eq!(rt; answer, Answer::Taken);
    }
    assert!(rt; !bench.part.is_drained());
    let mut bytes = [0; 64];
    for n in 0..ways + 1 {
        let told = bench
            .part
            .line(0, n as u32, &mut bytes)
            .map(|l| (l.addr, l.dirty));
        let addr = step.saturating_mul(ways - n).saturating_add(0x8000_0000);
        assert_eq!(rt; told, if n < ways { Some((addr, true)) } else { None });
    }
    let asks = offered(rt, alloc, &mut bench, Cmd::Read, 0, 4)?;
    let is_refused = asks == Answer::Refused;
    assert_eq!(rt; is_refused, numbers[4] == 1);
    Ok(())
}

#[test]
fn caches_of_all_shapes(rt: HostRuntime) -> Result<(), Fail> {
    for (line, numbers) in &SHAPES {
        check_lines(&rt, rt.alloc(), *line, numbers)?;
        let [_, _, mshrs, targets, writeq, _] = *numbers;
        let mut bench = shaped(&rt, rt.alloc(), *line, numbers)?;
        // Each line that is on its way has a register, and a write place is kept for it.
        let opened = if targets == 1 { 1 } else { mshrs.min(writeq) };
        assert_eq!(rt; taken(&rt, rt.alloc(), &mut bench, *line)?, opened);
        // The first waits for a register, and the others for one of its places.
        let joined = if mshrs == 1 || writeq == 1 {
            1
        } else {
            targets
        };
        let mut bench = shaped(&rt, rt.alloc(), *line, numbers)?;
        assert_eq!(rt; taken(&rt, rt.alloc(), &mut bench, 0)?, joined);
    }
    Ok(())
}
