// Which counter an entry raises, and the texts of counters and entries, worked by hand.
ghost use Rattle.std.specs.Prelude.{IfOk};
ghost use Rattle.cfg_tree.specs.Valid.{IsValidConfig};

use super::Counters;
use gc_base::{NoMemory, ObjId, PktId, SlotNo, Tick};
use gc_text::LineBuf;
use gm_words::{Config, Entry};
use std::alloc::Global;
use std::test::Fail;

/// A configuration with one cache.
const CONFIGURATION: &[u8] = b"\
    system = { line = 16, model = \"atomic\", ram = 65536, budget = 1000000 }\n\
    cpu = { period = 1000 }\n\
    corebus = { latency = 100 }\n\
    membus = { latency = 100 }\n\
    cache1 = { sets = 1, ways = 1, mshrs = 1, targets = 1, writeq = 1, latency = 10 }\n\
    mem = { latency = 500, queue = 1 }\n\
    uart = { latency = 200, chartime = 1000 }\n\
    timer = { latency = 200, period = 100 }\n\
    exit = { latency = 50 }\n";

fn configuration(alloc: Global) -> Result<Config, NoMemory>
    ensures { IfOk result (λ c. IsValidConfig c) }
{
    match cfg_tree::read(alloc, CONFIGURATION) {
        Ok(c) => Ok(c),
        Err(_) => Err(NoMemory),
    }
}

/// An access of the hart, by whether it writes, whether it is of a device, and whether it is refused.
fn served(write: bool, device: bool, fault: bool) -> Entry {
    Entry::Served {
        src: 1,
        id: PktId(7),
        write,
        addr: 0x1000_0000,
        size: 1,
        bytes: [0; 8],
        device,
        fault,
    }
}

/// The count of the part 1.
fn of_one(counts: &[u64]) -> u64 {
    counts.get(1).copied().unwrap_or(0)
}

/// All counters, after an event that notes this entry alone. Of the counters by part those of the part 1.
fn counted(alloc: Global, entry: &Entry) -> Result<[u64; 11], NoMemory> {
    let mut counters = Counters::new(alloc, &configuration(alloc)?)?;
    counters.event();
    counters.note(entry);
    Ok([
        counters.events,
        counters.retired,
        counters.sleeps,
        counters.traps,
        counters.device_reads,
        counters.device_writes,
        counters.ram_reads,
        counters.ram_writes,
        of_one(counters.hits.as_slice()),
        of_one(counters.misses.as_slice()),
        of_one(counters.refused.as_slice()),
    ])
}

#[test]
fn each_entry_raises_its_own_counter(rt: HostRuntime) -> Result<(), Fail> {
    let part = ObjId(1);
    let absent = ObjId(200);
    let cases = [
        (
            Entry::Retired { pc: 8, word: 19 },
            [1, 1, 0, 0, 0, 0, 0, 0, 0, 0, 0],
        ),
        (Entry::Slept, [1, 0, 1, 0, 0, 0, 0, 0, 0, 0, 0]),
        (
            Entry::Trapped { cause: 2, tval: 0 },
            [1, 0, 0, 1, 0, 0, 0, 0, 0, 0, 0],
        ),
        (
            served(false, true, false),
            [1, 0, 0, 0, 1, 0, 0, 0, 0, 0, 0],
        ),
        (served(true, true, false), [1, 0, 0, 0, 0, 1, 0, 0, 0, 0, 0]),
        (served(true, true, true), [1, 0, 0, 0, 0, 1, 0, 0, 0, 0, 0]),
        (
            served(false, false, false),
            [1, 0, 0, 0, 0, 0, 1, 0, 0, 0, 0],
        ),
        (
            served(true, false, false),
            [1, 0, 0, 0, 0, 0, 0, 1, 0, 0, 0],
        ),
        (
            Entry::Hit { object: part },
            [1, 0, 0, 0, 0, 0, 0, 0, 1, 0, 0],
        ),
        (
            Entry::Miss { object: part },
            [1, 0, 0, 0, 0, 0, 0, 0, 0, 1, 0],
        ),
        (
            Entry::Refused { object: part },
            [1, 0, 0, 0, 0, 0, 0, 0, 0, 0, 1],
        ),
        (
            Entry::Refused { object: absent },
            [1, 0, 0, 0, 0, 0, 0, 0, 0, 0, 0],
        ),
        (
            Entry::Line {
                bit: 7,
                level: true,
            },
            [1, 0, 0, 0, 0, 0, 0, 0, 0, 0, 0],
        ),
    ];
    for (entry, counters) in &cases {
        assert_eq!(rt; counted(rt.alloc(), entry)?, *counters, "{entry:?}");
    }
    Ok(())
}

/// The number of the part with a path.
fn part(counters: &Counters, path: &str) -> ObjId {
    for (place, part) in counters.parts.iter().enumerate() {
        if part.path == path {
            return ObjId(u8::try_from(place).unwrap_or(255));
        }
    }
    ObjId(255)
}

/// The line of an entry, or an empty one where it can't be traced.
fn line_of(counters: &Counters, e: &Entry) -> LineBuf {
    let mut line = LineBuf::new();
    let fits = match e {
        Entry::Served { src, size, .. } => *src <= 2 && *size <= 8,
        Entry::Hit { object } | Entry::Miss { object } | Entry::Refused { object } => {
            (object.0 as usize) < counters.parts.len()
        }
        _ => true,
    };
    if fits {
        counters.trace_line(e, &mut line);
    }
    line
}

/// An access of four bytes of RAM, by a source.
fn fetched(src: u8) -> Entry {
    Entry::Served {
        src,
        id: PktId(18_446_744_073_709_551_615),
        write: false,
        addr: 0x8000_0000,
        size: 4,
        bytes: [0x37, 5, 0, 0x10, 0, 0, 0, 0],
        device: false,
        fault: false,
    }
}

#[test]
fn each_entry_has_its_line(rt: HostRuntime) -> Result<(), Fail> {
    let alloc = rt.alloc();
    let counters = Counters::new(alloc, &configuration(alloc)?)?;
    let mem = part(&counters, "mem");
    let exit = part(&counters, "exit");
    let cases: [(Entry, &[u8]); 14] = [
        (
            fetched(0),
            b"served i 18446744073709551615 r 0000000080000000 4 ram 37050010\n",
        ),
        (
            fetched(2),
            b"served m 18446744073709551615 r 0000000080000000 4 ram 37050010\n",
        ),
        (
            served(false, true, false),
            b"served d 7 r 0000000010000000 1 dev 00\n",
        ),
        (
            served(true, false, false),
            b"served d 7 w 0000000010000000 1 ram 00\n",
        ),
        (
            served(true, true, true),
            b"served d 7 w 0000000010000000 1 dev 00 fault\n",
        ),
        (
            Entry::Retired {
                pc: 0x8000_0000,
                word: 0x1000_0537,
            },
            b"retired 0000000080000000 10000537\n",
        ),
        (
            Entry::Retired {
                pc: 0x8000_0014,
                word: 0x6f,
            },
            b"retired 0000000080000014 0000006f\n",
        ),
        (
            Entry::Trapped {
                cause: 0x8000_0000_0000_0007,
                tval: 0xabc,
            },
            b"trapped 8000000000000007 0000000000000abc\n",
        ),
        (
            Entry::Line {
                bit: 7,
                level: true,
            },
            b"line 7 1\n",
        ),
        (
            Entry::Line {
                bit: 11,
                level: false,
            },
            b"line 11 0\n",
        ),
        (Entry::Slept, b"slept\n"),
        (Entry::Hit { object: mem }, b"hit mem\n"),
        (Entry::Miss { object: mem }, b"miss mem\n"),
        (Entry::Refused { object: exit }, b"refused exit\n"),
    ];
    for (entry, wanted) in &cases {
        assert_eq!(rt; line_of(&counters, entry).bytes(), *wanted);
    }
    Ok(())
}

/// The line of an event of slot 1 at tick 9200, or an empty one where there is no such part.
fn head_of(counters: &Counters, object: ObjId) -> LineBuf {
    let mut line = LineBuf::new();
    if let Some(at) = Tick::new(9_200)
        && (object.0 as usize) < counters.parts.len()
    {
        counters.trace_head(at, object, SlotNo(1), &mut line);
    }
    line
}

/// Counters with a number in each, from a tick on.
fn filled(alloc: Global, since: Tick) -> Result<Counters, NoMemory> {
    let mut counters = Counters::new(alloc, &configuration(alloc)?)?;
    counters.retired = 2;
    counters.sleeps = 3;
    counters.traps = 5;
    counters.device_reads = 7;
    counters.device_writes = 11;
    counters.ram_reads = 13;
    counters.ram_writes = 17;
    counters.events = 19;
    counters.since = since;
    let mem = part(&counters, "mem").0 as usize;
    if let Some(count) = counters.refused.get_mut(mem) {
        *count = 23;
    }
    Ok(counters)
}

/// All lines at a tick, and the JSON object.
fn texts_of(alloc: Global, since: Tick, now: Tick) -> Result<(Vec<u8>, Vec<u8>), NoMemory> {
    let counters = filled(alloc, since)?;
    let mut text = Vec::new(alloc);
    if counters.since > now {
        return Ok((text, Vec::new(alloc)));
    }
    let mut line = LineBuf::new();
    for n in 0..22 {
        line.clear();
        if counters.text_line(n, now, &mut line) {
            text.extend_from_slice(line.bytes())?;
        }
    }
    let json = counters.json(alloc, now)?;
    Ok((text, json))
}

#[test]
fn the_counters_have_their_lines(rt: HostRuntime) -> Result<(), Fail> {
    let alloc = rt.alloc();
    let counters = Counters::new(alloc, &configuration(alloc)?)?;
    let timer = part(&counters, "timer");
    assert_eq!(rt;
        head_of(&counters, timer).bytes(),
        b"@9200 timer 1\n".as_slice()
    );
    let (Some(since), Some(now)) = (Tick::new(100), Tick::new(350)) else {
        assert!(rt; false);
        return Ok(());
    };
    let (text, json) = texts_of(alloc, since, now)?;
    assert_eq!(rt;
        text.as_slice(),
        b"cache1.hits 0\ncache1.misses 0\ncache1.refused 0\ncorebus.refused 0\ncpu.retired 2\n\
          cpu.sleeps 3\ncpu.traps 5\ndevice.reads 7\ndevice.writes 11\nmem.refused 23\n\
          membus.refused 0\nram.reads 13\nram.writes 17\nsim.events 19\nsim.ticks 250\n"
            .as_slice()
    );
    assert_eq!(rt;
        json.as_slice(),
        b"{\"cache1.hits\":0,\"cache1.misses\":0,\"cache1.refused\":0,\"corebus.refused\":0,\
          \"cpu.retired\":2,\"cpu.sleeps\":3,\"cpu.traps\":5,\"device.reads\":7,\"device.writes\":11,\
          \"mem.refused\":23,\"membus.refused\":0,\"ram.reads\":13,\"ram.writes\":17,\
          \"sim.events\":19,\"sim.ticks\":250}"
            .as_slice()
    );
    Ok(())
}
