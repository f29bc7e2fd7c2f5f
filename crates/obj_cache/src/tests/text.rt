// Rows as text: what happens, and what comes of it.
ghost use Rattle.std.specs.Prelude.{◌≤◌};
ghost use Rattle.gm_words.specs.Allowed.{MayPass};

use crate::Cache;
use ev_queue::EventQueue;
use gc_base::{PktId, PortNo, SlotNo};
use gm_model::{Act, CacheConfig, Cmd, Entry, Packet, Wake, Way};
use obj_core::{Item, Outbox};
use std::alloc::AllocError;
use std::process::Abort;
use std::str::SplitWhitespace;

/// The next word of a row.
pub(super) fn word<'a>(rt: &impl Abort, row: &mut SplitWhitespace<'a>) -> &'a str {
    row.next().expect(rt, "a word")
}

/// The next number of a row.
pub(super) fn number(rt: &impl Abort, row: &mut SplitWhitespace<'_>) -> u64 {
    word(rt, row).parse::<u64>().expect(rt, "a number")
}

fn small(rt: &impl Abort, row: &mut SplitWhitespace<'_>) -> u8 {
    word(rt, row).parse::<u8>().expect(rt, "a small number")
}

fn address(rt: &impl Abort, row: &mut SplitWhitespace<'_>) -> u64 {
    u64::from_str_radix(word(rt, row), 16).expect(rt, "an address")
}

fn cmd(rt: &impl Abort, row: &mut SplitWhitespace<'_>) -> Cmd {
    match word(rt, row) {
        "Read" => Cmd::Read,
        "Write" => Cmd::Write,
        "WriteBack" => Cmd::WriteBack,
        "ReadResp" => Cmd::ReadResp,
        "WriteResp" => Cmd::WriteResp,
        word => panic!(rt; "no command {word}"),
    }
}

/// What a row says that a cache is configured with.
pub(super) fn config(rt: &impl Abort, row: &mut SplitWhitespace<'_>) -> CacheConfig {
    CacheConfig {
        sets: number(rt, row),
        ways: number(rt, row),
        mshrs: number(rt, row),
        targets: number(rt, row),
        writeq: number(rt, row),
        latency: number(rt, row),
    }
}

/// The packet of a row: a whole line is another cache's, and other packets are data accesses of the hart. Addresses from 80000000 on are
/// memory's. What it carries are bytes of which the first is its number and each other one more than that before it.
pub(super) fn packet(rt: &impl Abort, row: &mut SplitWhitespace<'_>) -> Packet
    ensures { MayPass result }
{
    let id = small(rt, row);
    let cmd = cmd(rt, row);
    let addr = address(rt, row);
    let size = small(rt, row);
    assert!(rt; size <= 64);
    packet_of(id, cmd, addr, size)
}

/// A packet of so many bytes.
pub(super) fn packet_of(id: u8, cmd: Cmd, addr: u64, size: u8) -> Packet
    requires { size ≤ 64 }
    ensures { MayPass result }
{
    let mut bytes = [0; 64];
    if cmd != Cmd::Read {
        for k in 0..size {
            bytes[k as usize] = id.wrapping_add(k);
        }
    }
    Packet {
        id: PktId(id as u64),
        src: if size == 16 { 5 } else { 1 },
        cmd,
        addr,
        size,
        bytes,
        uncached: addr < 0x8000_0000,
        fault: false,
        stack: [0; 8],
        depth: 0,
    }
}

/// The wake of a row whose verb was read.
pub(super) fn wake(rt: &impl Abort, verb: &str, row: &mut SplitWhitespace<'_>) -> Wake {
    let n = small(rt, row);
    let port = PortNo(n);
    match verb {
        "offer" => Wake::Offer {
            port,
            pkt: packet(rt, row),
        },
        "taken" => Wake::Taken { port },
        "refused" => Wake::Refused { port },
        "retry" => Wake::Retry { port },
        "event" => Wake::Event { slot: SlotNo(n) },
        verb => panic!(rt; "no wake {verb}"),
    }
}

/// Writes what a packet shows, with the first and the last of the bytes that it carries.
pub(super) fn put_packet(text: &mut String, p: &Packet) -> Result<(), AllocError> {
    write!(text, "{} {:?} {:x} {}", p.id.0, p.cmd, p.addr, p.size)?;
    let last = (p.size as usize).saturating_sub(1).min(63);
    match p.cmd {
        Cmd::Read | Cmd::WriteResp => Ok(()),
        Cmd::Write | Cmd::WriteBack | Cmd::ReadResp => {
            write!(text, " {} {}", p.bytes[0], p.bytes[last])
        }
    }
}

/// Writes what is asked for.
fn put_item(text: &mut String, item: &Item) -> Result<(), AllocError> {
    match item {
        Item::Sent {
            act: Act::Offer { port, pkt },
            ..
        } => {
            write!(text, "; offer {}: ", port.0)?;
            put_packet(text, pkt)
        }
        Item::Sent {
            act: Act::CallRetry { port },
            ..
        } => write!(text, "; call {}", port.0),
        _ => text.push_str("; other"),
    }
}

/// Writes what is noted.
fn put_entry(text: &mut String, entry: &Entry) -> Result<(), AllocError> {
    match entry {
        Entry::Hit { .. } => text.push_str("; hit"),
        Entry::Miss { .. } => text.push_str("; miss"),
        Entry::Refused { .. } => text.push_str("; refused"),
        Entry::Served {
            id,
            write,
            size,
            bytes,
            ..
        } => {
            let what = if *write { "write" } else { "read" };
            let last = (*size as usize).saturating_sub(1).min(7);
            write!(
                text,
                "; served {what} {} {} {}",
                id.0, bytes[0], bytes[last]
            )
        }
        _ => text.push_str("; other"),
    }
}

/// Writes what is in an outbox.
pub(super) fn put_outbox(text: &mut String, out: &mut Outbox) -> Result<(), AllocError> {
    for _ in 0..4 {
        if let Some(item) = out.first() {
            put_item(text, item)?;
            out.drop_first();
        }
    }
    for entry in out.entries() {
        put_entry(text, entry)?;
    }
    Ok(())
}

/// Writes which events are pending, in the order in which they are served.
pub(super) fn put_events(text: &mut String, queue: &EventQueue) -> Result<(), AllocError> {
    let mut before = ";";
    for n in 0..2u32 {
        if let Some(due) = queue.pending(n) {
            write!(text, "{before} {}@{}", due.slot.0, due.tick.get())?;
            before = "";
        }
    }
    Ok(())
}

/// Writes the lines of a set, the most recently used first, with the first and the last of their bytes.
pub(super) fn put_lines(text: &mut String, cache: &Cache, set: u32) -> Result<(), AllocError> {
    let mut before = "";
    for n in 0..16u32 {
        let mut bytes = [0; 64];
        if let Some(line) = cache.line(set, n, &mut bytes) {
            let state = if line.dirty { "dirty" } else { "clean" };
            write!(
                text,
                "{before}{:x} {state} {} {}",
                line.addr, bytes[0], bytes[15]
            )?;
            before = ", ";
        }
    }
    if before.is_empty() {
        text.push_str("none")?;
    }
    Ok(())
}

/// Writes what becomes of a packet that is passed.
pub(super) fn put_way(text: &mut String, way: Way) -> Result<(), AllocError> {
    match way {
        Way::Pass { port, latency } => write!(text, "Pass {} {latency}", port.0),
        Way::Done { latency } => write!(text, "Done {latency}"),
    }
}
