// Rows as text: what happens, and what comes of it.
ghost use Rattle.gm_words.specs.Allowed.{MayPass};

use ev_queue::EventQueue;
use gc_base::{PktId, PortNo, SlotNo};
use gm_model::{Act, Cmd, Packet, Wake, Way};
use obj_core::{Item, Outbox};
use std::alloc::AllocError;
use std::process::Abort;
use std::str::SplitWhitespace;

/// The next word of a row.
pub(super) fn word<'a>(rt: &impl Abort, row: &mut SplitWhitespace<'a>) -> &'a str {
    row.next().expect(rt, "a word")
}

/// The next number of a row.
pub(super) fn number(rt: &impl Abort, row: &mut SplitWhitespace<'_>) -> u64 {
    word(rt, row).parse::<u64>().expect(rt, "a number")
}

fn small(rt: &impl Abort, row: &mut SplitWhitespace<'_>) -> u8 {
    word(rt, row).parse::<u8>().expect(rt, "a small number")
}

fn cmd(rt: &impl Abort, row: &mut SplitWhitespace<'_>) -> Cmd {
    match word(rt, row) {
        "Read" => Cmd::Read,
        "Write" => Cmd::Write,
        "WriteBack" => Cmd::WriteBack,
        "ReadResp" => Cmd::ReadResp,
        "WriteResp" => Cmd::WriteResp,
        word => panic!(rt; "no command {word}"),
    }
}

/// Who makes the request with a number: a fetch, a data access, a DMA engine, or one of three caches.
fn source(id: u64) -> u8 {
    match id % 6 {
        0 => 0,
        1 => 1,
        2 => 2,
        3 => 4,
        4 => 5,
        _ => 6,
    }
}

/// The packet of a row, of eight bytes, by the source of its number.
pub(super) fn packet(rt: &impl Abort, row: &mut SplitWhitespace<'_>) -> Packet
    ensures { MayPass result }
{
    let id = small(rt, row);
    let cmd = cmd(rt, row);
    let addr = u64::from_str_radix(word(rt, row), 16).expect(rt, "an address");
    let mut bytes = [0; 64];
    for k in 0..64u8 {
        bytes[k as usize] = id.wrapping_add(k);
    }
    let mut packet = Packet {
        id: PktId(id as u64),
        src: source(id as u64),
        cmd,
        addr,
        size: 8,
        bytes,
        uncached: true,
        fault: false,
        stack: [0; 8],
        depth: 0,
    };
    for digit in word(rt, row).bytes() {
        if digit.is_ascii_digit() {
            packet.push_port(PortNo(digit - b'0'));
        }
    }
    assert!(rt; packet.size <= 64);
    packet
}

/// The wake of a row whose verb was read.
pub(super) fn wake(rt: &impl Abort, verb: &str, row: &mut SplitWhitespace<'_>) -> Wake {
    let n = small(rt, row);
    let port = PortNo(n);
    match verb {
        "offer" => Wake::Offer {
            port,
            pkt: packet(rt, row),
        },
        "taken" => Wake::Taken { port },
        "refused" => Wake::Refused { port },
        "retry" => Wake::Retry { port },
        "event" => Wake::Event { slot: SlotNo(n) },
        verb => panic!(rt; "no wake {verb}"),
    }
}

/// Writes what a packet shows.
pub(super) fn put_packet(text: &mut String, p: &Packet) -> Result<(), AllocError> {
    let depth = (p.depth as usize).min(8);
    write!(
        text,
        "{} {:?} {:x} {:?}",
        p.id.0,
        p.cmd,
        p.addr,
        &p.stack[..depth]
    )?;
    if p.fault {
        text.push_str(" fault")?;
    }
    if p.src != source(p.id.0) {
        text.push_str(" of another source")?;
    }
    write!(text, " {} {}", p.bytes[0], p.bytes[7])
}

/// Writes what is asked for.
fn put_item(text: &mut String, item: &Item) -> Result<(), AllocError> {
    match item {
        Item::Sent {
            act: Act::Offer { port, pkt },
            ..
        } => {
            write!(text, "; offer {}: ", port.0)?;
            put_packet(text, pkt)
        }
        Item::Sent {
            act: Act::CallRetry { port },
            ..
        } => write!(text, "; call {}", port.0),
        _ => text.push_str("; other"),
    }
}

/// Writes what is in an outbox.
pub(super) fn put_outbox(text: &mut String, out: &mut Outbox) -> Result<(), AllocError> {
    for _ in 0..4 {
        if let Some(item) = out.first() {
            put_item(text, item)?;
            out.drop_first();
        }
    }
    for _ in out.entries() {
        text.push_str("; noted")?;
    }
    Ok(())
}

/// Writes which events are pending, in the order in which they are served.
pub(super) fn put_events(text: &mut String, queue: &EventQueue) -> Result<(), AllocError> {
    let mut before = ";";
    for n in 0..8u32 {
        if let Some(due) = queue.pending(n) {
            write!(text, "{before} {}@{}", due.slot.0, due.tick.get())?;
            before = "";
        }
    }
    Ok(())
}

/// Writes what becomes of a packet that is passed.
pub(super) fn put_way(text: &mut String, way: Way) -> Result<(), AllocError> {
    match way {
        Way::Pass { port, latency } => write!(text, "Pass {} {latency}; ", port.0),
        Way::Done { latency } => write!(text, "Done {latency}; "),
    }
}
