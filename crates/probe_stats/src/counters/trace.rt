// The trace: the lines of events and of the entries that they note.
ghost use Rattle.std.specs.Prelude.{◌≡◌, ◌+◌, ◌≤◌, ◌++◌, length, take};
ghost use Rattle.probe_stats.specs.Trace.{answer_words, entry_line, entry_words, event_head, path_at, request_words, source_letter};

use super::Counters;
use gc_base::{ObjId, PktId, SlotNo, Tick};
use gc_text::{LineBuf, MAX_LINE, put_dec, put_hex_bytes, put_hex8, put_hex16, put_text};
use gm_words::Entry;

impl Counters {
    /// Appends the line that a traced event begins with: its tick, its object's path and its slot.
    #[tactic(auto, using(gc_text::proofs::DecimalLemmas::decimal_is_short))]
    pub fn trace_head(&self, at: Tick, object: ObjId, slot: SlotNo, b: &mut LineBuf)
        requires room { length b.old + 128 ≤ MAX_LINE }
        ensures { b.new ≡ b.old ++ event_head self.now.parts at object.0 slot.0 }
    {
        put_text(b, b"@");
        put_dec(b, at.get());
        put_text(b, b" ");
        put_text(b, self.path(object));
        put_text(b, b" ");
        put_dec(b, u64::from(slot.0));
        put_text(b, b"\n");
    }

    /// Appends the line of an entry.
    pub fn trace_line(&self, e: &Entry, b: &mut LineBuf)
        requires room { length b.old + 128 ≤ MAX_LINE }
        ensures { b.new ≡ b.old ++ entry_line self.now.parts e.now }
    {
        self.put_entry(b, e);
        put_text(b, b"\n");
    }

    /// Appends the words of an entry.
    #[tactic(auto, using(gc_text::proofs::DecimalLemmas::decimal_is_short))]
    fn put_entry(&self, b: &mut LineBuf, e: &Entry)
        requires room { length b.old + 120 ≤ MAX_LINE }
        ensures value { b.new ≡ b.old ++ entry_words self.now.parts e.now }
        ensures short { length b.new ≤ length b.old + 100 }
    {
        match e {
            Entry::Served {
                src,
                id,
                write,
                addr,
                size,
                bytes,
                device,
                fault,
            } => {
                put_text(b, b"served ");
                put_request(b, *src, *id, *write, *addr);
                put_text(b, b" ");
                put_answer(b, *size, *device, front(bytes, *size), *fault);
            }
            Entry::Retired { pc, word } => {
                put_text(b, b"retired ");
                put_hex16(b, *pc);
                put_text(b, b" ");
                put_hex8(b, *word);
            }
            Entry::Trapped { cause, tval } => {
                put_text(b, b"trapped ");
                put_hex16(b, *cause);
                put_text(b, b" ");
                put_hex16(b, *tval);
            }
            Entry::Line { bit, level } => {
                put_text(b, b"line ");
                put_dec(b, u64::from(*bit));
                put_text(b, if *level { b" 1" } else { b" 0" });
            }
            Entry::Slept => put_text(b, b"slept"),
            Entry::Hit { object } => self.put_object(b, b"hit ", *object),
            Entry::Miss { object } => self.put_object(b, b"miss ", *object),
            Entry::Refused { object } => self.put_object(b, b"refused ", *object),
        }
    }

    /// Appends what was noted of an object, and its path.
    fn put_object(&self, b: &mut LineBuf, what: &[u8], object: ObjId)
        requires word { length what.now ≤ 8 }
        requires room { length b.old + 32 ≤ MAX_LINE }
        ensures value { b.new ≡ b.old ++ what.now ++ path_at self.now.parts object.0 }
        ensures short { length b.new ≤ length b.old + 24 }
    {
        put_text(b, what);
        put_text(b, self.path(object));
    }

    /// The path of a part; no bytes where there is no such part.
    fn path(&self, object: ObjId) -> &'static [u8]
        ensures path { result.now ≡ path_at self.now.parts object.0 }
        ensures short { length result.now ≤ 16 }
    {
        let place = object.0 as usize;
        if place < self.parts.len() {
            self.parts[place].path.as_bytes()
        } else {
            b""
        }
    }
}

/// Appends what an access asks for.
#[tactic(auto, using(gc_text::proofs::DecimalLemmas::decimal_is_short))]
fn put_request(b: &mut LineBuf, src: u8, id: PktId, write: bool, addr: u64)
    requires room { length b.old + 64 ≤ MAX_LINE }
    ensures value { b.new ≡ b.old ++ request_words src id.0 write addr }
    ensures short { length b.new ≤ length b.old + 41 }
{
    put_text(b, source_letter(src));
    put_text(b, b" ");
    put_dec(b, id.0);
    put_text(b, if write { b" w " } else { b" r " });
    put_hex16(b, addr);
}

/// Appends of how many bytes an access is, who served it, the bytes, and whether it was refused.
#[tactic(auto, using(gc_text::proofs::DecimalLemmas::decimal_is_short))]
fn put_answer(b: &mut LineBuf, size: u8, device: bool, bytes: &[u8], fault: bool)
    requires size { length bytes.now ≤ 8 }
    requires room { length b.old + 64 ≤ MAX_LINE }
    ensures value { b.new ≡ b.old ++ answer_words size device bytes.now fault }
    ensures short { length b.new ≤ length b.old + 47 }
{
    put_dec(b, u64::from(size));
    put_text(b, if device { b" dev " } else { b" ram " });
    put_hex_bytes(b, bytes);
    if fault {
        put_text(b, b" fault");
    }
}

/// As many of an entry's bytes as its size says: all of them, where it says more.
fn front(bytes: &[u8; 8], size: u8) -> &[u8]
    ensures value { result.now ≡ take size bytes.now }
    ensures short { length result.now ≤ 8 }
{
    if size < 8 {
        &bytes[..size as usize]
    } else {
        bytes
    }
}

/// The letter of a source: instructions, data, or the DMA engine.
fn source_letter(src: u8) -> &'static [u8]
    ensures letter { result.now ≡ source_letter src }
    ensures one { length result.now ≡ 1 }
{
    match src {
        0 => b"i",
        1 => b"d",
        _ => b"m",
    }
}
