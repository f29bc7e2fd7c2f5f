// Lines that end a call: what is said of a file that can't be had or is faulty, and of a missing part.
ghost use Rattle.std.specs.Prelude.{◌≡◌, ◌≤◌, ◌+◌, ◌++◌, length, is_ok, codes, decimal};
ghost use Rattle.gc_outside.specs.Emits.{Emits};
ghost use Rattle.session.specs.Ending.{Refuses, refusal};
ghost use Rattle.session.specs.Names.{shown_byte, shown_name};
ghost use Rattle.gc_outside.specs.Sinks.{sink_seen};
ghost use Rattle.session.specs.Refusals.{config_refusal, script_refusal, image_refusal, part_refusal, source_refusal};

use crate::status::Status;
use cfg_tree::CfgFault;
use elf_image::ElfFault;
use gc_outside::{Failed, Sink};
use gc_text::{LineBuf, MAX_LINE, put_dec, put_text};
use gm_model::Kind;
use rv_asm::AsmFault;
use stop_script::ScriptFault;

/// Emits bytes.
pub(crate) fn say<K: Sink>(bytes: &[u8], sink: &mut K) -> Result<(), Failed>
    ensures { Emits bytes.now (is_ok result)
        (K.taken sink.old) (K.taken sink.new) (K.faults sink.old) (K.faults sink.new) }
{
    sink.emit(bytes)
}

fn shown(b: u8) -> u8
    ensures { result ≡ shown_byte b }
{
    if (0x21..=0x7e).contains(&b) { b } else { b'?' }
}

/// The bytes of a part of a name, as they are shown.
fn put_shown(line: &mut LineBuf, name: &[u8])
    requires { length line.old + length name.now ≤ MAX_LINE }
    ensures { line.new ≡ line.old ++ shown_name name.now }
{
    for b in name {
        put_text(line, &[shown(*b)]);
    }
}

fn say_part<R: Sink>(name: &[u8], report: &mut R) -> Result<(), Failed>
    requires { length name.now ≤ MAX_LINE }
    ensures { Emits (shown_name name.now) (is_ok result)
        (R.taken report.old) (R.taken report.new) (R.faults report.old) (R.faults report.new) }
{
    let mut line = LineBuf::new();
    put_shown(&mut line, name);
    report.emit(line.bytes())
}

/// Emits a name as it is shown, in parts where it is longer than a line.
fn say_name<R: Sink>(name: &[u8], report: &mut R) -> Result<(), Failed>
    ensures { Emits (shown_name name.now) (is_ok result)
        (R.taken report.old) (R.taken report.new) (R.faults report.old) (R.faults report.new) }
{
    let mut done = 0;
    while done < name.len() {
        let end = name.len().min(done + MAX_LINE);
        say_part(&name[done..end], report)?;
        done = end;
    }
    Ok(())
}

/// Emits a line that names a file.
fn say_about<R: Sink>(before: &[u8], name: &str, after: &[u8], report: &mut R) -> Result<(), Failed>
    ensures { Emits (before.now ++ shown_name name.now ++ after.now) (is_ok result)
        (R.taken report.old) (R.taken report.new) (R.faults report.old) (R.faults report.new) }
{
    say(before, report)?;
    say_name(name.as_bytes(), report)?;
    say(after, report)
}

/// Ends a call with a line of the report. Where the line can't be emitted, the sink failed.
pub(crate) fn refuse<R: Sink>(status: Status, line: &[u8], report: &mut R) -> Status
    ensures { Refuses (refusal status line.now) result (sink_seen R.Sink report.old) (sink_seen R.Sink report.new) }
{
    match say(line, report) {
        Ok(()) => status,
        Err(_) => Status::Sink,
    }
}

/// Ends a call with a line of the report that names a file.
pub(crate) fn refuse_file<R: Sink>(
    status: Status,
    before: &[u8],
    name: &str,
    after: &[u8],
    report: &mut R,
) -> Status
    ensures { Refuses (refusal status (before.now ++ shown_name name.now ++ after.now)) result
        (sink_seen R.Sink report.old) (sink_seen R.Sink report.new) }
{
    match say_about(before, name, after, report) {
        Ok(()) => status,
        Err(_) => Status::Sink,
    }
}

/// Ends a call with a line of the report that has a number.
fn refuse_number<R: Sink>(status: Status, before: &[u8], n: u64, report: &mut R) -> Status
    requires { length before.now ≤ 100 }
    ensures { Refuses (refusal status (before.now ++ decimal n ++ codes "\n")) result
        (sink_seen R.Sink report.old) (sink_seen R.Sink report.new) }
{
    let mut text = LineBuf::new();
    put_text(&mut text, before);
    put_dec(&mut text, n);
    put_text(&mut text, b"\n");
    refuse(status, text.bytes(), report)
}

/// Refuses a configuration, or says that memory was not found.
pub(crate) fn refuse_config<R: Sink>(fault: &CfgFault, report: &mut R) -> Status
    ensures { Refuses (config_refusal fault.now) result (sink_seen R.Sink report.old) (sink_seen R.Sink report.new) }
{
    let status = Status::Config;
    match fault {
        CfgFault::Text => refuse(status, b"config text\n", report),
        CfgFault::Unknown { path } => {
            refuse_file(status, b"config unknown ", path.items(), b"\n", report)
        }
        CfgFault::Missing { path } => {
            refuse_file(status, b"config missing ", path.items(), b"\n", report)
        }
        CfgFault::Value { path } => {
            refuse_file(status, b"config value ", path.items(), b"\n", report)
        }
        CfgFault::Shape { path } => {
            refuse_file(status, b"config shape ", path.items(), b"\n", report)
        }
        CfgFault::NoMemory => refuse(Status::Memory, b"memory\n", report),
    }
}

/// Refuses a script, or says that memory was not found.
pub(crate) fn refuse_script<R: Sink>(fault: ScriptFault, report: &mut R) -> Status
    ensures { Refuses (script_refusal fault) result (sink_seen R.Sink report.old) (sink_seen R.Sink report.new) }
{
    match fault {
        ScriptFault::Line { line } => {
            refuse_number(Status::Script, b"script line ", line as u64, report)
        }
        ScriptFault::NoMemory => refuse(Status::Memory, b"memory\n", report),
    }
}

/// Refuses an image, or says that memory was not found.
pub(crate) fn refuse_image<R: Sink>(fault: ElfFault, report: &mut R) -> Status
    ensures { Refuses (image_refusal fault) result (sink_seen R.Sink report.old) (sink_seen R.Sink report.new) }
{
    let status = Status::Image;
    match fault {
        ElfFault::Raw => refuse(status, b"image raw\n", report),
        ElfFault::Header => refuse(status, b"image header\n", report),
        ElfFault::Class => refuse(status, b"image class\n", report),
        ElfFault::Order => refuse(status, b"image order\n", report),
        ElfFault::Kind => refuse(status, b"image kind\n", report),
        ElfFault::Machine => refuse(status, b"image machine\n", report),
        ElfFault::Segment { index } => {
            refuse_number(status, b"image segment ", index as u64, report)
        }
        ElfFault::NoMemory => refuse(Status::Memory, b"memory\n", report),
    }
}

/// Says of which kind there are too few parts.
pub(crate) fn refuse_part<R: Sink>(kind: Kind, report: &mut R) -> Status
    ensures { Refuses (part_refusal kind) result (sink_seen R.Sink report.old) (sink_seen R.Sink report.new) }
{
    let mut text = LineBuf::new();
    put_text(&mut text, b"part ");
    put_text(&mut text, kind.name().as_bytes());
    put_text(&mut text, b"\n");
    refuse(Status::Part, text.bytes(), report)
}

/// Refuses a source, or says that memory was not found.
pub(crate) fn refuse_source<R: Sink>(fault: AsmFault, report: &mut R) -> Status
    ensures { Refuses (source_refusal fault) result (sink_seen R.Sink report.old) (sink_seen R.Sink report.new) }
{
    match fault {
        AsmFault::Line { line, kind } => {
            let mut text = LineBuf::new();
            put_text(&mut text, b"source line ");
            put_dec(&mut text, line as u64);
            put_text(&mut text, b" ");
            put_text(&mut text, kind.name().as_bytes());
            put_text(&mut text, b"\n");
            refuse(Status::Source, text.bytes(), report)
        }
        AsmFault::NoMemory => refuse(Status::Memory, b"memory\n", report),
    }
}
