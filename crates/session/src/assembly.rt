// The words `asm SOURCE IMAGE`: a source is assembled, and the ELF file of its words is put.
ghost use Rattle.std.specs.Prelude.{◌≡◌, ◌≤◌, ◌<◌, ◌-◌, ◌^◌, Some, None, length, IfOk, OnOk, OnErr, IfErr, is_err, Ok};
ghost use Rattle.gc_outside.specs.Faults.{Rose, CountsFaultIf};
ghost use Rattle.gc_outside.specs.Store.{ChangesFile};
ghost use Rattle.gc_outside.specs.Told.{Told};
ghost use Rattle.rv_asm.specs.Source.{Explains};
ghost use Rattle.session.specs.Calls.{AssemblyComesTo, PutComesTo};
ghost use Rattle.session.specs.Ending.{StopsBy, status_of};
ghost use Rattle.session.specs.Inputs.{HasProgram, SourceStops};
ghost use Rattle.session.specs.Named.{assembly_named};
ghost use Rattle.gc_outside.specs.Sinks.{sink_seen};
ghost use Rattle.session.specs.Outside.{OnlyReads, store_seen};
ghost use Rattle.session.specs.Puts.{IsPutInPart};
ghost use Rattle.session.specs.Sources.{line_of_byte, source_words};

use crate::fetch::fetch;
use crate::lines::{refuse, refuse_file, refuse_source};
use crate::status::Status;
use crate::words::AssemblyWords;
use gc_base::limits::SOURCE_BYTES_MAX;
use gc_outside::{Failed, Sink, Store};
use rv_asm::{AsmFault, AsmKind, Program};
use std::alloc::Global;
use std::str;

/// The number of the line in which a byte stands, counted from 1.
fn line_of_byte(place: usize, text: &[u8]) -> u32
    requires within { place ≤ length text.now }
    requires size { length text.now < 2 ^ 32 - 1 }
    ensures { result ≡ line_of_byte place text.now }
{
    let mut line = 1;
    for byte in &text[..place] {
        if *byte == b'\n' {
            line += 1;
        }
    }
    line
}

/// The words of a source's bytes.
fn program_of(alloc: Global, source: &[u8]) -> Result<Program, AsmFault>
    requires { length source.now < 2 ^ 32 - 1 }
    ensures words { IfOk result (λ p. source_words source.now ≡ Ok p.words) }
    ensures fault { IfErr result (Explains (source_words source.now)) }
{
    match str::from_utf8(source) {
        Ok(text) => rv_asm::assemble(alloc, text),
        Err(e) => Err(AsmFault::Line {
            line: line_of_byte(e.valid_up_to(), source),
            kind: AsmKind::Word,
        }),
    }
}

/// Puts a file whole.
fn put<S: Store>(name: &str, bytes: &[u8], store: &mut S) -> Result<(), Failed>
    ensures whole { OnOk result (Told (ChangesFile name.now (Some bytes.now)) (S.files store.old) (S.files store.new)) }
    ensures part { OnErr result (Told (IsPutInPart name.now bytes.now) (S.files store.old) (S.files store.new)) }
    ensures ended { S.open_put store.new ≡ None }
    ensures cause { OnErr result (Rose (S.faults store.old) (S.faults store.new)) }
    ensures count { S.faults store.old ≤ S.faults store.new }
    ensures counted { CountsFaultIf (is_err result) (S.faults store.old) (S.faults store.new) }
{
    store.begin_put(name)?;
    store.piece(bytes)?;
    store.end_put()
}

/// Puts the ELF file of a program.
fn put_program<S: Store, R: Sink>(
    alloc: Global,
    program: &Program,
    name: &str,
    store: &mut S,
    report: &mut R,
) -> Result<(), Status>
    ensures { StopsBy (PutComesTo name.now program.now.words) (status_of result)
        (store_seen S.Store store.old) (store_seen S.Store store.new)
        (sink_seen R.Sink report.old) (sink_seen R.Sink report.new) }
{
    let file = match elf_image::write(alloc, program) {
        Ok(file) => file,
        Err(_) => return Err(refuse(Status::Memory, b"memory\n", report)),
    };
    match put(name, &file, store) {
        Ok(()) => Ok(()),
        Err(Failed) => Err(refuse_file(Status::Store, b"store ", name, b"\n", report)),
    }
}

/// The words of a source's file.
fn fetch_program<S: Store, R: Sink>(
    alloc: Global,
    name: &str,
    store: &mut S,
    report: &mut R,
) -> Result<Program, Status>
    ensures program { IfOk result (λ p. HasProgram name.now (S.files store.old) p.words) }
    ensures silent { OnOk result (report.new ≡ report.old) }
    ensures faultless { OnOk result (S.faults store.new ≡ S.faults store.old) }
    ensures stops { IfErr result (λ s. StopsBy (SourceStops name.now) s
        (store_seen S.Store store.old) (store_seen S.Store store.new)
        (sink_seen R.Sink report.old) (sink_seen R.Sink report.new)) }
    ensures reads { OnlyReads (store_seen S.Store store.old) (store_seen S.Store store.new) }
{
    let source = fetch(alloc, name, SOURCE_BYTES_MAX, store, report)?;
    match program_of(alloc, source.items()) {
        Ok(program) => Ok(program),
        Err(fault) => Err(refuse_source(fault, report)),
    }
}

/// Gets the source, assembles it, and puts the ELF file of its words.
pub(crate) fn assembly<S: Store, R: Sink>(
    alloc: Global,
    words: &AssemblyWords,
    store: &mut S,
    report: &mut R,
) -> Result<(), Status>
    ensures { StopsBy (AssemblyComesTo (assembly_named words.now)) (status_of result)
        (store_seen S.Store store.old) (store_seen S.Store store.new)
        (sink_seen R.Sink report.old) (sink_seen R.Sink report.new) }
{
    let program = fetch_program(alloc, words.source, store, report)?;
    put_program(alloc, &program, words.image, store, report)
}
