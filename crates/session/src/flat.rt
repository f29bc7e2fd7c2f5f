// The words `flat IMAGE COUNT`: an image over flat memory.
ghost use Rattle.std.specs.Prelude.{◌≡◌, [], All, is_ok, OnOk, IfOk, IfErr};
ghost use Rattle.elf_image.specs.Image.{LiesInRam};
ghost use Rattle.rv_step.specs.Run.{flat_run};
ghost use Rattle.session.specs.Calls.{FlatComesTo};
ghost use Rattle.gc_outside.specs.Emissions.{EmitsInOrder};
ghost use Rattle.session.specs.Ending.{EndsBy, Refuses, memory_refusal, status_of};
ghost use Rattle.session.specs.Named.{flat_named};
ghost use Rattle.gc_outside.specs.Sinks.{sink_seen, sinks};
ghost use Rattle.session.specs.Outside.{OnlyReads, outside, store_seen};
ghost use Rattle.session.specs.Report.{flat_emissions};
ghost use Rattle.session.specs.Run.{flat_start, state_with};

use crate::fetch::fetch_image;
use crate::flat_report::report_of;
use crate::flat_run::{FLAT_SIZE, FlatRun};
use crate::lines::{refuse, say};
use crate::status::Status;
use crate::words::FlatWords;
use elf_image::Image;
use gc_outside::{Failed, Sink, Store};
use std::alloc::Global;

/// The run of an image that is about to begin.
fn load<R: Sink>(alloc: Global, image: &Image, report: &mut R) -> Result<FlatRun, Status>
    requires { All (LiesInRam FLAT_SIZE) image.now.pieces }
    ensures loaded { IfOk result (λ r. state_with r [] ≡ flat_start image.now) }
    ensures silent { OnOk result (report.new ≡ report.old) }
    ensures refused { IfErr result (λ s. Refuses memory_refusal s
        (sink_seen R.Sink report.old) (sink_seen R.Sink report.new)) }
{
    match FlatRun::load(alloc, image) {
        Ok(run) => Ok(run),
        Err(_) => Err(refuse(Status::Memory, b"memory\n", report)),
    }
}

/// Makes the run, and reports it.
fn perform<C: Sink, R: Sink>(
    run: &mut FlatRun,
    count: u64,
    console: &mut C,
    report: &mut R,
) -> Result<(), Failed>
    requires { run.old.steps ≡ 0 }
    ensures { EmitsInOrder (flat_emissions (flat_run (state_with run.old []) count)) (is_ok result)
        (sinks C.Sink R.Sink console.old report.old) (sinks C.Sink R.Sink console.new report.new) }
{
    run.run(console, count)?;
    say(report_of(run).bytes(), report)
}

/// Gets the image, and runs it.
pub(crate) fn flat<S: Store, C: Sink, R: Sink>(
    alloc: Global,
    words: &FlatWords,
    store: &mut S,
    console: &mut C,
    report: &mut R,
) -> Result<(), Status>
    ensures reads { OnlyReads (store_seen S.Store store.old) (store_seen S.Store store.new) }
    ensures ends { EndsBy (FlatComesTo (flat_named words.now)) (status_of result)
        (outside S.Store C.Sink R.Sink store.old console.old report.old)
        (outside S.Store C.Sink R.Sink store.new console.new report.new) }
{
    let image = fetch_image(alloc, words.image, FLAT_SIZE, store, report)?;
    let mut run = load(alloc, &image, report)?;
    match perform(&mut run, words.count, console, report) {
        Ok(()) => Ok(()),
        Err(_) => Err(Status::Sink),
    }
}
