// Files that a call needs, and images in them.
ghost use Rattle.std.specs.Prelude.{◌≡◌, ◌%◌, All, OnOk, IfOk, IfErr};
ghost use Rattle.elf_image.specs.Image.{LiesInRam};
ghost use Rattle.session.specs.Ending.{StopsBy};
ghost use Rattle.session.specs.Inputs.{HasImage, ImageStops};
ghost use Rattle.gc_outside.specs.Sinks.{sink_seen};
ghost use Rattle.session.specs.Outside.{OnlyReads, store_seen};
ghost use Rattle.session.specs.Fetched.{FileStops, HasFile};

use crate::lines::{refuse, refuse_file, refuse_image};
use crate::status::Status;
use elf_image::Image;
use gc_base::Octets;
use gc_base::limits::IMAGE_BYTES_MAX;
use gc_outside::{GetError, Got, Sink, Store};
use std::alloc::Global;

/// The bytes of a file of at most so many; or the status of the call, once its line is said.
pub(crate) fn fetch<S: Store, R: Sink>(
    alloc: Global,
    name: &str,
    most: usize,
    store: &mut S,
    report: &mut R,
) -> Result<Octets, Status>
    ensures file { IfOk result (HasFile name.now most (S.files store.old)) }
    ensures silent { OnOk result (report.new ≡ report.old) }
    ensures faultless { OnOk result (S.faults store.new ≡ S.faults store.old) }
    ensures stops { IfErr result (λ s. StopsBy (FileStops name.now most) s
        (store_seen S.Store store.old) (store_seen S.Store store.new)
        (sink_seen R.Sink report.old) (sink_seen R.Sink report.new)) }
    ensures reads { OnlyReads (store_seen S.Store store.old) (store_seen S.Store store.new) }
{
    match store.get(alloc, name, most) {
        Ok(Got::Bytes(bytes)) => Ok(bytes),
        Ok(Got::Absent) => Err(refuse_file(Status::File, b"file ", name, b" absent\n", report)),
        Ok(Got::Longer) => Err(refuse_file(Status::File, b"file ", name, b" long\n", report)),
        Err(GetError::Failed) => Err(refuse_file(Status::Store, b"store ", name, b"\n", report)),
        Err(GetError::NoMemory) => Err(refuse(Status::Memory, b"memory\n", report)),
    }
}

/// The image that a file says, where RAM has `ram` bytes; or the status of the call, once its line is said.
pub(crate) fn fetch_image<S: Store, R: Sink>(
    alloc: Global,
    name: &str,
    ram: u32,
    store: &mut S,
    report: &mut R,
) -> Result<Image, Status>
    ensures image { IfOk result (HasImage name.now ram (S.files store.old)) }
    ensures in_ram { IfOk result (λ image. All (LiesInRam ram) image.pieces) }
    ensures aligned { IfOk result (λ image. image.entry % 4 ≡ 0) }
    ensures silent { OnOk result (report.new ≡ report.old) }
    ensures faultless { OnOk result (S.faults store.new ≡ S.faults store.old) }
    ensures stops { IfErr result (λ s. StopsBy (ImageStops name.now ram) s
        (store_seen S.Store store.old) (store_seen S.Store store.new)
        (sink_seen R.Sink report.old) (sink_seen R.Sink report.new)) }
    ensures reads { OnlyReads (store_seen S.Store store.old) (store_seen S.Store store.new) }
{
    let file = fetch(alloc, name, IMAGE_BYTES_MAX, store, report)?;
    match elf_image::read(alloc, file.items(), ram) {
        Ok(image) => Ok(image),
        Err(fault) => Err(refuse_image(fault, report)),
    }
}
