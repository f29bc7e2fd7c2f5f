// The words `run CONFIG IMAGE SCRIPT`: an image in a machine.
ghost use Rattle.std.specs.Prelude.{◌≡◌, ◌≤◌, ◌%◌, All, None, length, map, OnOk, IfOk, IfErr};
ghost use Rattle.cfg_tree.specs.Valid.{IsValidConfig};
ghost use Rattle.elf_image.specs.Image.{LiesInRam};
ghost use Rattle.kernel.specs.Build.{AreBlank, lacking};
ghost use Rattle.kernel.specs.Load.{IsAsBuilt};
ghost use Rattle.kernel.specs.Shown.{named_by, named_of, sys_of, sys_seen, IsMachine, IsSeen};
ghost use Rattle.session.specs.Calls.{BuildStops, RunComesTo};
ghost use Rattle.session.specs.Ending.{Ending, EndsBy, Leaves, StopsBy, StopsWith, status_of};
ghost use Rattle.session.specs.Inputs.{HasConfig, ConfigStops, HasScript, ScriptStops};
ghost use Rattle.session.specs.Named.{request_named};
ghost use Rattle.gc_outside.specs.Sinks.{sink_seen, sinks};
ghost use Rattle.session.specs.Outside.{OnlyReads, outside, store_seen};
ghost use Rattle.session.specs.Script.{machine_start, ScriptComesTo};

use crate::fetch::{fetch, fetch_image};
use crate::lines::{refuse, refuse_config, refuse_part, refuse_script};
use crate::script::carry_out;
use crate::status::Status;
use crate::words::RunWords;
use cfg_tree::Config;
use elf_image::Image;
use gc_base::limits::{CONFIG_BYTES_MAX, SCRIPT_BYTES_MAX};
use gc_outside::{Sink, Store};
use kernel::{BuildFault, Machine};
use obj_core::SimObject;
use std::alloc::Global;
use stop_script::{Script, Stop};

/// The configuration that a file writes.
fn fetch_config<S: Store, R: Sink>(
    alloc: Global,
    name: &str,
    store: &mut S,
    report: &mut R,
) -> Result<Config, Status>
    ensures config { IfOk result (HasConfig name.now (S.files store.old)) }
    ensures valid { IfOk result IsValidConfig }
    ensures silent { OnOk result (report.new ≡ report.old) }
    ensures faultless { OnOk result (S.faults store.new ≡ S.faults store.old) }
    ensures stops { IfErr result (λ s. StopsBy (ConfigStops name.now) s
        (store_seen S.Store store.old) (store_seen S.Store store.new)
        (sink_seen R.Sink report.old) (sink_seen R.Sink report.new)) }
    ensures reads { OnlyReads (store_seen S.Store store.old) (store_seen S.Store store.new) }
{
    let text = fetch(alloc, name, CONFIG_BYTES_MAX, store, report)?;
    match cfg_tree::read(alloc, text.items()) {
        Ok(config) => Ok(config),
        Err(fault) => Err(refuse_config(&fault, report)),
    }
}

/// The script that a file says.
fn fetch_script<S: Store, R: Sink>(
    alloc: Global,
    name: &str,
    config: &Config,
    store: &mut S,
    report: &mut R,
) -> Result<Script, Status>
    ensures script { IfOk result (λ script. HasScript name.now (S.files store.old) script.stops) }
    ensures silent { OnOk result (report.new ≡ report.old) }
    ensures faultless { OnOk result (S.faults store.new ≡ S.faults store.old) }
    ensures stops { IfErr result (λ s. StopsBy (ScriptStops name.now) s
        (store_seen S.Store store.old) (store_seen S.Store store.new)
        (sink_seen R.Sink report.old) (sink_seen R.Sink report.new)) }
    ensures reads { OnlyReads (store_seen S.Store store.old) (store_seen S.Store store.new) }
{
    let text = fetch(alloc, name, SCRIPT_BYTES_MAX, store, report)?;
    match stop_script::read(alloc, text.items(), config) {
        Ok(script) => Ok(script),
        Err(fault) => Err(refuse_script(fault, report)),
    }
}

/// The machine of a configuration; or the status of the call, once it is said of which kind there are too few parts.
fn build<R: Sink>(
    alloc: Global,
    config: &Config,
    parts: Vec<Box<dyn SimObject>>,
    report: &mut R,
) -> Result<Machine, Status>
    requires valid { IsValidConfig config.now }
    requires blank { AreBlank (map (λ b. state b) parts.items) }
    ensures machine { IfOk result (λ m. IsMachine state m) }
    ensures built { IfOk result (λ m. IsAsBuilt config.now (sys_of state m)) }
    ensures named { IfOk result (λ m. named_of m ≡ named_by config.now) }
    ensures whole { OnOk result (lacking config.now (map (λ b. state b) parts.items) ≡ None) }
    ensures silent { OnOk result (report.new ≡ report.old) }
    ensures stops { IfErr result (λ s. StopsWith (BuildStops config.now (map (λ b. state b) parts.items))
        s (sink_seen R.Sink report.old) (sink_seen R.Sink report.new)) }
{
    match Machine::build(alloc, config, parts) {
        Ok(machine) => Ok(machine),
        Err(BuildFault::Part { kind }) => Err(refuse_part(kind, report)),
        Err(BuildFault::NoMemory) => Err(refuse(Status::Memory, b"memory\n", report)),
    }
}

/// Loads the image, lets the machine go on, and carries out the stops.
fn perform<C: Sink, R: Sink>(
    alloc: Global,
    machine: Machine,
    config: &Config,
    stops: &[Stop],
    image: &Image,
    console: &mut C,
    report: &mut R,
) -> Result<(), Status>
    requires machine { IsSeen machine state }
    requires named { named_of machine ≡ named_by config.now }
    requires valid { IsValidConfig config.now }
    requires built { IsAsBuilt config.now (sys_seen machine state) }
    requires in_ram { All (LiesInRam config.now.system_ram) image.now.pieces }
    requires aligned { image.now.entry % 4 ≡ 0 }
    requires few { length stops.now ≤ 256 }
    ensures { (e : Ending) × ScriptComesTo config.now (machine_start config.now image.now) stops.now e
        × Leaves e (status_of result)
        (sinks C.Sink R.Sink console.old report.old) (sinks C.Sink R.Sink console.new report.new) }
{
    let mut machine = machine;
    machine.load_image(image);
    machine.resume_all();
    carry_out(alloc, &mut machine, config, stops, console, report)
}

/// Gets the configuration, the script and the image, builds the machine, and carries out the script.
pub(crate) fn run<S: Store, C: Sink, R: Sink>(
    alloc: Global,
    words: &RunWords,
    parts: Vec<Box<dyn SimObject>>,
    store: &mut S,
    console: &mut C,
    report: &mut R,
) -> Result<(), Status>
    requires blank { AreBlank (map (λ b. state b) parts.items) }
    ensures reads { OnlyReads (store_seen S.Store store.old) (store_seen S.Store store.new) }
    ensures ends { EndsBy (RunComesTo (request_named words.now) (map (λ b. state b) parts.items)) (status_of result)
        (outside S.Store C.Sink R.Sink store.old console.old report.old)
        (outside S.Store C.Sink R.Sink store.new console.new report.new) }
{
    let config = fetch_config(alloc, words.config, store, report)?;
    let script = fetch_script(alloc, words.script, &config, store, report)?;
    let image = fetch_image(alloc, words.image, config.system_ram as u32, store, report)?;
    let machine = build(alloc, &config, parts, report)?;
    perform(
        alloc,
        machine,
        &config,
        script.stops.items(),
        &image,
        console,
        report,
    )
}
