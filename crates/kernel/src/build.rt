// How a machine is built: its parts are configured, each with its handles.
ghost use Rattle.std.specs.Prelude.{◌≡◌, ◌≤◌, [], length, map, true, IsTrue, Some, None, IfOk, OnOk, IfErr, false};
ghost use Rattle.ev_queue.specs.SlotTable.{is_free, granted, all_slots};
ghost use Rattle.rv_step.specs.FlatMem.{ram_base};
ghost use Rattle.gm_words.specs.Allowed.{IsAllowed};
ghost use Rattle.cfg_tree.specs.Valid.{IsValidConfig};
ghost use Rattle.gm_model.specs.Command.{start_of};
ghost use Rattle.gm_words.specs.Kind.{kind_of_own};
ghost use Rattle.gm_model.specs.Start.{params_of, start_state, is_cpu_of, cpu_started};
ghost use Rattle.gm_words.specs.Platform.{platform, own_classes};
ghost use Rattle.gm_words.specs.Shown.{part_shown};
ghost use Rattle.gm_words.specs.Slots.{given_table};
ghost use Rattle.obj_core.specs.Handles.{AreHandlesOf};
ghost use Rattle.kernel.specs.Build.{IsPart, AreBlank, AreDrawn, AreEnough, AreFew, AreFree, are_kept, is_kept, added, all_granted, all_configured, slot_counts, lacking, NamesLack, standing};

use crate::board::Board;
use crate::boxes::{configure_box, give_arch_box, kind_of_box, set_mode_box};
use crate::build_fault::BuildFault;
use crate::draw::{draw, first_lacking};
use crate::machine::Machine;
use ev_queue::{EventHandle, EventQueue};
use gc_base::{NoMemory, ObjId, SlotNo};
use gm_model::platform::{self, Part, RAM_BASE};
use gm_model::{Config, Kind, Own, Params};
use obj_core::{Handles, Outbox, SimObject};
use probe_stats::Counters;
use rv_step::Arch;
use std::alloc::Global;

/// What an object of a machine is configured with.
fn params(c: &Config, object: ObjId, own: Own) -> Params
    requires { IsValidConfig c.now }
    ensures { result ≡ params_of c.now object.0 own }
{
    Params {
        object,
        line: c.system_line as u32,
        ram: c.system_ram as u32,
        own,
    }
}

/// The handle of a slot whose handle wasn't given yet.
fn handle<const CLASS: u8>(queue: &mut EventQueue, object: ObjId, slot: u8) -> EventHandle<CLASS>
    requires { IsTrue (is_free queue.old.table object.0 slot) }
    ensures handle { result ≡ record { owner = object.0; slot = slot } }
    ensures queue { queue.new ≡ record queue.old { table = granted queue.old.table object.0 slot CLASS } }
{
    match queue.handle::<CLASS>(object, SlotNo(slot)) {
        Some(handle) => handle,
        None => unreachable!(),
    }
}

/// No handles.
fn no_handles(alloc: Global) -> Handles
    ensures response { result.response.items ≡ [] }
    ensures request { result.request.items ≡ [] }
    ensures devices { result.device.items ≡ [] }
    ensures cpus { result.cpu.items ≡ [] }
{
    Handles {
        response: Vec::new(alloc),
        request: Vec::new(alloc),
        device: Vec::new(alloc),
        cpu: Vec::new(alloc),
    }
}

/// The handle of a slot more, among those of its class.
fn add_handle(
    queue: &mut EventQueue,
    handles: &mut Handles,
    object: ObjId,
    slot: u8,
    class: u8,
) -> Result<(), NoMemory>
    requires free { IsTrue (is_free queue.old.table object.0 slot) }
    requires kept { is_kept class ≡ true }
    ensures response { OnOk result (handles.new.response.items ≡ added object.0 slot class 0 handles.old.response.items) }
    ensures request { OnOk result (handles.new.request.items ≡ added object.0 slot class 10 handles.old.request.items) }
    ensures devices { OnOk result (handles.new.device.items ≡ added object.0 slot class 30 handles.old.device.items) }
    ensures cpus { OnOk result (handles.new.cpu.items ≡ added object.0 slot class 50 handles.old.cpu.items) }
    ensures queue { OnOk result (queue.new ≡ record queue.old { table = granted queue.old.table object.0 slot class }) }
{
    match class {
        0 => handles.response.push(handle(queue, object, slot))?,
        10 => handles.request.push(handle(queue, object, slot))?,
        30 => handles.device.push(handle(queue, object, slot))?,
        50 => handles.cpu.push(handle(queue, object, slot))?,
        _ => unreachable!(),
    }
    Ok(())
}

/// The handles of all slots of a part.
fn all_handles(alloc: Global, queue: &mut EventQueue, params: &Params) -> Result<Handles, NoMemory>
    requires free { AreFree queue.old.table params.now.object.0 0 (own_classes params.now.own) }
    requires kept { IsTrue (are_kept (own_classes params.now.own)) }
    requires few { length (own_classes params.now.own) ≤ 255 }
    ensures handles { IfOk result (AreHandlesOf params.now) }
    ensures queue { OnOk result (queue.new ≡ record queue.old {
      table = all_granted queue.old.table params.now.object.0 0 (own_classes params.now.own);
    }) }
{
    let classes = params.own.classes(alloc)?;
    let mut handles = no_handles(alloc);
    for slot in 0..classes.len() {
        add_handle(
            queue,
            &mut handles,
            params.object,
            slot as u8,
            classes[slot],
        )?;
    }
    Ok(handles)
}

/// Configures a part in the mode of the machine, and gives it the hart, which begins at RAM, where it is that mode's CPU.
fn configure_part(
    alloc: Global,
    c: &Config,
    object: ObjId,
    own: Own,
    part: &mut Box<dyn SimObject>,
    queue: &mut EventQueue,
) -> Result<(), NoMemory>
    requires valid { IsValidConfig c.now }
    requires allowed { IsAllowed (params_of c.now object.0 own) }
    requires part { IsPart (kind_of_own own) (state part.old) }
    requires free { AreFree queue.old.table object.0 0 (own_classes own) }
    requires kept { IsTrue (are_kept (own_classes own)) }
    requires few { length (own_classes own) ≤ 255 }
    ensures part { OnOk result (state part.new
        ≡ cpu_started ram_base c.now.system_model (start_of (params_of c.now object.0 own) own)) }
    ensures queue { OnOk result (queue.new ≡ record queue.old {
      table = all_granted queue.old.table object.0 0 (own_classes own);
    }) }
{
    let params = params(c, object, own);
    let handles = all_handles(alloc, queue, &params)?;
    configure_box(part, alloc, &params, handles)?;
    start_part(part, c.system_model);
    Ok(())
}

/// Sets a part's mode, and gives it the hart, which begins at RAM, where it is the CPU of the mode.
fn start_part(part: &mut Box<dyn SimObject>, timing: bool)
    ensures { state part.new ≡ cpu_started ram_base timing (state part.old) }
{
    if is_cpu_of(timing, kind_of_box(part)) {
        give_arch_box(part, Arch::reset(RAM_BASE));
    }
    set_mode_box(part, timing);
}

/// Whether a part of a kind is the CPU of the mode.
fn is_cpu_of(timing: bool, kind: Kind) -> bool
    ensures { result ≡ is_cpu_of timing kind }
{
    match kind {
        Kind::AtomicCpu => !timing,
        Kind::TimingCpu => timing,
        _ => false,
    }
}

/// Configures the parts, each by its row.
fn configure_parts(
    alloc: Global,
    c: &Config,
    rows: &[Part],
    parts: &mut Vec<Box<dyn SimObject>>,
    queue: &mut EventQueue,
) -> Result<(), NoMemory>
    requires valid { IsValidConfig c.now }
    requires rows { map part_shown rows.now ≡ platform c.now }
    requires drawn { AreDrawn (map (λ b. state b) parts.old.items) (platform c.now) }
    requires free { queue.old.table ≡ all_slots 0 (slot_counts (platform c.now)) }
    ensures parts { OnOk result (map (λ b. state b) parts.new.items ≡ all_configured c.now 0 (platform c.now)) }
    ensures queue { OnOk result (queue.new ≡ record queue.old { table = given_table 0 (platform c.now) }) }
{
    for i in 0..rows.len() {
        configure_part(alloc, c, ObjId(i as u8), rows[i].own, &mut parts[i], queue)?;
    }
    Ok(())
}

/// How many slots each row's part has.
fn counts(alloc: Global, rows: &[Part]) -> Result<Vec<u8>, NoMemory>
    requires { AreFew (map part_shown rows.now) }
    ensures { IfOk result (λ v. v.items ≡ slot_counts (map part_shown rows.now)) }
{
    let mut counts = Vec::new(alloc);
    for i in 0..rows.len() {
        let classes = rows[i].own.classes(alloc)?;
        counts.push(classes.len() as u8)?;
    }
    Ok(counts)
}

impl Machine {
    ghost use Rattle.kernel.specs.Settled.{IsSettled};
    ghost use Rattle.kernel.specs.Shown.{sys_of, named_of, named_by, IsMachine};

    /// Takes the parts that it needs, and configures them. The machine stands at tick 0, drained, with the hart at the
    /// beginning of RAM, which is zero.
    pub fn build(
        alloc: Global,
        c: &Config,
        bin: Vec<Box<dyn SimObject>>,
    ) -> Result<Machine, BuildFault>
        requires blank { AreBlank (map (λ b. state b) bin.items) }
        requires valid { IsValidConfig c.now }
        ensures built { IfOk result (λ m. sys_of state m ≡ start_state c.now ram_base []) }
        ensures settled { IfOk result (λ m. IsSettled (sys_of state m)) }
        ensures named { IfOk result (λ m. named_of m ≡ named_by c.now) }
        ensures machine { IfOk result (λ m. IsMachine state m) }
        ensures whole { OnOk result (lacking c.now (map (λ b. state b) bin.items) ≡ None) }
        ensures fault { IfErr result (λ e. NamesLack e c.now (map (λ b. state b) bin.items)) }
    {
        let rows = platform::parts(alloc, c).map_err(|_| BuildFault::NoMemory)?;
        if let Some(kind) = first_lacking(c, rows.as_slice(), bin.as_slice()) {
            return Err(BuildFault::Part { kind });
        }
        match Machine::assemble(alloc, c, rows, bin) {
            Err(NoMemory) => Err(BuildFault::NoMemory),
            Ok(machine) => Ok(machine),
        }
    }

    /// The machine of a platform, whose parts are among these.
    fn assemble(
        alloc: Global,
        c: &Config,
        rows: Vec<Part>,
        bin: Vec<Box<dyn SimObject>>,
    ) -> Result<Machine, NoMemory>
        requires blank { AreBlank (map (λ b. state b) bin.items) }
        requires valid { IsValidConfig c.now }
        requires rows { map part_shown rows.items ≡ platform c.now }
        requires enough { AreEnough (map (λ b. state b) bin.items) (platform c.now) }
        ensures built { IfOk result (λ m. sys_of state m ≡ standing c.now [] (all_configured c.now 0 (platform c.now))) }
        ensures table { IfOk result (λ m. m.queue.table ≡ given_table 0 (platform c.now)) }
        ensures named { IfOk result (λ m. named_of m ≡ named_by c.now) }
    {
        let mut parts = draw(alloc, rows.as_slice(), bin)?;
        let counts = counts(alloc, rows.as_slice())?;
        let mut queue = EventQueue::new(alloc, counts.as_slice())?;
        configure_parts(alloc, c, rows.as_slice(), &mut parts, &mut queue)?;
        Machine::of_parts(alloc, c, rows, parts, queue)
    }

    /// The machine of configured parts and the queue of their events.
    fn of_parts(
        alloc: Global,
        c: &Config,
        rows: Vec<Part>,
        parts: Vec<Box<dyn SimObject>>,
        queue: EventQueue,
    ) -> Result<Machine, NoMemory>
        requires valid { IsValidConfig c.now }
        requires rows { map part_shown rows.items ≡ platform c.now }
        ensures machine { IfOk result (λ m. sys_of state m
            ≡ standing c.now queue.pending (map (λ b. state b) parts.items)) }
        ensures table { IfOk result (λ m. m.queue.table ≡ queue.table) }
        ensures named { IfOk result (λ m. named_of m ≡ named_by c.now) }
    {
        let counters = Counters::new(alloc, c)?;
        let board = Board::new(rows);
        let tick = counters.since();
        Ok(Machine {
            board,
            parts,
            queue,
            out: Outbox::new(alloc)?,
            counters,
            tick,
            trace: false,
            draining: true,
        })
    }
}
