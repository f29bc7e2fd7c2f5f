// One boxed part at a time: each call here is that of the part, whichever it is.
ghost use Rattle.std.specs.Prelude.{◌≡◌, ◌+◌, ◌≤◌, length, take, drop, is_some, OnOk, IfSome, MatchOption};
ghost use Rattle.gc_base.specs.declared.limits.TheConstants.{TOP};
ghost use Rattle.gm_words.specs.Allowed.{IsAllowed, MayCome, MayPass};
ghost use Rattle.gm_words.specs.Kind.{kind_of_own};
ghost use Rattle.gm_model.specs.ObjState.{kind_of, IsBlank};
ghost use Rattle.gm_model.specs.Ports.{ComesWithin};
ghost use Rattle.gm_model.specs.ObjectStep.{object_step, atomic_step};
ghost use Rattle.gm_model.specs.Command.{start_of, resume_step, arch_of, with_arch, with_mode, exit_code, takes_input, with_input, own_bytes, with_own_bytes};
ghost use Rattle.obj_core.specs.Handles.{AreHandlesOf, HasHandles};
ghost use Rattle.obj_core.specs.Events.{with_changes};
ghost use Rattle.obj_core.specs.Out.{HasRoom, extended};

use ev_queue::EventQueue;
use gc_base::{NoMemory, Tick};
use gm_model::{Answer, Kind, Packet, Params, Wake, Way};
use obj_core::{Handles, Outbox, SimObject};
use rv_step::Arch;
use std::alloc::Global;

pub(crate) fn kind_of_box(part: &Box<dyn SimObject>) -> Kind
    ensures { result ≡ kind_of (state part.now) }
{
    part.kind()
}

pub(crate) fn configure_box(
    part: &mut Box<dyn SimObject>,
    alloc: Global,
    params: &Params,
    handles: Handles,
) -> Result<(), NoMemory>
    requires blank { IsBlank (state part.old) }
    requires kind { kind_of_own params.now.own ≡ kind_of (state part.old) }
    requires allowed { IsAllowed params.now }
    requires handles { AreHandlesOf params.now handles }
    ensures { OnOk result (state part.new ≡ start_of params.now params.now.own) }
{
    part.configure(alloc, params, handles)
}

pub(crate) fn wake_box(
    part: &mut Box<dyn SimObject>,
    w: Wake,
    now: Tick,
    q: &mut EventQueue,
    out: &mut Outbox,
) -> Answer
    requires handles { HasHandles q.old.table (state part.old) }
    requires wake { MayCome w }
    requires port { ComesWithin (state part.old) w }
    requires tick { now ≤ TOP }
    requires room { HasRoom out.old }
    ensures state { state part.new ≡ (object_step (state part.old) out.old.next w now).state }
    ensures events { q.new ≡ with_changes q.old (state part.old) (object_step (state part.old) out.old.next w now).changes }
    ensures out { out.new ≡ extended out.old (object_step (state part.old) out.old.next w now).acts
        (object_step (state part.old) out.old.next w now).entries (object_step (state part.old) out.old.next w now).next }
    ensures answer { result ≡ (object_step (state part.old) out.old.next w now).answer }
{
    part.wake(w, now, q, out)
}

pub(crate) fn pass_box(
    part: &mut Box<dyn SimObject>,
    p: &mut Packet,
    now: Tick,
    q: &mut EventQueue,
    out: &mut Outbox,
) -> Way
    requires handles { HasHandles q.old.table (state part.old) }
    requires packet { MayPass p.old }
    requires tick { now ≤ TOP }
    requires room { HasRoom out.old }
    ensures state { state part.new ≡ (atomic_step (state part.old) p.old now).state }
    ensures packet { p.new ≡ (atomic_step (state part.old) p.old now).packet }
    ensures events { q.new ≡ with_changes q.old (state part.old) (atomic_step (state part.old) p.old now).changes }
    ensures out { out.new ≡ extended out.old (atomic_step (state part.old) p.old now).acts
        (atomic_step (state part.old) p.old now).entries out.old.next }
    ensures way { result ≡ (atomic_step (state part.old) p.old now).way }
{
    part.atomic(p, now, q, out)
}

pub(crate) fn resume_box(part: &mut Box<dyn SimObject>, now: Tick, q: &mut EventQueue)
    requires handles { HasHandles q.old.table (state part.old) }
    requires tick { now ≤ TOP }
    ensures state { state part.new ≡ (resume_step (state part.old) now).state }
    ensures events { q.new ≡ with_changes q.old (state part.old) (resume_step (state part.old) now).changes }
{
    part.resume(now, q);
}

pub(crate) fn input_box(part: &mut Box<dyn SimObject>, byte: u8) -> bool
    ensures taken { result ≡ takes_input (state part.old) }
    ensures state { state part.new ≡ with_input byte (state part.old) }
{
    part.input(byte)
}

pub(crate) fn set_mode_box(part: &mut Box<dyn SimObject>, timing: bool)
    ensures { state part.new ≡ with_mode timing (state part.old) }
{
    part.set_mode(timing);
}

pub(crate) fn give_arch_box(part: &mut Box<dyn SimObject>, a: Arch)
    ensures { state part.new ≡ with_arch (Some a) (state part.old) }
{
    part.give_arch(a);
}

pub(crate) fn arch_box(part: &Box<dyn SimObject>) -> Option<Arch>
    ensures { result ≡ arch_of (state part.now) }
{
    part.arch()
}

pub(crate) fn exit_box(part: &Box<dyn SimObject>) -> Option<u32>
    ensures { result ≡ exit_code (state part.now) }
{
    part.exit_code()
}

pub(crate) fn read_box(part: &Box<dyn SimObject>, at: u64, to: &mut [u8]) -> bool
    requires within { IfSome (own_bytes (state part.now)) (λ m. at + length to.old ≤ length m) }
    ensures keeps { result ≡ is_some (own_bytes (state part.now)) }
    ensures bytes { MatchOption (own_bytes (state part.now)) (to.new ≡ to.old) (λ m. to.new ≡ take (length to.old) (drop at m)) }
{
    part.own_bytes(at, to)
}

pub(crate) fn write_box(part: &mut Box<dyn SimObject>, at: u64, from: &[u8])
    requires within { IfSome (own_bytes (state part.old)) (λ m. at + length from.now ≤ length m) }
    ensures { state part.new ≡ with_own_bytes at from.now (state part.old) }
{
    part.put_own_bytes(at, from);
}
