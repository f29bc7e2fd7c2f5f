// A part of the machine, as the kernel sees it.
ghost use Rattle.std.specs.Prelude.{◌≡◌, ◌+◌, ◌≤◌, length, take, drop, is_some, slice_get, OnOk, IfSome, MatchOption};
ghost use Rattle.std.specs.Option.{option_map};
ghost use Rattle.gm_words.specs.Allowed.{IsAllowed, MayCome, MayPass};
ghost use Rattle.gm_words.specs.Kind.{kind_of_own};
ghost use Rattle.gm_model.specs.ObjState.{kind_of, IsBlank};
ghost use Rattle.gm_model.specs.Ports.{ComesWithin};
ghost use Rattle.gm_model.specs.ObjectStep.{object_step, atomic_step, functional_step};
ghost use Rattle.gm_model.specs.Command.{start_of, with_mode, drain_step, is_drained, resume_step, invalidated, arch_of, with_arch, exit_code, takes_input, with_input, own_bytes, with_own_bytes, lines_of};
ghost use Rattle.gm_words.specs.declared.way.Way.TheVariants.{Done};
ghost use Rattle.obj_core.specs.Handles.{AreHandlesOf, HasHandles};
ghost use Rattle.obj_core.specs.Events.{with_changes};
ghost use Rattle.obj_core.specs.Out.{HasRoom, extended};
ghost use Rattle.obj_core.specs.Lines.{dirty_lines, line_info, line_address, line_bytes};

use crate::handles::Handles;
use crate::line_info::LineInfo;
use crate::outbox::Outbox;
use ev_queue::EventQueue;
use gc_base::limits::TOP;
use gc_base::{NoMemory, Tick};
use gm_model::{Answer, Kind, Packet, Params, Wake, Way};
use rv_step::Arch;
use std::alloc::Global;

/// A part of the machine: a CPU, a crossbar, memory or a device.
///
/// - A part is configured once, and only that takes memory.
/// - What a part does at a wake depends on its own state, the next packet number and the tick alone.
/// - It changes no event but its own, by the handles that it was configured with (`KeepsOthersEvents`).
/// - It calls no other part. What it wants of another it asks for in the outbox, and the kernel delivers it in order.
/// - An offer is answered at once, `Taken` or `Refused`. Who was refused keeps the packet until it is called (`Retry`).
/// - Who refused calls those that wait, once it can take a packet again, and each of them once.
/// - It draws a packet number for each request that it makes, and a response keeps the number.
/// - A packet that is passed at once is served, or passed on, before the call ends.
/// - Functional access changes nothing but the packet.
/// - A part that drains begins nothing new between two instructions, and goes on where it is resumed.
pub trait SimObject: Drop {
    ghost use Rattle.gm_model.specs.ObjState.{ObjState};

    /// The part's state, however it is kept.
    ghost state: { Self → ObjState };

    /// The kind of the part.
    fn kind(&self) -> Kind
        ensures { result ≡ kind_of (state self.now) };

    /// Takes the part's memory and puts it at its start. After an `Err` it may only be dropped.
    fn configure(
        &mut self,
        alloc: Global,
        params: &Params,
        handles: Handles,
    ) -> Result<(), NoMemory>
        requires blank { IsBlank (state self.old) }
        requires kind { kind_of_own params.now.own ≡ kind_of (state self.old) }
        requires allowed { IsAllowed params.now }
        requires handles { AreHandlesOf params.now handles }
        ensures { OnOk result (state self.new ≡ start_of params.now params.now.own) };

    /// Its step rule.
    fn wake(&mut self, w: Wake, now: Tick, q: &mut EventQueue, out: &mut Outbox) -> Answer
        requires handles { HasHandles q.old.table (state self.old) }
        requires wake { MayCome w }
        requires port { ComesWithin (state self.old) w }
        requires tick { now ≤ TOP }
        requires room { HasRoom out.old }
        ensures state { state self.new ≡ (object_step (state self.old) out.old.next w now).state }
        ensures events { q.new ≡ with_changes q.old (state self.old) (object_step (state self.old) out.old.next w now).changes }
        ensures out { out.new ≡ extended out.old (object_step (state self.old) out.old.next w now).acts
            (object_step (state self.old) out.old.next w now).entries (object_step (state self.old) out.old.next w now).next }
        ensures answer { result ≡ (object_step (state self.old) out.old.next w now).answer };

    /// What becomes of a packet that is passed to it at once.
    fn atomic(&mut self, p: &mut Packet, now: Tick, q: &mut EventQueue, out: &mut Outbox) -> Way
        requires handles { HasHandles q.old.table (state self.old) }
        requires packet { MayPass p.old }
        requires tick { now ≤ TOP }
        requires room { HasRoom out.old }
        ensures state { state self.new ≡ (atomic_step (state self.old) p.old now).state }
        ensures packet { p.new ≡ (atomic_step (state self.old) p.old now).packet }
        ensures events { q.new ≡ with_changes q.old (state self.old) (atomic_step (state self.old) p.old now).changes }
        ensures out { out.new ≡ extended out.old (atomic_step (state self.old) p.old now).acts
            (atomic_step (state self.old) p.old now).entries out.old.next }
        ensures way { result ≡ (atomic_step (state self.old) p.old now).way };

    /// What becomes of a read that is passed to it without time.
    fn functional(&self, p: &mut Packet) -> Way
        requires { MayPass p.old }
        ensures packet { p.new ≡ functional_step (state self.now) p.old }
        ensures way { result ≡ Done 0 };

    /// Reads the bytes that the part itself keeps, from a place on; false if it keeps none.
    fn own_bytes(&self, at: u64, to: &mut [u8]) -> bool
        requires within { IfSome (own_bytes (state self.now)) (λ m. at + length to.old ≤ length m) }
        ensures keeps { result ≡ is_some (own_bytes (state self.now)) }
        ensures bytes { MatchOption (own_bytes (state self.now)) (to.new ≡ to.old) (λ m. to.new ≡ take (length to.old) (drop at m)) };

    /// Sets the bytes that the part itself keeps, from a place on; false if it keeps none.
    fn put_own_bytes(&mut self, at: u64, from: &[u8]) -> bool
        requires within { IfSome (own_bytes (state self.old)) (λ m. at + length from.now ≤ length m) }
        ensures keeps { result ≡ is_some (own_bytes (state self.old)) }
        ensures state { state self.new ≡ with_own_bytes at from.now (state self.old) };

    /// Sets the mode.
    fn set_mode(&mut self, timing: bool)
        ensures { state self.new ≡ with_mode timing (state self.old) };

    /// Asks it to drain.
    fn drain(&mut self, q: &mut EventQueue)
        requires { HasHandles q.old.table (state self.old) }
        ensures state { state self.new ≡ (drain_step (state self.old)).state }
        ensures events { q.new ≡ with_changes q.old (state self.old) (drain_step (state self.old)).changes };

    /// Whether it holds nothing that has to be served first.
    fn drained(&self) -> bool
        ensures { result ≡ is_drained (state self.now) };

    /// Lets it go on.
    fn resume(&mut self, now: Tick, q: &mut EventQueue)
        requires handles { HasHandles q.old.table (state self.old) }
        requires tick { now ≤ TOP }
        ensures state { state self.new ≡ (resume_step (state self.old) now).state }
        ensures events { q.new ≡ with_changes q.old (state self.old) (resume_step (state self.old) now).changes };

    /// The address of the n-th dirty line, and its bytes.
    fn dirty_line(&self, n: u32, bytes: &mut [u8; 64]) -> Option<u64>
        ensures line { result ≡ option_map line_address (slice_get (dirty_lines (lines_of (state self.now))) n) }
        ensures bytes { bytes.new ≡ line_bytes (slice_get (dirty_lines (lines_of (state self.now))) n) bytes.old };

    /// What is told of the n-th line, and its bytes.
    fn any_line(&self, n: u32, bytes: &mut [u8; 64]) -> Option<LineInfo>
        ensures line { result ≡ option_map line_info (slice_get (lines_of (state self.now)) n) }
        ensures bytes { bytes.new ≡ line_bytes (slice_get (lines_of (state self.now)) n) bytes.old };

    /// Forgets all lines, dirty ones too.
    fn invalidate(&mut self)
        ensures { state self.new ≡ invalidated (state self.old) };

    /// The hart's state, if it is the active CPU.
    fn arch(&self) -> Option<Arch>
        ensures { result ≡ arch_of (state self.now) };

    /// Takes the hart's state out, if it is the active CPU, which is inactive then.
    fn take_arch(&mut self) -> Option<Arch>
        ensures arch { result ≡ arch_of (state self.old) }
        ensures state { state self.new ≡ with_arch None (state self.old) };

    /// Makes it the active CPU, with this state of the hart.
    fn give_arch(&mut self, a: Arch)
        ensures { state self.new ≡ with_arch (Some a) (state self.old) };

    /// The number with which the guest has exited, if it is the exit device.
    fn exit_code(&self) -> Option<u32>
        ensures { result ≡ exit_code (state self.now) };

    /// Takes a byte of input; false if it is no UART or has no place.
    fn input(&mut self, byte: u8) -> bool
        ensures taken { result ≡ takes_input (state self.old) }
        ensures state { state self.new ≡ with_input byte (state self.old) };
}
