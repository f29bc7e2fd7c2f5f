// What serves a server's requests.
ghost use Rattle.std.specs.Prelude.{◌≡◌, ◌+◌, ◌≤◌, [], length, take, drop, is_some, if◌then◌else◌, IfOk, IfSome, MatchOption};
ghost use Rattle.gc_base.specs.declared.limits.TheConstants.{LATENCY_MAX};
ghost use Rattle.gm_words.specs.Allowed.{IsAllowed};
ghost use Rattle.gm_words.specs.Kind.{kind_of_own};
ghost use Rattle.gm_model.specs.ObjState.{device_kind};
ghost use Rattle.gm_model.specs.Server.{serve, server_start, device_after_event, event_acts, device_bytes, device_with_bytes};
ghost use Rattle.gm_model.specs.Server.{device_code, device_takes_input, device_with_input};
ghost use Rattle.gm_model.specs.Command.{start_of};
ghost use Rattle.obj_core.specs.Out.{HasRoom, extended};
ghost use Rattle.obj_server.specs.Device.{own_changes, ReadsAtOnce};

use crate::own_event::OwnEvent;
use gc_base::limits::TOP;
use gc_base::{NoMemory, Tick};
use gm_model::{Kind, Packet, Params};
use obj_core::{Flow, Outbox};
use std::alloc::Global;

/// How many requests the queue of a device has a place for. A memory's number is configured.
pub const DEVICE_PLACES: u32 = 1;

/// A device at its start, and how it is served.
#[derive(Drop)]
pub struct Start<D: Drop> {
    /// How long a request takes, in ticks.
    pub latency: u64,
    /// How many requests the queue has a place for.
    pub places: u32,
    pub device: D,
}

/// What serves a server's requests: RAM, or a device with registers.
///
/// - A device is made once, and only that takes memory.
/// - It serves a request at once, and notes it. What it asks for stands before the response.
/// - It holds no handle. What becomes of the event of its own slot is what it answers.
/// - What it hasn't, as bytes, input or an exit number, it denies.
pub trait Device: Drop {
    ghost use Rattle.gm_model.specs.ObjState.{Device as DeviceState};
    ghost use Rattle.gm_words.specs.declared.kind.Kind.{Kind as PartKind};

    /// The device's state, however it is kept.
    ghost shown: { Self → DeviceState };

    /// The kind of the server.
    ghost kind: { PartKind };

    /// The kind of the server.
    fn kind() -> Kind
        ensures { result ≡ kind };

    /// The device at its start.
    fn start(alloc: Global, params: &Params) -> Result<Start<Self>, NoMemory>
        requires kind { kind_of_own params.now.own ≡ kind }
        requires allowed { IsAllowed params.now }
        ensures state { IfOk result (λ s. server_start params.now s.latency s.places (shown s.device) ≡ start_of params.now params.now.own) }
        ensures latency { IfOk result (λ s. s.latency ≤ LATENCY_MAX) };

    /// Serves a request: it becomes the response. It answers what becomes of the device's own event.
    fn serve(&mut self, p: &mut Packet, now: Tick, out: &mut Outbox) -> OwnEvent
        requires size { p.old.size ≤ 64 }
        requires tick { now ≤ TOP }
        requires room { HasRoom out.old }
        ensures device { shown self.new ≡ (serve (shown self.old) p.old now).device }
        ensures response { p.new ≡ (serve (shown self.old) p.old now).response }
        ensures changes { own_changes result ≡ (serve (shown self.old) p.old now).changes }
        ensures out { out.new ≡ extended out.old (serve (shown self.old) p.old now).acts
            (serve (shown self.old) p.old now).entries out.old.next };

    /// Its own event is served.
    fn event(&mut self, out: &mut Outbox)
        requires { HasRoom out.old }
        ensures device { shown self.new ≡ device_after_event (shown self.old) }
        ensures out { out.new ≡ extended out.old (event_acts (shown self.old)) [] out.old.next };

    /// Answers a read without time, if it keeps the bytes: a write-back in the queue is newer than what it keeps.
    fn functional(&self, p: &mut Packet, queue: &Flow)
        requires { p.old.size ≤ 64 }
        ensures { ReadsAtOnce (shown self.now) queue.now.flow.items p.old p.new };

    /// Reads the bytes that it keeps, from a place on; false if it keeps none.
    fn own_bytes(&self, at: u64, to: &mut [u8]) -> bool
        requires within { IfSome (device_bytes (shown self.now)) (λ m. at + length to.old ≤ length m) }
        ensures keeps { result ≡ is_some (device_bytes (shown self.now)) }
        ensures bytes { MatchOption (device_bytes (shown self.now)) (to.new ≡ to.old) (λ m. to.new ≡ take (length to.old) (drop at m)) };

    /// Sets the bytes that it keeps, from a place on; false if it keeps none.
    fn put_own_bytes(&mut self, at: u64, from: &[u8]) -> bool
        requires within { IfSome (device_bytes (shown self.old)) (λ m. at + length from.now ≤ length m) }
        ensures keeps { result ≡ is_some (device_bytes (shown self.old)) }
        ensures device { shown self.new ≡ device_with_bytes at from.now (shown self.old) };

    /// The number with which the guest has exited, if it keeps one.
    fn exit_code(&self) -> Option<u32>
        ensures { result ≡ device_code (shown self.now) };

    /// Takes a byte of input; false if it has no place.
    fn input(&mut self, byte: u8) -> bool
        ensures taken { result ≡ device_takes_input (shown self.old) }
        ensures device { shown self.new ≡ (if device_takes_input (shown self.old) then device_with_input byte (shown self.old) else shown self.old) };

    /// What it shows is a device of its kind.
    ghost shows_kind: { (d : Self) → device_kind (shown d) ≡ kind };
}
