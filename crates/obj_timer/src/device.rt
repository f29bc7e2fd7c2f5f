// The timer: a line that software sets, and a clock that is compared with a number.
// Modelled are msip, mtimecmp and mtime of the RISC-V privileged manual, "Machine Timer Registers", at SiFive's offsets.
// How long a period of the clock is, in ticks, is this project's own rule. Not modelled: writes to mtime and accesses to a
// part of a register, which are refused.
ghost use Rattle.std.specs.Prelude.{◌≡◌, ◌≤◌, refl};
ghost use Rattle.gc_base.specs.declared.limits.TheConstants.{PERIOD_MAX};
ghost use Rattle.gm_words.specs.declared.kind.Kind.TheVariants as kinds;

use gc_base::{NoMemory, Tick};
use gm_model::{Cmd, Kind, Own, Packet, Params};
use obj_core::{Flow, Outbox};
use obj_server::{DEVICE_PLACES, Device, OwnEvent, Served, Start};
use std::alloc::Global;

/// The timer as a part.
pub type Timer = Served<TimerDevice>;

/// The timer: the level of each of its lines, and the number that its clock is compared with.
#[derive(Drop)]
pub struct TimerDevice {
    /// A period of the clock, in ticks.
    pub(crate) period: u64,
    /// The level of the software line.
    pub(crate) msip: bool,
    /// The number that the clock is compared with, in periods.
    pub(crate) mtimecmp: u64,
    /// The level of the clock's line.
    pub(crate) level: bool,
    ghost runs: { 1 ≤ period },
    ghost short: { period ≤ PERIOD_MAX },
}

impl Device for TimerDevice {
    ghost use Rattle.gm_model.specs.ObjState.{Timer as TimerPart};
    ghost use Rattle.obj_timer.specs.State.{timer_of};

    ghost shown = { λ t. TimerPart (timer_of t) };

    ghost kind = { kinds.Timer };

    fn kind() -> Kind {
        Kind::Timer
    }

    // Set-up.

    fn start(_alloc: Global, params: &Params) -> Result<Start<TimerDevice>, NoMemory> {
        let Own::Timer { latency, period } = params.own else {
            unreachable!()
        };
        Ok(Start {
            latency,
            places: DEVICE_PLACES,
            device: TimerDevice {
                period,
                msip: false,
                mtimecmp: u64::MAX,
                level: false,
            },
        })
    }

    // Requests, responses and own events.

    fn serve(&mut self, p: &mut Packet, now: Tick, out: &mut Outbox) -> OwnEvent {
        match p.cmd {
            Cmd::Read => {
                self.read(p, now, out);
                OwnEvent::Stays
            }
            Cmd::Write => self.write(p, now, out),
            Cmd::WriteBack | Cmd::ReadResp | Cmd::WriteResp => OwnEvent::Stays,
        }
    }

    /// The clock has come to the number.
    fn event(&mut self, out: &mut Outbox) {
        self.set_level(true, out);
    }

    // Functional access and own bytes: it has none.

    fn functional(&self, _p: &mut Packet, _queue: &Flow) {}

    fn own_bytes(&self, _at: u64, _to: &mut [u8]) -> bool {
        false
    }

    fn put_own_bytes(&mut self, _at: u64, _from: &[u8]) -> bool {
        false
    }

    // Exit and input: other devices have them.

    fn exit_code(&self) -> Option<u32> {
        None
    }

    fn input(&mut self, _byte: u8) -> bool {
        false
    }

    ghost shows_kind = { λ t. refl };
}
