// The exit device: the guest ends its run with the first number that it writes there. This project's own device.
// Not modelled: reads, which are refused, and a second number, which is lost.
ghost use Rattle.std.specs.Prelude.{◌≡◌, ◌≤◌, if◌then◌else◌, refl};
ghost use Rattle.gm_model.specs.ObjState.{Exit};
ghost use Rattle.gm_words.specs.Numbers.{carried_number};
ghost use Rattle.gm_model.specs.ExitDevice.{serve_exit};
ghost use Rattle.gm_words.specs.declared.kind.Kind.TheVariants as kinds;
ghost use Rattle.obj_core.specs.Out.{HasRoom, extended};
ghost use Rattle.rv_step.specs.Flat.{in_exit};

use gc_base::{NoMemory, Tick};
use gm_model::platform::EXIT_BASE;
use gm_model::{Cmd, Kind, Own, Packet, Params};
use obj_core::{Flow, Outbox};
use obj_server::{DEVICE_PLACES, Device, OwnEvent, Served, ServedBy, Start, answer_write, refuse};
use std::alloc::Global;

/// The size of the register, in bytes. It is at the first address of the device.
const REGISTER_SIZE: u8 = 4;

/// The exit device as a part.
pub type ExitDev = Served<ExitDevice>;

/// The exit device: it keeps the first number that the guest writes.
#[derive(Drop)]
pub struct ExitDevice {
    code: Option<u32>,
}

/// The number that a write of four bytes brings, if it is for the register.
fn written(p: &Packet) -> Option<u32>
    ensures { result ≡ (if in_exit p.now.addr p.now.size then Some (carried_number p.now) else None) }
{
    let [a, b, c, d] = [p.bytes[0], p.bytes[1], p.bytes[2], p.bytes[3]];
    if p.addr == EXIT_BASE && p.size == REGISTER_SIZE {
        Some(u32::from_le_bytes([a, b, c, d]))
    } else {
        None
    }
}

impl ExitDevice {
    /// Serves a write.
    fn write(&mut self, p: &mut Packet, out: &mut Outbox)
        requires size { p.old.size ≤ 64 }
        requires room { HasRoom out.old }
        requires write { p.old.cmd ≡ Cmd.Write }
        ensures device { Exit self.new.code ≡ (serve_exit self.old.code p.old Cmd.Write (in_exit p.old.addr p.old.size)).device }
        ensures response { p.new ≡ (serve_exit self.old.code p.old Cmd.Write (in_exit p.old.addr p.old.size)).response }
        ensures out { out.new ≡ extended out.old (serve_exit self.old.code p.old Cmd.Write (in_exit p.old.addr p.old.size)).acts
            (serve_exit self.old.code p.old Cmd.Write (in_exit p.old.addr p.old.size)).entries out.old.next }
    {
        match written(p) {
            Some(code) => {
                self.code = self.code.or(Some(code));
                answer_write(p, ServedBy::Device, out);
            }
            None => refuse(p, out),
        }
    }
}

impl Device for ExitDevice {
    ghost shown = { λ e. Exit e.code };

    ghost kind = { kinds.Exit };

    fn kind() -> Kind {
        Kind::Exit
    }

    // Set-up.

    fn start(_alloc: Global, params: &Params) -> Result<Start<ExitDevice>, NoMemory> {
        let Own::Exit { latency } = params.own else {
            unreachable!()
        };
        Ok(Start {
            latency,
            places: DEVICE_PLACES,
            device: ExitDevice { code: None },
        })
    }

    // Requests, responses and own events.

    #[inline(always)]
    fn serve(&mut self, p: &mut Packet, _now: Tick, out: &mut Outbox) -> OwnEvent {
        match p.cmd {
            Cmd::Write => self.write(p, out),
            Cmd::Read => refuse(p, out),
            Cmd::WriteBack | Cmd::ReadResp | Cmd::WriteResp => {}
        }
        OwnEvent::Stays
    }

    fn event(&mut self, _out: &mut Outbox) {}

    // Functional access and own bytes: it has none.

    fn functional(&self, _p: &mut Packet, _queue: &Flow) {}

    fn own_bytes(&self, _at: u64, _to: &mut [u8]) -> bool {
        false
    }

    fn put_own_bytes(&mut self, _at: u64, _from: &[u8]) -> bool {
        false
    }

    // Exit and input: it has the number.

    fn exit_code(&self) -> Option<u32> {
        self.code
    }

    fn input(&mut self, _byte: u8) -> bool {
        false
    }

    ghost shows_kind = { λ e. refl };
}
