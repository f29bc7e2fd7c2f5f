// How the timer serves a request.
ghost use Rattle.std.specs.Prelude.{◌≡◌, ◌≤◌, ◌<◌, [], ◌∷◌, length};
ghost use Rattle.gm_model.specs.ObjState.{Timer as TimerPart};
ghost use Rattle.gm_words.specs.Platform.{software_line};
ghost use Rattle.gm_words.specs.declared.act.Act.TheVariants.{SetLine};
ghost use Rattle.pkt_pool.specs.declared.cmd.Cmd.TheVariants.{Read, Write};
ghost use Rattle.obj_core.specs.Out.{HasRoom, extended};
ghost use Rattle.obj_server.specs.Device.{own_changes};
ghost use Rattle.obj_timer.specs.Serves.{serves_read, serves_write};
ghost use Rattle.obj_timer.specs.State.{timer_of};

use crate::device::TimerDevice;
use crate::registers::{Register, addressed, double_word, word};
use gc_base::Tick;
use gc_base::limits::TOP;
use gm_model::{Act, Packet};
use obj_core::Outbox;
use obj_server::{OwnEvent, ServedBy, answer_read, answer_write, refuse};

/// The hart's line that software sets, a bit of mip: the machine software interrupt.
const SOFTWARE_LINE: u8 = 3;

impl TimerDevice {
    // Reads.

    /// Serves a read.
    pub(crate) fn read(&self, p: &mut Packet, now: Tick, out: &mut Outbox)
        requires size { p.old.size ≤ 64 }
        requires read { p.old.cmd ≡ Read }
        requires room { HasRoom out.old }
        ensures response { p.new ≡ (serves_read self.now p.old now).response }
        ensures out { out.new ≡ extended out.old [] (serves_read self.now p.old now).entries out.old.next }
    {
        match addressed(p) {
            Register::Msip => answer_read(
                p,
                &u32::from(self.msip).to_le_bytes(),
                ServedBy::Device,
                out,
            ),
            Register::Mtimecmp => answer_read(
                p,
                &self.mtimecmp.to_le_bytes(),
                ServedBy::Device,
                out,
            ),
            Register::Mtime => answer_read(
                p,
                &self.clock(now).to_le_bytes(),
                ServedBy::Device,
                out,
            ),
            Register::Nowhere => refuse(p, out),
        }
    }

    // Writes.

    /// Serves a write. It answers what becomes of the timer's own event.
    pub(crate) fn write(&mut self, p: &mut Packet, now: Tick, out: &mut Outbox) -> OwnEvent
        requires size { p.old.size ≤ 64 }
        requires write { p.old.cmd ≡ Write }
        requires tick { now ≤ TOP }
        requires room { HasRoom out.old }
        ensures device { TimerPart (timer_of self.new) ≡ (serves_write self.old p.old now).device }
        ensures response { p.new ≡ (serves_write self.old p.old now).response }
        ensures changes { own_changes result ≡ (serves_write self.old p.old now).changes }
        ensures out { let r = serves_write self.old p.old now in out.new ≡ extended out.old r.acts r.entries out.old.next }
    {
        match addressed(p) {
            Register::Msip => {
                let level = word(p) % 2 == 1;
                answer_write(p, ServedBy::Device, out);
                self.signal(level, out);
                OwnEvent::Stays
            }
            Register::Mtimecmp => {
                let number = double_word(p);
                answer_write(p, ServedBy::Device, out);
                self.compare(number, now, out)
            }
            Register::Mtime | Register::Nowhere => {
                refuse(p, out);
                OwnEvent::Stays
            }
        }
    }

    /// Sets the software line, and tells its level.
    fn signal(&mut self, level: bool, out: &mut Outbox)
        requires { length out.old.items < 272 }
        ensures device { self.new ≡ record self.old { msip = level } }
        ensures out { out.new ≡ extended out.old (SetLine software_line level ∷ []) [] out.old.next }
    {
        self.msip = level;
        out.push(Act::SetLine {
            bit: SOFTWARE_LINE,
            level,
        });
    }
}
