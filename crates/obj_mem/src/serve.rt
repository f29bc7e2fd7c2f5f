// How RAM serves a request.
ghost use Rattle.std.specs.Prelude.{◌≡◌, ◌≤◌};
ghost use Rattle.rv_step.specs.FlatMem.{in_ram};
ghost use Rattle.gm_model.specs.ObjState.{Memory};
ghost use Rattle.gm_model.specs.Memory.{serve_memory};
ghost use Rattle.pkt_pool.specs.declared.cmd.Cmd.TheVariants.{Read, Write};
ghost use Rattle.obj_core.specs.Out.{HasRoom, extended};

use crate::ram::Ram;
use gm_model::{Cmd, Packet};
use obj_core::Outbox;
use obj_server::{ServedBy, answer_read, answer_write, refuse};

impl Ram {
    /// Serves a request, and notes it.
    #[inline(always)]
    pub(crate) fn serve_request(&mut self, p: &mut Packet, out: &mut Outbox)
        requires size { p.old.size ≤ 64 }
        requires room { HasRoom out.old }
        ensures device { Memory self.new ≡ (serve_memory self.old p.old p.old.cmd (in_ram self.old p.old.addr p.old.size)).device }
        ensures response { p.new ≡ (serve_memory self.old p.old p.old.cmd (in_ram self.old p.old.addr p.old.size)).response }
        ensures out { out.new ≡ extended out.old (serve_memory self.old p.old p.old.cmd (in_ram self.old p.old.addr p.old.size)).acts
            (serve_memory self.old p.old p.old.cmd (in_ram self.old p.old.addr p.old.size)).entries out.old.next }
    {
        let within = self.holds(p.addr, p.size);
        match p.cmd {
            Cmd::Read => self.serve_read(p, within, out),
            Cmd::Write => self.serve_write(p, within, out),
            Cmd::WriteBack => {
                if within {
                    self.keep(p);
                }
            }
            Cmd::ReadResp | Cmd::WriteResp => {}
        }
    }

    /// Serves a read, which lies in RAM or is refused.
    #[inline(always)]
    fn serve_read(&self, p: &mut Packet, within: bool, out: &mut Outbox)
        requires cmd { p.old.cmd ≡ Read }
        requires size { p.old.size ≤ 64 }
        requires within { within ≡ in_ram self.now p.old.addr p.old.size }
        requires room { HasRoom out.old }
        ensures response { p.new ≡ (serve_memory self.now p.old Read within).response }
        ensures out { out.new ≡ extended out.old (serve_memory self.now p.old Read within).acts
            (serve_memory self.now p.old Read within).entries out.old.next }
    {
        if within {
            answer_read(p, self.bytes_at(p.addr, p.size), ServedBy::Ram, out);
        } else {
            refuse(p, out);
        }
    }

    /// Serves a write, which lies in RAM or is refused.
    #[inline(always)]
    fn serve_write(&mut self, p: &mut Packet, within: bool, out: &mut Outbox)
        requires cmd { p.old.cmd ≡ Write }
        requires size { p.old.size ≤ 64 }
        requires within { within ≡ in_ram self.old p.old.addr p.old.size }
        requires room { HasRoom out.old }
        ensures device { Memory self.new ≡ (serve_memory self.old p.old Write within).device }
        ensures response { p.new ≡ (serve_memory self.old p.old Write within).response }
        ensures out { out.new ≡ extended out.old (serve_memory self.old p.old Write within).acts
            (serve_memory self.old p.old Write within).entries out.old.next }
    {
        if within {
            self.keep(p);
            answer_write(p, ServedBy::Ram, out);
        } else {
            refuse(p, out);
        }
    }
}
