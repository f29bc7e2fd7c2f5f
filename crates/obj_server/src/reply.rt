// How a server answers or refuses a request.
ghost use Rattle.std.specs.Prelude.{◌≡◌, ◌<◌, ◌≤◌, [], length, true};
ghost use Rattle.pkt_pool.specs.Packet.{read_response as response_with, write_response, fault_response};
ghost use Rattle.gm_words.specs.Entries.{served_entries};
ghost use Rattle.obj_core.specs.Out.{extended};
ghost use Rattle.obj_server.specs.ServedBy.{is_device};

use crate::note::note_served;
use crate::served_by::ServedBy;
use gm_model::{Cmd, Packet};
use obj_core::Outbox;

/// Answers a read with these bytes, and notes who served it.
#[inline(always)]
pub fn answer_read(p: &mut Packet, bytes: &[u8], by: ServedBy, out: &mut Outbox)
    requires size { p.old.size ≤ 64 }
    requires bytes { length bytes.now ≤ 64 }
    requires room { length out.old.entries < 528 }
    ensures packet { p.new ≡ response_with p.old bytes.now }
    ensures noted { out.new ≡ extended out.old [] (served_entries p.old p.new (is_device by)) out.old.next }
{
    let cmd = p.cmd;
    p.answer(bytes);
    note_served(cmd, p, by, out);
}

/// Answers a write, and notes who served it.
#[inline(always)]
pub fn answer_write(p: &mut Packet, by: ServedBy, out: &mut Outbox)
    requires size { p.old.size ≤ 64 }
    requires room { length out.old.entries < 528 }
    ensures packet { p.new ≡ write_response p.old }
    ensures noted { out.new ≡ extended out.old [] (served_entries p.old p.new (is_device by)) out.old.next }
{
    let cmd = p.cmd;
    p.cmd = Cmd::WriteResp;
    note_served(cmd, p, by, out);
}

/// Refuses a request by fault, as a device does, and notes it.
pub fn refuse(p: &mut Packet, out: &mut Outbox)
    requires size { p.old.size ≤ 64 }
    requires room { length out.old.entries < 528 }
    ensures packet { p.new ≡ fault_response p.old p.old.cmd }
    ensures noted { out.new ≡ extended out.old [] (served_entries p.old p.new true) out.old.next }
{
    let cmd = p.cmd;
    p.refuse();
    note_served(cmd, p, ServedBy::Device, out);
}
