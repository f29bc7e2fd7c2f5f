// What a read gets of the bytes that a cache has.
ghost use Rattle.std.specs.Prelude.{◌≡◌, ◌≤◌, length, take, drop};
ghost use Rattle.gm_words.specs.Allowed.{MayPass};
ghost use Rattle.pkt_pool.specs.Packet.{read_response};

use gm_model::Packet;

/// Answers a read by bytes from one on: as many as it asks for, if there are so many.
#[tactic(auto, using(std::proofs::lemmas::List::take_min))]
pub(crate) fn answer(p: &mut Packet, bytes: &[u8], from: usize)
    requires size { MayPass p.old }
    requires within { from ≤ length bytes.now }
    ensures { p.new ≡ read_response p.old (take p.old.size (drop from bytes.now)) }
{
    let rest = &bytes[from..];
    let count = (p.size as usize).min(rest.len());
    p.answer(&rest[..count]);
}
