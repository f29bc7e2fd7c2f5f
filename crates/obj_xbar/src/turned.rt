// How a packet is changed on its way through a crossbar.
ghost use Rattle.std.specs.Prelude.{◌≡◌, ◌<◌};
ghost use Rattle.pkt_pool.specs.Packet.{is_response};
ghost use Rattle.gm_model.specs.Xbar.{turned as turned_at};

use gc_base::PortNo;
use gm_model::Packet;

/// A packet that came in by a port: a request notes the port, and a response forgets the one that was noted last.
pub(crate) fn turned(p: &Packet, port: PortNo) -> Packet
    ensures packet { result ≡ turned_at port.0 p.now }
    ensures size { result.size ≡ p.now.size }
{
    let mut turned = *p;
    if p.is_response() {
        turned.pop_port();
    } else {
        turned.push_port(port);
    }
    turned
}
