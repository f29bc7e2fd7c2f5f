// What a CPU has of its packet.
use gm_model::Packet;

/// What a CPU has of its packet: it is offered, and not answered yet; it was refused and waits; it is with others.
#[derive(Clone, Copy)]
pub enum Hand {
    Asks(Packet),
    Held(Packet),
    Away,
}
