// What is still to be delivered.
use gc_base::ObjId;
use gm_model::{Act, Packet};

/// What is still to be delivered.
#[derive(Clone, Copy, Debug, PartialEq, Eq)]
pub enum Item {
    /// What a part asked for.
    Sent {
        sender: ObjId,
        act: Act,
    },
    /// To a part, the packet that it passed on and that was served, with the latency of its way, in ticks.
    Done {
        sender: ObjId,
        pkt: Packet,
        latency: u64,
    },
}
