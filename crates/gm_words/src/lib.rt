//! What the parts of a machine and the machine say to each other: packets, wakes and what they are answered, entries, kinds,
//! parameters, goals, and the platform as one table.
//!
//! Its promise: each call is its definition in `specs/`, on plain lists and numbers. Read `specs/Platform.antt` first, which has the
//! parts of a machine, and `specs/Replay.antt`, by which runs are measured. No rule of a part is here.
#![tactic(auto)]

mod act;
mod answer;
mod entry;
mod goal;
mod kind;
mod laws;
mod own;
mod params;
pub mod platform;
pub mod port_use;
mod wake;
mod way;

pub use act::Act;
pub use answer::Answer;
pub use cfg_tree::{CacheConfig, Caches, Config, DmaConfig};
pub use entry::Entry;
pub use goal::{Goal, Reason, Until};
pub use kind::Kind;
pub use laws::events_of_others_stay;
pub use own::Own;
pub use params::Params;
pub use pkt_pool::{Cmd, Packet};
pub use platform::{End, Part, Range};
pub use port_use::PortUse;
pub use wake::Wake;
pub use way::Way;
