//! The servers: a part that serves requests, whichever device it is that serves them.
//!
//! Its promise: each call of a `Served` part is the rule of a server in `gm_model`, on the state that it shows, if its `Device`
//! keeps the device's rule. Read `specs/Device.antt` and `src/device.rt` first: a kind of server is made by an `impl Device`
//! and nothing else. The queue of offers is `Server`'s, and only `configure` takes memory.
#![tactic(auto)]

mod configured;
mod device;
mod note;
mod own_event;
mod reply;
mod served;
mod served_by;
mod server;

pub use device::{DEVICE_PLACES, Device, Start};
pub use note::note_served;
pub use own_event::OwnEvent;
pub use reply::{answer_read, answer_write, refuse};
pub use served::Served;
pub use served_by::ServedBy;
