//! The exit device as a part of the machine: a server with one register, to which the guest writes its exit number.
//!
//! Its promise: `ExitDevice` is the device `Exit` of `gm_model`, so that each call of `ExitDev` is the rule of its server. What
//! all servers share is in `obj_server`. Read `specs/ExitDevice.antt` of `gm_model` first. It takes no memory.
#![tactic(auto)]

mod device;

pub use device::{ExitDev, ExitDevice};

#[cfg(test)]
mod tests;
