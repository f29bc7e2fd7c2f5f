//! RAM as a part of the machine.
//!
//! Its promise: `Ram` is the device `Memory` of `gm_model`, so that each call of `Mem` is the rule of its server. What all
//! servers share is in `obj_server`. Read `specs/Memory.antt` of `gm_model` first.
//! Only `configure` takes memory: RAM's bytes, zeroed.
#![tactic(auto)]

mod device;
mod ram;
mod serve;

pub use device::Mem;
pub use ram::Ram;

#[cfg(test)]
mod tests;
