//! The crossbar as a part of the machine: packets go through it in layers, one for each port at which it offers.
//!
//! Its promise: each call of an `Xbar` is the rule of a crossbar in `gm_model`, on the state that it shows, whatever its ports are.
//! Read `specs/Xbar.antt` of `gm_model` first, and then `src/layers.rt`. Only `configure` takes memory: a place for one packet in each layer.
#![tactic(auto)]

mod lane;
mod layers;
mod ports;
mod side;
mod turned;
mod waiting;
mod xbar;

pub use xbar::Xbar;

#[cfg(test)]
mod tests;
