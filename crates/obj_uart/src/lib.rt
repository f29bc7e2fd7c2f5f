//! The UART as a part of the machine: a server with eight registers of one byte each.
//!
//! Its promise: `UartDevice` is the device `Uart` of `gm_model`, so that each call of `Uart` is the rule of its server. What all
//! servers share is in `obj_server`. Read `specs/State.antt` first, which says what state it shows; the rule itself is
//! `specs/Uart.antt` of `gm_model`. Only `configure` takes memory: the places of the input.
#![tactic(auto)]

mod device;
mod serve;

pub use device::{Uart, UartDevice};

#[cfg(test)]
mod tests;
