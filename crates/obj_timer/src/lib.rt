//! The timer as a part of the machine: a server with the line that software sets, and with a clock whose line rises as it
//! comes to a number.
//!
//! Its promise: `TimerDevice` is the device `Timer` of `gm_model`, so that each call of `Timer` is the rule of its server.
//! What all servers share is in `obj_server`. Read `specs/State.antt` first, which says what state it shows; the rule itself
//! is `specs/Timer.antt` of `gm_model`. It takes no memory.
#![tactic(auto)]

mod clock;
mod device;
mod registers;
mod serve;

pub use device::{Timer, TimerDevice};

#[cfg(test)]
mod tests;
