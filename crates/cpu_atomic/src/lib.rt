//! The atomic CPU: one instruction at each event, with its accesses passed at once.
//!
//! Its promise: an `AtomicCpu`, configured or not, is the part whose rule is `atomic_cpu_step`, whatever is asked of it.
//! Read `specs/Shown.antt` first, which says what state it shows, and then `specs/AtomicCpu.antt` of `gm_model`.
//! The hart's state stays in its place, and no packet and no event needs memory.
#![tactic(auto)]

mod atomic_cpu;
mod configured;
mod end_of_instruction;
mod lines;
mod requests;
mod sequencer;
mod stage;

pub use atomic_cpu::AtomicCpu;

#[cfg(test)]
mod tests;
