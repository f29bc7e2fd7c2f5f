//! The timing CPU: one instruction at a time, whose fetch and data access are offered, and whose responses come later.
//!
//! Its promise: a `TimingCpu`, configured or not, is the part whose rule is `timing_cpu_step`, whatever is asked of it.
//! Read `specs/Shown.antt` first, which says what state it shows, and then `specs/TimingCpu.antt` of `gm_model`.
//! The hart's state stays in its place, and no packet and no event needs memory.
#![tactic(auto)]

mod accesses;
mod configured;
mod end_of_instruction;
mod hand;
mod sequencer;
mod stage;
mod timing_cpu;

pub use timing_cpu::TimingCpu;

#[cfg(test)]
mod tests;
