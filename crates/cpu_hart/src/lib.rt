//! What a CPU of either mode does with the hart, and the requests that it makes for it.
//!
//! Its promise: each call is one step of the instruction set (`rv_step`), or of the rules on lines, requests and ticks that both CPUs
//! share (`specs/HartLine.antt` of `gm_words`, `specs/Accesses.antt` of `gm_model`). When a step is taken is the CPU's own rule, in
//! `cpu_atomic` and `cpu_timing`.
#![tactic(auto)]

mod hart;
mod octets;
pub mod packets;
mod ticks;

pub use hart::{
    INSTRUCTION_ACCESS, LOAD_ACCESS, STORE_ACCESS, demand, is_asleep, is_awake, retire, set_line,
    trap,
};
pub use octets::{number, word};
pub use ticks::next_period;
