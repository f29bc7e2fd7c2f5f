//! The machine: boxed parts, the queue of their events, and the loop that serves them.
//!
//! Its promise: whatever parts it holds, each call of `Machine` is the definition of the plain model over the states that
//! the parts show, and what its events note is replayed over flat memory. Read `specs/Shown.antt` first, and then
//! `src/serve.rt`, where `fire`, `deliver` and `run` stand together. In atomic mode a packet is passed from part to part, in
//! timing mode it is offered from port to port; both are items of one list, which are delivered in order. Drain and
//! checkpoints come later.
#![tactic(auto)]

mod board;
mod boxes;
mod build;
mod build_fault;
mod deliver;
mod draw;
mod entries;
mod input;
mod load;
mod machine;
mod reason;
mod run_end;
mod serve;
mod write;

pub use build_fault::BuildFault;
pub use machine::Machine;
pub use run_end::{Fired, RunEnd, RunFault};
