//! The laws of a cache's ports, in the words of the laws of parts.
//!
//! Its promise: whatever a cache is woken by, its rule keeps what the theorems on machines ask of a part's ports and packets. Read
//! `specs/Face.antt`, what the others see of a cache and what holds of it by itself, and then `specs/Laws.antt`.
#![tactic(auto)]

mod laws;

pub use laws::cache_wakes_keep_laws;
