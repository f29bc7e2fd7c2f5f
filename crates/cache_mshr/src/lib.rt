//! The miss registers of a cache: which lines are on their way to it, and which packets wait for each of them.
//!
//! Its promise: the registers are a list, the one that was opened first in front, and each call is a definition on that list. A register
//! has a key, by which it is reached without a search, and no two are open for one line. Read `specs/Registers.antt` first. Only
//! `Mshrs::new` takes memory. A packet stands here by the key that its pool gave it.
#![tactic(auto)]

mod entry;
mod mshrs;
mod targets;

pub use mshrs::Mshrs;

#[cfg(test)]
mod tests;
