//! The generated program: a list of words that a seed and a number of blocks give, the same in every run.
//!
//! Its promise: `program` gives exactly the words of `specs/Generated.antt`, which is short. The program sets fifteen registers, makes eight
//! steps a block, each an addition, a multiplication, a store or a load, and stores 0 to the exit device.
//! Memory for the words is taken once. What the words do is said in `rv_step`, and the file that they are put into elsewhere.
#![tactic(auto)]

mod choosing;
mod drawing;
mod generating;
#[cfg(test)]
mod tests;

pub use generating::{BLOCKS_MAX, program};
