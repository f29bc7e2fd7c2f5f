//! The cache as a part: it serves accesses of lines that it has, asks for a line that it lacks, and writes dirty lines back as they leave.
//!
//! Its promise: each call is the cache's rule. Read `specs/Shown.antt` first, and gm_cache's `specs/Rule.antt`. Only `Cache::start` takes memory.
#![tactic(auto)]

mod answer;
mod cache;
mod leaving;
mod lines;
mod registers;
#[cfg(test)]
mod tests;

pub use cache::Cache;
