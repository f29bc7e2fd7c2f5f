//! The top call of the program: `gemcore`, over words, a store of files and two sinks.
//!
//! Its promise stands on that call: for each status what the words came to, step by step, what console and report
//! took of it, in order, and what stands in the store. Of `specs/` read `Calls` first, which says what each form of
//! words comes to, then `Ending` and `Emissions`, which say what that leaves, and `Outside`, the one value that clauses
//! speak of. It opens no file and prints nothing by itself: that is the program's, in gc_cli.
#![tactic(auto)]

mod assembly;
mod fetch;
mod flat;
mod flat_report;
mod flat_run;
mod laws;
mod lines;
mod registers;
mod run;
mod script;
mod status;
#[cfg(test)]
mod tests;
mod top_call;
mod words;

pub use laws::{scripts_are_replayed, steps_are_counted};
pub use status::Status;
pub use top_call::gemcore;
