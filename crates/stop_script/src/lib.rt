//! The reader of scripts: the text that says how far a machine runs and what is shown on the way.
//!
//! Its promise: `read` gives exactly the stops that the lines of a text say, or the number of the first line that says
//! none, and the canonical text of stops reads back. Read `specs/Lines.antt` first, which says line by line what a script
//! is; `specs/Script.antt` and `specs/Stop.antt` compute it.
//! It runs nothing: the stops are carried out by the program. Lines of the forms that aren't built yet are refused.
#![tactic(auto)]

mod line;
mod reader;
mod script;
mod script_fault;
mod stop;
mod stops;
#[cfg(test)]
mod tests;

pub use reader::read;
pub use script::Script;
pub use script_fault::ScriptFault;
pub use stop::Stop;
pub use stops::Stops;
