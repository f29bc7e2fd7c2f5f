//! The rule of a cache on plain lists: what each wake does to its lines, its registers and what it sends; and the laws of its lines.
//!
//! Its promise: the definitions in `specs/` are total. Read `specs/State.antt`, `specs/Rule.antt` and then `specs/Lines.antt`. There is no
//! engine here: the functions say what laws the rule keeps, and what it gives in an example that was worked out beside it.
#![tactic(auto)]

mod example;
mod laws;

pub use example::{reads_without_time, wakes_give_rows};
pub use laws::cache_lines_keep_laws;
