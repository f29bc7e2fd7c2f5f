//! What probes see of a run: how often what was noted.
//!
//! Its promise: the counters are those of the entries that were noted, as `gm_words` counts them; their lines and their JSON
//! object are the statistics of these counters, and a trace has the line of each entry. Read `specs/Counted.antt` first, then
//! `specs/Stats.antt` and `specs/Trace.antt`. It decides neither when what is noted nor where a line goes.
#![tactic(auto)]

mod counters;

pub use counters::Counters;
