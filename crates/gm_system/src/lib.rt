//! The theorems on a whole machine, whichever kinds of parts it has: it stays sound, what it notes is right over flat memory, no packet
//! is lost or doubled, and each event comes to an end.
//!
//! Read `specs/Machine.antt` first, the one invariant, and then `specs/Runs.antt`, what is so of runs over any order of events. No
//! lemma here has a case on the kinds of parts: it knows them by their laws (gm_laws) alone. Crates above cite `proofs/ForKernel.antt`.
#![tactic(auto)]

mod laws;

pub use laws::{machines_start_sound, machines_stay_sound, runs_are_replayed};
