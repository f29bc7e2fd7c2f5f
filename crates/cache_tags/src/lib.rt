//! What a cache keeps: its lines by set, and how recently each of them was used.
//!
//! Its promise: the lines are one list for each set, the most recently used first, and each call is a short definition on these lists. A line
//! that comes takes a free way where there is one, and else the way of its set's least recently used line, which is handed out. Lines of a set
//! differ and belong to it. Read `specs/Line.antt` first, then `specs/Held.antt` and `specs/Kept.antt`. Only `Tags::new` takes memory.
//! When a line is used, and where its bytes come from, is left to the crates above.
#![tactic(auto)]

mod place;
mod set;
mod stored;
mod tags;

pub use place::{LineAt, Place, Victim};
pub use tags::Tags;
