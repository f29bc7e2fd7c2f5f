//! What the kernel sees of a part: the trait `SimObject`, and what it hands to one.
//!
//! Its promise: whichever part is boxed, each of its calls is the rule of the part's kind in `gm_model`, on the state that
//! the part shows. Read `specs/Handles.antt` and then `src/sim_object.rt`, where the rules between parts and kernel stand
//! as a list. The calls that save and load a part's keys come with the checkpoints.
#![tactic(auto)]

mod flow;
mod handles;
mod item;
mod line_info;
mod outbox;
mod sim_object;

pub use flow::Flow;
pub use handles::Handles;
pub use item::Item;
pub use line_info::LineInfo;
pub use outbox::Outbox;
pub use sim_object::SimObject;
