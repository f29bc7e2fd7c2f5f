//! The plain model of the machine: what each of its parts does, and what the machine does with what they ask for.
//!
//! Its promise: the definitions in `specs/` are total rules on plain lists and numbers. Read `specs/ObjState.antt`, a kind's
//! module (`specs/AtomicCpu.antt`, `specs/Server.antt` with `Memory`, `Uart` and `ExitDevice`), and then `specs/Sys.antt` and
//! `specs/Deliver.antt`, in this order. There is no engine here, and no law: those stand in gm_laws and gm_system.
#![tactic(auto)]

mod laws;

pub use gm_words::{
    Act, Answer, CacheConfig, Caches, Cmd, Config, DmaConfig, Entry, Goal, Kind, Own, Packet,
    Params, PortUse, Reason, Until, Wake, Way, platform,
};
pub use laws::{
    runs_as_the_line_rises, runs_as_the_timer_wakes, runs_end, runs_in_time, runs_store_and_exit,
};
