//! Packets, and pools of them: each is kept under a key that the pool picks, until it is taken out.
//!
//! Its promise: a key gives the packet that was put under it, and a put or a take changes no other key. Read `specs/Pooled.antt`
//! first. Only `Pool::new` takes memory. Who queues packets owns a pool, and keeps the keys in the order of the queue.
#![tactic(auto)]

mod cmd;
mod packet;
mod pool;

pub use cmd::Cmd;
pub use packet::Packet;
pub use pool::Pool;
