//! What stands outside the simulator: a store of files and a sink of bytes, as traits with contracts.
//!
//! A store or a sink may tell what it holds, or not; it always counts its faults. The promise of this crate is that a call
//! fails only where that count rose, and that what is told after a call is exactly what the call did to what was told before.
//! `MemStore` and `MemSink` keep all in memory, fail where a test asks them to, and tell everything. `SureStore` and
//! `SureSink` never fail. `DirStore` and `StdSink` are the adapters of the real files and streams; they tell no content.
//! Read `specs/Told.antt`, `specs/Sink.antt` and `specs/Store.antt` first.
#![tactic(auto)]

mod answer;
mod dir_store;
mod faults;
mod kept_files;
mod mem_sink;
mod mem_store;
mod planned_faults;
mod sink;
mod std_sink;
mod store;
mod sure_sink;
mod sure_store;
mod taken_bytes;
#[cfg(test)]
mod tests;

pub use dir_store::DirStore;
pub use faults::Failed;
pub use mem_sink::MemSink;
pub use mem_store::MemStore;
pub use sink::Sink;
pub use std_sink::StdSink;
pub use store::{GetError, Got, Store};
pub use sure_sink::SureSink;
pub use sure_store::{OpenPut, SureStore};
