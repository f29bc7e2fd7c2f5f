// What is told of an event and of a run.
use ev_queue::Due;
use gm_model::Reason;
use thiserror::Error;

/// An event that was served.
#[derive(Clone, Copy, Debug, PartialEq, Eq)]
pub struct Fired {
    pub due: Due,
    /// The byte that it brought to the console, if it did.
    pub console: Option<u8>,
}

/// How a run ended, how many instructions retired in it, and how many events it served.
#[derive(Clone, Copy, Debug, PartialEq, Eq)]
pub struct RunEnd {
    pub reason: Reason,
    pub insts: u64,
    pub events: u64,
}

/// Which sink failed. The machine stands after the whole event whose bytes were refused.
#[derive(Clone, Copy, Debug, PartialEq, Eq, Error)]
pub enum RunFault {
    #[error("the console failed")]
    Console,
    #[error("the report failed")]
    Report,
}
