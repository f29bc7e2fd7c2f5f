// The failure of a call to the outside.
use thiserror::Error;

/// A call to a store or a sink failed. Its count of faults says so too.
#[derive(Clone, Copy, Debug, PartialEq, Eq, Error)]
#[error("a call to a store or a sink failed")]
pub struct Failed;
