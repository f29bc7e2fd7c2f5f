// Why no machine is built.
use gm_model::Kind;
use thiserror::Error;

/// Why no machine is built.
#[derive(Clone, Copy, Debug, PartialEq, Eq, Error)]
pub enum BuildFault {
    /// There are too few parts of this kind, or it isn't built yet.
    #[error("part {kind}")]
    Part { kind: Kind },
    #[error("memory")]
    NoMemory,
}
