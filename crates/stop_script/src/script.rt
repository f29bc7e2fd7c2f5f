// A script that was read.
use crate::stops::Stops;

/// A script that was read.
#[derive(Debug, Drop)]
pub struct Script {
    pub stops: Stops,
}
