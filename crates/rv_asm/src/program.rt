// An assembled program.
use crate::words::Words;

/// What a source assembles to.
#[derive(Debug, Drop)]
pub struct Program {
    /// Its words, in the order of their addresses.
    pub words: Words,
}
