// What a file says as an image.
use crate::Pieces;

/// What goes to memory, and where execution then starts.
#[derive(Debug, Drop)]
pub struct Image {
    /// The address of the first instruction, a multiple of 4.
    pub entry: u64,
    /// What goes to memory, in order. All other bytes of RAM are zero.
    pub pieces: Pieces,
}
