// Where a CPU stands.
use crate::hand::Hand;

/// Where a CPU stands: between two instructions; its fetch is made; the word that was fetched asks for an access; that is made.
#[derive(Clone, Copy)]
pub enum Stage {
    Between,
    Fetch(Hand),
    Ready { word: u32 },
    Data { word: u32, hand: Hand },
}
