// Where a CPU stands.

/// Where a CPU stands: between two instructions, or before the response to a fetch or to a data access.
#[derive(Clone, Copy)]
pub enum Stage {
    Rest,
    AwaitFetch,
    AwaitData { word: u32, latency: u64 },
}
