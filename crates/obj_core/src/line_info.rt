// What is told of a cache line.

/// A line of a cache: its set, its address, and whether it has bytes that memory lacks.
#[derive(Clone, Copy, Debug, PartialEq, Eq)]
pub struct LineInfo {
    pub set: u32,
    pub addr: u64,
    pub dirty: bool,
}
