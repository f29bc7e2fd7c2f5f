// Where lines stand, and what is told of them.

/// A line's place: its set, and the way that it stands in.
#[derive(Clone, Copy, Debug, PartialEq, Eq)]
pub struct Place {
    pub set: u32,
    pub way: u32,
}

/// A line: its address, whether it was written since it came, and its place.
#[derive(Clone, Copy, Debug, PartialEq, Eq)]
pub struct LineAt {
    pub addr: u64,
    pub dirty: bool,
    pub at: Place,
}

/// A line that left as another came.
#[derive(Clone, Copy, Debug, PartialEq, Eq)]
pub struct Victim {
    pub addr: u64,
    pub dirty: bool,
    /// The line's bytes in front, and zeros behind.
    pub bytes: [u8; 64],
}
