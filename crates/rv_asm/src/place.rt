// Where a label is given.

/// Where a label is given.
#[derive(Clone, Copy, Debug, PartialEq, Eq)]
pub(crate) struct Place {
    /// The number of the line.
    pub(crate) line: u32,
    /// How many words stand in front of it.
    pub(crate) words: u32,
}
