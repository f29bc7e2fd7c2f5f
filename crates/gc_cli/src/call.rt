// Whole calls of the program.
pub(crate) mod tests;
