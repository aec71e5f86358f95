//! The refusal of an answer text.

/// The text isn't an answer: the number of the first line that doesn't fit, or, if each line fits
/// but some are missing, the number of lines plus 1. Blank lines and comments count.
#[derive(Clone, Copy, Debug, PartialEq, Eq)]
pub struct Shape {
    /// Counted from 1.
    pub line: u128,
}
