//! Groups of things, and groups of persons.

use mcf_roster::Range;

/// What a group is made of.
#[derive(Clone, Copy, Debug, PartialEq, Eq)]
pub enum Members {
    /// Things: each person takes a number of them within the range.
    Things,
    /// Persons: a number of them within the range takes each thing.
    Persons,
}

/// A group of things, of which each person takes `range.least` to `range.most`; or a group of
/// persons, of whom `range.least` to `range.most` take each thing.
#[derive(Drop)]
pub struct Group {
    pub of: Members,
    /// The numbers of its things, or of its persons, counted from 1.
    pub members: Vec<u32>,
    pub range: Range,
}
